// The first rows of a form, as the matrix of a system.
ghost use Rattle.std.specs.Prelude.{◌≡◌, ◌+◌, ◌-◌, ◌*◌, ◌<◌, ◌≤◌, length};
ghost use Rattle.std.specs.Float.{binary64};
ghost use Rattle.model.specs.Form.{entry};
ghost use Rattle.model.specs.Move as Move;

use crate::strided::Strided;
use form::{place, row_start};

// The first n rows of the first n columns in a, ld places apart. It holds no Shape, whose get and size_above want
// the list to end with the last column: here the form may go on, and no n ≤ ld is asked for.
#[derive(Clone, Copy)]
pub struct Leading<'a> {
    pub ld: usize,
    pub n: usize,
    pub a: &'a [f64],
    ghost near: { ld ≤ 128 },
    ghost small: { n ≤ 64 },
    ghost inside: { n + ld * n ≤ length a.now + ld },
}

// The numbers of a 2-block that a solver reads: the lower diagonal number, b above and c below.
#[derive(Clone, Copy)]
pub struct Block {
    pub d: f64,
    pub b: f64,
    pub c: f64,
}

impl<'a> Leading<'a> {
    // The number in row i, column j.
    pub fn get(self, i: usize, j: usize) -> f64
        requires { (i < self.n) × (j < self.n) }
        ensures { result ≡ entry self.entry.ld self.entry.a.now i j }
    {
        self.a[place(self.ld, self.n, i, j)]
    }

    // The rest of row i, from column j on: nothing is left of it where j is n.
    pub fn row(self, i: usize, j: usize) -> Strided<'a>
        requires { (i < self.n) × (j ≤ self.n) }
        ensures { (result.list.now ≡ self.entry.a.now) × (result.start ≡ i + self.entry.ld * j) × (result.step ≡ self.entry.ld) × (result.count ≡ self.entry.n - j) }
    {
        Strided {
            list: self.a,
            start: row_start(self.ld, self.n, i, j),
            step: self.ld,
            count: self.n - j,
        }
    }

    // The size of the block that ends above row p.
    #[tactic(auto, unfolding(model::specs::Move::size_above))]
    pub fn size_above(self, p: usize) -> usize
        requires { (0 < p) × (p ≤ self.n) }
        ensures { (result ≡ Move.size_above binary64 self.entry.ld self.entry.a.now p) × (1 ≤ result) × (result ≤ 2) × (result ≤ p) }
    {
        if p < 2 {
            return 1;
        }
        let below = self.get(p - 1, p - 2);
        if below != 0.0 { 2 } else { 1 }
    }

    // The 2-block in rows i and i + 1.
    pub fn block(self, i: usize) -> Block
        requires { i + 1 < self.n }
        ensures { (result.d ≡ entry self.entry.ld self.entry.a.now (i + 1) (i + 1)) × (result.b ≡ entry self.entry.ld self.entry.a.now i (i + 1)) × (result.c ≡ entry self.entry.ld self.entry.a.now (i + 1) i) }
    {
        let d = self.get(i + 1, i + 1);
        let b = self.get(i, i + 1);
        let c = self.get(i + 1, i);
        Block { d, b, c }
    }
}
