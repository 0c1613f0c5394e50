// A form's shape, the places of its numbers, and its blocks.
ghost use Rattle.std.specs.Prelude.{◌≡◌, ◌+◌, ◌-◌, ◌*◌, ◌≤◌, ◌<◌, IfOk};
ghost use Rattle.std.specs.Float.{binary64};
ghost use Rattle.model.specs.Form as Form;
ghost use Rattle.model.specs.Move as Move;
ghost use Rattle.model.specs.Exchange as Exchange;
ghost use Rattle.model.specs.Swaps as Swaps;
ghost use Rattle.refusal.specs.Line.{answer};
ghost use Rattle.form.specs.Lines.{size_line};

use refusal::Refusal;

// A form has n rows and columns, ld places from one column to the next. Its numbers, and the factor's, stand beside
// it in each call: most take them by `&mut`, and of what a `&mut` in a struct points at no ghost field can say how
// many there are. What only reads is mostly called between writes; a struct of shape and form would be made anew
// each time.
#[derive(Clone, Copy)]
pub struct Shape {
    pub n: usize,
    pub ld: usize,
    ghost small: { n ≤ 64 },
    ghost fits: { n ≤ ld },
    ghost near: { ld ≤ 128 },
}

impl Shape {
    ghost use Rattle.form.specs.Shaped.{Holds, IsOf};

    // The shape of the form t, or the first of lines 2, 17 and 3 that applies.
    #[tactic(auto, unfolding(crate::specs::Lines::size_line, model::specs::Form::line2, model::specs::Form::line17, model::specs::Form::line3))]
    pub fn new(n: usize, ld: usize, t: &[f64]) -> Result<Shape, Refusal>
        ensures line { answer result ≡ size_line ld n t.now }
        ensures shape { IfOk result (λ s. IsOf s n ld t.now) }
    {
        if n == 0 || 64 < n {
            return Err(Refusal::RowCount);
        }
        if ld < n || 128 < ld {
            return Err(Refusal::Stride);
        }
        if t.len() != ld * n {
            return Err(Refusal::FormLength);
        }
        Ok(Shape { n, ld })
    }

    // Where row i, column j stands.
    pub fn place(self, i: usize, j: usize) -> usize
        requires { (i ≤ 128) × (j < self.n) }
        ensures { (result ≡ i + self.ld * j) × (result + self.ld ≤ i + self.ld * self.n) }
    {
        crate::place(self.ld, self.n, i, j)
    }

    // The number in row i, column j.
    pub fn get(self, t: &[f64], i: usize, j: usize) -> f64
        requires { Holds self t.now × (i < self.n) × (j < self.n) }
        ensures { result ≡ Form.entry self.ld t.now i j }
    {
        t[self.place(i, j)]
    }

    // v in row i, column j.
    pub fn put(self, t: &mut [f64], i: usize, j: usize, v: f64)
        requires { Holds self t.old × (i < self.n) × (j < self.n) }
        ensures { t.new ≡ Swaps.put self.ld i j v t.old }
    {
        t[self.place(i, j)] = v;
    }

    // Whether the entry just below the diagonal in column j is zero: a NaN is not, minus zero is.
    pub fn zero_below(self, t: &[f64], j: usize) -> bool
        requires { Holds self t.now × (j + 1 < self.n) }
        ensures { result ≡ Form.zero_below binary64 self.ld t.now j }
    {
        self.get(t, j + 1, j) == 0.0
    }

    // Whether it is not.
    pub fn nonzero_below(self, t: &[f64], j: usize) -> bool
        requires { Holds self t.now × (j + 1 < self.n) }
        ensures { result ≡ Form.nonzero_below binary64 self.ld t.now j }
    {
        !self.zero_below(t, j)
    }

    // Whether a 2-block stands in rows j and j + 1.
    #[tactic(auto, unfolding(model::specs::Form::two_block))]
    pub fn two_block(self, t: &[f64], j: usize) -> bool
        requires { Holds self t.now × (j ≤ 64) }
        ensures { result ≡ Form.two_block binary64 self.ld self.n t.now j }
    {
        j + 1 < self.n && self.nonzero_below(t, j)
    }

    // Whether a 2-block lies across the edge above row e.
    #[tactic(auto, unfolding(model::specs::Exchange::crosses))]
    pub fn crosses(self, t: &[f64], e: usize) -> bool
        requires { Holds self t.now × (e ≤ 64) }
        ensures { result ≡ Exchange.crosses binary64 self.ld self.n t.now e }
    {
        0 < e && self.two_block(t, e - 1)
    }

    // The first row of the block that row p is in.
    #[tactic(auto, using(crate::proofs::Above::across, crate::proofs::Above::inside_edge), unfolding(model::specs::Move::first_row))]
    pub fn first_row(self, t: &[f64], p: usize) -> usize
        requires { Holds self t.now × (p < self.n) }
        ensures { (result ≡ Move.first_row binary64 self.ld t.now p) × (result ≤ p) }
    {
        if self.crosses(t, p) { p - 1 } else { p }
    }

    // The size of the block that begins in row p.
    #[tactic(auto, using(crate::proofs::Above::inside_block), unfolding(model::specs::Move::size_at))]
    pub fn size_at(self, t: &[f64], p: usize) -> usize
        requires { Holds self t.now × (p < self.n) }
        ensures { (result ≡ Move.size_at binary64 self.ld self.n t.now p) × (1 ≤ result) × (result ≤ 2) × (p + result ≤ self.n) }
    {
        if self.two_block(t, p) { 2 } else { 1 }
    }

    // The size of the block that ends above row p.
    #[tactic(auto, using(crate::proofs::Above::across_above, crate::proofs::Above::inside_edge), unfolding(model::specs::Move::size_above))]
    pub fn size_above(self, t: &[f64], p: usize) -> usize
        requires { Holds self t.now × (0 < p) × (p ≤ self.n) }
        ensures { (result ≡ Move.size_above binary64 self.ld t.now p) × (1 ≤ result) × (result ≤ 2) × (result ≤ p) }
    {
        if self.crosses(t, p - 1) { 2 } else { 1 }
    }
}

// The row that a block of nbf rows has for its goal going down, where a block of nbl rows begins at `to`: the
// last rows of both are the same row. A 2-block's goal is a row less against a single row, and a single row's a
// row more against a 2-block.
#[tactic(auto, unfolding(model::specs::Move::goal_down))]
pub fn goal_down(nbf: usize, nbl: usize, to: usize) -> usize
    requires { (1 ≤ to) × (to ≤ 64) × (nbf ≤ 2) × (nbl ≤ 2) × (1 ≤ nbf) × (1 ≤ nbl) }
    ensures { (result ≡ Move.goal_down nbf nbl to) × (result + nbf ≤ to + nbl) }
{
    to + nbl - nbf
}
