// The small Sylvester solve: lasy2, two by two against two by two, by full pivoting on a four by
// four system. A matrix is an array of its rows: t[i][j] stands in row i, column j.
ghost use Rattle.std.specs.Prelude.{◌≡◌, ◌<◌, ◌+◌, ◌-◌, set};
ghost use Rattle.std.specs.Float.{binary64};
ghost use Rattle.model.specs.Lasy2 as Lasy2;
ghost use Rattle.sylvester.specs.View.{solution, sylvester};

use arith::real::{EPS, MIN_POSITIVE, abs, fmax, recip};
use std::marker::Model;

// x, column after column, at a scale: tl * x - x * tr = scale * b.
#[derive(Clone, Copy)]
pub struct Solution {
    pub x: [f64; 4],
    pub scale: f64,
}

// The largest magnitude found so far, and where.
#[derive(Clone, Copy)]
struct Pivot {
    xmax: f64,
    row: usize,
    col: usize,
}

// The system t * x = b of four rows, and its least pivot. It goes through its steps by value, as document 01 asks
// of t. A step or a place is a number below 4, written out or as `for` gives it: a struct with the bound in it would
// have to be made of that number at each turn. Rows go by index: a loop reads row i while it writes those behind it,
// or reads two lists at the same place.
#[derive(Clone, Copy)]
struct System {
    t: [[f64; 4]; 4],
    b: [f64; 4],
    smin: f64,
}

// The largest of m and three magnitudes.
#[tactic(auto, unfolding(model::specs::Lasy2::largest))]
fn largest(m: f64, x: f64, y: f64, z: f64) -> f64
    ensures { result ≡ Lasy2.largest m x y z }
{
    fmax(fmax(fmax(m, abs(x)), abs(y)), abs(z))
}

// 2^-970.
#[tactic(auto, unfolding(model::specs::Lasy2::smlnum))]
fn smlnum() -> f64
    ensures { result ≡ Lasy2.smlnum binary64 }
{
    MIN_POSITIVE / EPS
}

// The least pivot.
#[tactic(auto, unfolding(model::specs::Lasy2::smin_of))]
fn smin_of(tl: [[f64; 2]; 2], tr: [[f64; 2]; 2]) -> f64
    ensures { result ≡ Lasy2.smin_of binary64 tl tr }
{
    let m = largest(abs(tr[0][0]), tr[0][1], tr[1][0], tr[1][1]);
    let m = largest(fmax(m, abs(tl[0][0])), tl[0][1], tl[1][0], tl[1][1]);
    fmax(EPS * m, smlnum())
}

// Whether b is so large that it has to be scaled down before it is divided by t.
#[tactic(auto, unfolding(model::specs::Lasy2::exceeds))]
fn exceeds(t: f64, b: f64) -> bool
    ensures { result ≡ Lasy2.exceeds binary64 t b }
{
    (8.0 * smlnum()) * abs(b) > abs(t)
}

// Row r with the multiple of row p taken off that clears place i, where the multiplier then stands.
#[inline(always)]
#[tactic(auto, using(arith::proofs::Left::left_suc), unfolding(model::specs::Lasy2::reduced_row, model::specs::Lasy2::less_from))]
fn reduced_row(p: [f64; 4], i: usize, mut r: [f64; 4]) -> [f64; 4]
    requires { i < 4 }
    ensures { result ≡ Lasy2.reduced_row binary64 p i r }
{
    let m = r[i] / p[i];
    r[i] = m;
    for k in i + 1..4 {
        r[k] -= m * p[k];
    }
    r
}

impl Model for Pivot {
    ghost Value = { Lasy2.Pivot };

    ghost view = { λ p. record { xmax = p.xmax; row = p.row; col = p.col } };

    ghost inverse = { λ p. record { xmax = p.xmax; row = p.row; col = p.col } };

    ghost invariant = { λ p. (p.row < 4) × (p.col < 4) };
}

impl Pivot {
    // x at (i, j) where its magnitude is at least the largest so far: so the last of equal ones, and
    // never a NaN.
    #[inline(always)]
    #[tactic(auto, unfolding(model::specs::Lasy2::better))]
    fn better(self, x: f64, i: usize, j: usize) -> Pivot
        requires { (i < 4) × (j < 4) }
        ensures { result ≡ Lasy2.better x i j self }
    {
        let xmax = abs(x);
        if xmax >= self.xmax {
            Pivot {
                xmax,
                row: i,
                col: j,
            }
        } else {
            self
        }
    }
}

impl System {
    // tl * x - x * tr = b, for x column after column.
    #[inline(always)]
    #[tactic(auto, unfolding(model::specs::Lasy2::t16_of, model::specs::Lasy2::btmp_of))]
    fn new(tl: [[f64; 2]; 2], tr: [[f64; 2]; 2], b: [[f64; 2]; 2]) -> System
        ensures t { result.t ≡ Lasy2.t16_of binary64 tl tr }
        ensures b { result.b ≡ Lasy2.btmp_of b }
        ensures smin { result.smin ≡ Lasy2.smin_of binary64 tl tr }
    {
        let t = [
            [tl[0][0] - tr[0][0], tl[0][1], -tr[1][0], 0.0],
            [tl[1][0], tl[1][1] - tr[0][0], 0.0, -tr[1][0]],
            [-tr[0][1], 0.0, tl[0][0] - tr[1][1], tl[0][1]],
            [0.0, -tr[0][1], tl[1][0], tl[1][1] - tr[1][1]],
        ];
        System {
            t,
            b: [b[0][0], b[1][0], b[0][1], b[1][1]],
            smin: smin_of(tl, tr),
        }
    }

    // The largest magnitude at or below and right of (i, i); (i, i) where nothing is found.
    #[inline(always)]
    #[tactic(auto, using(arith::proofs::Left::left_suc), unfolding(model::specs::Lasy2::pivot, model::specs::Lasy2::pivot_from, model::specs::Lasy2::pivot_in_row))]
    fn pivot(&self, i: usize) -> Pivot
        requires { i < 4 }
        ensures { result ≡ Lasy2.pivot binary64 self.now.t i }
    {
        let mut best = Pivot {
            xmax: 0.0,
            row: i,
            col: i,
        };
        for ip in i..4 {
            for jp in i..4 {
                best = best.better(self.t[ip][jp], ip, jp);
            }
        }
        best
    }

    // Rows r and i exchanged, on both sides.
    #[inline(always)]
    #[tactic(auto, using(std::proofs::lemmas::List::Edits::swap_is), unfolding(model::specs::Lasy2::swap_rows, model::specs::Lasy2::swap_places))]
    fn swap_rows(mut self, r: usize, i: usize) -> System
        requires { (r < 4) × (i < 4) }
        ensures t { result.t ≡ Lasy2.swap_rows self.t r i }
        ensures b { result.b ≡ Lasy2.swap_places self.b r i }
        ensures smin { result.smin ≡ self.smin }
    {
        self.t.swap(r, i);
        self.b.swap(r, i);
        self
    }

    // Columns c and i exchanged.
    #[inline(always)]
    #[tactic(auto, using(arith::proofs::Left::left_suc, std::proofs::lemmas::List::Edits::swap_is), unfolding(crate::proofs::Order::cols_from, model::specs::Lasy2::swap_places))]
    fn swap_cols(mut self, c: usize, i: usize) -> System
        requires { (c < 4) × (i < 4) }
        ensures { result ≡ record self { t = Lasy2.swap_cols self.t c i } }
    {
        for row in &mut self.t {
            row.swap(c, i);
        }
        self
    }

    // The pivot p brought to (i, i). By `match`, whose arms know their places: an exchange at a place that is computed
    // would have all of t stored, and read again before it is there.
    #[inline(always)]
    fn exchange(self, i: usize, p: Pivot) -> System
        requires { i < 4 }
        ensures t { result.t ≡ Lasy2.swap_cols (Lasy2.swap_rows self.t p.row i) p.col i }
        ensures b { result.b ≡ Lasy2.swap_places self.b p.row i }
        ensures smin { result.smin ≡ self.smin }
    {
        let s = match p.row {
            0 => self.swap_rows(0, i),
            1 => self.swap_rows(1, i),
            2 => self.swap_rows(2, i),
            _ => self.swap_rows(3, i),
        };
        match p.col {
            0 => s.swap_cols(0, i),
            1 => s.swap_cols(1, i),
            2 => s.swap_cols(2, i),
            _ => s.swap_cols(3, i),
        }
    }

    // A diagonal number below smin in magnitude becomes smin.
    #[inline(always)]
    #[tactic(auto, unfolding(model::specs::Lasy2::raised))]
    fn raised(mut self, i: usize) -> System
        requires { i < 4 }
        ensures { result ≡ record self { t = Lasy2.raised self.t i self.smin } }
    {
        if abs(self.t[i][i]) < self.smin {
            self.t[i][i] = self.smin;
        }
        self
    }

    // Column i cleared below (i, i).
    #[inline(always)]
    #[tactic(auto, using(arith::proofs::Left::left_suc), unfolding(model::specs::Lasy2::eliminate, model::specs::Lasy2::eliminate_from))]
    fn eliminate(mut self, i: usize) -> System
        requires { i < 4 }
        ensures { result ≡ record self { t = Lasy2.eliminate binary64 i self.t } }
    {
        for j in i + 1..4 {
            self.t[j] = reduced_row(self.t[i], i, self.t[j]);
        }
        self
    }

    // The same of the right-hand side, by the multipliers that then stand in column i.
    #[inline(always)]
    #[tactic(auto, using(arith::proofs::Left::left_suc), unfolding(model::specs::Lasy2::rhs_from))]
    fn eliminate_rhs(mut self, i: usize) -> System
        requires { i < 4 }
        ensures { result ≡ record self { b = Lasy2.rhs_from binary64 self.t i (4 - (i + 1)) (i + 1) self.b } }
    {
        for j in i + 1..4 {
            self.b[j] -= self.t[j][i] * self.b[i];
        }
        self
    }

    // Step i of the elimination, and the column that its pivot stood in.
    #[inline(always)]
    #[tactic(auto, unfolding(model::specs::Lasy2::reduced, model::specs::Lasy2::reduced_rhs))]
    fn step(self, i: usize) -> (System, usize)
        requires { i < 4 }
        ensures t { result.0.t ≡ Lasy2.reduced binary64 i (Lasy2.pivot binary64 self.t i) self.smin self.t }
        ensures b { result.0.b ≡ Lasy2.reduced_rhs binary64 result.0.t i (Lasy2.pivot binary64 self.t i) self.b }
        ensures smin { result.0.smin ≡ self.smin }
        ensures col { result.1 ≡ (Lasy2.pivot binary64 self.t i).col }
        ensures inside { result.1 < 4 }
    {
        let p = self.pivot(i);
        let s = self.exchange(i, p).raised(i).eliminate(i);
        (s.eliminate_rhs(i), p.col)
    }

    // Whether a number of b is so large in any row: by `any` over the rows the proof does not close.
    #[inline(always)]
    #[tactic(auto, unfolding(model::specs::Lasy2::too_large))]
    fn too_large(&self) -> bool
        ensures { result ≡ Lasy2.too_large binary64 self.now.t self.now.b }
    {
        exceeds(self.t[0][0], self.b[0])
            || exceeds(self.t[1][1], self.b[1])
            || exceeds(self.t[2][2], self.b[2])
            || exceeds(self.t[3][3], self.b[3])
    }

    // b scaled down where that has to be, and its scale.
    #[inline(always)]
    #[tactic(auto, using(crate::proofs::Order::four_is), unfolding(model::specs::Lasy2::scaled_rhs, model::specs::Lasy2::scaled_by))]
    fn scale_rhs(&mut self) -> f64
        ensures b { (record { x = self.new.b; scale = result }) ≡ Lasy2.scaled_rhs binary64 self.old.t self.old.b }
        ensures t { self.new.t ≡ self.old.t }
    {
        if !self.too_large() {
            return 1.0;
        }
        let b = self.b;
        let scale = 0.125 / largest(abs(b[0]), b[1], b[2], b[3]);
        self.b = b.map(|x| x * scale);
        scale
    }

    // The number of x at place k, from those behind it.
    #[inline(always)]
    #[tactic(auto, using(arith::proofs::Left::left_suc), unfolding(model::specs::Lasy2::entry_at, model::specs::Lasy2::entry_from))]
    fn entry(&self, k: usize, x: &[f64; 4]) -> f64
        requires { k < 4 }
        ensures { set x.now k result ≡ Lasy2.entry_at binary64 self.now.t self.now.b k x.now }
    {
        let temp = recip(self.t[k][k]);
        let mut s = self.b[k] * temp;
        for j in k + 1..4 {
            s -= temp * self.t[k][j] * x[j];
        }
        s
    }

    // Back substitution, from the last row up.
    #[inline(always)]
    #[tactic(auto, using(crate::proofs::Order::up_next, crate::proofs::Order::up_none), unfolding(crate::proofs::Order::up_from, model::specs::Lasy2::back))]
    fn back(&self) -> [f64; 4]
        ensures { result ≡ Lasy2.back binary64 self.now.t self.now.b }
    {
        let mut x = [0.0; 4];
        for k in (0..4).rev() {
            x[k] = self.entry(k, &x);
        }
        x
    }

    // x and its scale, with the order of the columns undone. The three steps are no loop, and what they call goes in
    // line: each step is a number that the compiler knows, so it writes out all loops below and keeps t in registers.
    #[inline(always)]
    #[tactic(auto, using(std::proofs::lemmas::List::Edits::swap_is), unfolding(model::specs::Lasy2::solved, model::specs::Lasy2::triangular, model::specs::Lasy2::swap_places))]
    fn solve(self) -> Solution
        ensures { solution result ≡ Lasy2.solved binary64 self.smin self.t self.b }
    {
        let (s, c0) = self.step(0);
        let (s, c1) = s.step(1);
        let (s, c2) = s.step(2);
        let mut s = s.raised(3);
        let scale = s.scale_rhs();
        let mut x = s.back();
        x.swap(2, c2);
        x.swap(1, c1);
        x.swap(0, c0);
        Solution { x, scale }
    }
}

// x and scale of tl * x - x * tr = scale * b. A pivot below smin is replaced by smin. In line, so that its arrays are
// not stored to be handed over.
#[inline(always)]
#[tactic(auto, unfolding(model::specs::Lasy2::lasy2))]
pub fn lasy2(tl: [[f64; 2]; 2], tr: [[f64; 2]; 2], b: [[f64; 2]; 2]) -> Solution
    ensures { sylvester result ≡ Lasy2.lasy2 binary64 tl tr b }
{
    System::new(tl, tr, b).solve()
}
