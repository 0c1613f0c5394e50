// The complex shifted solver, block by block from the last: (A - p - q i) x = b. The real parts of x stand in one
// column and the imaginary parts in the next, ld further.
ghost use Rattle.std.specs.Prelude.{◌≡◌, ◌+◌, ◌<◌, ◌≤◌, length};
ghost use Rattle.std.specs.Float.{binary64};
ghost use Rattle.model.specs.Form.{at};
ghost use Rattle.model.specs.Vectors as Vectors;
ghost use Rattle.solve.specs.Columns.{TwoColumns};
ghost use Rattle.solve.specs.View.{complex, rows};
ghost use Rattle.std.specs.Float.Ieee.{neg, sub};

use crate::complex::Complex;
use crate::dots::{dot2x1, dot2x2};
use crate::leading::Leading;
use crate::shifted::Shifted;
use crate::strided::Strided;
use crate::walk::{EachBlock, blocks_down};

// Two rows.
#[derive(Clone, Copy)]
struct Rows {
    upper: Complex,
    lower: Complex,
}

// The 2-block's own system: s twice on the diagonal, b above and c below it, r on the right.
#[tactic(auto, unfolding(model::specs::Vectors::solve_pair, model::specs::Vectors::less_times))]
fn solve_pair(s: Complex, b: f64, c: f64, r: Rows, norm: f64) -> Rows
    ensures { rows result ≡ Vectors.solve_pair binary64 norm (complex s) b c (rows r) }
{
    let w = s.determinant(b, c).inverse(norm);
    Rows {
        upper: (s * r.upper - b * r.lower) * w,
        lower: (s * r.lower - c * r.upper) * w,
    }
}

impl Shifted<'_, Complex> {
    // Row i of the two columns.
    fn at(&self, i: usize, x: &[f64]) -> Complex
        requires { (i < self.now.a.n) × TwoColumns self.now.a (length x.now) }
        ensures { (result.re ≡ at x.now i) × (result.im ≡ at x.now (self.now.a.ld + i)) }
    {
        Complex {
            re: x[i],
            im: x[self.a.ld + i],
        }
    }

    // Row i of the two columns set.
    #[tactic(auto, unfolding(model::specs::Vectors::complex_set))]
    fn put(&self, i: usize, w: Complex, x: &mut [f64])
        requires { (i < self.now.a.n) × TwoColumns self.now.a (length x.old) }
        ensures { x.new ≡ Vectors.complex_set self.now.a.ld x.old i (complex w) }
    {
        x[i] = w.re;
        x[self.a.ld + i] = w.im;
    }

    // What stands on the diagonal where A has d.
    fn shifted(&self, d: f64) -> Complex
        ensures { complex result ≡ record { re = sub binary64 d self.now.shift.re; im = neg self.now.shift.im } }
    {
        Complex {
            re: d - self.shift.re,
            im: -self.shift.im,
        }
    }

    // Rows i and i + 1 less their inner products with the rows below.
    #[tactic(auto, unfolding(model::specs::Vectors::cplx_rest))]
    fn rest_of(&self, i: usize, x: &[f64]) -> Rows
        requires { (i + 1 < self.now.a.n) × TwoColumns self.now.a (length x.now) }
        ensures { (complex result.upper ≡ Vectors.cplx_rest binary64 self.now.a.ld self.now.a.a.now self.now.a.n x.now i (i + 2)) × (complex result.lower ≡ Vectors.cplx_rest binary64 self.now.a.ld self.now.a.a.now self.now.a.n x.now (i + 1) (i + 2)) }
    {
        let a = self.a;
        let ld = a.ld;
        let count = a.n - (i + 2);
        let re = Strided::run(x, i + 2, count);
        let im = Strided::run(x, ld + (i + 2), count);
        let dot = dot2x2(a.row(i, i + 2), a.row(i + 1, i + 2), re, im);
        let upper = Complex {
            re: dot.d00,
            im: dot.d01,
        };
        let lower = Complex {
            re: dot.d10,
            im: dot.d11,
        };
        Rows {
            upper: self.at(i, x) - upper,
            lower: self.at(i + 1, x) - lower,
        }
    }
}

impl EachBlock for Shifted<'_, Complex> {
    ghost rows = { λ m. m.a.n };

    ghost fits = { λ m. TwoColumns m.a };

    ghost one = { λ m. Vectors.cplx_one binary64 m.a.ld m.a.a.now m.shift.re m.shift.im m.norm m.a.n };

    ghost two = { λ m. Vectors.cplx_two binary64 m.a.ld m.a.a.now m.shift.re m.shift.im m.norm m.a.n };

    #[tactic(auto, unfolding(model::specs::Vectors::cplx_one))]
    fn one(&self, i: usize, x: &mut [f64]) {
        let a = self.a;
        let ld = a.ld;
        let count = a.n - (i + 1);
        let re = Strided::run(&*x, i + 1, count);
        let im = Strided::run(&*x, ld + (i + 1), count);
        let dot = dot2x1(re, im, a.row(i, i + 1));
        let below = Complex {
            re: dot.d0,
            im: dot.d1,
        };
        let r = self.at(i, &*x) - below;
        let z = self.shifted(a.get(i, i));
        self.put(i, r * z.inverse(self.norm), x);
    }

    #[tactic(auto, unfolding(model::specs::Vectors::cplx_two))]
    fn two(&self, i: usize, x: &mut [f64]) {
        let r = self.rest_of(i, &*x);
        let k = self.a.block(i);
        let y = solve_pair(self.shifted(k.d), k.b, k.c, r, self.norm);
        self.put(i, y.upper, &mut *x);
        self.put(i + 1, y.lower, x);
    }
}

// What is sought stands in x after it, where b stood.
#[tactic(auto, unfolding(model::specs::Vectors::solve_cplx))]
pub fn solve_cplx_shifted_upper_quasi_triangular_system(
    a: Leading,
    p: f64,
    q: f64,
    norm: f64,
    x: &mut [f64],
)
    requires { TwoColumns a (length x.old) }
    ensures { x.new ≡ Vectors.solve_cplx binary64 a.entry.ld a.entry.a.now p q norm a.entry.n x.old }
{
    let shift = Complex { re: p, im: q };
    blocks_down(a, &Shifted { a, shift, norm }, x);
}
