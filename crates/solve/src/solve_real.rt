// The real shifted solver, block by block from the last: (A - p) x = b, b in x at the start and x at the end.
ghost use Rattle.std.specs.Prelude.{◌≡◌, ◌<◌, ◌≤◌, length};
ghost use Rattle.std.specs.Float.{binary64};
ghost use Rattle.model.specs.Vectors as Vectors;

use crate::dots::{Two, dot2x1, inner_prod};
use crate::leading::Leading;
use crate::shifted::Shifted;
use crate::strided::Strided;
use crate::walk::{EachBlock, blocks_down};
use arith::real::{EPS, abs, abs2, recip};

// The divisor, or eps * norm where it is below that in magnitude.
#[tactic(auto, unfolding(model::specs::Vectors::divisor))]
fn divisor(z: f64, norm: f64) -> f64
    ensures { result ≡ Vectors.divisor binary64 norm z }
{
    if abs(z) < EPS * norm { EPS * norm } else { z }
}

// Divided only where it is not zero.
#[tactic(auto, unfolding(model::specs::Vectors::divided))]
fn divided(x: f64, z: f64) -> f64
    ensures { result ≡ Vectors.divided binary64 x z }
{
    if x != 0.0 { x / z } else { x }
}

impl EachBlock for Shifted<'_, f64> {
    ghost rows = { λ m. m.a.n };

    ghost fits = { λ m len. m.a.n ≤ len };

    ghost one = { λ m. Vectors.real_one binary64 m.a.ld m.a.a.now m.shift m.norm m.a.n };

    ghost two = { λ m. Vectors.real_two binary64 m.a.ld m.a.a.now m.shift m.a.n };

    #[tactic(auto, unfolding(model::specs::Vectors::real_one))]
    fn one(&self, i: usize, x: &mut [f64]) {
        let a = self.a;
        let rest = Strided::run(&*x, i + 1, a.n - (i + 1));
        let dot = inner_prod(a.row(i, i + 1), rest);
        let z = divisor(a.get(i, i) - self.shift, self.norm);
        let r = x[i] - dot;
        x[i] = divided(r, z);
    }

    // The diagonal number of the lower row serves for both.
    #[tactic(auto, unfolding(model::specs::Vectors::real_two))]
    fn two(&self, i: usize, x: &mut [f64]) {
        let a = self.a;
        let rest = Strided::run(&*x, i + 2, a.n - (i + 2));
        let Two { d0, d1 } = dot2x1(a.row(i, i + 2), a.row(i + 1, i + 2), rest);
        let r0 = x[i] - d0;
        let r1 = x[i + 1] - d1;
        let k = a.block(i);
        let d = k.d - self.shift;
        let inv_det = recip(abs2(d) - k.b * k.c);
        x[i] = (d * r0 - k.b * r1) * inv_det;
        x[i + 1] = (d * r1 - k.c * r0) * inv_det;
    }
}

// What is sought stands in x after it, where b stood.
#[tactic(auto, unfolding(model::specs::Vectors::solve_real))]
pub fn solve_real_shifted_upper_quasi_triangular_system(
    a: Leading,
    p: f64,
    norm: f64,
    x: &mut [f64],
)
    requires { a.n ≤ length x.old }
    ensures { x.new ≡ Vectors.solve_real binary64 a.entry.ld a.entry.a.now p norm a.entry.n x.old }
{
    let system = Shifted { a, shift: p, norm };
    blocks_down(a, &system, x);
}
