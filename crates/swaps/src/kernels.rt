// Orthogonal operations on the N numbers of one row or column: a rotation of two, pairs of reflections of three
// and of four.
ghost use Rattle.std.specs.Prelude.{◌≡◌, ℕ, ◌+◌, ◌≤◌, ◌-◌, List, Float};
ghost use Rattle.std.specs.Float.{binary64};
ghost use Rattle.model.specs.Arith.{recip};
ghost use Rattle.model.specs.Columns.{Operation};
ghost use Rattle.swaps.specs.Lines.{Lines};
ghost use Rattle.swaps.specs.Kernels.{rotated, rotates_lines, reflected3, reflects3_lines, reflected4, reflects4_lines};
ghost use Rattle.swaps.specs.Along.{rotates_on, reflects3_on, reflects4_on};
ghost use Rattle.swaps.specs.Reflects.{reflects_from, reflection_of, IsReflectors};
ghost use Rattle.swaps.specs.View.{reflection3, reflection4};
ghost use Rattle.linalg.specs.View.{rotation};

use arith::real::recip;
use linalg::householder::make_householder;
use linalg::jacobi::{JacobiRotation, apply_on_the_right};
use std::simd::Simd;

// An operation that mixes N lines, which are rows or columns of a form.
pub trait Kernel<const N: usize>: Copy {
    // What it makes of N numbers, one of each line.
    ghost gives: { Self → List Float → List Float };

    // The operation of model's Columns on the lines of these numbers.
    ghost operation: { Self → List ℕ → Operation };

    fn apply(self, x: [f64; N]) -> [f64; N]
        ensures { result ≡ gives self x.entry };

    // The same of numbers that stand side by side in memory, as those of neighbouring rows do.
    fn apply_beside(self, x: [f64; N]) -> [f64; N]
        ensures { result ≡ gives self x.entry };

    // Applied all along the lines, what it makes of N numbers is that operation.
    ghost unfolds: { (k : Self) → Lines N (gives k) (operation k) };
}

impl Kernel<2> for JacobiRotation {
    ghost gives = { λ r x. rotated (rotation r) x };

    ghost operation = { λ r xs. rotates_lines (rotation r) xs };

    ghost unfolds = { λ r. rotates_on (rotation r) };

    fn apply(self, x: [f64; 2]) -> [f64; 2]
        ensures { result ≡ rotated (rotation self) x }
    {
        let w = apply_on_the_right(self, x[0], x[1]);
        [w.x, w.y]
    }

    // Both at once: c*y - s*x is c*y + (-s)*x in every bit.
    fn apply_beside(self, x: [f64; 2]) -> [f64; 2]
        ensures { result ≡ rotated (rotation self) x }
    {
        let c = Simd::splat(self.c);
        let s = Simd::from_array([self.s, -self.s]);
        (c * Simd::from_array([x[0], x[1]]) + s * Simd::from_array([x[1], x[0]])).to_array()
    }
}

// One reflection of M + 1 numbers, of the vector (1, v).
#[derive(Clone, Copy)]
pub struct Reflector<const M: usize> {
    pub tau: f64,
    pub v: [f64; M],
}

impl<const M: usize> Reflector<M> {
    // The reflection that takes the last M + 1 of N numbers to the first of these alone.
    fn of<const N: usize>(x: [f64; N]) -> Self
        requires { M + 1 ≤ N }
        ensures { (result.tau ≡ recip binary64 (reflection_of (N - (M + 1)) x.entry).tau) × (result.v ≡ (reflection_of (N - (M + 1)) x.entry).tail) }
    {
        let from = N - (M + 1);
        let mut v = [0.0; M];
        let all = &x[..];
        v.copy_from_slice(&all[from + 1..]);
        let h = make_householder(x[from], &mut v);
        Reflector {
            tau: recip(h.tau),
            v,
        }
    }

    // The last M + 1 of N numbers reflected: each number less its part of the sum, times tau.
    fn reflect<const N: usize>(&self, x: [f64; N]) -> [f64; N]
        requires { M + 1 ≤ N }
        ensures { result ≡ reflects_from M (N - (M + 1)) self.now.tau self.now.v x.entry }
    {
        let from = N - (M + 1);
        let mut sum = x[from];
        for (m, v) in self.v.iter().enumerate() {
            sum += *v * x[from + 1 + m];
        }
        let k = sum * self.tau;
        let mut y = x;
        y[from] = x[from] - k;
        let all = &mut y[..];
        let tail = &mut all[from + 1..];
        for (m, number) in tail.iter_mut().enumerate() {
            *number -= k * self.v[m];
        }
        y
    }
}

// Two reflections, the second of all numbers but the first.
#[derive(Clone, Copy)]
pub struct Reflectors<const A: usize, const B: usize> {
    pub first: Reflector<A>,
    pub second: Reflector<B>,
}

impl<const A: usize, const B: usize> Reflectors<A, B> {
    // The two reflections of the columns a and b: of a, and then of what the first makes of b.
    pub(crate) fn of<const N: usize>(a: [f64; N], b: [f64; N]) -> Self
        requires { (A + 1 ≤ N) × (B + 1 ≤ N) }
        ensures { IsReflectors A B N a.entry b.entry result.first.tau result.first.v result.second.tau result.second.v }
    {
        let first = Reflector::of(a);
        let second = Reflector::of(first.reflect(b));
        Reflectors { first, second }
    }

    // N numbers reflected by the first, and then by the second.
    fn reflect<const N: usize>(&self, x: [f64; N]) -> [f64; N]
        requires { (A + 1 ≤ N) × (B + 1 ≤ N) }
        ensures { result ≡ reflects_from B (N - (B + 1)) self.now.second.tau self.now.second.v (reflects_from A (N - (A + 1)) self.now.first.tau self.now.first.v x.entry) }
    {
        self.second.reflect(self.first.reflect(x))
    }
}

// Three and four numbers have an impl each: model has an operation for each, and one impl for all lengths would be of
// `Kernel<{ A + 1 }>`, where the language has no const argument that is computed from a parameter.
impl Kernel<3> for Reflectors<2, 1> {
    ghost gives = { λ v x. reflected3 (reflection3 v) x };

    ghost operation = { λ v xs. reflects3_lines (reflection3 v) xs };

    ghost unfolds = { λ v. reflects3_on (reflection3 v) };

    fn apply(self, x: [f64; 3]) -> [f64; 3]
        ensures { result ≡ reflected3 (reflection3 self) x }
    {
        self.reflect(x)
    }

    fn apply_beside(self, x: [f64; 3]) -> [f64; 3]
        ensures { result ≡ reflected3 (reflection3 self) x }
    {
        self.apply(x)
    }
}

impl Kernel<4> for Reflectors<3, 2> {
    ghost gives = { λ v x. reflected4 (reflection4 v) x };

    ghost operation = { λ v xs. reflects4_lines (reflection4 v) xs };

    ghost unfolds = { λ v. reflects4_on (reflection4 v) };

    fn apply(self, x: [f64; 4]) -> [f64; 4]
        ensures { result ≡ reflected4 (reflection4 self) x }
    {
        self.reflect(x)
    }

    fn apply_beside(self, x: [f64; 4]) -> [f64; 4]
        ensures { result ≡ reflected4 (reflection4 self) x }
    {
        self.apply(x)
    }
}
