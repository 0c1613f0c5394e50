// Rotations: rotg's real branch, the adjoint, and a rotation of one pair of numbers.
ghost use Rattle.std.specs.Prelude.{◌≡◌, false};
ghost use Rattle.std.specs.Float.{binary64};
ghost use Rattle.std.specs.Float.Ieee.{is_nan};
ghost use Rattle.model.specs.Arith as Arith;
ghost use Rattle.model.specs.Jacobi as Jacobi;
ghost use Rattle.linalg.specs.View.{rotation, rotation_with, pair};

use arith::real::{MIN_POSITIVE, abs, abs2, fmax, fmin, recip};
use root::sqrt::sqrt;

// The rotation of cosine c and sine s.
#[derive(Clone, Copy)]
pub struct JacobiRotation {
    pub c: f64,
    pub s: f64,
}

// A rotation, with the r that it makes of p and q.
#[derive(Clone, Copy)]
pub struct RotationWith {
    pub rot: JacobiRotation,
    pub r: f64,
}

// Two numbers of one row.
#[derive(Clone, Copy)]
pub struct Pair {
    pub x: f64,
    pub y: f64,
}

// Two numbers that a rotation is made of, none of them a NaN.
#[derive(Clone, Copy)]
struct Numbers {
    p: f64,
    q: f64,
    ghost number: { is_nan p ≡ false },
    ghost other: { is_nan q ≡ false },
}

// A magnitude kept within MIN_POSITIVE and its reciprocal. A call, so that the compiler makes no tests of it that are
// made in any case.
#[cold]
#[inline(never)]
fn kept_within(m: f64) -> f64
    ensures { result ≡ Arith.fmin (Arith.fmax m (Arith.min_positive_of binary64)) (Arith.recip binary64 (Arith.min_positive_of binary64)) }
{
    fmin(fmax(m, MIN_POSITIVE), recip(MIN_POSITIVE))
}

impl Numbers {
    // The larger magnitude. There is no NaN, so one comparison does.
    fn magnitude(self) -> f64
        ensures { result ≡ Arith.fmax (Arith.abs self.p) (Arith.abs self.q) }
    {
        let a = abs(self.p);
        let b = abs(self.q);
        if a > b { a } else { b }
    }

    // The larger magnitude, kept within MIN_POSITIVE and its reciprocal. Nearly every one lies between the two: with a
    // branch that a processor foresees, what follows does not wait for the two tests.
    #[tactic(auto, unfolding(model::specs::Jacobi::rotg_scale, model::specs::Arith::fmax, model::specs::Arith::fmin))]
    fn scale(self) -> f64
        ensures { result ≡ Jacobi.rotg_scale binary64 self.p self.q }
    {
        let m = self.magnitude();
        if m > MIN_POSITIVE && m < recip(MIN_POSITIVE) {
            m
        } else {
            kept_within(m)
        }
    }

    // The number that is larger in magnitude, q at a tie.
    #[tactic(auto, unfolding(model::specs::Jacobi::rotg_larger))]
    fn larger(self) -> f64
        ensures { result ≡ Jacobi.rotg_larger self.p self.q }
    {
        if abs(self.p) > abs(self.q) {
            self.p
        } else {
            self.q
        }
    }

    // The root of p * p + q * q, worked at that scale, with the sign of the larger number. The scale takes the sign, which
    // is known before the root is.
    fn signed(self) -> f64
        ensures { result ≡ Jacobi.rotg_signed binary64 self.p self.q }
    {
        let scl = self.scale();
        let root = sqrt(abs2(self.p / scl) + abs2(self.q / scl));
        let side = if self.larger() > 0.0 { scl } else { -scl };
        side * root
    }
}

// The rotation that makes (r, 0) of (p, q).
#[tactic(auto, unfolding(model::specs::Jacobi::rotg))]
pub fn rotg(p: f64, q: f64) -> RotationWith
    ensures { rotation_with result ≡ Jacobi.rotg binary64 p q }
{
    if q == 0.0 {
        let rot = JacobiRotation { c: 1.0, s: 0.0 };
        return RotationWith { rot, r: p };
    }
    if p == 0.0 {
        let rot = JacobiRotation { c: 0.0, s: -1.0 };
        return RotationWith { rot, r: q };
    }
    if p.is_nan() || q.is_nan() {
        let nan = f64::NAN;
        let rot = JacobiRotation { c: nan, s: nan };
        return RotationWith { rot, r: nan };
    }
    let r = Numbers { p, q }.signed();
    let rot = JacobiRotation {
        c: p / r,
        s: -q / r,
    };
    RotationWith { rot, r }
}

// The rotation back: s negated, a zero's sign too.
#[tactic(auto, unfolding(model::specs::Jacobi::adjoint))]
pub fn adjoint(rot: JacobiRotation) -> JacobiRotation
    ensures { rotation result ≡ Jacobi.adjoint (rotation rot) }
{
    JacobiRotation {
        c: rot.c,
        s: -rot.s,
    }
}

// The pair x, y with the rotation applied on the right.
#[tactic(auto, unfolding(model::specs::Jacobi::apply_right))]
pub fn apply_on_the_right(rot: JacobiRotation, x: f64, y: f64) -> Pair
    ensures { pair result ≡ Jacobi.apply_right binary64 (rotation rot) x y }
{
    Pair {
        x: rot.c * x + rot.s * y,
        y: rot.c * y - rot.s * x,
    }
}
