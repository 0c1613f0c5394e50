// One number or two: magnitude, square, reciprocal, product, the larger and the smaller.
ghost use Rattle.std.specs.Prelude.{◌≡◌};
ghost use Rattle.std.specs.Float.{binary64};
ghost use Rattle.model.specs.Arith as Arith;

// 2^-52.
pub const EPS: f64 = f64::EPSILON;

// 2^-1022, the smallest normal number.
pub const MIN_POSITIVE: f64 = f64::MIN_POSITIVE;

// The weight of the sign in a pattern.
pub(crate) const SIGN: u64 = 0x8000_0000_0000_0000;

// The magnitude: both zeros give +0. By the pattern, which is one instruction where the compiler knows that there is no
// NaN; the library's compares, twice, and what waits for it waits for those.
pub fn abs(x: f64) -> f64
    ensures { result ≡ Arith.abs x }
{
    if x.is_nan() {
        x
    } else {
        f64::from_bits(x.to_bits() % SIGN)
    }
}

// The magnitude, by the name that it has for a complex number's two parts added.
pub fn abs1(x: f64) -> f64
    ensures { result ≡ Arith.abs1 x }
{
    abs(x)
}

// The square.
pub fn abs2(x: f64) -> f64
    ensures { result ≡ Arith.abs2 binary64 x }
{
    x * x
}

// The reciprocal.
pub fn recip(x: f64) -> f64
    ensures { result ≡ Arith.recip binary64 x }
{
    1.0 / x
}

// The product with p, which callers choose a power of two.
pub fn mul_pow2(x: f64, p: f64) -> f64
    ensures { result ≡ Arith.mul_pow2 binary64 x p }
{
    x * p
}

// p where p > q or q is a NaN, else q. Beside fmin: one function of both would take the comparison, which is all
// that they have.
#[tactic(auto, unfolding(model::specs::Arith::fmax))]
pub fn fmax(p: f64, q: f64) -> f64
    ensures { result ≡ Arith.fmax p q }
{
    if p > q || q.is_nan() { p } else { q }
}

// p where p < q or q is a NaN, else q.
#[tactic(auto, unfolding(model::specs::Arith::fmin))]
pub fn fmin(p: f64, q: f64) -> f64
    ensures { result ≡ Arith.fmin p q }
{
    if p < q || q.is_nan() { p } else { q }
}
