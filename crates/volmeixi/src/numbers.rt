// Arithmetic.
ghost use Rattle.std.specs.Prelude.{◌≡◌};
ghost use Rattle.std.specs.Float.{binary64};
ghost use Rattle.model.specs.Arith as Arith;
ghost use Rattle.model.specs.Root as Root;

#[unsafe(no_mangle)]
pub extern "C" fn vx_abs(x: f64) -> f64
    ensures { result ≡ Arith.abs x }
{
    arith::real::abs(x)
}

#[unsafe(no_mangle)]
pub extern "C" fn vx_abs1(x: f64) -> f64
    ensures { result ≡ Arith.abs1 x }
{
    arith::real::abs1(x)
}

#[unsafe(no_mangle)]
pub extern "C" fn vx_abs2(x: f64) -> f64
    ensures { result ≡ Arith.abs2 binary64 x }
{
    arith::real::abs2(x)
}

#[unsafe(no_mangle)]
pub extern "C" fn vx_recip(x: f64) -> f64
    ensures { result ≡ Arith.recip binary64 x }
{
    arith::real::recip(x)
}

#[unsafe(no_mangle)]
pub extern "C" fn vx_mul_pow2(x: f64, p: f64) -> f64
    ensures { result ≡ Arith.mul_pow2 binary64 x p }
{
    arith::real::mul_pow2(x, p)
}

#[unsafe(no_mangle)]
pub extern "C" fn vx_fmax(p: f64, q: f64) -> f64
    ensures { result ≡ Arith.fmax p q }
{
    arith::real::fmax(p, q)
}

#[unsafe(no_mangle)]
pub extern "C" fn vx_fmin(p: f64, q: f64) -> f64
    ensures { result ≡ Arith.fmin p q }
{
    arith::real::fmin(p, q)
}

#[unsafe(no_mangle)]
pub extern "C" fn vx_sqrt(x: f64) -> f64
    ensures { result ≡ Root.sqrt binary64 x }
{
    root::sqrt::sqrt(x)
}

#[unsafe(no_mangle)]
pub extern "C" fn vx_hypot(p: f64, q: f64) -> f64
    ensures { result ≡ Arith.hypot binary64 p q }
{
    arith::norm::hypot(p, q)
}

#[unsafe(no_mangle)]
pub extern "C" fn vx_norm_l2(x: &[f64]) -> f64
    ensures { result ≡ Arith.norm_l2 binary64 x.now }
{
    arith::norm::norm_l2(x)
}
