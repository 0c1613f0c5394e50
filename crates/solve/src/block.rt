// How large the imaginary parts of a 2-block's pair are.
ghost use Rattle.std.specs.Prelude.{◌≡◌};
ghost use Rattle.std.specs.Float.{binary64};
ghost use Rattle.model.specs.Values as Values;

use arith::real::abs;
use root::sqrt::sqrt;

// The imaginary size of a 2-block with these numbers off its diagonal.
#[tactic(auto, unfolding(model::specs::Values::imag_size))]
pub fn imag_size(lower: f64, upper: f64) -> f64
    ensures { result ≡ Values.imag_size binary64 lower upper }
{
    sqrt(abs(lower)) * sqrt(abs(upper))
}
