// The square root of an f64, worked out from its bits: the nearest f64, for every input. Every finite
// number above zero takes one path: its bits; the leading zeros of its significand, which give shift and
// exponent; the whole-number root of the shifted significand; and the bits of that.
ghost use Rattle.std.specs.Prelude.{◌≡◌, not, ◌<◌, ◌≤◌, ◌^◌, T};
ghost use Rattle.std.specs.Float.{binary64};
ghost use Rattle.std.specs.Float.Ieee.{of_bits, nan_bits};
ghost use Rattle.model.specs.Root as Root;
ghost use Rattle.root.specs.Sqrt.{Parts, Even};

use digits::number::{HIDDEN, INFINITE, Positive, Scaled, shift_of};
use digits::whole::Radicand;

// The number of pattern b with all 53 digits, its power counted in squares of the smallest number: what
// moves up, and how much the power is less, the leading zeros say.
fn split(b: Positive) -> Scaled
    ensures { Parts b.bits result.digits result.power }
{
    let Scaled { digits, power } = b.significand();
    let s = shift_of(digits);
    Scaled {
        digits: digits << s,
        power: power + 1074 - u64::from(s),
    }
}

// The digits of the same number with an even power.
fn even_power(n: Scaled) -> Radicand
    requires { (2 ^ 52 ≤ n.digits) × (n.digits < 2 ^ 53) }
    ensures { Even n.digits n.power result.digits }
{
    let digits = if n.power % 2 == 0 {
        n.digits
    } else {
        n.digits * 2
    };
    Radicand { digits }
}

// The pattern of the root of the finite number of pattern b.
fn root_bits(b: Positive) -> u64
    ensures { (of_bits binary64 result ≡ Root.sqrt binary64 (of_bits binary64 b.bits)) × T (not (nan_bits binary64 result)) }
{
    let n = split(b);
    (n.power / 2 - 26) * HIDDEN + even_power(n).nearest_root()
}

// The square root of x: NaN for a NaN or a number below zero, x itself for both zeros and plus
// infinity, and the nearest f64 for all else.
pub fn sqrt(x: f64) -> f64
    ensures { result ≡ Root.sqrt binary64 x }
{
    if x > 0.0 {
        let bits = x.to_bits();
        if bits < INFINITE {
            return f64::from_bits(root_bits(Positive { bits }));
        }
        return x;
    }
    if x < 0.0 {
        return f64::NAN;
    }
    x
}
