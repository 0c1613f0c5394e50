// The pattern of the modulus of two finite numbers, from their patterns.
ghost use Rattle.std.specs.Prelude.{◌≡◌, not, ℕ, ◌+◌, ◌*◌, ◌<◌, ◌≤◌, ◌^◌, T};
ghost use Rattle.std.specs.Float.{binary64};
ghost use Rattle.std.specs.Float.Ieee.{of_bits, nan_bits};
ghost use Rattle.model.specs.Arith as Arith;
ghost use Rattle.laws.specs.HalfDigits.{HalfDigits};
ghost use Rattle.modulus.specs.Modulus.{four_sums};

use crate::limbs::Normal;
use crate::squares::sum_of_squares;
use digits::number::{HIDDEN, INFINITE, Positive, Scaled, shift_of};

// The digits of the modulus of x * 2^d and y, x with all 53 digits: d + power zeros follow them.
fn large(x: u64, y: u64, d: u64) -> Scaled
    requires { (2 ^ 52 ≤ x) × (x < 2 ^ 53) × (y < 2 ^ 53) × (d < 27) }
    ensures { ((k : ℕ) → HalfDigits binary64 (four_sums x y k d) (k + d + result.power) result.digits) × (result.power ≤ 1) }
{
    let Normal { long, power } = sum_of_squares(x * 2, y * 2, d).fitted();
    Scaled {
        digits: long.nearest_half(),
        power,
    }
}

// The digits of the modulus of two subnormal numbers. Both are moved up until x has all 53 digits.
fn small(x: u64, y: u64) -> u64
    requires { (0 < x) × (x < 2 ^ 52) × (y ≤ x) }
    ensures { HalfDigits binary64 (four_sums x y 0 0) 0 result }
{
    let s = shift_of(x);
    let Normal { long, power } = sum_of_squares((x << s) * 2, (y << s) * 2, 0).fitted();
    long.stepped(s - power as u32)
}

// The pattern of the modulus of the numbers of patterns a and b, the larger and the smaller: plus
// infinity, or no more than the largest number. Where the larger has 27 zeros more after its digits, the
// smaller does not lift it by half a unit.
pub fn modulus_bits(a: u64, b: u64) -> u64
    requires { (b ≤ a) × (a < 0x7ff0_0000_0000_0000) }
    ensures { (of_bits binary64 result ≡ Arith.modulus binary64 (of_bits binary64 a) (of_bits binary64 b)) × T (not (nan_bits binary64 result)) }
{
    if b == 0 {
        return a;
    }
    let Scaled { digits: x, power } = Positive { bits: a }.significand();
    let Scaled {
        digits: y,
        power: less,
    } = Positive { bits: b }.significand();
    let d = power - less;
    if 27 <= d {
        return a;
    }
    if x < HIDDEN {
        return small(x, y);
    }
    let Scaled {
        digits,
        power: more,
    } = large(x, y, d);
    INFINITE.min((power + more) * HIDDEN + digits)
}
