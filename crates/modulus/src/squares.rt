// Squares of 54 digits and their sums, exactly, in two limbs.
ghost use Rattle.std.specs.Prelude.{◌≡◌, ◌/◌, ◌%◌, ◌<◌, ◌≤◌, ◌^◌};
ghost use Rattle.modulus.specs.Limbs.{IsSquare, IsSum, IsFitted};

use crate::limbs::{Long, Normal, Wide, WithRest};

// A number cut at 2^s.
#[derive(Clone, Copy)]
struct Parted {
    pub above: u64,
    pub below: u64,
}

// The square of x, by the halves of x.
pub fn square(x: u64) -> Wide
    requires { x < 2 ^ 55 }
    ensures { IsSquare x result }
{
    let s = x / 0x800_0000;
    let q = x % 0x800_0000;
    let m = s * q * 2;
    let low = m % 0x800_0000 * 0x800_0000 + q * q;
    Wide {
        high: s * s + m / 0x800_0000 + low / 0x40_0000_0000_0000,
        low: low % 0x40_0000_0000_0000,
    }
}

// x / 2^s and x % 2^s.
fn part(x: u64, s: u32) -> Parted
    requires { s < 64 }
    ensures { (result.above ≡ x / 2 ^ s) × (result.below ≡ x % 2 ^ s) }
{
    let above = x >> s;
    Parted {
        above,
        below: x - (above << s),
    }
}

// x * x + y * y / 4^d, and what the division leaves.
pub fn sum_of_squares(x: u64, y: u64, d: u64) -> WithRest
    requires { (x < 2 ^ 54) × (y < 2 ^ 54) × (d < 27) }
    ensures { IsSum x y d result }
{
    let a = square(x);
    let b = square(y);
    let s = d as u32 * 2;
    let Parted {
        above: high,
        below: over,
    } = part(b.high, s);
    let Parted {
        above: low,
        below: rest,
    } = part(b.low, s);
    let sum = a.low + low + (over << (54 - s));
    WithRest {
        whole: Wide {
            high: a.high + high + sum / 0x40_0000_0000_0000,
            low: sum % 0x40_0000_0000_0000,
        },
        rest,
    }
}

impl WithRest {
    // At most 108 digits of a sum of two squares: one pair fewer, where there are more.
    pub fn fitted(self) -> Normal
        requires { (2 ^ 52 ≤ self.whole.high) × (self.whole.high < 2 ^ 55) × (self.rest < 2 ^ 54) }
        ensures { IsFitted self result }
    {
        let WithRest { whole, rest } = self;
        let Wide { high, low } = whole;
        if high < 0x40_0000_0000_0000 {
            Normal {
                long: Long { whole, rest },
                power: 0,
            }
        } else {
            Normal {
                long: Long {
                    whole: Wide {
                        high: high / 4,
                        low: high % 4 * 0x10_0000_0000_0000 + low / 4,
                    },
                    rest: rest + low % 4,
                },
                power: 1,
            }
        }
    }
}
