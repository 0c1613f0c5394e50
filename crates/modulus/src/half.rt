// Half the root of a number of 108 digits, rounded to the nearest, ties to even.
ghost use Rattle.std.specs.Prelude.{◌≡◌, ◌&&◌, ◌+◌, ◌-◌, ◌*◌, ◌<◌, ◌≤◌, ◌^◌, ltb};
ghost use Rattle.laws.specs.Cut.{NearestHalf};
ghost use Rattle.modulus.specs.Limbs.{number};

use crate::limbs::{Long, Wide};
use crate::squares::square;
use digits::whole::{Radicand, left};
use std::cmp::Ordering;

impl Long {
    // Half the root, rounded to units of 2^s, from the root of the high limb: the low one lifts it by less
    // than a half, so that it is k units or k + 1; which, the square of the number between them says.
    #[tactic(auto, using(digits::proofs::Short::short))]
    pub fn stepped(self, s: u32) -> u64
        requires { s < 53 }
        ensures { NearestHalf (number self.whole) self.rest s result }
    {
        let first = Radicand {
            digits: self.whole.high,
        };
        let k = (first.whole_root() + 1) / 2 >> s;
        match square((k * 2 + 1) << s).cmp(&self.whole) {
            Ordering::Less => k + 1,
            Ordering::Equal if self.rest == 0 => k + k % 2,
            Ordering::Equal => k + 1,
            Ordering::Greater => k,
        }
    }

    // Whether the number lies between the squares of 2 * k - 1 and 2 * k + 1, and is neither.
    fn between(self, k: u64) -> bool
        requires { (0 < k) × (k ≤ 2 ^ 54) }
        ensures { result ≡ (ltb ((2 * k - 1) * (2 * k - 1)) (number self.whole) && ltb (number self.whole) ((2 * k + 1) * (2 * k + 1))) }
    {
        let t = square(k * 2 - 1);
        let Some(d) = left(self.whole.high, t.high, 16) else {
            return false;
        };
        left(d * 0x40_0000_0000_0000 + self.whole.low, t.low, k * 8).is_some_and(|u| 0 < u)
    }

    // Half the root, rounded, where k is near and fails the test: one more or one less by the same test,
    // else worked out.
    #[tactic(auto, using(crate::proofs::Tested::tested))]
    fn beside(self, k: u64) -> u64
        requires { (1 < k) × (k < 2 ^ 54) }
        ensures { NearestHalf (number self.whole) self.rest 0 result }
    {
        if self.between(k + 1) {
            return k + 1;
        }
        if self.between(k - 1) {
            return k - 1;
        }
        self.stepped(0)
    }

    // Half the root, rounded. How its digits are found is free, since they are tested: where the test fails,
    // about once in 170, they are one off, or it is a tie.
    #[tactic(auto, using(crate::proofs::Tested::tested))]
    pub fn nearest_half(self) -> u64
        ensures { NearestHalf (number self.whole) self.rest 0 result }
    {
        let Wide { high, low } = self.whole;
        let first = Radicand { digits: high };
        let x = high * 0x400 + low / 0x1000_0000_0000;
        match first.near_half(x) {
            Some(k) if self.between(k) => k,
            Some(k) => self.beside(k),
            None => self.stepped(0),
        }
    }
}
