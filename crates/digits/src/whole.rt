// Roots of whole numbers: of 54 digits for a number of 108, by a table, Newton's step and an exact test.
ghost use Rattle.std.specs.Prelude.{◌≡◌, ℕ, ◌+◌, ◌*◌, ◌/◌, ◌<◌, ◌≤◌, ◌^◌, eqb};
ghost use Rattle.model.specs.Root as Root;
ghost use Rattle.digits.specs.Digits.{Left, NearInverse, NewtonStep, NearHalf};

use crate::table::line_at;

// d: the first 53 or 54 digits of a number of 107 or 108 that a root is taken of.
#[derive(Clone, Copy)]
pub struct Radicand {
    pub digits: u64,
    pub ghost least: { 2 ^ 52 ≤ digits },
    pub ghost most: { digits < 2 ^ 54 },
}

// A root and the inverse of one, both near.
#[derive(Clone, Copy)]
struct Near {
    pub root: u64,
    pub inverse: u64,
}

// What is left of x without y, where that is at least 0 and below the end. With checked_sub a root takes a
// tenth longer.
pub fn left(x: u64, y: u64, end: u64) -> Option<u64>
    ensures { Left x y end result }
{
    if y <= x && x - y < end {
        Some(x - y)
    } else {
        None
    }
}

impl Radicand {
    // The whole part of the root of the digits. Newton's step, from any r to (r + d / r) / 2, ends no lower
    // than that, and below an r whose square is above d.
    fn small_root(self) -> u64
        ensures is { result ≡ Root.root self.digits }
        ensures near { (result * result ≤ self.digits) × (self.digits ≤ result * result + 2 * result) }
        ensures fits { (2 ^ 26 ≤ result) × (result < 2 ^ 27) }
    {
        let d = self.digits;
        let mut r = 0x800_0000;
        while d < r * r {
            r = (r + d / r) / 2;
        }
        r
    }

    // The whole part of the root of d * 2^54: 27 digits are those of the root of d, and 27 more come
    // from one division, one too high at most (Zimmermann).
    pub fn whole_root(self) -> u64
        ensures { result ≡ Root.root (self.digits * 2 ^ 54) }
    {
        let s = self.small_root();
        let rest = (self.digits - s * s) * 0x800_0000;
        let q = rest / (s * 2);
        let u = rest % (s * 2);
        let r = s * 0x800_0000 + q;
        if q * q <= u * 0x800_0000 { r } else { r - 1 }
    }

    // A number near 2^32 / √m, with m = d / 2^52: on a line of the table, within one part in 2^14. Promised
    // is that it is no higher than where the line starts, and no lower than where it ends.
    pub fn near_inverse(self) -> u64
        ensures { NearInverse self.digits result }
    {
        let line = line_at(self.digits / 0x8000_0000_0000);
        let along = self.digits / 0x8000 % 0x1_0000_0000;
        line / 0x100_0000 * 0x100 - line % 0x100_0000 * along / 0x100_0000
    }

    // One step of Newton's, without a division, from such a number y: a root just below 2^31 * √m, and a
    // better y.
    fn near_root(self) -> Near
        ensures step { (y : ℕ) × NearInverse self.digits y × NewtonStep self.digits y result.root result.inverse }
        ensures fits { (result.root < 2 ^ 32) × (result.inverse < 2 ^ 32) }
    {
        let y = self.near_inverse();
        let t = self.digits / 0x40_0000 * y / 0x8000_0000 % 0x1_0000_0000;
        let step = 0xbfff_ffff - t * y / 0x2_0000_0000;
        Near {
            root: t * step / 0x8000_0000 % 0x1_0000_0000,
            inverse: y * step / 0x8000_0000 % 0x1_0000_0000,
        }
    }

    // Half the root of a number of 108 digits, nearly, from these, its first 54, and from its first 64, x. After
    // the step of Newton's, the digits that are left are those of what is left of x, over twice the root. None,
    // where the step's root is not near.
    pub fn near_half(self, x: u64) -> Option<u64>
        requires { 2 ^ 62 ≤ x }
        ensures { (y : ℕ) × NearInverse self.digits y × NearHalf self.digits x y result }
    {
        let Near { root, inverse } = self.near_root();
        let rest = left(x, root * root, 0xf_0000_0000)?;
        Some(root * 0x20_0000 + (rest / 16 * inverse + 0x41_0000_0000) / 0x80_0000_0000)
    }

    // Whether k is the root of d * 2^52, rounded to the nearest. With r = 2 * k - 1 that is r * r <= d *
    // 2^54 < (r + 2) * (r + 2), tested by the halves of r.
    fn is_nearest(self, k: u64) -> bool
        requires { (0 < k) × (k ≤ 2 ^ 54) }
        ensures { result ≡ eqb k ((Root.root (self.digits * 2 ^ 54) + 1) / 2) }
    {
        let r = k * 2 - 1;
        let s = r / 0x800_0000;
        let q = r % 0x800_0000;
        let Some(a) = left(self.digits, s * s, 0x4000_0000) else {
            return false;
        };
        let Some(u) = left(a * 0x800_0000, s * 2 * q, 0x10_0000_0000) else {
            return false;
        };
        left(u * 0x800_0000, q * q, k * 8).is_some()
    }

    // The root of d * 2^52, rounded to the nearest. How its digits are found is free, since they are tested;
    // where the test fails, about once in 200, they are worked out.
    #[tactic(auto, using(crate::proofs::Short::short))]
    pub fn nearest_root(self) -> u64
        ensures { result ≡ (Root.root (self.digits * 2 ^ 54) + 1) / 2 }
    {
        match self.near_half(self.digits * 0x400) {
            Some(k) if self.is_nearest(k) => k,
            _ => (self.whole_root() + 1) / 2,
        }
    }
}
