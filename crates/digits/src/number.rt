// The digits of a finite f64 from its pattern.
ghost use Rattle.std.specs.Prelude.{◌*◌, ◌<◌, ◌^◌};
ghost use Rattle.digits.specs.Digits.{Significand, Shift};

// The weight of the exponent's field.
pub const HIDDEN: u64 = 0x10_0000_0000_0000;

// The pattern of plus infinity: those of the finite numbers above zero are below it.
pub const INFINITE: u64 = 0x7ff0_0000_0000_0000;

// The pattern of a finite number above zero.
#[derive(Clone, Copy)]
pub struct Positive {
    pub bits: u64,
    pub ghost some: { 0 < bits },
    pub ghost finite: { bits < 0x7ff0_0000_0000_0000 },
}

// The number digits * 2^power.
#[derive(Clone, Copy)]
pub struct Scaled {
    pub digits: u64,
    pub power: u64,
}

impl Positive {
    // The significand, with the leading digit that the pattern of a normal number leaves out, and its
    // power, counted in smallest numbers.
    pub fn significand(self) -> Scaled
        ensures { Significand self.bits result.digits result.power }
    {
        match self.bits / HIDDEN {
            0 => Scaled {
                digits: self.bits,
                power: 0,
            },
            e => Scaled {
                digits: HIDDEN + self.bits % HIDDEN,
                power: e - 1,
            },
        }
    }
}

// How many places up the leading digit of a significand has to move: none, but of a subnormal number.
pub fn shift_of(t: u64) -> u32
    requires { (0 < t) × (t < 2 ^ 53) }
    ensures { Shift t result }
{
    t.leading_zeros() - 11
}
