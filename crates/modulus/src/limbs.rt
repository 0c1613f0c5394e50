// Numbers of two limbs of 54 digits, and what is handed on of one.
ghost use Rattle.std.specs.Prelude.{◌<◌, ◌≤◌, ◌^◌};

// A whole number in two limbs, high * 2^54 + low. What it stands for is `number` (specs/Limbs) and no Model of its own:
// all that works with it goes by its limbs, and would have to divide them out of that number again.
#[derive(Clone, Copy, PartialEq, Eq, PartialOrd, Ord)]
pub struct Wide {
    pub high: u64,
    pub low: u64,
    pub ghost short: { low < 2 ^ 54 },
}

// The whole part of a sum of squares, and what is left of it.
#[derive(Clone, Copy)]
pub struct WithRest {
    pub whole: Wide,
    pub rest: u64,
}

// A number of 107 or 108 digits, and a rest that is 0 exactly where nothing is left below.
#[derive(Clone, Copy)]
pub struct Long {
    pub whole: Wide,
    pub rest: u64,
    pub ghost least: { 2 ^ 52 ≤ whole.high },
    pub ghost most: { whole.high < 2 ^ 54 },
}

// A number cut to that by `power` pairs of digits.
#[derive(Clone, Copy)]
pub struct Normal {
    pub long: Long,
    pub power: u64,
}
