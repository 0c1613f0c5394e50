// How many swaps were run.
ghost use Rattle.std.specs.Prelude.{◌≡◌, cond, ◌+◌, ◌^◌, ◌<◌};
ghost use Rattle.walks.specs.Counted.{both};

use std::ops::Add;

// How many runs of the four swap routines there were, and how many of them declined.
#[derive(Clone, Copy, Default)]
pub struct Counts {
    pub swaps: usize,
    pub declined: usize,
}

impl Counts {
    // The counts of one run.
    pub fn of_one(declined: bool) -> Counts
        ensures { result ≡ record { swaps = 1; declined = cond declined 1 0 } }
    {
        Counts {
            swaps: 1,
            declined: usize::from(declined),
        }
    }
}

// The counts of one after the other.
impl Add for Counts {
    type Output = Counts;

    ghost can_add = { λ a b. (a.swaps + b.swaps < 2 ^ 64) × (a.declined + b.declined < 2 ^ 64) };

    ghost add_gives = { λ a b c. c ≡ both a b };

    fn add(self, next: Counts) -> Counts {
        Counts {
            swaps: self.swaps + next.swaps,
            declined: self.declined + next.declined,
        }
    }
}
