// The counts: of each call the lines run and those that differ, and the lines that are none.
ghost use Rattle.std.specs.Prelude.{◌≡◌};
ghost use Rattle.replay_text.specs.Counts as Counts;

use crate::name::{CALLS, Call};
use crate::outcome::Outcome;
use std::ops::Add;

// How many lines were run, and how many of them differ.
#[derive(Clone, Copy, Debug, Default, PartialEq, Eq)]
pub struct Count {
    pub run: u64,
    pub differ: u64,
}

// Two counts together, in 64 bits.
impl Add for Count {
    type Output = Count;

    ghost add_gives = { λ a b c. c ≡ Counts.plus a b };

    fn add(self, other: Count) -> Count {
        Count {
            run: self.run.wrapping_add(other.run),
            differ: self.differ.wrapping_add(other.differ),
        }
    }
}

// A count of each call, and how many lines were no line of a call.
#[derive(Clone, Copy, Debug, PartialEq, Eq)]
pub struct Tally {
    pub calls: [Count; CALLS],
    pub refused: u64,
}

impl Tally {
    pub fn new() -> Self
        ensures { result ≡ Counts.none }
    {
        Tally {
            calls: [Count::default(); CALLS],
            refused: 0,
        }
    }

    // A line that is no line of a call.
    pub fn refuse(&mut self)
        ensures { self.new ≡ Counts.refused self.old }
    {
        self.refused = self.refused.wrapping_add(1);
    }

    // Counts a line of a call by its outcome.
    #[tactic(auto, unfolding(crate::specs::Counts::tallied))]
    pub fn tally(&mut self, call: Call, outcome: Outcome)
        ensures { self.new ≡ Counts.tallied call outcome self.old }
    {
        let count = &mut self.calls[call as usize];
        match outcome {
            Outcome::Same => count.run = count.run.wrapping_add(1),
            Outcome::Differs => {
                count.run = count.run.wrapping_add(1);
                count.differ = count.differ.wrapping_add(1);
            }
            Outcome::Malformed => self.refuse(),
        }
    }

    pub fn of(&self, call: Call) -> Count
        ensures { result ≡ Counts.of call self.now }
    {
        self.calls[call as usize]
    }

    // The sum over all calls.
    pub fn total(&self) -> Count
        ensures { result ≡ Counts.total self.now }
    {
        self.calls
            .iter()
            .fold(Count::default(), |sum, count| sum + *count)
    }
}
