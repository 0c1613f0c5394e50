// Tests: lines of a list of moves at once. Their words begin with the lengths of form, factor, moves and results.
#![tactic(auto)]

pub mod list;
mod places;
