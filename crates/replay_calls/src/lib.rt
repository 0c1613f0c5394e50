// Tests: lines of the calls on numbers and on blocks of two rows, one function for each call.
#![tactic(auto)]

pub mod blocks;
pub mod calls;
