// Offered: vectors and a column of them.
#![tactic(auto)]

pub mod column;
pub mod vectors;
