// Offered: the square root.
#![tactic(auto)]

pub mod sqrt;
