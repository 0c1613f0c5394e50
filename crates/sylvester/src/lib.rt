// Offered: the small Sylvester solve, by value.
#![tactic(auto)]

pub mod lasy2;
