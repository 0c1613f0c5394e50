// Offered: the values of a form's blocks, each 2-block read as it stands or as a copy standardised first.
#![tactic(auto)]

pub mod blocks;
pub mod reading;
