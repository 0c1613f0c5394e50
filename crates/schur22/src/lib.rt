// Offered: a 2-block made standard, by value.
#![tactic(auto)]

pub mod lahqr_schur22;
