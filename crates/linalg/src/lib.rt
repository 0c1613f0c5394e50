// Offered: small dense kernels by value, with no form: rotations and reflections.
#![tactic(auto)]

pub mod householder;
pub mod jacobi;
