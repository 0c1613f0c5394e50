// Inside (`root`, `modulus`): the digits of numbers and of roots, as whole numbers.
#![tactic(auto)]

pub mod number;
mod table;
pub mod whole;
