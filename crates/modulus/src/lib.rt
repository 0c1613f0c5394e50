// Inside (`arith`): the modulus of two finite f64s, worked out from their bits, as the nearest f64.
#![tactic(auto)]

pub mod bits;
mod half;
mod limbs;
mod squares;
