// Inside (`evd`, `values`): the shifted solvers, the walk through blocks that the vectors take too, imaginary sizes.
#![tactic(auto)]

pub mod block;
mod complex;
mod dots;
pub mod leading;
mod shifted;
pub mod solve_cplx;
pub mod solve_real;
mod strided;
pub mod walk;
