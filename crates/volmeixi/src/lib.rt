// For C: the calls, each an offered call under the prefix vx_. Results that are several
// numbers go to references to single numbers, which are plain pointers in C, so that each call
// turns away what document 01 turns away and nothing else.
#![tactic(auto)]

pub mod blocks;
pub mod moves;
pub mod numbers;
pub mod small;
pub mod vectors;
