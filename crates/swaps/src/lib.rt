// Inside (`walks`, `exchanges`, `schur`, `tries`, `stopping`): the four swaps of neighbouring blocks, and
// standardising in place. That the two, three or four rows from row j on are within the form is a clause
// (`j + 2 ≤ s.n` and so on): a struct of shape and row with this for a ghost field would be made anew for each swap,
// and for each block standardised after it, from the caller's row and sizes, where the same is to be shown; and each
// read would go through it.
#![tactic(auto)]

pub mod ahead;
pub mod kernels;
pub mod neighbours;
pub mod operations;
pub mod standardise;
pub mod swap_11;
pub mod swap_12;
pub mod swap_22;
pub mod window;
