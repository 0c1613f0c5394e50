// Inside (`exchanges`, `schur`, `stopping`, `lists`): the walk of a block over a kind of exchange, `walk::walk`, for
// the move that goes on and the one that stops.
#![tactic(auto)]

pub mod counts;
pub mod moving;
pub mod walk;
