// Inside (`schur`, `lists`): the exchange of two neighbouring blocks, `exchange::exchange`, and the move of a block
// made of such exchanges, `reorder::reorder`, both on a form whose shape is known.
#![tactic(auto)]

pub mod exchange;
pub mod reorder;
