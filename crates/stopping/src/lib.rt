// Offered: a move that stops at the first exchange whose test fails, `reorder::reorder_schur_stopping`.
#![tactic(auto)]

pub mod reorder;
