// Offered: a list of moves at once, `reorder::reorder_schur_list`.
#![tactic(auto)]

pub mod reorder;
