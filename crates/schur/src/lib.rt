// Offered: reordering a real Schur form, `swap::schur_swap` and `reorder::reorder_schur`.
#![tactic(auto)]

pub mod reorder;
pub mod swap;
