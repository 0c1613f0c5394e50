// The calls with the functions that run them. A further call takes one line here, one in each list of
// `replay_text::name`, and one more in CALLS.
ghost use Rattle.std.specs.Prelude.{◌≡◌};
ghost use Rattle.replay.specs.Table as Table;

use replay_calls::{blocks, calls};
use replay_forms::head::Stride;
use replay_forms::{moves, vectors};
use replay_lists::list;
use replay_text::name::Call;
use replay_text::outcome::Outcome;

// Runs a line of a call. The calls on forms are there twice: the lines of the second have a stride.
pub fn run(call: Call, w: &[u64]) -> Outcome
    ensures { result ≡ Table.shown call w.now }
{
    match call {
        Call::Abs => calls::one(w, arith::real::abs),
        Call::Abs1 => calls::one(w, arith::real::abs1),
        Call::Abs2 => calls::one(w, arith::real::abs2),
        Call::Recip => calls::one(w, arith::real::recip),
        Call::MulPow2 => calls::two(w, arith::real::mul_pow2),
        Call::Fmax => calls::two(w, arith::real::fmax),
        Call::Fmin => calls::two(w, arith::real::fmin),
        Call::Sqrt => calls::one(w, root::sqrt::sqrt),
        Call::Hypot => calls::two(w, arith::norm::hypot),
        Call::NormL2 => calls::norm_l2(w),
        Call::Rotg => calls::rotg(w),
        Call::Adjoint => calls::adjoint(w),
        Call::Apply => calls::apply(w),
        Call::MakeHouseholderInPlace => calls::make_householder_in_place(w),
        Call::LahqrSchur22 => blocks::lahqr_schur22(w),
        Call::Lasy2 => blocks::lasy2(w),
        Call::SchurSwap => moves::schur_swap(Stride::OfRows, w),
        Call::ReorderSchur => moves::reorder_schur(Stride::OfRows, w),
        Call::BlockValues => vectors::block_values(Stride::OfRows, w),
        Call::EvdFromRealSchur => vectors::evd_from_real_schur(Stride::OfRows, w),
        Call::Column => vectors::column(Stride::OfRows, w),
        Call::SchurSwapLd => moves::schur_swap(Stride::Given, w),
        Call::ReorderSchurLd => moves::reorder_schur(Stride::Given, w),
        Call::BlockValuesLd => vectors::block_values(Stride::Given, w),
        Call::EvdFromRealSchurLd => vectors::evd_from_real_schur(Stride::Given, w),
        Call::ColumnLd => vectors::column(Stride::Given, w),
        Call::StandardisedValues => vectors::standardised_values(Stride::OfRows, w),
        Call::StandardisedValuesLd => vectors::standardised_values(Stride::Given, w),
        Call::ReorderSchurStopping => moves::reorder_schur_stopping(Stride::OfRows, w),
        Call::ReorderSchurStoppingLd => moves::reorder_schur_stopping(Stride::Given, w),
        Call::ReorderSchurList => list::reorder_schur_list(Stride::OfRows, w),
        Call::ReorderSchurListLd => list::reorder_schur_list(Stride::Given, w),
    }
}
