// The exchange of two neighbouring blocks with dlaexc's tests.
ghost use Rattle.std.specs.Prelude.{◌≡◌, cond, ◌+◌, ◌≤◌};
ghost use Rattle.std.specs.Float.{binary64};
ghost use Rattle.model.specs.Swaps as Swaps;
ghost use Rattle.model.specs.Stopping as Stopping;
ghost use Rattle.form.specs.Shaped.{Holds, Beside};
ghost use Rattle.swaps.specs.Done.{Done};
ghost use Rattle.swaps.specs.Inside.{Fits};

use crate::standard::standardise_also;
use crate::swap::try_3;
use form::shape::Shape;
use swaps::ahead::Ahead;
use swaps::neighbours::Neighbours;
use swaps::swap_11::schur_swap_11;
use swaps::swap_12::Single;
use swaps::swap_22::schur_swap_22;

// The swap of neighbouring blocks of three or four rows in all: true where the test fails, which touches
// neither form nor factor, so a bool says all.
#[tactic(auto, unfolding(model::specs::Stopping::test_fails, model::specs::Swaps::swap_of))]
fn try_swap(s: Shape, t: &mut [f64], u: &mut [f64], b: Neighbours) -> bool
    requires { Holds s t.old × Beside s u.old × Fits s b × (3 ≤ b.n1 + b.n2) }
    ensures { Done s.ld s.n u.old t.new u.new (cond (Stopping.test_fails binary64 s.ld t.old b.row b.n1 b.n2) (Swaps.declining b.row b.n1 b.n2 t.old) (Swaps.swap_of binary64 s.ld s.n b.row b.n1 b.n2 t.old)) × (result ≡ Stopping.test_fails binary64 s.ld t.old b.row b.n1 b.n2) }
{
    if b.n1 == 1 {
        return try_3(Single::First, s, t, u, b.row);
    }
    if b.n2 == 1 {
        return try_3(Single::Last, s, t, u, b.row);
    }
    schur_swap_22(s, t, u, b.row)
}

// The exchange of neighbouring blocks: true where its test fails, and then nothing of it is written, so a bool
// says all. Else one swap, then the new upper block standardised, then the lower. Two single rows have no test,
// and no block. `exchange_whole` of crate `schur` makes another swap, goes on after a decline, and standardises
// without dlanv2's exchange: one function for both would be handed all three.
#[tactic(auto, unfolding(model::specs::Stopping::test_fails))]
pub fn try_exchange(
    s: Shape,
    t: &mut [f64],
    u: &mut [f64],
    b: Neighbours,
    ahead: &mut Ahead,
) -> bool
    requires { Holds s t.old × Beside s u.old × Fits s b }
    ensures { Done s.ld s.n u.old t.new u.new (Stopping.try_exchange binary64 s.ld s.n b.row b.n1 b.n2 t.old) × (result ≡ Stopping.test_fails binary64 s.ld t.old b.row b.n1 b.n2) × (Swaps.swaps_of (Stopping.try_exchange binary64 s.ld s.n b.row b.n1 b.n2 t.old) ≡ 1) × (Swaps.declined_of (Stopping.try_exchange binary64 s.ld s.n b.row b.n1 b.n2 t.old) ≡ cond result 1 0) }
{
    if b.n1 + b.n2 == 2 {
        schur_swap_11(s, t, u, b.row, ahead);
        return false;
    }
    if try_swap(s, t, u, b) {
        return true;
    }
    let lower = b.row + b.n2;
    standardise_also(s, t, u, b.n2, b.row);
    standardise_also(s, t, u, b.n1, lower);
    false
}
