// The move of a block that goes on after a decline, on a form whose shape is known.
ghost use Rattle.std.specs.Prelude.{◌≡◌, ℕ, ◌<◌};
ghost use Rattle.std.specs.Float.{binary64};
ghost use Rattle.std.proofs.Common.{arith};
ghost use Rattle.model.specs.Move as Move;
ghost use Rattle.model.specs.Stopping as Stopping;
ghost use Rattle.form.specs.Shaped.{Holds, Beside, IsOf};
ghost use Rattle.exchanges.specs.View.{moved};

use crate::exchange::exchange_straight;
use form::shape::Shape;
use swaps::ahead::Ahead;
use swaps::neighbours::Neighbours;
use walks::counts::Counts;
use walks::moving::Kind;
use walks::walk::walk;

// A move that goes on after a decline.
struct GoesOn;

impl Kind for GoesOn {
    ghost kind = { λ ld n. Stopping.goes_on binary64 ld n };

    ghost most = { 4 };

    fn exchange(
        s: Shape,
        t: &mut [f64],
        u: &mut [f64],
        b: Neighbours,
        ahead: &mut Ahead,
    ) -> Result<Counts, Counts> {
        Ok(exchange_straight(s, t, u, b, ahead))
    }

    ghost few = { omega arith };
}

// Where a move has ended, and the counts: not all of `Moving`, whose block would be handed back with the places that
// its byte leaves empty, in pieces that are read before they are there.
#[derive(Clone, Copy)]
pub struct Ended {
    pub here: usize,
    pub counts: Counts,
}

// The block that row `from` is in to row `to`: where it is then, and the counts. It is what the call gives wherever no
// line turns it away.
pub fn reorder(s: Shape, t: &mut [f64], u: &mut [f64], from: usize, to: usize) -> Ended
    requires { Holds s t.old × Beside s u.old × (from < s.n) × (to < s.n) }
    ensures { (n ld : ℕ) → IsOf s n ld t.old → 0 ≡ Move.move_line binary64 ld n t.old u.old from to → moved result t.new u.new ≡ Move.move_call binary64 ld n t.old u.old from to }
{
    match walk::<GoesOn>(s, t, u, from, to) {
        Ok(m) | Err(m) => Ended {
            here: m.here,
            counts: m.counts,
        },
    }
}
