// The move of a block that stops at the first exchange whose test fails (reorder_schur_stopping).
ghost use Rattle.std.specs.Prelude.{◌≡◌};
ghost use Rattle.std.specs.Float.{binary64};
ghost use Rattle.std.proofs.Common.{arith};
ghost use Rattle.model.specs.Stopping as Stopping;
ghost use Rattle.stopping.specs.View.{stopped};

use form::lines::accepted_move;
use form::shape::Shape;
use refusal::Refusal;
use swaps::ahead::Ahead;
use swaps::neighbours::Neighbours;
use tries::exchange::try_exchange;
use walks::counts::Counts;
use walks::moving::Kind;
use walks::walk::walk;

// A move that stops at the first exchange whose test fails.
struct Stops;

impl Kind for Stops {
    ghost kind = { λ ld n. Stopping.stopping binary64 ld n };

    ghost most = { 1 };

    fn exchange(
        s: Shape,
        t: &mut [f64],
        u: &mut [f64],
        b: Neighbours,
        ahead: &mut Ahead,
    ) -> Result<Counts, Counts> {
        let declined = try_exchange(s, t, u, b, ahead);
        let counts = Counts::of_one(declined);
        if declined { Err(counts) } else { Ok(counts) }
    }

    ghost few = { omega arith };
}

// What document 02 has this move answer (Note 6): whether it has stopped, the row of the moved block, and the counts
// so far. These are numbers of the answer itself and no Counts, since C is given each as it is.
#[derive(Clone, Copy)]
pub struct Stopped {
    pub stopped: bool,
    pub here: usize,
    pub swaps: usize,
    pub declined: usize,
}

// The move of the block in row `from` to row `to`, as far as the first exchange whose test fails.
#[tactic(auto, unfolding(model::specs::Stopping::stopping_call))]
pub fn reorder_schur_stopping(
    n: usize,
    ld: usize,
    t: &mut [f64],
    u: &mut [f64],
    from: usize,
    to: usize,
) -> Result<Stopped, Refusal>
    ensures { stopped result t.new u.new ≡ Stopping.stopping_call binary64 ld n t.old u.old from to }
{
    let s = accepted_move(n, ld, t, u, from, to)?;
    let (stopped, m) = match walk::<Stops>(s, t, u, from, to) {
        Ok(m) => (false, m),
        Err(m) => (true, m),
    };
    Ok(Stopped {
        stopped,
        here: m.here,
        swaps: m.counts.swaps,
        declined: m.counts.declined,
    })
}
