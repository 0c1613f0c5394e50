// The move of a block (reorder_schur).
ghost use Rattle.std.specs.Prelude.{◌≡◌};
ghost use Rattle.std.specs.Float.{binary64};
ghost use Rattle.model.specs.Move as Move;
ghost use Rattle.schur.specs.View.{moved};

use exchanges::reorder::reorder;
use form::lines::accepted_move;
use refusal::Refusal;

// The row that a move landed on, and the counts, which are numbers of the answer itself and no Counts, since
// document 01 asks for that form.
#[derive(Clone, Copy)]
pub struct Moved {
    pub landed: usize,
    pub swaps: usize,
    pub declined: usize,
}

// The move of the block in row `from` to row `to`.
#[tactic(auto, unfolding(model::specs::Move::move_call))]
pub fn reorder_schur(
    n: usize,
    ld: usize,
    t: &mut [f64],
    u: &mut [f64],
    from: usize,
    to: usize,
) -> Result<Moved, Refusal>
    ensures { moved result t.new u.new ≡ Move.move_call binary64 ld n t.old u.old from to }
{
    let s = accepted_move(n, ld, t, u, from, to)?;
    let m = reorder(s, t, u, from, to);
    Ok(Moved {
        landed: m.here,
        swaps: m.counts.swaps,
        declined: m.counts.declined,
    })
}
