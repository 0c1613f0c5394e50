// The exchange of two neighbouring blocks (schur_swap), as a call.
ghost use Rattle.std.specs.Prelude.{◌≡◌};
ghost use Rattle.std.specs.Float.{binary64};
ghost use Rattle.model.specs.Exchange as Exchange;
ghost use Rattle.schur.specs.View.{exchanged};

use exchanges::exchange::exchange;
use form::lines::accepted_exchange;
use refusal::Refusal;
use swaps::neighbours::Neighbours;
use walks::counts::Counts;

// The exchange of the n1 rows from row j0 on with the n2 below them.
#[tactic(auto, unfolding(model::specs::Exchange::exchange_call))]
pub fn schur_swap(
    n: usize,
    ld: usize,
    t: &mut [f64],
    u: &mut [f64],
    j0: usize,
    n1: usize,
    n2: usize,
) -> Result<Counts, Refusal>
    ensures { exchanged result t.new u.new ≡ Exchange.exchange_call binary64 ld n t.old u.old j0 n1 n2 }
{
    let s = accepted_exchange(n, ld, t, u, j0, n1, n2)?;
    let b = Neighbours { row: j0, n1, n2 };
    Ok(exchange(s, t, u, b))
}
