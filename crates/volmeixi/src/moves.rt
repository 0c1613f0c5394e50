// Exchange, moves and lists of moves, with the stride ld after n. The factor may be of length 0: none. Turned away, the
// counts are 0.
ghost use Rattle.std.specs.Prelude.{◌≡◌};
ghost use Rattle.std.specs.Float.{binary64};
ghost use Rattle.model.specs.Exchange as Exchange;
ghost use Rattle.model.specs.Move as Move;
ghost use Rattle.model.specs.Stopping as Stopping;
ghost use Rattle.model.specs.Lists as Lists;

use refusal::number;

// The n1 rows from row j0 on exchanged with the n2 below them; swaps and declined.
#[unsafe(no_mangle)]
pub extern "C" fn vx_schur_swap(
    n: usize,
    ld: usize,
    t: &mut [f64],
    u: &mut [f64],
    j0: usize,
    n1: usize,
    n2: usize,
    swaps: &mut usize,
    declined: &mut usize,
) -> usize
    ensures { (record { answer = result; swaps = swaps.new; declined = declined.new; form = t.new; factor = u.new }) ≡ Exchange.exchange_call binary64 ld n t.old u.old j0 n1 n2 }
{
    match schur::swap::schur_swap(n, ld, t, u, j0, n1, n2) {
        Ok(r) => {
            *swaps = r.swaps;
            *declined = r.declined;
            0
        }
        Err(refusal) => {
            *swaps = 0;
            *declined = 0;
            usize::from(refusal)
        }
    }
}

// The block in row `from` moved to row `to`; landed, swaps and declined.
#[unsafe(no_mangle)]
pub extern "C" fn vx_reorder_schur(
    n: usize,
    ld: usize,
    t: &mut [f64],
    u: &mut [f64],
    from: usize,
    to: usize,
    landed: &mut usize,
    swaps: &mut usize,
    declined: &mut usize,
) -> usize
    ensures { (record { answer = result; landed = landed.new; swaps = swaps.new; declined = declined.new; form = t.new; factor = u.new }) ≡ Move.move_call binary64 ld n t.old u.old from to }
{
    match schur::reorder::reorder_schur(n, ld, t, u, from, to) {
        Ok(r) => {
            *landed = r.landed;
            *swaps = r.swaps;
            *declined = r.declined;
            0
        }
        Err(refusal) => {
            *landed = 0;
            *swaps = 0;
            *declined = 0;
            usize::from(refusal)
        }
    }
}

// The same, stopping at the first exchange whose test fails; stopped, here, swaps and declined.
#[unsafe(no_mangle)]
pub extern "C" fn vx_reorder_schur_stopping(
    n: usize,
    ld: usize,
    t: &mut [f64],
    u: &mut [f64],
    from: usize,
    to: usize,
    stopped: &mut bool,
    here: &mut usize,
    swaps: &mut usize,
    declined: &mut usize,
) -> usize
    ensures { (record { answer = result; stopped = stopped.new; here = here.new; swaps = swaps.new; declined = declined.new; form = t.new; factor = u.new }) ≡ Stopping.stopping_call binary64 ld n t.old u.old from to }
{
    match stopping::reorder::reorder_schur_stopping(n, ld, t, u, from, to) {
        Ok(r) => {
            *stopped = r.stopped;
            *here = r.here;
            *swaps = r.swaps;
            *declined = r.declined;
            0
        }
        Err(refusal) => {
            *stopped = false;
            *here = 0;
            *swaps = 0;
            *declined = 0;
            usize::from(refusal)
        }
    }
}

// The moves of a list from, to, from, to, .. in turn; of each pair its number, landed, swaps and declined.
#[unsafe(no_mangle)]
pub extern "C" fn vx_reorder_schur_list(
    n: usize,
    ld: usize,
    t: &mut [f64],
    u: &mut [f64],
    moves: &[usize],
    results: &mut [usize],
) -> usize
    ensures { (record { answer = result; form = t.new; factor = u.new; results = results.new }) ≡ Lists.list_call binary64 ld n t.old u.old moves.now results.old }
{
    number(&lists::reorder::reorder_schur_list(n, ld, t, u, moves, results))
}
