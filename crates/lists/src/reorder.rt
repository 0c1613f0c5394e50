// A list of moves at once (reorder_schur_list), each as the single call makes it on form and factor as they then stand.
ghost use Rattle.std.specs.Prelude.{◌≡◌, ℕ, ◌+◌, ◌≤◌, List, length, Float, IfOk};
ghost use Rattle.std.specs.Float.{binary64};
ghost use Rattle.model.specs.Move as Move;
ghost use Rattle.model.specs.Lists as Lists;
ghost use Rattle.form.specs.Shaped.{Holds, Beside};
ghost use Rattle.lists.specs.View.{moved, listed};
ghost use Rattle.lists.specs.Known.{Known};

use exchanges::reorder::{Ended, reorder};
use form::lines::{accepted, positions};
use form::shape::Shape;
use refusal::Refusal;
use walks::counts::Counts;

// The move of a pair. Which line turns form and factor away, if any does, is known from before the first pair: no move
// changes that, so only line 7 is left to be tested.
fn next(
    form: Result<Shape, Refusal>,
    t: &mut [f64],
    u: &mut [f64],
    from: usize,
    to: usize,
) -> Result<Ended, Refusal>
    requires { IfOk form (λ s. Holds s t.old × Beside s u.old) }
    ensures { (n ld : ℕ) → Known form n ld t.old u.old → moved result t.new u.new ≡ Move.move_call binary64 ld n t.old u.old from to }
{
    let s = form?;
    positions(s, from, to)?;
    Ok(reorder(s, t, u, from, to))
}

// The four numbers of a pair's answer, from place p on.
#[tactic(auto, unfolding(model::specs::Lists::written))]
fn write(results: &mut [usize], p: usize, r: Result<Ended, Refusal>)
    requires { p + 4 ≤ length results.old }
    ensures { (t u : List Float) → results.new ≡ Lists.written p (moved r t u) results.old }
{
    let (number, landed, counts) = match r {
        Ok(m) => (0, m.here, m.counts),
        Err(refusal) => (usize::from(refusal), 0, Counts::default()),
    };
    results[p] = number;
    results[p + 1] = landed;
    results[p + 2] = counts.swaps;
    results[p + 3] = counts.declined;
}

// The moves of a list from, to, from, to, .. of at most 64 pairs, in turn, and what each answers: its number, the row
// landed on, swaps and declined. A pair that is turned away writes its number and three zeros, and the next goes on.
pub fn reorder_schur_list(
    n: usize,
    ld: usize,
    t: &mut [f64],
    u: &mut [f64],
    moves: &[usize],
    results: &mut [usize],
) -> Result<(), Refusal>
    ensures { listed result t.new u.new results.new ≡ Lists.list_call binary64 ld n t.old u.old moves.now results.old }
{
    let pairs = moves.len() / 2;
    if moves.len() % 2 != 0 || 64 < pairs || results.len() < 4 * pairs {
        return Err(Refusal::MoveList);
    }
    let form = accepted(n, ld, t, u);
    let mut left = moves;
    let mut p = 0;
    while let Some((&[from, to], rest)) = left.split_first_chunk::<2>() {
        let r = next(form, t, u, from, to);
        write(results, p, r);
        left = rest;
        p += 4;
    }
    Ok(())
}
