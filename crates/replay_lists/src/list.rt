// Lines of a list of moves at once: the lengths of form, factor, moves and results, n, the stride if it is given,
// moves, form, factor and results as they are lent; the answer, form, factor and results as they are expected.
ghost use Rattle.std.specs.Prelude.{◌≡◌};
ghost use Rattle.replay_text.specs.Shown.{judged_read};
ghost use Rattle.replay_forms.specs.Lines.{more};
ghost use Rattle.replay_lists.specs.Lines as Lines;

use crate::places::{PLACES, are_numbers, places};
use refusal::number;
use replay_forms::buffers::{ROOM, numbers};
use replay_forms::head::Stride;
use replay_text::float::are_words;
use replay_text::outcome::{Outcome, judge_read};

// Such a line, read part by part: whether the call gives what is expected, or none if this is no line of it.
#[tactic(auto, unfolding(replay_forms::specs::Lines::fits, crate::specs::Lines::fits))]
fn on_list(stride: Stride, w: &[u64]) -> Option<bool>
    ensures { judged_read result ≡ Lines.reorder_schur_list (more stride) w.now }
{
    let (&[a, b, k, m], shape) = w.split_first_chunk::<4>()?;
    let head = stride.head(shape)?;
    let (moves, form) = head.rest.split_at_checked(k as usize)?;
    let (form, factor) = form.split_at_checked(a as usize)?;
    let (factor, lent) = factor.split_at_checked(b as usize)?;
    let (lent, told) = lent.split_at_checked(m as usize)?;
    let (&told, after) = told.split_first()?;
    let (form_after, after) = after.split_at_checked(a as usize)?;
    let (factor_after, results_after) = after.split_at_checked(b as usize)?;
    if results_after.len() as u64 != m {
        return None;
    }
    let mut t = [0.0; ROOM];
    let mut u = [0.0; ROOM];
    let mut pairs = [0; PLACES];
    let mut results = [0; PLACES];
    let t = numbers(&mut t, form)?;
    let u = numbers(&mut u, factor)?;
    let pairs = places(&mut pairs, moves)?;
    let results = places(&mut results, lent)?;
    let r = lists::reorder::reorder_schur_list(
        head.n,
        head.ld,
        &mut *t,
        &mut *u,
        &*pairs,
        &mut *results,
    );
    let answer = number(&r) as u64 == told;
    let form = are_words(&*t, form_after);
    let factor = are_words(&*u, factor_after);
    let results = are_numbers(&*results, results_after);
    Some(answer & form & factor & results)
}

pub fn reorder_schur_list(stride: Stride, w: &[u64]) -> Outcome
    ensures { result ≡ Lines.reorder_schur_list (more stride) w.now }
{
    judge_read(on_list(stride, w))
}
