// Lines of the two moves and of an exchange: the lengths of form and factor, n, the stride if it is given,
// the numbers that the call takes, form and factor; the numbers of its answer, form and factor as they
// are expected.
ghost use Rattle.std.specs.Prelude.{◌≡◌, ◌≤◌};
ghost use Rattle.replay_text.specs.Shown.{judged_read};
ghost use Rattle.replay_forms.specs.Lines as Lines;
ghost use Rattle.replay_forms.specs.Lines.{more};

use crate::buffers::{ROOM, numbers};
use crate::head::Stride;
use replay_text::float::are_words;
use replay_text::outcome::{Outcome, judge_read};

// A call on a form and a factor, which takes G numbers beside n and the stride, and answers N.
trait OnTwo<const G: usize, const N: usize> {
    ghost gives: { Lines.Call };

    // Turned away, it answers the refusal's number and 0 for each other.
    fn call(n: usize, ld: usize, given: &[u64; G], t: &mut [f64], u: &mut [f64]) -> [u64; N]
        ensures { (record { numbers = result; form = t.new; factor = u.new }) ≡ gives ld n given.now t.old u.old };
}

// from to; answer landed swaps declined.
struct Move;

impl OnTwo<2, 4> for Move {
    ghost gives = { Lines.move };

    fn call(n: usize, ld: usize, &[from, to]: &[u64; 2], t: &mut [f64], u: &mut [f64]) -> [u64; 4] {
        match schur::reorder::reorder_schur(n, ld, t, u, from as usize, to as usize) {
            Ok(r) => [0, r.landed as u64, r.swaps as u64, r.declined as u64],
            Err(refusal) => [usize::from(refusal) as u64, 0, 0, 0],
        }
    }
}

// from to; answer stopped here swaps declined, with 1 for the mark.
struct StoppingMove;

impl OnTwo<2, 5> for StoppingMove {
    ghost gives = { Lines.stopping };

    fn call(n: usize, ld: usize, &[from, to]: &[u64; 2], t: &mut [f64], u: &mut [f64]) -> [u64; 5] {
        match stopping::reorder::reorder_schur_stopping(n, ld, t, u, from as usize, to as usize) {
            Ok(r) => {
                let stopped = u64::from(r.stopped);
                [0, stopped, r.here as u64, r.swaps as u64, r.declined as u64]
            }
            Err(refusal) => [usize::from(refusal) as u64, 0, 0, 0, 0],
        }
    }
}

// j0 n1 n2; answer swaps declined.
struct Exchange;

impl OnTwo<3, 3> for Exchange {
    ghost gives = { Lines.exchange };

    fn call(
        n: usize,
        ld: usize,
        &[j0, n1, n2]: &[u64; 3],
        t: &mut [f64],
        u: &mut [f64],
    ) -> [u64; 3] {
        match schur::swap::schur_swap(n, ld, t, u, j0 as usize, n1 as usize, n2 as usize) {
            Ok(r) => [0, r.swaps as u64, r.declined as u64],
            Err(refusal) => [usize::from(refusal) as u64, 0, 0],
        }
    }
}

// A line of such a call, read part by part: whether the call gives what is expected, or none if this is
// no line of it.
#[tactic(auto, unfolding(crate::specs::Lines::fits))]
fn on_two<const G: usize, const N: usize, C: OnTwo<G, N>>(stride: Stride, w: &[u64]) -> Option<bool>
    requires { (G ≤ 8) × (N ≤ 8) }
    ensures { judged_read result ≡ Lines.on_two C.gives G N (more stride) w.now }
{
    let (&[a, b], shape) = w.split_first_chunk::<2>()?;
    let head = stride.head(shape)?;
    let (given, form) = head.rest.split_first_chunk::<G>()?;
    let (form, factor) = form.split_at_checked(a as usize)?;
    let (factor, told) = factor.split_at_checked(b as usize)?;
    let (told, form_after) = told.split_first_chunk::<N>()?;
    let (form_after, factor_after) = form_after.split_at_checked(a as usize)?;
    if factor_after.len() as u64 != b {
        return None;
    }
    let mut t = [0.0; ROOM];
    let mut u = [0.0; ROOM];
    let t = numbers(&mut t, form)?;
    let u = numbers(&mut u, factor)?;
    let answered = C::call(head.n, head.ld, given, &mut *t, &mut *u);
    let same = answered == *told;
    let form = are_words(&*t, form_after);
    let factor = are_words(&*u, factor_after);
    Some(same & form & factor)
}

pub fn reorder_schur(stride: Stride, w: &[u64]) -> Outcome
    ensures { result ≡ Lines.reorder_schur (more stride) w.now }
{
    judge_read(on_two::<2, 4, Move>(stride, w))
}

pub fn reorder_schur_stopping(stride: Stride, w: &[u64]) -> Outcome
    ensures { result ≡ Lines.reorder_schur_stopping (more stride) w.now }
{
    judge_read(on_two::<2, 5, StoppingMove>(stride, w))
}

pub fn schur_swap(stride: Stride, w: &[u64]) -> Outcome
    ensures { result ≡ Lines.schur_swap (more stride) w.now }
{
    judge_read(on_two::<3, 3, Exchange>(stride, w))
}
