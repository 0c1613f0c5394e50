// One function for each call: it takes a line's words without the index, makes the call with the
// given ones and compares what it gives with the rest. oracle/README.md lists the words.
ghost use Rattle.std.specs.Prelude.{◌≡◌, ◌≤◌};
ghost use Rattle.std.specs.Float.{binary64};
ghost use Rattle.std.specs.Float.Ieee.{Float, of_bits};
ghost use Rattle.linalg.specs.View.{rotation};
ghost use Rattle.replay_text.specs.Shown.{judged_read};
ghost use Rattle.replay_calls.specs.Lines as Lines;

use bits::float::{float_of, floats_of};
use linalg::householder::Reflection;
use linalg::jacobi::JacobiRotation;
use refusal::number;
use replay_text::float::{are_words, is_word};
use replay_text::outcome::{Outcome, judge, judge_read};

// x; r. A call that takes a number and gives one.
pub fn one<F: Fn(f64) -> f64>(w: &[u64], call: F) -> Outcome
    requires { F.IsAlwaysCallable call }
    ensures { (g : Float → Float) → ((x y : Float) → F.post call x y → y ≡ g x) → result ≡ Lines.one g w.now }
{
    let &[x, r] = w else {
        return Outcome::Malformed;
    };
    judge(is_word(call(float_of(x)), r))
}

// p q; r. A call that takes two numbers and gives one.
pub fn two<F: Fn(f64, f64) -> f64>(w: &[u64], call: F) -> Outcome
    requires { F.IsAlwaysCallable call }
    ensures { (g : Float → Float → Float) → ((p q y : Float) → F.post call p q y → y ≡ g p q) → result ≡ Lines.two g w.now }
{
    let &[p, q, r] = w else {
        return Outcome::Malformed;
    };
    judge(is_word(call(float_of(p), float_of(q)), r))
}

// The length, 6 places; r.
pub fn norm_l2(w: &[u64]) -> Outcome
    ensures { result ≡ Lines.norm_l2 w.now }
{
    let &[n, a, b, c, d, e, f, r] = w else {
        return Outcome::Malformed;
    };
    if n > 6 {
        return Outcome::Malformed;
    }
    let x = [a, b, c, d, e, f].map(float_of);
    judge(is_word(arith::norm::norm_l2(&x[..n as usize]), r))
}

// The rotation of two words.
fn rotation(c: u64, s: u64) -> JacobiRotation
    ensures { rotation result ≡ record { c = of_bits binary64 c; s = of_bits binary64 s } }
{
    JacobiRotation {
        c: float_of(c),
        s: float_of(s),
    }
}

// p q; c s r.
pub fn rotg(w: &[u64]) -> Outcome
    ensures { result ≡ Lines.rotg w.now }
{
    let &[p, q, c, s, r] = w else {
        return Outcome::Malformed;
    };
    let g = linalg::jacobi::rotg(float_of(p), float_of(q));
    judge(is_word(g.rot.c, c) && is_word(g.rot.s, s) && is_word(g.r, r))
}

// c s; c s.
pub fn adjoint(w: &[u64]) -> Outcome
    ensures { result ≡ Lines.adjoint w.now }
{
    let &[c, s, j_c, j_s] = w else {
        return Outcome::Malformed;
    };
    let j = linalg::jacobi::adjoint(rotation(c, s));
    judge(is_word(j.c, j_c) && is_word(j.s, j_s))
}

// c s x y; x y.
pub fn apply(w: &[u64]) -> Outcome
    ensures { result ≡ Lines.apply w.now }
{
    let &[c, s, x, y, p_x, p_y] = w else {
        return Outcome::Malformed;
    };
    let p = linalg::jacobi::apply_on_the_right(rotation(c, s), float_of(x), float_of(y));
    judge(is_word(p.x, p_x) && is_word(p.y, p_y))
}

// The places of a tail of n numbers in a line: 5, or n if that is more.
#[tactic(auto, unfolding(crate::specs::Lines::places))]
fn places(n: usize) -> usize
    requires { n ≤ 66 }
    ensures { (result ≡ Lines.places n) × (n ≤ result) × (result ≤ 66) }
{
    n.max(5)
}

// A reflection's line, read part by part. There is room for a tail of 66 numbers, two more than a call takes. What
// is turned away has zeros for its four results.
fn on_tail(w: &[u64]) -> Option<bool>
    ensures { judged_read result ≡ Lines.make_householder_in_place w.now }
{
    let (&[n, head], given) = w.split_first_chunk::<2>()?;
    if n > 66 {
        return None;
    }
    let places = places(n as usize);
    let (given, told) = given.split_at_checked(places)?;
    let (&[answer, new_head, tau, inv, norm], expected) = told.split_first_chunk::<5>()?;
    if expected.len() != places {
        return None;
    }
    let mut room = [0.0; 66];
    let tail = &mut room[..places];
    floats_of(given, &mut *tail);
    let made = linalg::householder::make_householder_in_place(
        float_of(head),
        &mut tail[..n as usize],
    );
    let answer = number(&made) as u64 == answer;
    let r = made.unwrap_or(Reflection {
        head: 0.0,
        tau: 0.0,
        head_with_beta_inv: 0.0,
        norm: 0.0,
    });
    let head = is_word(r.head, new_head);
    let tau = is_word(r.tau, tau);
    let inv = is_word(r.head_with_beta_inv, inv);
    let norm = is_word(r.norm, norm);
    let tail = are_words(&*tail, expected);
    Some(answer & head & tau & inv & norm & tail)
}

// The length, the head, the places of the tail; the number, the four results, the places.
pub fn make_householder_in_place(w: &[u64]) -> Outcome
    ensures { result ≡ Lines.make_householder_in_place w.now }
{
    judge_read(on_tail(w))
}
