// Reflections: make_householder_in_place.
ghost use Rattle.std.specs.Prelude.{◌≡◌, map, Float};
ghost use Rattle.std.specs.Float.{binary64};
ghost use Rattle.std.specs.Float.Ieee.{mul};
ghost use Rattle.model.specs.Householder as Householder;
ghost use Rattle.linalg.specs.View.{reflection, reflected};

use arith::norm::{hypot, norm_l2};
use arith::real::{MIN_POSITIVE, abs, abs2, recip};
use refusal::Refusal;

// A reflection's four results. What it makes of the tail stands in the tail.
#[derive(Clone, Copy)]
pub struct Reflection {
    pub head: f64,
    pub tau: f64,
    pub head_with_beta_inv: f64,
    pub norm: f64,
}

// A head below MIN_POSITIVE in magnitude becomes +0.
#[tactic(auto, unfolding(model::specs::Householder::flushed))]
fn flushed(head: f64) -> f64
    ensures { result ≡ Householder.flushed binary64 head }
{
    if abs(head) < MIN_POSITIVE { 0.0 } else { head }
}

// The head times the rounded reciprocal of its magnitude, and 1 where that is zero.
#[tactic(auto, unfolding(model::specs::Householder::sign_of))]
fn sign_of(head: f64) -> f64
    ensures { result ≡ Householder.sign_of binary64 head }
{
    let head_norm = abs(head);
    if head_norm != 0.0 {
        head * recip(head_norm)
    } else {
        1.0
    }
}

// Each number of the tail times k.
fn scale_tail(tail: &mut [f64], k: f64)
    ensures { tail.new ≡ map (λ (x : Float). mul binary64 x k) tail.old }
{
    for x in tail.iter_mut() {
        *x *= k;
    }
}

// The reflection of a tail whose norm is not below MIN_POSITIVE.
#[tactic(auto, unfolding(model::specs::Householder::reflect_tail))]
fn reflect_tail(head: f64, tail_norm: f64, tail: &mut [f64]) -> Reflection
    ensures { reflection result tail.new ≡ Householder.reflect_tail binary64 head tail_norm tail.old }
{
    let norm = hypot(abs(head), tail_norm);
    let signed_norm = sign_of(head) * norm;
    let head_with_beta_inv = recip(head + signed_norm);
    scale_tail(&mut *tail, head_with_beta_inv);
    Reflection {
        head: -signed_norm,
        tau: 0.5 * (1.0 + abs2(tail_norm * abs(head_with_beta_inv))),
        head_with_beta_inv,
        norm,
    }
}

// The reflection that takes the head and a tail of any length to (head, 0 ..): the new head, tau
// and the rest, and the tail in place.
#[tactic(auto, unfolding(model::specs::Householder::make_householder, model::specs::Householder::reflect_nothing))]
pub fn make_householder(head: f64, tail: &mut [f64]) -> Reflection
    ensures { reflection result tail.new ≡ Householder.make_householder binary64 head tail.old }
{
    let head = flushed(head);
    let tail_norm = norm_l2(tail);
    if tail_norm < MIN_POSITIVE {
        return Reflection {
            head,
            tau: f64::INFINITY,
            head_with_beta_inv: f64::INFINITY,
            norm: abs(head),
        };
    }
    reflect_tail(head, tail_norm, tail)
}

// Whether a tail has 1 to 64 numbers.
#[tactic(auto, unfolding(model::specs::Householder::tail_fits))]
fn tail_fits(len: usize) -> bool
    ensures { result ≡ Householder.tail_fits len }
{
    1 <= len && len <= 64
}

// The same of a tail that has 1 to 64 numbers. Any other is turned away, and stays.
#[tactic(auto, unfolding(model::specs::Householder::make_householder_in_place, model::specs::Householder::tail_turned_away))]
pub fn make_householder_in_place(head: f64, tail: &mut [f64]) -> Result<Reflection, Refusal>
    ensures { reflected result tail.new ≡ Householder.make_householder_in_place binary64 head tail.old }
{
    if tail_fits(tail.len()) {
        Ok(make_householder(head, tail))
    } else {
        Err(Refusal::TailLength)
    }
}
