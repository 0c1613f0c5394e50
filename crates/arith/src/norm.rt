// The modulus of a pair and the norm of a list.
ghost use Rattle.std.specs.Prelude.{◌≡◌, true, false, ◌&&◌, ◌<◌, Float, fold};
ghost use Rattle.std.specs.Float.{binary64, float_is_finite};
ghost use Rattle.std.specs.Float.Ieee.{to_bits};
ghost use Rattle.model.specs.Arith as Arith;

use crate::real::{SIGN, abs};
use modulus::bits::modulus_bits;

// The pattern of a finite number's magnitude.
fn magnitude(x: f64) -> u64
    requires { float_is_finite x ≡ true }
    ensures { (result ≡ to_bits binary64 (Arith.abs x)) × (result < 0x7ff0_0000_0000_0000) }
{
    x.to_bits() % SIGN
}

// The modulus of two finite numbers, with no branch on their signs or order.
fn finite_modulus(p: f64, q: f64) -> f64
    requires { (float_is_finite p ≡ true) × (float_is_finite q ≡ true) }
    ensures { result ≡ Arith.hypot binary64 p q }
{
    let a = magnitude(p);
    let b = magnitude(q);
    f64::from_bits(modulus_bits(a.max(b), a.min(b)))
}

// The modulus where one is an infinity or a NaN.
fn special_modulus(p: f64, q: f64) -> f64
    requires { (float_is_finite p && float_is_finite q) ≡ false }
    ensures { result ≡ Arith.hypot binary64 p q }
{
    if p.is_infinite() | q.is_infinite() {
        f64::INFINITY
    } else {
        f64::NAN
    }
}

// The modulus: infinity if either is infinite, else NaN if either is, else the f64 nearest to the root of
// p * p + q * q.
pub fn hypot(p: f64, q: f64) -> f64
    ensures { result ≡ Arith.hypot binary64 p q }
{
    if p.is_finite() & q.is_finite() {
        finite_modulus(p, q)
    } else {
        special_modulus(p, q)
    }
}

// The modulus of a norm with each number in turn.
fn norm_from(norm: f64, x: &[f64]) -> f64
    ensures { result ≡ fold (λ (n y : Float). Arith.hypot binary64 n y) norm x.now }
{
    x.iter().fold(norm, |norm, y| hypot(norm, *y))
}

// The magnitude of the first number, then the modulus of that with each next; of nothing, +0.
pub fn norm_l2(x: &[f64]) -> f64
    ensures { result ≡ Arith.norm_l2 binary64 x.now }
{
    match x.split_first() {
        Some((first, rest)) => norm_from(abs(*first), rest),
        None => 0.0,
    }
}
