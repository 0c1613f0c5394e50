// Lines 5 and 6 of document 01's list: what a form meets by itself.
ghost use Rattle.std.specs.Prelude.{◌≡◌, ℕ, ◌+◌, ◌-◌, ◌*◌, ◌≤◌, true, false, length, max, MatchResult};
ghost use Rattle.std.specs.Float.{binary64};
ghost use Rattle.std.specs.Float.Ieee.{ne, of_bits};
ghost use Rattle.model.specs.Form as Form;
ghost use Rattle.model.specs.Form.{at, entry, some};
ghost use Rattle.refusal.specs.Line.{answer};
ghost use Rattle.refusal.specs.declared.Refusal.TheVariants.{DeepEntry, TouchingBlocks};
ghost use Rattle.form.specs.Deep.{Clean};
ghost use Rattle.form.specs.Lines.{shape_line};
ghost use Rattle.form.specs.Shaped.{Holds};

use crate::shape::Shape;
use refusal::Refusal;
use std::simd::Simd;

// Whether some of the numbers is not zero, with no branch on each.
fn any_nonzero(xs: &[f64]) -> bool
    ensures { result ≡ some (length xs.now) (λ (k : ℕ). ne (at xs.now k) (of_bits binary64 0)) }
{
    xs.iter().fold(false, |seen, x| seen | (*x != 0.0))
}

// The same of the first N numbers, all compared at once: the compiler fences off each float that is compared, so
// that a loop over them loads and tests them one by one.
fn any_of_first<const N: usize>(xs: &[f64]) -> bool
    requires { (N ≤ length xs.now) × (N ≤ 64) }
    ensures { result ≡ some N (λ (k : ℕ). ne (at xs.now k) (of_bits binary64 0)) }
{
    let x: Simd<f64, N> = Simd::from_slice(xs);
    x.simd_ne(Simd::splat(0.0)).any()
}

// Whether one of the first `count` columns has a number that is not zero in the ROWS rows from row p on. A loop: a
// closure in a function with a const parameter would have to say anew, as a `requires` of its own, what this one
// asks for.
#[tactic(auto, unfolding(model::specs::Form::some))]
fn any_in_columns<const ROWS: usize>(s: Shape, t: &[f64], p: usize, count: usize) -> bool
    requires { Holds s t.now × (p + ROWS ≤ s.n) × (count ≤ s.n) }
    ensures { result ≡ some count (λ (j : ℕ). some ROWS (λ (k : ℕ). ne (entry s.ld t.now (p + k) j) (of_bits binary64 0))) }
{
    for j in 0..count {
        if any_of_first::<ROWS>(&t[s.place(p, j)..]) {
            return true;
        }
    }
    false
}

// The same in the corner of `rows` rows from row `top` on: column top - 1 has one number less than there are rows,
// and each further one begins a row lower. A loop to the end: by `any`, which has a branch at each of these short
// columns, the check took 1.2 to 1.6 times as long at 9 and 12 rows.
#[tactic(auto, unfolding(model::specs::Form::some))]
fn any_in_corner(s: Shape, t: &[f64], top: usize, rows: usize) -> bool
    requires { Holds s t.now × (1 ≤ top) × (1 ≤ rows) × (top + rows ≤ s.n) }
    ensures { result ≡ some (rows - 1) (λ (j : ℕ). some (rows - 1 - j) (λ (k : ℕ). ne (entry s.ld t.now (top + 1 + j + k) (top - 1 + j)) (of_bits binary64 0))) }
{
    let mut seen = false;
    for j in 0..rows - 1 {
        let first = s.place(top + 1 + j, top - 1 + j);
        seen |= any_nonzero(&t[first..first + (rows - 1 - j)]);
    }
    seen
}

// Whether one of the ROWS rows from row `top` on has a number that is not zero more than one row below the
// diagonal: whole columns, then the corner at the diagonal.
fn deep_rows<const ROWS: usize>(s: Shape, t: &[f64], top: usize) -> bool
    requires { Holds s t.now × (1 ≤ top) × (1 ≤ ROWS) × (top + ROWS ≤ s.n) }
    ensures { result ≡ some ROWS (λ (i : ℕ). some (top + i - 1) (λ (j : ℕ). ne (entry s.ld t.now (top + i) j) (of_bits binary64 0))) }
{
    any_in_columns::<ROWS>(s, t, top, top - 1) || any_in_corner(s, t, top, ROWS)
}

// Looks for such a number from the last of the first `rows` rows up, ROWS rows at a time, while more than ROWS
// are left, and gives the rows that are left. The first two rows have none. No `for`: a range has no steps of
// ROWS down to a number that is itself handed on.
fn none_deep<const ROWS: usize>(s: Shape, t: &[f64], rows: usize) -> Result<usize, Refusal>
    requires { Holds s t.now × (1 ≤ ROWS) × (rows ≤ s.n) }
    ensures { MatchResult result
        (λ (left : ℕ). (left ≤ rows) × (left ≤ max ROWS 2) × Clean s.ld t.now left rows)
        (λ e. (e ≡ DeepEntry) × (Form.line5 binary64 s.ld s.n t.now ≡ true)) }
{
    let mut left = rows;
    while ROWS.max(2) < left {
        left -= ROWS;
        if deep_rows::<ROWS>(s, t, left) {
            return Err(Refusal::DeepEntry);
        }
    }
    Ok(left)
}

// Line 5, from the last rows up: eight rows at a time, then four, then one.
#[tactic(auto, using(crate::proofs::Below::clean_line, crate::proofs::Below::above))]
fn all_none_deep(s: Shape, t: &[f64]) -> Result<(), Refusal>
    requires { Holds s t.now }
    ensures { MatchResult result
        (λ _. Form.line5 binary64 s.ld s.n t.now ≡ false)
        (λ e. (e ≡ DeepEntry) × (Form.line5 binary64 s.ld s.n t.now ≡ true)) }
{
    let rows = none_deep::<8>(s, t, s.n)?;
    let rows = none_deep::<4>(s, t, rows)?;
    none_deep::<1>(s, t, rows)?;
    Ok(())
}

// Line 6: two neighbouring numbers just below the diagonal.
fn touching(s: Shape, t: &[f64]) -> bool
    requires { Holds s t.now }
    ensures { result ≡ Form.line6 binary64 s.ld s.n t.now }
{
    (0..s.n.saturating_sub(2)).any(|j| s.nonzero_below(t, j) & s.nonzero_below(t, j + 1))
}

// Whether t is quasi-triangular: line 5 or 6, the first that applies.
#[tactic(auto, unfolding(crate::specs::Lines::shape_line))]
pub fn quasi_triangular(s: Shape, t: &[f64]) -> Result<(), Refusal>
    requires { Holds s t.now }
    ensures { answer result ≡ shape_line s.ld s.n t.now }
{
    all_none_deep(s, t)?;
    if touching(s, t) {
        return Err(Refusal::TouchingBlocks);
    }
    Ok(())
}
