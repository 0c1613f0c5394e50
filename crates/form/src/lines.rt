// The lines of document 01's list that a move or an exchange meets.
ghost use Rattle.std.specs.Prelude.{◌≡◌, ◌+◌, ◌≤◌, ◌<◌, IfOk};
ghost use Rattle.std.specs.Float.{binary64};
ghost use Rattle.model.specs.Form.{line4};
ghost use Rattle.model.specs.Exchange as Exchange;
ghost use Rattle.model.specs.Move as Move;
ghost use Rattle.refusal.specs.Line.{answer};
ghost use Rattle.form.specs.Run.{Rows};
ghost use Rattle.form.specs.Lines.{further_line, positions_line, sizes_fit};
ghost use Rattle.form.specs.Shaped.{Holds, Beside, IsOf};

use crate::deep::quasi_triangular;
use crate::shape::Shape;
use refusal::Refusal;

// The shape of a form that none of lines 2, 17 and 3 to 6 turns away, nor its factor, or the first that does. No
// factor is one of length 0, as document 01 has it.
#[tactic(auto, using(crate::proofs::Accepted::further_first, refusal::proofs::Told::told), unfolding(model::specs::Form::line4))]
pub fn accepted(n: usize, ld: usize, t: &[f64], u: &[f64]) -> Result<Shape, Refusal>
    ensures line { answer result ≡ further_line ld n t.now (line4 ld n u.now) }
    ensures shape { IfOk result (λ s. IsOf s n ld t.now × Beside s u.now) }
{
    let s = Shape::new(n, ld, t)?;
    if u.len() != s.ld * s.n && u.len() != 0 {
        return Err(Refusal::BufferLength);
    }
    quasi_triangular(s, t)?;
    Ok(s)
}

// Line 7 of a move: a position is not below n.
#[tactic(auto, unfolding(crate::specs::Lines::positions_line, model::specs::Form::line7))]
pub fn positions(s: Shape, from: usize, to: usize) -> Result<(), Refusal>
    ensures line { answer result ≡ positions_line s.n from to }
    ensures inside { IfOk result (λ o. (from < s.n) × (to < s.n)) }
{
    if s.n <= from || s.n <= to {
        return Err(Refusal::Position);
    }
    Ok(())
}

// The same lines with line 7 of a move.
#[tactic(auto, using(crate::proofs::Accepted::move_on, refusal::proofs::Told::told))]
pub fn accepted_move(
    n: usize,
    ld: usize,
    t: &[f64],
    u: &[f64],
    from: usize,
    to: usize,
) -> Result<Shape, Refusal>
    ensures line { answer result ≡ Move.move_line binary64 ld n t.now u.now from to }
    ensures shape { IfOk result (λ s. IsOf s n ld t.now × Beside s u.now × (from < n) × (to < n)) }
{
    let s = accepted(n, ld, t, u)?;
    positions(s, from, to)?;
    Ok(s)
}

// Whether both sizes are 1 or 2.
fn sizes_fit(n1: usize, n2: usize) -> bool
    ensures { result ≡ sizes_fit n1 n2 }
{
    matches!(n1, 1 | 2) && matches!(n2, 1 | 2)
}

// Line 10: a 2-block lies across an edge.
#[tactic(auto, unfolding(model::specs::Exchange::line10))]
fn any_crosses(s: Shape, t: &[f64], j: usize, n1: usize, n2: usize) -> bool
    requires { Holds s t.now × (j + n1 + n2 ≤ 64) }
    ensures { result ≡ Exchange.line10 binary64 s.ld s.n t.now j n1 n2 }
{
    s.crosses(t, j) | (s.crosses(t, j + n1) | s.crosses(t, j + n1 + n2))
}

// The same with lines 7 to 10 of an exchange.
#[tactic(auto, using(crate::proofs::Accepted::exchange_on, refusal::proofs::Told::told), unfolding(model::specs::Form::line7, model::specs::Exchange::line8, model::specs::Exchange::line9))]
pub fn accepted_exchange(
    n: usize,
    ld: usize,
    t: &[f64],
    u: &[f64],
    j0: usize,
    n1: usize,
    n2: usize,
) -> Result<Shape, Refusal>
    ensures line { answer result ≡ Exchange.exchange_line binary64 ld n t.now u.now j0 n1 n2 }
    ensures shape { IfOk result (λ s. IsOf s n ld t.now × Beside s u.now × Rows n j0 n1 n2) }
{
    let s = accepted(n, ld, t, u)?;
    if n <= j0 {
        return Err(Refusal::Position);
    }
    if !sizes_fit(n1, n2) {
        return Err(Refusal::BlockSizes);
    }
    if n < j0 + n1 + n2 {
        return Err(Refusal::RowsBeyond);
    }
    if any_crosses(s, t, j0, n1, n2) {
        return Err(Refusal::AcrossBlock);
    }
    Ok(s)
}
