// A 2-block standardised in place.
ghost use Rattle.std.specs.Prelude.{◌≡◌, ◌+◌, ◌≤◌};
ghost use Rattle.std.specs.Float.{binary64};
ghost use Rattle.model.specs.Swaps as Swaps;
ghost use Rattle.schur22.specs.View.{block};
ghost use Rattle.form.specs.Shaped.{Holds, Beside};
ghost use Rattle.swaps.specs.Done.{Done};

use crate::operations::{on_factor, on_form};
use form::shape::Shape;
use linalg::jacobi::JacobiRotation;
use schur22::lahqr_schur22::{Block, lahqr_schur22};

// The standard form of the block in rows j and j + 1.
#[tactic(auto, unfolding(model::specs::Swaps::block_at))]
pub fn standard_block(s: Shape, t: &[f64], j: usize) -> Block
    requires { Holds s t.now × (j + 2 ≤ s.n) }
    ensures { block result ≡ Swaps.block_at binary64 s.ld t.now j }
{
    let a = s.get(t, j, j);
    let b = s.get(t, j, j + 1);
    let c = s.get(t, j + 1, j);
    let d = s.get(t, j + 1, j + 1);
    lahqr_schur22(a, b, c, d).block
}

// The block b put in rows j and j + 1, and what lies right of and above it rotated, and the factor's columns.
#[tactic(auto, unfolding(model::specs::Columns::on_factor))]
pub fn standardise_by(s: Shape, t: &mut [f64], u: &mut [f64], j: usize, b: Block)
    requires { Holds s t.old × Beside s u.old × (j + 2 ≤ s.n) }
    ensures { Done s.ld s.n u.old t.new u.new (Swaps.standardise_by binary64 s.ld s.n j (block b) t.old) }
{
    s.put(t, j, j, b.a);
    s.put(t, j, j + 1, b.b);
    s.put(t, j + 1, j, b.c);
    s.put(t, j + 1, j + 1, b.d);
    let rot = JacobiRotation { c: b.cs, s: b.sn };
    on_form(s, t, rot, [j, j + 1], j + 2, j);
    on_factor(s, u, rot, [j, j + 1]);
}

// The block in rows j and j + 1 standardised.
#[tactic(auto, unfolding(model::specs::Swaps::standardise))]
pub fn standardise(s: Shape, t: &mut [f64], u: &mut [f64], j: usize)
    requires { Holds s t.old × Beside s u.old × (j + 2 ≤ s.n) }
    ensures { Done s.ld s.n u.old t.new u.new (Swaps.standardise binary64 s.ld s.n j t.old) }
{
    let b = standard_block(s, t, j);
    standardise_by(s, t, u, j, b);
}
