// A single row against a single row.
ghost use Rattle.std.specs.Prelude.{◌≡◌, ◌+◌, ◌≤◌};
ghost use Rattle.std.specs.Float.{binary64};
ghost use Rattle.model.specs.Swaps as Swaps;
ghost use Rattle.linalg.specs.View.{rotation};
ghost use Rattle.form.specs.Shaped.{Holds, Beside};
ghost use Rattle.swaps.specs.Done.{Done};
ghost use Rattle.swaps.specs.Forms.{form11};

use crate::ahead::Ahead;
use crate::operations::{on_factor, on_form};
use form::shape::Shape;
use linalg::jacobi::JacobiRotation;

// The rotation that exchanges rows j and j + 1.
#[tactic(auto, unfolding(model::specs::Swaps::rotation11))]
fn rotation_11(s: Shape, t: &[f64], j: usize, ahead: &Ahead) -> JacobiRotation
    requires { Holds s t.now × (j + 2 ≤ s.n) }
    ensures { rotation result ≡ Swaps.rotation11 binary64 s.ld t.now j }
{
    let temp = s.get(t, j, j + 1);
    let temp2 = s.get(t, j + 1, j + 1) - s.get(t, j, j);
    ahead.rotation(temp, temp2)
}

// The form after the exchange by a rotation: the diagonal numbers go over unchanged.
fn form_11(s: Shape, t: &mut [f64], j: usize, rot: JacobiRotation)
    requires { Holds s t.old × (j + 2 ≤ s.n) }
    ensures { t.new ≡ form11 s.ld s.n j (rotation rot) t.old }
{
    let t00 = s.get(t, j, j);
    let t11 = s.get(t, j + 1, j + 1);
    s.put(t, j + 1, j + 1, t00);
    s.put(t, j, j, t11);
    on_form(s, t, rot, [j, j + 1], j + 2, j);
}

// Rows j and j + 1 exchanged. What is ahead is looked at before the form is written.
#[tactic(auto, unfolding(model::specs::Swaps::swap11, model::specs::Columns::on_factor))]
pub fn schur_swap_11(s: Shape, t: &mut [f64], u: &mut [f64], j: usize, ahead: &mut Ahead)
    requires { Holds s t.old × Beside s u.old × (j + 2 ≤ s.n) }
    ensures { Done s.ld s.n u.old t.new u.new (Swaps.swap11 binary64 s.ld s.n j t.old) }
{
    let rot = rotation_11(s, t, j, ahead);
    ahead.look(s, t, j, rot);
    form_11(s, t, j, rot);
    on_factor(s, u, rot, [j, j + 1]);
}
