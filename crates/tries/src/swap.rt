// A single row against a 2-block, and a 2-block against a single row, tried on the window first.
ghost use Rattle.std.specs.Prelude.{◌≡◌, ◌+◌, ◌≤◌};
ghost use Rattle.form.specs.Shaped.{Holds, Beside};
ghost use Rattle.swaps.specs.Done.{Done};
ghost use Rattle.swaps.specs.View.{window3};
ghost use Rattle.tries.specs.Tests.{left3, fails3, tried3};

use arith::real::{abs, fmax};
use form::shape::Shape;
use swaps::operations::on_factor;
use swaps::swap_12::{Single, form_3, reflectors_3};
use swaps::window::Window;

// The largest magnitude that the test looks at. With w for the window and x for what it is when tried: the two
// numbers of x that an exchange makes zero, and how far the single row's diagonal number, the first of w and the
// last of x, has changed.
#[tactic(auto, unfolding(model::specs::Stopping::left12, model::specs::Stopping::left21))]
fn left_3(single: Single, w: Window<3>, x: Window<3>) -> f64
    ensures { result ≡ left3 single (window3 w) (window3 x) }
{
    let [c0, c1, c2] = x.columns;
    let (a, b) = match single {
        Single::First => (c0[2], c1[2]),
        Single::Last => (c2[1], c2[0]),
    };
    fmax(fmax(abs(a), abs(b)), abs(c2[2] - w.columns[0][0]))
}

// The single row of the three from row j on exchanged with the other two: true where the test fails, which
// touches neither form nor factor, so a bool says all.
pub fn try_3(single: Single, s: Shape, t: &mut [f64], u: &mut [f64], j: usize) -> bool
    requires { Holds s t.old × Beside s u.old × (j + 3 ≤ s.n) }
    ensures { Done s.ld s.n u.old t.new u.new (tried3 single s.ld s.n j t.old) × (result ≡ fails3 single s.ld t.old j) }
{
    let rows = single.rows(j);
    let w = Window::of(s, t, rows);
    let v = reflectors_3(single, w);
    if left_3(single, w, w.tried(v)) > w.threshold() {
        return true;
    }
    form_3(single, s, t, j, v);
    on_factor(s, u, v, rows);
    false
}
