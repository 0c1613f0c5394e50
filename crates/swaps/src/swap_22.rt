// A 2-block against a 2-block, tried on a copy of the window first.
ghost use Rattle.std.specs.Prelude.{◌≡◌, cond, ◌+◌, ◌≤◌};
ghost use Rattle.std.specs.Float.{binary64};
ghost use Rattle.model.specs.Swaps as Swaps;
ghost use Rattle.sylvester.specs.View.{sylvester};
ghost use Rattle.swaps.specs.View.{reflection4, window4};
ghost use Rattle.form.specs.Shaped.{Holds, Beside};
ghost use Rattle.swaps.specs.Done.{Done};
ghost use Rattle.swaps.specs.Forms.{form22, rows4};

use crate::kernels::Reflectors;
use crate::operations::{on_factor, on_form};
use crate::window::Window;
use arith::real::{abs, fmax};
use form::shape::Shape;
use sylvester::lasy2::{Solution, lasy2};

// The largest magnitude of the four lower-left numbers.
#[tactic(auto, unfolding(model::specs::Swaps::lower_left))]
fn lower_left(w: Window<4>) -> f64
    ensures { result ≡ Swaps.lower_left (window4 w) }
{
    let [c0, c1, _, _] = w.columns;
    fmax(fmax(fmax(abs(c0[2]), abs(c1[2])), abs(c0[3])), abs(c1[3]))
}

// The solution of the window's Sylvester equation.
#[tactic(auto, unfolding(model::specs::Swaps::solution_of))]
fn solution_of(w: Window<4>) -> Solution
    ensures { sylvester result ≡ Swaps.solution_of binary64 (window4 w) }
{
    let [c0, c1, c2, c3] = w.columns;
    let tl = [[c0[0], c1[0]], [c0[1], c1[1]]];
    let tr = [[c2[2], c3[2]], [c2[3], c3[3]]];
    let b = [[c2[0], c3[0]], [c2[1], c3[1]]];
    lasy2(tl, tr, b)
}

// The two reflections of the columns (x00, x10, -scale, 0) and (x01, x11, 0, -scale).
fn reflectors_4(solution: Solution) -> Reflectors<3, 2>
    ensures { reflection4 result ≡ Swaps.reflectors4 binary64 (sylvester solution) }
{
    let x = solution.x;
    let below = -solution.scale;
    Reflectors::of([x[0], x[1], below, 0.0], [x[2], x[3], 0.0, below])
}

// Whether the tried window's lower-left numbers are too large.
fn declines(v: Reflectors<3, 2>, w: Window<4>) -> bool
    ensures { result ≡ Swaps.declines binary64 (reflection4 v) (window4 w) }
{
    lower_left(w.tried(v)) > w.threshold()
}

// The four rows from row j on.
fn rows_4(j: usize) -> [usize; 4]
    requires { j ≤ 64 }
    ensures { result ≡ rows4 j }
{
    [j, j + 1, j + 2, j + 3]
}

// The form after the exchange of rows j and j + 1 with the two below them.
fn form_22(s: Shape, t: &mut [f64], j: usize, v: Reflectors<3, 2>)
    requires { Holds s t.old × (j + 4 ≤ s.n) }
    ensures { t.new ≡ form22 s.ld s.n j (reflection4 v) t.old }
{
    on_form(s, t, v, rows_4(j), j, j + 4);
    s.put(t, j + 2, j, 0.0);
    s.put(t, j + 2, j + 1, 0.0);
    s.put(t, j + 3, j, 0.0);
    s.put(t, j + 3, j + 1, 0.0);
}

// The 2-block in rows j and j + 1 exchanged with the one below it: true for a decline, which touches neither
// form nor factor. A bool, since there is nothing else to say of a decline. With `try_3` of crate `tries` it
// has only the order of its steps in common: reflections, test and corners are others.
pub fn schur_swap_22(s: Shape, t: &mut [f64], u: &mut [f64], j: usize) -> bool
    requires { Holds s t.old × Beside s u.old × (j + 4 ≤ s.n) }
    ensures { Done s.ld s.n u.old t.new u.new (Swaps.swap22 binary64 s.ld s.n j t.old) × (Swaps.declined_of (Swaps.swap22 binary64 s.ld s.n j t.old) ≡ cond result 1 0) }
{
    let rows = rows_4(j);
    let w = Window::of(s, t, rows);
    let v = reflectors_4(solution_of(w));
    if declines(v, w) {
        return true;
    }
    form_22(s, t, j, v);
    on_factor(s, u, v, rows);
    false
}
