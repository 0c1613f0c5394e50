// A single row against a 2-block, and a 2-block against a single row.
ghost use Rattle.std.specs.Prelude.{◌≡◌, ◌+◌, ◌≤◌};
ghost use Rattle.std.specs.Float.{binary64};
ghost use Rattle.model.specs.Swaps as Swaps;
ghost use Rattle.swaps.specs.View.{reflection3, window3};
ghost use Rattle.form.specs.Shaped.{Holds, Beside};
ghost use Rattle.swaps.specs.Done.{Done};
ghost use Rattle.swaps.specs.Forms.{form3, rows3, reflectors_of, reflectors_in, swap3};

use crate::kernels::Reflectors;
use crate::operations::{on_factor, on_form};
use crate::window::Window;
use form::shape::Shape;

// Which of three rows is the single one: the first, or the last.
#[derive(Clone, Copy)]
pub enum Single {
    First,
    Last,
}

impl Single {
    // The rows from row j on in the order in which the reflections take them: the single one first.
    pub fn rows(self, j: usize) -> [usize; 3]
        requires { j ≤ 64 }
        ensures { result ≡ rows3 self j }
    {
        match self {
            Single::First => [j, j + 1, j + 2],
            Single::Last => [j + 2, j + 1, j],
        }
    }
}

// The two reflections of the window's second and third column, each less the single row's diagonal number.
fn reflectors_of(w: Window<3>) -> Reflectors<2, 1>
    ensures { reflection3 result ≡ reflectors_of (window3 w) }
{
    let [c0, c1, c2] = w.columns;
    Reflectors::of([c1[0], c1[1] - c0[0], c1[2]], [c2[0], c2[1], c2[2] - c0[0]])
}

// The reflections that exchange the window's rows. Those of a single row that is the last are made of
// the window's rows, not of its columns.
pub fn reflectors_3(single: Single, w: Window<3>) -> Reflectors<2, 1>
    ensures { reflection3 result ≡ reflectors_in single (window3 w) }
{
    match single {
        Single::First => reflectors_of(w),
        Single::Last => reflectors_of(w.transposed()),
    }
}

// The form after the exchange of three rows from row j on.
pub fn form_3(single: Single, s: Shape, t: &mut [f64], j: usize, v: Reflectors<2, 1>)
    requires { Holds s t.old × (j + 3 ≤ s.n) }
    ensures { t.new ≡ form3 single s.ld s.n j (reflection3 v) t.old }
{
    on_form(s, t, v, single.rows(j), j, j + 3);
    match single {
        Single::First => {
            s.put(t, j + 2, j, 0.0);
            s.put(t, j + 2, j + 1, 0.0);
        }
        Single::Last => {
            s.put(t, j + 1, j, 0.0);
            s.put(t, j + 2, j, 0.0);
        }
    }
}

// The single row exchanged with the other two. `try_3` of crate `tries` does the same after a test: one function
// for both would be told whether to test, and give an answer that means nothing here.
fn schur_swap_3(single: Single, s: Shape, t: &mut [f64], u: &mut [f64], j: usize)
    requires { Holds s t.old × Beside s u.old × (j + 3 ≤ s.n) }
    ensures { Done s.ld s.n u.old t.new u.new (swap3 single s.ld s.n j t.old) }
{
    let rows = single.rows(j);
    let v = reflectors_3(single, Window::of(s, t, rows));
    form_3(single, s, t, j, v);
    on_factor(s, u, v, rows);
}

// Row j exchanged with the 2-block below it.
pub fn schur_swap_12(s: Shape, t: &mut [f64], u: &mut [f64], j: usize)
    requires { Holds s t.old × Beside s u.old × (j + 3 ≤ s.n) }
    ensures { Done s.ld s.n u.old t.new u.new (Swaps.swap12 binary64 s.ld s.n j t.old) }
{
    schur_swap_3(Single::First, s, t, u, j);
}

// The 2-block in rows j and j + 1 exchanged with the row below it.
pub fn schur_swap_21(s: Shape, t: &mut [f64], u: &mut [f64], j: usize)
    requires { Holds s t.old × Beside s u.old × (j + 3 ≤ s.n) }
    ensures { Done s.ld s.n u.old t.new u.new (Swaps.swap21 binary64 s.ld s.n j t.old) }
{
    schur_swap_3(Single::Last, s, t, u, j);
}
