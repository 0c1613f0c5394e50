// Operations on rows and columns of a form, and on columns of a factor.
ghost use Rattle.std.specs.Prelude.{◌≡◌, ℕ, ◌-◌, ◌≤◌, length, get_or};
ghost use Rattle.std.specs.Float.{binary64};
ghost use Rattle.model.specs.Columns as Columns;
ghost use Rattle.model.specs.Exchange.{factor_rows};
ghost use Rattle.form.specs.Shaped.{Holds, Beside};
ghost use Rattle.swaps.specs.Lines.{Inside, change_at};

use crate::kernels::Kernel;
use form::shape::Shape;

// The numbers at N places changed, which stand side by side or not. Arrays are filled by index, here and below, for the
// reason that stands at `Window`.
fn change<const N: usize, K: Kernel<N>, const BESIDE: bool>(t: &mut [f64], k: K, places: [usize; N])
    requires { Inside N places (length t.old) }
    ensures { t.new ≡ change_at N (K.gives k) (λ (m : ℕ). get_or places.entry m 0) t.old }
{
    let mut x = [0.0; N];
    for (m, place) in places.iter().enumerate() {
        x[m] = t[*place];
    }
    let y = if BESIDE {
        k.apply_beside(x)
    } else {
        k.apply(x)
    };
    for (m, place) in places.iter().enumerate() {
        t[*place] = y[m];
    }
}

// The operation on rows from column j on. Rows and columns have a loop each: a common one would be told
// where each line begins and how far apart its numbers are, which both would fill in first, and would hide from
// the compiler that a column's numbers lie side by side, of which it changes several at once.
#[tactic(auto, unfolding(crate::specs::Lines::change_run))]
fn on_rows<const N: usize, K: Kernel<N>>(s: Shape, t: &mut [f64], k: K, rows: [usize; N], j: usize)
    requires { Holds s t.old × Inside N rows s.n × (j ≤ s.n) }
    ensures { t.new ≡ Columns.on_rows binary64 s.ld j (s.n - j) (K.operation k rows.entry) t.old }
{
    for c in j..s.n {
        let mut places = rows;
        for (m, row) in rows.iter().enumerate() {
            places[m] = s.place(*row, c);
        }
        change::<N, K, true>(t, k, places);
    }
}

// The operation on columns in the first `count` rows.
#[tactic(auto, unfolding(crate::specs::Lines::change_run))]
fn on_columns<const N: usize, K: Kernel<N>>(
    s: Shape,
    t: &mut [f64],
    k: K,
    columns: [usize; N],
    count: usize,
)
    requires { Holds s t.old × Inside N columns s.n × (count ≤ s.n) }
    ensures { t.new ≡ Columns.on_columns binary64 s.ld count (K.operation k columns.entry) t.old }
{
    for i in 0..count {
        let mut places = columns;
        for (m, column) in columns.iter().enumerate() {
            places[m] = s.place(i, *column);
        }
        change::<N, K, false>(t, k, places);
    }
}

// The operation on rows from column j on, and then on columns in the rows above row i.
#[tactic(auto, unfolding(model::specs::Columns::on_form))]
pub fn on_form<const N: usize, K: Kernel<N>>(
    s: Shape,
    t: &mut [f64],
    k: K,
    lines: [usize; N],
    j: usize,
    i: usize,
)
    requires { Holds s t.old × Inside N lines s.n × (j ≤ s.n) × (i ≤ s.n) }
    ensures { t.new ≡ Columns.on_form binary64 s.ld s.n j i (K.operation k lines.entry) t.old }
{
    on_rows(s, t, k, lines, j);
    on_columns(s, t, k, lines, i);
}

// The operation on the factor's columns. At the stride n the compiler sees that one column ends where the
// next begins, and does not look whether they overlap.
#[tactic(auto, unfolding(model::specs::Exchange::factor_rows, crate::specs::Lines::change_run))]
pub fn on_factor<const N: usize, K: Kernel<N>>(s: Shape, u: &mut [f64], k: K, lines: [usize; N])
    requires { Beside s u.old × Inside N lines s.n }
    ensures { u.new ≡ Columns.on_columns binary64 s.ld (factor_rows s.n u.old) (K.operation k lines.entry) u.old }
{
    if u.len() == 0 {
        return;
    }
    if s.ld == s.n {
        let whole = Shape { n: s.n, ld: s.n };
        on_columns(whole, u, k, lines, s.n);
        return;
    }
    on_columns(s, u, k, lines, s.n);
}
