// The vectors of a form: evd_from_real_schur.
ghost use Rattle.std.specs.Prelude.{◌≡◌, ◌+◌, ◌*◌, ◌<◌, ◌≤◌, length, fold, Float};
ghost use Rattle.std.specs.Float.{binary64};
ghost use Rattle.std.specs.Float.Ieee.{add};
ghost use Rattle.model.specs.Arith as Arith;
ghost use Rattle.model.specs.Values.{imag_size_at};
ghost use Rattle.model.specs.Vectors as Vectors;
ghost use Rattle.refusal.specs.Line.{answer};
ghost use Rattle.form.specs.Shaped.{Holds};
ghost use Rattle.evd.specs.View.{start};

use arith::real::{abs, abs1};
use bits::fill::fill;
use form::deep::quasi_triangular;
use form::shape::Shape;
use refusal::Refusal;
use solve::block::imag_size;
use solve::leading::Leading;
use solve::solve_cplx::solve_cplx_shifted_upper_quasi_triangular_system;
use solve::solve_real::solve_real_shifted_upper_quasi_triangular_system;
use solve::walk::{EachBlock, blocks_down};

// norm plus the magnitudes of the numbers.
fn add_magnitudes(xs: &[f64], norm: f64) -> f64
    ensures { result ≡ fold (λ (a x : Float). add binary64 a (Arith.abs1 x)) norm xs.now }
{
    xs.iter().fold(norm, |a, x| a + abs1(*x))
}

// The sum of magnitudes, column after column, each down to the subdiagonal. By index: the form's chunks of ld numbers
// are its columns, but chunks_exact wants 0 < ld, and a Shape, which need not have a row, does not say so.
#[tactic(auto, unfolding(model::specs::Vectors::form_norm, model::specs::Vectors::norm_columns))]
fn form_norm(s: Shape, t: &[f64]) -> f64
    requires { Holds s t.now }
    ensures { result ≡ Vectors.form_norm binary64 s.ld s.n t.now }
{
    let mut norm = 0.0;
    for j in 0..s.n {
        let top = s.place(0, j);
        norm = add_magnitudes(&t[top..top + s.n.min(j + 2)], norm);
    }
    norm
}

// The two diagonal numbers of a 2-block's columns.
#[derive(Clone, Copy)]
struct Start {
    upper: f64,
    lower: f64,
}

// b above and c below the diagonal, and the imaginary size q.
#[tactic(auto, unfolding(model::specs::Vectors::start_of))]
fn start_of(b: f64, c: f64, q: f64) -> Start
    ensures { start result ≡ Vectors.start_of binary64 b c q }
{
    if abs(b) >= abs(c) {
        return Start {
            upper: 1.0,
            lower: q / b,
        };
    }
    Start {
        upper: -q / c,
        lower: 1.0,
    }
}

// A 2-block's own four numbers.
#[tactic(auto, unfolding(model::specs::Vectors::start_block))]
fn start_block(s: Shape, j: usize, own: Start, v: &mut [f64])
    requires { Holds s v.old × (j + 1 < s.n) }
    ensures { v.new ≡ Vectors.start_block binary64 s.ld j (start own) v.old }
{
    s.put(&mut *v, j, j, own.upper);
    s.put(&mut *v, j + 1, j + 1, own.lower);
    s.put(&mut *v, j, j + 1, 0.0);
    s.put(v, j + 1, j, 0.0);
}

// The form whose vectors are made, and its sum of magnitudes.
#[derive(Clone, Copy)]
struct Columns<'a> {
    s: Shape,
    t: &'a [f64],
    norm: f64,
    ghost holds: { Holds s t.now },
}

impl Columns<'_> {
    // The matrix of the first rows and columns.
    fn leading(&self, rows: usize) -> Leading
        requires { rows ≤ self.now.s.n }
        ensures { (result.ld ≡ self.now.s.ld) × (result.n ≡ rows) × (result.a.now ≡ self.now.t.now) }
    {
        Leading {
            ld: self.s.ld,
            n: rows,
            a: self.t,
        }
    }

    // A 2-block's columns j and j + 1, before the rows above it are solved for; its imaginary size.
    fn open_columns(&self, j: usize, v: &mut [f64]) -> f64
        requires { Holds self.now.s v.old × (j + 1 < self.now.s.n) }
        ensures { (result ≡ imag_size_at binary64 self.now.s.ld self.now.t.now j) × (v.new ≡ Vectors.open_columns binary64 self.now.s.ld self.now.t.now j v.old) }
    {
        let s = self.s;
        let b = s.get(self.t, j, j + 1);
        let c = s.get(self.t, j + 1, j);
        let q = imag_size(c, b);
        let own = start_of(b, c, q);
        start_block(s, j, own, &mut *v);
        // above the block, the form's two columns times the negated diagonal numbers
        let left = s.place(0, j);
        let right = s.place(0, j + 1);
        fill(
            &mut v[left..left + j],
            &self.t[left..left + j],
            |x| -own.upper * x,
        );
        fill(
            &mut v[right..right + j],
            &self.t[right..right + j],
            |x| -own.lower * x,
        );
        q
    }
}

impl EachBlock for Columns<'_> {
    ghost rows = { λ m. m.s.n };

    ghost fits = { λ m len. len ≡ m.s.ld * m.s.n };

    ghost one = { λ m. Vectors.real_column binary64 m.s.ld m.t.now m.norm };

    ghost two = { λ m. Vectors.cplx_columns binary64 m.s.ld m.t.now m.norm };

    // A 1-block's column k: 1 in row k, and above it the solution.
    fn one(&self, k: usize, v: &mut [f64]) {
        let s = self.s;
        let p = s.get(self.t, k, k);
        s.put(&mut *v, k, k, 1.0);
        let top = s.place(0, k);
        let x = &mut v[top..top + k];
        fill(&mut *x, &self.t[top..top + k], |x| -x);
        solve_real_shifted_upper_quasi_triangular_system(self.leading(k), p, self.norm, x);
    }

    // A 2-block's columns j and j + 1: the real and the imaginary part.
    #[tactic(auto, using(crate::proofs::Places::side_by_side))]
    fn two(&self, j: usize, v: &mut [f64]) {
        let s = self.s;
        let q = self.open_columns(j, &mut *v);
        let p = s.get(self.t, j + 1, j + 1);
        let top = s.place(0, j);
        let x = &mut v[top..top + (s.ld + j)];
        solve_cplx_shifted_upper_quasi_triangular_system(self.leading(j), p, q, self.norm, x);
    }
}

// The vectors of the form t, or the first line that applies.
#[tactic(auto, using(crate::proofs::Lines::vectors_first), unfolding(model::specs::Vectors::evd_from_real_schur, model::specs::Vectors::vectors_of))]
pub fn evd_from_real_schur(n: usize, ld: usize, t: &[f64], v: &mut [f64]) -> Result<(), Refusal>
    ensures { (record { answer = answer result; v = v.new }) ≡ Vectors.evd_from_real_schur binary64 ld n t.now v.old }
{
    let s = Shape::new(n, ld, t)?;
    if v.len() != s.ld * s.n {
        return Err(Refusal::BufferLength);
    }
    quasi_triangular(s, t)?;
    let columns = Columns {
        s,
        t,
        norm: form_norm(s, t),
    };
    blocks_down(columns.leading(n), &columns, v);
    Ok(())
}
