// The values of a form's blocks, by one walk for both readings of a 2-block.
// The real and the imaginary parts stay two buffers, as C lends them; no struct holds them with their lengths,
// as a ghost field does not speak of what a &mut points at.
ghost use Rattle.std.specs.Prelude.{◌≡◌, ◌+◌, ◌-◌, ◌<◌, ◌≤◌, length};
ghost use Rattle.std.specs.Float.{binary64};
ghost use Rattle.model.specs.Values as Spec;
ghost use Rattle.refusal.specs.Line.{answer};
ghost use Rattle.form.specs.Shaped.{Holds};

use crate::reading::{AsItStands, Reading, StandardisedFirst};
use form::deep::quasi_triangular;
use form::shape::Shape;
use refusal::Refusal;
use schur22::lahqr_schur22::Values;

// A 1-block in row j: its diagonal number and +0.
#[tactic(auto, unfolding(model::specs::Values::one_value))]
fn one_value(s: Shape, t: &[f64], j: usize, re: &mut [f64], im: &mut [f64])
    requires { Holds s t.now × (length re.old ≡ s.n) × (length im.old ≡ s.n) × (j < s.n) }
    ensures { (record { re = re.new; im = im.new }) ≡ Spec.one_value binary64 s.ld t.now j (record { re = re.old; im = im.old }) }
{
    re[j] = s.get(t, j, j);
    im[j] = 0.0;
}

// A 2-block in rows j and j + 1: the values of its pair.
#[tactic(auto, unfolding(model::specs::Values::two_values))]
fn two_values<R: Reading>(s: Shape, t: &[f64], j: usize, re: &mut [f64], im: &mut [f64])
    requires { Holds s t.now × (length re.old ≡ s.n) × (length im.old ≡ s.n) × (j + 1 < s.n) }
    ensures { (record { re = re.new; im = im.new }) ≡ Spec.two_values binary64 R.read s.ld t.now j (record { re = re.old; im = im.old }) }
{
    let a = s.get(t, j, j);
    let b = s.get(t, j, j + 1);
    let c = s.get(t, j + 1, j);
    let d = s.get(t, j + 1, j + 1);
    let v = Values::from(R::pair(a, b, c, d));
    re[j + 1] = v.re2;
    im[j + 1] = v.im2;
    re[j] = v.re1;
    im[j] = v.im1;
}

// The values of an accepted form, from the first block on. No `for`: a step is a block's size, and is read on the
// way. Not by the walk of `solve`, which goes up from the last block and changes one list: C lends two here.
#[tactic(auto, using(crate::proofs::Ups::next_one, crate::proofs::Ups::next_two, form::proofs::Above::inside_block), unfolding(model::specs::Values::values_from))]
fn all_values<R: Reading>(s: Shape, t: &[f64], re: &mut [f64], im: &mut [f64])
    requires { Holds s t.now × (length re.old ≡ s.n) × (length im.old ≡ s.n) }
    ensures { (record { re = re.new; im = im.new }) ≡ Spec.values_from binary64 R.read s.ld t.now s.n 0 (record { re = re.old; im = im.old }) }
{
    let mut j = 0;
    while j < s.n {
        if s.two_block(t, j) {
            two_values::<R>(s, t, j, &mut *re, &mut *im);
            j += 2;
        } else {
            one_value(s, t, j, &mut *re, &mut *im);
            j += 1;
        }
    }
}

// The values by a reading, or the first line that applies.
#[tactic(auto, using(crate::proofs::Lines::values_first), unfolding(model::specs::Values::values_read))]
pub fn values_read<R: Reading>(
    n: usize,
    ld: usize,
    t: &[f64],
    re: &mut [f64],
    im: &mut [f64],
) -> Result<(), Refusal>
    ensures { (record { answer = answer result; parts = record { re = re.new; im = im.new } }) ≡ Spec.values_read binary64 R.read ld n t.now (record { re = re.old; im = im.old }) }
{
    let s = Shape::new(n, ld, t)?;
    if re.len() != s.n || im.len() != s.n {
        return Err(Refusal::BufferLength);
    }
    quasi_triangular(s, t)?;
    all_values::<R>(s, t, re, im);
    Ok(())
}

// The real and the imaginary parts of the form's values, its 2-blocks read as they stand, or the first
// line that applies.
pub fn block_values(
    n: usize,
    ld: usize,
    t: &[f64],
    re: &mut [f64],
    im: &mut [f64],
) -> Result<(), Refusal>
    ensures { (record { answer = answer result; parts = record { re = re.new; im = im.new } }) ≡ Spec.block_values binary64 ld n t.now (record { re = re.old; im = im.old }) }
{
    values_read::<AsItStands>(n, ld, t, re, im)
}

// The same of a copy of each 2-block that is standardised first; the form is not written.
pub fn standardised_values(
    n: usize,
    ld: usize,
    t: &[f64],
    re: &mut [f64],
    im: &mut [f64],
) -> Result<(), Refusal>
    ensures { (record { answer = answer result; parts = record { re = re.new; im = im.new } }) ≡ Spec.standardised_values binary64 ld n t.now (record { re = re.old; im = im.old }) }
{
    values_read::<StandardisedFirst>(n, ld, t, re, im)
}
