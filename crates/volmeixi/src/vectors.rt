// Block values and vectors. A column of the vectors is a part of the caller's own buffer, n numbers
// from place ld * col on, so there is no call for it.
ghost use Rattle.std.specs.Prelude.{◌≡◌};
ghost use Rattle.std.specs.Float.{binary64};
ghost use Rattle.model.specs.Values as Values;
ghost use Rattle.model.specs.Vectors as Vectors;

use refusal::number;

// The values of the form's blocks, each 2-block read as it stands: 0, or the first line that
// applies.
#[unsafe(no_mangle)]
pub extern "C" fn vx_block_values(
    n: usize,
    ld: usize,
    t: &[f64],
    re: &mut [f64],
    im: &mut [f64],
) -> usize
    ensures { (record { answer = result; parts = record { re = re.new; im = im.new } }) ≡ Values.block_values binary64 ld n t.now (record { re = re.old; im = im.old }) }
{
    number(&values::blocks::block_values(n, ld, t, re, im))
}

// The same of a copy of each 2-block that is standardised first: 0, or the first line that applies.
#[unsafe(no_mangle)]
pub extern "C" fn vx_standardised_values(
    n: usize,
    ld: usize,
    t: &[f64],
    re: &mut [f64],
    im: &mut [f64],
) -> usize
    ensures { (record { answer = result; parts = record { re = re.new; im = im.new } }) ≡ Values.standardised_values binary64 ld n t.now (record { re = re.old; im = im.old }) }
{
    number(&values::blocks::standardised_values(n, ld, t, re, im))
}

// The form's vectors, column by column: 0, or the first line that applies.
#[unsafe(no_mangle)]
pub extern "C" fn vx_evd_from_real_schur(n: usize, ld: usize, t: &[f64], v: &mut [f64]) -> usize
    ensures { (record { answer = result; v = v.new }) ≡ Vectors.evd_from_real_schur binary64 ld n t.now v.old }
{
    number(&evd::vectors::evd_from_real_schur(n, ld, t, v))
}
