// Standardising a 2-block and the small Sylvester solve.
ghost use Rattle.std.specs.Prelude.{◌≡◌};
ghost use Rattle.std.specs.Float.{binary64};
ghost use Rattle.model.specs.Schur22 as Schur22;
ghost use Rattle.model.specs.Lasy2 as Lasy2;
ghost use Rattle.volmeixi.specs.Blocks.{standard, two_by_two, solved};

use schur22::lahqr_schur22::{Values, lahqr_schur22};
use sylvester::lasy2::lasy2;

// a, b, c, d, the real and the imaginary part of each value, cs and sn of the block of rows
// (a, b) and (c, d), standardised.
#[unsafe(no_mangle)]
pub extern "C" fn vx_lahqr_schur22(
    a: f64,
    b: f64,
    c: f64,
    d: f64,
    new_a: &mut f64,
    new_b: &mut f64,
    new_c: &mut f64,
    new_d: &mut f64,
    re1: &mut f64,
    im1: &mut f64,
    re2: &mut f64,
    im2: &mut f64,
    cs: &mut f64,
    sn: &mut f64,
) -> usize
    ensures { (record { block = record { a = new_a.new; b = new_b.new; c = new_c.new; d = new_d.new; cs = cs.new; sn = sn.new }; values = record { answer = result; re1 = re1.new; im1 = im1.new; re2 = re2.new; im2 = im2.new } }) ≡ standard binary64 (Schur22.lahqr_schur22 binary64 a b c d) }
{
    let s = lahqr_schur22(a, b, c, d);
    let k = s.block;
    let v = Values::from(s.eigenvalues);
    *new_a = k.a;
    *new_b = k.b;
    *new_c = k.c;
    *new_d = k.d;
    *re1 = v.re1;
    *im1 = v.im1;
    *re2 = v.re2;
    *im2 = v.im2;
    *cs = k.cs;
    *sn = k.sn;
    0
}

// The rows of a matrix that is lent column after column.
fn two_by_two(s: &[f64; 4]) -> [[f64; 2]; 2]
    ensures { result ≡ two_by_two s.now }
{
    let r0 = [s[0], s[2]];
    let r1 = [s[1], s[3]];
    [r0, r1]
}

// x, column after column, and scale, with tl * x - x * tr = scale * b.
#[unsafe(no_mangle)]
pub extern "C" fn vx_lasy2(
    tl: &[f64; 4],
    tr: &[f64; 4],
    b: &[f64; 4],
    x: &mut [f64; 4],
    scale: &mut f64,
)
    ensures { (record { x = x.new; scale = scale.new }) ≡ solved (Lasy2.lasy2 binary64 (two_by_two tl.now) (two_by_two tr.now) (two_by_two b.now)) }
{
    let s = lasy2(two_by_two(tl), two_by_two(tr), two_by_two(b));
    let four = s.x;
    *x = four;
    *scale = s.scale;
}
