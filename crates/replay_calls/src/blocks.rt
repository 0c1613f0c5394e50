// As `calls`, for standardising a 2-block and the small Sylvester solve.
ghost use Rattle.std.specs.Prelude.{◌≡◌};
ghost use Rattle.replay_calls.specs.Lines as Lines;

use bits::float::float_of;
use replay_text::float::is_word;
use replay_text::outcome::{Outcome, judge};
use schur22::lahqr_schur22::Values;

// The rows of four words, column after column.
fn square(a: u64, c: u64, b: u64, d: u64) -> [[f64; 2]; 2]
    ensures { result ≡ Lines.square a c b d }
{
    [[float_of(a), float_of(b)], [float_of(c), float_of(d)]]
}

// a b c d; a b c d re1 im1 re2 im2 cs sn. Word by word, as `lasy2`: a pattern of all words turns away a line of another
// length, which `are_words` on the words after the `;` would take for one that differs.
#[tactic(auto, unfolding(crate::specs::Lines::is_block, crate::specs::Lines::is_values))]
pub fn lahqr_schur22(w: &[u64]) -> Outcome
    ensures { result ≡ Lines.lahqr_schur22 w.now }
{
    let &[p, q, r, s, a, b, c, d, re1, im1, re2, im2, cs, sn] = w else {
        return Outcome::Malformed;
    };
    let s = schur22::lahqr_schur22::lahqr_schur22(
        float_of(p),
        float_of(q),
        float_of(r),
        float_of(s),
    );
    let x = s.block;
    let v = Values::from(s.eigenvalues);
    judge(
        is_word(x.a, a)
            && is_word(x.b, b)
            && is_word(x.c, c)
            && is_word(x.d, d)
            && is_word(x.cs, cs)
            && is_word(x.sn, sn)
            && is_word(v.re1, re1)
            && is_word(v.im1, im1)
            && is_word(v.re2, re2)
            && is_word(v.im2, im2),
    )
}

// tl tr b, 4 words each; x00 x10 x01 x11 scale.
pub fn lasy2(w: &[u64]) -> Outcome
    ensures { result ≡ Lines.lasy2 w.now }
{
    let &[
        a,
        b,
        c,
        d,
        e,
        f,
        g,
        h,
        i,
        j,
        k,
        l,
        x00,
        x10,
        x01,
        x11,
        scale,
    ] = w
    else {
        return Outcome::Malformed;
    };
    let s = sylvester::lasy2::lasy2(square(a, b, c, d), square(e, f, g, h), square(i, j, k, l));
    judge(
        is_word(s.x[0], x00)
            && is_word(s.x[1], x10)
            && is_word(s.x[2], x01)
            && is_word(s.x[3], x11)
            && is_word(s.scale, scale),
    )
}
