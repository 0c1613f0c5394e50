// Words as numbers and back: an f64 by its bits, every NaN as one.
ghost use Rattle.std.specs.Prelude.{◌≡◌, ◌++◌, ◌≤◌, length, drop};
ghost use Rattle.model.specs.Text as Text;

use bits::fill::fill;
use bits::float::floats_of;

// The bits of a number, and of a NaN always the same.
#[tactic(auto, unfolding(model::specs::Text::word_of))]
fn word_of(x: f64) -> u64
    ensures { result ≡ Text.word_of x }
{
    if x.is_nan() {
        return 0x7ff8_0000_0000_0000;
    }
    x.to_bits()
}

// The numbers of all words, at the start of `out`. The rest of it stays.
pub fn numbers_of(out: &mut [f64], w: &[u64])
    requires { length w.now ≤ length out.old }
    ensures { out.new ≡ Text.numbers w.now ++ drop (length w.now) out.old }
{
    floats_of(w, &mut out[..w.len()]);
}

// The words of all numbers, at the start of `out`. The rest of it stays.
pub fn words_of(out: &mut [u64], x: &[f64])
    requires { length x.now ≤ length out.old }
    ensures { out.new ≡ Text.words_of x.now ++ drop (length x.now) out.old }
{
    fill(&mut out[..x.len()], x, word_of);
}
