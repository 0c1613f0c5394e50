// Whether numbers are those of words.
ghost use Rattle.std.specs.Prelude.{◌≡◌};
ghost use Rattle.replay_text.specs.Float.{is_word, are_words};

use bits::float::is_nan;

// Whether x is the number of the bits w, a zero's sign looked at too.
#[tactic(auto, unfolding(crate::specs::Float::is_word))]
pub fn is_word(x: f64, w: u64) -> bool
    ensures { result ≡ is_word x w }
{
    if is_nan(w) {
        return x.is_nan();
    }
    !x.is_nan() && x.to_bits() == w
}

// Whether the numbers x are those of the words w, as many and each one.
pub fn are_words(x: &[f64], w: &[u64]) -> bool
    ensures { result ≡ are_words x.now w.now }
{
    x.len() == w.len() && x.iter().zip(w).all(|(x, w)| is_word(*x, *w))
}
