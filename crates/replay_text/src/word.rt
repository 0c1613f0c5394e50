// Words as text: their digits, and all words of a line. What is no word ends the reading; `sheet_words` reads on, any
// byte as a digit, and leaves it to the comparing of texts to refuse.
ghost use Rattle.std.specs.Prelude.{◌≡◌, length};
ghost use Rattle.replay_text.specs.Text.{word_at, words_of};

use bits::hex::digit;

// The word of a space and 16 digits.
#[tactic(auto, unfolding(crate::specs::Text::word_at))]
fn word(place: &[u8]) -> Option<u64>
    requires { length place.now ≡ 17 }
    ensures { result ≡ word_at place.now 0 }
{
    if place[0] != b' ' {
        return None;
    }
    let mut word: u64 = 0;
    for &b in &place[1..] {
        word = word * 16 + digit(b)?;
    }
    Some(word)
}

// The words from a place of the line to its end, written to `out`. More words than `out` has room for are malformed;
// the words before what is malformed are written. By index: of an `out` that `iter_mut().zip(places)` fills, a proof
// knows only the length.
#[tactic(auto, unfolding(crate::specs::Text::words_of))]
pub fn words(s: &[u8], from: usize, out: &mut [u64]) -> Option<usize>
    ensures { (record { found = result; out = out.new }) ≡ words_of s.now from out.old }
{
    let (places, rest) = s.get(from..)?.as_chunks::<17>();
    for (n, place) in places.iter().enumerate() {
        if n == out.len() {
            return None;
        }
        out[n] = word(place)?;
    }
    rest.is_empty().then_some(places.len())
}
