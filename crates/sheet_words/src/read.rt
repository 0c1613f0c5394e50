// Reading: numbers and words from places of a text, whatever stands there. `sheet` prints what was
// read and compares, so that nothing here has to refuse. A place is a number beside the text, and no
// part of it cut off: it may lie past the text's end.
ghost use Rattle.std.specs.Prelude.{◌≡◌, ◌≤◌, ◌<◌, ◌+◌, length};
ghost use Rattle.model.specs.Text as Text;
ghost use Rattle.sheet_words.specs.Put.{Put};

use bits::hex::digit;

// The number of at most four digits at a place, and the place after them. Past the text's end stands no digit.
pub fn number(s: &[u8], at: usize) -> (usize, usize)
    requires { at ≤ 100000 }
    ensures { ((record { value = result.0; next = result.1 }) ≡ Text.number_at s.now 4 0 at) × (result.0 < 10000) × (result.1 ≤ at + 4) }
{
    let mut value = 0;
    for next in at..at + 4 {
        let b = s.get(next).copied().unwrap_or(0);
        if !b.is_ascii_digit() {
            return (value, next);
        }
        value = value * 10 + (b - b'0') as usize;
    }
    (value, at + 4)
}

// The word of the 16 digits from a place on. Any other byte counts as a 0; in `replay_text::word` it is no word.
fn word(s: &[u8], at: usize) -> u64
    requires { at + 16 ≤ length s.now }
    ensures { result ≡ Text.digits_from s.now 16 at 0 }
{
    let mut word = 0;
    for &b in &s[at..at + 16] {
        word = word * 16 + digit(b).unwrap_or(0);
    }
    word
}

// Whether a word follows the byte at a place.
#[tactic(auto, unfolding(model::specs::Text::more_at))]
fn more(s: &[u8], p: usize) -> bool
    requires { p ≤ 1000000 }
    ensures { result ≡ Text.more_at s.now p }
{
    s.len() >= p + 17 && s[p] != b'\n' && s[p + 1] != b'\n'
}

// The words from a place on, each after one byte; as many as there are, or as `out` has room for. The rest
// of `out` stays.
pub fn words(out: &mut [u64], s: &[u8], at: usize) -> usize
    requires { (at ≤ 200000) × (length out.old ≤ 10000) }
    ensures { (result ≤ length out.new) × Put out.old 0 (Text.words_at s.now (length out.old) at) out.new result }
{
    for (n, place) in out.iter_mut().enumerate() {
        let p = at + 17 * n;
        if !more(s, p) {
            return n;
        }
        *place = word(s, p + 1);
    }
    out.len()
}
