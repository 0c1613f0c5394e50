// Printing, line by line, at the start of a buffer. What stands after what is printed stays. Not by
// `Display`: the library's contracts say what a `fmt` writes where it succeeds, and not that it does.
ghost use Rattle.std.specs.Prelude.{ℕ, List, ◌≡◌, ◌+◌, ◌*◌, ◌<◌, ◌≤◌, length};
ghost use Rattle.model.specs.Text as Text;
ghost use Rattle.sheet_words.specs.Put.{Put};
ghost use Rattle.sheet_words.specs.Page.{Puts};
ghost use Rattle.sheet_words.specs.View.{request};

use crate::request::Request;

// The byte of a hexadecimal digit.
fn glyph(d: u64) -> u8
    requires { d < 16 }
    ensures { result ≡ Text.glyph d }
{
    if d < 10 {
        return b'0' + d as u8;
    }
    b'a' + (d - 10) as u8
}

// What is printed: the first `at` bytes of `out`.
#[derive(Drop)]
struct Page<'a> {
    out: &'a mut [u8],
    at: usize,
}

impl Page<'_> {
    // Bytes as they are.
    fn put(&mut self, text: &[u8])
        requires { self.old.at + length text.now ≤ length self.old.out.now }
        ensures { Puts self.old text.now self.new }
    {
        let end = self.at + text.len();
        let out = &mut *self.out;
        out[self.at..end].copy_from_slice(text);
        self.at = end;
    }

    // A word. Its digits are found from the last on, and put by index: of an array that `iter_mut().rev()` fills a
    // proof knows only the length.
    fn word(&mut self, w: u64)
        requires { self.old.at + 16 ≤ length self.old.out.now }
        ensures { (self.new.at ≡ self.old.at + 16) × Puts self.old (Text.word w) self.new }
    {
        let mut digits = [0; 16];
        let mut left = w;
        for i in (0..16).rev() {
            digits[i] = glyph(left % 16);
            left /= 16;
        }
        self.put(&digits);
    }

    // Words, with a space before each.
    #[tactic(auto, unfolding(model::specs::Text::spaced))]
    fn spaced(&mut self, words: &[u64])
        requires { self.old.at + 17 * length words.now ≤ length self.old.out.now }
        ensures { (self.new.at ≡ self.old.at + 17 * length words.now) × Puts self.old (Text.spaced words.now) self.new }
    {
        for &word in words {
            self.put(b" ");
            self.word(word);
        }
    }

    // A line: its name, and what it says.
    fn line<T: Says>(&mut self, name: &[u8], value: T)
        requires { (length name.now ≤ 9) × (self.old.at + 10 + T.room value ≤ length self.old.out.now) }
        ensures { (self.new.at ≤ self.old.at + 10 + T.room value) × Puts self.old (Text.line name.now (T.text value)) self.new }
    {
        self.put(name);
        value.print(self);
        self.put(b"\n");
    }
}

// What a line may say.
trait Says {
    ghost text: { Self → List ℕ };

    // So many bytes are enough for it.
    ghost room: { Self → ℕ };

    fn print(self, page: &mut Page)
        requires { page.old.at + room self ≤ length page.old.out.now }
        ensures { (page.new.at ≤ page.old.at + room self) × Puts page.old (text self) page.new };
}

// A number, in decimal.
impl Says for usize {
    ghost text = { Text.decimal };

    ghost room = { λ n. 20 };

    fn print(self, page: &mut Page) {
        page.put(itoa::Buffer::new().format(self).as_bytes());
    }
}

// Words, with a space between.
impl Says for &[u64] {
    ghost text = { λ w. Text.words w.now };

    ghost room = { λ w. 17 * length w.now };

    fn print(self, page: &mut Page) {
        if let [first, others @ ..] = self {
            page.word(*first);
            page.spaced(others);
        }
    }
}

// The `answer=` line, alone. A number is what stands there: for a sheet, a `Refusal` becomes one in
// `sheet_text::sheet::sheet`, and this crate knows none. Answers how many bytes the line has, as the next two do.
pub fn put_answer(out: &mut [u8], answer: usize) -> usize
    requires { 30 ≤ length out.old }
    ensures { (result ≤ length out.new) × Put out.old 0 (Text.answer_line answer) out.new result }
{
    let mut page = Page { out, at: 0 };
    page.line(b"answer=", answer);
    page.at
}

// The text of a request.
pub fn put_request(out: &mut [u8], r: &Request) -> usize
    requires { 110 + 17 * length r.now.form.now + 17 * length r.now.factor.now ≤ length out.old }
    ensures { (result ≤ length out.new) × Put out.old 0 (Text.text_of (request r.now)) out.new result }
{
    let mut page = Page { out, at: 0 };
    page.line(b"n=", r.n);
    page.line(b"from=", r.from);
    page.line(b"to=", r.to);
    page.line(b"t=", r.form);
    page.line(b"u=", r.factor);
    page.at
}

// What an accepted move prints: its counts, and the words of the form and of the factor.
pub fn put_accepted(
    out: &mut [u8],
    landed: usize,
    swaps: usize,
    declined: usize,
    t: &[u64],
    u: &[u64],
) -> usize
    requires { 140 + 17 * length t.now + 17 * length u.now ≤ length out.old }
    ensures { (result ≤ length out.new) × Put out.old 0 (Text.accepted landed swaps declined t.now u.now) out.new result }
{
    let mut page = Page { out, at: 0 };
    page.line(b"answer=", 0);
    page.line(b"landed=", landed);
    page.line(b"swaps=", swaps);
    page.line(b"declined=", declined);
    page.line(b"t=", t);
    page.line(b"u=", u);
    page.at
}
