// A sheet whole. The text is read leniently, what was read is printed as a text again, and only
// where that is the text that came is the text laid out as document 01 asks. That `out` has room for a
// sheet is asked by each function: a struct that holds a `&mut` can have no ghost field that says it.
ghost use Rattle.std.specs.Prelude.{◌≡◌, ◌≤◌, ◌<◌, ◌+◌, ◌*◌, ◌↔◌, true, length, replicate, IfOk, IfErr, IsSome, unwrap_or};
ghost use Rattle.model.specs.Text as Text;
ghost use Rattle.refusal.specs.Line.{line};
ghost use Rattle.sheet_words.specs.Put.{Put};
ghost use Rattle.sheet_words.specs.View.{request};
ghost use Rattle.sheet_text.specs.Asked.{asked};

use refusal::Refusal;
use schur::reorder::reorder_schur;
use sheet_words::float::{numbers_of, words_of};
use sheet_words::print::{put_accepted, put_answer, put_request};
use sheet_words::read::{number, words};
use sheet_words::request::Request;

// The bytes that a text has at most.
pub const TEXT_BYTES: usize = 40000;

// So many words of a form or a factor are read: 40,000 bytes hold at most 2352 words of 17 bytes. They are kept in
// arrays of this size, since nothing here allocates.
const WORD_ROOM: usize = 2353;

// Bytes that any sheet fits: 140 and 17 for each of 2 × 2353 words.
pub const SHEET_ROOM: usize = 81000;

// Where the `=` of the line `u=` stands: q is the place of the `=` in the line `t=` above it, which has k words.
// A word takes 17 bytes, the `=` or the space before it and 16 digits. With no word the `=` alone takes one.
#[tactic(auto, unfolding(model::specs::Text::factor_place))]
fn factor_place(q: usize, k: usize) -> usize
    requires { (q ≤ 1000) × (k ≤ 10000) }
    ensures { (result ≡ Text.factor_place q k) × (result ≤ 200000) }
{
    let after = if k == 0 { 3 } else { 2 };
    q + 17 * k + after
}

// What a text is taken to say. Its words are read into `t` and `u`.
fn read_request<'a>(
    t: &'a mut [u64; WORD_ROOM],
    u: &'a mut [u64; WORD_ROOM],
    s: &[u8],
) -> Request<'a>
    ensures { request result ≡ Text.request_of s.now }
{
    let (n, at) = number(s, 2);
    let (from, at) = number(s, at + 6);
    let (to, at) = number(s, at + 4);
    let form = words(t, s, at + 2);
    let factor = words(u, s, factor_place(at + 2, form));
    Request {
        n,
        from,
        to,
        form: &t[..form],
        factor: &u[..factor],
    }
}

// Whether the text is that of the request, which is printed in `out` to compare.
fn is_text_of(out: &mut [u8], s: &[u8], r: &Request) -> bool
    requires { 110 + 17 * length r.now.form.now + 17 * length r.now.factor.now ≤ length out.old }
    ensures { result ≡ Text.same s.now (Text.text_of (request r.now)) }
{
    let k = put_request(out, r);
    s == &out[..k]
}

// The request whose text this is, or why there is none of at most 32 rows. `out` may hold anything after it.
fn request_in<'a>(
    out: &mut [u8],
    t: &'a mut [u64; WORD_ROOM],
    u: &'a mut [u64; WORD_ROOM],
    s: &[u8],
) -> Result<Request<'a>, Refusal>
    requires { Text.sheet_room ≤ length out.old }
    ensures ok { IfOk result (λ r. (request r ≡ Text.request_of s.now) × (Text.laid_out s.now ≡ true) × (0 < r.n) × (r.n ≤ 32)) }
    ensures err { IfErr result (λ e. Text.answer_line (line e) ≡ Text.sheet_of s.now) }
{
    if s.len() > TEXT_BYTES {
        return Err(Refusal::Text);
    }
    let r = read_request(t, u, s);
    if !is_text_of(out, s, &r) {
        return Err(Refusal::Text);
    }
    if r.n == 0 || r.n > 32 {
        return Err(Refusal::RowCount);
    }
    Ok(r)
}

// Makes the move that a request asks for, and prints what it gave. `out` stays where it is turned away.
fn run(out: &mut [u8], r: &Request) -> Result<usize, Refusal>
    requires { (Text.sheet_room ≤ length out.old) × (length r.now.form.now ≤ Text.word_room) × (length r.now.factor.now ≤ Text.word_room) }
    ensures ok { IfOk result (λ n. (n ≤ length out.new) × Put out.old 0 (Text.printed_move (asked (request r.now))) out.new n) }
    ensures err { IfErr result (λ e. (out.new ≡ out.old) × (Text.answer_line (line e) ≡ Text.printed_move (asked (request r.now)))) }
{
    let mut x = [0.0; WORD_ROOM];
    let mut y = [0.0; WORD_ROOM];
    numbers_of(&mut x, r.form);
    numbers_of(&mut y, r.factor);
    let x = &mut x[..r.form.len()];
    let y = &mut y[..r.factor.len()];
    let m = reorder_schur(r.n, r.n, x, y, r.from, r.to)?;
    let mut t = [0; WORD_ROOM];
    let mut u = [0; WORD_ROOM];
    words_of(&mut t, x);
    words_of(&mut u, y);
    let t = &t[..x.len()];
    let u = &u[..y.len()];
    Ok(put_accepted(out, m.landed, m.swaps, m.declined, t, u))
}

// The sheet of a text that is a request's whose move is made, at the start of `out`, and zeros after it: answers
// how many bytes it has. Where the text or the move is turned away, every byte of `out` is zero.
fn sheet_of(out: &mut [u8], input: &[u8]) -> Result<usize, Refusal>
    requires { Text.sheet_room ≤ length out.old }
    ensures ok { IfOk result (λ n. Put (replicate (length out.old) 0) 0 (Text.sheet_of input.now) out.new n) }
    ensures err { IfErr result (λ e. (out.new ≡ replicate (length out.old) 0) × (Text.answer_line (line e) ≡ Text.sheet_of input.now)) }
{
    let mut t = [0; WORD_ROOM];
    let mut u = [0; WORD_ROOM];
    let found = request_in(out, &mut t, &mut u, input);
    out.fill(0);
    run(out, &found?)
}

// The sheet of a text at the start of `out`, and zeros after it: answers how many bytes it has. None where
// `out` has less room than any sheet fits, and it stays.
pub fn sheet(out: &mut [u8], input: &[u8]) -> Option<usize>
    ensures call { (record { count = unwrap_or result 0; buffer = out.new }) ≡ Text.sheet_call out.old input.now }
    ensures variant { IsSome result ↔ (Text.sheet_room ≤ length out.old) }
{
    if out.len() < SHEET_ROOM {
        return None;
    }
    match sheet_of(out, input) {
        Ok(count) => Some(count),
        Err(refusal) => Some(put_answer(out, usize::from(refusal))),
    }
}
