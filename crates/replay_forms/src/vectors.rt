// Lines of vectors, block values and a column: the lengths, the numbers and the buffers as they
// are given; what the call writes or hands back as it is expected.
ghost use Rattle.std.specs.Prelude.{◌≡◌};
ghost use Rattle.replay_text.specs.Shown.{judged_read};
ghost use Rattle.replay_forms.specs.Lines as Lines;
ghost use Rattle.replay_forms.specs.Lines.{more};

use crate::buffers::{ROOM, numbers};
use crate::head::Stride;
use refusal::number;
use replay_text::float::are_words;
use replay_text::outcome::{Outcome, judge_read};
use values::blocks::values_read;
use values::reading::{AsItStands, Reading, StandardisedFirst};

// Two lengths, n, the stride if it is given, form, vectors; answer, vectors. Not by `on_two` of `moves`: its lines end
// in all buffers that they give, and these in one of two, those of `on_values` in two of three.
#[tactic(auto, unfolding(crate::specs::Lines::fits))]
fn on_vectors(stride: Stride, w: &[u64]) -> Option<bool>
    ensures { judged_read result ≡ Lines.evd_from_real_schur (more stride) w.now }
{
    let (&[a, b], shape) = w.split_first_chunk::<2>()?;
    let head = stride.head(shape)?;
    let (form, lent) = head.rest.split_at_checked(a as usize)?;
    let (lent, told) = lent.split_at_checked(b as usize)?;
    let (&told, after) = told.split_first()?;
    if after.len() as u64 != b {
        return None;
    }
    let mut t = [0.0; ROOM];
    let mut v = [0.0; ROOM];
    let t = numbers(&mut t, form)?;
    let v = numbers(&mut v, lent)?;
    let r = evd::vectors::evd_from_real_schur(head.n, head.ld, &*t, &mut *v);
    let answer = number(&r) as u64 == told;
    let vectors = are_words(&*v, after);
    Some(answer & vectors)
}

pub fn evd_from_real_schur(stride: Stride, w: &[u64]) -> Outcome
    ensures { result ≡ Lines.evd_from_real_schur (more stride) w.now }
{
    judge_read(on_vectors(stride, w))
}

// Three lengths, n, the stride if it is given, form, real and imaginary parts; answer, real and imaginary parts.
#[tactic(auto, unfolding(crate::specs::Lines::fits))]
fn on_values<R: Reading>(stride: Stride, w: &[u64]) -> Option<bool>
    ensures { judged_read result ≡ Lines.on_values R.read (more stride) w.now }
{
    let (&[a, b, k], shape) = w.split_first_chunk::<3>()?;
    let head = stride.head(shape)?;
    let (form, real) = head.rest.split_at_checked(a as usize)?;
    let (real, imaginary) = real.split_at_checked(b as usize)?;
    let (imaginary, told) = imaginary.split_at_checked(k as usize)?;
    let (&told, after) = told.split_first()?;
    let (real_after, imaginary_after) = after.split_at_checked(b as usize)?;
    if imaginary_after.len() as u64 != k {
        return None;
    }
    let mut t = [0.0; ROOM];
    let mut re = [0.0; ROOM];
    let mut im = [0.0; ROOM];
    let t = numbers(&mut t, form)?;
    let re = numbers(&mut re, real)?;
    let im = numbers(&mut im, imaginary)?;
    let r = values_read::<R>(head.n, head.ld, &*t, &mut *re, &mut *im);
    let answer = number(&r) as u64 == told;
    let real = are_words(&*re, real_after);
    let imaginary = are_words(&*im, imaginary_after);
    Some(answer & real & imaginary)
}

// A line of the values of 2-blocks as they stand.
pub fn block_values(stride: Stride, w: &[u64]) -> Outcome
    ensures { result ≡ Lines.block_values (more stride) w.now }
{
    judge_read(on_values::<AsItStands>(stride, w))
}

// A line of those of copies standardised first.
pub fn standardised_values(stride: Stride, w: &[u64]) -> Outcome
    ensures { result ≡ Lines.standardised_values (more stride) w.now }
{
    judge_read(on_values::<StandardisedFirst>(stride, w))
}

// A length, n, the stride if it is given, col, vectors; the part.
fn on_column(stride: Stride, w: &[u64]) -> Option<bool>
    ensures { judged_read result ≡ Lines.column (more stride) w.now }
{
    let (&a, shape) = w.split_first()?;
    let head = stride.head(shape)?;
    let (&col, vectors) = head.rest.split_first()?;
    let (vectors, part) = vectors.split_at_checked(a as usize)?;
    let mut v = [0.0; ROOM];
    let v = numbers(&mut v, vectors)?;
    Some(are_words(
        evd::column::column(head.n, head.ld, &*v, col as usize),
        part,
    ))
}

pub fn column(stride: Stride, w: &[u64]) -> Outcome
    ensures { result ≡ Lines.column (more stride) w.now }
{
    judge_read(on_column(stride, w))
}
