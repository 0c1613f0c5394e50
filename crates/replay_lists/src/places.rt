// Lists of numbers as the words of a line give them.
ghost use Rattle.std.specs.Prelude.{◌≡◌, ◌<◌, ◌≤◌, eqb, length, MatchOption};
ghost use Rattle.std.specs.Cmp.Lexicographic.{pointwise};

use bits::fill::fill;

// Room for the results of twice as many pairs as a call takes. Nothing here allocates.
pub const PLACES: usize = 512;

// The front of a room with the numbers of the words, if it holds them.
pub fn places<'a>(room: &'a mut [usize; PLACES], w: &[u64]) -> Option<&'a mut [usize]>
    ensures cases { MatchOption result (512 < length w.now) (λ x. (x.now ≡ w.now) × (length w.now ≤ 512)) }
{
    if w.len() > room.len() {
        return None;
    }
    let front = &mut room[..w.len()];
    fill(&mut *front, w, |w| w as usize);
    Some(front)
}

// Whether the numbers x are the words w, as many and each one.
pub fn are_numbers(x: &[usize], w: &[u64]) -> bool
    ensures { result ≡ pointwise eqb x.now w.now }
{
    x.len() == w.len() && x.iter().zip(w).all(|(x, w)| *x as u64 == *w)
}
