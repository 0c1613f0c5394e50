// Buffers of numbers, filled from the words of a line.
ghost use Rattle.std.specs.Prelude.{◌≡◌, ◌<◌, ◌≤◌, length, map, MatchOption};
ghost use Rattle.std.specs.Float.{binary64};
ghost use Rattle.std.specs.Float.Ieee.{of_bits};

use bits::float::floats_of;

// Room for 65 columns, one more than a call takes, 128 places apart. Nothing here allocates.
pub const ROOM: usize = 8320;

// The front of a room with the numbers of the words, if it holds them.
pub fn numbers<'a>(room: &'a mut [f64; ROOM], w: &[u64]) -> Option<&'a mut [f64]>
    ensures cases { MatchOption result (8320 < length w.now) (λ x. (x.now ≡ map (of_bits binary64) w.now) × (length w.now ≤ 8320)) }
{
    if w.len() > room.len() {
        return None;
    }
    let front = &mut room[..w.len()];
    floats_of(w, &mut *front);
    Some(front)
}
