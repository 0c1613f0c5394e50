// The rotation of the next exchange of two single rows, worked out before it is due. It waits for a root, and that for
// two numbers of which this exchange leaves one: these are worked out first, and the root is under way while rows and
// columns are still being rotated. Nothing rests on their being the right ones: an exchange takes the rotation where it
// finds the very numbers that it was made of, and works out its own where it does not.
ghost use Rattle.std.specs.Prelude.{◌≡◌, ◌+◌, ◌≤◌, ◌&&◌, ◌||◌, true, MatchOption};
ghost use Rattle.std.specs.Float.{binary64};
ghost use Rattle.std.specs.Float.Ieee.{is_nan, of_bits};
ghost use Rattle.form.specs.Shaped.{Holds};
ghost use Rattle.linalg.specs.View.{rotation, pair};
ghost use Rattle.swaps.specs.Ahead.{turn, same, beside, last};

use form::shape::Shape;
use linalg::jacobi::{JacobiRotation, Pair, adjoint, apply_on_the_right, rotg};

// Where the upper row of the next exchange is: a row up or a row down.
#[derive(Clone, Copy)]
pub enum Way {
    Up,
    Down,
}

// The rotation of the numbers of patterns p and q, which do not stand side by side: the two would be read as one, before
// what was written as two is there.
#[derive(Clone, Copy)]
struct Known {
    p: u64,
    rot: JacobiRotation,
    q: u64,
    ghost is: { rotation rot ≡ turn (of_bits binary64 p) (of_bits binary64 q) },
}

// Where the next exchange of a walk is, if one comes, and the rotation that is known beforehand.
#[derive(Clone, Copy)]
pub struct Ahead {
    pub next: Option<Way>,
    known: Option<Known>,
}

// The rotation that exchanges two single rows: p is the number beside them, q the difference of theirs.
fn rotation_of(p: f64, q: f64) -> JacobiRotation
    ensures { rotation result ≡ turn p q }
{
    adjoint(rotg(p, q).rot)
}

// The two numbers that the next exchange is made of, after that of rows j and j + 1 by `rot`; none at the form's end,
// and before a 2-block, past which no rotation goes.
#[tactic(auto, unfolding(crate::specs::Ahead::beside, crate::specs::Ahead::last))]
fn numbers_beside(s: Shape, t: &[f64], j: usize, rot: JacobiRotation, way: Way) -> Option<Pair>
    requires { Holds s t.now × (j + 2 ≤ s.n) }
    ensures { MatchOption result (last way s.ld s.n j t.now ≡ true) (λ w. pair w ≡ beside way s.ld j (rotation rot) t.now) }
{
    match way {
        Way::Up => {
            if j == 0 || s.crosses(t, j - 1) {
                return None;
            }
            let w = apply_on_the_right(rot, s.get(t, j - 1, j), s.get(t, j - 1, j + 1));
            let y = s.get(t, j + 1, j + 1) - s.get(t, j - 1, j - 1);
            Some(Pair { x: w.x, y })
        }
        Way::Down => {
            if s.n <= j + 2 || s.two_block(t, j + 2) {
                return None;
            }
            let w = apply_on_the_right(rot, s.get(t, j, j + 2), s.get(t, j + 1, j + 2));
            let y = s.get(t, j + 2, j + 2) - s.get(t, j, j);
            Some(Pair { x: w.y, y })
        }
    }
}

impl Known {
    // The rotation of two numbers, none where one is a NaN, which has no pattern.
    fn of(p: f64, q: f64) -> Option<Known>
        ensures { MatchOption result ((is_nan p || is_nan q) ≡ true) (λ k. (of_bits binary64 k.p ≡ p) × (of_bits binary64 k.q ≡ q)) }
    {
        if p.is_nan() || q.is_nan() {
            return None;
        }
        Some(Known {
            p: p.to_bits(),
            rot: rotation_of(p, q),
            q: q.to_bits(),
        })
    }

    // Whether it is that of these two.
    fn is_of(self, p: f64, q: f64) -> bool
        ensures { result ≡ (same self.p p && same self.q q) }
    {
        !p.is_nan() && p.to_bits() == self.p && !q.is_nan() && q.to_bits() == self.q
    }
}

impl Ahead {
    // Nothing is known, and no exchange comes next.
    pub fn none() -> Ahead {
        Ahead {
            next: None,
            known: None,
        }
    }

    // The rotation of two numbers, the known one where it is that.
    pub(crate) fn rotation(&self, p: f64, q: f64) -> JacobiRotation
        ensures { rotation result ≡ turn p q }
    {
        match self.known {
            Some(k) if k.is_of(p, q) => k.rot,
            _ => rotation_of(p, q),
        }
    }

    // What the next exchange finds after that of rows j and j + 1 by `rot`, worked out.
    pub(crate) fn look(&mut self, s: Shape, t: &[f64], j: usize, rot: JacobiRotation)
        requires { Holds s t.now × (j + 2 ≤ s.n) }
        ensures { self.new.next ≡ self.old.next }
    {
        let found = match self.next {
            Some(way) => numbers_beside(s, t, j, rot, way),
            None => None,
        };
        self.known = match found {
            Some(w) => Known::of(w.x, w.y),
            None => None,
        };
    }
}
