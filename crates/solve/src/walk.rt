// Through the blocks of a form's first rows, from the last block up.
ghost use Rattle.std.specs.Prelude.{◌≡◌, ℕ, ◌+◌, ◌<◌, ◌≤◌, List, length, Float};
ghost use Rattle.std.specs.Float.{binary64};
ghost use Rattle.model.specs.Vectors as Vectors;

use crate::leading::Leading;

// What each block does to a list: `one` a 1-block in row i, `two` a 2-block in rows i and i + 1.
pub trait EachBlock {
    // how many rows there are
    ghost rows: { Self → ℕ };

    // what is asked of the list's length
    ghost fits: { Self → ℕ → Type 0 };

    // what `one` and `two` make of the list
    ghost one: { Self → ℕ → List Float → List Float };

    ghost two: { Self → ℕ → List Float → List Float };

    fn one(&self, i: usize, x: &mut [f64])
        requires { (i < rows self.now) × fits self.now (length x.old) }
        ensures { x.new ≡ one self.now i x.old };

    fn two(&self, i: usize, x: &mut [f64])
        requires { (i + 1 < rows self.now) × fits self.now (length x.old) }
        ensures { x.new ≡ two self.now i x.old };
}

// The blocks of a, the last one first. No `for`: a step is a block's size, and is read on the way.
#[tactic(auto, unfolding(model::specs::Vectors::blocks_down))]
pub fn blocks_down<B: EachBlock>(a: Leading, each: &B, x: &mut [f64])
    requires { (a.n ≤ B.rows each.now) × B.fits each.now (length x.old) }
    ensures { x.new ≡ Vectors.blocks_down binary64 a.entry.ld a.entry.a.now (B.one each.now) (B.two each.now) a.entry.n x.old }
{
    let mut left = a.n;
    while 0 < left {
        let size = a.size_above(left);
        left -= size;
        if size == 1 {
            each.one(left, &mut *x);
        } else {
            each.two(left, &mut *x);
        }
    }
}
