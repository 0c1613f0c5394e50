// The exchange of two neighbouring blocks.
ghost use Rattle.std.specs.Prelude.{◌≡◌, ◌&&◌, ◌+◌, ◌≤◌, eqb};
ghost use Rattle.std.specs.Float.{binary64};
ghost use Rattle.model.specs.Form as Form;
ghost use Rattle.model.specs.Swaps as Swaps;
ghost use Rattle.model.specs.Exchange as Exchange;
ghost use Rattle.form.specs.Shaped.{Holds, Beside};
ghost use Rattle.swaps.specs.Done.{Done, Step};
ghost use Rattle.swaps.specs.Inside.{Fits};

use arrayvec::ArrayVec;
use form::shape::Shape;
use swaps::ahead::Ahead;
use swaps::neighbours::Neighbours;
use swaps::standardise::standardise;
use swaps::swap_11::schur_swap_11;
use swaps::swap_12::{schur_swap_12, schur_swap_21};
use swaps::swap_22::schur_swap_22;
use walks::counts::Counts;

// One swap of neighbouring blocks.
fn swap_of(s: Shape, t: &mut [f64], u: &mut [f64], b: Neighbours) -> Counts
    requires { Holds s t.old × Beside s u.old × Fits s b }
    ensures { Step s.ld s.n u.old t.new u.new result.swaps result.declined (Swaps.swap_of binary64 s.ld s.n b.row b.n1 b.n2 t.old) × (result.swaps ≡ 1) × (result.declined ≤ 1) }
{
    let declined = match (b.n1, b.n2) {
        (1, 1) => {
            schur_swap_11(s, t, u, b.row, &mut Ahead::none());
            false
        }
        (1, _) => {
            schur_swap_12(s, t, u, b.row);
            false
        }
        (_, 1) => {
            schur_swap_21(s, t, u, b.row);
            false
        }
        _ => schur_swap_22(s, t, u, b.row),
    };
    Counts::of_one(declined)
}

// The rows from row j on standardised if there are two. In line, so that a single row, for which there is
// nothing to do, costs no call.
#[inline(always)]
#[tactic(auto, unfolding(model::specs::Exchange::standardise_if, model::specs::Columns::on_factor))]
fn standardise_if(s: Shape, t: &mut [f64], u: &mut [f64], size: usize, j: usize)
    requires { Holds s t.old × Beside s u.old × (j + size ≤ s.n) }
    ensures { Done s.ld s.n u.old t.new u.new (Exchange.standardise_if binary64 s.ld s.n size j t.old) }
{
    if size == 2 {
        standardise(s, t, u, j);
    }
}

// One swap, then the new upper block standardised, then the lower, after a decline too.
fn exchange_whole(s: Shape, t: &mut [f64], u: &mut [f64], b: Neighbours) -> Counts
    requires { Holds s t.old × Beside s u.old × Fits s b }
    ensures { Step s.ld s.n u.old t.new u.new result.swaps result.declined (Exchange.exchange_whole binary64 s.ld s.n b.row b.n1 b.n2 t.old) × (result.swaps ≡ 1) × (result.declined ≤ 1) }
{
    let counts = swap_of(s, t, u, b);
    standardise_if(s, t, u, b.n2, b.row);
    standardise_if(s, t, u, b.n1, b.row + b.n2);
    counts
}

// Whether the rows from row j on are two with a zero inside.
fn apart(s: Shape, t: &[f64], size: usize, j: usize) -> bool
    requires { Holds s t.now × (j + size ≤ s.n) }
    ensures { result ≡ (eqb size 2 && Form.zero_below binary64 s.ld t.now j) }
{
    size == 2 && s.zero_below(t, j)
}

// The exchange of neighbouring blocks, in a loop over the small exchanges still to do, the last pushed
// first. Two rows that have a zero inside when their turn comes are parted: of the first two the lower goes
// first, of the second two the upper.
pub fn exchange(s: Shape, t: &mut [f64], u: &mut [f64], b: Neighbours) -> Counts
    requires { Holds s t.old × Beside s u.old × Fits s b }
    ensures { Step s.ld s.n u.old t.new u.new result.swaps result.declined (Exchange.exchange binary64 s.ld s.n b.row b.n1 b.n2 t.old) × (result.swaps ≤ 4) × (result.declined ≤ 4) }
{
    let mut todo = ArrayVec::<Neighbours, 3>::new();
    todo.push(b);
    let mut counts = Counts::default();
    while let Some(b) = todo.pop() {
        if apart(s, t, b.n1, b.row) {
            todo.push(Neighbours::of(b.row, 1, b.n2));
            todo.push(Neighbours::of(b.row + 1, 1, b.n2));
        } else if apart(s, t, b.n2, b.row + b.n1) {
            todo.push(Neighbours::of(b.row + 1, b.n1, 1));
            todo.push(Neighbours::of(b.row, b.n1, 1));
        } else {
            counts = counts + exchange_whole(s, t, u, b);
        }
    }
    counts
}

// The same exchange: two single rows straight by their swap, which looks ahead, all else as above. Without this way
// moves of single rows take 1.04 to 1.23 times as long (docs/BENCHMARKS.md, "Before and after").
pub fn exchange_straight(
    s: Shape,
    t: &mut [f64],
    u: &mut [f64],
    b: Neighbours,
    ahead: &mut Ahead,
) -> Counts
    requires { Holds s t.old × Beside s u.old × Fits s b }
    ensures { Step s.ld s.n u.old t.new u.new result.swaps result.declined (Exchange.exchange binary64 s.ld s.n b.row b.n1 b.n2 t.old) × (result.swaps ≤ 4) × (result.declined ≤ 4) }
{
    if b.n1 + b.n2 == 2 {
        schur_swap_11(s, t, u, b.row, ahead);
        return Counts::of_one(false);
    }
    exchange(s, t, u, b)
}
