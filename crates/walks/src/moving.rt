// A move on its way: one exchange of a kind, and one step down or up. Down and up have functions of their own, as in
// model: they take their rows from below or above, and two rows in the other order, so that of one function for
// both hardly a line would be without its direction.
ghost use Rattle.std.specs.Prelude.{◌≡◌, ℕ, ◌+◌, ◌-◌, ◌*◌, ◌≤◌, ◌<◌, List, Float, IfOk};
ghost use Rattle.std.specs.Float.{binary64};
ghost use Rattle.model.specs.Move as Move;
ghost use Rattle.model.specs.Stopping as Stopping;
ghost use Rattle.form.specs.Run.{Rows};
ghost use Rattle.form.specs.Shaped.{Holds, Beside};
ghost use Rattle.swaps.specs.Inside.{Fits};
ghost use Rattle.walks.specs.Kinds.{Made};
ghost use Rattle.walks.specs.Stands.{Stands, Takes, Few, More, rows, number};

use crate::counts::Counts;
use form::shape::Shape;
use swaps::ahead::Ahead;
use swaps::neighbours::Neighbours;

// How a move makes its exchanges, and where it stops.
pub trait Kind {
    ghost kind: { ℕ → ℕ → Stopping.Kind };

    // How many swaps an exchange runs at most.
    ghost most: { ℕ };

    // The exchange of neighbouring blocks: Err where it has declined and the move stops for that.
    fn exchange(
        s: Shape,
        t: &mut [f64],
        u: &mut [f64],
        b: Neighbours,
        ahead: &mut Ahead,
    ) -> Result<Counts, Counts>
        requires { Holds s t.old × Beside s u.old × Fits s b }
        ensures { Made (kind s.ld s.n) most s b t.old u.old t.new u.new result };

    ghost few: { most ≤ 4 };
}

// What is moved: one row, a 2-block, or the two rows of a 2-block that has split.
#[derive(Clone, Copy, PartialEq, Eq)]
pub(crate) enum Block {
    One,
    Two,
    Parted,
}

impl Block {
    // How many rows it has.
    pub(crate) fn rows(self) -> usize
        ensures { result ≡ rows self }
    {
        match self {
            Block::One => 1,
            Block::Two | Block::Parted => 2,
        }
    }

    // The block that begins in row p.
    pub(crate) fn at(s: Shape, t: &[f64], p: usize) -> Block
        requires { Holds s t.now × (p < s.n) }
        ensures { (number result ≡ Move.size_at binary64 s.ld s.n t.now p) × (rows result ≡ number result) × (p + rows result ≤ s.n) }
    {
        if s.size_at(t, p) == 1 {
            Block::One
        } else {
            Block::Two
        }
    }
}

// The moved block's row, the block, and the counts so far. How high these may be is a clause (`Few`) and no ghost
// field: each exchange raises them, so that one more keeps a field's bound only by a clause that they are lower yet.
#[derive(Clone, Copy)]
pub struct Moving {
    pub here: usize,
    pub(crate) block: Block,
    pub counts: Counts,
}

impl Moving {
    // Arrived in a row.
    fn arrived(self, row: usize) -> Moving
        ensures { result ≡ record self { here = row } }
    {
        Moving { here: row, ..self }
    }

    // Arrived in a row, where a 2-block may have split.
    fn landed_whole(self, s: Shape, t: &[f64], row: usize) -> Moving
        requires { Holds s t.now × (row + rows self.block ≤ s.n) }
        ensures stands { (u₀ u : List Float) (M : Move.Moving) → Stands s u₀ t.now u self M → Stands s u₀ t.now u result (Move.landed_whole binary64 s.ld row M) }
        ensures rows { (result.here ≡ row) × (rows result.block ≡ rows self.block) × (result.counts ≡ self.counts) }
    {
        if self.block == Block::Two && s.zero_below(t, row) {
            return Moving {
                here: row,
                block: Block::Parted,
                ..self
            };
        }
        self.arrived(row)
    }
}

// One exchange more: the row stays, and is moved on where the step ends. Its blocks are three numbers, made
// Neighbours here and not at each place that calls it. In line, so that the numbers of a move stay in registers.
#[inline(always)]
fn trying<K: Kind>(
    s: Shape,
    t: &mut [f64],
    u: &mut [f64],
    j: usize,
    n1: usize,
    n2: usize,
    m: Moving,
    ahead: &mut Ahead,
) -> Result<Moving, Moving>
    requires { Holds s t.old × Beside s u.old × Rows s.n j n1 n2 × Few 2000 m }
    ensures stands { Takes s t.old u.old m t.new u.new result (Stopping.trying (K.kind s.ld s.n) j n1 n2) }
    ensures counts { IfOk result (λ r. (r.here ≡ m.here) × More K.most m r) }
{
    match K::exchange(s, t, u, Neighbours { row: j, n1, n2 }, ahead) {
        Ok(c) => Ok(Moving {
            counts: m.counts + c,
            ..m
        }),
        Err(c) => Err(Moving {
            counts: m.counts + c,
            ..m
        }),
    }
}

// One row or a 2-block, past the block below.
fn whole_down<K: Kind>(
    s: Shape,
    t: &mut [f64],
    u: &mut [f64],
    m: Moving,
    ahead: &mut Ahead,
) -> Result<Moving, Moving>
    requires { Holds s t.old × Beside s u.old × Few 1000 m × (rows m.block ≡ number m.block) × (m.here + rows m.block < s.n) }
    ensures stands { Takes s t.old u.old m t.new u.new result (Stopping.whole_down (K.kind s.ld s.n) binary64 s.ld s.n) }
    ensures counts { IfOk result (λ r. (m.here < r.here) × (r.here + rows m.block ≤ s.n) × More K.most m r) }
{
    let rows = m.block.rows();
    let next = s.size_at(t, m.here + rows);
    let e = trying::<K>(s, t, u, m.here, rows, next, m, ahead)?;
    Ok(e.landed_whole(s, t, m.here + next))
}

// The upper row past a 2-block that the lower row has passed, or past each of its rows where that exchange
// has split it.
fn past_two_down<K: Kind>(
    s: Shape,
    t: &mut [f64],
    u: &mut [f64],
    m: Moving,
    ahead: &mut Ahead,
) -> Result<Moving, Moving>
    requires { Holds s t.old × Beside s u.old × Few 1100 m × (m.here + 4 ≤ s.n) }
    ensures stands { Takes s t.old u.old m t.new u.new result (Stopping.past_two_down (K.kind s.ld s.n) binary64 s.ld s.n) }
    ensures counts { IfOk result (λ r. (r.here ≡ m.here + 2) × More (2 * K.most) m r) }
{
    let here = m.here;
    if s.zero_below(t, here + 1) {
        let a = trying::<K>(s, t, u, here, 1, 1, m, ahead)?;
        let b = trying::<K>(s, t, u, here + 1, 1, 1, a, ahead)?;
        return Ok(b.arrived(here + 2));
    }
    let a = trying::<K>(s, t, u, here, 1, 2, m, ahead)?;
    Ok(a.arrived(here + 2))
}

// Two rows, the lower first.
fn apart_down<K: Kind>(
    s: Shape,
    t: &mut [f64],
    u: &mut [f64],
    m: Moving,
    ahead: &mut Ahead,
) -> Result<Moving, Moving>
    requires { Holds s t.old × Beside s u.old × Few 1000 m × (m.here + 3 ≤ s.n) }
    ensures stands { Takes s t.old u.old m t.new u.new result (Stopping.apart_down (K.kind s.ld s.n) binary64 s.ld s.n) }
    ensures counts { IfOk result (λ r. (m.here < r.here) × (r.here + 2 ≤ s.n) × More (3 * K.most) m r) }
{
    let here = m.here;
    let next = s.size_at(t, here + 2);
    let below = trying::<K>(s, t, u, here + 1, 1, next, m, ahead)?;
    if next == 1 {
        let a = trying::<K>(s, t, u, here, 1, 1, below, ahead)?;
        return Ok(a.arrived(here + 1));
    }
    past_two_down::<K>(s, t, u, below, ahead)
}

// One step down.
#[tactic(auto, unfolding(model::specs::Stopping::step_down))]
pub(crate) fn step_down<K: Kind>(
    s: Shape,
    t: &mut [f64],
    u: &mut [f64],
    m: Moving,
    ahead: &mut Ahead,
) -> Result<Moving, Moving>
    requires { Holds s t.old × Beside s u.old × Few 1000 m × (m.here + rows m.block < s.n) }
    ensures stands { Takes s t.old u.old m t.new u.new result (Stopping.step_down (K.kind s.ld s.n) binary64 s.ld s.n) }
    ensures counts { IfOk result (λ r. (m.here < r.here) × (r.here + rows m.block ≤ s.n) × More (3 * K.most) m r) }
{
    match m.block {
        Block::Parted => apart_down::<K>(s, t, u, m, ahead),
        Block::One | Block::Two => whole_down::<K>(s, t, u, m, ahead),
    }
}

// One row or a 2-block, past the block above.
fn whole_up<K: Kind>(
    s: Shape,
    t: &mut [f64],
    u: &mut [f64],
    m: Moving,
    ahead: &mut Ahead,
) -> Result<Moving, Moving>
    requires { Holds s t.old × Beside s u.old × Few 1000 m × (rows m.block ≡ number m.block) × (0 < m.here) × (m.here + rows m.block ≤ s.n) }
    ensures stands { Takes s t.old u.old m t.new u.new result (Stopping.whole_up (K.kind s.ld s.n) binary64 s.ld s.n) }
    ensures counts { IfOk result (λ r. (r.here < m.here) × More K.most m r) }
{
    let rows = m.block.rows();
    let next = s.size_above(t, m.here);
    let to = m.here - next;
    let e = trying::<K>(s, t, u, to, next, rows, m, ahead)?;
    Ok(e.landed_whole(s, t, to))
}

// The lower row past a 2-block that the upper row has passed, or past each of its rows where that exchange
// has split it.
fn past_two_up<K: Kind>(
    s: Shape,
    t: &mut [f64],
    u: &mut [f64],
    m: Moving,
    ahead: &mut Ahead,
) -> Result<Moving, Moving>
    requires { Holds s t.old × Beside s u.old × Few 1100 m × (2 ≤ m.here) × (m.here + 2 ≤ s.n) }
    ensures stands { Takes s t.old u.old m t.new u.new result (Stopping.past_two_up (K.kind s.ld s.n) binary64 s.ld s.n) }
    ensures counts { IfOk result (λ r. (r.here ≡ m.here - 2) × More (2 * K.most) m r) }
{
    let here = m.here;
    if s.zero_below(t, here - 1) {
        let a = trying::<K>(s, t, u, here, 1, 1, m, ahead)?;
        let b = trying::<K>(s, t, u, here - 1, 1, 1, a, ahead)?;
        return Ok(b.arrived(here - 2));
    }
    let a = trying::<K>(s, t, u, here - 1, 2, 1, m, ahead)?;
    Ok(a.arrived(here - 2))
}

// Two rows, the upper first.
fn apart_up<K: Kind>(
    s: Shape,
    t: &mut [f64],
    u: &mut [f64],
    m: Moving,
    ahead: &mut Ahead,
) -> Result<Moving, Moving>
    requires { Holds s t.old × Beside s u.old × Few 1000 m × (0 < m.here) × (m.here + 2 ≤ s.n) }
    ensures stands { Takes s t.old u.old m t.new u.new result (Stopping.apart_up (K.kind s.ld s.n) binary64 s.ld s.n) }
    ensures counts { IfOk result (λ r. (r.here < m.here) × More (3 * K.most) m r) }
{
    let here = m.here;
    let next = s.size_above(t, here);
    let above = trying::<K>(s, t, u, here - next, next, 1, m, ahead)?;
    if next == 1 {
        let a = trying::<K>(s, t, u, here, 1, 1, above, ahead)?;
        return Ok(a.arrived(here - 1));
    }
    past_two_up::<K>(s, t, u, above, ahead)
}

// One step up.
#[tactic(auto, unfolding(model::specs::Stopping::step_up))]
pub(crate) fn step_up<K: Kind>(
    s: Shape,
    t: &mut [f64],
    u: &mut [f64],
    m: Moving,
    ahead: &mut Ahead,
) -> Result<Moving, Moving>
    requires { Holds s t.old × Beside s u.old × Few 1000 m × (0 < m.here) × (m.here + rows m.block ≤ s.n) }
    ensures stands { Takes s t.old u.old m t.new u.new result (Stopping.step_up (K.kind s.ld s.n) binary64 s.ld s.n) }
    ensures counts { IfOk result (λ r. (r.here < m.here) × More (3 * K.most) m r) }
{
    match m.block {
        Block::Parted => apart_up::<K>(s, t, u, m, ahead),
        Block::One | Block::Two => whole_up::<K>(s, t, u, m, ahead),
    }
}
