// The walk of a block, with exchanges of either kind.
ghost use Rattle.std.specs.Prelude.{◌+◌, ◌-◌, ◌*◌, ◌≤◌, ◌<◌};
ghost use Rattle.std.specs.Float.{binary64};
ghost use Rattle.model.specs.Stopping as Stopping;
ghost use Rattle.form.specs.Shaped.{Holds, Beside};
ghost use Rattle.walks.specs.Stands.{Stood, Takes, Few, rows};

use crate::counts::Counts;
use crate::moving::{Block, Kind, Moving, step_down, step_up};
use form::shape::{Shape, goal_down};
use std::cmp::Ordering;
use swaps::ahead::{Ahead, Way};

// Down until the goal is reached or a step stops: a `while`, since a step is as long as the block that it passes.
fn walk_down<K: Kind>(
    s: Shape,
    t: &mut [f64],
    u: &mut [f64],
    goal: usize,
    m: Moving,
) -> Result<Moving, Moving>
    requires { Holds s t.old × Beside s u.old × Few (12 * m.here) m × (goal + rows m.block ≤ s.n) }
    ensures { Takes s t.old u.old m t.new u.new result (Stopping.walk_down (K.kind s.ld s.n) s.n binary64 s.ld s.n goal) }
{
    let mut on = m;
    let mut ahead = Ahead::none();
    while on.here < goal {
        ahead.next = (on.block == Block::One && on.here + 1 < goal).then_some(Way::Down);
        on = step_down::<K>(s, t, u, on, &mut ahead)?;
    }
    Ok(on)
}

// Up until the goal is reached or a step stops. Two functions, as moving.rt has two of each step.
fn walk_up<K: Kind>(
    s: Shape,
    t: &mut [f64],
    u: &mut [f64],
    goal: usize,
    m: Moving,
) -> Result<Moving, Moving>
    requires { Holds s t.old × Beside s u.old × Few (12 * (s.n - m.here)) m × (m.here + rows m.block ≤ s.n) }
    ensures { Takes s t.old u.old m t.new u.new result (Stopping.walk_up (K.kind s.ld s.n) s.n binary64 s.ld s.n goal) }
{
    let mut on = m;
    let mut ahead = Ahead::none();
    while goal < on.here {
        ahead.next = (on.block == Block::One && goal + 1 < on.here).then_some(Way::Up);
        on = step_up::<K>(s, t, u, on, &mut ahead)?;
    }
    Ok(on)
}

// The block in row `from` to row `to`, both first rows of blocks.
fn walk_from<K: Kind>(
    s: Shape,
    t: &mut [f64],
    u: &mut [f64],
    from: usize,
    to: usize,
) -> Result<Moving, Moving>
    requires { Holds s t.old × Beside s u.old × (from < s.n) × (to < s.n) }
    ensures { Stood s u.old t.new u.new result (Stopping.walk_from (K.kind s.ld s.n) binary64 s.ld s.n from to t.old) }
{
    let block = Block::at(s, t, from);
    let start = Moving {
        here: from,
        block,
        counts: Counts::default(),
    };
    match from.cmp(&to) {
        Ordering::Equal => Ok(start),
        Ordering::Less => {
            let goal = goal_down(block.rows(), s.size_at(t, to), to);
            walk_down::<K>(s, t, u, goal, start)
        }
        Ordering::Greater => walk_up::<K>(s, t, u, to, start),
    }
}

// The block that row `from` is in to the place of the one that row `to` is in: Err where an exchange has
// stopped it on the way.
#[tactic(auto, unfolding(model::specs::Stopping::walk))]
pub fn walk<K: Kind>(
    s: Shape,
    t: &mut [f64],
    u: &mut [f64],
    from: usize,
    to: usize,
) -> Result<Moving, Moving>
    requires { Holds s t.old × Beside s u.old × (from < s.n) × (to < s.n) }
    ensures { Stood s u.old t.new u.new result (Stopping.walk (K.kind s.ld s.n) binary64 s.ld s.n from to t.old) }
{
    let a = s.first_row(t, from);
    let b = s.first_row(t, to);
    walk_from::<K>(s, t, u, a, b)
}
