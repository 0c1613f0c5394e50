// A 2-block standardised in place, with dlanv2's exchange.
ghost use Rattle.std.specs.Prelude.{◌≡◌, ◌+◌, ◌≤◌};
ghost use Rattle.std.specs.Float.{binary64};
ghost use Rattle.model.specs.Stopping as Stopping;
ghost use Rattle.schur22.specs.View.{block};
ghost use Rattle.form.specs.Shaped.{Holds, Beside};
ghost use Rattle.swaps.specs.Done.{Done};

use form::shape::Shape;
use schur22::lahqr_schur22::Block;
use swaps::standardise::{standard_block, standardise_by};

// A block whose b is zero and whose c is not is turned over, so that c is zero; any other stays as it is.
#[tactic(auto, unfolding(model::specs::Stopping::exchanged_b))]
fn exchanged_b(x: Block) -> Block
    ensures { block result ≡ Stopping.exchanged_b binary64 (block x) }
{
    if (x.b == 0.0) & (x.c != 0.0) {
        return Block {
            b: -x.c,
            c: 0.0,
            cs: -x.sn,
            sn: x.cs,
            ..x
        };
    }
    x
}

// The rows from row j on so standardised if there are two. Not one function with `standardise_if` of crate
// `schur`, which turns no block over.
#[tactic(auto, unfolding(model::specs::Stopping::standardise_also, model::specs::Columns::on_factor))]
pub fn standardise_also(s: Shape, t: &mut [f64], u: &mut [f64], size: usize, j: usize)
    requires { Holds s t.old × Beside s u.old × (j + size ≤ s.n) }
    ensures { Done s.ld s.n u.old t.new u.new (Stopping.standardise_also binary64 s.ld s.n size j t.old) }
{
    if size != 2 {
        return;
    }
    let b = exchanged_b(standard_block(s, t, j));
    standardise_by(s, t, u, j, b);
}
