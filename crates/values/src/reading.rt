// The two readings of a 2-block: as it stands, and of a copy standardised first.
ghost use Rattle.std.specs.Prelude.{◌≡◌, Float};
ghost use Rattle.std.specs.Float.{binary64};
ghost use Rattle.model.specs.Schur22 as Schur22;
ghost use Rattle.model.specs.Values.{as_it_stands, standardised_first};
ghost use Rattle.schur22.specs.View.{eigenvalues};

use schur22::lahqr_schur22::{Eigenvalues, lahqr_schur22};
use solve::block::imag_size;

// How a 2-block is read.
pub trait Reading {
    ghost read: { Float → Float → Float → Float → Schur22.Eigenvalues };

    // The pair of the 2-block of rows (a, b) and (c, d).
    fn pair(a: f64, b: f64, c: f64, d: f64) -> Eigenvalues
        ensures { eigenvalues result ≡ read a b c d };
}

// The first diagonal number twice, with the imaginary size.
pub struct AsItStands;

impl Reading for AsItStands {
    ghost read = { as_it_stands binary64 };

    #[tactic(auto, unfolding(model::specs::Values::as_it_stands))]
    fn pair(a: f64, b: f64, c: f64, _d: f64) -> Eigenvalues {
        Eigenvalues::Complex(a, a, imag_size(c, b))
    }
}

// What comes out of lahqr_schur22.
pub struct StandardisedFirst;

impl Reading for StandardisedFirst {
    ghost read = { standardised_first binary64 };

    #[tactic(auto, unfolding(model::specs::Values::standardised_first))]
    fn pair(a: f64, b: f64, c: f64, d: f64) -> Eigenvalues {
        lahqr_schur22(a, b, c, d).eigenvalues
    }
}
