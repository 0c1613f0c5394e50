// A column of the vectors, as a part of them.
ghost use Rattle.std.specs.Prelude.{◌≡◌};
ghost use Rattle.model.specs.Vectors.{column_of};

use form::shape::Shape;

// Column `col` of the vectors v, n numbers from place ld * col on, or a part of length 0 where a line applies:
// document 01 names this form, so no Option or Result says it.
#[tactic(auto, using(crate::proofs::Lines::column_first), unfolding(model::specs::Form::line7))]
pub fn column(n: usize, ld: usize, v: &[f64], col: usize) -> &[f64]
    ensures { result.now ≡ column_of ld n v.now col }
{
    let Ok(s) = Shape::new(n, ld, v) else {
        return &v[0..0];
    };
    if n <= col {
        return &v[0..0];
    }
    let at = s.place(0, col);
    &v[at..at + n]
}
