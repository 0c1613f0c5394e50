// The matrix of a system: a form's first rows, with a shift taken off the diagonal.
use crate::leading::Leading;

// The shift S is f64 or Complex. A divisor below eps * norm is replaced by that, but for the determinants of real
// 2-blocks.
#[derive(Clone, Copy)]
pub struct Shifted<'a, S> {
    pub a: Leading<'a>,
    pub shift: S,
    pub norm: f64,
}
