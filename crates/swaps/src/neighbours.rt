// Two neighbouring blocks of a form.
ghost use Rattle.std.specs.Prelude.{◌≡◌, ◌≤◌};

// n1 rows from row `row` on, and n2 below them. The sizes are numbers and no enum: they serve to be added to
// rows and to each other, for which an enum's cases would first become these numbers. That they end within the
// form is a clause (`Fits`): with a shape in here, each of those that wait on the stack of `exchange` in crate `schur`
// would have one of its own, and the loop there would have to keep that it is the form's.
#[derive(Clone, Copy)]
pub struct Neighbours {
    pub row: usize,
    pub n1: usize,
    pub n2: usize,
    ghost one1: { 1 ≤ n1 },
    ghost two1: { n1 ≤ 2 },
    ghost one2: { 1 ≤ n2 },
    ghost two2: { n2 ≤ 2 },
}

impl Neighbours {
    // Two blocks of these sizes.
    pub fn of(row: usize, n1: usize, n2: usize) -> Self
        requires { (1 ≤ n1) × (n1 ≤ 2) × (1 ≤ n2) × (n2 ≤ 2) }
        ensures { (result.row ≡ row) × (result.n1 ≡ n1) × (result.n2 ≡ n2) }
    {
        Neighbours { row, n1, n2 }
    }
}

// The first two rows, each single: what an ArrayVec holds where it has no element.
impl Default for Neighbours {
    ghost is_default = { λ b. (b.row ≡ 0) × (b.n1 ≡ 1) × (b.n2 ≡ 1) };

    fn default() -> Self {
        Neighbours::of(0, 1, 1)
    }
}
