// Inner products of numbers that stand a step apart. That the counts are equal is a clause: two, three and four lists
// meet here, and as a ghost field it would need a struct for each of the three.
ghost use Rattle.std.specs.Prelude.{◌≡◌};
ghost use Rattle.std.specs.Float.{binary64};
ghost use Rattle.model.specs.Arith.{inner_prod};
ghost use Rattle.model.specs.Vectors.{split_prod};
ghost use Rattle.solve.specs.Numbers.{numbers};

use crate::strided::Strided;

// From +0, left to right. By index, here and below: `step_by` wants a step that is not 0, which a Strided does not
// say, and four lists would be a zip of zips.
#[tactic(auto, using(crate::proofs::Sums::all, crate::proofs::Sums::next, crate::proofs::Sums::done))]
pub fn inner_prod(lhs: Strided, rhs: Strided) -> f64
    requires { rhs.count ≡ lhs.count }
    ensures { result ≡ inner_prod binary64 (numbers lhs.entry) (numbers rhs.entry) lhs.entry.count }
{
    let mut acc = 0.0;
    for i in 0..lhs.count {
        acc += lhs.at(i) * rhs.at(i);
    }
    acc
}

// The results of dot2x1.
#[derive(Clone, Copy)]
pub struct Two {
    pub d0: f64,
    pub d1: f64,
}

// Two rows of lhs, each with rhs: the products at even places and those at odd places are summed apart, and added last.
#[tactic(auto, using(crate::proofs::Sums::halves_all, crate::proofs::Sums::halves_next, crate::proofs::Sums::halves_last, crate::proofs::Sums::halves_done))]
pub fn dot2x1(lhs0: Strided, lhs1: Strided, rhs: Strided) -> Two
    requires { (lhs1.count ≡ lhs0.count) × (rhs.count ≡ lhs0.count) }
    ensures { (result.d0 ≡ split_prod binary64 (numbers lhs0.entry) (numbers rhs.entry) lhs0.entry.count) × (result.d1 ≡ split_prod binary64 (numbers lhs1.entry) (numbers rhs.entry) lhs0.entry.count) }
{
    let n = lhs0.count;
    let mut acc00 = 0.0;
    let mut acc01 = 0.0;
    let mut acc10 = 0.0;
    let mut acc11 = 0.0;
    for k in 0..n / 2 {
        let i = 2 * k;
        acc00 += lhs0.at(i) * rhs.at(i);
        acc10 += lhs1.at(i) * rhs.at(i);
        acc01 += lhs0.at(i + 1) * rhs.at(i + 1);
        acc11 += lhs1.at(i + 1) * rhs.at(i + 1);
    }
    if n % 2 == 1 {
        acc00 += lhs0.at(n - 1) * rhs.at(n - 1);
        acc10 += lhs1.at(n - 1) * rhs.at(n - 1);
    }
    Two {
        d0: acc00 + acc01,
        d1: acc10 + acc11,
    }
}

// The results of dot2x2.
#[derive(Clone, Copy)]
pub struct Four {
    pub d00: f64,
    pub d10: f64,
    pub d01: f64,
    pub d11: f64,
}

// Two rows of lhs with two of rhs, each from +0, left to right: the two of lhs with rhs0, then with rhs1.
// In one loop, as four inner_prods take a third longer for all vectors of 64 rows in 2-blocks.
#[tactic(auto, using(crate::proofs::Sums::all, crate::proofs::Sums::next, crate::proofs::Sums::done))]
pub fn dot2x2(lhs0: Strided, lhs1: Strided, rhs0: Strided, rhs1: Strided) -> Four
    requires { (lhs1.count ≡ lhs0.count) × (rhs0.count ≡ lhs0.count) × (rhs1.count ≡ lhs0.count) }
    ensures { (result.d00 ≡ inner_prod binary64 (numbers lhs0.entry) (numbers rhs0.entry) lhs0.entry.count) × (result.d10 ≡ inner_prod binary64 (numbers lhs1.entry) (numbers rhs0.entry) lhs0.entry.count) × (result.d01 ≡ inner_prod binary64 (numbers lhs0.entry) (numbers rhs1.entry) lhs0.entry.count) × (result.d11 ≡ inner_prod binary64 (numbers lhs1.entry) (numbers rhs1.entry) lhs0.entry.count) }
{
    let mut acc0 = 0.0;
    let mut acc1 = 0.0;
    let mut acc2 = 0.0;
    let mut acc3 = 0.0;
    for i in 0..lhs0.count {
        acc0 += lhs0.at(i) * rhs0.at(i);
        acc1 += lhs1.at(i) * rhs0.at(i);
        acc2 += lhs0.at(i) * rhs1.at(i);
        acc3 += lhs1.at(i) * rhs1.at(i);
    }
    Four {
        d00: acc0,
        d10: acc1,
        d01: acc2,
        d11: acc3,
    }
}
