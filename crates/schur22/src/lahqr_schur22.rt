// Standardising a 2-block: lahqr_schur22.
ghost use Rattle.std.specs.Prelude.{◌≡◌, ◌≤◌};
ghost use Rattle.std.specs.Float.{binary64};
ghost use Rattle.model.specs.Schur22 as Schur22;
ghost use Rattle.schur22.specs.View.{eigenvalues, values, block, scaled, standardised};

use arith::real::{EPS, abs, abs2, fmax, fmin, mul_pow2, recip};
use root::sqrt::sqrt;

// A real pair, or a complex pair: both diagonal numbers and the imaginary size.
#[derive(Clone, Copy)]
pub enum Eigenvalues {
    Real(f64, f64),
    Complex(f64, f64, f64),
}

// The real and the imaginary part of each value of a pair.
#[derive(Clone, Copy)]
pub struct Values {
    pub re1: f64,
    pub im1: f64,
    pub re2: f64,
    pub im2: f64,
}

// The four numbers, with the rotation that made them.
#[derive(Clone, Copy)]
pub struct Block {
    pub a: f64,
    pub b: f64,
    pub c: f64,
    pub d: f64,
    pub cs: f64,
    pub sn: f64,
}

// A block made standard, and its pair.
#[derive(Clone, Copy)]
pub struct Standardised {
    pub block: Block,
    pub eigenvalues: Eigenvalues,
}

// The four numbers as they came, in rows (a, b) and (c, d). Contracts name them one by one, as the definitions of
// model take them.
#[derive(Clone, Copy)]
struct Entries {
    a: f64,
    b: f64,
    c: f64,
    d: f64,
}

// What the rescaling brings within its bounds.
#[derive(Clone, Copy)]
struct Scaled {
    sigma: f64,
    temp: f64,
}

// 2^-485, the root of min_positive / eps, and its reciprocal.
const SAFMN2: f64 = 1.0010415475915505e-146;

const SAFMX2: f64 = 9.989595361011175e145;

impl From<Eigenvalues> for Values {
    ghost from_gives = { λ e v. values v ≡ Schur22.values_of binary64 (eigenvalues e) };

    #[tactic(auto, unfolding(model::specs::Schur22::values_of))]
    fn from(e: Eigenvalues) -> Values {
        match e {
            Eigenvalues::Real(a, d) => Values {
                re1: a,
                im1: 0.0,
                re2: d,
                im2: 0.0,
            },
            Eigenvalues::Complex(a, d, m) => Values {
                re1: a,
                im1: m,
                re2: d,
                im2: -m,
            },
        }
    }
}

// Whether just one of the two is above zero.
#[tactic(auto, unfolding(model::specs::Schur22::unlike_signs))]
fn unlike_signs(b: f64, c: f64) -> bool
    ensures { result ≡ Schur22.unlike_signs binary64 b c }
{
    (b > 0.0) != (c > 0.0)
}

// The smaller magnitude, negative where the signs are unlike.
#[tactic(auto, unfolding(model::specs::Schur22::bcmin_of))]
fn bcmin_of(b: f64, c: f64) -> f64
    ensures { result ≡ Schur22.bcmin_of binary64 b c }
{
    let bcmin = fmin(abs(b), abs(c));
    if unlike_signs(b, c) { -bcmin } else { bcmin }
}

// The number that decides: two real numbers where it is at least 4 eps.
#[tactic(auto, unfolding(model::specs::Schur22::z_of))]
fn z_of(p: f64, scale: f64, bcmax: f64, bcmin: f64) -> f64
    ensures { result ≡ Schur22.z_of binary64 p scale bcmax bcmin }
{
    (p / scale) * p + (bcmax / scale) * bcmin
}

// p plus the root of scale times the root of z, taken with p's sign.
#[tactic(auto, unfolding(model::specs::Schur22::shift_of))]
fn shift_of(p: f64, scale: f64, z: f64) -> f64
    ensures { result ≡ Schur22.shift_of binary64 p scale z }
{
    let t = sqrt(scale) * sqrt(z);
    if p < 0.0 { p + -t } else { p + t }
}

// Whether the scale meets the upper bound or the lower.
#[tactic(auto, using(crate::proofs::Safe::lower, crate::proofs::Safe::upper), unfolding(model::specs::Schur22::bound_met))]
fn bound_met(scale: f64) -> bool
    ensures { result ≡ Schur22.bound_met binary64 scale }
{
    scale >= SAFMX2 || scale <= SAFMN2
}

impl Scaled {
    // The larger of the two magnitudes.
    #[tactic(auto, unfolding(model::specs::Schur22::scale_of))]
    fn scale(self) -> f64
        ensures { result ≡ Schur22.scale_of (scaled self) }
    {
        fmax(abs(self.temp), abs(self.sigma))
    }

    // One round: down where the upper bound is met, up where only the lower is.
    #[tactic(auto, using(crate::proofs::Safe::lower, crate::proofs::Safe::upper), unfolding(model::specs::Schur22::rescale))]
    fn rescale(self, scale: f64) -> Scaled
        ensures { scaled result ≡ Schur22.rescale binary64 scale (scaled self) }
    {
        let factor = if scale >= SAFMX2 { SAFMN2 } else { SAFMX2 };
        Scaled {
            sigma: self.sigma * factor,
            temp: self.temp * factor,
        }
    }

    // At most twenty rounds, left as soon as neither bound is met. Document 01 names this form: a loop left from
    // inside by break with the scaled pair.
    fn rescaled(self) -> Scaled
        ensures { scaled result ≡ Schur22.rescaled binary64 20 (scaled self) }
    {
        let mut s = self;
        let mut left: usize = 20;
        loop {
            if left == 0 {
                break s;
            }
            let scale = s.scale();
            if !bound_met(scale) {
                break s;
            }
            s = s.rescale(scale);
            left -= 1;
        }
    }
}

// The cosine that makes the diagonal equal.
#[tactic(auto, unfolding(model::specs::Schur22::cs_of))]
fn cs_of(sigma: f64, tau: f64) -> f64
    ensures { result ≡ Schur22.cs_of binary64 sigma tau }
{
    sqrt(mul_pow2(1.0 + abs(sigma) / tau, 0.5))
}

// Its sine, negated where sigma is below zero.
#[tactic(auto, unfolding(model::specs::Schur22::sn_of))]
fn sn_of(sigma: f64, p: f64, tau: f64, cs: f64) -> f64
    ensures { result ≡ Schur22.sn_of binary64 sigma p tau cs }
{
    let sn = -p / (tau * cs);
    if sigma < 0.0 { -sn } else { sn }
}

// The root of |b| times the root of |c|, given, with the sign of c.
#[tactic(auto, unfolding(model::specs::Schur22::p_of))]
fn p_of(c: f64, sab: f64, sac: f64) -> f64
    ensures { result ≡ Schur22.p_of binary64 c sab sac }
{
    if c > 0.0 { sab * sac } else { -sab * sac }
}

// Whether neither is zero and their signs are alike.
#[tactic(auto, unfolding(model::specs::Schur22::splits))]
fn splits(b: f64, c: f64) -> bool
    ensures { result ≡ Schur22.splits binary64 b c }
{
    c != 0.0 && b != 0.0 && !unlike_signs(b, c)
}

impl Block {
    // A block of equal diagonal numbers that splits: c becomes zero.
    #[tactic(auto, unfolding(model::specs::Schur22::split))]
    fn split(self) -> Block
        ensures { block result ≡ Schur22.split binary64 (block self) }
    {
        let Block { a, b, c, d, cs, sn } = self;
        let sab = sqrt(abs(b));
        let sac = sqrt(abs(c));
        let p = p_of(c, sab, sac);
        let tau = recip(sqrt(abs(b + c)));
        let cs1 = sab * tau;
        let sn1 = sac * tau;
        Block {
            a: a + p,
            b: b - c,
            c: 0.0,
            d: d - p,
            cs: cs * cs1 - sn * sn1,
            sn: cs * sn1 + sn * cs1,
        }
    }

    // The block, split where it splits.
    #[tactic(auto, unfolding(model::specs::Schur22::split_if))]
    fn split_if(self) -> Block
        ensures { block result ≡ Schur22.split_if binary64 (block self) }
    {
        if splits(self.b, self.c) {
            self.split()
        } else {
            self
        }
    }

    // Complex when c is still not zero.
    #[tactic(auto, unfolding(model::specs::Schur22::eigenvalues_of))]
    fn eigenvalues(self) -> Eigenvalues
        ensures { eigenvalues result ≡ Schur22.eigenvalues_of binary64 (block self) }
    {
        if self.c != 0.0 {
            Eigenvalues::Complex(self.a, self.d, sqrt(abs(self.b)) * sqrt(abs(self.c)))
        } else {
            Eigenvalues::Real(self.a, self.d)
        }
    }
}

impl Entries {
    // Two real numbers, z now the shift.
    #[tactic(auto, unfolding(model::specs::Schur22::apart))]
    fn apart(self, z: f64, bcmax: f64, bcmin: f64) -> Block
        ensures { block result ≡ Schur22.apart binary64 self.b self.c self.d z bcmax bcmin }
    {
        let Entries { b, c, d, .. } = self;
        let tau = sqrt(abs2(c) + abs2(z));
        Block {
            a: d + z,
            b: b - c,
            c: 0.0,
            d: d - (bcmax / z) * bcmin,
            cs: z / tau,
            sn: c / tau,
        }
    }

    // Turned by cs and sn, both diagonal numbers then their mean.
    #[tactic(auto, unfolding(model::specs::Schur22::turned))]
    fn turned(self, cs: f64, sn: f64) -> Block
        ensures { block result ≡ Schur22.turned binary64 self.a self.b self.c self.d cs sn }
    {
        let Entries { a, b, c, d } = self;
        let aa = a * cs + b * sn;
        let bb = -a * sn + b * cs;
        let cc = c * cs + d * sn;
        let dd = -c * sn + d * cs;
        let temp = mul_pow2((aa * cs + cc * sn) + (-bb * sn + dd * cs), 0.5);
        Block {
            a: temp,
            b: bb * cs + dd * sn,
            c: -aa * sn + cc * cs,
            d: temp,
            cs,
            sn,
        }
    }

    // Complex, or real and close: the diagonal is made equal.
    #[tactic(auto, unfolding(model::specs::Schur22::close))]
    fn close(self) -> Block
        ensures { block result ≡ Schur22.close binary64 self.a self.b self.c self.d }
    {
        let apart = Scaled {
            sigma: self.b + self.c,
            temp: self.a - self.d,
        };
        let Scaled { sigma, temp } = apart.rescaled();
        let p = mul_pow2(temp, 0.5);
        let tau = sqrt(abs2(sigma) + abs2(temp));
        let cs = cs_of(sigma, tau);
        let sn = sn_of(sigma, p, tau, cs);
        self.turned(cs, sn).split_if()
    }

    // b and c not zero.
    #[tactic(auto, unfolding(model::specs::Schur22::full))]
    fn full(self) -> Block
        ensures { block result ≡ Schur22.full binary64 self.a self.b self.c self.d }
    {
        let Entries { a, b, c, d } = self;
        let p = (a - d) * 0.5;
        let bcmax = fmax(abs(b), abs(c));
        let bcmin = bcmin_of(b, c);
        let scale = fmax(abs(p), bcmax);
        let z = z_of(p, scale, bcmax, bcmin);
        if z >= 4.0 * EPS {
            self.apart(shift_of(p, scale, z), bcmax, bcmin)
        } else {
            self.close()
        }
    }

    // Equal diagonal numbers, and beside them unlike signs.
    #[tactic(auto, unfolding(model::specs::Schur22::is_standard))]
    fn is_standard(self) -> bool
        ensures { result ≡ Schur22.is_standard binary64 self.a self.b self.c self.d }
    {
        self.a == self.d && unlike_signs(self.b, self.c)
    }

    // The new numbers and the rotation.
    #[tactic(auto, unfolding(model::specs::Schur22::standard))]
    fn standard(self) -> Block
        ensures { block result ≡ Schur22.standard binary64 self.a self.b self.c self.d }
    {
        let Entries { a, b, c, d } = self;
        let same = Block {
            a,
            b,
            c,
            d,
            cs: 1.0,
            sn: 0.0,
        };
        if c == 0.0 {
            return same;
        }
        if b == 0.0 {
            return Block {
                a: d,
                b: -c,
                c: 0.0,
                d: a,
                cs: 0.0,
                sn: 1.0,
            };
        }
        if self.is_standard() {
            return same;
        }
        self.full()
    }
}

// The block of rows (a, b) and (c, d), standardised: the new numbers, the rotation and the pair, of
// which `Values` has the parts.
#[tactic(auto, unfolding(model::specs::Schur22::lahqr_schur22))]
pub fn lahqr_schur22(a: f64, b: f64, c: f64, d: f64) -> Standardised
    ensures standardised { standardised result ≡ Schur22.lahqr_schur22 binary64 a b c d }
    ensures values { Schur22.values_of binary64 (eigenvalues result.eigenvalues) ≡ Schur22.values_of binary64 (Schur22.lahqr_schur22 binary64 a b c d).eigenvalues }
{
    let block = Entries { a, b, c, d }.standard();
    Standardised {
        block,
        eigenvalues: block.eigenvalues(),
    }
}
