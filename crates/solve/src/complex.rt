// Complex numbers, each operation as the solver rounds it.
ghost use Rattle.std.specs.Prelude.{◌≡◌};
ghost use Rattle.std.specs.Float.{binary64};
ghost use Rattle.std.specs.Float.Ieee as Ieee;
ghost use Rattle.model.specs.Vectors as Vectors;
ghost use Rattle.solve.specs.View.{complex};

use arith::norm::hypot;
use arith::real::{EPS, abs2, mul_pow2};
use std::ops::{Mul, Sub};

#[derive(Clone, Copy)]
pub struct Complex {
    pub re: f64,
    pub im: f64,
}

impl Mul for Complex {
    type Output = Complex;

    ghost mul_gives = { λ x y z. complex z ≡ Vectors.complex_times binary64 (complex x) (complex y) };

    #[tactic(auto, unfolding(model::specs::Vectors::complex_times))]
    fn mul(self, y: Complex) -> Complex {
        Complex {
            re: self.re * y.re - self.im * y.im,
            im: self.re * y.im + self.im * y.re,
        }
    }
}

impl Mul<Complex> for f64 {
    type Output = Complex;

    ghost mul_gives = { λ k y z. complex z ≡ record { re = Ieee.mul binary64 k y.re; im = Ieee.mul binary64 k y.im } };

    fn mul(self, y: Complex) -> Complex {
        Complex {
            re: self * y.re,
            im: self * y.im,
        }
    }
}

impl Sub for Complex {
    type Output = Complex;

    ghost sub_gives = { λ x y z. complex z ≡ Vectors.complex_sub binary64 (complex x) y.re y.im };

    fn sub(self, y: Complex) -> Complex {
        Complex {
            re: self.re - y.re,
            im: self.im - y.im,
        }
    }
}

impl Complex {
    // The reciprocal, where z is the modulus.
    #[tactic(auto, unfolding(model::specs::Vectors::inverse_by))]
    fn inverse_by(self, z: f64) -> Complex
        ensures { complex result ≡ Vectors.inverse_by binary64 (complex self) z }
    {
        Complex {
            re: self.re / z / z,
            im: -self.im / z / z,
        }
    }

    // The same, of eps * norm where the modulus is below that.
    #[tactic(auto, unfolding(model::specs::Vectors::inverse))]
    pub fn inverse(self, norm: f64) -> Complex
        ensures { complex result ≡ Vectors.inverse binary64 norm (complex self) }
    {
        let z = hypot(self.re, self.im);
        if z < EPS * norm {
            let least = EPS * norm;
            return Complex { re: least, im: 0.0 }.inverse_by(least);
        }
        self.inverse_by(z)
    }

    // The determinant of a 2-block with this number twice on its diagonal, b above and c below.
    #[tactic(auto, unfolding(model::specs::Vectors::determinant))]
    pub fn determinant(self, b: f64, c: f64) -> Complex
        ensures { complex result ≡ Vectors.determinant binary64 (complex self) b c }
    {
        Complex {
            re: abs2(self.re) - abs2(self.im) - b * c,
            im: mul_pow2(self.re * self.im, 2.0),
        }
    }
}
