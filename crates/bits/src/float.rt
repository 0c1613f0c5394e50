// Words as numbers: an f64 by its bits, every NaN as one.
ghost use Rattle.std.specs.Prelude.{◌≡◌, map, length};
ghost use Rattle.std.specs.Float.{binary64};
ghost use Rattle.std.specs.Float.Ieee.{of_bits, nan_bits};

use crate::fill::fill;

// Whether w is a NaN's pattern.
pub fn is_nan(w: u64) -> bool
    ensures { result ≡ nan_bits binary64 w }
{
    w % 0x8000_0000_0000_0000 > 0x7ff0_0000_0000_0000
}

// The number of the bits w. A NaN's pattern of any payload is the one NaN.
pub fn float_of(w: u64) -> f64
    ensures { result ≡ of_bits binary64 w }
{
    if is_nan(w) {
        f64::NAN
    } else {
        f64::from_bits(w)
    }
}

// The numbers of all words.
pub fn floats_of(w: &[u64], out: &mut [f64])
    requires { length w.now ≡ length out.old }
    ensures { out.new ≡ map (of_bits binary64) w.now }
{
    fill(out, w, float_of);
}
