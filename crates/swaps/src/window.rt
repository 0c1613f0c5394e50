// N rows and columns of a form by value, tried before anything is written.
ghost use Rattle.std.specs.Prelude.{◌≡◌};
ghost use Rattle.swaps.specs.Lines.{Inside};
ghost use Rattle.swaps.specs.Windows.{window_of, transposed, changed, tried, largest, threshold};
ghost use Rattle.form.specs.Shaped.{Holds};

use crate::kernels::Kernel;
use arith::real::{EPS, MIN_POSITIVE, abs, fmax};
use form::shape::Shape;

// Column after column.
#[derive(Clone, Copy)]
pub struct Window<const N: usize> {
    pub columns: [[f64; N]; N],
}

// Windows are filled by index: `map` asks that its arrays fit in memory, which no N by itself ensures, and of
// `array::from_fn` each closure, as it calls or indexes, would need a contract that repeats the loop's one line.
impl<const N: usize> Window<N> {
    // The numbers in these rows and the same columns, in this order.
    pub fn of(s: Shape, t: &[f64], rows: [usize; N]) -> Self
        requires { Holds s t.now × Inside N rows s.n }
        ensures { result.columns ≡ window_of N s.ld t.now rows.entry }
    {
        let mut columns = [[0.0; N]; N];
        for c in 0..N {
            let mut column = [0.0; N];
            for r in 0..N {
                column[r] = s.get(t, rows[r], rows[c]);
            }
            columns[c] = column;
        }
        Window { columns }
    }

    // The window with rows for columns.
    pub(crate) fn transposed(self) -> Self
        ensures { result.columns ≡ transposed N self.entry.columns }
    {
        let mut columns = [[0.0; N]; N];
        for c in 0..N {
            let mut column = [0.0; N];
            for r in 0..N {
                column[r] = self.columns[r][c];
            }
            columns[c] = column;
        }
        Window { columns }
    }

    // Each column changed.
    fn changed<K: Kernel<N>>(self, k: K) -> Self
        ensures { result.columns ≡ changed N (K.gives k) self.entry.columns }
    {
        let mut columns = self.columns;
        for c in 0..N {
            columns[c] = k.apply(self.columns[c]);
        }
        Window { columns }
    }

    // The window as the exchange would leave it.
    pub fn tried<K: Kernel<N>>(self, k: K) -> Self
        ensures { result.columns ≡ tried N (K.gives k) self.entry.columns }
    {
        let rows = self.changed(k).transposed();
        rows.changed(k).transposed()
    }

    // The largest magnitude.
    fn largest(self) -> f64
        ensures { result ≡ largest N N self.entry.columns }
    {
        let mut m = 0.0;
        for column in &self.columns {
            for x in column {
                m = fmax(m, abs(*x));
            }
        }
        m
    }

    // What a test's numbers may not exceed.
    pub fn threshold(self) -> f64
        ensures { result ≡ threshold N self.entry.columns }
    {
        fmax(10.0 * EPS * self.largest(), MIN_POSITIVE / EPS)
    }
}
