// Inside (`swaps`, `walks`, `exchanges`, `schur`, `tries`, `stopping`, `lists`, `solve`, `evd`, `values`): what speaks
// of a form. The lines of document 01's list that it meets by itself, the places of its numbers, its blocks, and the
// lines of a move and an exchange.
#![tactic(auto)]

ghost use Rattle.std.specs.Prelude.{◌≡◌, ◌+◌, ◌-◌, ◌*◌, ◌<◌, ◌≤◌};

pub mod deep;
pub mod lines;
pub mod shape;

// Where row i, column j stands in a form, or a square in it, of n columns, ld places apart. A function, since
// a square of so few rows (`Leading` of `solve`) has no `Shape`: its last column may be cut off below them.
pub fn place(ld: usize, n: usize, i: usize, j: usize) -> usize
    requires { (ld ≤ 128) × (n ≤ 65) × (i ≤ 128) × (j < n) }
    ensures { (result ≡ i + ld * j) × (result + ld ≤ i + ld * n) }
{
    i + ld * j
}

// Where the rest of row i starts, from column j on: nothing is left of it where j is n, as if at a further column.
pub fn row_start(ld: usize, n: usize, i: usize, j: usize) -> usize
    requires { (ld ≤ 128) × (n ≤ 64) × (i < n) × (j ≤ n) }
    ensures { (result ≡ i + ld * j) × (result + ld * (n - j) < n + ld * n) }
{
    place(ld, n + 1, i, j)
}
