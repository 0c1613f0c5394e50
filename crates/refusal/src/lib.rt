// Offered: why a call is turned away, the first line of document 01's list that applies.
#![tactic(auto)]

ghost use Rattle.refusal.specs.Line.{line, answer};
ghost use Rattle.std.specs.Prelude.{◌≡◌};

// The lines of the list, each by what is wrong. `Text` is said of what a program is given, and by no call.
#[derive(Clone, Copy, Debug, PartialEq, Eq)]
pub enum Refusal {
    Text = 1,
    RowCount = 2,
    FormLength = 3,
    BufferLength = 4,
    DeepEntry = 5,
    TouchingBlocks = 6,
    Position = 7,
    BlockSizes = 8,
    RowsBeyond = 9,
    AcrossBlock = 10,
    TailLength = 11,
    MoveList = 12,
    Stride = 17,
}

// The line's number.
impl From<Refusal> for usize {
    ghost from_gives = { λ r n. n ≡ line r };

    fn from(r: Refusal) -> usize {
        r as usize
    }
}

// What a call answers in C: 0 where it was accepted, and else the line's number.
pub fn number<T>(r: &Result<T, Refusal>) -> usize
    ensures { result ≡ answer r.now }
{
    match r {
        Ok(_) => 0,
        Err(refusal) => usize::from(*refusal),
    }
}
