// What is printed at the end: of each call the lines run and those that differ, and the sums. A row's
// name and numbers are worked out by functions of their own; the others only write.
ghost use Rattle.std.specs.Prelude.{◌≡◌};
ghost use Rattle.replay.specs.Report as Report;

use replay_text::count::{Count, Tally};
use replay_text::name::Call;
use std::io;

// The name of a row: a call's, or that of the sums.
fn title(row: Option<Call>) -> &'static [u8; 28]
    ensures { result.now ≡ Report.title row }
{
    match row {
        Some(call) => call.name(),
        None => b"all                         ",
    }
}

// The numbers of a row: a call's, or the sums over them.
fn number(row: Option<Call>, tally: &Tally) -> Count
    ensures { result ≡ Report.number row tally.now }
{
    match row {
        Some(call) => tally.of(call),
        None => tally.total(),
    }
}

// Writes a row.
fn write_row(out: &impl Print, row: Option<Call>, tally: &Tally) -> io::Result<()> {
    out.write_all(title(row))?;
    let Count { run, differ } = number(row, tally);
    println!(out; "{run} run, {differ} differ")
}

// Writes a row of each call, one of the sums, and how many lines were no line of a call.
pub fn report(out: &impl Print, tally: &Tally) -> io::Result<()> {
    for call in Call::ALL {
        write_row(out, Some(call), tally)?;
    }
    write_row(out, None, tally)?;
    let refused = tally.refused;
    println!(out; "{refused} lines are no line of a call")
}
