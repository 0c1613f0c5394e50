// Program: reads a request from standard input and prints its sheet. All of the work is sheet_text's.
#![tactic(auto)]

ghost use Rattle.std.specs.Prelude.{◌≤◌, length};

use sheet_text::sheet::{SHEET_ROOM, TEXT_BYTES, sheet};
use std::io;
use std::io::Read;

// One byte more than a text may have: where it fills, the text is too long.
const TEXT_ROOM: usize = TEXT_BYTES + 1;

// Reads until the buffer is full or the input ends, and answers how many bytes it read. A read that
// fails counts as the end: `read_exact` and `io::copy` do not say how many bytes came before it.
fn read_full(input: &mut impl Read, buf: &mut [u8]) -> usize
    ensures { result ≤ length buf.new }
{
    let mut done = 0;
    while done < buf.len() {
        match input.read(&mut buf[done..]) {
            Ok(0) | Err(_) => break,
            Ok(n) => done += n,
        }
    }
    done
}

// There is room for any sheet, and nothing here allocates, so that `sheet` answers how long it is. A write that fails
// ends the program with its error.
fn main(rt: HostRuntime) -> io::Result<()> {
    let mut text = [0; TEXT_ROOM];
    let n = read_full(&mut rt.stdin(), &mut text);
    let mut out = [0; SHEET_ROOM];
    let k = sheet(&mut out, &text[..n]).unwrap();
    rt.write_all(&out[..k])
}
