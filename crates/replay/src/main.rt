// Tests: runs stored vectors. Each line of standard input is a call's name, an index, what the call is
// given and what the Rust gave. It prints of each call how many lines were run and how many of
// them came out otherwise.
#![tactic(auto)]

mod line;
mod report;
mod table;

ghost use Rattle.std.specs.Prelude.{◌≡◌};
ghost use Rattle.replay.specs.Replayed as Replayed;
ghost use Rattle.replay.specs.View.{state};

use arrayvec::ArrayVec;
use line::Desk;
use replay_text::count::Tally;
use std::io;
use std::io::Read;

// How many words a line may have: those of two forms and two factors of 64 columns, 128 places apart, and of a list of
// 64 pairs with its results, twice. Nothing here allocates.
const WORDS: usize = 34000;

// How many bytes are enough for a line of WORDS words, of 17 bytes each, and its name.
const LINE: usize = 600000;

// The bytes of the line that is not ended, and the desk.
#[derive(Drop)]
struct State<'a> {
    line: ArrayVec<u8, LINE>,
    desk: Desk<'a>,
}

impl State<'_> {
    // Runs the line that has ended. One that fills its room is no line of a call. The error is of a line
    // that cannot be told.
    #[tactic(auto, unfolding(crate::specs::Replayed::run, crate::specs::Replayed::refused))]
    fn run_line(&mut self, out: &impl Print) -> io::Result<()>
        ensures value { state self.new ≡ record { line = self.old.line.items; desk = Replayed.run (state self.old) } }
        ensures same_room { self.new.desk.room.ghost_name ≡ self.old.desk.room.ghost_name }
    {
        if self.line.is_full() {
            self.desk.tally.refuse();
            return Ok(());
        }
        let line = self.line.as_slice();
        match self.desk.replay(line) {
            Some(told) => line::tell(out, &line[..told]),
            None => Ok(()),
        }
    }

    // Takes one byte of input: the line grows while there is room, or ends and is run.
    #[tactic(auto, unfolding(crate::specs::Replayed::taken, crate::specs::Replayed::ended))]
    fn take_byte(&mut self, out: &impl Print, b: u8) -> io::Result<()>
        ensures value { state self.new ≡ Replayed.taken b (state self.old) }
        ensures same_room { self.new.desk.room.ghost_name ≡ self.old.desk.room.ghost_name }
    {
        if b == b'\n' {
            let told = self.run_line(out);
            self.line.clear();
            return told;
        }
        if !self.line.is_full() {
            self.line.push(b);
        }
        Ok(())
    }

    // Takes the bytes of a chunk, all of them also where a line cannot be told.
    fn take_bytes(&mut self, out: &impl Print, chunk: &[u8]) -> io::Result<()>
        ensures value { state self.new ≡ Replayed.taken_all chunk.now (state self.old) }
        ensures same_room { self.new.desk.room.ghost_name ≡ self.old.desk.room.ghost_name }
    {
        let mut written = Ok(());
        for &b in chunk {
            written = self.take_byte(out, b).and(written);
        }
        written
    }

    // Takes the input to its end. A read that fails counts as the end; after a line that cannot be told
    // no more is read. What is read cannot be promised: some input leads from the state at entry to the
    // one at exit. A proved loop has to end, and nothing says that the input does: so the turns are
    // counted, to a number that no run reaches.
    fn take_input(&mut self, out: &impl Print, input: &mut impl Read) -> io::Result<()>
        ensures value { Replayed.Leads (state self.old) (state self.new) }
        ensures same_room { self.new.desk.room.ghost_name ≡ self.old.desk.room.ghost_name }
    {
        for _ in 0..u64::MAX {
            let mut chunk = [0u8; 65536];
            match input.read(&mut chunk) {
                Ok(0) | Err(_) => return Ok(()),
                Ok(n) => self.take_bytes(out, &chunk[..n])?,
            }
        }
        Ok(())
    }

    // The counts at the input's end: a line that is not ended is no line of a call.
    #[tactic(auto, unfolding(crate::specs::Replayed::closed))]
    fn close(&self) -> Tally
        ensures { result ≡ Replayed.closed (state self.now) }
    {
        let mut tally = self.desk.tally;
        if !self.line.is_empty() {
            tally.refuse();
        }
        tally
    }
}

// A write that fails ends the program with its error.
fn main(rt: HostRuntime) -> io::Result<()> {
    let mut room = [0; WORDS];
    let desk = Desk {
        room: &mut room,
        tally: Tally::new(),
    };
    let mut state = State {
        line: ArrayVec::new(),
        desk,
    };
    state.take_input(&rt, &mut rt.stdin())?;
    report::report(&rt, &state.close())
}
