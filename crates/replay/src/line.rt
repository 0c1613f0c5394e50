// One line: its name is looked up, its words are read, the call is made, and the outcome counted.
ghost use Rattle.std.specs.Prelude.{◌≡◌, ◌+◌, ◌^◌, ◌<◌, ◌≤◌, IfSome, length, take};
ghost use Rattle.replay_text.specs.Names.{call_named};
ghost use Rattle.replay_text.specs.Text.{words_of};
ghost use Rattle.replay.specs.Replayed as Replayed;
ghost use Rattle.replay.specs.View.{desk};

use crate::table;
use replay_text::count::Tally;
use replay_text::name::{Call, call_named, name_end};
use replay_text::outcome::Outcome;
use replay_text::word::words;
use std::io;

// How many bytes of a line are to be told: its name and its index if it differs.
#[tactic(auto, unfolding(crate::specs::Replayed::told))]
fn told(end: usize, outcome: Outcome) -> Option<usize>
    requires { end + 17 < 2 ^ 64 }
    ensures value { result ≡ Replayed.told end outcome }
    ensures most { IfSome result (λ n. n ≤ end + 17) }
{
    (outcome == Outcome::Differs).then_some(end + 17)
}

// The room for a line's words, lent and of any length, and the counts. `same_room` says that a method leaves the desk
// the room it was lent.
#[derive(Drop)]
pub struct Desk<'a> {
    pub room: &'a mut [u64],
    pub tally: Tally,
}

impl Desk<'_> {
    // The call that a line names, and what the line shows of it. The first word is the line's index.
    fn shown(&mut self, line: &[u8], end: usize) -> Option<(Call, Outcome)>
        requires { end ≤ length line.now }
        ensures value { result ≡ Replayed.shown_by (call_named (take end line.now)) (words_of line.now end self.old.room.now) }
        ensures read { desk self.new ≡ record { words = (words_of line.now end self.old.room.now).out; tally = self.old.tally } }
        ensures index { IfSome result (λ p. end + 17 ≤ length line.now) }
        ensures same_room { self.new.room.ghost_name ≡ self.old.room.ghost_name }
    {
        let call = call_named(&line[..end]);
        let room = &mut *self.room;
        let n = words(line, end, &mut *room)?;
        let given = room.get(1..n)?;
        let call = call?;
        Some((call, table::run(call, given)))
    }

    // Runs a line, and adds it to the lines run and, if it came out otherwise, to those that differ.
    // Answers how many bytes of it are to be told.
    #[tactic(auto, using(replay_text::proofs::Names::name_bound), unfolding(crate::specs::Replayed::replayed, crate::specs::Replayed::showing))]
    pub fn replay(&mut self, line: &[u8]) -> Option<usize>
        ensures value { (record { told = result; desk = desk self.new }) ≡ Replayed.replayed line.now (desk self.old) }
        ensures inside { IfSome result (λ n. n ≤ length line.now) }
        ensures same_room { self.new.room.ghost_name ≡ self.old.room.ghost_name }
    {
        let end = name_end(line);
        let Some((call, outcome)) = self.shown(line, end) else {
            self.tally.refuse();
            return None;
        };
        self.tally.tally(call, outcome);
        told(end, outcome)
    }
}

// Writes the name and the index of a line that came out otherwise.
pub fn tell(out: &impl Print, head: &[u8]) -> io::Result<()> {
    out.write_all(b"differs: ")?;
    out.write_all(head)?;
    out.write_all(b"\n")
}
