// What a line of a call shows.
ghost use Rattle.std.specs.Prelude.{◌≡◌, if◌then◌else◌};
ghost use Rattle.replay_text.specs.Shown.{judged_read};

// The call gives what is expected, or something else, or this is no line of the call.
#[derive(Clone, Copy, Debug, PartialEq, Eq)]
pub enum Outcome {
    Same,
    Differs,
    Malformed,
}

// Not `From<bool>`: there `Outcome::from(true)` would not show what is true.
pub fn judge(same: bool) -> Outcome
    ensures { result ≡ (if same then Outcome.Same else Outcome.Differs) }
{
    if same {
        Outcome::Same
    } else {
        Outcome::Differs
    }
}

// Of a line that is read part by part, up to a part that is not there: none is no line of the call. Not a `From`
// either: `Outcome::from(None)` would not show that.
pub fn judge_read(same: Option<bool>) -> Outcome
    ensures { result ≡ judged_read same }
{
    same.map_or(Outcome::Malformed, judge)
}
