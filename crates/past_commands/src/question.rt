ghost use Rattle.std.specs.Prelude.{◌≡◌};
ghost use Rattle.past_commands.specs.Questions.{question_of};

use command_line::Replay;

/// What of a hart's past in a recorded run a line asks for.
#[derive(Clone, Copy)]
pub(crate) enum Question {
    /// The hart before its instruction at this place.
    Before(u64),
    /// How many instructions it did in this round.
    Count(u32),
    /// The hart within this round.
    Within(u32),
}

/// What the line asks for; `None` where it asks whether the run is the recorded one.
pub(crate) fn question_of(asked: &Replay<'_>) -> Option<Question>
    ensures { result ≡ question_of asked.now.place asked.now.round asked.now.how_many }
{
    match (asked.place, asked.round) {
        (Some(place), _) => Some(Question::Before(place)),
        (None, Some(round)) if asked.how_many => Some(Question::Count(round)),
        (None, Some(round)) => Some(Question::Within(round)),
        (None, None) => None,
    }
}
