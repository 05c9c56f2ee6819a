//! Answers, as text with the exit status.
ghost use Rattle.std.specs.Prelude.{◌≡◌, IfOk};
ghost use Rattle.past_commands.specs.Answers.{number_line, verdict_status, verdict_text};

use pages::OutOfMemory;
use program_files::ExitStatus;
use replayer::Verdict;
use report_lines::{Line, count_line};
use std::alloc::Global;

/// What is printed, and what the program ends with then.
#[derive(Drop)]
pub struct Answer {
    /// The text.
    pub text: Line,
    /// The exit status.
    pub status: ExitStatus,
}

/// Whether the run is the recorded one.
pub(crate) fn verdict_answer(alloc: Global, verdict: Verdict) -> Result<Answer, OutOfMemory>
    ensures text { IfOk result (λ a. a.text ≡ verdict_text verdict) }
    ensures status { IfOk result (λ a. a.status ≡ verdict_status verdict) }
{
    match verdict {
        Verdict::Same => Ok(Answer {
            text: word_line(alloc, "same\n")?,
            status: ExitStatus::Done,
        }),
        Verdict::Differs(round) => Ok(Answer {
            text: number_line(alloc, "differs ", u64::from(round))?,
            status: ExitStatus::Differs,
        }),
    }
}

/// A line of a word.
pub(crate) fn word_line(alloc: Global, word: &str) -> Result<Line, OutOfMemory>
    ensures { IfOk result (λ l. l ≡ word.now) }
{
    let mut line = Line::new(alloc);
    line.text(word)?;
    Ok(line)
}

/// A line of a word and a number.
pub(crate) fn number_line(alloc: Global, word: &str, number: u64) -> Result<Line, OutOfMemory>
    ensures { IfOk result (λ l. l ≡ number_line word.now number) }
{
    let mut line = Line::new(alloc);
    count_line(&mut line, word, number)?;
    Ok(line)
}
