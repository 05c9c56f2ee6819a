//! Lines that repeat an execution that was found.

use command_line::Fences;
use hunt_commands::{line_of, quoted, weak_line_of};
use program_files::World;
use std::alloc::{AllocError, Global};
use std::fmt::Display;

/// The lines that make executions of a search again, but for their numbers.
#[derive(Drop)]
pub(crate) struct Repeating {
    /// The line that writes the execution of a number as it is drawn; none where fences are assumed, which no other command takes.
    drawn: Option<String>,
    /// The line of a search that tells and keeps the execution of one number.
    search: String,
    seed: u64,
}

impl Repeating {
    /// The lines of a search.
    ///
    /// # Errors
    ///
    /// The allocator's alone.
    pub fn of(alloc: Global, asked: &Fences<'_>) -> Result<Repeating, AllocError> {
        let drawn = if asked.as_if_fence.is_empty() {
            Some(weak_line_of(alloc, &asked.search.program, asked.steps)?)
        } else {
            None
        };
        Ok(Repeating {
            drawn,
            search: search_line_of(alloc, asked)?,
            seed: asked.search.seed,
        })
    }

    /// Tells the line that makes the execution of a number again, behind what is said of it. Where it is one that isn't as it was drawn, that
    /// is a search which keeps it.
    pub fn tell<W: World, D: Display + Drop>(
        &self,
        world: &W,
        said: D,
        number: u32,
        is_drawn: bool,
    ) {
        let seed = self.seed;
        match &self.drawn {
            Some(line) if is_drawn => {
                world.tell(format_args!("{said}: {line} --plan-number {number} --seed {seed}"));
            }
            _ => {
                let line = &self.search;
                world.tell(format_args!("{said}: {line} --first {number} --plans 1 --keep FOLDER"));
            }
        }
    }
}

/// The line of a search among executions like these, but for their numbers.
fn search_line_of(alloc: Global, asked: &Fences<'_>) -> Result<String, AllocError> {
    let program = &asked.search.program;
    let line = line_of(alloc, "fences", program, program.rounds)?;
    let (steps, seed) = (asked.steps, asked.search.seed);
    let mut line = format!(in alloc; "{line} --steps {steps} --seed {seed}")?;
    for bytes in &asked.search.seen {
        let (address, length) = (bytes.address, bytes.length);
        let option = format!(in alloc; " --see 0x{address:x} {length}")?;
        line.push_str(option.as_str())?;
    }
    for name in &asked.search.objects {
        add_option(alloc, &mut line, " --see-object ", name)?;
    }
    for word in &asked.as_if_fence {
        add_option(alloc, &mut line, " --as-if-fence ", word)?;
    }
    Ok(line)
}

/// Adds an option and its word.
fn add_option(
    alloc: Global,
    line: &mut String,
    option: &str,
    word: &str,
) -> Result<(), AllocError> {
    let word = quoted(alloc, word)?;
    line.push_str(option)?;
    line.push_str(word.as_str())?;
    Ok(())
}
