//! The settings of a run.
ghost use Rattle.std.specs.Prelude.{◌≡◌, if◌then◌else◌};
ghost use Rattle.program_files.specs.Asked.{HasSettings};

use crate::plans::AskedPlan;
use crate::reading::ProgramFiles;
use command_line::Program;
use machine::{Format, GuestFiles, Settings};

/// What the guest is given.
pub fn guest_files(files: &ProgramFiles) -> GuestFiles<'_>
    ensures image { result.image.now ≡ files.now.image.items }
    ensures input { result.input.now ≡ files.now.input.items }
{
    GuestFiles {
        image: &files.image,
        input: &files.input,
    }
}

/// How the image is read.
pub fn format_of(program: &Program<'_>) -> Format
    ensures { result ≡ (if program.now.flat then Format.Flat else Format.Elf) }
{
    if program.flat {
        Format::Flat
    } else {
        Format::Elf
    }
}

/// What the command line says of the run, with its plan.
pub fn settings_of<'a>(program: &Program<'_>, plan: &'a AskedPlan) -> Settings<'a>
    ensures { HasSettings program.now plan.now.text.items plan.now.budget result }
{
    Settings {
        format: format_of(program),
        harts: program.harts,
        pages: program.pages,
        rounds: program.rounds,
        workers: program.workers,
        budget: plan.budget,
        plan: plan.text.as_slice(),
    }
}
