ghost use Rattle.std.specs.Prelude.{◌≡◌, ◌⊎◌, ◌≤◌, ◌+◌, ◌^◌, IfErr, IfOk, None};
ghost use Rattle.host_io.specs.declared.error.RunError.TheVariants as refusals;
ghost use Rattle.host_io.specs.declared.load_error.LoadError.{LoadError as ImageCause};
ghost use Rattle.machine.specs.Machine.{opening};
ghost use Rattle.round_planner.specs.Settings.{IsImageCause, IsPlan, IsReason, RefusedInOrder, image_for, settings_fault};
ghost use Rattle.machine.specs.Untraced.{IsUntraced};
ghost use Rattle.round_planner.specs.Quotas.{Planned};
ghost use Rattle.gdb_session.specs.Serving.{begun};
ghost use Rattle.gdb_runs.specs.Sessions.{IsReady, handed, image_of, is_elf};

use gdb_runs::Debugged;
use host_io::RunError;
use machine::{Format, Settings, load, prepare_untraced};
use pages::{MOST_PAGES, Range};
use std::alloc::Global;

/// The run that the settings ask for, before its first round.
///
/// # Errors
///
/// The refusals of the settings, then of the image, then of the plan; `RoundsExhausted` where it has more rounds than can be looked at;
/// `OutOfMemory`.
pub fn open(
    alloc: Global,
    image: &[u8],
    input: &[u8],
    settings: &Settings<'_>,
) -> Result<Debugged, RunError>
    ensures run { IfOk result (λ d. (plan : Planned) × IsPlan settings.now plan ×
        IsUntraced (opening (image_for settings.now image.now) input.now plan) d.timeline.start) }
    ensures rounds { IfOk result (λ d. d.timeline.rounds ≡ settings.now.rounds) }
    // A debugger is handed an ELF file, and no flat image.
    ensures image { IfOk result (λ d. image_of d ≡ handed settings.now.format image.now) }
    ensures ready { IfOk result (λ d. IsReady d begun.state.standing) }
    // Numbers out of range are refused first, then an image, and then a plan.
    ensures in_order { RefusedInOrder settings.now image.now result }
    // What is refused then is for a reason that stands, or for more rounds than can be looked at.
    ensures errors { settings_fault settings.now ≡ None →
        IfErr result (λ e. IsReason settings.now image.now e ⊎
        ((e ≡ refusals.RoundsExhausted) × (2 ^ 32 ≤ settings.now.rounds + 2))) }
{
    let machine = prepare_untraced(alloc, image, input, settings)?;
    if settings.rounds >= u32::MAX - 1 {
        return Err(RunError::RoundsExhausted);
    }
    let (code, bytes) = copies_of(alloc, image, settings)?;
    let (rounds, workers) = (settings.rounds, settings.workers);
    let is_elf = is_elf(settings.format);
    Ok(Debugged::new(machine, code, rounds, workers, bytes, is_elf)?)
}

/// The ranges of an image's code, and the image itself.
fn copies_of(
    alloc: Global,
    image: &[u8],
    settings: &Settings<'_>,
) -> Result<(Vec<Range>, Vec<u8>), RunError>
    requires pages { (1 ≤ settings.now.pages) × (settings.now.pages ≤ MOST_PAGES) }
    ensures code { IfOk result (λ x. x.0.items ≡ (image_for settings.now image.now).code) }
    ensures image { IfOk result (λ x. x.1.items ≡ image.now) }
    ensures errors { IfErr result (λ e. (e ≡ refusals.OutOfMemory) ⊎ ((cause : ImageCause) ×
        IsImageCause settings.now image.now cause × (e ≡ refusals.Image cause))) }
{
    let loaded = load(alloc, settings.format, image, settings.pages)?;
    let code = Vec::from_slice(alloc, loaded.code());
    let bytes = Vec::from_slice(alloc, image);
    drop(loaded);
    match (code, bytes) {
        (Ok(code), Ok(bytes)) => Ok((code, bytes)),
        _ => Err(RunError::OutOfMemory),
    }
}

/// Whether an image is an ELF file.
fn is_elf(format: Format) -> bool
    ensures { result ≡ is_elf format }
{
    matches!(format, Format::Elf)
}
