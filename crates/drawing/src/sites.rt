//! What is known of the events of a picture beside the trace: the pc of each one's instruction, and the object that it touched.

ghost use Rattle.std.specs.Prelude.{◌≡◌, ◌≤◌, ◌-◌, Option, IfErr, IfOk, ℕ, length, map, option_map};
ghost use Rattle.round_schedule.specs.declared.event.Event.{Event};
ghost use Rattle.host_io.specs.declared.error.RunError.TheVariants as refusals;
ghost use Rattle.machine.specs.Machine.{Running, after_rounds};
ghost use Rattle.machine.specs.Untraced.{IsUntraced};
ghost use Rattle.elf_loader.specs.Offsets.{as_offset};
ghost use Rattle.picture.specs.Rows.{events_shown};
ghost use Rattle.picture.specs.Titles.{told};
ghost use Rattle.drawing.specs.Drawn.{object_touched, told_by, told_of};
ghost use Rattle.round_schedule.specs.Bounds.{AreWorkers};

use elf_loader::{SymbolOffset, find_object_offset};
use host_io::RunError;
use machine::{Format, Settings, UntracedMachine};
use pages::OutOfMemory;
use picture::{Site, View, events_shown};
use replayer::pcs_of_run;
use round_schedule::Event;
use std::alloc::Global;
use std::sync::Wait;
use std::thread::Threads;
use trace::Trace;

/// The object that an access touches, by its first byte: where the file is ELF, the one that its symbol table names.
pub fn object_touched<'a>(
    format: Format,
    image: &'a [u8],
    event: &Event,
) -> Option<SymbolOffset<'a>>
    ensures { option_map as_offset result ≡ object_touched format image.now event.now }
{
    match format {
        Format::Flat => None,
        Format::Elf => {
            if event.access.byte_count() == 0 {
                return None;
            }
            find_object_offset(image, event.access.address())
        }
    }
}

/// What is known of these events, of which these are the pcs.
fn sites_by<'a>(
    alloc: Global,
    format: Format,
    image: &'a [u8],
    events: &[Event],
    pcs: &[Option<u64>],
) -> Result<Vec<Site<'a>>, OutOfMemory>
    requires { length pcs.now ≡ length events.now }
    ensures { (f : Event → Option ℕ) → pcs.now ≡ map f events.now → IfOk result (λ v.
        map told v.items ≡ map (λ e. told_by format image.now e (f e)) events.now) }
{
    let mut sites = Vec::new(alloc);
    for (number, event) in events.iter().enumerate() {
        let site = Site {
            pc: pcs[number],
            object: object_touched(format, image, event),
        };
        sites.push(site)?;
    }
    Ok(sites)
}

/// What is known of each event that has a box in the picture of a run's trace, from a machine of the run before the first round that is
/// drawn. It is run on once.
pub(crate) fn sites_of<'a, R: Threads + Wait + Sync>(
    rt: &R,
    alloc: Global,
    image: &'a [u8],
    start: &mut UntracedMachine,
    trace: &Trace,
    settings: &Settings<'_>,
    view: &View<'_>,
) -> Result<Vec<Site<'a>>, RunError>
    requires workers { AreWorkers settings.now.workers }
    requires run { (m : Running) × IsUntraced (after_rounds start.old.rounds m) start.old }
    requires before { start.old.rounds ≤ view.now.from - 1 }
    ensures sites { (m : Running) → IsUntraced (after_rounds start.old.rounds m) start.old →
        IfOk result (λ v. map told v.items ≡
        map (told_of settings.now image.now m) (events_shown view.now trace.now.events)) }
    ensures stays { start.new ≡ start.old }
    ensures refused { IfErr result (λ e. e ≡ refusals.OutOfMemory) }
{
    let events = events_shown(alloc, trace, view)?;
    let pcs = pcs_of_run(rt, alloc, start, settings.rounds, &events, settings.workers)?;
    Ok(sites_by(alloc, settings.format, image, &events, &pcs)?)
}
