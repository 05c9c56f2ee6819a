ghost use Rattle.std.specs.Prelude.{◌≡◌, ◌⊎◌, ◌+◌, ◌≤◌, ◌<◌, ◌^◌, ◌++◌, Err, IfErr, IfOk, Ok, OnOk, drop, map, take};
ghost use Rattle.host_io.specs.declared.load_error.LoadError.{LoadError as ImageCause};
ghost use Rattle.host_io.specs.declared.error.RunError.TheVariants as refusals;
ghost use Rattle.machine.specs.Machine.{Running, opening};
ghost use Rattle.round_planner.specs.Settings.{image_of};
ghost use Rattle.machine.specs.Untraced.{IsUntraced};
ghost use Rattle.hunter.specs.Hunts.{IsGuest, IsImageCause, ended_of, ending_by, ending_of_stop, family_of, seen_of};

use crate::finding::run_or_loop;
use crate::settings::HuntSettings;
use hart_step::{Hart, Stop};
use host_io::RunError;
use hunt_table::SeenRange;
use laid_image::LaidImage;
use machine::{UntracedMachine, load};
use pages::OutOfMemory;
use plan_hunt::{Ending, HartEnding, HuntObserver, PlanRuns, Runs};
use round_planner::{Family, Plan};
use std::alloc::Global;
use std::sync::Wait;
use std::thread::Threads;

/// A guest program that is run under the plans of a family.
#[derive(Drop)]
pub(crate) struct Guest<'a, O> {
    pub alloc: Global,
    pub settings: &'a HuntSettings,
    pub input: &'a [u8],
    /// Laid into memory once: each run begins with it.
    pub image: LaidImage,
    /// It is told how far runs are.
    pub observer: &'a O,
    ghost range: { IsGuest settings.now },
}

impl<O: HuntObserver> Runs for Guest<'_, O> {
    ghost use Rattle.round_planner.specs.Families.{family_plan};
    ghost use Rattle.hunter.specs.Hunts.{ends_from, family_of};

    ghost ends = { λ g n.
        ends_from g.settings.now g.image g.input.now (family_plan (family_of g.settings.now) n) };

    fn run<R: Threads + Wait + Sync>(&self, rt: &R, number: u32) -> Result<Ending, OutOfMemory> {
        self.run_under(rt, self.family().plan(self.alloc, number)?)
    }
}

impl<O: HuntObserver> PlanRuns for Guest<'_, O> {
    ghost use Rattle.hunter.specs.Hunts.{ends_from};

    ghost ends = { λ g. ends_from g.settings.now g.image g.input.now };

    fn run_under<R: Threads + Wait + Sync>(
        &self,
        rt: &R,
        plan: Plan,
    ) -> Result<Ending, OutOfMemory> {
        let mut machine = self.opening(plan)?;
        let loops = run_or_loop(
            rt,
            self.observer,
            self.alloc,
            &mut machine,
            self.settings.rounds,
        )?;
        ending_of(self.alloc, &machine, loops, &self.settings.header.ranges)
    }
}

impl<'a, O> Guest<'a, O> {
    /// The guest of a file, which is loaded once.
    ///
    /// # Errors
    ///
    /// The refusals of the image; `OutOfMemory`.
    pub(crate) fn load(
        alloc: Global,
        file: &[u8],
        input: &'a [u8],
        settings: &'a HuntSettings,
        observer: &'a O,
    ) -> Result<Guest<'a, O>, RunError>
        requires range { IsGuest settings.now }
        ensures image { IfOk result (λ g. g.image ≡
            image_of settings.now.format file.now settings.now.pages) }
        ensures input { IfOk result (λ g. g.input.now ≡ input.now) }
        ensures settings { IfOk result (λ g. g.settings.now ≡ settings.now) }
        ensures errors { IfErr result (λ e. (e ≡ refusals.OutOfMemory) ⊎ ((cause : ImageCause) ×
            IsImageCause settings.now file.now cause × (e ≡ refusals.Image cause))) }
        ensures refused { (cause : ImageCause) → IsImageCause settings.now file.now cause →
            (result ≡ Err (refusals.Image cause)) ⊎ (result ≡ Err refusals.OutOfMemory) }
    {
        let loaded = load(alloc, settings.format, file, settings.pages)?;
        let image = LaidImage::new(alloc, loaded)?;
        Ok(Guest {
            alloc,
            settings,
            input,
            image,
            observer,
        })
    }

    /// The family of its plans.
    pub(crate) fn family(&self) -> Family
        ensures { result ≡ family_of self.now.settings.now }
    {
        Family {
            seed: self.settings.header.seed,
            harts: self.settings.harts,
        }
    }

    /// The machine before the first round under a plan.
    fn opening(&self, plan: Plan) -> Result<UntracedMachine, OutOfMemory>
        ensures { IfOk result (λ u. IsUntraced (opening self.now.image self.now.input.now plan) u) }
    {
        let Ok(input) = Vec::from_slice(self.alloc, self.input) else {
            return Err(OutOfMemory);
        };
        refused(UntracedMachine::open_laid(self.alloc, &self.image, input, plan))
    }
}

/// The result of what is refused for want of memory alone.
fn refused<T>(answer: Result<T, RunError>) -> Result<T, OutOfMemory>
    ensures { IfOk result (λ v. answer ≡ Ok v) }
{
    match answer {
        Ok(value) => Ok(value),
        Err(_) => Err(OutOfMemory),
    }
}

/// How a hart ended, by whether its run goes round, and why it stopped.
fn ending_by(round: bool, stop: Option<Stop>) -> HartEnding
    ensures { result ≡ ending_by round stop }
{
    match stop {
        None if round => HartEnding::Loops,
        None => HartEnding::Runs,
        Some(stop) => HartEnding::Stopped(stop),
    }
}

/// How each hart ended, by whether its run goes round.
pub(crate) fn stops_by(
    alloc: Global,
    round: bool,
    harts: &[Hart],
) -> Result<Vec<HartEnding>, OutOfMemory>
    ensures { IfOk result (λ v. v.items ≡ map (λ h. ending_by round h.stop) harts.now) }
{
    match harts
        .iter()
        .map(|hart| ending_by(round, hart.stop))
        .collect(alloc)
    {
        Ok(stops) => Ok(stops),
        Err(_) => Err(OutOfMemory),
    }
}

/// How a hart ended, by why it stopped.
pub fn ending_of_stop(stop: Option<Stop>) -> HartEnding
    ensures { result ≡ ending_of_stop stop }
{
    ending_by(false, stop)
}

/// How each hart ended.
///
/// # Errors
///
/// `OutOfMemory` alone.
pub fn stops_of(alloc: Global, harts: &[Hart]) -> Result<Vec<HartEnding>, OutOfMemory>
    ensures { IfOk result (λ v. v.items ≡ map (λ h. ending_of_stop h.stop) harts.now) }
{
    stops_by(alloc, false, harts)
}

/// Adds the bytes of a range.
#[tactic(auto, using(crate::proofs::Seen::next_byte, crate::proofs::Seen::no_more_bytes))]
fn look(machine: &UntracedMachine, range: &SeenRange, seen: &mut Vec<u8>) -> Result<(), OutOfMemory>
    ensures { OnOk result (seen.new.items ≡
        seen.old.items ++ take range.now.length (drop range.now.address machine.now.bytes)) }
{
    for offset in 0..range.length {
        let Some(byte) = machine.byte(u64::from(range.address) + u64::from(offset)) else {
            return Ok(());
        };
        if seen.push(byte).is_err() {
            return Err(OutOfMemory);
        }
    }
    Ok(())
}

fn seen_of(
    alloc: Global,
    machine: &UntracedMachine,
    ranges: &[SeenRange],
) -> Result<Vec<u8>, OutOfMemory>
    ensures { IfOk result (λ v. v.items ≡ seen_of ranges.now machine.now.bytes) }
{
    let mut seen = Vec::new(alloc);
    for range in ranges {
        look(machine, range, &mut seen)?;
    }
    Ok(seen)
}

/// The ending of a run, by whether it goes round.
#[tactic(auto, unfolding(crate::specs::Hunts::ended_of))]
fn ending_of(
    alloc: Global,
    machine: &UntracedMachine,
    round: bool,
    ranges: &[SeenRange],
) -> Result<Ending, OutOfMemory>
    ensures { (m : Running) → IsUntraced m machine.now →
        IfOk result (λ e. e ≡ ended_of ranges.now round m) }
{
    let stops = stops_by(alloc, round, machine.harts())?;
    let Ok(output) = Vec::from_slice(alloc, machine.output()) else {
        return Err(OutOfMemory);
    };
    let seen = seen_of(alloc, machine, ranges)?;
    Ok(Ending::new(stops, output, seen))
}
