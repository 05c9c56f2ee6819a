ghost use Rattle.std.specs.Prelude.{◌≡◌, ◌≤◌, ◌<◌, ◌+◌, ◌^◌, length, if◌then◌else◌, IfOk, Some, None};
ghost use Rattle.machine.specs.Machine.{Running};
ghost use Rattle.machine.specs.Untraced.{IsUntraced};
ghost use Rattle.std.specs.Option.{option_map};
ghost use Rattle.gdb_runs.specs.Sessions.{OfRun, hart_seen, image_of};
ghost use Rattle.round_schedule.specs.Bounds.{AreWorkers};

use hart_step::Hart;
use machine::UntracedMachine;
use pages::{OutOfMemory, Range};
use past_harts::Point;
use std::sync::Wait;
use std::thread::Threads;
use timelines::{Timeline, of_memory};

/// A recorded run that a debugger looks at.
pub struct Debugged {
    /// The run.
    pub timeline: Timeline,
    /// How many harts it has.
    pub harts: u32,
    /// On how many workers its rounds are run, 1 to 16.
    pub workers: u32,
    /// The machine before the first round.
    pub start: UntracedMachine,
    /// The program's image.
    pub image: Vec<u8>,
    /// Whether a debugger is handed the image.
    pub hands_image: bool,
}

// By hand, so that a proof has one step for it wherever one is dropped, in this crate and above.
impl Drop for Debugged {
    fn drop(self) {
        let Debugged {
            timeline,
            harts: _,
            workers: _,
            start,
            image,
            hands_image: _,
        } = self;
        drop(timeline);
        drop(start);
        drop(image);
    }
}

impl Debugged {
    /// So many rounds of the run of a machine before its first one, which has this code. A debugger is
    /// handed the image, or isn't.
    pub fn new(
        mut machine: UntracedMachine,
        code: Vec<Range>,
        rounds: u32,
        workers: u32,
        image: Vec<u8>,
        hands_image: bool,
    ) -> Result<Debugged, OutOfMemory>
        requires run { (m : Running) × IsUntraced m machine }
        requires fresh { machine.rounds ≡ 0 }
        requires code { (m : Running) → IsUntraced m machine → m.code ≡ code.items }
        requires rounds { rounds + 1 < 2 ^ 32 }
        ensures start { IfOk result (λ d. d.timeline.start ≡ machine) }
        ensures rounds { IfOk result (λ d. d.timeline.rounds ≡ rounds) }
        ensures harts { IfOk result (λ d. d.harts ≡ length machine.harts) }
        ensures workers { IfOk result (λ d. d.workers ≡ workers) }
        ensures machine { IfOk result (λ d. d.start ≡ machine) }
        ensures image { IfOk result (λ d. image_of d
            ≡ (if hands_image then Some image.items else None)) }
    {
        // At most 64, as many as the plan says.
        let _harts = machine.plan().harts();
        let harts = machine.harts().len() as u32;
        match timeline_of(&mut machine, code, rounds) {
            Ok(timeline) => Ok(Debugged {
                timeline,
                harts,
                workers,
                start: machine,
                image,
                hands_image,
            }),
            Err(error) => Err(error),
        }
    }

    /// The image that a debugger is handed.
    pub fn image(&self) -> Option<&[u8]>
        ensures { option_map (λ bytes. bytes.now) result ≡ image_of self.now }
    {
        if self.hands_image {
            Some(self.image.as_slice())
        } else {
            None
        }
    }

    /// A hart at a point; none where there is no such hart or moment. It may wait.
    pub fn hart_at<R: Threads + Wait + Sync>(
        &mut self,
        rt: &R,
        point: &Point,
        number: u32,
    ) -> Result<Option<Hart>, OutOfMemory>
        requires within { point.now.moment.rounds ≤ self.old.timeline.rounds }
        requires workers { AreWorkers self.old.workers }
        ensures stays { self.new ≡ self.old }
        ensures hart { OfRun self.old (λ r.
            IfOk result (λ h. h ≡ hart_seen r.run point.now number)) }
    {
        match self.timeline.shown_at(rt, point, number, self.workers)? {
            Some(sight) => Ok(Some(sight.hart())),
            None => Ok(None),
        }
    }
}

/// So many rounds of the run of a machine before its first one, which has this code.
fn timeline_of(
    machine: &mut UntracedMachine,
    code: Vec<Range>,
    rounds: u32,
) -> Result<Timeline, OutOfMemory>
    requires run { (m : Running) × IsUntraced m machine.old }
    requires fresh { machine.old.rounds ≡ 0 }
    requires code { (m : Running) → IsUntraced m machine.old → m.code ≡ code.items }
    requires rounds { rounds + 1 < 2 ^ 32 }
    ensures stays { machine.new ≡ machine.old }
    ensures start { IfOk result (λ t. t.start ≡ machine.old) }
    ensures rounds { IfOk result (λ t. t.rounds ≡ rounds) }
{
    let start = of_memory(machine.share())?;
    Timeline::new(start, code, rounds)
}
