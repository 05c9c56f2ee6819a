ghost use Rattle.std.specs.Prelude.{◌≡◌, ◌≤◌, ◌↔◌, IsTrue, length, map};
ghost use Rattle.recording.specs.Grammar.{recording};
ghost use Rattle.recording.specs.Views.{checkpoint_view, as_recorded};

use std::marker::Model;

/// What a recording keeps of a hart after a round.
#[derive(Clone, Copy, PartialEq, Eq)]
pub struct HartSummary {
    /// The address of the next instruction.
    pub pc: u64,
    /// How many instructions the hart has done, modulo 2^64.
    pub done: u64,
    /// Why it has stopped, and 0 while it runs.
    pub code: u8,
    /// The value that the exit call gave, and 0 with every other code than 1.
    pub value: u64,
}

/// What a recording keeps of the state after a round.
pub struct Summary {
    /// How many bytes of output there are.
    pub output: u64,
    /// How many events the trace has.
    pub trace: u64,
    /// The harts, in hart order.
    pub harts: Vec<HartSummary>,
}

// By hand, so that a proof has one step for it wherever one is dropped, in this crate and above.
impl Drop for Summary {
    fn drop(self) {
        let Summary {
            output: _,
            trace: _,
            harts,
        } = self;
        drop(harts);
    }
}

/// What a recording keeps of a round.
pub struct Checkpoint {
    /// The summary of the state after it.
    pub summary: Summary,
    /// Where they are due, registers x1 to x31 of each hart.
    pub registers: Option<Vec<Vec<u64>>>,
}

// By hand, so that a proof has one step for it wherever one is dropped, in this crate and above.
impl Drop for Checkpoint {
    fn drop(self) {
        let Checkpoint { summary, registers } = self;
        drop(summary);
        drop(registers);
    }
}

/// The fields of a recording, whatever their values.
#[derive(Drop)]
pub struct RecordingFields {
    /// The version of its text, 1 or 2.
    pub version: u32,
    /// How the image is read: 0 as an ELF file, 1 as a flat file.
    pub format: u8,
    /// How many harts there are, 1 to 64.
    pub harts: u32,
    /// How many pages of 4,096 bytes guest memory has, 1 to 16,384.
    pub pages: u32,
    /// How many rounds were done.
    pub rounds: u32,
    /// How many instructions a waiting hart may do in its serial turn, 1 to 1,000; 1 in version 1.
    pub budget: u32,
    /// Registers are recorded after each round whose number is a multiple of this, and after none where it is 0, as in version 1.
    pub every: u32,
    /// The file of the guest program.
    pub image: Vec<u8>,
    /// What the guest reads.
    pub input: Vec<u8>,
    /// The text of the plan.
    pub plan: Vec<u8>,
    /// What a recording has of each round, in turn.
    pub checkpoints: Vec<Checkpoint>,
}

/// A recording of a run: what the run was asked for, and what a recording has of the state after each round.
///
/// Each of its fields is in its range, so that it has a text.
pub struct Recording {
    fields: RecordingFields,
}

// By hand, so that a proof has one step for it wherever one is dropped, in this crate and above.
impl Drop for Recording {
    fn drop(self) {
        let Recording { fields } = self;
        drop(fields);
    }
}

impl Model for Recording {
    ghost use Rattle.recording.specs.Grammar.{recording};
    ghost use Rattle.recording.specs.Recorded.{Recorded};
    ghost use Rattle.recording.specs.Views.{as_recorded};

    ghost Value = { Recorded };

    ghost view = { λ r. as_recorded r.fields };

    ghost invariant = { λ r. recording.Has (as_recorded r.fields) };
}

impl Recording {
    /// The recording of these fields, each of which is in its range.
    pub fn of(fields: RecordingFields) -> Recording
        requires { recording.Has (as_recorded fields) }
        ensures { result ≡ as_recorded fields }
    {
        Recording { fields }
    }

    /// Its fields.
    pub(crate) fn fields(&self) -> &RecordingFields
        ensures view { as_recorded result.now ≡ self.now }
        ensures has { recording.Has (as_recorded result.now) }
    {
        &self.fields
    }

    /// Its fields, handed over.
    pub(crate) fn into_fields(self) -> RecordingFields
        ensures view { as_recorded result ≡ self }
        ensures has { recording.Has (as_recorded result) }
    {
        let Recording { fields } = self;
        fields
    }

    /// The version of its text, 1 or 2.
    pub fn version(&self) -> u32
        ensures { result ≡ self.now.version }
    {
        self.fields.version
    }

    /// Whether the image is a flat file; else it is an ELF file.
    pub fn is_flat(&self) -> bool
        ensures { IsTrue result ↔ self.now.format ≡ 1 }
    {
        self.fields.format == 1
    }

    /// How many harts there are, 1 to 64.
    pub fn harts(&self) -> u32
        ensures value { result ≡ self.now.harts }
        ensures range { (1 ≤ result) × (result ≤ 64) }
    {
        self.fields.harts
    }

    /// How many pages of 4,096 bytes guest memory has, 1 to 16,384.
    pub fn pages(&self) -> u32
        ensures value { result ≡ self.now.pages }
        ensures range { (1 ≤ result) × (result ≤ 16384) }
    {
        self.fields.pages
    }

    /// How many rounds were done.
    pub fn rounds(&self) -> u32
        ensures { result ≡ self.now.rounds }
    {
        self.fields.rounds
    }

    /// How many instructions a waiting hart may do in its serial turn, 1 to 1,000.
    pub fn budget(&self) -> u32
        ensures value { result ≡ self.now.budget }
        ensures range { (1 ≤ result) × (result ≤ 1000) }
    {
        self.fields.budget
    }

    /// Registers are recorded after each round whose number is a multiple of this, and after none where it is 0.
    pub fn every(&self) -> u32
        ensures { result ≡ self.now.every }
    {
        self.fields.every
    }

    /// The file of the guest program.
    pub fn image(&self) -> &[u8]
        ensures { result.now ≡ self.now.image }
    {
        self.fields.image.as_slice()
    }

    /// What the guest reads.
    pub fn input(&self) -> &[u8]
        ensures { result.now ≡ self.now.input }
    {
        self.fields.input.as_slice()
    }

    /// The text of the plan.
    pub fn plan(&self) -> &[u8]
        ensures { result.now ≡ self.now.plan }
    {
        self.fields.plan.as_slice()
    }

    /// What a recording has of each round, in turn.
    pub fn checkpoints(&self) -> &[Checkpoint]
        ensures value { map checkpoint_view result.now ≡ self.now.checkpoints }
        ensures count { length result.now ≡ self.now.rounds }
    {
        self.fields.checkpoints.as_slice()
    }
}
