ghost use Rattle.std.specs.Prelude.{◌≡◌, IfOk};

use hart_step::Stop;
use pages::OutOfMemory;
use std::alloc::Global;

/// How a hart ends.
#[derive(Drop)]
pub struct HartEnd {
    /// How it stops.
    pub stop: Stop,
    /// What it put out.
    pub output: Vec<u8>,
}

impl HartEnd {
    ghost use Rattle.hart_ends.specs.Told.{end_told};

    /// The same once more.
    pub(crate) fn copy(&self, alloc: Global) -> Result<HartEnd, OutOfMemory>
        ensures { IfOk result (λ e. end_told e ≡ end_told self.now) }
    {
        Ok(HartEnd {
            stop: self.stop,
            output: Vec::from_slice(alloc, &self.output)?,
        })
    }
}

/// An ending of a guest, as a table of all endings has it.
#[derive(Drop)]
pub struct TableEnding {
    /// How each hart ends.
    pub harts: Vec<HartEnd>,
    /// The bytes of each range of memory that is looked at.
    pub seen: Vec<Vec<u8>>,
}
