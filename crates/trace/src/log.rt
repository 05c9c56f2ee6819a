//! A log: the accesses of a hart, as a trace takes them over.

ghost use Rattle.std.specs.Prelude.{◌≡◌, ◌<◌, [], length, slice_index_or, IfOk, IfSome};
ghost use Rattle.trace.specs.LentLogs.{accesses_lent};
ghost use Rattle.trace.specs.Logs.{accesses_in};

use crate::access_slice::AccessSlice;
use crate::brief_log::BriefLog;
use pages::OutOfMemory;
use round_schedule::Access;
use std::alloc::Global;
use std::marker::Model;
use std::mem;
use std::sync::Arc;

/// The accesses of one hart in one phase of a round, in program order.
pub struct Log {
    contents: Contents,
}

// By hand, so that a proof has one step for it wherever one is dropped, in this crate and above.
impl Drop for Log {
    fn drop(self) {
        let Log { contents } = self;
        drop(contents);
    }
}

/// How a log stores its accesses.
#[derive(Drop)]
pub(crate) enum Contents {
    Nothing,
    /// As the hart left them.
    Own(Vec<Access>),
    /// In brief. Copies share them.
    Brief(Arc<BriefLog>),
}

impl Model for Log {
    ghost use Rattle.std.specs.Prelude.{List};
    ghost use Rattle.round_schedule.specs.declared.access.Access.{Access as AccessOf};
    ghost use Rattle.trace.specs.Logs.{accesses_in};

    ghost Value = { List AccessOf };

    ghost view = { λ l. accesses_in l.contents };
}

impl Log {
    /// The log of these accesses. This takes no memory.
    pub fn of(accesses: Vec<Access>) -> Log
        ensures { result ≡ accesses.items }
    {
        Log {
            contents: Contents::Own(accesses),
        }
    }

    /// A log with copies of these accesses.
    ///
    /// # Errors
    ///
    /// `OutOfMemory`.
    pub fn copied(alloc: Global, accesses: &[Access]) -> Result<Log, OutOfMemory>
        ensures { IfOk result (λ l. l ≡ accesses.now) }
    {
        Ok(Log::of(Vec::from_slice(alloc, accesses)?))
    }

    /// A log of these accesses in the form that `share` puts them into, where they have it, and else with copies of them.
    ///
    /// # Errors
    ///
    /// `OutOfMemory`.
    pub fn in_brief(alloc: Global, accesses: &[Access]) -> Result<Log, OutOfMemory>
        ensures { IfOk result (λ l. l ≡ accesses.now) }
    {
        match brief_of(alloc, accesses)? {
            Some(contents) => Ok(Log { contents }),
            None => Log::copied(alloc, accesses),
        }
    }

    /// Puts plain loads and stores and fences into a form that takes less memory, and that the copies of a trace share. A log
    /// with another access, or with an address from 2^32 on, stays as it is; so may one whose places do not rise.
    ///
    /// # Errors
    ///
    /// `OutOfMemory`, and the log stays as it is.
    pub fn share(&mut self) -> Result<(), OutOfMemory>
        ensures { self.new ≡ self.old }
    {
        let Contents::Own(accesses) = &self.contents else {
            return Ok(());
        };
        if let Some(contents) = brief_of(*accesses.allocator(), accesses)? {
            self.contents = contents;
        }
        Ok(())
    }

    /// How many accesses there are.
    pub fn len(&self) -> usize
        ensures { result ≡ length self.now }
    {
        match &self.contents {
            Contents::Nothing => 0,
            Contents::Own(accesses) => accesses.len(),
            Contents::Brief(log) => log.len(),
        }
    }

    /// The access at an index, counted from 0.
    pub fn get(&self, index: usize) -> Access
        requires { index < length self.now }
        ensures { result ≡ slice_index_or self.now index result }
    {
        self.accesses().get(index)
    }

    /// The accesses.
    pub(crate) fn accesses(&self) -> AccessSlice<'_>
        ensures { accesses_lent result ≡ self.now }
    {
        match &self.contents {
            Contents::Nothing => AccessSlice::Whole(&[]),
            Contents::Own(accesses) => AccessSlice::Whole(accesses.as_slice()),
            Contents::Brief(log) => AccessSlice::Brief(log.lent()),
        }
    }

    /// Hands the accesses over, and leaves none. This takes no memory.
    pub fn take(&mut self) -> Log
        ensures taken { result ≡ self.old }
        ensures emptied { self.new ≡ [] }
    {
        mem::replace(
            self,
            Log {
                contents: Contents::Nothing,
            },
        )
    }

    /// An equal log.
    pub(crate) fn copy(&self) -> Result<Log, OutOfMemory>
        ensures { IfOk result (λ l. l ≡ self.now) }
    {
        let contents = match &self.contents {
            Contents::Nothing => Contents::Nothing,
            Contents::Own(accesses) => {
                Contents::Own(Vec::from_slice(*accesses.allocator(), accesses.as_slice())?)
            }
            Contents::Brief(log) => Contents::Brief(log.clone()?),
        };
        Ok(Log { contents })
    }
}

/// Accesses in brief, where there are some and each has a form in brief.
fn brief_of(alloc: Global, accesses: &[Access]) -> Result<Option<Contents>, OutOfMemory>
    ensures { IfOk result (λ r. IfSome r (λ contents. accesses_in contents ≡ accesses.now)) }
{
    if accesses.is_empty() {
        return Ok(None);
    }
    let Some(log) = BriefLog::of(alloc, accesses)? else {
        return Ok(None);
    };
    let log = Arc::new(alloc, log).map_err(|_| OutOfMemory)?;
    Ok(Some(Contents::Brief(log)))
}
