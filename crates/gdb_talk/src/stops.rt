//! Breakpoints and watchpoints that come and go.

ghost use Rattle.std.specs.Prelude.{◌≡◌, ◌++◌, IfOk, MatchBool, MatchOption, OnErr, Some, codes};
ghost use Rattle.gdb_packets.specs.Writing.{packet_text};
ghost use Rattle.gdb_talk.specs.Stops.{IsUnchanged, changed_by, no_stops, stopping, with_one, without_one};
ghost use Rattle.gdb_talk.specs.Told.{why_told};

use crate::told::{named, why};
use crate::watchpoints::{watch_of, with_watch, without_watch};
use gdb_packets::Request;
use gdb_replies::{Reason, Reply, reply_text};
use hart_step::Hart;
use pages::OutOfMemory;
use std::alloc::Global;
use watching::Watchpoint;

/// Where a debugger's session is to stop.
#[derive(Drop)]
pub struct Stops {
    /// The addresses of breakpoints that gdb calls software breakpoints.
    pub software: Vec<u64>,
    /// Those of its hardware breakpoints.
    pub hardware: Vec<u64>,
    /// Its watchpoints.
    pub watches: Vec<Watchpoint>,
}

impl Stops {
    /// There are none.
    pub fn new(alloc: Global) -> Stops
        ensures { stopping result ≡ no_stops }
    {
        Stops {
            software: Vec::new(alloc),
            hardware: Vec::new(alloc),
            watches: Vec::new(alloc),
        }
    }

    /// Does what a request is to change of them, and answers it; none where it is none to change them.
    ///
    /// # Errors
    ///
    /// `OutOfMemory`: they stay as they are.
    pub fn change(
        &mut self,
        alloc: Global,
        request: Request,
    ) -> Result<Option<Vec<u8>>, OutOfMemory>
        ensures changes { IfOk result (λ done. MatchOption done
            (IsUnchanged (stopping self.old) request (stopping self.new))
            (λ text. (changed_by (stopping self.old) request ≡ Some (stopping self.new)) ×
            (text.items ≡ packet_text (codes "OK")))) }
        ensures refused { OnErr result (stopping self.new ≡ stopping self.old) }
    {
        let done = reply_text(alloc, &Reply::Done)?;
        if self.change_by(alloc, request)? {
            Ok(Some(done))
        } else {
            Ok(None)
        }
    }

    /// Does it; false where it is none to change them.
    fn change_by(&mut self, alloc: Global, request: Request) -> Result<bool, OutOfMemory>
        ensures changes { IfOk result (λ changes. MatchBool changes
            (changed_by (stopping self.old) request ≡ Some (stopping self.new))
            (IsUnchanged (stopping self.old) request (stopping self.new))) }
        ensures refused { OnErr result (stopping self.new ≡ stopping self.old) }
    {
        match request {
            Request::AddStop(address) => {
                self.software = with_one(alloc, &self.software, address)?;
            }
            Request::RemoveStop(address) => {
                self.software = without_one(alloc, &self.software, address)?;
            }
            Request::AddHardwareStop(address) => {
                self.hardware = with_one(alloc, &self.hardware, address)?;
            }
            Request::RemoveHardwareStop(address) => {
                self.hardware = without_one(alloc, &self.hardware, address)?;
            }
            Request::AddWatch(kind, address, count) => {
                let watch = watch_of(kind, address, count);
                self.watches = with_watch(alloc, &self.watches, watch)?;
            }
            Request::RemoveWatch(kind, address, count) => {
                let watch = watch_of(kind, address, count);
                self.watches = without_watch(alloc, &self.watches, watch)?;
            }
            _ => return Ok(false),
        }
        Ok(true)
    }

    /// The addresses of all breakpoints.
    ///
    /// # Errors
    ///
    /// `OutOfMemory` alone.
    pub fn addresses(&self, alloc: Global) -> Result<Vec<u64>, OutOfMemory>
        ensures { IfOk result (λ v. v.items ≡ (stopping self.now).software
            ++ (stopping self.now).hardware) }
    {
        let mut stops = Vec::from_slice(alloc, self.software.as_slice())?;
        stops.extend_from_slice(self.hardware.as_slice())?;
        Ok(stops)
    }

    /// Why one stands where this is told, by a watchpoint, by its index in the list, or at a hart.
    pub fn why(&self, watch: Option<usize>, hart: Option<Hart>) -> Reason
        ensures { result ≡ why_told (stopping self.now) watch hart }
    {
        match watch {
            Some(index) => named(&self.watches, index),
            None => why(&self.software, &self.hardware, hart),
        }
    }
}

/// The addresses with this one.
fn with_one(alloc: Global, stops: &[u64], address: u64) -> Result<Vec<u64>, OutOfMemory>
    ensures { IfOk result (λ v. v.items ≡ with_one stops.now address) }
{
    let mut changed = Vec::from_slice(alloc, stops)?;
    if !stops.contains(&address) {
        changed.push(address)?;
    }
    Ok(changed)
}

/// The addresses without this one.
fn without_one(alloc: Global, stops: &[u64], address: u64) -> Result<Vec<u64>, OutOfMemory>
    ensures { IfOk result (λ v. v.items ≡ without_one stops.now address) }
{
    let mut changed = Vec::new(alloc);
    for stop in stops {
        if *stop != address {
            changed.push(*stop)?;
        }
    }
    Ok(changed)
}
