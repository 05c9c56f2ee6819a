//! What is told, and where.

ghost use Rattle.std.specs.Prelude.{◌≡◌, IfOk};
ghost use Rattle.execution_moments.specs.Looked.{looked_at};
ghost use Rattle.execution_moments.specs.Told.{access_at, access_back, access_on, is_told, next_told, previous_told, stop_at, told_back, told_on, watch_of};

use crate::past::Past;
use crate::point::{TimePoint, TimeSide};
use crate::told::Told;
use moments::Asked;
use pages::OutOfMemory;
use std::alloc::Global;
use watching::{Watchpoint, told_alone, touches_some};

impl Past {
    /// Whether the moment at a time is told.
    fn is_told(&self, asked: &Asked, time: usize) -> bool
        ensures { result ≡ is_told self.now.course asked.now.each asked.now.faults
            asked.now.stops.items time }
    {
        match self.course.moment_at(time) {
            Some(moment) => asked.tells(u32::from(moment.number), &moment.hart),
            None => false,
        }
    }

    /// That the moment at a time is told, if it is.
    fn stop_at(&self, asked: &Asked, time: usize) -> Option<Told>
        ensures { result ≡ stop_at (looked_at self.now) asked.now.each asked.now.faults
            asked.now.stops.items time }
    {
        if !self.is_told(asked, time) {
            return None;
        }
        match self.course.moment_at(time) {
            Some(moment) => Some(Told {
                point: TimePoint {
                    time,
                    side: TimeSide::Break,
                },
                number: moment.number,
                watch: None,
            }),
            None => None,
        }
    }

    /// The first watchpoint that tells of the access of an instruction that a hart does at a time.
    fn watch_of(
        &self,
        alloc: Global,
        watches: &[Watchpoint],
        time: usize,
        number: u8,
        index: Option<usize>,
    ) -> Result<Option<usize>, OutOfMemory>
        ensures { IfOk result (λ x.
            x ≡ watch_of (looked_at self.now) watches.now time number index) }
    {
        let Some(index) = index else {
            return Ok(None);
        };
        let event = self.event_at(index);
        if !touches_some(watches, &event) {
            return Ok(None);
        }
        let (address, count) = (event.access.address(), event.access.byte_count());
        let bytes = self.bytes_at(alloc, time, number, address, count)?;
        told_alone(alloc, watches, &event, bytes)
    }

    /// What watchpoints tell of the access of the instruction at a time, told at this point.
    fn access_at(
        &self,
        alloc: Global,
        watches: &[Watchpoint],
        point: TimePoint,
        time: usize,
    ) -> Result<Option<Told>, OutOfMemory>
        ensures { IfOk result (λ x. x ≡ access_at (looked_at self.now) watches.now point time) }
    {
        let Some(moment) = self.course.moment_at(time) else {
            return Ok(None);
        };
        let number = moment.number;
        match self.watch_of(alloc, watches, time, number, moment.index)? {
            Some(watch) => Ok(Some(Told {
                point,
                number,
                watch: Some(watch),
            })),
            None => Ok(None),
        }
    }

    /// What they tell of it on the way on from a point.
    ///
    /// # Errors
    ///
    /// `OutOfMemory` alone.
    pub fn access_on(
        &self,
        alloc: Global,
        watches: &[Watchpoint],
        here: TimePoint,
        time: usize,
    ) -> Result<Option<Told>, OutOfMemory>
        ensures { IfOk result (λ x. x ≡ access_on (looked_at self.now) watches.now here time) }
    {
        let point = TimePoint {
            time,
            side: TimeSide::Access,
        };
        if !here.is_before(&point) {
            return Ok(None);
        }
        self.access_at(alloc, watches, point, time)
    }

    /// What they tell of the access of the instruction before a time, on the way back from a point.
    ///
    /// # Errors
    ///
    /// `OutOfMemory` alone.
    pub fn access_back(
        &self,
        alloc: Global,
        watches: &[Watchpoint],
        here: TimePoint,
        time: usize,
    ) -> Result<Option<Told>, OutOfMemory>
        ensures { IfOk result (λ x. x ≡ access_back (looked_at self.now) watches.now here time) }
    {
        let point = TimePoint {
            time,
            side: TimeSide::After,
        };
        if time == 0 || !point.is_before(&here) {
            return Ok(None);
        }
        self.access_at(alloc, watches, point, time - 1)
    }

    /// What is told at a time, on the way on from a point.
    fn told_on(
        &self,
        alloc: Global,
        asked: &Asked,
        watches: &[Watchpoint],
        here: TimePoint,
        time: usize,
    ) -> Result<Option<Told>, OutOfMemory>
        ensures { IfOk result (λ x. x ≡ told_on (looked_at self.now) asked.now.each
            asked.now.faults asked.now.stops.items watches.now here time) }
    {
        let stop = TimePoint {
            time,
            side: TimeSide::Break,
        };
        if here.is_before(&stop)
            && let Some(told) = self.stop_at(asked, time)
        {
            return Ok(Some(told));
        }
        self.access_on(alloc, watches, here, time)
    }

    /// What is told at a time, on the way back from a point.
    fn told_back(
        &self,
        alloc: Global,
        asked: &Asked,
        watches: &[Watchpoint],
        here: TimePoint,
        time: usize,
    ) -> Result<Option<Told>, OutOfMemory>
        ensures { IfOk result (λ x. x ≡ told_back (looked_at self.now) asked.now.each
            asked.now.faults asked.now.stops.items watches.now here time) }
    {
        let stop = TimePoint {
            time,
            side: TimeSide::Break,
        };
        if stop.is_before(&here)
            && let Some(told) = self.stop_at(asked, time)
        {
            return Ok(Some(told));
        }
        self.access_back(alloc, watches, here, time)
    }

    /// What is told next on the way on from a point.
    ///
    /// # Errors
    ///
    /// `OutOfMemory` alone.
    pub fn next_told(
        &self,
        alloc: Global,
        asked: &Asked,
        watches: &[Watchpoint],
        here: TimePoint,
    ) -> Result<Option<Told>, OutOfMemory>
        ensures { IfOk result (λ x. x ≡ next_told (looked_at self.now) asked.now.each
            asked.now.faults asked.now.stops.items watches.now here) }
    {
        let end = self.end();
        if here.time >= end {
            return Ok(None);
        }
        for time in here.time..end {
            let told = self.told_on(alloc, asked, watches, here, time)?;
            if told.is_some() {
                return Ok(told);
            }
        }
        Ok(None)
    }

    /// What is told next on the way back from a point.
    ///
    /// # Errors
    ///
    /// `OutOfMemory` alone.
    pub fn previous_told(
        &self,
        alloc: Global,
        asked: &Asked,
        watches: &[Watchpoint],
        here: TimePoint,
    ) -> Result<Option<Told>, OutOfMemory>
        ensures { IfOk result (λ x. x ≡ previous_told (looked_at self.now) asked.now.each
            asked.now.faults asked.now.stops.items watches.now here) }
    {
        let mut time = here.time;
        while time > 0 {
            let told = self.told_back(alloc, asked, watches, here, time)?;
            if told.is_some() {
                return Ok(told);
            }
            time -= 1;
        }
        self.told_back(alloc, asked, watches, here, 0)
    }
}
