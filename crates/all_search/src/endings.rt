//! The endings of a node.
use crate::ending::{Ending, HartEnding};
use crate::executing::execution_of;
use crate::search::Search;
use hart_runs::waiting_runs;
use hart_walks::Against;
use pages::{OutOfMemory, Range};
use run_states::{EndedRun, RunEnd};
use store_lists::StoreList;

impl<'a> Search<'a> {
    /// Adds the endings of a node: one for each choice of a run of each hart that ends there, or waits for ever.
    pub(crate) fn find_endings(&mut self, numbers: &[usize]) -> Result<(), OutOfMemory> {
        let mut ways = Vec::new(self.alloc);
        for hart in 0..numbers.len() {
            let way = self.ends_of(numbers, hart)?;
            if way.is_empty() || self.walk.sharing.grew() {
                return Ok(());
            }
            ways.push(way)?;
        }
        let seen = self.seen()?;
        let mut chosen = vec![in self.alloc; 0usize; ways.len()]?;
        for _ in 0..u64::MAX {
            self.add_ending(&ways, &chosen, &seen)?;
            if !choose_next(chosen.as_mut_slice(), &ways) {
                break;
            }
        }
        Ok(())
    }

    /// How a hart ends in a node. Whether it waits is looked at where it doesn't stop, or where all others do.
    fn ends_of(&mut self, numbers: &[usize], hart: usize) -> Result<Vec<EndedRun>, OutOfMemory> {
        let mut ends = Vec::new(self.alloc);
        let mut others_stop = true;
        for (other, number) in numbers.iter().enumerate() {
            if let Some(runs) = self.runs.get(*number) {
                if other == hart {
                    for run in &runs.ended {
                        ends.push(run.copy()?)?;
                    }
                } else {
                    others_stop &= !runs.ended.is_empty();
                }
            }
        }
        if ends.is_empty() || others_stop {
            if let Some(runs) = numbers.get(hart).and_then(|number| self.runs.get(*number)) {
                let against = Against {
                    guest: self.guest,
                    list: &self.list,
                    hart: (hart % 64) as u8,
                };
                for run in waiting_runs(&mut self.walk, against, &runs.settled)? {
                    ends.push(run)?;
                }
            }
        }
        Ok(ends)
    }

    /// The bytes of memory that the endings show.
    fn seen(&self) -> Result<Vec<Vec<u8>>, OutOfMemory> {
        let mut seen = Vec::new(self.alloc);
        for range in self.see {
            seen.push(self.bytes_of(range)?)?;
        }
        Ok(seen)
    }

    fn bytes_of(&self, range: &Range) -> Result<Vec<u8>, OutOfMemory> {
        let mut bytes = Vec::new(self.alloc);
        for distance in 0..range.len {
            let address = range.start.saturating_add(distance);
            let pages = self.guest.code.pages();
            let doubleword = self.list.doubleword_at(pages, address / 8, self.list.now());
            let shift = ((address % 8) as u32).wrapping_mul(8);
            bytes.push((doubleword.wrapping_shr(shift) % 256) as u8)?;
        }
        Ok(bytes)
    }

    /// Adds the ending of a choice, if it is new.
    fn add_ending(
        &mut self,
        ways: &[Vec<EndedRun>],
        chosen: &[usize],
        seen: &[Vec<u8>],
    ) -> Result<(), OutOfMemory> {
        let mut runs = Vec::new(self.alloc);
        for (way, number) in ways.iter().zip(chosen.iter()) {
            if let Some(run) = way.get(*number) {
                runs.push(run)?;
            }
        }
        let mut key = Vec::new(self.alloc);
        for run in &runs {
            add_to_key(&mut key, run)?;
        }
        for bytes in seen {
            add_bytes(&mut key, bytes)?;
        }
        if self.endings.contains_key(&key) {
            return Ok(());
        }
        let ending = self.ending_of(&runs, seen)?;
        self.endings.insert(key, ending)?;
        Ok(())
    }

    fn ending_of(&self, runs: &[&EndedRun], seen: &[Vec<u8>]) -> Result<Ending, OutOfMemory> {
        let mut harts = Vec::new(self.alloc);
        for run in runs {
            harts.push(HartEnding {
                end: run.end,
                output: Vec::from_slice(self.alloc, &run.output)?,
            })?;
        }
        let mut shown = Vec::new(self.alloc);
        for bytes in seen {
            shown.push(Vec::from_slice(self.alloc, bytes)?)?;
        }
        Ok(Ending {
            harts,
            seen: shown,
            execution: execution_of(self.alloc, &self.walk.deeds, runs)?,
        })
    }
}

/// The next choice of one run of each hart. Answers whether there is one.
fn choose_next(chosen: &mut [usize], ways: &[Vec<EndedRun>]) -> bool {
    for hart in 0..chosen.len() {
        let count = match ways.get(hart) {
            Some(way) => way.len(),
            None => 0,
        };
        let next = chosen[hart].saturating_add(1);
        if next < count {
            chosen[hart] = next;
            return true;
        }
        chosen[hart] = 0;
    }
    false
}

fn add_to_key(key: &mut Vec<u64>, run: &EndedRun) -> Result<(), OutOfMemory> {
    match run.end {
        RunEnd::Stopped(stop) => {
            key.push(u64::from(stop.code))?;
            key.push(stop.value)?;
        }
        RunEnd::Waits(pc) => {
            key.push(u64::MAX)?;
            key.push(pc)?;
        }
    }
    add_bytes(key, &run.output)
}

fn add_bytes(key: &mut Vec<u64>, bytes: &[u8]) -> Result<(), OutOfMemory> {
    key.push(bytes.len() as u64)?;
    for byte in bytes {
        key.push(u64::from(*byte))?;
    }
    Ok(())
}
