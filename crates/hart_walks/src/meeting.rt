//! States before accesses of shared bytes: which of them need not be followed.
use crate::guest::Against;
use crate::walk::{MetState, Mode, Walk};
use early_loads::LiveRegisters;
use pages::OutOfMemory;
use run_states::{Between, Looked, RunState, dominates};
use store_lists::LATER;

impl Walk {
    /// A run comes to an access of shared bytes. Answers whether it is followed: a state that was met can't do all that it can.
    pub fn meet(
        &mut self,
        against: Against<'_>,
        state: &mut RunState,
        reserves: bool,
    ) -> Result<bool, OutOfMemory> {
        let is_resumed = state.course.is_resumed;
        if !is_resumed && self.is_back(against, state, reserves) {
            self.came_back = self.mode == Mode::Last;
            self.least_pc = self.least_pc.min(state.hart.pc);
            return Ok(false);
        }
        self.least_pc = self.least_pc.min(state.hart.pc);
        state.course.is_resumed = false;
        if is_resumed {
            return Ok(true);
        }
        if self.mode == Mode::All && self.is_dominated(against, state, reserves)? {
            return Ok(false);
        }
        state.course.past = self.keep(against, state)?;
        Ok(true)
    }

    /// Whether a run is back at a state of its own, or at one that can do no less.
    fn is_back(&self, against: Against<'_>, state: &RunState, reserves: bool) -> bool {
        let looked = Looked {
            live: against.guest.code.live_at(state.hart.pc),
            reserves,
            between: Between::OneRun,
        };
        let mut next = state.course.past;
        for _ in 0..self.met.len() {
            let Some(past) = next else {
                break;
            };
            let Some(met) = self.met.get(past) else {
                break;
            };
            if dominates(&met.state, state, &self.sharing, looked) {
                return true;
            }
            next = met.state.course.past;
        }
        false
    }

    /// Whether a state that was met can do all that this one can. What was found behind that one is then noted for this one too.
    fn is_dominated(
        &mut self,
        against: Against<'_>,
        state: &RunState,
        reserves: bool,
    ) -> Result<bool, OutOfMemory> {
        self.states = self.states.wrapping_add(1);
        let live = against.guest.code.live_at(state.hart.pc);
        let looked = Looked {
            live,
            reserves,
            between: Between::Runs,
        };
        let Some(found) = self.dominating(state, looked) else {
            return Ok(false);
        };
        if !state.course.is_pure {
            self.links.push((state.course.origin, found))?;
        }
        Ok(true)
    }

    /// The settled state behind which a state was met that can do all that another one can.
    fn dominating(&self, state: &RunState, looked: Looked) -> Option<usize> {
        let mut next = self.latest.get(&hash_of(state, looked.live)).copied();
        for _ in 0..self.met.len() {
            let met = self.met.get(next?)?;
            if dominates(&met.state, state, &self.sharing, looked) {
                return Some(met.state.course.origin);
            }
            next = met.before;
        }
        None
    }

    /// Keeps a state before an access of shared bytes. Gives its number.
    pub fn keep(
        &mut self,
        against: Against<'_>,
        state: &RunState,
    ) -> Result<Option<usize>, OutOfMemory> {
        let hash = hash_of(state, against.guest.code.live_at(state.hart.pc));
        let number = self.met.len();
        let before = self.latest.insert(hash, number)?;
        let met = MetState {
            state: state.copy()?,
            before,
        };
        self.met.push(met)?;
        Ok(Some(number))
    }
}

/// A hash of what has to be equal for one state to stand for another.
fn hash_of(state: &RunState, live: LiveRegisters) -> u64 {
    let mut hash = mixed(state.hart.pc, u64::from(state.stores));
    hash = mixed(hash, state.owed.len() as u64);
    hash = mixed(hash, state.taken as u64);
    hash = mixed(hash, u64::from(state.course.is_pure));
    for k in 1..32 {
        if live.has(k) {
            hash = mixed(hash, state.hart.x[k]);
            hash = mixed(hash, u64::from(state.bounds.registers[k] == LATER));
        }
    }
    hash
}

/// A hash with one more number.
#[inline]
fn mixed(hash: u64, number: u64) -> u64 {
    let turned = hash.wrapping_shl(5) | hash.wrapping_shr(59);
    (turned ^ number).wrapping_mul(0x9e37_79b9_7f4a_7c15)
}
