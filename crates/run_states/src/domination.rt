//! When one state of a hart can do all that another can.
use crate::bounds::Bounds;
use crate::known_bytes::{KnownByte, KnownDoubleword};
use crate::run_state::RunState;
use early_loads::LiveRegisters;
use store_lists::{LATER, Reserved, Sharing};

/// How two states stand to each other.
#[derive(Clone, Copy, PartialEq, Eq)]
pub enum Between {
    /// They are of two runs against one list.
    Runs,
    /// The first stands before the other in one run, and what was done between may be left out.
    OneRun,
}

/// What is looked at.
#[derive(Clone, Copy)]
pub struct Looked {
    /// The registers that are live.
    pub live: LiveRegisters,
    /// Whether the reservation makes no difference, since the next instruction is an LR.
    pub reserves: bool,
    /// How the two stand to each other.
    pub between: Between,
}

/// Whether a state can do all that another can: it is equal but for times, and these aren't higher, and for what registers hold that
/// aren't live.
pub fn dominates(a: &RunState, b: &RunState, sharing: &Sharing, looked: Looked) -> bool {
    has_come_as_far(a, b)
        && may_stand_for(a, b, looked.between)
        && are_lower(&a.bounds, &b.bounds)
        && are_registers_lower(a, b, looked)
        && (looked.reserves || is_reserved_as(&a.reserved, &b.reserved))
        && knows_as_much(a, b, sharing)
}

/// Whether what they have done before stands for each other.
fn has_come_as_far(a: &RunState, b: &RunState) -> bool {
    a.hart.pc == b.hart.pc
        && a.stores == b.stores
        && a.next == b.next
        && a.taken == b.taken
        && a.output.as_slice() == b.output.as_slice()
}

/// Of two runs, the one that stands for another owes the same stores, and hasn't done more instructions, and both know all, or neither
/// does. Between two moments of one run no store was done, since they have done equally many.
fn may_stand_for(a: &RunState, b: &RunState, between: Between) -> bool {
    match between {
        Between::OneRun => true,
        Between::Runs => {
            a.owed.as_slice() == b.owed.as_slice()
                && a.course.is_pure == b.course.is_pure
                && a.hart.done <= b.hart.done
        }
    }
}

fn are_lower(a: &Bounds, b: &Bounds) -> bool {
    a.loads <= b.loads
        && a.stores <= b.stores
        && a.annotated <= b.annotated
        && a.before_loads <= b.before_loads
        && a.before_stores <= b.before_stores
        && a.steering <= b.steering
}

/// Whether the live registers hold the same, and what they depend on isn't later. What isn't known may differ between two moments of
/// one run.
fn are_registers_lower(a: &RunState, b: &RunState, looked: Looked) -> bool {
    for k in 1..32 {
        if looked.live.has(k) {
            let (first, second) = (a.bounds.registers[k], b.bounds.registers[k]);
            let is_like = a.hart.x[k] == b.hart.x[k] && first <= second;
            let is_unknown = first == LATER;
            if !is_like
                || is_unknown != (second == LATER)
                || is_unknown && looked.between == Between::OneRun
            {
                return false;
            }
        }
    }
    true
}

fn is_reserved_as(a: &Option<Reserved>, b: &Option<Reserved>) -> bool {
    match (a, b) {
        (_, None) => true,
        (Some(a), Some(b)) => {
            a.address == b.address
                && a.width == b.width
                && a.sources == b.sources
                && a.time <= b.time
        }
        (None, Some(_)) => false,
    }
}

/// Whether they know the same of memory, and the times of that aren't later.
fn knows_as_much(a: &RunState, b: &RunState, sharing: &Sharing) -> bool {
    let (first, second) = (a.known.doublewords(), b.known.doublewords());
    let (mut i, mut j) = (0usize, 0usize);
    for _ in 0..first.len().saturating_add(second.len()) {
        let (left, right) = (first.get(i), second.get(j));
        let least = number_of(left).min(number_of(right));
        if left.is_none() && right.is_none() {
            break;
        }
        let mut pair = (
            KnownDoubleword::untouched(least),
            KnownDoubleword::untouched(least),
        );
        if let Some(known) = left {
            if known.doubleword == least {
                pair.0 = *known;
                i = i.saturating_add(1);
            }
        }
        if let Some(known) = right {
            if known.doubleword == least {
                pair.1 = *known;
                j = j.saturating_add(1);
            }
        }
        if pair.0 != pair.1 && !is_doubleword_lower(&pair.0, &pair.1, sharing.is_shared(least)) {
            return false;
        }
    }
    true
}

fn number_of(known: Option<&KnownDoubleword>) -> u64 {
    match known {
        Some(known) => known.doubleword,
        None => u64::MAX,
    }
}

fn is_doubleword_lower(a: &KnownDoubleword, b: &KnownDoubleword, is_shared: bool) -> bool {
    for k in 0..8 {
        if !is_byte_lower(&a.bytes[k], &b.bytes[k], is_shared) {
            return false;
        }
    }
    true
}

/// Whether the bytes hold the same, and the times of the first aren't higher. A place in the list is no bound: it has to be equal.
fn is_byte_lower(a: &KnownByte, b: &KnownByte, is_shared: bool) -> bool {
    let is_like = a.is_own == b.is_own && (!a.is_exclusive || b.is_exclusive) && a.value == b.value;
    let is_placed = if is_shared {
        a.place == b.place
    } else {
        a.place <= b.place
    };
    is_like && is_placed && a.last <= b.last && a.seen <= b.seen && a.depends <= b.depends
}
