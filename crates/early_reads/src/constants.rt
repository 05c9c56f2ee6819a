//! Whether a map has the right numbers of the code behind an instruction.
ghost use Rattle.std.specs.Prelude.{◌≡◌, ◌<◌, ◌≤◌, ◌==◌, ℕ, List, Option, if◌then◌else◌, slice_index_or, IsTrue, None, Some};
ghost use Rattle.all_endings.specs.Locality.{set_view};
ghost use Rattle.private_bytes.specs.Ahead.{Tells};
ghost use Rattle.early_reads.specs.Checking.{map_of};
ghost use Rattle.early_reads.specs.EarlyMaps.{Agrees};
ghost use Rattle.early_reads.specs.Flows.{IsAmong};

use crate::early_bytes::find;
use crate::early_point::EarlyPoint;
use crate::flow::Targets;
use hart_states::RunState;
use rv64_decode::Reg;

/// Whether a number that is told is the one that is there.
fn is_there(told: Option<u64>, there: Option<u64>) -> bool
    ensures { IsTrue result → Tells told there }
{
    match told {
        Some(_) => told == there,
        None => true,
    }
}

/// What a register holds behind an instruction that puts a value into one.
fn held_behind(
    before: &[Option<u64>; 32],
    register: Reg,
    value: Option<u64>,
    k: usize,
) -> Option<u64>
    requires { k < 32 }
    ensures { result ≡ (if k == register then value else slice_index_or before.now k None) }
{
    if k == register.index() {
        value
    } else {
        before[k]
    }
}

/// Whether the numbers that are told are there, behind an instruction that puts a value into a register.
fn are_there(
    told: &[Option<u64>; 32],
    before: &[Option<u64>; 32],
    register: Reg,
    value: Option<u64>,
) -> bool
    ensures { IsTrue result → (w : List (Option ℕ)) (o : Option ℕ) → Agrees before.now w →
        ((n l : ℕ) → value ≡ Some n → o ≡ Some l → n ≡ l) →
        Agrees told.now (set_view w register o) }
{
    for k in 1..32 {
        if !is_there(told[k], held_behind(before, register, value, k)) {
            return false;
        }
    }
    true
}

/// Whether what a state knows agrees with the numbers that a map has where it stands.
pub fn agrees_there(points: &[EarlyPoint], state: &RunState) -> bool
    ensures { IsTrue result → Agrees ((map_of points.now).constants state.now.pc)
        state.now.registers }
{
    match find(points, state.pc) {
        Some(index) => {
            let told = &points[index].constants;
            are_there(told, &state.registers, Reg::new(0), None)
        }
        None => true,
    }
}

/// The same of the numbers that a map has at an address.
fn tells_there(
    points: &[EarlyPoint],
    point: &EarlyPoint,
    register: Reg,
    value: Option<u64>,
    next: u64,
) -> bool
    ensures { IsTrue result → (w : List (Option ℕ)) (o : Option ℕ) →
        Agrees point.now.constants w → ((n l : ℕ) → value ≡ Some n → o ≡ Some l → n ≡ l) →
        Agrees ((map_of points.now).constants next) (set_view w register o) }
{
    match find(points, next) {
        Some(index) => are_there(&points[index].constants, &point.constants, register, value),
        None => true,
    }
}

/// The same at each address to which the instruction may lead.
pub(crate) fn tells_each(
    points: &[EarlyPoint],
    point: &EarlyPoint,
    register: Reg,
    value: Option<u64>,
    targets: Targets,
) -> bool
    ensures { IsTrue result → (next : ℕ) (w : List (Option ℕ)) (o : Option ℕ) →
        IsAmong targets next → Agrees point.now.constants w →
        ((n l : ℕ) → value ≡ Some n → o ≡ Some l → n ≡ l) →
        Agrees ((map_of points.now).constants next) (set_view w register o) }
{
    match targets {
        Targets::One(next) => tells_there(points, point, register, value, next),
        Targets::Two(next, other) => {
            tells_there(points, point, register, value, next)
                && tells_there(points, point, register, value, other)
        }
        Targets::Anywhere => false,
    }
}
