//! The operation on nobody's own bytes that comes next.
ghost use Rattle.std.specs.Prelude.{◌≡◌, IfNone, IfSome, Some};
ghost use Rattle.hart_step.specs.DecodedCode.{decoded};
ghost use Rattle.hart_states.specs.States.{state_of};
ghost use Rattle.own_moves.specs.Owned.{owns_of};
ghost use Rattle.late_spots.specs.LateSpots.{OfOperations};
ghost use Rattle.late_spots.specs.Onward.{MakesAt};

use early_reads::{access_over, knows_address};
use hart_moves::instruction_at;
use hart_states::RunState;
use own_moves::{OwnDoubleword, is_own};
use pages::Pages;
use round_schedule::Access;
use run_places::Against;
use rv64_decode::Instr;

/// The access of an instruction from a state, where it is one to nobody's own bytes.
fn access_from(
    pages: &Pages,
    owned: &[OwnDoubleword],
    hart: u8,
    state: &RunState,
    i: &Instr,
) -> Option<Access>
    requires { decoded pages.now.memory state.now.pc ≡ Some i.now }
    ensures none { IfNone result (OfOperations (owns_of owned.now) pages.now.memory hart
        (state_of state.now) (λ v. ⊥)) }
    ensures some { IfSome result (λ y. OfOperations (owns_of owned.now) pages.now.memory hart
        (state_of state.now) (λ v. MakesAt state.now.pc y v)) }
{
    let _pages = pages.count();
    if !knows_address(&state.registers, i) {
        return None;
    }
    let access = access_over(&state.registers, state.pc, i);
    if !access.loads() && !access.stores() {
        return None;
    }
    if is_own(owned, hart, access.address()) {
        return None;
    }
    Some(access)
}

/// The access to nobody's own bytes that a hart makes next, where it makes one. Of an SC that of one that writes.
#[tactic(auto, using(crate::proofs::Operations::none_decoded))]
pub(crate) fn shared_access(against: &Against<'_>, state: &RunState) -> Option<Access>
    ensures none { IfNone result (OfOperations (owns_of against.now.owned.now)
        against.now.memory.pages.now.memory against.now.hart (state_of state.now) (λ v. ⊥)) }
    ensures some { IfSome result (λ y. OfOperations (owns_of against.now.owned.now)
        against.now.memory.pages.now.memory against.now.hart (state_of state.now)
        (λ v. MakesAt state.now.pc y v)) }
{
    let pages = against.memory.pages;
    match instruction_at(pages, state.pc) {
        Some(i) => access_from(pages, against.owned, against.hart, state, &i),
        None => None,
    }
}
