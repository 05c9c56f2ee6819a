//! Whether a map of code is right.
ghost use Rattle.std.specs.Prelude.{◌≡◌, ℕ, IsTrue};
ghost use Rattle.own_moves.specs.Owned.{owns_of};
ghost use Rattle.early_reads.specs.declared.early_point.LateKinds.{LateKinds as Late};
ghost use Rattle.early_reads.specs.Checking.{HoldsOrAll, IsRightAt, map_of};
ghost use Rattle.early_reads.specs.EarlyMaps.{IsRight};
ghost use Rattle.early_reads.specs.Flows.{MovesFrom};

use crate::coming_access::{access_over, knows_address};
use crate::constants::tells_each;
use crate::early_bytes::is_all_by;
use crate::early_point::{EarlyPoint, LateKinds};
use crate::flow::{is_exit, number_put, targets_of};
use crate::leading::{CodeStep, leads_on, reads_told};
use hart_moves::instruction_at;
use hart_states::answered;
use own_moves::OwnDoubleword;
use pages::Pages;
use rv64_decode::Instr;

/// Whether a map holds along an instruction of a point, for what is late.
fn holds_along(
    points: &[EarlyPoint],
    owned: &[OwnDoubleword],
    hart: u8,
    point: &EarlyPoint,
    late: LateKinds,
    i: &Instr,
) -> bool
    ensures { IsTrue result → MovesFrom point.now.constants point.now.pc i.now
        (λ a v. HoldsOrAll points.now (owns_of owned.now) hart point.now late a v) }
{
    if is_all_by(point, late) {
        return true;
    }
    if is_exit(&point.constants, i) {
        return true;
    }
    let step = CodeStep {
        access: access_over(&point.constants, point.pc, i),
        known: knows_address(&point.constants, i),
        targets: targets_of(&point.constants, point.pc, i),
    };
    let value = number_put(&point.constants, point.pc, i);
    if !tells_each(points, point, answered(i), value, step.targets) {
        return false;
    }
    if !reads_told(owned, hart, point, late, &step) {
        return false;
    }
    leads_on(points, owned, hart, point, late, &step)
}

/// Whether it holds from a point, for what is late.
fn holds_from(
    points: &[EarlyPoint],
    pages: &Pages,
    owned: &[OwnDoubleword],
    hart: u8,
    point: &EarlyPoint,
    late: LateKinds,
) -> bool
    ensures { IsTrue result → IsRightAt points.now (owns_of owned.now) pages.now.memory hart
        point.now late }
{
    match instruction_at(pages, point.pc) {
        Some(i) => holds_along(points, owned, hart, point, late, &i),
        None => true,
    }
}

/// The same whatever is late, of a hart that owes stores of the list, or of one that owes none.
fn holds_owing(
    points: &[EarlyPoint],
    pages: &Pages,
    owned: &[OwnDoubleword],
    hart: u8,
    point: &EarlyPoint,
    owes: bool,
) -> bool
    ensures { IsTrue result → (l : Late) → l.owes ≡ owes →
        IsRightAt points.now (owns_of owned.now) pages.now.memory hart point.now l }
{
    let load = LateKinds {
        loads: true,
        stores: false,
        owes,
    };
    let store = LateKinds {
        loads: false,
        stores: true,
        owes,
    };
    let both = LateKinds {
        loads: true,
        stores: true,
        owes,
    };
    if !holds_from(points, pages, owned, hart, point, load) {
        return false;
    }
    if !holds_from(points, pages, owned, hart, point, store) {
        return false;
    }
    holds_from(points, pages, owned, hart, point, both)
}

/// The same of each hart.
fn holds_at(
    points: &[EarlyPoint],
    pages: &Pages,
    owned: &[OwnDoubleword],
    hart: u8,
    point: &EarlyPoint,
) -> bool
    ensures { IsTrue result → (l : Late) → IsRightAt points.now (owns_of owned.now)
        pages.now.memory hart point.now l }
{
    if !holds_owing(points, pages, owned, hart, point, false) {
        return false;
    }
    holds_owing(points, pages, owned, hart, point, true)
}

/// Whether a map of a hart's code is right: it holds along each move from each of its points.
pub fn is_right(points: &[EarlyPoint], pages: &Pages, owned: &[OwnDoubleword], hart: u8) -> bool
    ensures { IsTrue result → IsRight (map_of points.now) (owns_of owned.now) pages.now.memory
        hart }
{
    for index in 0..points.len() {
        if !holds_at(points, pages, owned, hart, &points[index]) {
            return false;
        }
    }
    true
}
