//! The rules 4 and 8 of preserved program order, on what lies between two operations (manual, section 14.1.3).

ghost use Rattle.std.specs.Prelude.{◌≡◌, ◌↔◌, ◌<◌, ℕ, IsTrue, length, true};
ghost use Rattle.round_schedule.specs.Positions.{ProgramBefore, event};
ghost use Rattle.memory_order.specs.Operations.{is_lr_or_sc};
ghost use Rattle.memory_order.specs.Rvwmo.{IsPaired};
ghost use Rattle.order_rules.specs.Orders.{IsFenced};

use crate::access::{fence_orders, is_lr, is_lr_or_sc, is_sc};
use round_schedule::Event;

/// Whether a fence between two operations of a hart orders them (rule 4).
pub(crate) fn is_fenced(events: &[Event], a: usize, b: usize) -> bool
    requires within { b < length events.now }
    requires before { ProgramBefore events.now a b }
    ensures { IsTrue result ↔ IsFenced events.now a b }
{
    for f in a + 1..b {
        if events[f].hart == events[b].hart
            && fence_orders(&events[f].access, &events[a].access, &events[b].access)
        {
            return true;
        }
    }
    false
}

/// Whether an LR is paired with an SC (rule 8).
pub(crate) fn are_paired(events: &[Event], a: usize, b: usize) -> bool
    requires within { b < length events.now }
    requires before { ProgramBefore events.now a b }
    ensures { IsTrue result ↔ IsPaired events.now a b }
{
    is_lr(&events[a].access) && is_sc(&events[b].access) && is_unreserved_between(events, a, b)
}

/// Whether no LR or SC of the hart lies between two indexes.
fn is_unreserved_between(events: &[Event], a: usize, b: usize) -> bool
    requires within { b < length events.now }
    requires before { ProgramBefore events.now a b }
    ensures { IsTrue result ↔ ((k : ℕ) → a < k → k < b →
        (event events.now k).hart ≡ (event events.now b).hart →
        is_lr_or_sc (event events.now k).access ≡ true → ⊥) }
{
    for k in a + 1..b {
        if events[k].hart == events[b].hart && is_lr_or_sc(&events[k].access) {
            return false;
        }
    }
    true
}
