//! What lies between an index and a later operation, as far as it makes that one depend on what comes before the index.

ghost use Rattle.std.specs.Prelude.{◌≡◌, ◌≢◌, ◌+◌, ◌<◌, ◌&&◌, ◌||◌, ℕ, length, slice_index_or, true, false};
ghost use Rattle.memory_order.specs.Orders.{order_position};
ghost use Rattle.order_rules.specs.Orders.{AreRanked, HasSources};
ghost use Rattle.order_rules.specs.Dependents.{AreRegisters};
ghost use Rattle.order_rules.specs.Behind.{IsBehind, NeedsAll, keeps_loads, keeps_stores};

use crate::access::{is_normal, is_same_hart};
use crate::bytes::returns;
use crate::dependents::{are_registers, destination_of};
use memory_order::{Registers, Sources, event_at, used_registers};
use round_schedule::{Access, Event};
use rv64_decode::{Instr, Reg};

/// What lies between an index and a later operation of a hart.
#[derive(Clone, Copy)]
pub(crate) struct Behind {
    /// The registers that the operation depends on, as they are before the index, by the rules on dependencies.
    pub(crate) needed: [bool; 32],
    /// Whether a fence keeps loads before it.
    pub(crate) loads: bool,
    /// Whether a fence keeps stores before it.
    pub(crate) stores: bool,
}

/// What lies between the operation at `b` and itself: its own registers.
pub(crate) fn behind_itself(instructions: &[Instr], events: &[Event], b: usize) -> Behind
    requires along { length instructions.now ≡ length events.now }
    requires within { b < length events.now }
    ensures { (pos : ℕ → ℕ) → IsBehind instructions.now events.now pos b b result }
{
    let used = used_registers(&instructions[b]);
    are_registers(&used);
    let needed = with_register([false; 32], used.address, true);
    Behind {
        needed: with_register(needed, used.value, true),
        loads: false,
        stores: false,
    }
}

/// The same with the instruction at `k`, where it is known what lies behind that.
pub(crate) fn behind_before(
    instructions: &[Instr],
    events: &[Event],
    order: &[usize],
    ranks: &[usize],
    sources: &Sources,
    b: usize,
    k: usize,
    behind: &Behind,
) -> Behind
    requires along { length instructions.now ≡ length events.now }
    requires ranked { AreRanked events.now order.now ranks.now }
    requires sourced { HasSources events.now order.now sources.now.items }
    requires within { b < length events.now }
    requires earlier { k < b }
    requires behind { IsBehind instructions.now events.now (order_position order.now) b (k + 1)
        behind.now }
    ensures { IsBehind instructions.now events.now (order_position order.now) b k result }
{
    if !is_same_hart(events, k, b) {
        return *behind;
    }
    let used = used_registers(&instructions[k]);
    are_registers(&used);
    let first = event_at(events, k).access;
    let second = event_at(events, b).access;
    let forwards = returns(events, order, ranks, sources, k, b);
    let destination = destination_of(&used, &first);
    let stores = second.stores();
    Behind {
        needed: needed_before(&behind.needed, &used, destination, stores, forwards),
        loads: is_either(behind.loads, keeps_loads(&first, &second)),
        stores: is_either(behind.stores, keeps_stores(&first, &second)),
    }
}

fn is_either(a: bool, b: bool) -> bool
    ensures { result ≡ (a || b) }
{
    a || b
}

fn are_both(a: bool, b: bool) -> bool
    ensures { result ≡ (a && b) }
{
    a && b
}

/// The registers that are needed before an instruction with these registers and this destination: whether it comes before a store, and
/// whether that reads what it wrote.
fn needed_before(
    needed: &[bool; 32],
    used: &Registers,
    destination: Reg,
    stores: bool,
    forwards: bool,
) -> [bool; 32]
    requires { AreRegisters used.now }
    ensures kept { (q : ℕ) → q ≢ destination → slice_index_or needed.now q false ≡ true →
        slice_index_or result q false ≡ true }
    ensures carried { used.now.carries ≡ true → slice_index_or needed.now destination false ≡ true →
        NeedsAll result used.now }
    ensures steered { stores ≡ true → used.now.steers ≡ true → NeedsAll result used.now }
    ensures address { stores ≡ true → slice_index_or result used.now.address false ≡ true }
    ensures forwarded_address { forwards ≡ true →
        slice_index_or result used.now.address false ≡ true }
    ensures forwarded_value { forwards ≡ true → slice_index_or result used.now.value false ≡ true }
{
    let carried = are_both(used.carries, needed[destination.index()]);
    let steered = are_both(stores, used.steers);
    let kept = without_register(*needed, destination);
    let with_carried = with_sources(kept, used, carried);
    let with_steered = with_sources(with_carried, used, steered);
    let with_address = with_register(with_steered, used.address, is_either(stores, forwards));
    with_register(with_address, used.value, forwards)
}

/// With the source registers of an instruction, or without.
fn with_sources(needed: [bool; 32], used: &Registers, are_needed: bool) -> [bool; 32]
    requires { AreRegisters used.now }
    ensures kept { (q : ℕ) → slice_index_or needed q false ≡ true →
        slice_index_or result q false ≡ true }
    ensures there { are_needed ≡ true → NeedsAll result used.now }
{
    let with_address = with_register(needed, used.address, are_needed);
    let with_value = with_register(with_address, used.value, are_needed);
    let with_first = with_register(with_value, used.first, are_needed);
    with_register(with_first, used.second, are_needed)
}

/// With a register, or without.
fn with_register(mut needed: [bool; 32], r: Reg, is_needed: bool) -> [bool; 32]
    ensures kept { (q : ℕ) → slice_index_or needed q false ≡ true →
        slice_index_or result q false ≡ true }
    ensures there { is_needed ≡ true → slice_index_or result r false ≡ true }
{
    if is_needed {
        needed[r.index()] = true;
    }
    needed
}

/// Without a register.
fn without_register(mut needed: [bool; 32], r: Reg) -> [bool; 32]
    ensures { (q : ℕ) → q ≢ r → slice_index_or needed q false ≡ true →
        slice_index_or result q false ≡ true }
{
    needed[r.index()] = false;
    needed
}

/// Whether it is a fence that keeps loads before it before an access behind it.
fn keeps_loads(fence: &Access, b: &Access) -> bool
    ensures { result ≡ keeps_loads fence.now b.now }
{
    match *fence {
        Access::Fence { before, after, .. } => {
            before.reads && ((after.reads && b.loads()) || (after.writes && b.stores()))
        }
        _ => false,
    }
}

/// Whether it is one that keeps stores.
fn keeps_stores(fence: &Access, b: &Access) -> bool
    ensures { result ≡ keeps_stores fence.now b.now }
{
    match *fence {
        Access::Fence {
            before,
            after,
            mode,
            ..
        } => {
            before.writes
                && ((after.writes && b.stores()) || (after.reads && b.loads() && is_normal(mode)))
        }
        _ => false,
    }
}
