ghost use Rattle.std.specs.Prelude.{◌≡◌, ◌<◌, ℕ, List, if◌then◌else◌, length, None, IfOk, OnErr, OnOk};
ghost use Rattle.pages.specs.Memory.{Memory};
ghost use Rattle.hart_step.specs.DecodedCode.{Shows, decoded};
ghost use Rattle.rv64_decode.specs.declared.instruction.Instr.{Instr};
ghost use Rattle.round_schedule.specs.Reservations.{entry};
ghost use Rattle.hart_step.specs.Room.{HasSpares};
ghost use Rattle.serial_phase.specs.Roomed.{HasRoom};
ghost use Rattle.execution.specs.Executions.{IsLike, IsStep};

use hart_step::{Bus, Hart};
use pages::{OutOfMemory, Pages, Store, Width};
use round_schedule::{Reservations, Span, Stepped};
use rv64_decode::{Instr, decode};
use serial_phase::{SharedState, serve};

/// A step of a script.
#[derive(Clone, Copy)]
pub struct ScriptedStep {
    /// Which hart goes on.
    pub hart: u8,
    /// The number of the round, as the guest's call for it has it.
    pub round: u32,
    /// The number that lies in memory where the instruction reads one.
    pub number: Option<u64>,
    /// Whether the hart still holds the reservation that its own LRs and SCs left it.
    pub holds: bool,
}

/// Does the next instruction of a hart on a scratch memory, on which a number is laid before.
///
/// `own` is the reservation that the hart's own LRs and SCs left it.
pub(crate) fn do_step(
    h: &mut Hart,
    shared: &mut SharedState,
    own: Option<Span>,
    laid: Option<Store>,
    step: ScriptedStep,
) -> Result<Stepped, OutOfMemory>
    requires running { h.old.stop ≡ None }
    requires hart { step.hart < length shared.old.reservations }
    ensures like { (image : Memory) → IsLike image shared.old.pages.memory →
        IsLike image shared.new.pages.memory }
    ensures reservations { length shared.new.reservations ≡ length shared.old.reservations }
    ensures step { IfOk result (λ answer. (image : Memory) → IsLike image shared.old.pages.memory →
        IsStep image step.round own shared.old.console.console shared.new.console.console h.old
        h.new answer) }
    ensures refused { OnErr result (shared.new.console.console ≡ shared.old.console.console) }
{
    make_room(shared, laid)?;
    let hart = u32::from(step.hart);
    hold(&mut shared.reservations, hart, own, step.holds);
    shared.pages.bytes_fit();
    Ok(serve(h, shared, hart, step.round))
}

/// Lays a number on memory, and makes room for what an instruction may store and put out.
fn make_room(shared: &mut SharedState, number: Option<Store>) -> Result<(), OutOfMemory>
    ensures like { (image : Memory) → IsLike image shared.old.pages.memory →
        IsLike image shared.new.pages.memory }
    ensures reservations { shared.new.reservations ≡ shared.old.reservations }
    ensures console { shared.new.console.console ≡ shared.old.console.console }
    ensures pages { OnOk result (HasSpares 1 shared.new.pages) }
    ensures output { OnOk result (HasRoom 1 shared.new.console) }
{
    lay(&mut shared.pages, number)?;
    let alloc = shared.pages.allocator();
    shared.pages.prepare(alloc, &[], 1)?;
    shared.console.reserve(1)
}

/// Lays a number on memory: where it may not be stored as a whole, those of its bytes that may be.
fn lay(pages: &mut Pages, number: Option<Store>) -> Result<(), OutOfMemory>
    ensures like { (image : Memory) → IsLike image pages.old.memory →
        IsLike image pages.new.memory }
    ensures shows { (first : ℕ) (words : List Instr) →
        Shows pages.old.memory first words → Shows pages.new.memory first words }
{
    match number {
        Some(number) => {
            if !is_laid(pages, number)? {
                lay_bytes(pages, number)?;
            }
            Ok(())
        }
        None => Ok(()),
    }
}

/// Lays each byte of a number that may be stored: not those that are code.
fn lay_bytes(pages: &mut Pages, number: Store) -> Result<(), OutOfMemory>
    ensures like { (image : Memory) → IsLike image pages.old.memory →
        IsLike image pages.new.memory }
    ensures shows { (first : ℕ) (words : List Instr) →
        Shows pages.old.memory first words → Shows pages.new.memory first words }
{
    for k in 0..number.width.bytes() {
        let byte = Store {
            address: number.address.wrapping_add(k),
            width: Width::W1,
            value: number.value.wrapping_shr(8 * k as u32) % 256,
        };
        is_laid(pages, byte)?;
    }
    Ok(())
}

/// Lays a number on memory, and answers whether it may be stored.
fn is_laid(pages: &mut Pages, number: Store) -> Result<bool, OutOfMemory>
    ensures like { (image : Memory) → IsLike image pages.old.memory →
        IsLike image pages.new.memory }
    ensures shows { (first : ℕ) (words : List Instr) →
        Shows pages.old.memory first words → Shows pages.new.memory first words }
{
    let fault = Bus::store(pages, number)?;
    Ok(fault.is_ok())
}

/// Gives a hart its own reservation or none.
fn hold(reservations: &mut Reservations, hart: u32, own: Option<Span>, holds: bool)
    requires { hart < length reservations.old }
    ensures entry { entry reservations.new hart ≡ (if holds then own else None) }
    ensures size { length reservations.new ≡ length reservations.old }
{
    match own {
        Some(span) if holds => reservations.set(hart, span.address, span.width),
        _ => {
            let _held = reservations.take(hart, 0, Width::W1);
        }
    }
}

/// The instruction at an address.
pub(crate) fn instruction_at(pages: &Pages, pc: u64) -> Option<Instr>
    ensures { result ≡ decoded pages.now.memory pc }
{
    match pages.fetch(pc) {
        Some(word) => decode(word),
        None => None,
    }
}
