//! Calls (ECALL).
use hart_step::Stop;
use hart_walks::{Against, Mode, Walk};
use pages::OutOfMemory;
use run_states::RunState;
use rv64_decode::Reg;
use store_lists::{LATER, Omission};

/// How many bytes a console takes.
const MOST_OUTPUT: usize = 1 << 20;

/// A call. The number of the call is in x17, what it is given in x10, and so is its answer.
pub(crate) fn call(
    walk: &mut Walk,
    against: Against<'_>,
    state: &mut RunState,
) -> Result<bool, OutOfMemory> {
    let (given, number) = (Reg::new(10), Reg::new(17));
    if !state.bounds.is_known(number) {
        walk.sharing.omit(Omission::LateCall)?;
        walk.break_off(against, state)?;
        return Ok(false);
    }
    let value = state.hart.reg(given);
    let answer = match state.hart.reg(number) {
        0 => {
            walk.stop(state, Stop { code: 1, value })?;
            return Ok(false);
        }
        1 => put(walk, state, value)?,
        2 => take(walk, against, state)?,
        3 => {
            walk.sharing.omit(Omission::RoundCall)?;
            0
        }
        _ => u64::MAX,
    };
    let time = state.bounds.of(given);
    state.hart.go_on(given, answer);
    state.set_register(given, answer, time);
    Ok(true)
}

/// Puts a byte out.
fn put(walk: &mut Walk, state: &mut RunState, value: u64) -> Result<u64, OutOfMemory> {
    if state.output.len() >= MOST_OUTPUT {
        walk.sharing.omit(Omission::FullConsole)?;
        return Ok(u64::MAX);
    }
    if walk.mode == Mode::All {
        state.output.push((value % 256) as u8)?;
    }
    Ok(0)
}

/// Takes a byte of the input.
fn take(walk: &mut Walk, against: Against<'_>, state: &mut RunState) -> Result<u64, OutOfMemory> {
    walk.sharing.read_input(against.hart)?;
    match against.guest.input.get(state.taken) {
        Some(byte) => {
            state.taken = state.taken.saturating_add(1);
            Ok(u64::from(*byte))
        }
        None => Ok(u64::MAX),
    }
}
