ghost use Rattle.std.specs.Prelude.{◌≡◌, ◌<◌, ◌+◌, ◌^◌, Err, IfOk, IfErr};
ghost use Rattle.host_io.specs.declared.error.RunError.TheVariants as refusals;
ghost use Rattle.round_planner.specs.Quotas.{quotas_of};
ghost use Rattle.hart_step.specs.Words.{words_of};
ghost use Rattle.serial_phase.specs.Asking.{asks_in_round};
ghost use Rattle.serial_phase.specs.Forgetting.{asks_number};
ghost use Rattle.machine.specs.Machine.{Running};
ghost use Rattle.machine.specs.Untraced.{IsUntraced};

use guest_rounds::{Crew, MANY_LINES};
use guest_turns::asks_in_round;
use hart_rounds::LogForm;
use host_io::RunError;
use machine::{MachineFields, UntracedMachine};
use parallel_phase::Open;
use std::sync::Wait;
use std::thread::Threads;

/// Whether a hart asks for the number of the round in the next round of the run of which this is the machine without its trace. It may
/// wait.
///
/// # Errors
///
/// `RoundsExhausted` where 4,294,967,295 rounds were done before, and `OutOfMemory`.
pub fn asks_number<R: Threads + Wait + Sync>(
    rt: &R,
    machine: UntracedMachine,
) -> Result<bool, RunError>
    requires run { (m : Running) × IsUntraced m machine }
    ensures asks { (m : Running) → IsUntraced m machine → IfOk result (λ b. b ≡
        asks_in_round (words_of m.code) (asks_number m.code) m.plan.budget (quotas_of m.plan)
        m.state) }
    ensures exhausted { machine.rounds + 1 ≡ 2 ^ 32 → result ≡ Err refusals.RoundsExhausted }
    ensures refused { machine.rounds + 1 < 2 ^ 32 →
        IfErr result (λ e. e ≡ refusals.OutOfMemory) }
{
    if machine.rounds() == u32::MAX {
        return Err(RunError::RoundsExhausted);
    }
    let crew = Crew {
        rt,
        workers: 1,
        gate: &Open,
        least_lines: MANY_LINES,
        form: LogForm::Counted,
    };
    let MachineFields {
        guest,
        plan,
        rounds,
    } = machine.into_fields();
    Ok(asks_in_round(&crew, guest, &plan, rounds)?)
}
