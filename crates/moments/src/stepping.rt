ghost use Rattle.std.specs.Prelude.{◌≡◌, None};
ghost use Rattle.hart_step.specs.DecodedCode.{Shows};
ghost use Rattle.hart_step.specs.Step.{stepped};
ghost use Rattle.hart_step.specs.Performs.{Performs};

use hart_step::{Bus, DecodedCode, Hart, step, step_decoded};
use pages::OutOfMemory;
use round_schedule::Stepped;

/// Does the hart's next instruction, as the decoded code has it, where it does.
#[inline(always)]
pub(crate) fn step_by<B: Bus>(
    h: &mut Hart,
    b: &mut B,
    code: &DecodedCode,
) -> Result<Stepped, OutOfMemory>
    requires running { h.old.stop ≡ None }
    requires shows { Shows (B.memory b.old) code.now.first code.now.instructions }
    ensures { Performs (λ s. s) (B.has_room b.old) (B.takes b.old)
        (record { hart = h.old; memory = B.memory b.old }) (stepped h.old (B.memory b.old))
        (record {
          result = result;
          hart = h.new;
          memory = B.memory b.new;
          bus = b.new;
        }) }
{
    match code.get(h.pc) {
        Some(i) => step_decoded(h, b, i),
        None => step(h, b),
    }
}
