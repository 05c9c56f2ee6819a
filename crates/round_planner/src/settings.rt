ghost use Rattle.std.specs.Prelude.{◌≡◌, Some, IfErr, IfOk, None};
ghost use Rattle.round_planner.specs.Settings.{IsInRange, settings_fault};

use host_io::RunError;
use round_schedule::MOST_WORKERS;

/// How an image is read.
#[derive(Clone, Copy)]
pub enum Format {
    /// An ELF file.
    Elf,
    /// A flat file, which is guest memory from address 0 on and all code.
    Flat,
}

/// What a run is asked for.
#[derive(Drop)]
pub struct Settings<'a> {
    /// How the image is read.
    pub format: Format,
    /// How many harts there are, 1 to 64.
    pub harts: u32,
    /// How many pages of 4,096 bytes guest memory has, 1 to 16,384.
    pub pages: u32,
    /// How many rounds are done.
    pub rounds: u32,
    /// How many workers there are, 1 to 16.
    pub workers: u32,
    /// How many instructions a hart may do in a serial turn, 1 to 1,000.
    pub budget: u32,
    /// The text of the plan.
    pub plan: &'a [u8],
}

/// Refuses numbers that are out of range; of several, the one of the least refusal.
pub fn check_settings(settings: &Settings<'_>) -> Result<(), RunError>
    ensures ok { IfOk result (λ _. settings_fault settings.now ≡ None) }
    ensures range { IfOk result (λ _. IsInRange settings.now) }
    ensures err { IfErr result (λ e. settings_fault settings.now ≡ Some e) }
{
    if settings.harts < 1 || settings.harts > 64 {
        return Err(RunError::HartsOutOfRange);
    }
    if settings.pages < 1 || settings.pages > 16_384 {
        return Err(RunError::PagesOutOfRange);
    }
    if settings.workers < 1 || settings.workers > MOST_WORKERS {
        return Err(RunError::WorkersOutOfRange);
    }
    if settings.budget < 1 || settings.budget > 1000 {
        return Err(RunError::BudgetOutOfRange);
    }
    Ok(())
}
