use hunter::HuntSettings;
use timed_machine::Bounds;

/// How far an execution goes: through the rounds of the settings, and so many steps.
pub(crate) fn bounds_of(settings: &HuntSettings, steps: u32) -> Bounds {
    Bounds {
        rounds: settings.rounds,
        steps: u64::from(steps),
        until_fault: false,
    }
}
