ghost use Rattle.std.specs.Prelude.{◌≡◌, IfOk, IfErr, None, Some, false, true};
ghost use Rattle.std.specs.List.{list_any};
ghost use Rattle.hunter.specs.Hunts.{IsGuest, IsHunt, extent_of, has_bad_range, hunt_fault, is_bad_range, shrink_fault};
ghost use Rattle.hunter.specs.declared.error.HuntError.TheVariants.{SeenOutside};

use crate::error::HuntError;
use host_io::RunError;
use hunt_table::{Header, SeenRange};
use machine::Format;
use pages::MOST_PAGES;
use plan_hunt::{Extent, Until};
use round_schedule::{MOST_HARTS, MOST_WORKERS};

/// What a hunt is asked for.
#[derive(Drop)]
pub struct HuntSettings {
    /// How the image is read.
    pub format: Format,
    /// How many harts there are, 1 to 64.
    pub harts: u32,
    /// How many pages of 4,096 bytes guest memory has, 1 to 16,384.
    pub pages: u32,
    /// How many rounds each run does.
    pub rounds: u32,
    /// How many workers run plans at the same time, 1 to 16. Each run is done by one of them.
    pub workers: u32,
    /// The plans, and what is looked at when a run ends.
    pub header: Header,
    /// With which ending the hunt is over before its last plan.
    pub until: Until,
    /// Whether the hunt has only so much time. Its observer says whether there is some left.
    pub is_timed: bool,
}

impl HuntSettings {
    /// How far the hunt goes.
    pub fn extent(&self) -> Extent
        ensures { result ≡ extent_of self.now }
    {
        Extent {
            first: self.header.first,
            most: self.header.count,
            until: self.until,
            is_timed: self.is_timed,
        }
    }
}

/// Whether a range is empty, or has a byte outside memory of so many pages.
fn has_bad_range(ranges: &[SeenRange], pages: u32) -> bool
    ensures { result ≡ list_any (is_bad_range pages) ranges.now }
{
    ranges.iter().any(|range| range.length < 1
        || u64::from(range.address) + u64::from(range.length) > 4096 * u64::from(pages))
}

/// Refuses an empty range, and one that has a byte outside memory.
pub fn check_ranges(settings: &HuntSettings) -> Result<(), HuntError>
    ensures ok { IfOk result (λ _. has_bad_range settings.now ≡ false) }
    ensures err { IfErr result (λ e. (has_bad_range settings.now ≡ true) × (e ≡ SeenOutside)) }
{
    if has_bad_range(&settings.header.ranges, settings.pages) {
        return Err(HuntError::SeenOutside);
    }
    Ok(())
}

/// Refuses harts, pages or workers that are out of range; of several, the one of the least number.
pub fn check_guest(settings: &HuntSettings) -> Result<(), HuntError>
    ensures ok { IfOk result (λ _. IsGuest settings.now) }
    ensures err { IfErr result (λ e. (hunt_fault settings.now ≡ Some e) ×
        (shrink_fault settings.now ≡ Some e)) }
{
    if settings.harts < 1 || settings.harts > MOST_HARTS {
        return Err(HuntError::Run(RunError::HartsOutOfRange));
    }
    if settings.pages < 1 || settings.pages > MOST_PAGES {
        return Err(HuntError::Run(RunError::PagesOutOfRange));
    }
    if settings.workers < 1 || settings.workers > MOST_WORKERS {
        return Err(HuntError::Run(RunError::WorkersOutOfRange));
    }
    Ok(())
}

/// Refuses what is out of range; of several, the one of the least number.
pub fn check_hunt(settings: &HuntSettings) -> Result<(), HuntError>
    ensures ok { IfOk result (λ _. hunt_fault settings.now ≡ None) }
    ensures range { IfOk result (λ _. IsHunt settings.now) }
    ensures err { IfErr result (λ e. hunt_fault settings.now ≡ Some e) }
{
    check_guest(settings)?;
    let first = settings.header.first;
    let count = settings.header.count;
    if count < 1 || count > u32::MAX - first {
        return Err(HuntError::PlansOutOfRange);
    }
    Ok(())
}

/// The same where the plans are not looked at.
pub(crate) fn check_shrink(settings: &HuntSettings) -> Result<(), HuntError>
    ensures ok { IfOk result (λ _. shrink_fault settings.now ≡ None) }
    ensures range { IfOk result (λ _. IsGuest settings.now) }
    ensures err { IfErr result (λ e. shrink_fault settings.now ≡ Some e) }
{
    check_guest(settings)
}
