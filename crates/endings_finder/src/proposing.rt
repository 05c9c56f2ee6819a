//! What a search proposes, as far as the judge of endings allows it.

ghost use Rattle.std.specs.Prelude.{IfOk};
ghost use Rattle.endings_finder.specs.AllEndings.{AreConfirmed, guest_from};

use crate::confirming::{Confirmed, has_waiting};
use crate::guest::{Guest, searched_guest, searched_ranges};
use crate::others::Reach;
use crate::searching::{EndingsObserver, own_doublewords, search_through};
use all_checker::OwnDoubleword;
use all_search::{Limits, Omission, Search};
use endings_table::Why;
use pages::OutOfMemory;

/// What a search proposes, as far as the judge of endings allows it.
#[derive(Drop)]
pub(crate) struct Proposals {
    pub(crate) nodes: u64,
    pub(crate) confirmed: Confirmed,
    /// Why there may be other endings.
    pub(crate) why: Option<Why>,
    /// The doublewords that one hart alone was seen to touch.
    pub(crate) owned: Vec<OwnDoubleword>,
    /// The addresses of the fences that harts were seen to pass, in rising order.
    pub(crate) fences: Vec<u64>,
}

/// Searches for the endings of a guest.
///
/// # Errors
///
/// `OutOfMemory` alone.
pub(crate) fn proposals_of<O: EndingsObserver>(
    guest: &Guest<'_>,
    reach: Reach,
    observer: &mut O,
) -> Result<Proposals, OutOfMemory>
    ensures { IfOk result (λ p. AreConfirmed
        (guest_from guest.now.program.now guest.now.scripted) guest.now.ranges.now
        guest.now.keeps p.confirmed.endings.items p.confirmed.executions.items) }
{
    let searched = searched_guest(guest, reach.steps)?;
    let see = searched_ranges(guest.alloc, guest.ranges)?;
    let limits = Limits {
        nodes: u64::from(reach.nodes),
        keeps_nodes: false,
    };
    let mut search = Search::new(guest.alloc, &searched, &see, limits)?;
    let why = search_through(&mut search, observer)?;
    let confirmed = confirm_all(guest, &search)?;
    let mut fences = Vec::from_slice(guest.alloc, search.fences())?;
    fences.sort_unstable();
    Ok(Proposals {
        nodes: search.count_nodes(),
        why: if confirmed.refused != 0 {
            why.or(Some(Why::Unchecked))
        } else {
            why
        },
        owned: own_doublewords(guest.alloc, &search)?,
        fences,
        confirmed,
    })
}

/// The endings of a search that the judge allows. Where harts ask for the number of the round, one that waits may have its end by that.
fn confirm_all(guest: &Guest<'_>, search: &Search<'_>) -> Result<Confirmed, OutOfMemory>
    ensures { IfOk result (λ c. AreConfirmed
        (guest_from guest.now.program.now guest.now.scripted) guest.now.ranges.now
        guest.now.keeps c.endings.items c.executions.items) }
{
    let asks_round = search.omissions().contains(&Omission::RoundCall);
    let mut confirmed = Confirmed::none(guest.alloc);
    for found in search.endings().values() {
        if !asks_round || !has_waiting(found) {
            confirmed.add(guest, found)?;
        }
    }
    Ok(confirmed)
}
