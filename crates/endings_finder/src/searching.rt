use all_checker::OwnDoubleword;
use all_search::{Omission, Search};
use endings_table::Why;
use pages::OutOfMemory;
use std::alloc::Global;

/// How many instructions are followed between two looks at the clock.
const SLICE: u64 = 100_000;

/// Who looks on while endings are searched for.
pub trait EndingsObserver {
    /// Looks at how many nodes were gone through, how many stores the longest list has, and how many endings were found; and says whether
    /// there is time to go on.
    fn look(&mut self, nodes: u64, stores: u64, endings: u64) -> bool;
}

/// Nobody looks on, and there is time.
#[derive(Clone, Copy)]
pub struct UnobservedEndings;

impl EndingsObserver for UnobservedEndings {
    fn look(&mut self, _nodes: u64, _stores: u64, _endings: u64) -> bool {
        true
    }
}

/// Goes on with a search until it is done, or until there is no more time. Answers whether it is done.
///
/// # Errors
///
/// `OutOfMemory` alone.
fn go_on<O: EndingsObserver>(
    search: &mut Search<'_>,
    observer: &mut O,
) -> Result<bool, OutOfMemory> {
    for _ in 0..u64::MAX {
        if search.advance(SLICE)? {
            return Ok(true);
        }
        let (nodes, stores) = (search.count_nodes(), search.deepest());
        if !observer.look(nodes, stores, search.endings().len() as u64) {
            return Ok(false);
        }
    }
    Ok(false)
}

/// Searches, and answers why there may be endings that it hasn't found; none where it went through all.
///
/// # Errors
///
/// `OutOfMemory` alone.
pub(crate) fn search_through<O: EndingsObserver>(
    search: &mut Search<'_>,
    observer: &mut O,
) -> Result<Option<Why>, OutOfMemory> {
    let is_done = go_on(search, observer)?;
    Ok(why_others(search, is_done))
}

/// The doublewords that a search saw one hart alone touch.
///
/// # Errors
///
/// `OutOfMemory` alone.
pub(crate) fn own_doublewords(
    alloc: Global,
    search: &Search<'_>,
) -> Result<Vec<OwnDoubleword>, OutOfMemory> {
    let mut owned = Vec::new(alloc);
    for (number, hart) in &search.touched_by_one()? {
        owned.push(OwnDoubleword {
            number: *number,
            hart: *hart,
        })?;
    }
    Ok(owned)
}

/// Why there may be endings that a search hasn't found.
fn why_others(search: &Search<'_>, is_done: bool) -> Option<Why> {
    if let Some(omission) = search.omissions().first() {
        return Some(why_omitted(*omission));
    }
    if !is_done {
        return Some(Why::Time);
    }
    if search.is_out_of_nodes() {
        return Some(Why::Nodes);
    }
    if search.is_cut() {
        return Some(Why::Steps);
    }
    None
}

fn why_omitted(omission: Omission) -> Why {
    match omission {
        Omission::LateCall => Why::Call,
        Omission::RoundCall => Why::Round,
        Omission::SharedInput => Why::Input,
        Omission::FullConsole => Why::Output,
        Omission::ManyStates => Why::States,
    }
}
