//! Nodes of which some stores are laid into memory, as far as the harts' runs let them.
ghost use Rattle.std.specs.Prelude.{◌≡◌, ◌<◌, ◌≤◌, Bool, List, length, IfOk, IfSome};
ghost use Rattle.hart_step.specs.declared.hart.Hart.{Hart};
ghost use Rattle.all_endings.specs.Offering.{AreFresh};
ghost use Rattle.hart_states.specs.States.{listed, stored_of};
ghost use Rattle.own_moves.specs.Owned.{owns_of};
ghost use Rattle.list_suffixes.specs.Serving.{IsRaised};
ghost use Rattle.list_suffixes.specs.Staying.{MayBeLaid};
ghost use Rattle.ending_nodes.specs.KeptNodes.{node_over, node_told};
ghost use Rattle.ending_nodes.specs.Raising.{AreKnown, AreRight, AreSettled, IsAgainst, IsLaid, ServesNext};

use crate::laying::laid_together;
use crate::node::{Node, longer_list, with_list};
use crate::program::MappedProgram;
use crate::staying::{all_stay, held, kept_stores, laid_stores};
use hart_states::{ListedStore, OpeningMemory};
use list_suffixes::{longer_lists_are_served, raised_nodes_serve, settled_walks_come_past};
use pages::OutOfMemory;
use run_places::{Against, Place};
use settled_walks::{known_places, mark_staying, settle};
use std::alloc::Global;

/// The node to which a store leads that comes next. Of the list and this store those are laid into memory that no hart's runs hang on, as far as
/// that is known.
///
/// # Errors
///
/// `OutOfMemory` alone.
pub fn next_node(
    alloc: Global,
    program: &MappedProgram<'_>,
    node: &Node,
    store: ListedStore,
) -> Result<Node, OutOfMemory>
    requires few { length program.now.maps.now ≤ 64 }
    requires right { AreRight (owns_of program.now.owned.now) program.now.pages.now.memory
        program.now.maps.now }
    ensures { IfOk result (λ t. (hs : List Hart) → length hs ≡ length program.now.maps.now →
        AreFresh hs →
        ServesNext (owns_of program.now.owned.now) program.now.steps
        program.now.pages.now.memory hs (node_told program.now.pages.now.memory node.now)
        (stored_of store) (node_told program.now.pages.now.memory t)) }
{
    longer_lists_are_served();
    raised_nodes_serve();
    let list = longer_list(alloc, node, store)?;
    let higher = raised(alloc, program, node, &list)?;
    match higher {
        Some(raised) => Ok(raised),
        None => {
            let longer = with_list(alloc, node, list)?;
            Ok(longer)
        }
    }
}

/// The node with some stores of a longer list laid into memory. None where all of them stay, or it isn't known how a hart's runs go on from there.
fn raised(
    alloc: Global,
    program: &MappedProgram<'_>,
    node: &Node,
    list: &[ListedStore],
) -> Result<Option<Node>, OutOfMemory>
    requires few { length program.now.maps.now ≤ 64 }
    requires right { AreRight (owns_of program.now.owned.now) program.now.pages.now.memory
        program.now.maps.now }
    ensures { IfOk result (λ r. IfSome r (λ t. (stays : List Bool) ×
        IsRaised (owns_of program.now.owned.now) program.now.steps
        program.now.pages.now.memory (length program.now.maps.now) stays
        (node_over program.now.pages.now.memory node.now (listed list.now))
        (node_told program.now.pages.now.memory t))) }
{
    settled_walks_come_past();
    let walked = known(alloc, program, node, list)?;
    let walks = match walked {
        Some(walks) => walks,
        None => return Ok(None),
    };
    let stays = staying(alloc, program, node, list, &walks)?;
    if all_stay(&stays) {
        return Ok(None);
    }
    let found = settled(alloc, program, node, list, &walks, &stays)?;
    let places = match found {
        Some(places) => places,
        None => return Ok(None),
    };
    let over = with_laid(alloc, node, list, &stays, places)?;
    Ok(Some(over))
}

/// A node with these places, where some stores of a list stay, and the others are laid into memory.
fn with_laid(
    alloc: Global,
    node: &Node,
    list: &[ListedStore],
    stays: &[bool],
    places: Vec<Vec<Place>>,
) -> Result<Node, OutOfMemory>
    ensures { IfOk result (λ t. IsLaid stays.now (listed list.now) node.now places.items t) }
{
    let laid = laid_stores(alloc, list, stays)?;
    Ok(Node {
        behind: laid_together(alloc, &node.behind, &laid)?,
        list: kept_stores(alloc, list, stays)?,
        places,
    })
}

/// The places that each hart's runs come to by what is known alone, against a list.
fn known<'a>(
    alloc: Global,
    program: &MappedProgram<'a>,
    node: &'a Node,
    list: &'a [ListedStore],
) -> Result<Option<Vec<Vec<Place>>>, OutOfMemory>
    requires few { length program.now.maps.now ≤ 64 }
    ensures { IfOk result (λ r. IfSome r (λ ps. AreKnown (owns_of program.now.owned.now)
        program.now.steps program.now.pages.now.memory (length program.now.maps.now)
        node.now (listed list.now) ps.items)) }
{
    let mut all = Vec::new(alloc);
    if program.maps.len() < node.places.len() {
        return Ok(None);
    }
    for hart in 0..node.places.len() {
        let against = against_of(program, node, list, hart);
        let found = known_places(alloc, &against, node.places_of(hart), program.most)?;
        match found {
            Some(places) => all.push(places)?,
            None => return Ok(None),
        }
    }
    Ok(Some(all))
}

/// Which stores of a list stay: those that a hart's runs need, and those that meet such a one.
fn staying<'a>(
    alloc: Global,
    program: &MappedProgram<'a>,
    node: &'a Node,
    list: &'a [ListedStore],
    walks: &[Vec<Place>],
) -> Result<Vec<bool>, OutOfMemory>
    requires few { length program.now.maps.now ≤ 64 }
    ensures many { IfOk result (λ v. length v.items ≡ length list.now) }
    ensures free { IfOk result (λ v. MayBeLaid v.items (listed list.now)) }
{
    let mut marked = vec![in alloc; false; list.len()]?;
    for hart in 0..walks.len().min(program.maps.len()) {
        let against = against_of(program, node, list, hart);
        mark_staying(
            alloc,
            &against,
            &program.maps[hart],
            &walks[hart],
            &mut marked,
        )?;
    }
    let stays = held(alloc, list, &marked)?;
    Ok(stays)
}

/// The places from which each hart's runs go on over what the stores leave that are laid into memory.
fn settled<'a>(
    alloc: Global,
    program: &MappedProgram<'a>,
    node: &'a Node,
    list: &'a [ListedStore],
    walks: &[Vec<Place>],
    stays: &[bool],
) -> Result<Option<Vec<Vec<Place>>>, OutOfMemory>
    requires few { length program.now.maps.now ≤ 64 }
    requires right { AreRight (owns_of program.now.owned.now) program.now.pages.now.memory
        program.now.maps.now }
    ensures { IfOk result (λ r. IfSome r (λ ps. AreSettled (owns_of program.now.owned.now)
        program.now.steps program.now.pages.now.memory (length program.now.maps.now)
        stays.now node.now (listed list.now) walks.now ps.items)) }
{
    let mut all = Vec::new(alloc);
    if program.maps.len() < node.places.len() || walks.len() < node.places.len() {
        return Ok(None);
    }
    for hart in 0..node.places.len() {
        let against = against_of(program, node, list, hart);
        let found = settle(alloc, &against, &program.maps[hart], stays, &walks[hart])?;
        match found {
            Some(places) => all.push(places)?,
            None => return Ok(None),
        }
    }
    Ok(Some(all))
}

/// What a hart's runs are walked against: a list, over the memory of a node.
fn against_of<'a>(
    program: &MappedProgram<'a>,
    node: &'a Node,
    list: &'a [ListedStore],
    hart: usize,
) -> Against<'a>
    requires few { length program.now.maps.now ≤ 64 }
    requires mapped { hart < length program.now.maps.now }
    ensures { IsAgainst result program.now node.now list.now hart }
{
    Against {
        memory: OpeningMemory {
            pages: program.pages,
            behind: &node.behind,
        },
        hart: hart as u8,
        harts: program.maps.len() as u8,
        owned: program.owned,
        list,
        steps: program.steps,
    }
}
