//! What all harts may do from one node on.
ghost use Rattle.std.specs.Prelude.{◌≡◌, ◌<◌, ◌≤◌, [], ℕ, List, length, Contains, IfOk, OnOk};
ghost use Rattle.all_endings.specs.StoreLists.{Stored};
ghost use Rattle.hart_states.specs.States.{listed, stored_of};
ghost use Rattle.own_moves.specs.Owned.{owns_of};
ghost use Rattle.run_places.specs.Walks.{IsWalkFrom};
ghost use Rattle.ending_nodes.specs.KeptNodes.{Grow, node_told};
ghost use Rattle.ending_nodes.specs.Raising.{AreRight};
ghost use Rattle.all_checker.specs.Nodes.{HaveNext, IsLookOf, LeadOn};

use ending_nodes::{MappedProgram, Node, next_node};
use hart_ends::HartEnd;
use hart_states::{ListedStore, OpeningMemory};
use pages::OutOfMemory;
use run_places::{Against, HartWalk, Omission, Walk, walk_from};
use std::alloc::Global;

/// What all harts may do from a node on.
#[derive(Drop)]
pub struct NodeWalks {
    /// The stores of each hart that may come next.
    pub offered: Vec<Vec<ListedStore>>,
    /// The ends of each hart.
    pub ways: Vec<Vec<HartEnd>>,
    /// How many places of their runs there are.
    pub places: usize,
}

/// What is said of a node.
#[derive(Drop)]
pub enum Look {
    /// All harts were walked.
    Whole(NodeWalks),
    /// Nothing, for this reason.
    Unknown(Omission),
}

/// Walks through the runs of all harts from a node on, by at most so many places.
///
/// # Errors
///
/// `OutOfMemory` alone.
pub(crate) fn look_through(
    alloc: Global,
    program: &MappedProgram<'_>,
    node: &Node,
    most: usize,
) -> Result<Look, OutOfMemory>
    requires { length program.now.maps.now ≤ 64 }
    ensures { IfOk result (λ l.
        IsLookOf (owns_of program.now.owned.now) program.now.steps program.now.pages.now.memory
        (length program.now.maps.now) (node_told program.now.pages.now.memory node.now) l) }
{
    let mut walks = NodeWalks {
        offered: Vec::new(alloc),
        ways: Vec::new(alloc),
        places: 0,
    };
    for hart in 0..program.maps.len() {
        let left = most.saturating_sub(walks.places);
        match walk_hart(alloc, program, node, hart, left)? {
            Walk::Unknown(why) => return Ok(Look::Unknown(why)),
            Walk::Whole(walk) => {
                let HartWalk {
                    offered,
                    ends,
                    places,
                } = walk;
                walks.offered.push(offered)?;
                walks.ways.push(ends)?;
                walks.places = walks.places.saturating_add(places);
            }
        }
    }
    Ok(Look::Whole(walks))
}

/// Walks through a hart's runs from a node on.
fn walk_hart(
    alloc: Global,
    program: &MappedProgram<'_>,
    node: &Node,
    hart: usize,
    most: usize,
) -> Result<Walk, OutOfMemory>
    requires few { length program.now.maps.now ≤ 64 }
    requires there { hart < length program.now.maps.now }
    ensures { IfOk result (λ w.
        IsWalkFrom (owns_of program.now.owned.now) program.now.steps program.now.pages.now.memory
        (length program.now.maps.now) hart (node_told program.now.pages.now.memory node.now) w) }
{
    let against = Against {
        memory: OpeningMemory {
            pages: program.pages,
            behind: &node.behind,
        },
        hart: hart as u8,
        harts: program.maps.len() as u8,
        owned: program.owned,
        list: &node.list,
        steps: program.steps,
    };
    let walk = walk_from(alloc, &against, node.places_of(hart), most)?;
    Ok(walk)
}

/// The nodes to which the stores lead that may come next.
///
/// # Errors
///
/// `OutOfMemory` alone.
pub(crate) fn next_nodes(
    alloc: Global,
    program: &MappedProgram<'_>,
    node: &Node,
    offered: &[Vec<ListedStore>],
) -> Result<Vec<Node>, OutOfMemory>
    requires few { length program.now.maps.now ≤ 64 }
    requires right { AreRight (owns_of program.now.owned.now) program.now.pages.now.memory
        program.now.maps.now }
    ensures { IfOk result (λ v. LeadOn (owns_of program.now.owned.now) program.now.steps
        program.now.pages.now.memory (length program.now.maps.now) v.items node.now
        offered.now) }
{
    let mut next = Vec::new(alloc);
    for stores in offered {
        add_next(alloc, program, &mut next, node, stores)?;
    }
    Ok(next)
}

/// Adds the nodes to which some stores lead.
fn add_next(
    alloc: Global,
    program: &MappedProgram<'_>,
    next: &mut Vec<Node>,
    node: &Node,
    stores: &[ListedStore],
) -> Result<(), OutOfMemory>
    requires few { length program.now.maps.now ≤ 64 }
    requires right { AreRight (owns_of program.now.owned.now) program.now.pages.now.memory
        program.now.maps.now }
    ensures grow { OnOk result (Grow next.old.items next.new.items) }
    ensures added { OnOk result ((s : Stored) → Contains (listed stores.now) s →
        HaveNext (owns_of program.now.owned.now) program.now.steps
        program.now.pages.now.memory (length program.now.maps.now) next.new.items node.now s) }
{
    for store in stores {
        add_one(alloc, program, next, node, *store)?;
    }
    Ok(())
}

/// Adds the node to which a store leads.
fn add_one(
    alloc: Global,
    program: &MappedProgram<'_>,
    next: &mut Vec<Node>,
    node: &Node,
    store: ListedStore,
) -> Result<(), OutOfMemory>
    requires few { length program.now.maps.now ≤ 64 }
    requires right { AreRight (owns_of program.now.owned.now) program.now.pages.now.memory
        program.now.maps.now }
    ensures grow { OnOk result (Grow next.old.items next.new.items) }
    ensures added { OnOk result (
        HaveNext (owns_of program.now.owned.now) program.now.steps
        program.now.pages.now.memory (length program.now.maps.now) next.new.items node.now
        (stored_of store)) }
{
    let one = next_node(alloc, program, node, store)?;
    next.push(one)?;
    Ok(())
}
