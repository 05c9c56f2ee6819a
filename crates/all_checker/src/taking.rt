//! Nodes that are looked through, one after the other, with what was found of each.
ghost use Rattle.std.specs.Prelude.{◌≡◌, ◌+◌, ◌≤◌, ◌<◌, ℕ, [], Bool, length, slice_index_or, All as Each, IfOk, IfSome, OnOk};
ghost use Rattle.pages.specs.Memory.{Memory};
ghost use Rattle.all_endings.specs.Offering.{AreFresh};
ghost use Rattle.own_moves.specs.Owned.{owns_of};
ghost use Rattle.ending_nodes.specs.KeptNodes.{Grow, HaveOneFor};
ghost use Rattle.ending_nodes.specs.declared.node.Node.{Node as KeptNode};
ghost use Rattle.all_checker.specs.Nodes.{AreSightsFrom, IsSeenThrough};
ghost use Rattle.all_checker.specs.Tables.{AreTaken, HaveFirst};

use crate::guest::Guest;
use crate::sighting::{NodeSight, Sight};
use ending_nodes::{MappedProgram, Node, Nodes, first_node};
use hart_ends::{TableEnding, add_endings};
use hart_step::Hart;
use pages::OutOfMemory;
use run_places::Omission;
use std::alloc::Global;

/// Nodes, of which the first ones are looked through.
#[derive(Drop)]
pub struct LookedNodes {
    /// All that were come to.
    pub nodes: Nodes,
    /// The endings of those that are looked through.
    pub table: Vec<TableEnding>,
    /// How many these are.
    pub done: usize,
    /// How many places of runs may still be looked at.
    pub left: usize,
}

/// The node where harts begin alone, which isn't looked through yet.
///
/// # Errors
///
/// `OutOfMemory` alone.
pub(crate) fn none_taken(
    alloc: Global,
    harts: &[Hart],
    left: usize,
) -> Result<LookedNodes, OutOfMemory>
    ensures first { IfOk result (λ t. AreFresh harts.now →
        (owns : ℕ → ℕ → Bool) (k : ℕ) (image : Memory) →
        HaveFirst owns k image harts.now t.nodes.all.items) }
    ensures none { IfOk result (λ t. t.done ≡ 0) }
{
    let mut nodes = Nodes::new(alloc);
    let first = first_node(alloc, harts)?;
    nodes.add(first)?;
    Ok(LookedNodes {
        nodes,
        table: Vec::new(alloc),
        done: 0,
        left,
    })
}

/// Takes in what was found of the next nodes. Answers why nothing can be said, if that was found of one of them.
///
/// # Errors
///
/// `OutOfMemory` alone: where it is refused here, or where a slot is empty, since it was refused to who was to fill it.
pub(crate) fn take_batch(
    alloc: Global,
    program: &MappedProgram<'_>,
    guest: &Guest<'_>,
    taken: &mut LookedNodes,
    slots: Vec<Option<Sight>>,
) -> Result<Option<Omission>, OutOfMemory>
    requires harts { length guest.now.harts.now ≡ length program.now.maps.now }
    requires fresh { AreFresh guest.now.harts.now }
    requires taken { AreTaken (owns_of program.now.owned.now) program.now.steps
        program.now.pages.now.memory guest.now.harts.now guest.now.see.now taken.old }
    requires within { taken.old.done + length slots.items ≤ length taken.old.nodes.all.items }
    requires sights { AreSightsFrom (owns_of program.now.owned.now) program.now.steps
        program.now.pages.now.memory (length program.now.maps.now) guest.now.see.now
        taken.old.nodes.all.items taken.old.done slots.items }
    ensures taken { OnOk result (AreTaken (owns_of program.now.owned.now) program.now.steps
        program.now.pages.now.memory guest.now.harts.now guest.now.see.now taken.new) }
    ensures more { result ≡ Ok None → taken.new.done ≡ taken.old.done + length slots.items }
{
    for slot in slots {
        match slot {
            None => return Err(OutOfMemory),
            Some(Sight::Unknown(why)) => return Ok(Some(why)),
            Some(Sight::Whole(sight)) => take_in(alloc, program, guest, taken, sight)?,
        }
    }
    Ok(None)
}

/// Takes in what was found of the next node: its endings, and the nodes to which it leads.
fn take_in(
    alloc: Global,
    program: &MappedProgram<'_>,
    guest: &Guest<'_>,
    taken: &mut LookedNodes,
    sight: NodeSight,
) -> Result<(), OutOfMemory>
    requires harts { length guest.now.harts.now ≡ length program.now.maps.now }
    requires fresh { AreFresh guest.now.harts.now }
    requires taken { AreTaken (owns_of program.now.owned.now) program.now.steps
        program.now.pages.now.memory guest.now.harts.now guest.now.see.now taken.old }
    requires more { taken.old.done < length taken.old.nodes.all.items }
    requires sight { (d : KeptNode) → IsSeenThrough (owns_of program.now.owned.now)
        program.now.steps program.now.pages.now.memory (length program.now.maps.now)
        guest.now.see.now (slice_index_or taken.old.nodes.all.items taken.old.done d) sight }
    ensures taken { OnOk result (AreTaken (owns_of program.now.owned.now) program.now.steps
        program.now.pages.now.memory guest.now.harts.now guest.now.see.now taken.new) }
    ensures grow { OnOk result (Grow taken.old.nodes.all.items taken.new.nodes.all.items) }
    ensures done { OnOk result (taken.new.done ≡ taken.old.done + 1) }
{
    let NodeSight { walks, seen, next } = sight;
    add_endings(alloc, &mut taken.table, &walks.ways, &seen)?;
    add_all(&mut taken.nodes, next)?;
    taken.done += 1;
    taken.left = taken.left.saturating_sub(walks.places);
    Ok(())
}

/// Adds nodes, but for those for which others stand.
fn add_all(nodes: &mut Nodes, next: Vec<Node>) -> Result<(), OutOfMemory>
    ensures grow { OnOk result (Grow nodes.old.all.items nodes.new.all.items) }
    ensures have { OnOk result (Each (HaveOneFor nodes.new.all.items) next.items) }
{
    for node in next {
        nodes.add(node)?;
    }
    Ok(())
}
