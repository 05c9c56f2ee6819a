//! What a node is.
ghost use Rattle.std.specs.Prelude.{◌≡◌, ℕ, Bool, [], ◌∷◌, ◌++◌, IfOk};
ghost use Rattle.pages.specs.Memory.{Memory};
ghost use Rattle.all_endings.specs.Offering.{AreFresh};
ghost use Rattle.hart_states.specs.States.{listed, stored_of};
ghost use Rattle.list_suffixes.specs.Serving.{IsServed};
ghost use Rattle.list_suffixes.specs.SettledWalks.{AreAhead};
ghost use Rattle.private_bytes.specs.PrivateWalks.{first_spot};
ghost use Rattle.run_places.specs.Spots.{spots_of};
ghost use Rattle.ending_nodes.specs.KeptNodes.{AreFirst, node_over, node_told, spots_told};

use hart_states::ListedStore;
use hart_step::Hart;
use list_suffixes::{first_node_serves, standing_nodes_serve};
use pages::OutOfMemory;
use run_places::{Place, first_place};
use std::alloc::Global;

/// Where the runs of harts go on, over memory, and against the stores since then.
#[derive(Drop)]
pub struct Node {
    /// Memory: what these stores leave of it as the program begins.
    pub behind: Vec<ListedStore>,
    /// The stores since then, in the order of global memory.
    pub list: Vec<ListedStore>,
    /// Each hart's places.
    pub places: Vec<Vec<Place>>,
}

impl Node {
    ghost use Rattle.std.specs.Prelude.{◌≡◌, IfOk};
    ghost use Rattle.pages.specs.Memory.{Memory};
    ghost use Rattle.ending_nodes.specs.KeptNodes.{node_told, spots_at};
    ghost use Rattle.run_places.specs.Spots.{spots_of};

    /// The same node once more.
    ///
    /// # Errors
    ///
    /// `OutOfMemory` alone.
    pub fn copy(&self, alloc: Global) -> Result<Node, OutOfMemory>
        ensures { IfOk result (λ n. (image : Memory) →
            node_told image n ≡ node_told image self.now) }
    {
        Ok(Node {
            behind: Vec::from_slice(alloc, &self.behind)?,
            list: Vec::from_slice(alloc, &self.list)?,
            places: copied_places(alloc, &self.places)?,
        })
    }

    /// The places of a hart.
    pub fn places_of(&self, hart: usize) -> &[Place]
        ensures { spots_of result.now ≡ spots_at self.now.places.items hart }
    {
        if hart < self.places.len() {
            return &self.places[hart];
        }
        &[]
    }
}

/// The node where harts begin.
///
/// # Errors
///
/// `OutOfMemory` alone.
pub fn first_node(alloc: Global, harts: &[Hart]) -> Result<Node, OutOfMemory>
    ensures { IfOk result (λ n. (owns : ℕ → ℕ → Bool) (k : ℕ) (image : Memory) →
        AreFresh harts.now → IsServed owns k image harts.now (node_told image n) []) }
{
    first_node_serves();
    standing_nodes_serve();
    Ok(Node {
        behind: Vec::new(alloc),
        list: Vec::new(alloc),
        places: first_places(alloc, harts)?,
    })
}

/// The place where each hart begins.
fn first_places(alloc: Global, harts: &[Hart]) -> Result<Vec<Vec<Place>>, OutOfMemory>
    ensures { IfOk result (λ ps. AreFirst harts.now ps.items) }
{
    let mut places = Vec::new(alloc);
    for hart in harts {
        let begins = one_place(alloc, hart)?;
        places.push(begins)?;
    }
    Ok(places)
}

/// The place where a hart begins, alone.
fn one_place(alloc: Global, hart: &Hart) -> Result<Vec<Place>, OutOfMemory>
    ensures { IfOk result (λ ps. AreAhead (spots_of ps.items) (first_spot hart.now)) }
{
    let mut places = Vec::new(alloc);
    let place = first_place(alloc, hart);
    places.push(place)?;
    Ok(places)
}

/// The list of a node, and one store more.
pub(crate) fn longer_list(
    alloc: Global,
    node: &Node,
    store: ListedStore,
) -> Result<Vec<ListedStore>, OutOfMemory>
    ensures { IfOk result (λ v. listed v.items ≡
        listed node.now.list.items ++ stored_of store ∷ []) }
{
    let mut list = Vec::from_slice(alloc, &node.list)?;
    list.push(store)?;
    Ok(list)
}

/// A node with another list in place of its own.
pub(crate) fn with_list(
    alloc: Global,
    node: &Node,
    list: Vec<ListedStore>,
) -> Result<Node, OutOfMemory>
    ensures { IfOk result (λ n. (image : Memory) →
        node_told image n ≡ node_over image node.now (listed list.items)) }
{
    Ok(Node {
        behind: Vec::from_slice(alloc, &node.behind)?,
        list,
        places: copied_places(alloc, &node.places)?,
    })
}

/// The places of all harts once more.
fn copied_places(alloc: Global, places: &[Vec<Place>]) -> Result<Vec<Vec<Place>>, OutOfMemory>
    ensures { IfOk result (λ ps. spots_told ps.items ≡ spots_told places.now) }
{
    let mut all = Vec::new(alloc);
    for one in places {
        let copy = copied(alloc, one)?;
        all.push(copy)?;
    }
    Ok(all)
}

/// Places once more.
fn copied(alloc: Global, places: &[Place]) -> Result<Vec<Place>, OutOfMemory>
    ensures { IfOk result (λ ps. spots_of ps.items ≡ spots_of places.now) }
{
    let mut copy = Vec::new(alloc);
    for place in places {
        let one = place.copy(alloc)?;
        copy.push(one)?;
    }
    Ok(copy)
}
