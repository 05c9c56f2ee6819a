use hart_walks::Kept;
use pages::OutOfMemory;
use run_states::Runs;
use std::alloc::Global;
use store_lists::ListedStore;

/// A node of the search that is gone through: a list of stores, and what each hart can do against it.
#[derive(Drop)]
pub(crate) struct Node {
    /// The number of each hart's runs among those that are kept.
    pub(crate) runs: Vec<usize>,
    /// The stores that may come next.
    pub(crate) children: Vec<ListedStore>,
    /// How many of these were gone through.
    pub(crate) gone: usize,
    /// How many runs were kept before it.
    pub(crate) runs_before: usize,
    /// What else was.
    pub(crate) kept_before: Kept,
    /// Its number among the nodes that aren't covered by another.
    pub(crate) number: usize,
}

/// A node that was gone through.
#[derive(Drop)]
pub struct KeptNode {
    /// The stores.
    pub list: Vec<ListedStore>,
    /// The runs of each hart.
    pub harts: Vec<Runs>,
    /// For each store that may come next the number of the node that its list leads to, or that covers it.
    pub children: Vec<(ListedStore, usize)>,
}

/// The stores that may come next by some harts, in a fixed order.
pub(crate) fn children_of(
    alloc: Global,
    runs: &[Runs],
    numbers: &[usize],
) -> Result<Vec<ListedStore>, OutOfMemory> {
    let mut children = Vec::new(alloc);
    for number in numbers {
        if let Some(runs) = runs.get(*number) {
            for store in &runs.next {
                children.push(*store)?;
            }
        }
    }
    children.sort_unstable_by_key(|child: &ListedStore| {
        (
            child.hart,
            child.store.address,
            child.store.width.bytes(),
            child.store.value,
        )
    });
    Ok(children)
}
