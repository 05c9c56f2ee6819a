//! Nodes that stand for others.
ghost use Rattle.std.specs.Prelude.{◌≡◌, ℕ, Contains, IsTrue};
ghost use Rattle.pages.specs.Memory.{Memory};
ghost use Rattle.list_suffixes.specs.Serving.{NodeStandsFor};
ghost use Rattle.list_suffixes.specs.SettledWalks.{AreAhead};
ghost use Rattle.private_bytes.specs.PrivateWalks.{Spot};
ghost use Rattle.run_places.specs.Spots.{spot_of, spots_of};
ghost use Rattle.ending_nodes.specs.KeptNodes.{node_told, spots_at};

use crate::node::Node;
use hart_states::ListedStore;
use run_places::{Place, stands_for};

/// Whether a node stands for another one: it has the same memory and stores, and for each place of the other one there is one of the same hart
/// that stands for it.
pub(crate) fn node_stands_for(node: &Node, other: &Node) -> bool
    ensures { IsTrue result → (image : Memory) (harts : ℕ) →
        NodeStandsFor harts (node_told image node.now) (node_told image other.now) }
{
    if !are_same(&node.behind, &other.behind) {
        return false;
    }
    if !are_same(&node.list, &other.list) {
        return false;
    }
    each_stand_for(&node.places, &other.places)
}

/// Whether stores are the same, in the same order.
fn are_same(stores: &[ListedStore], others: &[ListedStore]) -> bool
    ensures { IsTrue result → stores.now ≡ others.now }
{
    stores == others
}

/// Whether each hart has a place for each of its others that stands for it.
fn each_stand_for(places: &[Vec<Place>], others: &[Vec<Place>]) -> bool
    ensures { IsTrue result → (h : ℕ) (p : Spot) → Contains (spots_at others.now h) p →
        AreAhead (spots_at places.now h) p }
{
    if places.len() < others.len() {
        return false;
    }
    for hart in 0..others.len() {
        if !all_stand_for(&places[hart], &others[hart]) {
            return false;
        }
    }
    true
}

/// Whether there is a place for each of the others that stands for it.
fn all_stand_for(places: &[Place], others: &[Place]) -> bool
    ensures { IsTrue result → (p : Spot) → Contains (spots_of others.now) p →
        AreAhead (spots_of places.now) p }
{
    for other in others {
        if !one_stands_for(places, other) {
            return false;
        }
    }
    true
}

/// Whether a place stands for another one.
fn one_stands_for(places: &[Place], other: &Place) -> bool
    ensures { IsTrue result → AreAhead (spots_of places.now) (spot_of other.now) }
{
    for place in places {
        if stands_for(place, other) {
            return true;
        }
    }
    false
}
