//! Places that are lost.
ghost use Rattle.std.specs.Prelude.{IsTrue};
ghost use Rattle.hart_states.specs.States.{listed};
ghost use Rattle.private_bytes.specs.PrivateWalks.{IsLost};
ghost use Rattle.run_places.specs.Spots.{place_of};

use hart_states::ListedStore;
use late_spots::stores_from;
use run_places::{Place, is_paid};

/// Whether a hart owes a store of the list that it can't do any more, by whatever rule: its bounds let it stand behind the store alone. Left where it
/// is, such a place would have the whole list behind it, though its hart didn't do all of it.
#[tactic(auto, using(crate::proofs::LostPlaces::lost_from))]
pub(crate) fn cant_pay(hart: u8, list: &[ListedStore], place: &Place) -> bool
    ensures { IsTrue result → IsLost hart (listed list.now) (place_of place.now) }
{
    for store in 0..list.len() {
        let address = list[store].address;
        if list[store].hart == hart
            && !is_paid(&place.paid, store)
            && list[store].writes(address)
            && store < stores_from(&place.state, address)
        {
            return true;
        }
    }
    false
}
