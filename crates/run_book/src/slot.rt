//! A slot of a table, as its holder changes it.

ghost use Rattle.std.specs.Prelude.{◌≡◌, ◌∷◌};
ghost use Rattle.atomic_table.specs.Table.{rest};

use atomic_table::{Seat as Place, Shared, TableRule};

/// Puts a value into the first slot, which the seat took last, and gives the value that stood there.
// docs/decisions/shared-book.md
pub(crate) fn replace_slot<S, V, K, P: TableRule<S, V, K>>(
    table: &Shared<S, V, K, P>,
    place: &mut Place<S, V>,
    new: S,
) -> S
    requires { (place.old.table_id ≡ table.now.table_id) ×
        ((old : S) × (place.old.me.1 ≡ (0, old) ∷ rest place.old.me.1)) }
    ensures { (place.new.table_id ≡ place.old.table_id) × (place.new.id ≡ place.old.id) ×
        (place.old.me.1 ≡ (0, result) ∷ rest place.old.me.1) ×
        (place.new.me ≡ (place.old.me.0, (0, new) ∷ rest place.old.me.1)) }
{
    table.exchange(place, 0, new)
}
