//! Who has reserved what, through the public calls of `Reservations`.

use pages::Width::{W1, W4, W8};
use round_schedule::Reservations;

#[test]
fn keeps_and_breaks_by_bytes(rt: HostRuntime) {
    // A take of another width drops the reservation all the same.
    let mut reservations = Reservations::new(2);
    reservations.set(0, 0x100, W8);
    assert!(rt; !reservations.take(0, 0x100, W4));
    assert!(rt; !reservations.take(0, 0x100, W8));

    // A hart's own writes keep its reservation.
    let mut own = Reservations::new(2);
    own.set(0, 0x100, W4);
    own.break_by(0, 0x100, W8);
    assert!(rt; own.take(0, 0x100, W4));

    // Another hart's write breaks it only where they share a byte.
    let mut beside = Reservations::new(2);
    beside.set(0, 0x100, W8);
    assert!(rt; beside.is_only_of(0) && !beside.is_only_of(1));
    beside.break_by(1, 0x108, W8);
    let equal = beside.copy();
    beside.break_by(1, 0x107, W1);
    assert!(rt; !beside.take(0, 0x100, W8));
    let mut kept = equal;
    assert!(rt; kept.take(0, 0x100, W8));
}
