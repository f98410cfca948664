//! What a floor is asked, and told line by line.

use crate::keys::Keys;
use crate::words::{Line, tell};
use rx_crew::Floor;
use rx_ledger::Seat;
use rx_resource::{Resource as _, Sample};
use std::sync::ledger::Ledger;

/// `sums`: how many events, items, open nodes, leases, and resources accepted, held, waiting and taken there are.
pub fn sums_of<I: Ledger, A: Ledger, K: Ledger>(floor: &Floor<Sample, I, A, K>) -> [u64; 8] {
    [
        floor.len(),
        floor.items(),
        floor.open_count(),
        floor.leases(),
        floor.accepted(),
        floor.held(),
        floor.waiting(),
        floor.taken(),
    ]
}

/// `owed NODE`: how many items a node owes an inner; None where it owes to none.
pub fn owed<I: Ledger, A: Ledger, K: Ledger>(
    floor: &Floor<Sample, I, A, K>,
    keys: &Keys,
    line: &Line<'_>,
) -> Option<u64> {
    floor.owed(keys.node(line.number(1)))
}

/// `look PLACE`: the events from this place on, and the notes that were not taken.
pub fn look<I: Ledger, A: Ledger, K: Ledger>(
    floor: &mut Floor<Sample, I, A, K>,
    from: u64,
    told: &mut String,
) {
    for place in from..floor.len() {
        tell(told, floor.event(place));
    }
    for _ in 0..u64::MAX {
        let Some(mail) = floor.take_mail() else {
            break;
        };
        tell(told, mail);
    }
}

/// `take`: a resource that waits is released; its number, its tag and its uses.
pub fn take<I: Ledger, A: Ledger, K: Ledger>(
    floor: &mut Floor<Sample, I, A, K>,
    seat: &mut Seat<I, A, K>,
) -> Option<(u64, u64, u64)> {
    let released = floor.take(seat)?.release();
    Some((released.number, released.tag, released.spent.uses()))
}

/// `split N`: the seat gives a part away so many times, as long as it has two. How often it did.
pub fn split<I: Ledger, A: Ledger, K: Ledger>(seat: &mut Seat<I, A, K>, times: u64) -> u64 {
    for done in 0..times {
        if seat.split().is_none() {
            return done;
        }
    }
    times
}
