//! What a desk says at its end of its seats and of the receipts that it is shown.

use super::desk_calls::{Call, NO_SLOTS, make_all};
use super::trials::{Trial, assert_all};
use rx_crew::Desk;
use rx_event::{Event, Kind};
use rx_ledger::{Receipt, Seat};
use rx_resource::Sample;
use std::alloc::Global;
use std::sync::Wait;
use std::sync::ledger::Ledger;

// Seat A accepts a resource at root 0 and unsubscribes that.
static ACCEPTS: [Call; 2] = [Call::Using(7), Call::Dispose(0)];

// Seat B takes and releases; a leaf stays open.
static TAKES_IT: [Call; 2] = [Call::Take, Call::Open(Kind::Leaf)];

// Both do so, and those that are to be there at the end are answered, together.
pub(super) fn work<I: Ledger, A: Ledger, K: Ledger>(
    rt: &impl Wait,
    alloc: Global,
    desk: &Desk<Sample, I, A, K>,
    mut a: Seat<I, A, K>,
    named: (bool, bool),
    told: &mut String,
) -> Option<Seat<I, A, K>> {
    let mut slots = NO_SLOTS;
    let b = a.split()?;
    let mut a = make_all(rt, alloc, desk, a, &mut slots, &ACCEPTS, told);
    let b = make_all(rt, alloc, desk, b, &mut slots, &TAKES_IT, told);
    match named {
        (true, true) => {
            a.merge(b);
            Some(a)
        }
        (true, false) => Some(a),
        (false, true) => Some(b),
        (false, false) => None,
    }
}

const CLOSES_ROOT: Receipt = Receipt {
    place: 2,
    event: Event::Close(0),
};

const TAKES: Receipt = Receipt {
    place: 3,
    event: Event::Take(1),
};

static AGREED: [(Trial, &str); 1] = [(
    Trial::Work(true, true, &[CLOSES_ROOT, TAKES]),
    "\
Ok(0)
Ok(2)
Some((1, 7, 0))
Ok(4)
Ok(Totals { items: 0, accepted: 1, taken: 1, held: 0, waiting: 0, len: 5 })
Some(4)
Closed { released: 0, faults: 0 }
",
)];

#[test]
fn two_seats_and_a_true_receipt_agree_with_the_book(rt: HostRuntime) {
    assert_all(&rt, rt.alloc(), &AGREED);
}

// The event at place 2 is another.
const CLOSES_LEAF: Receipt = Receipt {
    place: 2,
    event: Event::Close(5),
};

const CLOSES_LEAF_TOLD: &str = "\
Ok(0)
Ok(2)
Some((1, 7, 0))
Ok(4)
Err(Receipt { place: 2 })
Some(4)
Closed { released: 0, faults: 0 }
";

// A checkpoint takes the events before it away, so that a receipt of one stands no longer.
const PAUSED: [Call; 3] = [Call::Using(7), Call::Checkpoint, Call::Dispose(0)];

const ACCEPTS_IT: Receipt = Receipt {
    place: 1,
    event: Event::Accept(0, 7),
};

const PAUSED_TOLD: &str = "\
Ok(0)
Ok(2)
Ok(2)
Err(Receipt { place: 1 })
None
Closed { released: 1, faults: 0 }
";

static FORGED: [(Trial, &str); 2] = [
    (Trial::Work(true, true, &[CLOSES_LEAF]), CLOSES_LEAF_TOLD),
    (
        Trial::Calls(&PAUSED, &[CLOSES_ROOT, ACCEPTS_IT]),
        PAUSED_TOLD,
    ),
];

#[test]
fn a_receipt_whose_event_does_not_stand_there_is_told_with_its_place(rt: HostRuntime) {
    assert_all(&rt, rt.alloc(), &FORGED);
}

const NONE_ACCEPTED: &str = "\
Ok(0)
Ok(2)
Some((1, 7, 0))
Ok(4)
Err(Accepted { shares: 0, book: 1 })
Some(4)
Closed { released: 0, faults: 0 }
";

static LEFT_OUT: [(Trial, &str); 3] = [
    (
        Trial::Work(true, false, &[]),
        "\
Ok(0)
Ok(2)
Some((1, 7, 0))
Ok(4)
Err(Taken { shares: 0, book: 1 })
Some(4)
Closed { released: 0, faults: 0 }
",
    ),
    (Trial::Work(false, true, &[]), NONE_ACCEPTED),
    (Trial::Work(false, false, &[]), NONE_ACCEPTED),
];

#[test]
fn a_seat_that_was_left_out_is_missed(rt: HostRuntime) {
    assert_all(&rt, rt.alloc(), &LEFT_OUT);
}
