//! A worker by itself: why it stops, and what it counts.

use super::desk_calls::{Call, NO_SLOTS, make_all};
use super::parts::tell;
use super::trials::{Trial, assert_all};
use rx_crew::{Desk, Gate, worker};
use rx_ledger::Seat;
use rx_resource::Sample;
use std::alloc::Global;
use std::sync::Wait;
use std::sync::atomic::{AtomicU64, Ordering};
use std::sync::ledger::Ledger;

// The sums of the numbers with which it was called before releases and after them.
#[derive(Drop)]
struct Numbers {
    before: AtomicU64,
    after: AtomicU64,
}

impl Gate for Numbers {
    fn before(&self, number: u64) {
        self.before.fetch_add(number, Ordering::SeqCst);
    }

    fn after(&self, number: u64) {
        self.after.fetch_add(number, Ordering::SeqCst);
    }
}

// A worker of so many turns: tells why it stopped, and how many it released. Answers its faults too.
fn work_once<I: Ledger, A: Ledger, K: Ledger>(
    rt: &impl Wait,
    desk: &Desk<Sample, I, A, K>,
    seat: Seat<I, A, K>,
    gate: &Numbers,
    turns: u64,
    told: &mut String,
) -> (Seat<I, A, K>, u64) {
    let worked = worker(rt, desk, seat, gate, turns);
    tell(told, (worked.stop, worked.released));
    (worked.seat, worked.faults)
}

// Three resources, one of them faulty, of roots that are closed.
static LAID_OUT: [Call; 6] = [
    Call::Using(2),
    Call::Dispose(0),
    Call::Using(3),
    Call::Dispose(3),
    Call::Using(4),
    Call::Dispose(6),
];

// Three workers where three resources wait, one of them faulty: one of no turn, one of one turn, and one of many
// at the desk that is shut then. Tells the faults of all, and what the gate has added up.
pub(super) fn work_thrice<I: Ledger, A: Ledger, K: Ledger>(
    rt: &impl Wait,
    alloc: Global,
    desk: &Desk<Sample, I, A, K>,
    seat: Seat<I, A, K>,
    told: &mut String,
) -> Option<Seat<I, A, K>> {
    let seat = make_all(rt, alloc, desk, seat, &mut NO_SLOTS, &LAID_OUT, told);
    let gate = Numbers {
        before: AtomicU64::new(0),
        after: AtomicU64::new(0),
    };
    let (seat, none) = work_once(rt, desk, seat, &gate, 0, told);
    let (seat, one) = work_once(rt, desk, seat, &gate, 1, told);
    desk.floor.lock(rt).shut();
    let (seat, rest) = work_once(rt, desk, seat, &gate, 9, told);
    tell(told, none.saturating_add(one).saturating_add(rest));
    let before = gate.before.load(Ordering::SeqCst);
    tell(told, (before, gate.after.load(Ordering::SeqCst)));
    Some(seat)
}

// The resources have the numbers 1, 4 and 7, and come out in any order.
static WORKED: [(Trial, &str); 1] = [(
    Trial::Workers,
    "\
Ok(0)
Ok(2)
Ok(3)
Ok(5)
Ok(6)
Ok(8)
(Turns, 0)
(Turns, 1)
(Done, 2)
1
(12, 12)
Ok(Totals { items: 0, accepted: 3, taken: 3, held: 0, waiting: 0, len: 12 })
None
Closed { released: 0, faults: 0 }
",
)];

#[test]
fn a_worker_stops_at_its_turns_and_at_a_shut_desk(rt: HostRuntime) {
    assert_all(&rt, rt.alloc(), &WORKED);
}
