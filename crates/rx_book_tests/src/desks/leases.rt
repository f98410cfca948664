//! A lease on a desk, which any thread may give back.

use super::desk_calls::{Call, NO_SLOTS, Slots, make_all};
use super::trials::{Trial, assert_all};
use rx_crew::Desk;
use rx_ledger::Seat;
use rx_resource::Sample;
use std::alloc::Global;
use std::sync::Wait;
use std::sync::ledger::Ledger;
use std::thread;
use std::thread::Threads;

// Leases a resource and closes its node.
static LEASES: [Call; 3] = [Call::Using(7), Call::Lease(1), Call::Dispose(0)];

// Gives the lease back, and releases what waits then.
static RETURNS: [Call; 2] = [Call::GiveBack(2), Call::Take];

// Does that, and answers what is told of it.
fn give_back<I: Ledger, A: Ledger, K: Ledger>(
    rt: &impl Wait,
    alloc: Global,
    desk: &Desk<Sample, I, A, K>,
    seat: Seat<I, A, K>,
    slots: Slots,
) -> (Seat<I, A, K>, String) {
    let (mut slots, mut told) = (slots, String::new(alloc));
    let seat = make_all(rt, alloc, desk, seat, &mut slots, &RETURNS, &mut told);
    (seat, told)
}

// This thread leases, another one gives back.
pub(super) fn passed_on<
    I: Ledger + Send + Sync,
    A: Ledger + Send + Sync,
    K: Ledger + Send + Sync,
    T: Threads + Wait + Sync,
>(
    rt: &T,
    alloc: Global,
    desk: &Desk<Sample, I, A, K>,
    mut first: Seat<I, A, K>,
    told: &mut String,
) -> Option<Seat<I, A, K>> {
    let second = first.split()?;
    let mut slots = NO_SLOTS;
    let mut first = make_all(rt, alloc, desk, first, &mut slots, &LEASES, told);
    let ((second, lines), ()) = thread::join(
        rt,
        || give_back(rt, alloc, desk, second, slots),
        || (),
    );
    told.push_str(lines.as_str()).ok()?;
    first.merge(second);
    Some(first)
}

static PASSED_ON: [(Trial, &str); 1] = [(
    Trial::Lease,
    "\
Ok(0)
Ok(2)
Ok(3)
Ok(4)
Some((1, 7, 0))
Ok(Totals { items: 0, accepted: 1, taken: 1, held: 0, waiting: 0, len: 6 })
None
Closed { released: 0, faults: 0 }
",
)];

#[test]
fn a_lease_of_one_thread_is_given_back_by_another(rt: HostRuntime) {
    assert_all(&rt, rt.alloc(), &PASSED_ON);
}
