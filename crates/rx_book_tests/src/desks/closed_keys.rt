//! That what is closed refuses, from eight threads at the same time.

use super::desk_calls::{Call, NO_SLOTS, key_of, make_all};
use super::parts::{seats_beside, tell};
use super::trials::{Trial, assert_all};
use rx_book::{Key, Refused, ResKey};
use rx_crew::Desk;
use rx_event::{Kind, Refusal};
use rx_ledger::Seat;
use rx_resource::{Life, Resource as _, Sample};
use std::alloc::Global;
use std::sync::Wait;
use std::sync::ledger::Ledger;
use std::thread;
use std::thread::Threads;

// Whether it is refused as gone, and the resource came back as it was.
fn is_back(answer: Result<ResKey, Refused<Sample>>) -> bool {
    match answer {
        Ok(_) => false,
        Err(Refused { why, back }) => {
            let is_whole = back.tag() == 7 && back.uses() == 0 && back.life() == Life::Live;
            is_whole && why == Refusal::Gone
        }
    }
}

// Whether each of three calls with the key of a closed root that is a leaf is refused so.
fn is_refused<I: Ledger, A: Ledger, K: Ledger>(
    rt: &impl Wait,
    desk: &Desk<Sample, I, A, K>,
    seat: &mut Seat<I, A, K>,
    closed: Key,
) -> bool {
    let mut floor = desk.floor.lock(rt);
    let is_gone = floor.next(seat, closed, 5) == Err(Refusal::Gone);
    let is_left = floor.dispose(closed) == Err(Refusal::Gone);
    is_gone && is_left && is_back(floor.hold(seat, closed, Sample::new(7)))
}

// How many of a hundred rounds of these calls are refused so.
fn refused_rounds<I: Ledger, A: Ledger, K: Ledger>(
    rt: &impl Wait,
    desk: &Desk<Sample, I, A, K>,
    seat: Seat<I, A, K>,
    closed: Key,
) -> u32 {
    let mut seat = seat;
    let mut rounds: u32 = 0;
    for _ in 0..100u32 {
        rounds = rounds.saturating_add(u32::from(is_refused(rt, desk, &mut seat, closed)));
        thread::yield_now();
    }
    rounds
}

// A root that is a leaf, and is closed.
static CLOSES: [Call; 2] = [Call::Open(Kind::Leaf), Call::Dispose(0)];

// Eight threads call at a desk whose one root was closed.
pub(super) fn eight_refused<
    I: Ledger + Send + Sync,
    A: Ledger + Send + Sync,
    K: Ledger + Send + Sync,
    T: Threads + Wait + Sync,
>(
    rt: &T,
    alloc: Global,
    desk: &Desk<Sample, I, A, K>,
    first: Seat<I, A, K>,
    told: &mut String,
) -> Option<Seat<I, A, K>> {
    let mut slots = NO_SLOTS;
    let mut first = make_all(rt, alloc, desk, first, &mut slots, &CLOSES, told);
    let closed = key_of(&slots, 0);
    let seats = seats_beside(alloc, &mut first, 8)?;
    let rounds = thread::map_vec(rt, seats, &|seat| refused_rounds(rt, desk, seat, closed)).ok()?;
    tell(told, rounds.as_slice());
    Some(first)
}

static REFUSED: [(Trial, &str); 1] = [(
    Trial::Closed,
    "\
Ok(0)
Ok(1)
[100, 100, 100, 100, 100, 100, 100, 100]
Ok(Totals { items: 0, accepted: 0, taken: 0, held: 0, waiting: 0, len: 2 })
None
Closed { released: 0, faults: 0 }
",
)];

#[test]
fn eight_threads_with_a_closed_key_are_refused_and_change_nothing(rt: HostRuntime) {
    assert_all(&rt, rt.alloc(), &REFUSED);
}
