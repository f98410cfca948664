//! That a feed whose pull is refused memory keeps the receipts before it, and writes nothing of that pull; and
//! that the same pull is then written by the call itself.

use super::desk_calls::{Call, NO_SLOTS, key_of, make_all};
use super::parts::tell;
use super::ticks::Ticks;
use super::trials::{Trial, assert_all};
use rx_book::Key;
use rx_crew::{Desk, Stop, feed};
use rx_event::{Kind, Refusal, Terminal};
use rx_ledger::Seat;
use rx_resource::Sample;
use rx_scarce::{MOST_BLOCKS, Scarce};
use std::alloc::Global;
use std::sync::Wait;
use std::sync::ledger::Ledger;

// Makes the call of the item that was refused, with a block more after each refusal. Answers its place.
fn write_refused<I: Ledger, A: Ledger, K: Ledger>(
    rt: &impl Wait,
    desk: &Desk<Sample, I, A, K>,
    seat: &mut Seat<I, A, K>,
    leaf: Key,
    scarce: &mut Scarce,
) -> Option<u64> {
    for _ in 0..MOST_BLOCKS {
        let answer = desk.floor.lock(rt).next(seat, leaf, 5);
        match answer {
            Ok(place) => return Some(place),
            Err(Refusal::NoMemory) => {}
            Err(_) => return None,
        }
        if !scarce.give_back_one() {
            return None;
        }
    }
    None
}

// How many events there are.
fn len_of<I: Ledger, A: Ledger, K: Ledger>(rt: &impl Wait, desk: &Desk<Sample, I, A, K>) -> u64 {
    desk.floor.lock(rt).len()
}

// Why a feed stopped. None where it wrote other than what it has receipts of, or the item and not the end.
fn agreed(stop: Stop, receipts: usize, written: u64) -> Option<Stop> {
    if receipts as u64 == written && written != 1 {
        Some(stop)
    } else {
        None
    }
}

// Feeds a leaf an item and an end, and says so.
fn feed_once<I: Ledger, A: Ledger, K: Ledger>(
    rt: &impl Wait,
    alloc: Global,
    desk: &Desk<Sample, I, A, K>,
    seat: Seat<I, A, K>,
    leaf: Key,
) -> (Seat<I, A, K>, Option<Stop>) {
    let before = len_of(rt, desk);
    let mut source = Ticks::of(1, Terminal::Completed);
    let fed = feed(rt, alloc, desk, seat, leaf, &mut source, 9);
    let written = len_of(rt, desk).saturating_sub(before);
    let stop = agreed(fed.stop, fed.receipts.len(), written);
    (fed.seat, stop)
}

// Feeds a leaf so, anew after each refusal, whose pull it writes itself: the item, at the next place. Answers how
// often a feed was refused memory, or None where something else came of it.
fn refusals<I: Ledger, A: Ledger, K: Ledger>(
    rt: &impl Wait,
    alloc: Global,
    desk: &Desk<Sample, I, A, K>,
    seat: Seat<I, A, K>,
    leaf: Key,
    scarce: &mut Scarce,
) -> (Seat<I, A, K>, Option<u64>) {
    let mut seat = seat;
    for refused in 0..1_000u64 {
        let (next, stop) = feed_once(rt, alloc, desk, seat, leaf);
        seat = next;
        match stop {
            Some(Stop::Done) => return (seat, Some(refused)),
            Some(Stop::Refused(Refusal::NoMemory)) => {}
            _ => break,
        }
        let place = len_of(rt, desk);
        if write_refused(rt, desk, &mut seat, leaf, scarce) != Some(place) {
            break;
        }
    }
    (seat, None)
}

// Two roots that are leaves.
static ROOTS: [Call; 2] = [Call::Open(Kind::Leaf), Call::Open(Kind::Leaf)];

// Feeds a root as many items as make two thousand.
fn fill_up<I: Ledger, A: Ledger, K: Ledger>(
    rt: &impl Wait,
    alloc: Global,
    desk: &Desk<Sample, I, A, K>,
    seat: Seat<I, A, K>,
    root: Key,
) -> Seat<I, A, K> {
    let left = 2_000u64.saturating_sub(desk.floor.lock(rt).items());
    let mut source = Ticks::of(2_000, Terminal::Completed);
    feed(rt, alloc, desk, seat, root, &mut source, left).seat
}

// Does so at one root, and then fills up at the other. Tells whether memory was refused.
pub(super) fn feed_in_the_end<I: Ledger, A: Ledger, K: Ledger>(
    rt: &impl Wait,
    alloc: Global,
    desk: &Desk<Sample, I, A, K>,
    seat: Seat<I, A, K>,
    told: &mut String,
) -> Option<Seat<I, A, K>> {
    let mut slots = NO_SLOTS;
    let seat = make_all(rt, alloc, desk, seat, &mut slots, &ROOTS, told);
    let mut scarce = Scarce::new(alloc).ok()?;
    let (seat, refused) = refusals(rt, alloc, desk, seat, key_of(&slots, 0), &mut scarce);
    drop(scarce);
    tell(told, refused > Some(0));
    Some(fill_up(rt, alloc, desk, seat, key_of(&slots, 1)))
}

// Two openings, the items and an end.
static WANTED: [(Trial, &str); 1] = [(
    Trial::Want,
    "\
Ok(0)
Ok(1)
true
Ok(Totals { items: 2000, accepted: 0, taken: 0, held: 0, waiting: 0, len: 2003 })
Some(1)
Closed { released: 0, faults: 0 }
",
)];

#[test]
fn a_feed_that_is_refused_memory_has_receipts_of_what_it_wrote(rt: HostRuntime) {
    assert_all(&rt, rt.alloc(), &WANTED);
}
