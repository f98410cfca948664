//! Calls of a desk as values, and what each is answered as a line of a text.

use super::parts::{number_of, tell};
use super::ticks::Ticks;
use rx_book::{At, Key, LeaseKey, ResKey};
use rx_crew::{Desk, Floor, feed};
use rx_event::{Kind, Refusal, Terminal};
use rx_ledger::Seat;
use rx_resource::{Resource as _, Sample};
use std::alloc::Global;
use std::sync::Wait;
use std::sync::ledger::Ledger;

// A call, which names nodes, resources and leases by their numbers, and a resource that is handed in by its tag. What is opened is a root.
#[derive(Clone, Copy)]
pub(super) enum Call {
    Open(Kind),
    Using(u64),
    Hold(u64, u64),
    Dispose(u64),
    Lease(u64),
    GiveBack(u64),
    Checkpoint,
    Ask(Ask),
    // What is seen of the first resource that waits: its number, its tag and its uses.
    Take,
    // A feed at a node, of a source of so many items and then this end, of so many turns.
    Feed(u64, u32, Terminal, u64),
}

// What a floor is asked.
#[derive(Clone, Copy)]
pub(super) enum Ask {
    Mail,
    Event(u64),
    Root,
    Sums,
}

// The slots of all that has a key, each at its number.
pub(super) type Slots = [u64; 32];

pub(super) const NO_SLOTS: Slots = [u64::MAX; 32];

// The slot of this number, which is that of no key where there is none.
fn slot_of(slots: &Slots, number: u64) -> u64 {
    match slots.get(number as usize) {
        Some(slot) => *slot,
        None => u64::MAX,
    }
}

pub(super) fn key_of(slots: &Slots, number: u64) -> Key {
    let slot = slot_of(slots, number);
    Key { slot, number }
}

// The number of a key that was given out, of which the slot is kept.
fn keep(slots: &mut Slots, number: u64, slot: u64) -> u64 {
    if let Some(place) = slots.get_mut(number as usize) {
        *place = slot;
    }
    number
}

fn open_root<I: Ledger, A: Ledger, K: Ledger>(
    floor: &mut Floor<Sample, I, A, K>,
    slots: &mut Slots,
    kind: Kind,
) -> Result<u64, Refusal> {
    let opened = floor.open(At::Root, kind)?;
    Ok(keep(slots, opened.key.number, opened.key.slot))
}

// The release of that of the tag 3 meets a fault.
fn sample_of(tag: u64) -> Sample {
    match tag {
        3 => Sample::faulty(3, 2),
        _ => Sample::new(tag),
    }
}

fn open_using<I: Ledger, A: Ledger, K: Ledger>(
    floor: &mut Floor<Sample, I, A, K>,
    seat: &mut Seat<I, A, K>,
    slots: &mut Slots,
    tag: u64,
) -> Result<u64, Refusal> {
    match floor.open_using(seat, At::Root, sample_of(tag)) {
        Ok(opened) => {
            keep(slots, opened.res.number, opened.res.slot);
            Ok(keep(slots, opened.key.number, opened.key.slot))
        }
        Err(refused) => Err(refused.why),
    }
}

fn hold_at<I: Ledger, A: Ledger, K: Ledger>(
    floor: &mut Floor<Sample, I, A, K>,
    seat: &mut Seat<I, A, K>,
    slots: &mut Slots,
    node: Key,
    tag: u64,
) -> Result<u64, Refusal> {
    match floor.hold(seat, node, sample_of(tag)) {
        Ok(res) => Ok(keep(slots, res.number, res.slot)),
        Err(refused) => Err(refused.why),
    }
}

fn lease_of<I: Ledger, A: Ledger, K: Ledger>(
    floor: &mut Floor<Sample, I, A, K>,
    slots: &mut Slots,
    number: u64,
) -> Result<u64, Refusal> {
    let slot = slot_of(slots, number);
    let lease = floor.lease(ResKey { slot, number })?;
    Ok(keep(slots, lease.number, lease.slot))
}

fn ask_floor<I: Ledger, A: Ledger, K: Ledger>(
    floor: &mut Floor<Sample, I, A, K>,
    asked: Ask,
    told: &mut String,
) {
    match asked {
        Ask::Mail => tell(told, floor.take_mail()),
        Ask::Event(place) => tell(told, floor.event(place)),
        Ask::Root => tell(told, (floor.open_count(), number_of(floor.open_root()))),
        Ask::Sums => tell(told, sums_of(floor)),
    }
}

// How many events, items, and resources accepted, held, waiting and taken there are.
fn sums_of<I: Ledger, A: Ledger, K: Ledger>(floor: &Floor<Sample, I, A, K>) -> [u64; 6] {
    [
        floor.len(),
        floor.items(),
        floor.accepted(),
        floor.held(),
        floor.waiting(),
        floor.taken(),
    ]
}

// Takes a resource and releases it.
fn take_one<I: Ledger, A: Ledger, K: Ledger>(
    floor: &mut Floor<Sample, I, A, K>,
    seat: &mut Seat<I, A, K>,
) -> Option<(u64, u64, u64)> {
    let released = floor.take(seat)?.release();
    Some((released.number, released.tag, released.spent.uses()))
}

// The answer of a call that is answered with a number or a refusal; of another call None, and it is not made.
fn answer_of<I: Ledger, A: Ledger, K: Ledger>(
    floor: &mut Floor<Sample, I, A, K>,
    seat: &mut Seat<I, A, K>,
    slots: &mut Slots,
    call: Call,
) -> Option<Result<u64, Refusal>> {
    match call {
        Call::Open(kind) => Some(open_root(floor, slots, kind)),
        Call::Using(tag) => Some(open_using(floor, seat, slots, tag)),
        Call::Hold(node, tag) => {
            let node = key_of(slots, node);
            Some(hold_at(floor, seat, slots, node, tag))
        }
        Call::Dispose(node) => Some(floor.dispose(key_of(slots, node))),
        Call::Lease(number) => Some(lease_of(floor, slots, number)),
        Call::GiveBack(number) => {
            let slot = slot_of(slots, number);
            Some(floor.give_back(LeaseKey { slot, number }))
        }
        Call::Checkpoint => Some(floor.checkpoint()),
        _ => None,
    }
}

// Makes a call, and tells its answer.
fn make_call<I: Ledger, A: Ledger, K: Ledger>(
    floor: &mut Floor<Sample, I, A, K>,
    seat: &mut Seat<I, A, K>,
    slots: &mut Slots,
    call: Call,
    told: &mut String,
) {
    match call {
        Call::Ask(asked) => ask_floor(floor, asked, told),
        Call::Take => tell(told, take_one(floor, seat)),
        _ => {
            if let Some(answer) = answer_of(floor, seat, slots, call) {
                tell(told, answer);
            }
        }
    }
}

// Feeds a leaf, and tells why that stops and which receipts it gives.
fn feed_once<I: Ledger, A: Ledger, K: Ledger>(
    rt: &impl Wait,
    alloc: Global,
    desk: &Desk<Sample, I, A, K>,
    seat: Seat<I, A, K>,
    leaf: Key,
    (items, terminal, turns): (u32, Terminal, u64),
    told: &mut String,
) -> Seat<I, A, K> {
    let mut source = Ticks::of(items, terminal);
    let fed = feed(rt, alloc, desk, seat, leaf, &mut source, turns);
    tell(told, (fed.stop, fed.receipts.as_slice()));
    fed.seat
}

// Makes a call, and tells its answer: a feed without the lock, and any other one under it.
fn make_step<I: Ledger, A: Ledger, K: Ledger>(
    rt: &impl Wait,
    alloc: Global,
    desk: &Desk<Sample, I, A, K>,
    seat: Seat<I, A, K>,
    slots: &mut Slots,
    call: Call,
    told: &mut String,
) -> Seat<I, A, K> {
    let mut seat = seat;
    if let Call::Feed(node, items, terminal, turns) = call {
        let leaf = key_of(slots, node);
        return feed_once(rt, alloc, desk, seat, leaf, (items, terminal, turns), told);
    }
    make_call(&mut desk.floor.lock(rt), &mut seat, slots, call, told);
    seat
}

// Makes the calls, in order.
pub(super) fn make_all<I: Ledger, A: Ledger, K: Ledger>(
    rt: &impl Wait,
    alloc: Global,
    desk: &Desk<Sample, I, A, K>,
    seat: Seat<I, A, K>,
    slots: &mut Slots,
    calls: &[Call],
    told: &mut String,
) -> Seat<I, A, K> {
    let mut seat = seat;
    for call in calls {
        seat = make_step(rt, alloc, desk, seat, slots, *call, told);
    }
    seat
}
