//! Items in batches: a feeding thread that takes the desk's lock once for several.

ghost use Rattle.std.specs.Prelude.{◌≡◌, ◌≢◌, ◌<◌, ◌≤◌, ◌+◌, ◌-◌, ◌++◌, ◌∷◌, [], pos, vec_len, vec_capacity, IfSome, IfErr, OnOk, OnErr};
ghost use Rattle.rx_event.specs.declared.event.Event.{Event};
ghost use Rattle.rx_note.specs.declared.note.Terminal.{Terminal};
ghost use Rattle.rx_crew.specs.declared.working.Stop.{Stop};
ghost use Rattle.rx_storm.specs.Storms.{items_at, events_of, HasBegun, HasEmitted, HasEmittedSome};

use crate::opening::open_leaf;
use rx_book::Key;
use rx_crew::{Desk, Fed, Floor, Stop};
use rx_event::{Event, Refusal, Terminal};
use rx_ledger::{Receipt, Seat};
use rx_resource::Resource;
use std::alloc::Global;
use std::sync::Wait;
use std::sync::ledger::Ledger;

/// How many items are emitted under one lock.
const BATCH: u32 = 16;

/// Where the batch ends that begins with this number: after 16 items, or where there are no more.
fn batch_end(first: u32, items: u32) -> u32
    requires { first < items }
    ensures within { (first < result) × (result ≤ items) }
    ensures most { result ≤ first + 16 }
    ensures full { result < items → result ≡ first + 16 }
{
    if items - first > BATCH {
        first + BATCH
    } else {
        items
    }
}

/// The event of a number that a leaf emits.
fn item_at(leaf: Key, number: u32) -> Event
    ensures { result ≡ Event.Item leaf.number (pos number) }
{
    Event::Item(leaf.number, i64::from(number))
}

/// Gets room for one receipt more; or answers that memory is lacking.
fn make_place(receipts: &mut Vec<Receipt>) -> Result<(), Refusal>
    ensures room { OnOk result (vec_len receipts.new < vec_capacity receipts.new) }
    ensures same { receipts.new.items ≡ receipts.old.items }
{
    match receipts.reserve(1) {
        Ok(()) => Ok(()),
        Err(_) => Err(Refusal::NoMemory),
    }
}

/// Emits a number at a leaf, and keeps its receipt, for which memory is asked before. A refusal changes nothing.
fn emit_one<R: Resource, I: Ledger, A: Ledger, K: Ledger>(
    floor: &mut Floor<R, I, A, K>,
    seat: &mut Seat<I, A, K>,
    receipts: &mut Vec<Receipt>,
    leaf: Key,
    number: u32,
) -> Result<(), Refusal>
    ensures emitted { OnOk result (events_of receipts.new.items
        ≡ events_of receipts.old.items ++ Event.Item leaf.number (pos number) ∷ []) }
    ensures counted { OnOk result (seat.new ≡ record seat.old { items = seat.old.items + 1 }) }
    ensures kept { OnErr result (receipts.new.items ≡ receipts.old.items) }
    ensures uncounted { OnErr result (seat.new ≡ seat.old) }
{
    make_place(receipts)?;
    let place = floor.next(seat, leaf, i64::from(number))?;
    receipts.push_reserved(Receipt {
        place,
        event: item_at(leaf, number),
    });
    Ok(())
}

/// Emits the numbers from `first` up to `end` at a leaf under one lock, with a receipt for each, and rings the
/// bell where something waits then. Where one is refused, those before it are emitted.
fn emit_some<R: Resource, I: Ledger, A: Ledger, K: Ledger>(
    rt: &impl Wait,
    desk: &Desk<R, I, A, K>,
    seat: &mut Seat<I, A, K>,
    receipts: &mut Vec<Receipt>,
    leaf: Key,
    first: u32,
    end: u32,
) -> Result<(), Refusal>
    requires { first ≤ end }
    ensures emitted { OnOk result (events_of receipts.new.items
        ≡ events_of receipts.old.items ++ items_at leaf.number first (end - first)) }
    ensures counted { OnOk result (seat.new ≡ record seat.old { items = seat.old.items + (end - first) }) }
    ensures begun { OnErr result (HasBegun leaf.number first end seat.old seat.new receipts.old.items receipts.new.items) }
{
    let mut floor = desk.floor.lock(rt);
    for number in first..end {
        emit_one(&mut floor, seat, receipts, leaf, number)?;
    }
    let waits = floor.waiting() > 0;
    drop(floor);
    if waits {
        desk.bell.notify_all();
    }
    Ok(())
}

/// Ends a leaf, with a receipt, for which memory is asked before, and rings the bell.
fn complete<R: Resource, I: Ledger, A: Ledger, K: Ledger>(
    rt: &impl Wait,
    desk: &Desk<R, I, A, K>,
    receipts: &mut Vec<Receipt>,
    leaf: Key,
) -> Result<(), Refusal>
    ensures ended { OnOk result (events_of receipts.new.items
        ≡ events_of receipts.old.items ++ Event.End leaf.number Terminal.Completed ∷ []) }
    ensures kept { OnErr result (receipts.new.items ≡ receipts.old.items) }
{
    make_place(receipts)?;
    let mut floor = desk.floor.lock(rt);
    let place = floor.end(leaf, Terminal::Completed)?;
    drop(floor);
    desk.bell.notify_all();
    receipts.push_reserved(Receipt {
        place,
        event: Event::End(leaf.number, Terminal::Completed),
    });
    Ok(())
}

/// Emits the numbers below `items` at a leaf, and completes it. Where that is refused, the numbers before are emitted.
fn emit_each<R: Resource, I: Ledger, A: Ledger, K: Ledger>(
    rt: &impl Wait,
    desk: &Desk<R, I, A, K>,
    seat: &mut Seat<I, A, K>,
    receipts: &mut Vec<Receipt>,
    leaf: Key,
    items: u32,
) -> Result<(), Refusal>
    ensures emitted { OnOk result (events_of receipts.new.items ≡ events_of receipts.old.items
        ++ items_at leaf.number 0 items ++ Event.End leaf.number Terminal.Completed ∷ []) }
    ensures counted { OnOk result (seat.new ≡ record seat.old { items = seat.old.items + items }) }
    ensures begun { OnErr result (HasBegun leaf.number 0 items seat.old seat.new receipts.old.items receipts.new.items) }
{
    let mut next = 0;
    while next < items {
        let end = batch_end(next, items);
        emit_some(rt, desk, seat, receipts, leaf, next, end)?;
        next = end;
    }
    complete(rt, desk, receipts, leaf)
}

/// Why a feed stops whose emitting came to this.
fn stop_of(emitted: Result<(), Refusal>) -> Stop
    ensures done { OnOk emitted (result ≡ Stop.Done) }
    ensures refused { IfErr emitted (λ why. result ≡ Stop.Refused why) }
{
    match emitted {
        Ok(()) => Stop::Done,
        Err(why) => Stop::Refused(why),
    }
}

/// Opens a Using root with the resource and a leaf below it, and emits there the numbers below `items`, 16 under
/// one lock, and a completion. None where the opening was refused. Where a call is refused later, it has a receipt for
/// each event that it wrote.
pub fn emit_batches<R: Resource, I: Ledger, A: Ledger, K: Ledger>(
    rt: &impl Wait,
    alloc: Global,
    desk: &Desk<R, I, A, K>,
    seat: Seat<I, A, K>,
    resource: R,
    items: u32,
) -> Option<Fed<I, A, K>>
    ensures done { IfSome result (λ fed. fed.stop ≡ Stop.Done → HasEmitted items seat fed.seat fed.receipts.items) }
    ensures begun { IfSome result (λ fed. fed.stop ≢ Stop.Done → HasEmittedSome items seat fed.seat fed.receipts.items) }
    ensures turns { IfSome result (λ fed. fed.stop ≢ Stop.Turns) }
{
    let mut seat = seat;
    let leaf = open_leaf(rt, desk, &mut seat, resource)?;
    let mut receipts = Vec::new(alloc);
    let emitted = emit_each(rt, desk, &mut seat, &mut receipts, leaf, items);
    Some(Fed {
        seat,
        receipts,
        stop: stop_of(emitted),
    })
}
