//! A thread that emits what a source gives.

ghost use Rattle.std.specs.Prelude.{◌≡◌, ◌+◌, ◌<◌, ◌++◌, ◌∷◌, [], List, length, vec_len, vec_capacity};
ghost use Rattle.std.specs.Prelude.{IsTrue, IfErr, OnOk, OnErr};
ghost use Rattle.rx_book.specs.Answers.{Accepts};
ghost use Rattle.rx_crew.specs.declared.working.Stop.{Stop};
ghost use Rattle.rx_crew.specs.declared.feeding.Pull.{Pull};
ghost use Rattle.rx_crew.specs.Feeds.{ends_once, event_of, is_end, items_pulled, items_in, AreOfPulls, IsFed, IsFeedTurn};
ghost use Rattle.rx_crew.specs.Feeds.{pull_request, refuses_pull, AnswersPull, receipt_of, IsPullEmitted};

use crate::desk::Desk;
use crate::floor::Floor;
use crate::working::Stop;
use rx_book::Key;
use rx_event::{Event, Refusal, Terminal};
use rx_ledger::{Receipt, Seat};
use rx_resource::Resource;
use std::alloc::Global;
use std::sync::Wait;
use std::sync::ledger::Ledger;

/// What a source gives at a turn.
#[derive(Clone, Copy, Debug, PartialEq, Eq)]
pub enum Pull {
    /// An item.
    Item(i64),
    /// Its end, after which it gives nothing.
    Done(Terminal),
}

/// A source of items, which a feed pulls. It stands for the list of the pulls that it still gives, of
/// which the last, and no other, is `Done`.
pub trait Source {
    /// The pulls that it still gives.
    ghost pulls: { Self → List Pull };

    /// The next pull. It is not called after `Done`. It runs without the desk's lock.
    fn pull(&mut self) -> Pull
        requires { IsTrue (ends_once (pulls self.old)) }
        ensures { pulls self.old ≡ result ∷ pulls self.new };
}

/// What a feed did.
#[derive(Drop)]
pub struct Fed<I: Ledger, A: Ledger, K: Ledger> {
    /// Its seat, whose share of items rose by those that it emitted.
    pub seat: Seat<I, A, K>,
    /// A receipt for each event that it wrote, in order.
    pub receipts: Vec<Receipt>,
    /// Why it stopped.
    pub stop: Stop,
}

/// The event that a pull becomes at a leaf.
fn event_at(leaf: Key, pull: Pull) -> Event
    ensures { result ≡ event_of leaf.number pull }
{
    match pull {
        Pull::Item(value) => Event::Item(leaf.number, value),
        Pull::Done(terminal) => Event::End(leaf.number, terminal),
    }
}

/// Whether a pull is the end.
fn is_done(pull: Pull) -> bool
    ensures { result ≡ is_end pull }
{
    match pull {
        Pull::Item(_) => false,
        Pull::Done(_) => true,
    }
}

/// Writes one pull at a leaf, an item by `next` and the end by `end`. Answers the place of its event.
fn write_event<R: Resource, I: Ledger, A: Ledger, K: Ledger>(
    floor: &mut Floor<R, I, A, K>,
    seat: &mut Seat<I, A, K>,
    leaf: Key,
    pull: Pull,
) -> Result<u64, Refusal>
    ensures book { AnswersPull floor.old.book leaf pull floor.new.book result }
    ensures counted { OnOk result (seat.new ≡ record seat.old { items = seat.old.items + items_pulled pull }) }
    ensures uncounted { OnErr result (seat.new ≡ seat.old) }
    ensures shut { floor.new.is_shut ≡ floor.old.is_shut }
{
    match pull {
        Pull::Item(value) => floor.next(seat, leaf, value),
        Pull::Done(terminal) => floor.end(leaf, terminal),
    }
}

/// Writes one pull at a leaf, and its receipt, for which there is room. A refusal changes nothing.
fn write_pull<R: Resource, I: Ledger, A: Ledger, K: Ledger>(
    floor: &mut Floor<R, I, A, K>,
    seat: &mut Seat<I, A, K>,
    receipts: &mut Vec<Receipt>,
    leaf: Key,
    pull: Pull,
) -> Result<(), Refusal>
    requires room { vec_len receipts.old < vec_capacity receipts.old }
    ensures written { OnOk result (Accepts floor.old.book (pull_request floor.old.book leaf pull) floor.new.book) }
    ensures refused { IfErr result (refuses_pull floor.old.book leaf pull) }
    ensures kept { OnErr result (floor.new.book ≡ floor.old.book) }
    ensures receipt { OnOk result (receipts.new.items
        ≡ receipts.old.items ++ receipt_of (length floor.old.book.history) leaf.number pull ∷ []) }
    ensures no_receipt { OnErr result (receipts.new.items ≡ receipts.old.items) }
    ensures counted { OnOk result (seat.new ≡ record seat.old { items = seat.old.items + items_pulled pull }) }
    ensures uncounted { OnErr result (seat.new ≡ seat.old) }
    ensures shut { floor.new.is_shut ≡ floor.old.is_shut }
{
    let place = write_event(floor, seat, leaf, pull)?;
    receipts.push_reserved(Receipt {
        place,
        event: event_at(leaf, pull),
    });
    Ok(())
}

/// Emits one pull at a leaf, under the lock, and rings the bell where something waits then.
fn emit<R: Resource, I: Ledger, A: Ledger, K: Ledger>(
    rt: &impl Wait,
    desk: &Desk<R, I, A, K>,
    seat: &mut Seat<I, A, K>,
    receipts: &mut Vec<Receipt>,
    leaf: Key,
    pull: Pull,
) -> Result<(), Refusal>
    requires room { vec_len receipts.old < vec_capacity receipts.old }
    ensures emitted { OnOk result (IsPullEmitted leaf.number pull seat.old seat.new receipts.old.items receipts.new.items) }
    ensures uncounted { OnErr result (seat.new ≡ seat.old) }
    ensures no_receipt { OnErr result (receipts.new.items ≡ receipts.old.items) }
{
    let mut floor = desk.floor.lock(rt);
    write_pull(&mut floor, seat, receipts, leaf, pull)?;
    let waits = floor.waiting() > 0;
    drop(floor);
    if waits {
        desk.bell.notify_all();
    }
    Ok(())
}

/// One turn of a feed: asks for memory for one more receipt after the pull and before the call.
/// Answers why the feed stops with it, and None where it goes on.
fn turn<R: Resource, I: Ledger, A: Ledger, K: Ledger, S: Source>(
    rt: &impl Wait,
    desk: &Desk<R, I, A, K>,
    seat: &mut Seat<I, A, K>,
    receipts: &mut Vec<Receipt>,
    leaf: Key,
    source: &mut S,
) -> Option<Stop>
    requires { IsTrue (ends_once (S.pulls source.old)) }
    ensures { IsFeedTurn leaf.number result (S.pulls source.old) (S.pulls source.new)
        seat.old seat.new receipts.old.items receipts.new.items }
{
    let pull = source.pull();
    if receipts.reserve(1).is_err() {
        return Some(Stop::Refused(Refusal::NoMemory));
    }
    if let Err(why) = emit(rt, desk, seat, receipts, leaf, pull) {
        return Some(Stop::Refused(why));
    }
    if is_done(pull) {
        Some(Stop::Done)
    } else {
        None
    }
}

/// Emits what a source gives at a leaf: one pull a turn, an item by `next`, the end by `end`.
///
/// It stops `Done` after the source's end, `Turns` after so many turns before that, and `Refused`
/// where a call was refused or there was no memory for one more receipt, which is asked for after the
/// pull and before the call; that last pull has no receipt. It may wait for the lock.
pub fn feed<R: Resource, I: Ledger, A: Ledger, K: Ledger, S: Source>(
    rt: &impl Wait,
    alloc: Global,
    desk: &Desk<R, I, A, K>,
    seat: Seat<I, A, K>,
    leaf: Key,
    source: &mut S,
    turns: u64,
) -> Fed<I, A, K>
    requires { IsTrue (ends_once (S.pulls source.old)) }
    ensures receipts { AreOfPulls leaf.number (vec_len result.receipts) (S.pulls source.old) result.receipts.items }
    ensures stop { IsFed result.stop (vec_len result.receipts) turns (S.pulls source.old) (S.pulls source.new) }
    ensures shares { result.seat ≡ record seat { items = seat.items + items_in result.receipts.items } }
{
    let mut seat = seat;
    let mut receipts = Vec::new(alloc);
    for _turn in 0..turns {
        if let Some(stop) = turn(rt, desk, &mut seat, &mut receipts, leaf, source) {
            return Fed {
                seat,
                receipts,
                stop,
            };
        }
    }
    Fed {
        seat,
        receipts,
        stop: Stop::Turns,
    }
}
