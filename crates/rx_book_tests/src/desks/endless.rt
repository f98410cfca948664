//! Threads that could go on for ever at a book with little room: four of them feed, and a keeper takes the mail
//! and makes a checkpoint each time enough events are stored.

use super::parts::{seats_beside, tell};
use super::ticks::Ticks;
use super::trials::{Trial, assert_all};
use rx_book::{At, Key};
use rx_crew::{Desk, Floor, Stop, feed};
use rx_event::{Kind, Refusal, Terminal};
use rx_ledger::Seat;
use rx_resource::Sample;
use std::alloc::{AllocError, Global};
use std::sync::Wait;
use std::sync::atomic::{AtomicU64, Ordering};
use std::sync::ledger::Ledger;
use std::thread;
use std::thread::Threads;

const FEEDS: u64 = 4;

// How many rounds each feed makes, and of how many items: a million in all.
const ROUNDS: u32 = 500;

const ITEMS: u32 = 500;

// How many events the book may store.
pub(super) const LIMIT: u32 = 4_096;

// A checkpoint is due where so many are stored. Then no round begins, so they are 999 and four rounds at most.
const OFTEN: u64 = 1_000;

// How many events were stored since the last checkpoint, which stands at `begin`.
fn stored<I: Ledger, A: Ledger, K: Ledger>(
    floor: &Floor<Sample, I, A, K>,
    begin: &AtomicU64,
) -> u64 {
    floor.len().saturating_sub(begin.load(Ordering::SeqCst))
}

// What the keeper did: how many notes it took, how many checkpoints it made, how many events were stored at the
// most, and why a checkpoint was refused, if one was.
#[derive(Drop)]
struct Kept {
    notes: u64,
    checkpoints: u64,
    most: u64,
    refused: Option<Refusal>,
}

impl Kept {
    const NOTHING: Kept = Kept {
        notes: 0,
        checkpoints: 0,
        most: 0,
        refused: None,
    };

    // Takes all notes and makes a checkpoint. A refusal shuts the desk, so that nobody waits for the next one.
    fn keep<I: Ledger, A: Ledger, K: Ledger>(
        &mut self,
        floor: &mut Floor<Sample, I, A, K>,
        begin: &AtomicU64,
    ) {
        self.most = self.most.max(stored(floor, begin));
        for _ in 0..=LIMIT {
            if floor.take_mail().is_none() {
                break;
            }
            self.notes = self.notes.saturating_add(1);
        }
        match floor.checkpoint() {
            Ok(at) => {
                begin.store(at, Ordering::SeqCst);
                self.checkpoints = self.checkpoints.saturating_add(1);
            }
            Err(why) => {
                self.refused = Some(why);
                floor.shut();
            }
        }
    }
}

// Does so each time it is due, and once more when the desk is shut.
fn keep_all<I: Ledger, A: Ledger, K: Ledger>(
    rt: &impl Wait,
    desk: &Desk<Sample, I, A, K>,
    begin: &AtomicU64,
) -> Kept {
    let mut kept = Kept::NOTHING;
    for _ in 0..u64::MAX {
        let floor = desk.floor.lock(rt);
        let mut floor = desk.bell.wait_while(rt, floor, |floor| {
            !floor.is_shut() && stored(floor, begin) < OFTEN
        });
        kept.keep(&mut floor, begin);
        let is_shut = floor.is_shut();
        drop(floor);
        desk.bell.notify_all();
        if is_shut {
            break;
        }
    }
    kept
}

// Opens a Using root and a leaf below it.
fn open_leaf<I: Ledger, A: Ledger, K: Ledger>(
    floor: &mut Floor<Sample, I, A, K>,
    seat: &mut Seat<I, A, K>,
) -> Option<Key> {
    match floor.open_using(seat, At::Root, Sample::new(7)) {
        Ok(opened) => match floor.open(At::Source(opened.key), Kind::Leaf) {
            Ok(leaf) => Some(leaf.key),
            Err(_) => None,
        },
        Err(_) => None,
    }
}

// Feeds a round of items, once no checkpoint is due. None where the feed is refused.
fn feed_round<I: Ledger, A: Ledger, K: Ledger>(
    rt: &impl Wait,
    alloc: Global,
    desk: &Desk<Sample, I, A, K>,
    seat: Seat<I, A, K>,
    leaf: Key,
    begin: &AtomicU64,
) -> Option<Seat<I, A, K>> {
    let floor = desk.floor.lock(rt);
    let floor = desk.bell.wait_while(rt, floor, |floor| {
        !floor.is_shut() && OFTEN <= stored(floor, begin)
    });
    drop(floor);
    let mut source = Ticks::of(ITEMS, Terminal::Completed);
    let fed = feed(rt, alloc, desk, seat, leaf, &mut source, u64::from(ITEMS));
    desk.bell.notify_all();
    let seat = fed.seat;
    if let Stop::Refused(_) = fed.stop {
        return None;
    }
    Some(seat)
}

// Feeds a leaf of its own, round by round, and completes it. None where a call is refused.
fn feed_rounds<I: Ledger, A: Ledger, K: Ledger>(
    rt: &impl Wait,
    alloc: Global,
    desk: &Desk<Sample, I, A, K>,
    mut seat: Seat<I, A, K>,
    begin: &AtomicU64,
) -> Option<Seat<I, A, K>> {
    let leaf = open_leaf(&mut desk.floor.lock(rt), &mut seat)?;
    for _ in 0..ROUNDS {
        seat = feed_round(rt, alloc, desk, seat, leaf, begin)?;
    }
    let ended = desk.floor.lock(rt).end(leaf, Terminal::Completed);
    desk.bell.notify_all();
    if ended.is_ok() { Some(seat) } else { None }
}

// What comes of each feed.
type Fed<I, A, K> = Vec<Option<Seat<I, A, K>>>;

// Has a thread feed for each of these seats, and shuts the desk then.
fn feed_all<
    I: Ledger + Send + Sync,
    A: Ledger + Send + Sync,
    K: Ledger + Send + Sync,
    T: Threads + Wait + Sync,
>(
    rt: &T,
    alloc: Global,
    desk: &Desk<Sample, I, A, K>,
    seats: Vec<Seat<I, A, K>>,
    begin: &AtomicU64,
) -> Result<Fed<I, A, K>, AllocError> {
    let fed = thread::map_vec(rt, seats, &|seat| feed_rounds(rt, alloc, desk, seat, begin));
    desk.floor.lock(rt).shut();
    desk.bell.notify_all();
    fed
}

// Merges the seat of each feed into the first one. None where a feed was refused.
fn merge_all<I: Ledger, A: Ledger, K: Ledger>(
    first: &mut Seat<I, A, K>,
    fed: Fed<I, A, K>,
) -> Option<()> {
    for seat in fed {
        first.merge(seat?);
    }
    Some(())
}

// The keeper in one thread, and the feeds in others. Tells what the keeper did; the checkpoints, and the most that
// was stored, are as the threads come.
pub(super) fn storm<
    I: Ledger + Send + Sync,
    A: Ledger + Send + Sync,
    K: Ledger + Send + Sync,
    T: Threads + Wait + Sync,
>(
    rt: &T,
    alloc: Global,
    desk: &Desk<Sample, I, A, K>,
    mut first: Seat<I, A, K>,
    told: &mut String,
) -> Option<Seat<I, A, K>> {
    let begin = AtomicU64::new(0);
    let at = &begin;
    let seats = seats_beside(alloc, &mut first, FEEDS)?;
    let (kept, fed) = thread::join(
        rt,
        || keep_all(rt, desk, at),
        || feed_all(rt, alloc, desk, seats, at),
    );
    tell(told, (kept.refused, kept.notes));
    tell(told, (300 < kept.checkpoints, kept.most < 3_100));
    merge_all(&mut first, fed.ok()?)?;
    Some(first)
}

// Each feed writes an opening with its resource, another, its items and two ends, and each item and the end of
// each root gives a note.
static WITHOUT_END: [(Trial, &str); 1] = [(
    Trial::Endless,
    "\
(None, 1000004)
(true, true)
Ok(Totals { items: 1000000, accepted: 4, taken: 0, held: 0, waiting: 4, len: 1000020 })
None
Closed { released: 4, faults: 0 }
",
)];

#[test]
fn a_million_items_go_through_a_book_of_four_thousand_events(rt: HostRuntime) {
    assert_all(&rt, rt.alloc(), &WITHOUT_END);
}
