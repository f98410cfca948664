//! That releases run outside the lock, and at the same time, and that a feed rings the bell. Whoever
//! waits here gives up after a million turns.

ghost use Rattle.rx_resource.specs.declared.Life.{Life};
ghost use Rattle.rx_ledger.specs.Shares.{OpensFromBlank};

use super::desk_calls::{Call, NO_SLOTS, key_of, make_all};
use super::parts::{Open, blanks, tell};
use super::ticks::Ticks;
use super::trials::{Trial, assert_all};
use rx_book::{At, Book, Key};
use rx_crew::{Desk, Floor, Gate, feed, worker};
use rx_event::{Kind, Refusal, Terminal};
use rx_ledger::Seat;
use rx_resource::{Life, Resource, Sample};
use std::alloc::Global;
use std::marker::Brand;
use std::sync::Wait;
use std::sync::atomic::{AtomicU64, Ordering};
use std::sync::ledger::{Blank, Ledger};
use std::thread;
use std::thread::Threads;

// Yields until the word is the number or more, and answers whether it came to be.
fn came_to(word: &AtomicU64, number: u64) -> bool {
    for _ in 0..1_000_000u32 {
        if word.load(Ordering::SeqCst) >= number {
            return true;
        }
        thread::yield_now();
    }
    false
}

// Its release sets the stage to 1 and waits for 2; without that it meets the fault 9.
#[derive(Drop)]
struct Actor<'a> {
    life: Life,
    uses: u64,
    stage: &'a AtomicU64,
}

impl Resource for Actor<'_> {
    ghost tag_of = { λ a. 1 };

    ghost life_of = { λ a. a.life };

    ghost uses_of = { λ a. a.uses };

    fn tag(&self) -> u64 {
        1
    }

    fn life(&self) -> Life {
        self.life
    }

    fn uses(&self) -> u64 {
        self.uses
    }

    fn apply(&mut self, word: u64) -> u64 {
        self.uses += 1;
        word
    }

    fn release(&mut self) -> Result<(), u32> {
        self.life = Life::Released;
        self.stage.store(1, Ordering::SeqCst);
        if came_to(self.stage, 2) {
            Ok(())
        } else {
            Err(9)
        }
    }
}

// Opens a root, and another with an actor, which waits for its release then. The key of the first.
fn laid_out<'a, I: Ledger, A: Ledger, K: Ledger>(
    floor: &mut Floor<Actor<'a>, I, A, K>,
    seat: &mut Seat<I, A, K>,
    actor: Actor<'a>,
) -> Result<Key, Refusal> {
    let other = floor.open(At::Root, Kind::Pass)?;
    match floor.open_using(seat, At::Root, actor) {
        Ok(opened) => match floor.dispose(opened.key) {
            Ok(_) => Ok(other.key),
            Err(why) => Err(why),
        },
        Err(refused) => Err(refused.why),
    }
}

// Waits until a release runs, disposes of a root meanwhile, and only then lets the release end.
fn dispose_meanwhile<I: Ledger, A: Ledger, K: Ledger>(
    rt: &impl Wait,
    desk: &Desk<Actor<'_>, I, A, K>,
    other: Key,
    stage: &AtomicU64,
) -> Result<u64, Refusal> {
    came_to(stage, 1);
    let disposed = desk.floor.lock(rt).dispose(other);
    stage.store(2, Ordering::SeqCst);
    disposed
}

// One thread releases an actor; the other disposes of another root at the same desk meanwhile. Answers the faults
// of the release, and where that root was closed.
fn meet<
    I: Ledger + Send + Sync,
    A: Ledger + Send + Sync,
    K: Ledger + Send + Sync,
    T: Threads + Wait + Sync,
>(
    rt: &T,
    desk: &Desk<Actor<'_>, I, A, K>,
    seat: Seat<I, A, K>,
    other: Key,
    stage: &AtomicU64,
) -> (u64, Result<u64, Refusal>) {
    let (worked, disposed) = thread::join(
        rt,
        || worker(rt, desk, seat, &Open, 1),
        || dispose_meanwhile(rt, desk, other, stage),
    );
    (worked.faults, disposed)
}

// Makes the desk for it.
fn disposes_meanwhile<
    I: Ledger + Send + Sync,
    A: Ledger + Send + Sync,
    K: Ledger + Send + Sync,
    T: Threads + Wait + Sync,
>(
    rt: &T,
    alloc: Global,
    blanks: (Blank, Blank, Blank),
    stage: &AtomicU64,
) -> (u64, Result<u64, Refusal>)
    requires items { OpensFromBlank I.name I.parts blanks.0.name blanks.0.parts }
    requires accepted { OpensFromBlank A.name A.parts blanks.1.name blanks.1.parts }
    requires taken { OpensFromBlank K.name K.parts blanks.2.name blanks.2.parts }
{
    let book = Book::new(alloc, 1000);
    let (desk, mut seat) = Desk::<Actor<'_>, I, A, K>::new(book, blanks.0, blanks.1, blanks.2);
    let actor = Actor {
        life: Life::Live,
        uses: 0,
        stage,
    };
    let other = laid_out(&mut desk.floor.lock(rt), &mut seat, actor);
    match other {
        Ok(other) => meet(rt, &desk, seat, other, stage),
        Err(why) => (0, Err(why)),
    }
}

#[test]
fn a_release_runs_while_the_desk_answers_another(rt: HostRuntime) {
    let stage = AtomicU64::new(0);
    let told = disposes_meanwhile::<Brand, Brand, Brand, _>(&rt, rt.alloc(), blanks(), &stage);
    assert_eq!(rt; told, (0, Ok(5)));
}

// Holds the first release until the call after another one.
#[derive(Drop)]
pub(super) struct Pair {
    entered: AtomicU64,
    left: AtomicU64,
    has_met: AtomicU64,
}

impl Pair {
    pub(super) fn new() -> Pair {
        Pair {
            entered: AtomicU64::new(0),
            left: AtomicU64::new(0),
            has_met: AtomicU64::new(0),
        }
    }

    // Whether two releases ran at the same time.
    pub(super) fn has_met(&self) -> bool {
        self.has_met.load(Ordering::SeqCst) == 1
    }
}

impl Gate for Pair {
    fn before(&self, _number: u64) {
        if self.entered.fetch_add(1, Ordering::SeqCst) == 0 && came_to(&self.left, 1) {
            self.has_met.store(1, Ordering::SeqCst);
        }
    }

    fn after(&self, _number: u64) {
        self.left.fetch_add(1, Ordering::SeqCst);
    }
}

// Two resources of roots that are closed.
static LAID_OUT: [Call; 4] = [
    Call::Using(1),
    Call::Dispose(0),
    Call::Using(2),
    Call::Dispose(3),
];

// Two workers release one resource each, the first of which waits for the second. Tells whether they met.
pub(super) fn both_release<
    I: Ledger + Send + Sync,
    A: Ledger + Send + Sync,
    K: Ledger + Send + Sync,
    T: Threads + Wait + Sync,
>(
    rt: &T,
    alloc: Global,
    desk: &Desk<Sample, I, A, K>,
    first: Seat<I, A, K>,
    told: &mut String,
) -> Option<Seat<I, A, K>> {
    let mut first = make_all(rt, alloc, desk, first, &mut NO_SLOTS, &LAID_OUT, told);
    let second = first.split()?;
    let gate = Pair::new();
    let by = &gate;
    let (one, other) = thread::join(
        rt,
        || worker(rt, desk, first, by, 1),
        || worker(rt, desk, second, by, 1),
    );
    tell(told, gate.has_met());
    let mut both = one.seat;
    both.merge(other.seat);
    Some(both)
}

static MET: [(Trial, &str); 1] = [(
    Trial::Meeting,
    "\
Ok(0)
Ok(2)
Ok(3)
Ok(5)
true
Ok(Totals { items: 0, accepted: 2, taken: 2, held: 0, waiting: 0, len: 8 })
None
Closed { released: 0, faults: 0 }
",
)];

#[test]
fn two_workers_release_at_the_same_time(rt: HostRuntime) {
    assert_all(&rt, rt.alloc(), &MET);
}

// Waits for the bell until something waits, and then sets the stage to 2; it has the lock until it waits.
fn wait_for_bell<I: Ledger, A: Ledger, K: Ledger>(
    rt: &impl Wait,
    desk: &Desk<Sample, I, A, K>,
    stage: &AtomicU64,
) {
    let floor = desk.floor.lock(rt);
    stage.store(1, Ordering::SeqCst);
    let floor = desk
        .bell
        .wait_while(rt, floor, |floor| floor.waiting() == 0);
    stage.store(2, Ordering::SeqCst);
    drop(floor);
}

// Ends a leaf by a feed meanwhile. Whether the other was woken before this one rings too.
fn feed_meanwhile<I: Ledger, A: Ledger, K: Ledger>(
    rt: &impl Wait,
    alloc: Global,
    desk: &Desk<Sample, I, A, K>,
    seat: Seat<I, A, K>,
    leaf: Key,
    stage: &AtomicU64,
) -> (Seat<I, A, K>, bool) {
    came_to(stage, 1);
    let mut source = Ticks::of(1, Terminal::Completed);
    let fed = feed(rt, alloc, desk, seat, leaf, &mut source, 9);
    let is_woken = came_to(stage, 2);
    desk.bell.notify_all();
    (fed.seat, is_woken)
}

// A root that is a leaf, and holds a resource.
static HOLDS: [Call; 2] = [Call::Open(Kind::Leaf), Call::Hold(0, 1)];

// One thread waits for the bell, the other feeds a leaf that holds a resource. Tells whether the first was woken.
pub(super) fn wakes<
    I: Ledger + Send + Sync,
    A: Ledger + Send + Sync,
    K: Ledger + Send + Sync,
    T: Threads + Wait + Sync,
>(
    rt: &T,
    alloc: Global,
    desk: &Desk<Sample, I, A, K>,
    seat: Seat<I, A, K>,
    told: &mut String,
) -> Option<Seat<I, A, K>> {
    let mut slots = NO_SLOTS;
    let seat = make_all(rt, alloc, desk, seat, &mut slots, &HOLDS, told);
    let leaf = key_of(&slots, 0);
    let word = AtomicU64::new(0);
    let stage = &word;
    let (_waited, (seat, is_woken)) = thread::join(
        rt,
        || wait_for_bell(rt, desk, stage),
        || feed_meanwhile(rt, alloc, desk, seat, leaf, stage),
    );
    tell(told, is_woken);
    Some(seat)
}

static WOKEN: [(Trial, &str); 1] = [(
    Trial::Bell,
    "\
Ok(0)
Ok(1)
true
Ok(Totals { items: 1, accepted: 1, taken: 0, held: 0, waiting: 1, len: 4 })
None
Closed { released: 1, faults: 0 }
",
)];

#[test]
fn a_feed_rings_the_bell_where_a_resource_waits_then(rt: HostRuntime) {
    assert_all(&rt, rt.alloc(), &WOKEN);
}
