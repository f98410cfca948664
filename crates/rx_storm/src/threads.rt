//! The threads of a storm.

ghost use Rattle.std.specs.Prelude.{◌≡◌, ◌≢◌, ◌+◌, ◌++◌, ◌∷◌, [], min, vec_len, None, Some, IsErr, IsSome, IfSome, IfNone};
ghost use Rattle.std.specs.Thread.{IsSend, IsSync};
ghost use Rattle.rx_crew.specs.declared.working.Stop.{Stop};
ghost use Rattle.rx_storm.specs.declared.outcome.Lack.{Lack};
ghost use Rattle.rx_storm.specs.Storms.{HasEmitted};

use crate::batches::emit_batches;
use crate::numbers::Numbers;
use crate::opening::open_leaf;
use crate::outcome::Lack;
use rx_crew::{Desk, Fed, Gate, Stop, Worked, feed, worker};
use rx_ledger::{Receipt, Seat};
use rx_resource::Resource;
use std::alloc::Global;
use std::sync::Wait;
use std::sync::ledger::Ledger;
use std::thread;
use std::thread::{JoinHandle, SpawnError, Threads};

/// What the threads gave back.
#[derive(Drop)]
pub struct Gathered<I: Ledger, A: Ledger, K: Ledger> {
    /// The seats of all that were started, and the first seat.
    pub seats: Vec<Seat<I, A, K>>,
    /// The receipts of the feeds.
    pub receipts: Vec<Receipt>,
    /// How many resources the workers released.
    pub released: u64,
    /// How many of those releases answered a fault.
    pub faults: u64,
    /// What kept the storm from its end, if something did: a thread only where no memory was refused.
    pub fault: Option<Lack>,
}

impl<I: Ledger, A: Ledger, K: Ledger> Gathered<I, A, K> {
    /// Nothing yet.
    fn new(alloc: Global) -> Gathered<I, A, K>
        ensures seats { result.seats.items ≡ [] }
        ensures receipts { result.receipts.items ≡ [] }
        ensures released { result.released ≡ 0 }
        ensures faults { result.faults ≡ 0 }
        ensures fault { result.fault ≡ None }
    {
        Gathered {
            seats: Vec::new(alloc),
            receipts: Vec::new(alloc),
            released: 0,
            faults: 0,
            fault: None,
        }
    }

    /// Notes that memory was refused, also where a thread could not be started before.
    fn lack_memory(&mut self)
        ensures { self.new ≡ record self.old { fault = Some Lack.Memory } }
    {
        self.fault = Some(Lack::Memory);
    }

    /// Notes what kept a thread from being started, if something did. What was lacked before stays.
    fn note_lack(&mut self, lack: Option<Lack>)
        ensures first { IsSome self.old.fault → self.new ≡ self.old }
        ensures noted { self.old.fault ≡ None → self.new ≡ record self.old { fault = lack } }
    {
        match self.fault {
            None => self.fault = lack,
            Some(_) => {}
        }
    }

    /// Keeps a seat, or notes that there was no memory for it.
    fn keep(&mut self, seat: Seat<I, A, K>)
        ensures kept { self.new.fault ≡ None → self.new.seats.items ≡ self.old.seats.items ++ (seat ∷ []) }
        ensures lacked { IsSome self.old.fault → IsSome self.new.fault }
        ensures memory { self.old.fault ≡ Some Lack.Memory → self.new.fault ≡ Some Lack.Memory }
        ensures thread { self.new.fault ≡ Some Lack.Thread → self.old.fault ≡ Some Lack.Thread }
        ensures receipts { self.new.receipts ≡ self.old.receipts }
        ensures released { self.new.released ≡ self.old.released }
        ensures faults { self.new.faults ≡ self.old.faults }
    {
        if self.seats.push(seat).is_err() {
            self.lack_memory();
        }
    }

    /// Adds what a feed did; None where it could not open its nodes. Where nothing is lacked after it, the
    /// feed came to its end, and its receipts and its seat are kept. One that was refused lacks memory, whatever
    /// was lacked before.
    fn add_fed(&mut self, fed: Option<Fed<I, A, K>>)
        ensures fed { self.new.fault ≡ None → IsSome fed }
        ensures done { IfSome fed (λ did. self.new.fault ≡ None → did.stop ≡ Stop.Done) }
        ensures unopened { IfNone fed (self.new.fault ≡ Some Lack.Memory) }
        ensures stopped { IfSome fed (λ did. did.stop ≢ Stop.Done → self.new.fault ≡ Some Lack.Memory) }
        ensures receipts { IfSome fed (λ did. self.new.fault ≡ None
            → self.new.receipts.items ≡ self.old.receipts.items ++ did.receipts.items) }
        ensures seats { IfSome fed (λ did. self.new.fault ≡ None
            → self.new.seats.items ≡ self.old.seats.items ++ (did.seat ∷ [])) }
        ensures lacked { IsSome self.old.fault → IsSome self.new.fault }
        ensures memory { self.old.fault ≡ Some Lack.Memory → self.new.fault ≡ Some Lack.Memory }
        ensures thread { self.new.fault ≡ Some Lack.Thread → self.old.fault ≡ Some Lack.Thread }
        ensures released { self.new.released ≡ self.old.released }
        ensures faults { self.new.faults ≡ self.old.faults }
    {
        let Some(fed) = fed else {
            self.lack_memory();
            return;
        };
        if fed.stop != Stop::Done || self.receipts.extend_from_slice(&fed.receipts).is_err() {
            self.lack_memory();
        }
        self.keep(fed.seat);
    }

    /// Adds what a worker did, as far as a `u64` counts.
    fn add_worked(&mut self, worked: Worked<I, A, K>)
        ensures released { self.new.released ≡ min (self.old.released + worked.released) 18446744073709551615 }
        ensures faults { self.new.faults ≡ min (self.old.faults + worked.faults) 18446744073709551615 }
        ensures seats { self.new.fault ≡ None → self.new.seats.items ≡ self.old.seats.items ++ (worked.seat ∷ []) }
        ensures lacked { IsSome self.old.fault → IsSome self.new.fault }
        ensures memory { self.old.fault ≡ Some Lack.Memory → self.new.fault ≡ Some Lack.Memory }
        ensures thread { self.new.fault ≡ Some Lack.Thread → self.old.fault ≡ Some Lack.Thread }
        ensures receipts { self.new.receipts ≡ self.old.receipts }
    {
        self.released = self.released.saturating_add(worked.released);
        self.faults = self.faults.saturating_add(worked.faults);
        self.keep(worked.seat);
    }

    /// Joins the feeds, shuts the desk, and joins the workers.
    fn join_all<R: Resource, T: Threads + Wait>(
        &mut self,
        rt: &T,
        desk: &Desk<R, I, A, K>,
        feeds: Vec<JoinHandle<Option<Fed<I, A, K>>>>,
        works: Vec<JoinHandle<Worked<I, A, K>>>,
    ) {
        for thread in feeds {
            self.add_fed(thread.join(rt));
        }
        desk.floor.lock(rt).shut();
        desk.bell.notify_all();
        for thread in works {
            self.add_worked(thread.join(rt));
        }
    }
}

/// Opens a Using root with the resource and a leaf below it, and feeds that the numbers below `items`
/// and a completion. None where the opening was refused.
fn emit_all<R: Resource, I: Ledger, A: Ledger, K: Ledger>(
    rt: &impl Wait,
    alloc: Global,
    desk: &Desk<R, I, A, K>,
    seat: Seat<I, A, K>,
    resource: R,
    items: u32,
) -> Option<Fed<I, A, K>>
    ensures done { IfSome result (λ fed. fed.stop ≡ Stop.Done → HasEmitted items seat fed.seat fed.receipts.items) }
    ensures turns { IfSome result (λ fed. fed.stop ≢ Stop.Turns) }
{
    let mut seat = seat;
    let leaf = open_leaf(rt, desk, &mut seat, resource)?;
    let mut numbers = Numbers::below(items);
    let turns = u64::from(items) + 1;
    Some(feed(rt, alloc, desk, seat, leaf, &mut numbers, turns))
}

/// Emits as the one or the other does: an item under one lock, or 16.
fn emit<R: Resource, I: Ledger, A: Ledger, K: Ledger>(
    rt: &impl Wait,
    alloc: Global,
    desk: &Desk<R, I, A, K>,
    seat: Seat<I, A, K>,
    resource: R,
    items: u32,
    in_batches: bool,
) -> Option<Fed<I, A, K>>
    ensures done { IfSome result (λ fed. fed.stop ≡ Stop.Done → HasEmitted items seat fed.seat fed.receipts.items) }
    ensures turns { IfSome result (λ fed. fed.stop ≢ Stop.Turns) }
{
    if in_batches {
        emit_batches(rt, alloc, desk, seat, resource, items)
    } else {
        emit_all(rt, alloc, desk, seat, resource, items)
    }
}

/// Keeps a thread that was started, to be joined; or answers what kept it from that.
fn keep_thread<V: Send + Drop, F: Drop>(
    threads: &mut Vec<JoinHandle<V>>,
    started: Result<JoinHandle<V>, SpawnError<F>>,
) -> Option<Lack>
    ensures kept { result ≡ None → vec_len threads.new ≡ vec_len threads.old + 1 }
    ensures refused { IsErr started → result ≡ Some Lack.Thread }
{
    match started {
        Ok(thread) => match threads.push(thread) {
            Ok(()) => None,
            Err(_) => Some(Lack::Memory),
        },
        Err(_) => Some(Lack::Thread),
    }
}

/// Starts a feeding thread for each resource and so many working threads, each with a seat of its own;
/// joins the feeds, shuts the desk and joins the workers. Where a thread cannot be had or memory is
/// refused, that is noted, and no further one is started.
pub fn run_threads<
    R: Resource,
    I: Ledger + Send + Sync,
    A: Ledger + Send + Sync,
    K: Ledger + Send + Sync,
    G: Gate,
    T: Threads + Wait + Sync,
>(
    rt: &T,
    alloc: Global,
    desk: &Desk<R, I, A, K>,
    first: Seat<I, A, K>,
    stock: Vec<R>,
    workers: u64,
    items: u32,
    gate: &G,
) -> Gathered<I, A, K> {
    run_feeding(rt, alloc, desk, first, stock, workers, items, false, gate)
}

/// Runs the threads of a storm, with an item under one lock, or 16.
pub fn run_feeding<
    R: Resource,
    I: Ledger + Send + Sync,
    A: Ledger + Send + Sync,
    K: Ledger + Send + Sync,
    G: Gate,
    T: Threads + Wait + Sync,
>(
    rt: &T,
    alloc: Global,
    desk: &Desk<R, I, A, K>,
    first: Seat<I, A, K>,
    stock: Vec<R>,
    workers: u64,
    items: u32,
    in_batches: bool,
    gate: &G,
) -> Gathered<I, A, K> {
    let turns = (stock.len() as u64).saturating_add(1);
    thread::scope(
        thread::scope_env(),
        rt,
        move |scope| -> Gathered<I, A, K>
            requires { IsSync T.row × IsSync G.row × IsSend R.row × IsSend I.row
                × IsSync I.row × IsSend A.row × IsSync A.row × IsSend K.row × IsSync K.row }
        {
            let mut first = first;
            let mut gathered = Gathered::new(alloc);
            let mut feeds = Vec::new(alloc);
            let mut works = Vec::new(alloc);
            for resource in stock {
                let Some(seat) = first.split() else {
                    break;
                };
                let started = scope.spawn(move || emit(
                    rt, alloc, desk, seat, resource, items, in_batches,
                ));
                gathered.note_lack(keep_thread(&mut feeds, started));
                if gathered.fault.is_some() {
                    break;
                }
            }
            for _worker in 0..workers {
                if gathered.fault.is_some() {
                    break;
                }
                let Some(seat) = first.split() else {
                    break;
                };
                let started = scope.spawn(move || worker(rt, desk, seat, gate, turns));
                gathered.note_lack(keep_thread(&mut works, started));
            }
            gathered.join_all(rt, desk, feeds, works);
            gathered.keep(first);
            gathered
        },
    )
}
