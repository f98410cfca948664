//! A whole program of threads at one book: two sources emit, each in a thread of its own and below a subscription that holds a
//! resource, and a worker releases what comes to wait. Then the desk is ended, and its book. It comes to the same whichever
//! thread gets the lock first.

ghost use Rattle.std.specs.Prelude.{◌≡◌, ◌+◌, IfOk, IsOk};
ghost use Rattle.rx_ledger.specs.Shares.{OpensFromBlank, all_parts, together};

use super::parts::{Open, blanks, tell};
use super::ticks::Ticks;
use rx_book::{At, Book, Closed};
use rx_crew::{Desk, Finished, Mismatch, Totals, feed, finish, worker};
use rx_event::{Kind, Terminal};
use rx_ledger::Seat;
use rx_resource::Sample;
use std::alloc::{AllocError, Global};
use std::marker::Brand;
use std::sync::Wait;
use std::sync::ledger::{Blank, Ledger};
use std::test::Fail;
use std::thread;
use std::thread::Threads;

/// Subscribes with a resource, and emits so many turns of a source of a thousand items, whose end is the 1001st. Where
/// a call is refused it stops there, and the book's totals say so.
fn emit<I: Ledger, A: Ledger, K: Ledger>(
    rt: &impl Wait,
    alloc: Global,
    desk: &Desk<Sample, I, A, K>,
    mut seat: Seat<I, A, K>,
    tag: u64,
    turns: u64,
) -> Seat<I, A, K>
    ensures { result.parts ≡ seat.parts }
{
    let mut floor = desk.floor.lock(rt);
    let Ok(root) = floor.open_using(&mut seat, At::Root, Sample::new(tag)) else {
        return seat;
    };
    let Ok(leaf) = floor.open(At::Source(root.key), Kind::Leaf) else {
        return seat;
    };
    drop(floor);
    let mut source = Ticks::of(1000, Terminal::Completed);
    feed(rt, alloc, desk, seat, leaf.key, &mut source, turns).seat
}

/// Has two threads emit, the first to the end of its source; joins them, and shuts the desk.
fn emit_both<
    I: Ledger + Send + Sync,
    A: Ledger + Send + Sync,
    K: Ledger + Send + Sync,
    T: Threads + Wait + Sync,
>(
    rt: &T,
    alloc: Global,
    desk: &Desk<Sample, I, A, K>,
    seats: (Seat<I, A, K>, Seat<I, A, K>),
) -> (Seat<I, A, K>, Seat<I, A, K>)
    ensures { (result.0.parts ≡ seats.0.parts) × (result.1.parts ≡ seats.1.parts) }
{
    let (first, second) = seats;
    let seats = thread::join(
        rt,
        || emit(rt, alloc, desk, first, 7, 1001),
        || emit(rt, alloc, desk, second, 8, 500),
    );
    desk.floor.lock(rt).shut();
    desk.bell.notify_all();
    seats
}

/// Ends a desk whose threads are joined, with all their seats, and then its book: no lock is held any more, so
/// the releases run here.
#[tactic(auto, using(rx_crew::proofs::Laws::OkHasTheTotals::agreed, rx_crew::proofs::Laws::OkHasTheTotals::released_at_the_end))]
fn end_all<I: Ledger, A: Ledger, K: Ledger>(
    desk: Desk<Sample, I, A, K>,
    seats: Vec<Seat<I, A, K>>,
) -> (Result<Totals, Mismatch>, Closed)
    requires { (together seats.items).parts ≡ all_parts }
    ensures agree { IsOk result.0 }
    ensures released { IfOk result.0 (λ totals. result.1.released ≡ totals.held + totals.waiting) }
{
    let Finished { book, verdict } = finish(desk, seats, &[]);
    (verdict, book.finish())
}

/// Makes the desk, has the threads work at it, and ends it. The ledgers are named by the caller, `Brand` each.
fn run<
    I: Ledger + Send + Sync,
    A: Ledger + Send + Sync,
    K: Ledger + Send + Sync,
    T: Threads + Wait + Sync,
>(
    rt: &T,
    alloc: Global,
    blanks: (Blank, Blank, Blank),
) -> Result<(Result<Totals, Mismatch>, Closed), AllocError>
    requires items { OpensFromBlank I.name I.parts blanks.0.name blanks.0.parts }
    requires accepted { OpensFromBlank A.name A.parts blanks.1.name blanks.1.parts }
    requires taken { OpensFromBlank K.name K.parts blanks.2.name blanks.2.parts }
    ensures { IfOk result (λ ended. IsOk ended.0) }
{
    let mut seats = Vec::new(alloc);
    seats.reserve(3)?;
    let book = Book::new(alloc, 1_000_000);
    let (desk, mut seat) = Desk::<Sample, I, A, K>::new(book, blanks.0, blanks.1, blanks.2);
    let (Some(first), Some(second)) = (seat.split(), seat.split()) else {
        unreachable!()
    };
    let at = &desk;
    let (worked, emitted) = thread::join(
        rt,
        || worker(rt, at, seat, &Open, 10),
        || emit_both(rt, alloc, at, (first, second)),
    );
    seats.push_reserved(worked.seat);
    seats.push_reserved(emitted.0);
    seats.push_reserved(emitted.1);
    Ok(end_all(desk, seats))
}

const TOLD: &str = "\
Ok(Totals { items: 1500, accepted: 2, taken: 1, held: 1, waiting: 0, len: 1509 })
Closed { released: 1, faults: 0 }
";

// What comes of the program, as lines.
fn told<T: Threads + Wait + Sync>(rt: &T, alloc: Global) -> Result<String, AllocError> {
    let (verdict, closed) = run::<Brand, Brand, Brand, _>(rt, alloc, blanks())?;
    let mut told = String::new(alloc);
    tell(&mut told, verdict);
    tell(&mut told, closed);
    Ok(told)
}

#[test]
fn two_sources_and_a_worker_agree_with_the_book(rt: HostRuntime) -> Result<(), Fail> {
    let told = told(&rt, rt.alloc())?;
    assert_eq!(rt; told.as_str(), TOLD);
    Ok(())
}
