//! What is tried at a desk, from its beginning to the end of its book, and what is told of it.

ghost use Rattle.rx_ledger.specs.Shares.{OpensFromBlank};

use super::closed_keys::eight_refused;
use super::desk_calls::{Call, NO_SLOTS, make_all};
use super::endless::{LIMIT, storm};
use super::finishing::work;
use super::leases::passed_on;
use super::parts::{blanks, number_of, tell};
use super::pull_refused_memory::feed_in_the_end;
use super::releases_outside_the_lock::{both_release, wakes};
use super::seats::{SEEN, give_a_past};
use super::workers::work_thrice;
use rx_book::Book;
use rx_crew::{Desk, Finished, finish};
use rx_ledger::{Receipt, Seat};
use rx_resource::Sample;
use std::alloc::Global;
use std::marker::Brand;
use std::process::Abort;
use std::sync::Wait;
use std::sync::ledger::{Blank, Ledger};
use std::thread::Threads;

// What is tried. The receipts are those that the desk is shown at its end.
#[derive(Clone, Copy)]
pub(super) enum Trial {
    // These calls.
    Calls(&'static [Call], &'static [Receipt]),
    // Two seats' work; whether each of them is there at the end.
    Work(bool, bool, &'static [Receipt]),
    // A feed that is refused memory.
    Want,
    // Three workers, one after the other.
    Workers,
    // Two workers at the same time.
    Meeting,
    // A thread that waits for the bell of a feed.
    Bell,
    // A lease that goes from thread to thread.
    Lease,
    // Eight threads with a key of what is closed.
    Closed,
    // Feeds and checkpoints without end.
    Endless,
    // A desk that is made of a book with a past.
    Past,
}

// How many events the book may have.
fn limit_of(trial: Trial) -> u32 {
    match trial {
        Trial::Endless => LIMIT,
        _ => 10_000,
    }
}

fn receipts_of(trial: Trial) -> &'static [Receipt] {
    match trial {
        Trial::Calls(_, receipts) => receipts,
        Trial::Work(_, _, receipts) => receipts,
        _ => &[],
    }
}

// Tries it, and answers the seat with which the desk is ended; None where there is none, or it came to nothing.
fn tried<
    I: Ledger + Send + Sync,
    A: Ledger + Send + Sync,
    K: Ledger + Send + Sync,
    T: Threads + Wait + Sync,
>(
    rt: &T,
    alloc: Global,
    desk: &Desk<Sample, I, A, K>,
    seat: Seat<I, A, K>,
    trial: Trial,
    told: &mut String,
) -> Option<Seat<I, A, K>> {
    match trial {
        Trial::Calls(calls, _) => {
            let mut slots = NO_SLOTS;
            Some(make_all(rt, alloc, desk, seat, &mut slots, calls, told))
        }
        Trial::Work(first, second, _) => work(rt, alloc, desk, seat, (first, second), told),
        Trial::Want => feed_in_the_end(rt, alloc, desk, seat, told),
        Trial::Workers => work_thrice(rt, alloc, desk, seat, told),
        Trial::Meeting => both_release(rt, alloc, desk, seat, told),
        Trial::Bell => wakes(rt, alloc, desk, seat, told),
        Trial::Lease => passed_on(rt, alloc, desk, seat, told),
        Trial::Closed => eight_refused(rt, alloc, desk, seat, told),
        Trial::Endless => storm(rt, alloc, desk, seat, told),
        Trial::Past => Some(make_all(rt, alloc, desk, seat, &mut NO_SLOTS, &SEEN, told)),
    }
}

// Ends the desk, and then its book: the verdict, the open root of least number, and what was released.
fn end<I: Ledger, A: Ledger, K: Ledger>(
    alloc: Global,
    desk: Desk<Sample, I, A, K>,
    seat: Option<Seat<I, A, K>>,
    receipts: &[Receipt],
    told: &mut String,
) {
    let mut seats = Vec::new(alloc);
    if let Some(seat) = seat {
        let _ = seats.push(seat);
    }
    let Finished { book, verdict } = finish(desk, seats, receipts);
    tell(told, verdict);
    tell(told, number_of(book.open_root()));
    tell(told, book.finish());
}

// Makes the desk for it.
fn at_desk<
    I: Ledger + Send + Sync,
    A: Ledger + Send + Sync,
    K: Ledger + Send + Sync,
    T: Threads + Wait + Sync,
>(rt: &T, alloc: Global, blanks: (Blank, Blank, Blank), trial: Trial, told: &mut String)
    requires items { OpensFromBlank I.name I.parts blanks.0.name blanks.0.parts }
    requires accepted { OpensFromBlank A.name A.parts blanks.1.name blanks.1.parts }
    requires taken { OpensFromBlank K.name K.parts blanks.2.name blanks.2.parts }
{
    let mut book = Book::new(alloc, u64::from(limit_of(trial)));
    if let Trial::Past = trial {
        give_a_past(&mut book);
    }
    let (desk, seat) = Desk::<Sample, I, A, K>::new(book, blanks.0, blanks.1, blanks.2);
    let seat = tried(rt, alloc, &desk, seat, trial, told);
    end(alloc, desk, seat, receipts_of(trial), told);
}

// Tries it, and compares what is told of it.
fn assert_told<T: Threads + Wait + Sync + Abort>(rt: &T, alloc: Global, trial: Trial, lines: &str) {
    let mut told = String::new(alloc);
    at_desk::<Brand, Brand, Brand, _>(rt, alloc, blanks(), trial, &mut told);
    assert_eq!(rt; told.as_str(), lines);
}

/// Tries each of these at a desk of its own, and compares what is told of it.
pub(super) fn assert_all<T: Threads + Wait + Sync + Abort>(
    rt: &T,
    alloc: Global,
    rows: &[(Trial, &str)],
) {
    for (trial, lines) in rows {
        assert_told(rt, alloc, *trial, lines);
    }
}
