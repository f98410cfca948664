//! The end of a desk: what the threads say that they did, beside what the book says.

ghost use Rattle.std.specs.Prelude.{◌≡◌, ◌↔◌, IfOk, IsTrue};
ghost use Rattle.rx_book.specs.State.{IsPromised};
ghost use Rattle.rx_ledger.specs.Shares.{all_parts, together, sums_in};
ghost use Rattle.rx_crew.specs.Counting.{sums_of};
ghost use Rattle.rx_crew.specs.Verdicts.{AllTaken, IsVerdictOnThreads, FirstWrong, Stands, totals_written};

use crate::desk::Desk;
use crate::floor::Floor;
use rx_book::Book;
use rx_ledger::{Receipt, Seat, Sums};
use rx_resource::Resource;
use std::sync::ledger::Ledger;

/// The totals of a book.
#[derive(Clone, Copy, Debug, PartialEq, Eq)]
pub struct Totals {
    /// Items emitted.
    pub items: u64,
    /// Resources accepted.
    pub accepted: u64,
    /// Resources taken.
    pub taken: u64,
    /// Resources held.
    pub held: u64,
    /// Resources that wait for their release.
    pub waiting: u64,
    /// Events.
    pub len: u64,
}

/// The first thing in which the threads and the book differ.
#[derive(Clone, Copy, Debug, PartialEq, Eq)]
pub enum Mismatch {
    /// The items: the sum over the seats, and the book's total.
    Items { shares: u64, book: u64 },
    /// The accepted resources, in the same way.
    Accepted { shares: u64, book: u64 },
    /// The taken resources, in the same way.
    Taken { shares: u64, book: u64 },
    /// A receipt whose event does not stand at this place.
    Receipt { place: u64 },
}

/// A book taken out of its desk, and whether the threads agree with it.
#[derive(Drop)]
pub struct Finished<R: Resource> {
    /// The book.
    pub book: Book<R>,
    /// Its totals where seats and receipts agree with it, else the first thing that does not.
    pub verdict: Result<Totals, Mismatch>,
}

/// Whether a receipt's event stands at its place.
fn stands<R: Resource>(book: &Book<R>, receipt: Receipt) -> bool
    ensures { IsTrue result ↔ Stands book.now.base book.now.history receipt }
{
    match book.event(receipt.place) {
        Some(event) => event.same(receipt.event),
        None => false,
    }
}

/// The place of the first receipt whose event does not stand there.
fn first_wrong<R: Resource>(book: &Book<R>, receipts: &[Receipt]) -> Option<u64>
    ensures { FirstWrong book.now.base book.now.history receipts.now result }
{
    for receipt in receipts {
        if !stands(book, *receipt) {
            return Some(receipt.place);
        }
    }
    None
}

/// The totals of a book.
fn count_all<R: Resource>(book: &Book<R>) -> Totals
    ensures { result ≡ totals_written book.now.base book.now.history }
{
    Totals {
        items: book.items(),
        accepted: book.accepted(),
        taken: book.taken(),
        held: book.held(),
        waiting: book.waiting(),
        len: book.len(),
    }
}

/// Compares the sums over the seats, and then the receipts, with a book.
fn compare<R: Resource>(
    book: &Book<R>,
    sums: Sums,
    receipts: &[Receipt],
) -> Result<Totals, Mismatch>
    ensures { IsVerdictOnThreads book.now.base book.now.history sums receipts.now result }
{
    let totals = count_all(book);
    if sums.items != totals.items {
        return Err(Mismatch::Items {
            shares: sums.items,
            book: totals.items,
        });
    }
    if sums.accepted != totals.accepted {
        return Err(Mismatch::Accepted {
            shares: sums.accepted,
            book: totals.accepted,
        });
    }
    if sums.taken != totals.taken {
        return Err(Mismatch::Taken {
            shares: sums.taken,
            book: totals.taken,
        });
    }
    match first_wrong(book, receipts) {
        Some(place) => Err(Mismatch::Receipt { place }),
        None => Ok(totals),
    }
}

/// Compares a book, as it is out of its desk, with the sums and receipts of the threads: where all agrees and nothing
/// of it is left, no lease either, all that was accepted was taken.
fn judge<R: Resource>(book: &Book<R>, sums: Sums, receipts: &[Receipt]) -> Result<Totals, Mismatch>
    ensures verdict { IsVerdictOnThreads book.now.base book.now.history sums receipts.now result }
    ensures all_taken { IfOk result (λ _. AllTaken book.now.history sums) }
{
    book.promise();
    compare(book, sums, receipts)
}

/// What the seats have counted together, nothing where there are none.
fn shares_of<R: Resource, I: Ledger, A: Ledger, K: Ledger>(
    floor: &mut Floor<R, I, A, K>,
    seats: Vec<Seat<I, A, K>>,
) -> Sums
    ensures sums { result ≡ sums_in (together seats.items) }
    ensures all { (together seats.items).parts ≡ all_parts → result ≡ sums_of floor.old.book.base floor.old.book.history }
    ensures book { floor.new.book ≡ floor.old.book }
{
    let Some(mut all) = Seat::gather(seats) else {
        return Sums {
            items: 0,
            accepted: 0,
            taken: 0,
        };
    };
    floor.audit(&mut all);
    Sums {
        items: all.items(),
        accepted: all.accepted(),
        taken: all.taken(),
    }
}

/// Takes the book out of its desk, and compares what the seats have counted, and then the receipts,
/// with it: the items first, then the accepted resources, the taken ones, and the receipts in order.
///
/// It is called once all threads have been joined, since it takes the desk. Where the seats have all
/// parts, the shares are the totals and only a receipt can be wrong. It takes no memory and does not
/// wait. Resources that are still in the book stay there; they are the caller's to take and release.
pub fn finish<R: Resource, I: Ledger, A: Ledger, K: Ledger>(
    desk: Desk<R, I, A, K>,
    seats: Vec<Seat<I, A, K>>,
    receipts: &[Receipt],
) -> Finished<R>
    ensures book { IsPromised result.book }
    ensures verdict { IsVerdictOnThreads result.book.base result.book.history
        (sums_in (together seats.items)) receipts.now result.verdict }
    ensures all { (together seats.items).parts ≡ all_parts → sums_in (together seats.items) ≡ sums_of result.book.base result.book.history }
    ensures all_taken { IfOk result.verdict (λ _. AllTaken result.book.history (sums_in (together seats.items))) }
{
    let Desk { floor, bell: _ } = desk;
    let mut floor = floor.into_inner();
    let sums = shares_of(&mut floor, seats);
    let book = floor.into_book();
    book.promise();
    let verdict = judge(&book, sums, receipts);
    Finished { book, verdict }
}
