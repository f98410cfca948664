//! What lies behind the lock: the book, its ledgers, and whether the desk is shut.

ghost use Rattle.std.specs.Prelude.{◌≡◌, true, false};
ghost use Rattle.rx_ledger.specs.Shares.{OpensFromBlank, IsWithin, all_parts, sums_in, whole};
ghost use Rattle.rx_book.specs.State.{IsPromised};
ghost use Rattle.rx_crew.specs.Counting.{sums_of, AreCountable};

mod checkpoint;
mod ending;
mod holding;
mod hubs;
mod leasing;
mod opening;
mod reading;

use rx_book::Book;
use rx_ledger::{Ledgers, Seat, Sums};
use rx_resource::Resource;
use std::sync::ledger::{Blank, Ledger};

/// What lies behind a desk's lock. It has the calls of the [`Book`] by the same names, each of which
/// answers, refuses and does just what the book's call does; one that counts takes the caller's seat too.
/// It has not `next_all`, `ask`, `closed_count`, `nth_closed` and `next_within`, and no call that releases, as
/// `close` and `finish`: a release is not to run under the lock.
///
/// At each moment the totals of the ledgers are those of the book's history, beside all that a book
/// promises. Only [`crate::Desk::new`] makes one.
#[derive(Drop)]
pub struct Floor<R: Resource, I: Ledger, A: Ledger, K: Ledger> {
    book: Book<R>,
    ledgers: Ledgers<I, A, K>,
    is_shut: bool,
    ghost tied: { ledgers ≡ sums_of book.base book.history },
}

impl<R: Resource, I: Ledger, A: Ledger, K: Ledger> Floor<R, I, A, K> {
    /// Opens the ledgers at the book's totals, all of which the first seat has counted.
    pub(crate) fn new(
        book: Book<R>,
        items: Blank,
        accepted: Blank,
        taken: Blank,
    ) -> (Floor<R, I, A, K>, Seat<I, A, K>)
        requires items { OpensFromBlank I.name I.parts items.name items.parts }
        requires accepted { OpensFromBlank A.name A.parts accepted.name accepted.parts }
        requires taken { OpensFromBlank K.name K.parts taken.name taken.parts }
        ensures book { result.0.book ≡ book }
        ensures shut { result.0.is_shut ≡ false }
        ensures seat { result.1 ≡ whole (sums_of book.base book.history) }
    {
        let sums = Sums {
            items: book.items(),
            accepted: book.accepted(),
            taken: book.taken(),
        };
        let (ledgers, seat) = Ledgers::open(sums, items, accepted, taken);
        let floor = Floor {
            book,
            ledgers,
            is_shut: false,
        };
        (floor, seat)
    }

    /// Tells the workers to stop once nothing waits. Every call goes on to work.
    pub fn shut(&mut self)
        ensures book { self.new.book ≡ self.old.book }
        ensures shut { self.new.is_shut ≡ true }
    {
        self.is_shut = true;
    }

    /// Whether the workers are to stop once nothing waits.
    pub fn is_shut(&self) -> bool
        ensures { result ≡ self.now.is_shut }
    {
        self.is_shut
    }

    /// The promise of the book on the floor, as [`Book::promise`]. It does nothing.
    pub fn promise(&self)
        ensures { IsPromised self.now.book }
    {
        self.book.promise();
    }

    /// Says how a seat's shares stand to the book's totals: none is above its total, and with all
    /// parts they are the totals, of which none reaches 2^64. It changes nothing.
    pub fn audit(&mut self, seat: &mut Seat<I, A, K>)
        ensures book { self.new.book ≡ self.old.book }
        ensures shut { self.new.is_shut ≡ self.old.is_shut }
        ensures seat { seat.new ≡ seat.old }
        ensures within { IsWithin seat.old (sums_of self.old.book.base self.old.book.history) }
        ensures all { seat.old.parts ≡ all_parts → sums_in seat.old ≡ sums_of self.old.book.base self.old.book.history }
        ensures countable { AreCountable (sums_of self.old.book.base self.old.book.history) }
    {
        self.book.promise();
        self.ledgers.audit(seat);
    }

    /// The book, for which the ledgers are given up.
    pub(crate) fn into_book(self) -> Book<R>
        ensures { result ≡ self.book }
    {
        let Floor { book, .. } = self;
        book
    }
}
