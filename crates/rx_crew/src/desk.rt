//! A floor behind its lock.

ghost use Rattle.std.specs.Prelude.{◌≡◌};
ghost use Rattle.rx_ledger.specs.Shares.{OpensFromBlank, whole};
ghost use Rattle.rx_crew.specs.Counting.{sums_of};

use crate::floor::Floor;
use rx_book::Book;
use rx_ledger::Seat;
use rx_resource::Resource;
use std::sync::ledger::{Blank, Ledger};
use std::sync::{Condvar, Mutex};

/// A book behind one lock, and the bell that tells of its changes.
///
/// A thread locks `floor`, makes its call on the [`Floor`] that the guard lends, gives the lock back
/// and rings `bell` by `notify_all` where the call may give a waiting worker something to do: where
/// resources may have come to wait, or the desk was shut. A desk that is dropped drops its book.
#[derive(Drop)]
pub struct Desk<R: Resource, I: Ledger, A: Ledger, K: Ledger> {
    /// The floor behind its lock.
    pub floor: Mutex<Floor<R, I, A, K>>,
    /// The bell, rung after a call.
    pub bell: Condvar,
}

impl<R: Resource, I: Ledger, A: Ledger, K: Ledger> Desk<R, I, A, K> {
    /// A desk for this book, and its first seat, which has all parts and has counted all that the
    /// book has. Each blank has [`rx_ledger::PARTS`] parts and the name of its ledger's type.
    ///
    /// No clause says which book is on the floor, since a contract knows nothing of what lies behind a
    /// lock: `finish` says what the book that it takes out comes to beside all seats.
    ///
    /// It is called in a function that is generic in the three ledgers, which is itself called with
    /// `std::marker::Brand` for each: so each desk has types of its own, and the seat of one is
    /// refused by the compiler at another.
    pub fn new(
        book: Book<R>,
        items: Blank,
        accepted: Blank,
        taken: Blank,
    ) -> (Desk<R, I, A, K>, Seat<I, A, K>)
        requires items { OpensFromBlank I.name I.parts items.name items.parts }
        requires accepted { OpensFromBlank A.name A.parts accepted.name accepted.parts }
        requires taken { OpensFromBlank K.name K.parts taken.name taken.parts }
        ensures { result.1 ≡ whole (sums_of book.base book.history) }
    {
        let (floor, seat) = Floor::new(book, items, accepted, taken);
        let desk = Desk {
            floor: Mutex::new(floor),
            bell: Condvar::new(),
        };
        (desk, seat)
    }
}
