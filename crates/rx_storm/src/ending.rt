//! The end of a storm: its book is judged, told and closed.

ghost use Rattle.std.specs.Prelude.{◌≡◌, ◌-◌, [], min, length, None, Some, IfOk, IfErr, OnOk};
ghost use Rattle.rx_event.specs.Notes.{notes};
ghost use Rattle.rx_ledger.specs.Shares.{together, sums_in};
ghost use Rattle.rx_storm.specs.Storms.{figures_of, IsClosing, IsStormEnd};

use crate::figures::Figures;
use crate::outcome::{Lack, storm_outcome};
use crate::threads::Gathered;
use rx_book::Book;
use rx_crew::{Desk, Finished, finish};
use rx_resource::Resource;
use std::sync::ledger::Ledger;

/// The book of a storm at its end, closed, and what is told of it.
#[derive(Drop)]
pub struct Settled<R: Resource> {
    /// The book: nothing is open, held or waiting in it.
    pub book: Book<R>,
    /// The figures before the closing, and whether the threads agree with the book; or what was lacked.
    pub outcome: Result<(Figures, bool), Lack>,
}

/// Takes all mail that is left, and answers how much it was, as far as a `u64` counts.
fn take_all_mail<R: Resource>(book: &mut Book<R>) -> u64
    ensures count { result ≡ min (length (notes book.old.history) - book.old.given) 18446744073709551615 }
    ensures kept { book.new ≡ record book.old { given = book.new.given } }
{
    book.promise();
    for taken in 0..u64::MAX {
        if book.take_mail().is_none() {
            return taken;
        }
        book.promise();
    }
    u64::MAX
}

/// Takes the mail of a book and closes it: its figures before that, with so many releases and faults
/// of the workers.
fn close_book<R: Resource>(book: &mut Book<R>, released: u64, faults: u64) -> Figures
    ensures figures { result ≡ figures_of book.old released faults }
    ensures closing { IsClosing book.old book.new }
{
    let notes = take_all_mail(book);
    let figures = Figures {
        accepted: book.accepted(),
        taken: book.taken(),
        released,
        faults,
        held: book.held(),
        waiting: book.waiting(),
        notes,
        events: book.len(),
    };
    let _closed = book.close();
    figures
}

/// Takes the book out of its desk, compares it with what the threads gave back, and closes it, also
/// where something was lacked.
pub fn settle<R: Resource, I: Ledger, A: Ledger, K: Ledger>(
    desk: Desk<R, I, A, K>,
    gathered: Gathered<I, A, K>,
) -> Settled<R>
    ensures none_open { result.book.keys ≡ [] }
    ensures none_held { result.book.held ≡ [] }
    ensures none_waits { result.book.waiting ≡ [] }
    ensures told { IfOk result.outcome (λ told. IsStormEnd (sums_in (together gathered.seats.items))
        gathered.receipts.items told.0 told.1) }
    ensures released { IfOk result.outcome (λ told. told.0.released ≡ gathered.released) }
    ensures faults { IfOk result.outcome (λ told. told.0.faults ≡ gathered.faults) }
    ensures done { OnOk result.outcome (gathered.fault ≡ None) }
    ensures lacked { IfErr result.outcome (λ lack. gathered.fault ≡ Some lack) }
{
    let Gathered {
        seats,
        receipts,
        released,
        faults,
        fault,
    } = gathered;
    let Finished { book, verdict } = finish(desk, seats, &receipts);
    let mut book = book;
    let figures = close_book(&mut book, released, faults);
    Settled {
        book,
        outcome: storm_outcome(fault, figures, verdict),
    }
}
