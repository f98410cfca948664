//! What becomes of the resources of a book that is dropped.

use super::probe::Probe;
use super::same::same;
use rx_book::{At, Key};
use rx_event::Kind;
use rx_resource::{Tracked, Tracker};
use std::test::Fail;

// Whether a node takes a resource of this tracker.
fn holds_one(book: &mut Probe<Tracked>, node: Key, tracker: &Tracker) -> bool {
    match tracker.resource(3, None) {
        Ok(resource) => book.hold(node, resource).is_ok(),
        Err(_) => false,
    }
}

// Two resources of a root wait, of which one is released, and two of another are held.
fn lay_out(book: &mut Probe<Tracked>, tracker: &Tracker) -> Result<bool, Fail> {
    let closed = book.open(At::Root, Kind::Leaf)?.key;
    let open = book.open(At::Root, Kind::Leaf)?.key;
    let held = [
        holds_one(book, closed, tracker),
        holds_one(book, closed, tracker),
        holds_one(book, open, tracker),
        holds_one(book, open, tracker),
    ];
    book.dispose(closed)?;
    Ok(held == [true; 4] && book.take().is_some())
}

#[test]
fn a_book_that_is_dropped_drops_its_resources_unreleased(rt: HostRuntime) -> Result<(), Fail> {
    let tracker = Tracker::new(rt.alloc())?;
    let mut book = Probe::new(rt.alloc(), 1000);
    assert!(rt; lay_out(&mut book, &tracker)?);
    let totals = book.totals();
    same(&rt, (totals.held, totals.waiting), (2, 1));
    same(&rt, (tracker.released(), tracker.dropped()), (1, 1));
    drop(book);
    same(&rt, (tracker.released(), tracker.dropped()), (1, 4));
    Ok(())
}
