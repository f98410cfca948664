//! What a desk has that is made of a book with a past.

use super::desk_calls::{Ask, Call};
use super::trials::{Trial, assert_all};
use rx_book::{At, Book};
use rx_event::Kind;
use rx_resource::Sample;

// Opens a root with a resource and a source below it, which emits an item, and a root with one that waits; takes no note.
pub(super) fn give_a_past(book: &mut Book<Sample>) {
    if let Ok(root) = book.open_using(At::Root, Sample::new(7)) {
        if let Ok(source) = book.open(At::Source(root.key), Kind::Leaf) {
            let _ = book.next(source.key, 5);
        }
    }
    if let Ok(other) = book.open_using(At::Root, Sample::new(8)) {
        let _ = book.dispose(other.key);
    }
}

// What a floor is asked about it.
pub(super) static SEEN: [Call; 8] = [
    Call::Ask(Ask::Sums),
    Call::Ask(Ask::Event(1)),
    Call::Ask(Ask::Event(3)),
    Call::Ask(Ask::Event(6)),
    Call::Ask(Ask::Mail),
    Call::Ask(Ask::Root),
    Call::Take,
    Call::Ask(Ask::Sums),
];

static PAST: [(Trial, &str); 1] = [(
    Trial::Past,
    "\
[7, 1, 2, 1, 1, 0]
Some(Accept(0, 7))
Some(Item(2, 5))
Some(Close(4))
Some(Mail { place: 3, to: 0, note: Next(5) })
(2, Some(0))
Some((5, 8, 0))
[8, 1, 2, 1, 0, 1]
Ok(Totals { items: 1, accepted: 2, taken: 1, held: 1, waiting: 0, len: 8 })
Some(0)
Closed { released: 1, faults: 0 }
",
)];

#[test]
fn a_desk_goes_on_with_the_book_that_it_is_made_of(rt: HostRuntime) {
    assert_all(&rt, rt.alloc(), &PAST);
}
