//! What was written since the last checkpoint.

ghost use Rattle.std.specs.Prelude.{◌≡◌, ◌≤◌, nat_lt, length};

use rx_book::{Book, Resource};

/// Whether the event before a place was written since the last checkpoint.
pub fn is_since<R: Resource>(book: &Book<R>, place: u64) -> bool
    requires { place ≤ length book.now.history }
    ensures { result ≡ nat_lt book.now.base.at_length place }
{
    if place == 0 {
        return false;
    }
    book.event(place - 1).is_some()
}

/// The place of the last checkpoint, 0 where there was none. It goes over the events since.
pub fn since<R: Resource>(book: &Book<R>) -> u64
    ensures { result ≡ book.now.base.at_length }
{
    book.promise();
    let mut place = book.len();
    'places: while is_since(book, place) {
        place -= 1;
    }
    place
}
