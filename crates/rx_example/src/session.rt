//! A session: a book that has to be finished.

ghost use Rattle.std.specs.Prelude.{◌≡◌, ◌+◌, []};
ghost use Rattle.rx_event.specs.Totals.{accepted_count, taken_count, held_count, waiting_count};

use crate::file::File;
use rx_book::{Book, Closed};

/// Empties the book: afterwards nothing is open, held or waiting, no lease is out, and each file that it ever
/// accepted was handed out for its release. Answers how many files this call released, and with how many
/// faults.
pub fn finish(book: &mut Book<File>) -> Closed
    ensures none_open { book.new.keys ≡ [] }
    ensures none_held { book.new.held ≡ [] }
    ensures none_waits { book.new.waiting ≡ [] }
    ensures none_out { book.new.lease_keys ≡ [] }
    ensures all_taken { taken_count book.new.base book.new.history ≡ accepted_count book.old.base book.old.history }
    ensures released { result.released ≡ held_count book.old.history + waiting_count book.old.history }
{
    book.promise();
    let closed = book.close();
    book.promise();
    closed
}

/// A book that has to be finished: it is not `Drop`, so a program that lets one go does not compile.
pub struct Session {
    /// The book.
    pub book: Book<File>,
}

impl Session {
    /// Finishes the book and gives it up.
    pub fn end(self) -> Closed
        ensures { result.released ≡ held_count self.book.history + waiting_count self.book.history }
    {
        let Session { mut book } = self;
        finish(&mut book)
    }
}
