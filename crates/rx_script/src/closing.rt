//! Closing a book, for callers that use this crate alone.

ghost use Rattle.std.specs.Prelude.{◌≡◌, ◌+◌, ◌≤◌, []};
ghost use Rattle.rx_event.specs.Totals.{accepted_count, taken_count, held_count, waiting_count};

use rx_book::{Book, Closed};
use rx_resource::Resource;

/// Gives back all leases, unsubscribes all open roots, and takes and releases all that waits then, as [`Book::close`] does. It
/// takes no memory, and leaves nothing open, held or waiting, and no lease out.
pub fn close<R: Resource>(book: &mut Book<R>) -> Closed
    ensures none_open { book.new.keys ≡ [] }
    ensures none_held { book.new.held ≡ [] }
    ensures none_waits { book.new.waiting ≡ [] }
    ensures none_out { book.new.lease_keys ≡ [] }
    ensures base { book.new.base ≡ book.old.base }
    ensures taken { taken_count book.new.base book.new.history ≡ taken_count book.old.base book.old.history +
        result.released }
    ensures accepted { accepted_count book.new.base book.new.history ≡ accepted_count book.old.base book.old.history }
    ensures released { result.released ≡ held_count book.old.history + waiting_count book.old.history }
    ensures faults { result.faults ≤ result.released }
{
    book.close()
}
