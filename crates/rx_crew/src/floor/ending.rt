//! Items, ends and unsubscriptions.

ghost use Rattle.std.specs.Prelude.{◌≡◌};
ghost use Rattle.rx_event.specs.Calls.{Emitting};
ghost use Rattle.rx_book.specs.Requests.{next_request, end_request, abort_request, dispose_request};
ghost use Rattle.rx_book.specs.Requests.{decline_request, fail_request};
ghost use Rattle.rx_book.specs.Answers.{AnswersPlace, AnswersPlaceOrWant};
ghost use Rattle.rx_crew.specs.Counting.{Counts};

use crate::floor::Floor;
use rx_book::Key;
use rx_event::{Refusal, Terminal};
use rx_ledger::Seat;
use rx_resource::Resource;
use std::sync::ledger::Ledger;

impl<R: Resource, I: Ledger, A: Ledger, K: Ledger> Floor<R, I, A, K> {
    /// A leaf emits an item, as [`rx_book::Book::next`] says; it counts as the seat's.
    pub fn next(&mut self, seat: &mut Seat<I, A, K>, leaf: Key, value: i64) -> Result<u64, Refusal>
        ensures book { AnswersPlaceOrWant self.old.book (next_request self.old.book leaf value) self.new.book result }
        ensures counts { Counts (Emitting leaf.number value) seat.old seat.new result }
        ensures shut { self.new.is_shut ≡ self.old.is_shut }
    {
        let place = self.book.next(leaf, value)?;
        self.ledgers.add_item(seat);
        Ok(place)
    }

    /// A leaf ends, as [`rx_book::Book::end`] says.
    pub fn end(&mut self, leaf: Key, terminal: Terminal) -> Result<u64, Refusal>
        ensures book { AnswersPlace self.old.book (end_request self.old.book leaf terminal) self.new.book result }
        ensures shut { self.new.is_shut ≡ self.old.is_shut }
    {
        self.book.end(leaf, terminal)
    }

    /// A node that is no leaf ends with an error, as [`rx_book::Book::abort`] says.
    pub fn abort(&mut self, node: Key, code: u32) -> Result<u64, Refusal>
        ensures book { AnswersPlace self.old.book (abort_request self.old.book node code) self.new.book result }
        ensures shut { self.new.is_shut ≡ self.old.is_shut }
    {
        self.book.abort(node, code)
    }

    /// An item that was projected to a FlatMap or a Switch gets no inner, as [`rx_book::Book::decline`]
    /// says.
    pub fn decline(&mut self, merging: Key) -> Result<u64, Refusal>
        ensures book { AnswersPlace self.old.book (decline_request self.old.book merging) self.new.book result }
        ensures shut { self.new.is_shut ≡ self.old.is_shut }
    {
        self.book.decline(merging)
    }

    /// A FlatMap or a Switch ends with an error at a projected item, as [`rx_book::Book::fail`] says.
    pub fn fail(&mut self, merging: Key, code: u32) -> Result<u64, Refusal>
        ensures book { AnswersPlace self.old.book (fail_request self.old.book merging code) self.new.book result }
        ensures shut { self.new.is_shut ≡ self.old.is_shut }
    {
        self.book.fail(merging, code)
    }

    /// A root is unsubscribed, as [`rx_book::Book::dispose`] says.
    pub fn dispose(&mut self, root: Key) -> Result<u64, Refusal>
        ensures book { AnswersPlace self.old.book (dispose_request self.old.book root) self.new.book result }
        ensures shut { self.new.is_shut ≡ self.old.is_shut }
    {
        self.book.dispose(root)
    }
}
