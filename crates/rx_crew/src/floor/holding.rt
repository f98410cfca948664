//! Holding, using, removing and taking resources.

ghost use Rattle.std.specs.Prelude.{◌≡◌};
ghost use Rattle.rx_event.specs.Calls.{Holding};
ghost use Rattle.rx_book.specs.Requests.{hold_request, apply_request, remove_request};
ghost use Rattle.rx_book.specs.Answers.{AnswersPlace, AnswersWord, AnswersResKey, AnswersHanded};
ghost use Rattle.rx_crew.specs.Counting.{Counts, CountsTaken};

use crate::floor::Floor;
use rx_book::{Key, Refused, ResKey};
use rx_event::Refusal;
use rx_ledger::Seat;
use rx_resource::{Handed, Resource};
use std::sync::ledger::Ledger;

impl<R: Resource, I: Ledger, A: Ledger, K: Ledger> Floor<R, I, A, K> {
    /// Holds a resource at a node, as [`rx_book::Book::hold`] says; it counts as accepted by the seat.
    pub fn hold(
        &mut self,
        seat: &mut Seat<I, A, K>,
        node: Key,
        resource: R,
    ) -> Result<ResKey, Refused<R>>
        ensures book { AnswersResKey self.old.book (hold_request R.Resource self.old.book node resource) resource self.new.book result }
        ensures counts { Counts (Holding node.number (R.tag_of resource)) seat.old seat.new result }
        ensures shut { self.new.is_shut ≡ self.old.is_shut }
    {
        let key = self.book.hold(node, resource)?;
        self.ledgers.add_accepted(seat);
        Ok(key)
    }

    /// Uses a held resource on a word, as [`rx_book::Book::apply`] says. The resource's `apply` runs
    /// under the desk's lock, so it may not lock the desk.
    pub fn apply(&mut self, res: ResKey, word: u64) -> Result<u64, Refusal>
        ensures book { AnswersWord self.old.book (apply_request self.old.book res) self.new.book result }
        ensures shut { self.new.is_shut ≡ self.old.is_shut }
    {
        self.book.apply(res, word)
    }

    /// Takes a resource away from its node, as [`rx_book::Book::remove`] says.
    pub fn remove(&mut self, res: ResKey) -> Result<u64, Refusal>
        ensures book { AnswersPlace self.old.book (remove_request self.old.book res) self.new.book result }
        ensures shut { self.new.is_shut ≡ self.old.is_shut }
    {
        self.book.remove(res)
    }

    /// Hands out a resource that waits, as [`rx_book::Book::take`] says; it counts as taken by the
    /// seat. It is to be released once the lock is given back.
    pub fn take(&mut self, seat: &mut Seat<I, A, K>) -> Option<Handed<R>>
        ensures book { AnswersHanded R.Resource self.old.book self.new.book result }
        ensures counts { CountsTaken seat.old seat.new result }
        ensures shut { self.new.is_shut ≡ self.old.is_shut }
    {
        let handed = self.book.take()?;
        self.ledgers.add_taken(seat);
        Some(handed)
    }
}
