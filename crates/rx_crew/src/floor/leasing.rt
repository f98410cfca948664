//! Leases of held resources.

ghost use Rattle.std.specs.Prelude.{◌≡◌, IfSome, IsTrue, option_map};
ghost use Rattle.std.specs.List.{find};
ghost use Rattle.rx_event.specs.Tree.{places};
ghost use Rattle.rx_event.specs.Resources.{is_out};
ghost use Rattle.rx_event.specs.Totals.{lease_count};
ghost use Rattle.rx_book.specs.Requests.{lease_request, give_back_request};
ghost use Rattle.rx_book.specs.Answers.{AnswersLeaseKey, AnswersPlace};
ghost use Rattle.rx_book.specs.State.{has_lease_key};

use crate::floor::Floor;
use rx_book::{LeaseKey, ResKey};
use rx_event::Refusal;
use rx_resource::Resource;
use std::sync::ledger::Ledger;

impl<R: Resource, I: Ledger, A: Ledger, K: Ledger> Floor<R, I, A, K> {
    /// Leases a resource to a dependent, as [`rx_book::Book::lease`] says. Any thread may give the lease
    /// back, and it counts for no seat.
    pub fn lease(&mut self, res: ResKey) -> Result<LeaseKey, Refusal>
        ensures book { AnswersLeaseKey self.old.book (lease_request self.old.book res) self.new.book result }
        ensures shut { self.new.is_shut ≡ self.old.is_shut }
    {
        self.book.lease(res)
    }

    /// Gives a lease back, as [`rx_book::Book::give_back`] says: a resource may come to wait by it.
    pub fn give_back(&mut self, lease: LeaseKey) -> Result<u64, Refusal>
        ensures book { AnswersPlace self.old.book (give_back_request self.old.book lease) self.new.book result }
        ensures shut { self.new.is_shut ≡ self.old.is_shut }
    {
        self.book.give_back(lease)
    }

    /// How many leases are out.
    pub fn leases(&self) -> u64
        ensures { result ≡ lease_count self.now.book.history }
    {
        self.book.leases()
    }

    /// The key of the lease of least number that is out.
    pub fn open_lease(&self) -> Option<LeaseKey>
        ensures least { option_map (λ k. k.number) result ≡ find (is_out self.now.book.history) (places self.now.book.history) }
        ensures key { IfSome result (λ k. IsTrue (has_lease_key self.now.book.lease_keys k)) }
    {
        self.book.open_lease()
    }
}
