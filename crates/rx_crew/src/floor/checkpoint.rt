//! A checkpoint of the book on the floor.

ghost use Rattle.std.specs.Prelude.{◌≡◌};
ghost use Rattle.rx_book.specs.Checkpoints.{AnswersCheckpoint};

use crate::floor::Floor;
use rx_event::Refusal;
use rx_resource::Resource;
use std::sync::ledger::Ledger;

impl<R: Resource, I: Ledger, A: Ledger, K: Ledger> Floor<R, I, A, K> {
    /// Puts what the history leaves in place of its events, as [`rx_book::Book::checkpoint`] says, and
    /// answers how many events there ever were. The totals stay, and so does each seat's share; a receipt
    /// of an event before it stands no longer. Refused, in this order: `MailLeft`, `TooMany`, `NoMemory`.
    pub fn checkpoint(&mut self) -> Result<u64, Refusal>
        ensures book { AnswersCheckpoint self.old.book self.new.book result }
        ensures shut { self.new.is_shut ≡ self.old.is_shut }
    {
        self.book.checkpoint()
    }
}
