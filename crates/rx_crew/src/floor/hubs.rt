//! Hubs, the published observables: making, connecting and disconnecting them.

ghost use Rattle.std.specs.Prelude.{◌≡◌};
ghost use Rattle.std.specs.List.{find};
ghost use Rattle.rx_event.specs.Tree.{places};
ghost use Rattle.rx_ground.specs.Told.{is_connected_manual};
ghost use Rattle.rx_book.specs.Requests.{hub_request, connect_request, disconnect_request};
ghost use Rattle.rx_book.specs.Answers.{AnswersKey, AnswersPlace, AnswersPlaceOrWant};

use crate::floor::Floor;
use rx_book::Key;
use rx_event::{Mode, Refusal};
use rx_resource::Resource;
use std::sync::ledger::Ledger;

impl<R: Resource, I: Ledger, A: Ledger, K: Ledger> Floor<R, I, A, K> {
    /// Makes a hub, which its subscribers share (Publish, at reactivex.io), as [`rx_book::Book::hub`]
    /// says, and answers its number. Refused, in this order: `TooMany`, `Full`, `NoMemory`.
    pub fn hub(&mut self, mode: Mode) -> Result<u64, Refusal>
        ensures book { AnswersPlaceOrWant self.old.book (hub_request mode) self.new.book result }
        ensures shut { self.new.is_shut ≡ self.old.is_shut }
    {
        self.book.hub(mode)
    }

    /// Connects a hub by hand (Connect, at reactivex.io), as [`rx_book::Book::connect`] says, and answers
    /// the connection's key. Refused, in this order: `NoHub`, `WrongKind` where the hub connects by itself
    /// (RefCount, at reactivex.io), `Connected`, `TooMany`, `Full`, `NoMemory`.
    pub fn connect(&mut self, hub: u64) -> Result<Key, Refusal>
        ensures book { AnswersKey self.old.book (connect_request hub) self.new.book result }
        ensures shut { self.new.is_shut ≡ self.old.is_shut }
    {
        self.book.connect(hub)
    }

    /// Disconnects a hub by hand (the disposable that Connect returns), as [`rx_book::Book::disconnect`]
    /// says: resources may come to wait by it. Refused, in this order: `NoHub`, `WrongKind` where the hub
    /// connects by itself, `NotConnected`. It takes no memory.
    pub fn disconnect(&mut self, hub: u64) -> Result<u64, Refusal>
        ensures book { AnswersPlace self.old.book (disconnect_request hub) self.new.book result }
        ensures shut { self.new.is_shut ≡ self.old.is_shut }
    {
        self.book.disconnect(hub)
    }

    /// The least number of a hub that was connected by hand and is connected still; None where there is
    /// none.
    pub fn open_manual(&self) -> Option<u64>
        ensures { result ≡ find (is_connected_manual self.now.book.history) (places self.now.book.history) }
    {
        self.book.open_manual()
    }
}
