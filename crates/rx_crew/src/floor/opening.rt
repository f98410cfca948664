//! Opening nodes.

ghost use Rattle.std.specs.Prelude.{◌≡◌, length};
ghost use Rattle.rx_event.specs.Calls.{Holding, OpeningUsing};
ghost use Rattle.rx_book.specs.Requests.{open_request, using_request, place_of};
ghost use Rattle.rx_book.specs.Answers.{AnswersOpened, AnswersOpenedUsing};
ghost use Rattle.rx_book.specs.OpensHolding.{AnswersOpenedHolding};
ghost use Rattle.rx_crew.specs.Counting.{Counts};

use crate::floor::Floor;
use rx_book::{At, Opened, OpenedHolding, OpenedUsing, Refused};
use rx_event::{Kind, Refusal};
use rx_ledger::Seat;
use rx_resource::Resource;
use std::sync::ledger::Ledger;

impl<R: Resource, I: Ledger, A: Ledger, K: Ledger> Floor<R, I, A, K> {
    /// Opens a node, as [`rx_book::Book::open`] says; a subscriber may connect its hub with it (RefCount).
    pub fn open(&mut self, at: At, kind: Kind) -> Result<Opened, Refusal>
        ensures book { AnswersOpened self.old.book (open_request self.old.book at kind) self.new.book result }
        ensures shut { self.new.is_shut ≡ self.old.is_shut }
    {
        self.book.open(at, kind)
    }

    /// Opens a mirroring node that holds a resource, as [`rx_book::Book::open_using`] says; the
    /// resource counts as accepted by the seat.
    pub fn open_using(
        &mut self,
        seat: &mut Seat<I, A, K>,
        at: At,
        resource: R,
    ) -> Result<OpenedUsing, Refused<R>>
        ensures book { AnswersOpenedUsing self.old.book (using_request R.Resource self.old.book at resource) resource self.new.book result }
        ensures counts { Counts (OpeningUsing (place_of at) (R.tag_of resource)) seat.old seat.new result }
        ensures shut { self.new.is_shut ≡ self.old.is_shut }
    {
        let opened = self.book.open_using(at, resource)?;
        self.ledgers.add_accepted(seat);
        Ok(opened)
    }

    /// Opens a node that holds a resource from then on, as [`rx_book::Book::open_holding`] says; the resource
    /// counts as accepted by the seat.
    pub fn open_holding(
        &mut self,
        seat: &mut Seat<I, A, K>,
        at: At,
        kind: Kind,
        resource: R,
    ) -> Result<OpenedHolding, Refused<R>>
        ensures book { AnswersOpenedHolding R.Resource self.old.book at kind resource self.new.book result }
        ensures counts { Counts (Holding (length self.old.book.history) (R.tag_of resource)) seat.old seat.new result }
        ensures shut { self.new.is_shut ≡ self.old.is_shut }
    {
        let holding = self.book.open_holding(at, kind, resource)?;
        self.ledgers.add_accepted(seat);
        Ok(holding)
    }
}
