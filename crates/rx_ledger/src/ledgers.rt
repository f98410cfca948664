//! The totals over all seats, which lie with the book.

ghost use Rattle.std.specs.Prelude.{◌≡◌, ◌+◌};
ghost use Rattle.rx_ledger.specs.Shares.{OpensFromBlank, all_parts, sums_in, whole, IsWithin};

use crate::seat::{PARTS, Seat};
use std::marker::Model;
use std::sync::ledger::{Blank, Book as Total, Ledger};

/// How many items were emitted, and how many resources accepted and taken.
#[derive(Clone, Copy, Debug, PartialEq, Eq)]
pub struct Sums {
    /// Items emitted.
    pub items: u64,
    /// Resources accepted.
    pub accepted: u64,
    /// Resources taken.
    pub taken: u64,
}

/// The totals of what all seats have counted. Contracts see them as [`Sums`].
#[derive(Drop)]
pub struct Ledgers<I: Ledger, A: Ledger, K: Ledger> {
    items: Total<I>,
    accepted: Total<A>,
    taken: Total<K>,
}

impl<I: Ledger, A: Ledger, K: Ledger> Model for Ledgers<I, A, K> {
    ghost use Rattle.std.specs.Prelude.{◌≡◌};
    ghost use Rattle.rx_ledger.specs.Shares.{all_parts};
    ghost use Rattle.rx_ledger.specs.declared.ledgers.Sums.{Sums};

    ghost Value = { Sums };

    ghost view = { λ l. record { items = l.items.total; accepted = l.accepted.total; taken = l.taken.total } };

    ghost invariant = { λ l. (I.parts ≡ all_parts) × (A.parts ≡ all_parts) × (K.parts ≡ all_parts) };
}

impl<I: Ledger, A: Ledger, K: Ledger> Ledgers<I, A, K> {
    /// Opens the ledgers at these sums, all of which the first seat has counted. Each blank has
    /// [`PARTS`] parts, and the name of its type.
    pub fn open(
        sums: Sums,
        items: Blank,
        accepted: Blank,
        taken: Blank,
    ) -> (Ledgers<I, A, K>, Seat<I, A, K>)
        requires items { OpensFromBlank I.name I.parts items.name items.parts }
        requires accepted { OpensFromBlank A.name A.parts accepted.name accepted.parts }
        requires taken { OpensFromBlank K.name K.parts taken.name taken.parts }
        ensures sums { result.0 ≡ sums }
        ensures shares { result.1 ≡ whole sums }
    {
        let (mut item_total, mut item_share) = items.open::<I>();
        let (mut accepted_total, mut accepted_share) = accepted.open::<A>();
        let (mut taken_total, mut taken_share) = taken.open::<K>();
        item_total.add(&mut item_share, sums.items);
        accepted_total.add(&mut accepted_share, sums.accepted);
        taken_total.add(&mut taken_share, sums.taken);
        let ledgers = Ledgers {
            items: item_total,
            accepted: accepted_total,
            taken: taken_total,
        };
        let seat = Seat {
            parts: PARTS,
            items: sums.items,
            accepted: sums.accepted,
            taken: sums.taken,
            item_share,
            accepted_share,
            taken_share,
        };
        (ledgers, seat)
    }

    /// Counts an item, in all and for the seat.
    pub fn add_item(&mut self, seat: &mut Seat<I, A, K>)
        ensures sums { self.new ≡ record self.old { items = self.old.items + 1 } }
        ensures shares { seat.new ≡ record seat.old { items = seat.old.items + 1 } }
    {
        self.items.add(&mut seat.item_share, 1);
        seat.items = seat.items.wrapping_add(1);
    }

    /// Counts an accepted resource, in all and for the seat.
    pub fn add_accepted(&mut self, seat: &mut Seat<I, A, K>)
        ensures sums { self.new ≡ record self.old { accepted = self.old.accepted + 1 } }
        ensures shares { seat.new ≡ record seat.old { accepted = seat.old.accepted + 1 } }
    {
        self.accepted.add(&mut seat.accepted_share, 1);
        seat.accepted = seat.accepted.wrapping_add(1);
    }

    /// Counts a taken resource, in all and for the seat.
    pub fn add_taken(&mut self, seat: &mut Seat<I, A, K>)
        ensures sums { self.new ≡ record self.old { taken = self.old.taken + 1 } }
        ensures shares { seat.new ≡ record seat.old { taken = seat.old.taken + 1 } }
    {
        self.taken.add(&mut seat.taken_share, 1);
        seat.taken = seat.taken.wrapping_add(1);
    }

    /// Says how a seat's shares stand to the totals: none is above its total, and with all parts they
    /// are the totals. It changes nothing.
    pub fn audit(&mut self, seat: &mut Seat<I, A, K>)
        ensures sums { self.new ≡ self.old }
        ensures shares { seat.new ≡ seat.old }
        ensures within { IsWithin seat.old self.old }
        ensures all { seat.old.parts ≡ all_parts → sums_in seat.old ≡ self.old }
    {
        self.items.audit(&mut seat.item_share);
        self.accepted.audit(&mut seat.accepted_share);
        self.taken.audit(&mut seat.taken_share);
    }
}
