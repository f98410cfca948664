//! A thread's seat.

ghost use Rattle.std.specs.Prelude.{◌≡◌, ◌-◌, ◌%◌, ◌^◌, ◌↔◌, [], IfSome, IfNone, IsNone};
ghost use Rattle.rx_ledger.specs.Shares.{plus, together, new_seat};

use std::marker::Model;
use std::sync::ledger::{Ledger, Share};

/// How many parts all seats of a desk have together, and so how many seats there can be.
pub const PARTS: u64 = 1_048_576;

/// What a thread has counted: items that it emitted, resources that it handed in and took out, each
/// as a share of the desk's ledger.
///
/// A seat that is dropped takes its shares and its parts with it.
#[derive(Drop)]
pub struct Seat<I: Ledger, A: Ledger, K: Ledger> {
    pub(crate) parts: u64,
    pub(crate) items: u64,
    pub(crate) accepted: u64,
    pub(crate) taken: u64,
    pub(crate) item_share: Share<I>,
    pub(crate) accepted_share: Share<A>,
    pub(crate) taken_share: Share<K>,
}

impl<I: Ledger, A: Ledger, K: Ledger> Model for Seat<I, A, K> {
    ghost use Rattle.std.specs.Prelude.{◌≡◌, ◌<◌};
    ghost use Rattle.rx_ledger.specs.Shares.{Shares, all_parts};
    ghost use Rattle.rx_ledger.specs.Ties.{IsCount};

    ghost Value = { Shares };

    ghost view = { λ s. record {
      parts = s.parts;
      items = s.item_share.amount;
      accepted = s.accepted_share.amount;
      taken = s.taken_share.amount;
    } };

    ghost invariant = { λ s. (0 < s.parts) × (I.parts ≡ all_parts)
        × IsCount s.parts s.items s.item_share.parts s.item_share.amount
        × IsCount s.parts s.accepted s.accepted_share.parts s.accepted_share.amount
        × IsCount s.parts s.taken s.taken_share.parts s.taken_share.amount };
}

impl<I: Ledger, A: Ledger, K: Ledger> Seat<I, A, K> {
    /// A new seat that has counted nothing, with one of this seat's parts. None exactly where this
    /// seat has one part alone, which then stays.
    pub fn split(&mut self) -> Option<Seat<I, A, K>>
        ensures new { IfSome result (λ seat. seat ≡ new_seat) }
        ensures left { IfSome result (λ _. self.new ≡ record self.old { parts = self.old.parts - 1 }) }
        ensures none { IsNone result ↔ (self.old.parts ≡ 1) }
        ensures kept { IfNone result (self.new ≡ self.old) }
    {
        if self.parts == 1 {
            return None;
        }
        self.parts -= 1;
        Some(Seat {
            parts: 1,
            items: 0,
            accepted: 0,
            taken: 0,
            item_share: self.item_share.split_off(1, 0),
            accepted_share: self.accepted_share.split_off(1, 0),
            taken_share: self.taken_share.split_off(1, 0),
        })
    }

    /// Adds another seat's shares and parts to this one.
    pub fn merge(&mut self, other: Seat<I, A, K>)
        ensures { self.new ≡ plus self.old other }
    {
        let Seat {
            parts,
            items,
            accepted,
            taken,
            item_share,
            accepted_share,
            taken_share,
        } = other;
        self.item_share.merge(item_share);
        self.accepted_share.merge(accepted_share);
        self.taken_share.merge(taken_share);
        self.parts += parts;
        self.items = self.items.wrapping_add(items);
        self.accepted = self.accepted.wrapping_add(accepted);
        self.taken = self.taken.wrapping_add(taken);
    }

    /// One seat with the shares and parts of all of these. None exactly where there are none.
    pub fn gather(seats: Vec<Seat<I, A, K>>) -> Option<Seat<I, A, K>>
        ensures all { IfSome result (λ seat. seat ≡ together seats.items) }
        ensures none { IsNone result ↔ (seats.items ≡ []) }
    {
        let mut rest = seats.into_iter();
        let mut all = rest.next()?;
        for seat in rest {
            all.merge(seat);
        }
        Some(all)
    }

    /// How many parts of the desk's [`PARTS`] it has.
    pub fn parts(&self) -> u64
        ensures { result ≡ self.now.parts }
    {
        self.parts
    }

    /// How many items it has counted, modulo 2^64.
    pub fn items(&self) -> u64
        ensures { result ≡ self.now.items % 2 ^ 64 }
    {
        self.items
    }

    /// How many accepted resources it has counted, modulo 2^64.
    pub fn accepted(&self) -> u64
        ensures { result ≡ self.now.accepted % 2 ^ 64 }
    {
        self.accepted
    }

    /// How many taken resources it has counted, modulo 2^64.
    pub fn taken(&self) -> u64
        ensures { result ≡ self.now.taken % 2 ^ 64 }
    {
        self.taken
    }
}
