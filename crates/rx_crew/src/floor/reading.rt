//! Mail, and what can be asked.

ghost use Rattle.std.specs.Prelude.{◌≡◌, ◌+◌, ◌&&◌, Some, None, length, slice_get, option_map, is_some};
ghost use Rattle.std.specs.Prelude.{if◌then◌else◌, IfSome, IsTrue};
ghost use Rattle.std.specs.List.{find};
ghost use Rattle.rx_event.specs.Kept.{event_since};
ghost use Rattle.rx_event.specs.Events.{is_merging};
ghost use Rattle.rx_event.specs.Tree.{at, places};
ghost use Rattle.rx_event.specs.Moments.{owed};
ghost use Rattle.rx_event.specs.Notes.{notes};
ghost use Rattle.rx_event.specs.Totals.{open_count as open_count_in, held_count, waiting_count, accepted_count, taken_count, item_count};
ghost use Rattle.rx_event.specs.Claims.Closing.{is_open_root};
ghost use Rattle.rx_book.specs.State.{has_key, has_res_key};

use crate::floor::Floor;
use rx_book::{Key, Mail, ResKey};
use rx_event::Event;
use rx_resource::Resource;
use std::sync::ledger::Ledger;

impl<R: Resource, I: Ledger, A: Ledger, K: Ledger> Floor<R, I, A, K> {
    /// The next note, as [`rx_book::Book::take_mail`] says. It takes no memory.
    pub fn take_mail(&mut self) -> Option<Mail>
        ensures value { result ≡ slice_get (notes self.old.book.history) self.old.book.given }
        ensures given { self.new.book ≡ record self.old.book { given = if is_some result then self.old.book.given + 1 else self.old.book.given } }
        ensures shut { self.new.is_shut ≡ self.old.is_shut }
    {
        self.book.take_mail()
    }

    /// How many nodes are open.
    pub fn open_count(&self) -> u64
        ensures { result ≡ open_count_in self.now.book.history }
    {
        self.book.open_count()
    }

    /// How many resources are held.
    pub fn held(&self) -> u64
        ensures { result ≡ held_count self.now.book.history }
    {
        self.book.held()
    }

    /// How many resources wait for their release.
    pub fn waiting(&self) -> u64
        ensures { result ≡ waiting_count self.now.book.history }
    {
        self.book.waiting()
    }

    /// How many resources were accepted.
    pub fn accepted(&self) -> u64
        ensures { result ≡ accepted_count self.now.book.base self.now.book.history }
    {
        self.book.accepted()
    }

    /// How many resources were taken.
    pub fn taken(&self) -> u64
        ensures { result ≡ taken_count self.now.book.base self.now.book.history }
    {
        self.book.taken()
    }

    /// How many items were emitted.
    pub fn items(&self) -> u64
        ensures { result ≡ item_count self.now.book.base self.now.book.history }
    {
        self.book.items()
    }

    /// How many events there ever were.
    pub fn len(&self) -> u64
        ensures { result ≡ length self.now.book.history }
    {
        self.book.len()
    }

    /// The event at a place, if it is one since the base.
    pub fn event(&self, place: u64) -> Option<Event>
        ensures { result ≡ event_since self.now.book.base self.now.book.history place }
    {
        self.book.event(place)
    }

    /// Whether the key is an open node's.
    pub fn is_open(&self, node: Key) -> bool
        ensures { result ≡ has_key self.now.book.keys node }
    {
        self.book.is_open(node)
    }

    /// Whether the key is a held resource's.
    pub fn is_held(&self, res: ResKey) -> bool
        ensures { result ≡ has_res_key self.now.book.res_keys res }
    {
        self.book.is_held(res)
    }

    /// How many projected items an open FlatMap or Switch owes, as [`rx_book::Book::owed`] says.
    pub fn owed(&self, merging: Key) -> Option<u64>
        ensures { result ≡ (if has_key self.now.book.keys merging && at is_merging self.now.book.history merging.number
            then Some (owed self.now.book.base self.now.book.history merging.number) else None) }
    {
        self.book.owed(merging)
    }

    /// The key of the open root of least number.
    pub fn open_root(&self) -> Option<Key>
        ensures least { option_map (λ k. k.number) result ≡ find (is_open_root self.now.book.history) (places self.now.book.history) }
        ensures key { IfSome result (λ k. IsTrue (has_key self.now.book.keys k)) }
    {
        self.book.open_root()
    }
}
