//! The book: a register of what happened, and a tree of what is open, held and waiting.

ghost use Rattle.std.specs.Prelude.{◌≡◌, ◌+◌, ◌≤◌, ◌&&◌, [], Some, None, length, slice_get, option_map, is_some};
ghost use Rattle.std.specs.Prelude.{if◌then◌else◌, IfSome, IsTrue};
ghost use Rattle.std.specs.List.{find};
ghost use Rattle.rx_event.specs.Kept.{nothing_kept, event_since};
ghost use Rattle.rx_event.specs.Events.{is_merging};
ghost use Rattle.rx_event.specs.Tree.{at, places};
ghost use Rattle.rx_event.specs.Moments.{owed};
ghost use Rattle.rx_event.specs.Notes.{notes};
ghost use Rattle.rx_event.specs.Totals.{open_count as open_count_in, held_count, waiting_count, lease_count};
ghost use Rattle.rx_event.specs.Totals.{accepted_count, taken_count, item_count};
ghost use Rattle.rx_event.specs.Resources.{is_out};
ghost use Rattle.rx_register.specs.State.{greatest_limit};
ghost use Rattle.rx_book.specs.State.{IsPromised, has_key, has_res_key, has_lease_key};
ghost use Rattle.rx_event.specs.Claims.Closing.{is_open_root};

use rx_event::{Event, Mail};
use rx_ground::{Ground, LeaseKey};
use rx_resource::Resource;
use rx_tree::{Key, ResKey};
use std::alloc::Global;
use std::marker::Model;

/// A book of subscriptions, whose resources are of type `R`: `Box<dyn Resource>` where there are
/// many kinds.
///
/// To its callers it is a state: its history and limit, the keys of the open nodes, of the held
/// resources and of the leases that are out, the resources that it holds and those that wait, the number
/// of notes handed out, and the keys of the nodes that the last accepted call closed.
/// A book that is dropped drops its resources unreleased.
pub struct Book<R: Resource> {
    pub(crate) ground: Ground<R>,
}

// Written out, so that where a book is let go there is one call to prove, and not the drop of each field in turn.
impl<R: Resource> Drop for Book<R> {
    fn drop(self) {
        let Book { ground: _ground } = self;
    }
}

impl<R: Resource> Model for Book<R> {
    ghost use Rattle.rx_book.specs.State.{State};
    ghost use Rattle.rx_book.specs.Shown.{state_of};
    ghost use Rattle.rx_ground.specs.Ties.{IsStanding};

    ghost Value = { State };

    ghost view = { λ b. state_of R.Resource b.ground };

    ghost invariant = { λ b. IsStanding R.Resource b.ground };
}

impl<R: Resource> Book<R> {
    /// With no events, and of at most `max_events`, which is at most 4,294,967,295. It takes no
    /// memory.
    pub fn new(alloc: Global, max_events: u64) -> Self
        requires { max_events ≤ greatest_limit }
        ensures { result ≡ record {
          base = nothing_kept;
          history = [];
          limit = max_events;
          keys = [];
          res_keys = [];
          lease_keys = [];
          held = [];
          waiting = [];
          given = 0;
          closed = [];
        } }
    {
        Book {
            ground: Ground::new(alloc, max_events),
        }
    }

    /// The promise of every book, at each moment: its history is lawful and settled, the resources
    /// held and waiting are exactly those that the history leaves so, each in one place with the
    /// tag of its acceptance and the uses of the history, and closing everything has room. It does
    /// nothing.
    pub fn promise(&self)
        ensures { IsPromised self.now }
    {
        self.ground.promise();
    }

    /// The next of the notes that the history gives, each of which is handed out once, in order.
    /// None where all were. It takes no memory.
    pub fn take_mail(&mut self) -> Option<Mail>
        ensures value { result ≡ slice_get (notes self.old.history) self.old.given }
        ensures given { self.new ≡ record self.old { given = if is_some result then self.old.given + 1 else self.old.given } }
    {
        self.ground.take_mail()
    }

    /// How many nodes the last accepted call closed, by itself and by what it forced; 0 before the first. A
    /// refused call leaves the list of them as it was, and so do [`Book::take_mail`] and a checkpoint. A call
    /// that comes to several others, as [`Book::next_all`], [`Book::release_waiting`] and [`Book::shut`] do,
    /// leaves what the last of these closed.
    pub fn closed_count(&self) -> usize
        ensures { result ≡ length self.now.closed }
    {
        self.ground.closed_count()
    }

    /// The key that one of these nodes had, by its place in the order in which they were closed, from 0; None
    /// beyond the last. What a forced end closed stands behind what the call closed itself. The key is nobody's
    /// any more.
    pub fn nth_closed(&self, n: usize) -> Option<Key>
        ensures { result ≡ slice_get self.now.closed n }
    {
        self.ground.nth_closed(n)
    }

    /// How many nodes are open.
    pub fn open_count(&self) -> u64
        ensures { result ≡ open_count_in self.now.history }
    {
        self.ground.open_count()
    }

    /// How many resources are held.
    pub fn held(&self) -> u64
        ensures { result ≡ held_count self.now.history }
    {
        self.ground.held_count()
    }

    /// How many leases are out.
    pub fn leases(&self) -> u64
        ensures { result ≡ lease_count self.now.history }
    {
        self.ground.lease_count()
    }

    /// The key of the lease of least number that is out.
    pub fn open_lease(&self) -> Option<LeaseKey>
        ensures least { option_map (λ k. k.number) result ≡ find (is_out self.now.history) (places self.now.history) }
        ensures key { IfSome result (λ k. IsTrue (has_lease_key self.now.lease_keys k)) }
    {
        self.ground.first_lease()
    }

    /// How many resources wait for their release.
    pub fn waiting(&self) -> u64
        ensures { result ≡ waiting_count self.now.history }
    {
        self.ground.waiting_count()
    }

    /// How many resources were accepted.
    pub fn accepted(&self) -> u64
        ensures { result ≡ accepted_count self.now.base self.now.history }
    {
        self.ground.accepted()
    }

    /// How many resources were taken.
    pub fn taken(&self) -> u64
        ensures { result ≡ taken_count self.now.base self.now.history }
    {
        self.ground.taken()
    }

    /// How many items were emitted.
    pub fn items(&self) -> u64
        ensures { result ≡ item_count self.now.base self.now.history }
    {
        self.ground.items()
    }

    /// How many events there ever were.
    pub fn len(&self) -> u64
        ensures { result ≡ length self.now.history }
    {
        self.ground.len()
    }

    /// The event at a place, if it is one since the base.
    pub fn event(&self, place: u64) -> Option<Event>
        ensures { result ≡ event_since self.now.base self.now.history place }
    {
        self.ground.event(place)
    }

    /// Whether the key is an open node's.
    pub fn is_open(&self, node: Key) -> bool
        ensures { result ≡ has_key self.now.keys node }
    {
        self.ground.contains(node)
    }

    /// Whether the key is a held resource's.
    pub fn is_held(&self, res: ResKey) -> bool
        ensures { result ≡ has_res_key self.now.res_keys res }
    {
        self.ground.holds(res)
    }

    /// How many of the items that were projected to an open FlatMap or Switch were neither given an inner
    /// nor declined: so many are owed, and hold its completion back (this project's own). None where the
    /// key is of no such node.
    pub fn owed(&self, merging: Key) -> Option<u64>
        ensures { result ≡ (if has_key self.now.keys merging && at is_merging self.now.history merging.number
            then Some (owed self.now.base self.now.history merging.number) else None) }
    {
        self.ground.owed(merging)
    }

    /// The key of the open root of least number.
    pub fn open_root(&self) -> Option<Key>
        ensures least { option_map (λ k. k.number) result ≡ find (is_open_root self.now.history) (places self.now.history) }
        ensures key { IfSome result (λ k. IsTrue (has_key self.now.keys k)) }
    {
        self.ground.first_root()
    }
}
