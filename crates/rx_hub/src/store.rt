//! The hubs with their subscribers, before anything is due.

ghost use Rattle.std.specs.Prelude.{◌≡◌, ◌+◌, ◌<◌, ◌≤◌, ◌++◌, ◌∷◌, ◌^◌, [], length, map, option_map, slice_get, vec_capacity};
ghost use Rattle.std.specs.Prelude.{slice_index_or, OnOk, OnErr, IsOk, IsTrue, IfSome, IfNone, IsSome, Some, None, ◌≢◌};
ghost use Rattle.rx_hub.specs.Hubs.{ended_never};
ghost use Rattle.rx_hub.specs.Store.{key_in};

use crate::hub::{LastEnd, Published};
use rx_event::Mode;
use rx_slots::{Key, Rings};
use std::alloc::{AllocError, Global};
use std::marker::Model;

/// Hubs by rising number, each with the list of its subscribers' slots, and the number of the
/// subscriber at each slot.
#[derive(Drop)]
pub(crate) struct Store {
    records: Vec<Published>,
    subscribers: Rings,
    numbers: Vec<u64>,
}

impl Model for Store {
    ghost use Rattle.rx_hub.specs.Hubs.{Hubs};

    ghost Value = { Hubs };

    ghost use Rattle.std.specs.Prelude.{◌-◌, min, length, vec_capacity};
    ghost use Rattle.rx_hub.specs.Store.{store_in, IsKept};

    ghost view = { λ s. store_in s.records.items s.subscribers s.numbers.items (min (vec_capacity s.records - length s.records.items) s.subscribers.room) };

    ghost invariant = { λ s. IsKept s.records.items s.subscribers s.numbers.items };
}

// The record at an index.
#[inline(always)]
fn copy_at(records: &Vec<Published>, index: usize) -> Option<Published>
    ensures { result ≡ slice_get records.now.items index }
{
    records.get(index).copied()
}

// The key of the subscriber at a slot, if there is one.
#[inline(always)]
fn key_of(numbers: &Vec<u64>, slot: Option<usize>) -> Option<Key>
    ensures { result ≡ option_map (key_in numbers.now.items) slot }
{
    match slot {
        Some(slot) => Some(Key {
            slot: slot as u64,
            number: numbers.get(slot).copied().unwrap_or(0),
        }),
        None => None,
    }
}

// Lets there be a number at all slots below this one; past the last there is none but 0.
fn lengthen(numbers: &mut Vec<u64>, slots: usize) -> Result<(), AllocError>
    ensures same { (slot : _) → slice_index_or numbers.new.items slot 0 ≡ slice_index_or numbers.old.items slot 0 }
    ensures ok { OnOk result (slots ≤ length numbers.new.items) }
    ensures longer { length numbers.old.items ≤ length numbers.new.items }
    ensures succeeds { slots ≤ length numbers.old.items → IsOk result }
{
    if slots <= numbers.len() {
        return Ok(());
    }
    numbers.resize(slots, 0)
}

// Forgets how the connections of these hubs ended.
fn forget_all(records: &mut Vec<Published>)
    ensures items { records.new.items ≡ map ended_never records.old.items }
    ensures capacity { vec_capacity records.new ≡ vec_capacity records.old }
{
    for hub in records.iter_mut() {
        hub.last_end = None;
    }
}

impl Store {
    ghost use Rattle.rx_hub.specs.Hubs.{Hub, IsPromised, IsFree, AreBelow, new_hub, at_hub, published_of};
    ghost use Rattle.rx_hub.specs.Hubs.{connected, disconnected, without_end, with_published, subscribed, unsubscribed, last_from, key_after};
    ghost use Rattle.rx_tree.specs.Tree.{is_on, first_of};

    // No hub, which takes no memory.
    pub(crate) fn new(alloc: Global) -> Self
        ensures hubs { result.hubs ≡ [] }
        ensures room { result.room ≡ 0 }
        ensures slots { result.slots ≡ 0 }
    {
        Store {
            records: Vec::new(alloc),
            subscribers: Rings::new(alloc),
            numbers: Vec::new(alloc),
        }
    }

    // What holds of all hubs.
    #[inline(always)]
    pub(crate) fn promise(&self)
        ensures { IsPromised self.now }
    {
        let _records = &self.records;
    }

    // Makes room for so many hubs more.
    pub(crate) fn reserve(&mut self, additional: usize) -> Result<(), AllocError>
        ensures ok { OnOk result (additional ≤ self.new.room) }
        ensures kept { self.new ≡ record self.old { room = self.new.room } }
        ensures room { self.old.room ≤ self.new.room }
        ensures fits { OnOk result (length self.new.hubs + additional < 2 ^ 64) }
        ensures succeeds { additional ≤ self.old.room → IsOk result }
    {
        self.records.reserve(additional)?;
        self.subscribers.reserve(additional)
    }

    // How many hubs there are.
    #[inline(always)]
    pub(crate) fn len(&self) -> usize
        ensures { result ≡ length self.now.hubs }
    {
        self.records.len()
    }

    // Adds a hub that nobody has subscribed to.
    pub(crate) fn add(&mut self, number: u64, mode: Mode)
        requires room { 0 < self.old.room }
        requires newest { (i : _) (hub : Hub) → slice_get self.old.hubs i ≡ Some hub → hub.number < number }
        ensures hubs { self.new.hubs ≡ self.old.hubs ++ new_hub number mode ∷ [] }
        ensures slots { self.new.slots ≡ self.old.slots }
        ensures room { self.new.room + 1 ≡ self.old.room }
    {
        self.records.push_reserved(Published {
            number,
            mode,
            connection: None,
            last_end: None,
        });
        self.subscribers.add();
    }

    // Where the hub of a number stands.
    #[inline(always)]
    pub(crate) fn index_of(&self, number: u64) -> Option<usize>
        ensures some { IfSome result (λ i.
            option_map (λ (hub : Hub). hub.number) (slice_get self.now.hubs i) ≡ Some number) }
        ensures none { IfNone result ((i : _) (hub : Hub) → slice_get self.now.hubs i ≡ Some hub →
            hub.number ≢ number) }
        ensures promised { IsPromised self.now }
    {
        let mut low = 0;
        let mut high = self.records.len();
        while low < high {
            let middle = low + (high - low) / 2;
            let found = self.records[middle].number;
            if found == number {
                return Some(middle);
            }
            if found < number {
                low = middle + 1;
            } else {
                high = middle;
            }
        }
        None
    }

    // A hub without its subscribers.
    #[inline(always)]
    pub(crate) fn published(&self, index: usize) -> Option<Published>
        ensures { result ≡ option_map published_of (slice_get self.now.hubs index) }
    {
        copy_at(&self.records, index)
    }

    // A hub that is there, without its subscribers: nothing is asked.
    #[inline(always)]
    pub(crate) fn at(&self, index: usize) -> Published
        requires { IsSome (slice_get self.now.hubs index) }
        ensures { option_map published_of (slice_get self.now.hubs index) ≡ Some result }
    {
        self.records[index]
    }

    // Changes what a hub has beside its subscribers.
    fn set_published(&mut self, index: usize, published: Published)
        requires same { option_map (λ (hub : Hub). hub.number) (slice_get self.old.hubs index) ≡ Some published.number }
        ensures { self.new ≡ record self.old { hubs = at_hub published.number (with_published published) self.old.hubs } }
    {
        self.records[index] = published;
    }

    // Gives a hub its connection.
    pub(crate) fn connect(&mut self, index: usize, key: Key)
        ensures { (hub : Hub) → slice_get self.old.hubs index ≡ Some hub →
            self.new ≡ record self.old { hubs = at_hub hub.number (connected key) self.old.hubs } }
    {
        self.promise();
        if let Some(before) = self.published(index) {
            let published = Published {
                connection: Some(key),
                ..before
            };
            self.set_published(index, published);
        }
    }

    // Takes a hub's connection away.
    pub(crate) fn disconnect(&mut self, index: usize, ended: Option<LastEnd>)
        ensures { (hub : Hub) → slice_get self.old.hubs index ≡ Some hub →
            self.new ≡ record self.old { hubs = at_hub hub.number (disconnected ended) self.old.hubs } }
    {
        self.promise();
        if let Some(before) = self.published(index) {
            let published = Published {
                connection: None,
                last_end: ended.or(before.last_end),
                ..before
            };
            self.set_published(index, published);
        }
    }

    // Forgets how connections ended.
    pub(crate) fn forget_ends(&mut self)
        ensures { self.new ≡ record self.old { hubs = map without_end self.old.hubs } }
    {
        forget_all(&mut self.records);
    }

    // A hub's first subscriber, which has the least number.
    #[inline(always)]
    pub(crate) fn first(&self, index: usize) -> Option<Key>
        ensures { IfSome (slice_get self.now.hubs index) (λ hub. result ≡ first_of hub.subscribers) }
    {
        key_of(&self.numbers, self.subscribers.first(index))
    }

    // A hub's last subscriber, which has the greatest number.
    #[inline(always)]
    pub(crate) fn last(&self, index: usize) -> Option<Key>
        ensures { IfSome (slice_get self.now.hubs index) (λ hub. result ≡ last_from None hub.subscribers) }
    {
        key_of(&self.numbers, self.subscribers.last(index))
    }

    // The subscriber that follows one of the same hub.
    #[inline(always)]
    pub(crate) fn next(&self, key: Key) -> Option<Key>
        ensures { (i : _) (hub : Hub) → slice_get self.now.hubs i ≡ Some hub → IsTrue (is_on key hub.subscribers) →
            result ≡ key_after key hub.subscribers }
    {
        key_of(&self.numbers, self.subscribers.next(key.slot as usize))
    }

    // Lets subscribers stand at all slots below this one.
    #[inline(always)]
    pub(crate) fn admit(&mut self, slots: usize) -> Result<(), AllocError>
        ensures ok { OnOk result (slots ≤ self.new.slots) }
        ensures kept { self.new ≡ record self.old { slots = self.new.slots } }
        ensures slots { self.old.slots ≤ self.new.slots }
        ensures err { OnErr result (self.new ≡ self.old) }
        ensures succeeds { slots ≤ self.old.slots → IsOk result }
    {
        if slots <= self.subscribers.members() {
            return Ok(());
        }
        self.admit_more(slots)
    }

    // Gets room where there are more slots than before.
    #[cold]
    #[inline(never)]
    fn admit_more(&mut self, slots: usize) -> Result<(), AllocError>
        ensures ok { OnOk result (slots ≤ self.new.slots) }
        ensures kept { self.new ≡ record self.old { slots = self.new.slots } }
        ensures slots { self.old.slots ≤ self.new.slots }
        ensures err { OnErr result (self.new ≡ self.old) }
    {
        lengthen(&mut self.numbers, slots)?;
        self.subscribers.admit(slots)
    }

    // Puts a subscriber last among those of a hub.
    #[inline(always)]
    pub(crate) fn subscribe(&mut self, index: usize, key: Key)
        requires hub { IsSome (slice_get self.old.hubs index) }
        requires newest { IfSome (slice_get self.old.hubs index) (λ hub. AreBelow key.number hub.subscribers) }
        requires slot { key.slot < self.old.slots }
        requires free { IsFree self.old.hubs key.slot }
        ensures { (hub : Hub) → slice_get self.old.hubs index ≡ Some hub →
            self.new ≡ record self.old { hubs = at_hub hub.number (subscribed key) self.old.hubs } }
    {
        self.numbers[key.slot as usize] = key.number;
        self.subscribers.join(index, key.slot as usize);
    }

    // Takes a subscriber away from a hub.
    #[inline(always)]
    pub(crate) fn unsubscribe(&mut self, index: usize, key: Key)
        requires hub { IsSome (slice_get self.old.hubs index) }
        requires there { IfSome (slice_get self.old.hubs index) (λ hub. IsTrue (is_on key hub.subscribers)) }
        ensures { (hub : Hub) → slice_get self.old.hubs index ≡ Some hub →
            self.new ≡ record self.old { hubs = at_hub hub.number (unsubscribed key) self.old.hubs } }
    {
        self.subscribers.promise();
        self.subscribers.leave(key.slot as usize);
    }
}
