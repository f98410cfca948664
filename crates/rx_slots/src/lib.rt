//! Checked slots: a store of values whose keys never answer for another value.
//!
//! A [`Slots`] gives each value a slot, a small number that is used again once the value was taken,
//! and keeps beside it the number that its caller gave. A [`Key`] is both, and finds a value only
//! where its slot has its number. So where a caller gives each value a number of its own, a key that
//! is kept after its value was taken finds nothing, also once its slot has another value. The form is
//! known as a slot map or a generational arena; the generation is here a number of the caller's.
//!
//! Vocabulary, for contracts, in `specs/Slots.antt`: a store is the list of its `entries`, one for
//! each slot that was ever used, its `next_slot`, its `count` of values and its `room`, how many
//! values more need no memory. `entry_at`, `number_at`, `value_at` and `key_at` look a slot up, and
//! `find` a key. `Changes` says that one slot changes, and `KeepsOthers` that every other key finds
//! what it found. `placed` is what an insert makes of the entries, `with_value` what a write does.
//! `proofs/Laws` has lemmas on these for callers.
//!
//! Where a value is known to stand at a slot, [`Slots::at`], [`Slots::number_of`] and [`Slots::at_mut`]
//! read it in place and [`Slots::take_at`] takes it out, and where there is room [`Slots::place`] puts one
//! in. A store of the same contracts whose values need not come out is [`Records`]: there a value stays
//! where it stood until its slot is used again, so in a proved build these calls ask nothing.
//!
//! The slots of a [`Slots`] are keys of the toolchain's `slab`, which says which of them have a value and which comes
//! next; the values stand in cells beside it. Those of [`Records`] are its own.
//!
//! Promised: each answer is the one that the entries tell, after `reserve(n)` n inserts succeed with
//! no memory, and a slot is below 2^29: room for more is refused as memory is. A walk over all values,
//! by [`Slots::slot_count`] or [`Slots::next_key`], takes no memory. Values need not be `Drop`.
//!
//! # Lists of slots
//!
//! [`Rings`] keeps lists of numbers below a bound, as slots are, each number on one of them at most, by links
//! in both directions, so that a number leaves its list from anywhere and no call goes over a list. A contract
//! sees the lists themselves (`specs/Lists.antt`): `lists`, the bound `members`, and `room`, how many lists more
//! take no memory. `list_at` is one of them, `is_in` says that a number stands on a list, `take_out` is a list
//! without a number, `head_of`, `last_of` and `after` are its first, its last, and what follows a number.
//! `IsPlain` is what holds of all lists: no number stands on two, nor twice on one. Only `reserve` and `admit`
//! ask for memory, and what they refuse changes nothing. A list is in the order of joining.
//!
//! Proofs here and above see the rings behind them (`specs/Rings.antt`), over any type of places: a place's next
//! and previous are `Steps`, `Leads` says which places lie between two, `AreRings` which ring goes over which
//! places, and `Joins`, `Leaves` and `Merges` what a change writes. A crate that keeps such links in its own
//! records, as a tree does, cites their laws (`proofs/Laws`).
//!
//! # What is not promised
//!
//! The caller sees to it that numbers differ, and memory may be refused. A store is `Drop` only where
//! its values are: one of other values can be emptied, but not let go.
#![tactic(auto)]

ghost use Rattle.std.specs.Prelude.{◌≡◌, ◌↔◌, IsTrue, ℕ, ◌+◌, ◌<◌, ◌≤◌, ◌^◌, max, IsOk, IsSome, IfOk, IfErr, IfNone, IfSome};
ghost use Rattle.std.specs.Prelude.{OnOk, OnErr, OnSome, option_copied, ◌==◌, is_some, count_by, [], slice_set};
ghost use Rattle.std.specs.Option.{option_copied_mut};
ghost use Rattle.std.specs.Borrow.{sem};

mod cells;
mod growing;
mod links;
mod records;
mod rings;

pub use growing::MOST_SLOTS;
use growing::{fill, wider};
pub use records::Records;
pub use rings::Rings;
use slab::Slab;
use std::alloc::{AllocError, Global};
use std::marker::Model;
use std::mem;

/// The slot that a value was put at, and the number that it was given.
#[derive(Clone, Copy, Debug, PartialEq, Eq)]
pub struct Key {
    /// The slot, from 0 on.
    pub slot: u64,
    /// The number that the caller gave to `insert`.
    pub number: u64,
}

/// A value and the number that it was given, as they stand at a slot.
#[derive(Drop)]
pub struct Entry<T> {
    /// The number that the caller gave to `insert`.
    pub number: u64,
    /// The value.
    pub value: T,
}

/// Values at slots, each under a key that finds no other value.
#[derive(Drop)]
pub struct Slots<T> {
    // Which slots have a value, and which is used next.
    keys: Slab<()>,
    // What stands at each slot that was ever used.
    cells: Vec<Option<Entry<T>>>,
}

impl<T> Model for Slots<T> {
    ghost use Rattle.rx_slots.specs.Slots.{Slots as Entries, slots_code};

    ghost Value = { Entries T };

    ghost coded = { slots_code T.code };

    ghost use Rattle.std.specs.Prelude.{vec_capacity};
    ghost use Rattle.rx_slots.specs.Keyed.{shown_keyed, IsKeyed};

    ghost view = { λ s. shown_keyed s.keys s.cells.items };

    ghost invariant = { λ s. IsKeyed s.keys s.cells.items (vec_capacity s.cells) };
}

impl<T> Slots<T> {
    ghost use Rattle.rx_slots.specs.Slots.{entry_of, slot_count, placed, entry_at, number_at, value_at, key_at, find, IsWithin, Changes, KeepsOthers};
    ghost use Rattle.rx_slots.specs.Lends.{lends_value, lends_value_at, lends_at};

    /// An empty store, which takes no memory until the first `reserve` or `insert`.
    pub fn new(alloc: Global) -> Self
        ensures empty { result.entries ≡ [] }
        ensures next_slot { result.next_slot ≡ 0 }
        ensures count { result.count ≡ 0 }
        ensures room { result.room ≡ 0 }
    {
        Slots {
            keys: Slab::new(alloc),
            cells: Vec::new(alloc),
        }
    }

    /// Makes room for `additional` values more, so that as many inserts succeed and take no memory.
    ///
    /// Refused only where there was less room, and memory was refused or there would be more than
    /// 536,870,912 entries. No entry changes either way.
    #[inline(always)]
    pub fn reserve(&mut self, additional: usize) -> Result<(), AllocError>
        ensures ok { OnOk result (additional ≤ self.new.room) }
        ensures succeeds { additional ≤ self.old.room → IsOk result }
        ensures had_room { additional ≤ self.old.room → self.new ≡ self.old }
        ensures kept { self.new ≡ record self.old { room = self.new.room } }
        ensures room { self.old.room ≤ self.new.room }
    {
        if additional <= self.room() {
            return Ok(());
        }
        self.grow(additional)
    }

    // It is rare, and apart, so that what asks for room stays small. Growing may copy all values: so it is eightfold
    // where there is memory for that, and else twofold.
    #[cold]
    #[inline(never)]
    fn grow(&mut self, additional: usize) -> Result<(), AllocError>
        requires short { self.old.room < additional }
        ensures ok { OnOk result (additional ≤ self.new.room) }
        ensures kept { self.new ≡ record self.old { room = self.new.room } }
        ensures room { self.old.room ≤ self.new.room }
    {
        let len = self.keys.len();
        let most = MOST_SLOTS - len;
        if additional > most {
            return Err(AllocError);
        }
        let more = len.saturating_mul(7).min(most);
        if additional < more && self.extend(more).is_ok() {
            return Ok(());
        }
        self.extend(additional.max(len.max(4)).min(most))
    }

    // Gets room for so many values more, or for as many as fit the memory that this takes.
    fn extend(&mut self, additional: usize) -> Result<(), AllocError>
        requires short { self.old.room < additional }
        ensures ok { OnOk result (additional ≤ self.new.room) }
        ensures kept { self.new ≡ record self.old { room = self.new.room } }
        ensures room { self.old.room ≤ self.new.room }
        ensures err { OnErr result (self.new ≡ self.old) }
    {
        let keys = wider(&self.keys, additional)?;
        self.cells.reserve(keys.capacity() - self.cells.len())?;
        self.keys = keys;
        Ok(())
    }

    /// How many values more need no memory.
    #[inline(always)]
    pub fn room(&self) -> usize
        ensures { result ≡ self.now.room }
    {
        self.keys.capacity() - self.keys.len()
    }

    /// Puts a value at the next slot, under a number that its caller gives.
    ///
    /// Refused only where there was no room, and memory was refused or there are 536,870,912 entries: the
    /// value then comes back, and the same call uses the same slot once there is room.
    pub fn insert(&mut self, number: u64, value: T) -> Result<Key, T>
        // The value goes to the next slot, which was free, and no other slot changes.
        ensures numbered { IfOk result (λ key. key.number ≡ number) }
        ensures slot { IfOk result (λ key. key.slot ≡ self.old.next_slot) }
        ensures was_free { IfOk result (λ key. entry_at self.old key.slot ≡ None) }
        ensures below { IfOk result (λ key. key.slot < 2 ^ 29) }
        ensures placed { IfOk result (λ key.
            self.new.entries ≡ placed self.old.entries key.slot (entry_of number value)) }
        ensures changes { IfOk result (λ key.
            Changes self.old self.new key.slot (Some (entry_of number value))) }
        ensures found { IfOk result (λ key. find self.new key ≡ Some value) }
        ensures kept { IfOk result (λ key. KeepsOthers self.old self.new key) }
        ensures slot_count { IfOk result (λ key.
            slot_count self.new ≡ max (slot_count self.old) (key.slot + 1)) }
        ensures count { OnOk result (self.new.count ≡ self.old.count + 1) }

        // One place of the room is used, where there was room.
        ensures succeeds { 0 < self.old.room → IsOk result }
        ensures had_room { 0 < self.old.room → self.new.room + 1 ≡ self.old.room }

        // A refusal gives the value back, and changes no entry.
        ensures given_back { IfErr result (λ back. back ≡ value) }
        ensures err { OnErr result (self.new ≡ record self.old { room = self.new.room }) }
        ensures room { OnErr result (self.old.room ≤ self.new.room) }
    {
        if self.reserve(1).is_err() {
            return Err(value);
        }
        let slot = self.place(number, value) as u64;
        Ok(Key { slot, number })
    }

    /// `insert` where there is room, which cannot be refused. It gives the slot alone.
    #[inline(always)]
    pub fn place(&mut self, number: u64, value: T) -> usize
        requires room { 0 < self.old.room }
        ensures slot { result ≡ self.old.next_slot }
        ensures was_free { entry_at self.old result ≡ None }
        ensures below { result < 2 ^ 29 }
        ensures placed { self.new.entries ≡ placed self.old.entries result (entry_of number value) }
        ensures changes { Changes self.old self.new result (Some (entry_of number value)) }
        ensures found { find self.new (record { slot = result; number = number }) ≡ Some value }
        ensures kept { KeepsOthers self.old self.new (record { slot = result; number = number }) }
        ensures slot_count { slot_count self.new ≡ max (slot_count self.old) (result + 1) }
        ensures count { self.new.count ≡ self.old.count + 1 }
        ensures had_room { self.new.room + 1 ≡ self.old.room }
    {
        let slot = self.keys.insert_reserved(());
        fill(&mut self.cells, slot);
        match mem::replace(&mut self.cells[slot], Some(Entry { number, value })) {
            None => slot,
            Some(_before) => unreachable!(),
        }
    }

    /// The value of a key; None where its slot has no value, or one of another number.
    #[inline(always)]
    pub fn get(&self, key: Key) -> Option<&T>
        ensures { option_copied result ≡ find self.now key }
    {
        let entry = self.entry_at(key.slot as usize)?;
        if entry.number == key.number {
            Some(&entry.value)
        } else {
            None
        }
    }

    /// Whether a key finds a value.
    #[inline(always)]
    pub fn contains(&self, key: Key) -> bool
        ensures { IsTrue result ↔ IsSome (find self.now key) }
    {
        self.get(key).is_some()
    }

    /// The value of a key for writing; None where its slot has no value, or one of another number.
    #[inline(always)]
    pub fn get_mut(&mut self, key: Key) -> Option<&mut T>
        ensures* writes_back { sem 𝓛 (lends_value T.row self.entry key result) }
        ensures value { option_copied_mut result ≡ find self.old key }
    {
        if self.contains(key) {
            Some(self.at_mut(key.slot as usize))
        } else {
            None
        }
    }

    /// Takes the value of a key out; None where its slot has no value, or one of another number.
    ///
    /// The slot is free again, and the next that `insert` uses.
    #[inline(always)]
    pub fn take(&mut self, key: Key) -> Option<T>
        ensures value { result ≡ find self.old key }
        ensures removed { OnSome result
            (self.new.entries ≡ slice_set self.old.entries key.slot None) }
        ensures changes { OnSome result (Changes self.old self.new key.slot None) }
        ensures gone { find self.new key ≡ None }
        ensures kept { KeepsOthers self.old self.new key }
        ensures slot_count { slot_count self.new ≡ slot_count self.old }
        ensures next_slot { OnSome result (self.new.next_slot ≡ key.slot) }
        ensures count { OnSome result (self.new.count + 1 ≡ self.old.count) }
        ensures room { OnSome result (self.new.room ≡ self.old.room + 1) }
        ensures absent { IfNone result (self.new ≡ self.old) }
    {
        if !self.contains(key) {
            return None;
        }
        Some(self.take_at(key.slot as usize))
    }

    /// Takes the value out at a slot that has one. The slot is free again, and the next that `insert` uses.
    #[inline(always)]
    pub fn take_at(&mut self, slot: usize) -> T
        requires there { IsSome (entry_at self.old slot) }
        ensures value { value_at self.old slot ≡ Some result }
        ensures removed { self.new.entries ≡ slice_set self.old.entries slot None }
        ensures changes { Changes self.old self.new slot None }
        ensures slot_count { slot_count self.new ≡ slot_count self.old }
        ensures next_slot { self.new.next_slot ≡ slot }
        ensures count { self.new.count + 1 ≡ self.old.count }
        ensures room { self.new.room ≡ self.old.room + 1 }
    {
        self.keys.remove(slot);
        match self.cells[slot].take() {
            Some(Entry { number: _, value }) => value,
            None => unreachable!(),
        }
    }

    /// How many values there are.
    #[inline(always)]
    pub fn len(&self) -> usize
        ensures value { result ≡ self.now.count }
        ensures counted { result ≡ count_by is_some self.now.entries }
    {
        self.keys.len()
    }

    /// Whether there is no value.
    pub fn is_empty(&self) -> bool
        ensures { result ≡ (self.now.count == 0) }
    {
        self.len() == 0
    }

    /// How many values there are and have room: each is at a slot below, also those that are put in
    /// without a request for memory.
    #[inline(always)]
    pub fn capacity(&self) -> usize
        ensures value { result ≡ self.now.count + self.now.room }
        ensures within { IsWithin self.now }
        ensures most { result ≤ 2 ^ 29 }
    {
        self.keys.capacity()
    }

    /// How many slots were ever used: each value is at a slot below.
    ///
    /// Slots are used again before further ones are, so there are no more than values fit.
    pub fn slot_count(&self) -> usize
        ensures value { result ≡ slot_count self.now }
        ensures at_most { result ≤ self.now.count + self.now.room }
        ensures most { result ≤ 2 ^ 29 }
    {
        self.cells.len()
    }

    /// The slot that the next insert uses.
    pub fn next_slot(&self) -> usize
        ensures value { result ≡ self.now.next_slot }
        ensures free { entry_at self.now result ≡ None }
        ensures most { result ≤ 2 ^ 29 }
    {
        self.keys.vacant_key().min(MOST_SLOTS)
    }

    /// The value at a slot with its number, if one stands there.
    #[inline(always)]
    pub fn entry_at(&self, slot: usize) -> Option<&Entry<T>>
        ensures { option_copied result ≡ entry_at self.now slot }
    {
        self.cells.get(slot)?.as_ref()
    }

    /// The number at a slot, if a value stands there.
    #[inline(always)]
    pub fn number_at(&self, slot: usize) -> Option<u64>
        ensures { result ≡ number_at self.now slot }
    {
        Some(self.entry_at(slot)?.number)
    }

    /// The key of the value at a slot, if one stands there.
    #[inline(always)]
    pub fn key_at(&self, slot: usize) -> Option<Key>
        ensures { result ≡ key_at self.now slot }
    {
        let number = self.number_at(slot)?;
        Some(Key {
            slot: slot as u64,
            number,
        })
    }

    /// The value at a slot, if one stands there.
    #[inline(always)]
    pub fn value_at(&self, slot: usize) -> Option<&T>
        ensures { option_copied result ≡ value_at self.now slot }
    {
        Some(&self.entry_at(slot)?.value)
    }

    /// The value at a slot for writing, if one stands there.
    #[inline(always)]
    pub fn value_at_mut(&mut self, slot: usize) -> Option<&mut T>
        ensures* writes_back { sem 𝓛 (lends_value_at T.row self.entry slot result) }
        ensures value { option_copied_mut result ≡ value_at self.old slot }
    {
        if self.entry_at(slot).is_some() {
            Some(self.at_mut(slot))
        } else {
            None
        }
    }

    // The entry at a slot that has one.
    #[inline(always)]
    fn entry(&self, slot: usize) -> &Entry<T>
        requires there { IsSome (entry_at self.now slot) }
        ensures { entry_at self.now slot ≡ Some result.now }
    {
        match &self.cells[slot] {
            Some(entry) => entry,
            None => unreachable!(),
        }
    }

    /// The value at a slot that has one.
    #[inline(always)]
    pub fn at(&self, slot: usize) -> &T
        requires there { IsSome (entry_at self.now slot) }
        ensures { value_at self.now slot ≡ Some result.now }
    {
        &self.entry(slot).value
    }

    /// The number at a slot that has a value.
    #[inline(always)]
    pub fn number_of(&self, slot: usize) -> u64
        requires there { IsSome (entry_at self.now slot) }
        ensures { number_at self.now slot ≡ Some result }
    {
        self.entry(slot).number
    }

    /// The value at a slot that has one, for writing.
    #[inline(always)]
    pub fn at_mut(&mut self, slot: usize) -> &mut T
        requires there { IsSome (entry_at self.old slot) }
        ensures* writes_back { sem 𝓛 (lends_at T.row self.entry slot result) }
        ensures value { value_at self.old slot ≡ Some result.now }
        ensures below { slot < 2 ^ 29 }
    {
        match &mut self.cells[slot] {
            Some(entry) => &mut entry.value,
            None => unreachable!(),
        }
    }

    /// The key of the first value at this slot or a later one; None where no value stands there.
    ///
    /// A walk over all values asks from 0 on, and then from the slot past the last answer.
    pub fn next_key(&self, from: usize) -> Option<Key>
        ensures found { IfSome result (λ key. key_at self.now key.slot ≡ Some key) }
        ensures from { IfSome result (λ key. from ≤ key.slot) }
        ensures first { IfSome result (λ key.
            (slot : ℕ) → from ≤ slot → slot < key.slot → entry_at self.now slot ≡ None) }
        ensures end { IfNone result ((slot : ℕ) → from ≤ slot → entry_at self.now slot ≡ None) }
    {
        for slot in from..self.slot_count() {
            if let Some(key) = self.key_at(slot) {
                return Some(key);
            }
        }
        None
    }
}
