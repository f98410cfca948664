//! Checked slots for values that stay where they stood until their slot is used again.

ghost use Rattle.std.specs.Prelude.{◌≡◌, ◌↔◌, ◌+◌, ◌<◌, ◌≤◌, ◌^◌, max, IsTrue, IsOk, IsSome, IfOk, OnOk, OnErr, Some, None, [], is_some};
ghost use Rattle.std.specs.Prelude.{option_copied, count_by};
ghost use Rattle.std.specs.Borrow.{sem};

use crate::Key;
use crate::cells::Cells;
use std::alloc::{AllocError, Global};
use std::marker::Model;

/// Values at slots, each under a key that finds no other value. A value that was removed stays where it
/// stood, and is let go once its slot is used again or the store is: so no call has to ask whether
/// a slot is used where that is known.
#[derive(Drop)]
pub struct Records<T> {
    // What stands at each slot that was ever used, and the free slots. The last of those is used next.
    cells: Cells<T>,
    // How many values there are and have room.
    capacity: usize,
}

impl<T> Model for Records<T> {
    ghost use Rattle.rx_slots.specs.Slots.{Slots as Entries, slots_code};

    ghost Value = { Entries T };

    ghost coded = { slots_code T.code };

    ghost use Rattle.rx_slots.specs.Kept.{shown, IsKept};

    ghost view = { λ s. shown s.cells.items s.cells.free s.capacity };

    ghost invariant = { λ s. IsKept s.cells.items s.cells.free s.capacity s.cells.fit s.cells.free_fit };
}

impl<T> Records<T> {
    ghost use Rattle.rx_slots.specs.Slots.{slot_count, entry_at, number_at, value_at, key_at, find, IsWithin, Changes, KeepsOthers};
    ghost use Rattle.rx_slots.specs.Lends.{lends_record};

    /// As [`Slots::new`](crate::Slots::new).
    pub fn new(alloc: Global) -> Self
        ensures empty { result.entries ≡ [] }
        ensures next_slot { result.next_slot ≡ 0 }
        ensures count { result.count ≡ 0 }
        ensures room { result.room ≡ 0 }
    {
        Records {
            cells: Cells::new(alloc),
            capacity: 0,
        }
    }

    /// As [`Slots::reserve`](crate::Slots::reserve).
    #[inline(always)]
    pub fn reserve(&mut self, additional: usize) -> Result<(), AllocError>
        ensures ok { OnOk result (additional ≤ self.new.room) }
        ensures succeeds { additional ≤ self.old.room → IsOk result }
        ensures had_room { additional ≤ self.old.room → self.new ≡ self.old }
        ensures kept { self.new ≡ record self.old { room = self.new.room } }
        ensures room { self.old.room ≤ self.new.room }
    {
        if additional <= self.room() {
            return Ok(());
        }
        self.grow(additional)
    }

    // It is rare, and apart, so that what asks for room stays small.
    #[cold]
    #[inline(never)]
    fn grow(&mut self, additional: usize) -> Result<(), AllocError>
        ensures ok { OnOk result (additional ≤ self.new.room) }
        ensures kept { self.new ≡ record self.old { room = self.new.room } }
        ensures room { self.old.room ≤ self.new.room }
    {
        self.capacity = self.cells.grow(self.capacity, additional)?;
        Ok(())
    }

    /// How many values more need no memory.
    #[inline(always)]
    pub fn room(&self) -> usize
        ensures { result ≡ self.now.room }
    {
        self.capacity - self.len()
    }

    /// How many values there are.
    #[inline(always)]
    pub fn len(&self) -> usize
        ensures value { result ≡ self.now.count }
        ensures counted { result ≡ count_by is_some self.now.entries }
    {
        self.cells.len() - self.cells.free_count()
    }

    /// How many values there are and have room: each is at a slot below, also those that are put in
    /// without a request for memory.
    #[inline(always)]
    pub fn capacity(&self) -> usize
        ensures value { result ≡ self.now.count + self.now.room }
        ensures within { IsWithin self.now }
        ensures most { result ≤ 2 ^ 29 }
    {
        self.capacity
    }

    /// How many slots were ever used: each value is at a slot below.
    pub fn slot_count(&self) -> usize
        ensures value { result ≡ slot_count self.now }
        ensures at_most { result ≤ self.now.count + self.now.room }
        ensures most { result ≤ 2 ^ 29 }
    {
        self.cells.len()
    }

    /// The slot that the next insert uses.
    #[inline(always)]
    pub fn next_slot(&self) -> usize
        ensures value { result ≡ self.now.next_slot }
        ensures free { entry_at self.now result ≡ None }
        ensures most { result ≤ 2 ^ 29 }
    {
        match self.cells.last_free() {
            Some(slot) => slot,
            None => self.cells.len(),
        }
    }

    /// The value of a key; None where its slot has no value, or one of another number.
    #[inline(always)]
    pub fn get(&self, key: Key) -> Option<&T>
        ensures { option_copied result ≡ find self.now key }
    {
        self.cells.get(key.slot as usize, key.number)
    }

    /// Whether a key finds a value.
    #[inline(always)]
    pub fn contains(&self, key: Key) -> bool
        ensures { IsTrue result ↔ IsSome (find self.now key) }
    {
        self.get(key).is_some()
    }

    /// The key of the value at a slot, if one stands there.
    #[inline(always)]
    pub fn key_at(&self, slot: usize) -> Option<Key>
        ensures { result ≡ key_at self.now slot }
    {
        let number = self.cells.number_at(slot)?;
        Some(Key {
            slot: slot as u64,
            number,
        })
    }

    /// The value at a slot that has one.
    #[inline(always)]
    pub fn at(&self, slot: usize) -> &T
        requires there { IsSome (entry_at self.now slot) }
        ensures value { value_at self.now slot ≡ Some result.now }
        ensures below { slot < 2 ^ 29 }
        ensures some { 0 < self.now.count }
    {
        self.cells.value(slot)
    }

    /// The number at a slot that has a value.
    #[inline(always)]
    pub fn number_of(&self, slot: usize) -> u64
        requires there { IsSome (entry_at self.now slot) }
        ensures { number_at self.now slot ≡ Some result }
    {
        self.cells.number(slot)
    }

    /// The value at a slot that has one, for writing.
    #[inline(always)]
    pub fn at_mut(&mut self, slot: usize) -> &mut T
        requires there { IsSome (entry_at self.old slot) }
        ensures* writes_back { sem 𝓛 (lends_record T.row self.entry slot result) }
        ensures value { value_at self.old slot ≡ Some result.now }
        ensures below { slot < 2 ^ 29 }
    {
        self.cells.value_mut(slot)
    }

    /// Lets the value of a key be there no more. The slot is free again, and the next that is used.
    #[inline(always)]
    pub fn remove(&mut self, key: Key)
        requires found { IsSome (find self.old key) }
        ensures changes { Changes self.old self.new key.slot None }
        ensures gone { find self.new key ≡ None }
        ensures kept { KeepsOthers self.old self.new key }
        ensures slot_count { slot_count self.new ≡ slot_count self.old }
        ensures next_slot { self.new.next_slot ≡ key.slot }
        ensures count { self.new.count + 1 ≡ self.old.count }
        ensures room { self.new.room ≡ self.old.room + 1 }
    {
        self.cells.remove(key.slot as usize);
    }
}

impl<T: Drop> Records<T> {
    ghost use Rattle.rx_slots.specs.Slots.{entry_of, slot_count, placed, entry_at, find, Changes, KeepsOthers};

    /// Puts a value at the next slot, under a number that its caller gives. Refused only where there was no
    /// room, and memory was refused or there are 536,870,912 entries.
    #[inline(always)]
    pub fn insert(&mut self, number: u64, value: T) -> Result<Key, AllocError>
        // The value goes to the next slot, which was free, and no other slot changes.
        ensures numbered { IfOk result (λ key. key.number ≡ number) }
        ensures slot { IfOk result (λ key. key.slot ≡ self.old.next_slot) }
        ensures was_free { IfOk result (λ key. entry_at self.old key.slot ≡ None) }
        ensures changes { IfOk result (λ key.
            Changes self.old self.new key.slot (Some (entry_of number value))) }
        ensures found { IfOk result (λ key. find self.new key ≡ Some value) }
        ensures kept { IfOk result (λ key. KeepsOthers self.old self.new key) }
        ensures count { OnOk result (self.new.count ≡ self.old.count + 1) }

        // One place of the room is used, where there was room.
        ensures succeeds { 0 < self.old.room → IsOk result }
        ensures had_room { 0 < self.old.room → self.new.room + 1 ≡ self.old.room }

        // A refusal changes no entry.
        ensures err { OnErr result (self.new ≡ record self.old { room = self.new.room }) }
        ensures room { OnErr result (self.old.room ≤ self.new.room) }
    {
        self.reserve(1)?;
        let slot = self.place(number, value) as u64;
        Ok(Key { slot, number })
    }

    /// `insert` where there is room, which cannot be refused. It gives the slot alone.
    #[inline(always)]
    pub fn place(&mut self, number: u64, value: T) -> usize
        requires room { 0 < self.old.room }
        ensures slot { result ≡ self.old.next_slot }
        ensures was_free { entry_at self.old result ≡ None }
        ensures below { result < 2 ^ 29 }
        ensures placed { self.new.entries ≡ placed self.old.entries result (entry_of number value) }
        ensures changes { Changes self.old self.new result (Some (entry_of number value)) }
        ensures found { find self.new (record { slot = result; number = number }) ≡ Some value }
        ensures kept { KeepsOthers self.old self.new (record { slot = result; number = number }) }
        ensures slot_count { slot_count self.new ≡ max (slot_count self.old) (result + 1) }
        ensures count { self.new.count ≡ self.old.count + 1 }
        ensures had_room { self.new.room + 1 ≡ self.old.room }
    {
        let Some(slot) = self.cells.last_free() else {
            let slot = self.cells.len();
            self.cells.push_reserved(number, value);
            return slot;
        };
        self.cells.reuse(slot, number, value);
        slot
    }
}
