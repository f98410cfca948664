//! What stands at each slot, with the free slots. A free slot keeps its place on the list of them in the place of
//! its number, so the two tell of each other whether it is free, and no slot needs a mark of its own (the sparse
//! set of Briggs and Torczon).

ghost use Rattle.std.specs.Prelude.{◌≡◌, ◌+◌, ◌-◌, ◌<◌, ◌≤◌, ◌^◌, ◌++◌, ◌∷◌, length, min, vec_capacity, IsSome, IfOk, IfNone, Some, None, []};
ghost use Rattle.std.specs.Prelude.{option_copied, option_map, slice_get, slice_index_or, slice_set};
ghost use Rattle.std.specs.Borrow.{sem};
ghost use Rattle.rx_slots.specs.Kept.{Fits, is_free};

use crate::growing::grow;
use std::alloc::{AllocError, Global};
use std::marker::Model;

// What stands in the place of a free slot's number is its place among the free slots, counted from here on. Numbers
// seldom come as far, so what looks a value up seldom has to look there too.
const FIRST_PLACE: u64 = 9_223_372_036_854_775_808;

/// A number and a value for each slot that was ever used, and the slots without a value, each once. Where nothing
/// stands, what is left of the last value stays.
#[derive(Drop)]
pub(crate) struct Cells<T> {
    // The slots without a value, each once.
    free: Vec<u32>,
    // The number of the value at each slot.
    numbers: Vec<u64>,
    // The values.
    values: Vec<T>,
}

impl<T> Model for Cells<T> {
    ghost use Rattle.rx_slots.specs.Kept.{Cells as Shown, cells_code};

    ghost Value = { Shown T };

    ghost coded = { cells_code T.code };

    ghost use Rattle.std.specs.Prelude.{◌≡◌, length, min, vec_capacity};
    ghost use Rattle.rx_slots.specs.Kept.{standing_from, AreTold};

    ghost view = { λ c. record {
      items = standing_from c.free.items 0 c.numbers.items c.values.items;
      free = c.free.items;
      fit = min (vec_capacity c.numbers) (vec_capacity c.values);
      free_fit = vec_capacity c.free;
    } };

    ghost invariant = { λ c. (length c.numbers.items ≡ length c.values.items) × AreTold c.free.items c.numbers.items };
}

impl<T> Cells<T> {
    ghost use Rattle.rx_slots.specs.Slots.{entry_of, with_number};
    ghost use Rattle.rx_slots.specs.Lends.{lends_cell};

    // None, which takes no memory.
    pub(crate) fn new(alloc: Global) -> Self
        ensures items { result.items ≡ [] }
        ensures free { result.free ≡ [] }
    {
        Cells {
            free: Vec::new(alloc),
            numbers: Vec::new(alloc),
            values: Vec::new(alloc),
        }
    }

    // How many slots were ever used.
    #[inline(always)]
    #[tactic(auto, using(crate::proofs::Standing::length_from))]
    pub(crate) fn len(&self) -> usize
        ensures { result ≡ length self.now.items }
    {
        self.values.len()
    }

    // How many of them are free.
    #[inline(always)]
    pub(crate) fn free_count(&self) -> usize
        ensures { result ≡ length self.now.free }
    {
        self.free.len()
    }

    // The last that became free.
    #[inline(always)]
    #[tactic(auto, using(crate::proofs::Standing::none_last))]
    pub(crate) fn last_free(&self) -> Option<usize>
        ensures value { result ≡ slice_get self.now.free (length self.now.free - 1) }
        ensures none { IfNone result (self.now.free ≡ []) }
    {
        match self.free.last() {
            Some(slot) => Some(*slot as usize),
            None => None,
        }
    }

    // Whether the slot is free where this stands in the place of its number.
    #[inline(always)]
    fn is_free(&self, number: u64, slot: usize) -> bool
        ensures { result ≡ is_free self.now.free number slot }
    {
        if number < FIRST_PLACE {
            return false;
        }
        match self.free.get((number - FIRST_PLACE) as usize) {
            Some(at) => *at as usize == slot,
            None => false,
        }
    }

    // The value at a slot, if it has this number.
    #[inline(always)]
    #[tactic(auto, using(crate::proofs::Standing::found_at, crate::proofs::Standing::other_at, crate::proofs::Standing::past_at))]
    pub(crate) fn get(&self, slot: usize, number: u64) -> Option<&T>
        ensures { option_copied result ≡ with_number number (slice_index_or self.now.items slot None) }
    {
        if *self.numbers.get(slot)? == number && !self.is_free(number, slot) {
            Some(&self.values[slot])
        } else {
            None
        }
    }

    // The number at a slot, if a value stands there.
    #[inline(always)]
    #[tactic(auto, using(crate::proofs::Standing::told_at, crate::proofs::Standing::none_at, crate::proofs::Standing::past_at))]
    pub(crate) fn number_at(&self, slot: usize) -> Option<u64>
        ensures { result ≡ option_map (λ e. e.number) (slice_index_or self.now.items slot None) }
    {
        let number = *self.numbers.get(slot)?;
        if self.is_free(number, slot) {
            None
        } else {
            Some(number)
        }
    }

    // The number at a slot that has a value.
    #[inline(always)]
    #[tactic(auto, using(crate::proofs::Standing::standing_below, crate::proofs::Standing::number_standing))]
    pub(crate) fn number(&self, slot: usize) -> u64
        requires there { IsSome (slice_index_or self.now.items slot None) }
        ensures { option_map (λ e. e.number) (slice_index_or self.now.items slot None) ≡ Some result }
    {
        self.numbers[slot]
    }

    // The value at a slot that has one.
    #[inline(always)]
    #[tactic(auto, using(crate::proofs::Standing::standing_below, crate::proofs::Standing::value_standing))]
    pub(crate) fn value(&self, slot: usize) -> &T
        requires there { IsSome (slice_index_or self.now.items slot None) }
        ensures { option_map (λ e. e.value) (slice_index_or self.now.items slot None) ≡ Some result.now }
    {
        &self.values[slot]
    }

    // The value at a slot that has one, for writing.
    #[inline(always)]
    #[tactic(auto, using(crate::proofs::Standing::standing_below, crate::proofs::Standing::value_standing, crate::proofs::Standing::written_at))]
    pub(crate) fn value_mut(&mut self, slot: usize) -> &mut T
        requires there { IsSome (slice_index_or self.old.items slot None) }
        ensures* writes_back { sem 𝓛 (lends_cell T.row self.entry slot result) }
        ensures value { option_map (λ e. e.value) (slice_index_or self.old.items slot None) ≡ Some result.now }
    {
        &mut self.values[slot]
    }

    // Nothing stands at a slot any more.
    #[inline(always)]
    #[tactic(auto, using(crate::proofs::Standing::standing_below, crate::proofs::Standing::removed_at, crate::proofs::Standing::removed_told))]
    pub(crate) fn remove(&mut self, slot: usize)
        requires there { IsSome (slice_index_or self.old.items slot None) }
        requires small { slot < 2 ^ 32 }
        requires few { length self.old.free < 2 ^ 32 }
        requires room { length self.old.free < self.old.free_fit }
        ensures { self.new ≡ record self.old {
          items = slice_set self.old.items slot None;
          free = self.old.free ++ slot ∷ [];
        } }
    {
        self.numbers[slot] = self.free.len() as u64 + FIRST_PLACE;
        self.free.push_reserved(slot as u32);
    }

    // Gets room for so many values more, and for the free slots that there can be then; answers how many values
    // fit then.
    #[tactic(auto, using(crate::proofs::Standing::length_from))]
    pub(crate) fn grow(&mut self, capacity: usize, additional: usize) -> Result<usize, AllocError>
        requires fits { Fits self.old.items self.old.free capacity self.old.fit self.old.free_fit }
        ensures items { self.new.items ≡ self.old.items }
        ensures free { self.new.free ≡ self.old.free }
        ensures still { Fits self.new.items self.new.free capacity self.new.fit self.new.free_fit }
        ensures fits { IfOk result (λ more. Fits self.new.items self.new.free more self.new.fit self.new.free_fit) }
        ensures wider { IfOk result (λ more. capacity ≤ more) }
        ensures enough { IfOk result (λ more. length self.old.items + additional ≤ more + length self.old.free) }
    {
        let more = grow(&mut self.values, &mut self.free, capacity, additional)?;
        if self.numbers.reserve(more - self.numbers.len()).is_ok() {
            return Ok(more);
        }
        let needed = capacity.max(self.values.len() - self.free.len() + additional);
        self.numbers.reserve(needed - self.numbers.len())?;
        Ok(needed)
    }
}

impl<T: Drop> Cells<T> {
    ghost use Rattle.rx_slots.specs.Slots.{entry_of};

    // Puts a value at the slot that became free last.
    #[inline(always)]
    #[tactic(auto, using(crate::proofs::Standing::reused_at, crate::proofs::Standing::reused_told))]
    pub(crate) fn reuse(&mut self, slot: usize, number: u64, value: T)
        requires last { slice_get self.old.free (length self.old.free - 1) ≡ Some slot }
        ensures items { self.new.items ≡ slice_set self.old.items slot (Some (entry_of number value)) }
        ensures free { self.old.free ≡ self.new.free ++ slot ∷ [] }
        ensures fit { self.new.fit ≡ self.old.fit }
        ensures free_fit { self.new.free_fit ≡ self.old.free_fit }
    {
        let _slot = self.free.pop();
        self.numbers[slot] = number;
        self.values[slot] = value;
    }

    // Puts a value at a further slot, for which there is room, where none is free.
    #[inline(always)]
    #[tactic(auto, using(crate::proofs::Standing::length_from, crate::proofs::Standing::pushed_at, crate::proofs::Standing::pushed_told))]
    pub(crate) fn push_reserved(&mut self, number: u64, value: T)
        requires none { self.old.free ≡ [] }
        requires room { length self.old.items < self.old.fit }
        ensures { self.new ≡ record self.old { items = self.old.items ++ Some (entry_of number value) ∷ [] } }
    {
        self.numbers.push_reserved(number);
        self.values.push_reserved(value);
    }
}
