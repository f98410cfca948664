//! The list, in its pieces.

ghost use Rattle.std.specs.Prelude.{◌≡◌, ◌+◌, ◌<◌, ◌≤◌, ◌==◌, [], ◌∷◌, ◌++◌, length, slice_get, option_copied, OnOk, OnErr, IsOk};

use crate::pieces::{PIECE, begin, widen};
use std::alloc::{AllocError, Global};
use std::marker::Model;

/// A list that grows at its end and never moves what it has.
#[derive(Drop)]
pub struct Segments<T> {
    // The pieces that are full, in their order.
    full: Vec<Vec<T>>,
    // The one that comes after them. It is the first one where none is full, and may be smaller then.
    last: Vec<T>,
    // Empty ones.
    spare: Vec<Vec<T>>,
}

impl<T> Model for Segments<T> {
    ghost use Rattle.rx_segments.specs.Segments.{Segments as Grown, segments_code};

    ghost Value = { Grown T };

    ghost coded = { segments_code T.code };

    ghost use Rattle.rx_segments.specs.Kept.{AreKept, shown};

    ghost view = { λ s. shown s.full s.last s.spare };

    ghost invariant = { λ s. AreKept s.full s.last s.spare };
}

impl<T> Segments<T> {
    /// No items, which takes no memory.
    pub fn new(alloc: Global) -> Self
        ensures items { result.items ≡ [] }
        ensures room { result.room ≡ 0 }
    {
        Segments {
            full: Vec::new(alloc),
            last: Vec::new(alloc),
            spare: Vec::new(alloc),
        }
    }

    /// How many items there are.
    #[inline(always)]
    pub fn len(&self) -> usize
        ensures { result ≡ length self.now.items }
    {
        PIECE * self.full.len() + self.last.len()
    }

    /// Whether there is no item.
    pub fn is_empty(&self) -> bool
        ensures { result ≡ (length self.now.items == 0) }
    {
        self.len() == 0
    }

    /// How many items more need no memory.
    #[inline(always)]
    pub fn room(&self) -> usize
        ensures { result ≡ self.now.room }
    {
        self.last.capacity() - self.last.len() + PIECE * self.spare.len()
    }

    /// The item at an index, from 0 on; None past the last one.
    pub fn get(&self, index: usize) -> Option<&T>
        ensures { option_copied result ≡ slice_get self.now.items index }
    {
        let piece = index / PIECE;
        if piece < self.full.len() {
            self.full[piece].get(index % PIECE)
        } else {
            self.last.get(index - PIECE * self.full.len())
        }
    }

    /// Gets room for `n` more items.
    ///
    /// Refused where there was not as much room, and memory was refused or there were more than
    /// 1,099,511,627,776 items with them. The items then stay, and what memory it got before that stays as room.
    #[inline(always)]
    pub fn reserve(&mut self, n: usize) -> Result<(), AllocError>
        ensures ok { OnOk result (n ≤ self.new.room) }
        ensures succeeds { n ≤ self.old.room → IsOk result }
        ensures kept { self.new ≡ record self.old { room = self.new.room } }
        ensures room { self.old.room ≤ self.new.room }
    {
        if n <= self.room() {
            return Ok(());
        }
        widen(&mut self.full, &mut self.last, &mut self.spare, n)
    }

    /// Adds an item last. It takes no memory, since there is room.
    #[inline(always)]
    pub fn push_reserved(&mut self, item: T)
        requires room { 0 < self.old.room }
        ensures items { self.new.items ≡ self.old.items ++ item ∷ [] }
        ensures room { self.new.room + 1 ≡ self.old.room }
    {
        if self.last.len() == PIECE {
            begin(&mut self.full, &mut self.last, &mut self.spare);
        }
        self.last.push_reserved(item);
    }
}

impl<T: Drop> Segments<T> {
    /// Lets all items go and gives their memory back, but gets room for `n` first. Refused as `reserve` of an
    /// empty list is; then nothing changes.
    pub fn start_over(&mut self, n: usize) -> Result<(), AllocError>
        ensures items { OnOk result (self.new.items ≡ []) }
        ensures room { OnOk result (n ≤ self.new.room) }
        ensures kept { OnErr result (self.new ≡ self.old) }
    {
        let alloc = *self.full.allocator();
        let mut fresh = Segments::new(alloc);
        fresh.reserve(n)?;
        *self = fresh;
        Ok(())
    }
}
