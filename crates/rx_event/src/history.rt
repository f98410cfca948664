//! A base and the events since, which only grow, up to a limit.

ghost use Rattle.std.specs.Prelude.{◌≡◌, ◌+◌, ◌<◌, ◌≤◌, ◌↔◌, ◌⊎◌, [], ◌∷◌, ◌++◌, length, slice_get, option_map, OnOk, OnErr, IsErrOf, IfErr};
ghost use Rattle.rx_event.specs.Kept.{nothing_kept, shown, event_since};
ghost use Rattle.rx_event.specs.Words.{event_of};

use crate::base::Base;
use crate::event::Event;
use crate::refusal::Refusal;
use crate::stored::StoredEvent;
use rx_segments::Segments;
use std::alloc::{AllocError, Global};
use std::marker::Model;

/// The events so far, in their order. Places are counted from 0. Of the events before a checkpoint
/// a base is kept, which they are read from as one list with the events since.
#[derive(Drop)]
pub struct History {
    base: Base,
    events: Segments<StoredEvent>,
    // For how many more there is room, within the limit too.
    room: u64,
    limit: u64,
}

impl Model for History {
    ghost use Rattle.std.specs.Prelude.{◌+◌, ◌≤◌, length, map};
    ghost use Rattle.rx_event.specs.Kept.{stored};
    ghost use Rattle.rx_event.specs.Words.{event_of};
    ghost use Rattle.rx_event.specs.Stored.{Stored};

    ghost Value = { Stored };

    ghost view = { λ h. record { base = h.base; events = stored h.base (map event_of h.events.items); limit = h.limit; room = h.room } };

    ghost invariant = { λ h. (h.limit ≤ 4294967295) × (length h.events.items + h.room ≤ h.limit) ×
        (h.room ≤ h.events.room) × (h.base.at_length ≤ 9223372036854775807) };
}

impl History {
    /// A history with no events, of at most `limit` events, which is at most 4,294,967,295. It takes
    /// no memory.
    #[tactic(auto, using(crate::proofs::Laws::Begin::shown_nothing))]
    pub fn new(alloc: Global, limit: u64) -> Self
        requires { limit ≤ 4294967295 }
        ensures base { result.base ≡ nothing_kept }
        ensures events { result.events ≡ [] }
        ensures limit { result.limit ≡ limit }
        ensures room { result.room ≡ 0 }
    {
        History {
            base: Base::empty(alloc),
            events: Segments::new(alloc),
            room: 0,
            limit,
        }
    }

    /// For how many more events there is room, within the limit too.
    #[inline(always)]
    pub fn room(&self) -> u64
        ensures { result ≡ self.now.room }
    {
        self.room
    }

    /// How many events there ever were.
    #[inline(always)]
    #[tactic(auto, using(crate::proofs::Laws::StoredAt::length_written))]
    pub fn len(&self) -> u64
        ensures value { result ≡ length self.now.events }
        ensures begun { self.now.base.at_length ≤ length self.now.events }
        ensures placed { self.now.base.at_length ≤ 9223372036854775807 }
        ensures limited { length self.now.events ≤ self.now.base.at_length + self.now.limit }
        ensures within { length self.now.events + self.now.room ≤ self.now.base.at_length + self.now.limit }
    {
        let count = self.events.len();
        self.base.at + count as u64
    }

    /// The event at a place, if it is one since the base.
    #[tactic(auto, using(crate::proofs::Laws::StoredAt::length_written, crate::proofs::Laws::StoredAt::get_stored))]
    pub fn get(&self, place: u64) -> Option<Event>
        ensures { result ≡ event_since self.now.base self.now.events place }
    {
        if place < self.base.at {
            return None;
        }
        nth(&self.events, place - self.base.at)
    }

    /// What the history begins with.
    pub fn base(&self) -> &Base
        ensures { result.now ≡ self.now.base }
    {
        &self.base
    }

    /// Puts a base of as many events, at most 9,223,372,036,854,775,807, in place of the base and the
    /// events. First it gets room for `room` events after them, at most the limit; the memory that
    /// the events had is given back. Refused only where memory was refused; then nothing changes.
    #[tactic(auto, using(crate::proofs::Laws::StoredAt::stored_nothing))]
    pub fn rebase(&mut self, base: Base, room: u64) -> Result<(), AllocError>
        requires length { base.at_length ≡ length self.old.events }
        requires placed { base.at_length ≤ 9223372036854775807 }
        requires within { room ≤ self.old.limit }
        ensures base { OnOk result (self.new.base ≡ base) }
        ensures events { OnOk result (self.new.events ≡ shown base) }
        ensures room { OnOk result (self.new.room ≡ room) }
        ensures limit { self.new.limit ≡ self.old.limit }
        ensures refused { OnErr result (self.new ≡ self.old) }
    {
        self.events.start_over(room as usize)?;
        self.base = base;
        self.room = room;
        Ok(())
    }

    /// Gets room for `n` more events. `Full` exactly where with them there were more since the base than
    /// the limit; `NoMemory` where memory was asked for and refused. Neither changes anything.
    #[inline(always)]
    #[tactic(auto, using(crate::proofs::Laws::StoredAt::length_written))]
    pub fn reserve(&mut self, n: u64) -> Result<(), Refusal>
        ensures base { self.new.base ≡ self.old.base }
        ensures events { self.new.events ≡ self.old.events }
        ensures limit { self.new.limit ≡ self.old.limit }
        ensures ok { OnOk result (n ≤ self.new.room) }
        ensures refused_full { IsErrOf result Refusal.Full ↔
            (self.old.base.at_length + self.old.limit < length self.old.events + n) }
        ensures refused_no_memory { IfErr result (λ why. (why ≡ Refusal.Full) ⊎ ((why ≡ Refusal.NoMemory) × (self.old.room < n))) }
        ensures more { self.old.room ≤ self.new.room }
        ensures within { length self.new.events + self.new.room ≤ self.new.base.at_length + self.new.limit }
        ensures kept { OnErr result (self.new ≡ self.old) }
    {
        if n <= self.room {
            return Ok(());
        }
        self.ask_for_room(n)
    }

    // `reserve` where there is not as much room.
    #[cold]
    #[inline(never)]
    #[tactic(auto, using(crate::proofs::Laws::StoredAt::length_written))]
    fn ask_for_room(&mut self, n: u64) -> Result<(), Refusal>
        requires { self.old.room < n }
        ensures base { self.new.base ≡ self.old.base }
        ensures events { self.new.events ≡ self.old.events }
        ensures limit { self.new.limit ≡ self.old.limit }
        ensures ok { OnOk result (n ≤ self.new.room) }
        ensures refused_full { IsErrOf result Refusal.Full ↔
            (self.old.base.at_length + self.old.limit < length self.old.events + n) }
        ensures refused { IfErr result (λ why. (why ≡ Refusal.Full) ⊎ (why ≡ Refusal.NoMemory)) }
        ensures more { self.old.room ≤ self.new.room }
        ensures within { length self.new.events + self.new.room ≤ self.new.base.at_length + self.new.limit }
        ensures kept { OnErr result (self.new ≡ self.old) }
    {
        let left = self.limit - self.events.len() as u64;
        if n > left {
            return Err(Refusal::Full);
        }
        match self.events.reserve(n as usize) {
            Ok(()) => {
                self.room = left.min(self.events.room() as u64);
                Ok(())
            }
            Err(_) => Err(Refusal::NoMemory),
        }
    }

    /// Adds an event last. It takes no memory, since room was reserved.
    #[inline(always)]
    #[tactic(auto, using(crate::proofs::Laws::StoredAt::length_written))]
    pub fn push_reserved(&mut self, event: Event)
        requires { 0 < self.old.room }
        ensures base { self.new.base ≡ self.old.base }
        ensures events { self.new.events ≡ self.old.events ++ event ∷ [] }
        ensures limit { self.new.limit ≡ self.old.limit }
        ensures room { self.new.room + 1 ≡ self.old.room }
    {
        self.events.push_reserved(StoredEvent::of(event));
        self.room -= 1;
    }
}

/// The event at an index, if there is one.
fn nth(events: &Segments<StoredEvent>, index: u64) -> Option<Event>
    ensures { result ≡ option_map event_of (slice_get events.now.items index) }
{
    match events.get(index as usize) {
        Some(stored) => Some(stored.event()),
        None => None,
    }
}
