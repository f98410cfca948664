//! What happened, by numbers alone, and what is counted of it, so that no call has to search for it.

mod checkpoint;
mod limits;
mod mail;
mod spare;
mod write;

ghost use Rattle.std.specs.Prelude.{◌≡◌, ◌+◌, ◌<◌, ◌≤◌, [], length, OnOk, OnErr};
ghost use Rattle.rx_event.specs.Kept.{nothing_kept, event_since};
ghost use Rattle.rx_event.specs.Totals.{item_count, accepted_count, taken_count};
ghost use Rattle.rx_register.specs.State.{IsPromised, greatest_limit};

use rx_event::{Event, History, Mail};
use std::alloc::{AllocError, Global};
use std::collections::VecDeque;
use std::marker::Model;

/// The stored history, what is counted of it, and the notes that were not handed out.
#[derive(Drop)]
pub struct Register {
    history: History,
    limit: u64,
    item_total: u64,
    accepted_total: u64,
    taken_total: u64,
    // How much of the history's room nothing was set aside for. What callers see as room is the rest.
    spare: u64,
    mail: VecDeque<Mail>,
    // How many notes at the front are of written events; those behind are of the next event.
    told: usize,
}

impl Model for Register {
    ghost use Rattle.rx_register.specs.State.{State};

    ghost Value = { State };

    ghost use Rattle.rx_register.specs.Ties.{state_of, IsTied};

    ghost view = { state_of };

    ghost invariant = { IsTied };
}

impl Register {
    /// With no events, and of at most `limit` since the base, which is at most 4,294,967,295. It takes no
    /// memory.
    pub fn new(alloc: Global, limit: u64) -> Self
        requires { limit ≤ greatest_limit }
        ensures base { result.base ≡ nothing_kept }
        ensures history { result.history ≡ [] }
        ensures limit { result.limit ≡ limit }
        ensures room { result.room ≡ 0 }
        ensures given { result.given ≡ 0 }
        ensures pending { result.pending ≡ [] }
    {
        Register {
            history: History::new(alloc, limit),
            limit,
            item_total: 0,
            accepted_total: 0,
            taken_total: 0,
            spare: 0,
            mail: VecDeque::new(alloc),
            told: 0,
        }
    }

    /// What a register promises at every moment, for proofs. It does nothing.
    #[inline(always)]
    pub fn promise(&self)
        ensures { IsPromised self.now }
    {
        let _told = &self.told;
    }

    /// Gets room for so many events in all beyond those that are there, so that writing as many takes
    /// no memory. Refused only where there was less room and memory was refused. No event changes
    /// either way.
    #[inline(always)]
    pub fn reserve(&mut self, events: u64) -> Result<(), AllocError>
        requires { length self.old.history + events ≤ self.old.base.at_length + self.old.limit }
        ensures ok { OnOk result (events ≤ self.new.room) }
        ensures err { OnErr result (self.old.room < events) }
        ensures kept { self.new ≡ record self.old { room = self.new.room } }
        ensures room { self.old.room ≤ self.new.room }
        ensures refused { OnErr result (self.new ≡ self.old) }
    {
        if events <= self.history.room() - self.spare {
            return Ok(());
        }
        match self.history.reserve(events) {
            Ok(()) => {
                self.spare = self.spare.min(self.history.room() - events);
                Ok(())
            }
            Err(_) => Err(AllocError),
        }
    }

    /// How many events there ever were.
    #[inline(always)]
    pub fn len(&self) -> u64
        ensures { result ≡ length self.now.history }
    {
        self.history.len()
    }

    /// The event at a place, if it is one since the base.
    pub fn event(&self, place: u64) -> Option<Event>
        ensures { result ≡ event_since self.now.base self.now.history place }
    {
        self.history.get(place)
    }

    /// How many items were emitted.
    #[inline(always)]
    pub fn items(&self) -> u64
        ensures { result ≡ item_count self.now.base self.now.history }
    {
        self.item_total
    }

    /// How many resources were accepted.
    #[inline(always)]
    pub fn accepted(&self) -> u64
        ensures { result ≡ accepted_count self.now.base self.now.history }
    {
        self.accepted_total
    }

    /// How many resources were taken.
    #[inline(always)]
    pub fn taken(&self) -> u64
        ensures { result ≡ taken_count self.now.base self.now.history }
    {
        self.taken_total
    }
}
