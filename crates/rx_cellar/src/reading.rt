//! What an engine has, and its history.

ghost use Rattle.std.specs.Prelude.{◌≡◌, ◌≢◌, string_bytes, IfOk, MatchOption};
ghost use Rattle.rx_dump.specs.Dump.{dump};
ghost use Rattle.rx_engine.specs.LettingGo.{is_over};
ghost use Rattle.rx_cellar.specs.Readings.{totals_of, IsEventTold, no_totals};

use crate::cellar::Cellar;
use crate::dumping::{dump_of, event_of, no_event};
use crate::status::{DONE, NOTHING_WAITS};
use std::alloc::{AllocError, Global};

/// What there is.
#[repr(C)]
#[derive(Clone, Copy)]
pub struct Totals {
    pub nodes: u64,
    pub held: u64,
    pub waiting: u64,
    pub leases: u64,
    pub accepted: u64,
    pub taken: u64,
    pub events: u64,
    pub effects: u64,
}

/// An event of the history.
#[repr(C)]
#[derive(Clone, Copy)]
pub struct Event {
    pub what: u8,
    pub place: u8,
    pub kind: u8,
    pub how: u8,
    pub spare: u32,
    pub of: u64,
    pub other: u64,
    pub value: i64,
}

/// Nothing is there.
pub fn no_totals() -> Totals
    ensures { result ≡ no_totals }
{
    Totals {
        nodes: 0,
        held: 0,
        waiting: 0,
        leases: 0,
        accepted: 0,
        taken: 0,
        events: 0,
        effects: 0,
    }
}

impl Cellar {
    /// What there is.
    pub fn totals(&self) -> Totals
        ensures { result ≡ totals_of self.now }
    {
        let book = self.engine.book();
        Totals {
            nodes: book.open_count(),
            held: book.held(),
            waiting: book.taken().saturating_sub(self.released),
            leases: book.leases(),
            accepted: book.accepted(),
            taken: self.released,
            events: book.len(),
            effects: self.engine.lanes().waiting(),
        }
    }

    /// The event at a place, if it is one since the last checkpoint.
    pub fn event(&self, place: u64, event: &mut Event) -> u8
        ensures { IsEventTold place self.now event.new result }
    {
        match self.engine.book().event(place) {
            Some(there) => {
                *event = event_of(there);
                DONE
            }
            None => {
                *event = no_event();
                NOTHING_WAITS
            }
        }
    }

    /// The dump of the history, or None where a checkpoint took events away.
    pub fn dump(&self, alloc: Global) -> Result<Option<String>, AllocError>
        ensures { IfOk result (λ text. MatchOption text (self.now.engine.book.base.at_length ≢ 0)
            (λ t. (self.now.engine.book.base.at_length ≡ 0) × (string_bytes t ≡ dump self.now.engine.book.history))) }
    {
        dump_of(self.engine.book(), alloc)
    }

    /// Whether nothing is open, held or leased, and no effect waits.
    pub fn is_done(&self) -> bool
        ensures { result ≡ is_over self.now.engine }
    {
        self.engine.is_done()
    }
}
