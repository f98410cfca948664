//! What the past and one pass over the events since it tell.

ghost use Rattle.std.specs.Prelude.{◌≡◌, ℕ, ◌+◌, ◌<◌, cond, length, unwrap_or, IfOk, OnOk};
ghost use Rattle.std.specs.Bool.{nat_eq};
ghost use Rattle.std.specs.List.{list_any};
ghost use Rattle.std.specs.HashMap.{get, values, IsUnique};
ghost use Rattle.rx_event.specs.Events.{is_use_of};
ghost use Rattle.rx_listing.specs.Recalled.{connection_after, connection_by, uses_by, IsCountable};

use crate::counts::{Counts, count, keep};
use crate::known::Known;
use crate::recent::since;
use rx_book::{Book, Event, Resource};
use std::alloc::AllocError;

/// How often each resource was used, and the hub of each connection that is open.
pub struct Seen {
    pub uses: Counts,
    pub connections: Counts,
}

// Written out, so that where one is let go there is one call to prove, and not the drop of each field in turn.
impl Drop for Seen {
    fn drop(self) {
        let Seen {
            uses: _uses,
            connections: _connections,
        } = self;
    }
}

impl Seen {
    /// The hub of each connection that is open.
    pub fn into_connections(self) -> Counts
        ensures { result ≡ self.connections }
    {
        let Seen {
            uses: _uses,
            connections,
        } = self;
        connections
    }

    // Takes in the event at a place. A connection stands below no node, so that it is open until an event of its
    // own.
    fn see(&mut self, place: u64, event: Event) -> Result<(), AllocError>
        ensures uses { OnOk result ((r : ℕ) → unwrap_or (get nat_eq self.old.uses r) 0 < 18446744073709551615 →
            unwrap_or (get nat_eq self.new.uses r) 0 ≡
            unwrap_or (get nat_eq self.old.uses r) 0 + cond (is_use_of r event) 1 0) }
        ensures connections { OnOk result ((c : ℕ) →
            get nat_eq self.new.connections c ≡ connection_after place event c (get nat_eq self.old.connections c)) }
    {
        match event {
            Event::Use(res) => count(&mut self.uses, res),
            Event::Connect(hub) => keep(&mut self.connections, place, hub),
            Event::End(node, _) => {
                self.connections.remove(&node);
                Ok(())
            }
            Event::Close(node) => {
                self.connections.remove(&node);
                Ok(())
            }
            _ => Ok(()),
        }
    }

    /// No connection is kept twice, for proofs. It does nothing.
    pub fn promise(&self)
        ensures { IsUnique nat_eq self.now.connections }
    {
        let _hubs = self.connections.values();
    }

    /// Whether a hub has an open connection.
    pub fn is_connected(&self, hub: u64) -> bool
        ensures { result ≡ list_any (λ one. nat_eq one hub) (values self.now.connections) }
    {
        self.connections.values().any(|one| *one == hub)
    }
}

/// What the past and the events since tell.
pub fn seen_of<R: Resource>(book: &Book<R>, known: &Known) -> Result<Seen, AllocError>
    ensures uses { IfOk result (λ s. (r : ℕ) → IsCountable book.now known.now.past.now r →
        unwrap_or (get nat_eq s.uses r) 0 ≡ uses_by book.now known.now.past.now (length book.now.history) r) }
    ensures connections { IfOk result (λ s. (c : ℕ) →
        get nat_eq s.connections c ≡ connection_by book.now known.now.past.now (length book.now.history) c) }
{
    book.promise();
    let mut seen = known.past.begin()?;
    'places: for place in since(book)..book.len() {
        if let Some(event) = book.event(place) {
            seen.see(place, event)?;
        }
    }
    Ok(seen)
}
