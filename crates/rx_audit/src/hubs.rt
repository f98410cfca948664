//! What is kept of the hubs.

ghost use Rattle.std.specs.Prelude.{◌≡◌, ◌<◌, ◌∷◌, ◌++◌, IfOk};
ghost use Rattle.rx_audit.specs.Imports.{nothing_kept, [], length, IsLawful, MayFollow};
ghost use Rattle.rx_audit.specs.HubTables.{AreHubs};
ghost use Rattle.rx_audit.specs.Rules.{hub_ended};
ghost use Rattle.rx_audit.specs.Verdict.{most_judged};

use crate::children::{one_more, put, zeros};
use crate::marks::one_if;
use crate::subscribers::hub_connected_at;
use rx_event::Event;
use std::alloc::{AllocError, Global};

/// Lists by the number of a hub: each says one more than the number of an event, and 0 where there is
/// none.
pub struct Hubs {
    /// Its last connection.
    pub connection: Vec<u32>,
    /// The last end of a connection of it.
    pub ended: Vec<u32>,
    /// The hub that may wait for its connection (RefCount).
    pub waiting: Option<u64>,
    /// How many hubs there are.
    pub count: usize,
}

// Written out, so that where they are let go there is one call to prove, and not the drop of each list in turn.
impl Drop for Hubs {
    fn drop(self) {
        let Hubs {
            connection: _connection,
            ended: _ended,
            waiting: _,
            count: _,
        } = self;
    }
}

/// There are no hubs, with room for this many events.
pub fn no_hubs(alloc: Global, size: usize) -> Result<Hubs, AllocError>
    ensures { IfOk result (AreHubs [] size) }
{
    Ok(Hubs {
        connection: zeros(alloc, size)?,
        ended: zeros(alloc, size)?,
        waiting: None,
        count: 0,
    })
}

/// The hub whose connection the event ends.
pub fn hub_ended(past: &[Event], event: Event) -> Option<u64>
    ensures { result ≡ hub_ended past.now event }
{
    match event {
        Event::End(c, _) => hub_connected_at(past, c),
        _ => None,
    }
}

/// Notes what the event does to hubs.
pub fn note_hubs(past: &[Event], event: Event, known: &mut Hubs)
    requires lawful { IsLawful nothing_kept past.now }
    requires next { MayFollow nothing_kept past.now event }
    requires known { AreHubs past.now (length known.old.connection.items) known.old }
    requires room { length past.now < length known.old.connection.items }
    requires short { length past.now < most_judged }
    ensures { AreHubs (past.now ++ event ∷ []) (length known.old.connection.items) known.new }
{
    let next = one_more(past.len());
    put(&mut known.connection, event.connects(), next);
    put(&mut known.ended, hub_ended(past, event), next);
    known.waiting = event.subscribes_to().or(known.waiting);
    known.count += one_if(event.makes_hub());
}
