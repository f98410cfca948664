//! What is drawn of one node, hub, resource or lease.

use rx_event::{Event, Terminal};

/// How a node's line ends.
#[derive(Clone, Copy)]
pub enum Ending {
    /// It does not: the node is open after the last event.
    Lasting,
    /// The node ended by itself.
    Ended(Terminal),
    /// The node was unsubscribed, or went with a node above it.
    Disposed,
}

/// Where what is drawn begins and ends. Each number is a place of the history, or the history's
/// length where nothing ends it.
#[derive(Clone, Copy)]
pub enum Shape {
    /// A node, which is open after the event that made it and before the event at `until`. Where
    /// `until` is its own number it was never open.
    Node {
        until: u64,
        ending: Ending,
    },
    /// A hub, which nothing ends.
    Hub,
    /// A resource, which its node owns after the event at `owned_after` and before the one at
    /// `owned_until`, and which the one at `taken` hands out. Between them, and until it is taken, it
    /// waits, but where a lease of it is out.
    Resource {
        owned_after: u64,
        owned_until: u64,
        taken: u64,
    },
    /// A lease of this resource, which is out after the event that gave it and before the one at
    /// `until`.
    Loan {
        resource: u64,
        until: u64,
    },
}

/// What is drawn of one node, hub, resource or lease. The row of a lease lies in the track of its
/// resource, every other in a track of its own.
#[derive(Clone, Copy)]
pub struct Row {
    /// Its number, which is the place of the event that made it.
    pub number: u64,
    /// The event that made it.
    pub made: Event,
    /// Where it begins and ends.
    pub shape: Shape,
}
