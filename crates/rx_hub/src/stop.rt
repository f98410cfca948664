//! Where an item stops.

use rx_tree::Key;

/// Where an item stops inside one tree, with the key of the node (Observable Contract; FlatMap,
/// Switch, TakeUntil; Publish).
#[derive(Clone, Copy)]
pub enum Stop {
    /// A root, whose observer is told the item.
    Delivery(Key),
    /// A FlatMap or Switch, which the item reached from its source: it is projected.
    Projection(Key),
    /// A TakeUntil, which the item reached from its notifier: it fires.
    Firing(Key),
    /// A connection, from which the item goes on to the subscribers of its hub.
    Connection(Key),
}

/// The end of an item's way inside one tree.
#[derive(Clone, Copy)]
pub struct Reached {
    /// Where it stops; None where its way was cut off, one visit after the most that an item may make.
    pub stop: Option<Stop>,
    /// The hub of the connection at which it stops; None where it stops elsewhere.
    pub hub: Option<u64>,
    /// How many nodes it visits, the first and the last among them: 1 to 1,048,577.
    pub visits: u64,
}
