//! What may happen, and where.

mod done;
mod kinds;
mod made;
mod places;
mod same;

use rx_note::Terminal;

/// Where a node is opened. Each number is the number of the node above.
#[derive(Clone, Copy, Debug, PartialEq, Eq)]
pub enum Place {
    /// Below no node: an observer outside subscribes.
    Root,
    /// The source of a node, of which there is at most one.
    Source(u64),
    /// An inner observable of a FlatMap or a Switch, of which there may be many.
    Inner(u64),
    /// The notifier of a TakeUntil, of which there is at most one.
    Notifier(u64),
}

/// What a node does with what reaches it.
#[derive(Clone, Copy, Debug, PartialEq, Eq)]
pub enum Kind {
    /// A source that a caller drives. Nothing stands below it.
    Leaf,
    /// It mirrors its source. A Using node is one, with a resource.
    Pass,
    /// FlatMap: each item of its source is projected to an inner observable.
    Flat,
    /// Switch: as FlatMap, and it mirrors the latest inner alone.
    Switch,
    /// TakeUntil: it mirrors its source until its notifier emits or ends.
    Until,
    /// A subscriber of the hub of this number. Nothing stands below it.
    Sub(u64),
}

/// How a hub, which is a published observable, is connected.
#[derive(Clone, Copy, Debug, PartialEq, Eq)]
pub enum Mode {
    /// RefCount: connected exactly while it has subscribers.
    Auto,
    /// Connect: connected and disconnected by a caller.
    Manual,
}

/// What may happen. Each event has a place in the history, from 0; a node, a hub, a resource and
/// a lease are numbered by the place of the event that made them.
#[derive(Clone, Copy, Debug, PartialEq, Eq)]
pub enum Event {
    /// A node is opened.
    Open { place: Place, kind: Kind },
    /// A hub is made.
    Hub(Mode),
    /// A connection of this hub is opened, which is a node.
    Connect(u64),
    /// A resource is held at a node: the node, then the resource's tag.
    Accept(u64, u64),
    /// A resource is used.
    Use(u64),
    /// A resource is removed from its node before that closes.
    Remove(u64),
    /// A lease of a resource is given out, which keeps it held.
    Lease(u64),
    /// A lease is given back.
    Return(u64),
    /// A leaf emits an item.
    Item(u64, i64),
    /// A FlatMap's or Switch's projected item gets no inner observable.
    Decline(u64),
    /// A node ends by itself.
    End(u64, Terminal),
    /// A node is unsubscribed or disconnected.
    Close(u64),
    /// A resource is handed out for its release.
    Take(u64),
}
