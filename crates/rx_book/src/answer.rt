//! What calls of the book are asked and answer.

use rx_event::Refusal;
use rx_ground::LeaseKey;
use rx_tree::{Key, ResKey};

/// Where a node is to be opened, by the key of the node above it.
#[derive(Clone, Copy, Debug, PartialEq, Eq)]
pub enum At {
    /// Below no node: an observer outside subscribes.
    Root,
    /// The source of a mirroring node, a FlatMap, a Switch or a TakeUntil, of which there is at most one,
    /// ever.
    Source(Key),
    /// An inner observable of a FlatMap or a Switch, for an item that was projected to it. A FlatMap has
    /// any number; of a Switch the latest alone is open.
    Inner(Key),
    /// The notifier of a TakeUntil, of which there is at most one, ever: an item that reaches it fires
    /// the TakeUntil, which then ends completed, and so does its completion; its error ends it likewise.
    Notifier(Key),
}

/// A node was opened, and a hub was connected with it where that was forced (RefCount).
#[derive(Clone, Copy, Debug, PartialEq, Eq)]
pub struct Opened {
    /// The node's key.
    pub key: Key,
    /// The key of the connection that came with it, which is open until its hub disconnects; None where
    /// none was forced.
    pub connected: Option<Key>,
}

/// A node was opened with a resource (Using).
#[derive(Clone, Copy, Debug, PartialEq, Eq)]
pub struct OpenedUsing {
    /// The node's key.
    pub key: Key,
    /// The resource's key; its number is the one after the node's.
    pub res: ResKey,
}

/// What an accepted [`Call`](crate::Call) gives.
#[derive(Clone, Copy, Debug)]
pub enum Answer {
    /// The place of the call's event, which is the number of a hub that was made.
    Place(u64),
    /// The node that was opened.
    Opened(Opened),
    /// The key of the connection that was made by hand.
    Connected(Key),
    /// The key of the lease.
    Leased(LeaseKey),
    /// The resource's own word.
    Word(u64),
}

/// A node was opened that holds a resource from then on.
#[derive(Clone, Copy, Debug, PartialEq, Eq)]
pub struct OpenedHolding {
    /// The node, and the connection that came with it.
    pub opened: Opened,
    /// The resource's key.
    pub res: ResKey,
}

/// A resource that was handed in and comes back, with the cause.
#[derive(Debug, Drop)]
pub struct Refused<R> {
    /// The first cause that stood against the call.
    pub why: Refusal,
    /// The resource, as it came.
    pub back: R,
}
