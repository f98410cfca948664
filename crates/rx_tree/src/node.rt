//! The record of an open node, and a resource in the store.

use rx_event::Event;
use rx_marks::Marks;
use rx_slots::Key;

/// The record of an open node.
#[derive(Clone, Copy)]
pub struct Node {
    /// The Open or Connect that made it.
    pub made: Event,
    /// The key of the node that it stands below, if it stands below one.
    pub above: Option<Key>,
    /// What it remembers of what happened below it.
    pub marks: Marks,
}

/// A resource in the store.
#[derive(Drop)]
pub struct Stowed<R: Drop> {
    /// The key of the node that it came to be held at.
    pub node: Key,
    /// Whether it was removed from there.
    pub removed: bool,
    /// How many leases of it are out.
    pub leases: u64,
    /// The resource itself.
    pub resource: R,
}

/// The key of a resource: its slot in the store of resources, and the number of its acceptance.
#[derive(Clone, Copy, Debug, PartialEq, Eq)]
pub struct ResKey {
    /// The slot, from 0 on.
    pub slot: u64,
    /// The number that the caller gave to `hold`.
    pub number: u64,
}
