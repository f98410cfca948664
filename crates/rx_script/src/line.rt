//! What a report's lines show.

/// Where a resource is.
#[derive(Clone, Copy)]
pub enum Whereabouts {
    /// Its node is open and it was not removed from there, or a lease of it is out.
    Held,
    /// It is held no more, and it is not yet released.
    Waiting,
    /// It was handed out for its release.
    Taken,
}

/// A resource: its tag, how often it was used, where it is, and how many leases of it are out.
#[derive(Clone, Copy)]
pub struct Account {
    pub tag: u64,
    pub uses: u64,
    pub whereabouts: Whereabouts,
    pub leases: u64,
}

/// Counts over all that happened.
#[derive(Clone, Copy)]
pub struct Totals {
    /// The nodes that were made.
    pub nodes: u64,
    /// Those of them that are open.
    pub open_nodes: u64,
    /// The resources that were accepted.
    pub accepted: u64,
    /// Those of them that are held.
    pub held: u64,
    /// Those of them that wait for their release.
    pub waiting: u64,
    /// Those of them that were handed out for it.
    pub taken: u64,
}
