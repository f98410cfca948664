//! The limits of every history, as numbers for the code; `specs/` defines them.

/// How many visits of nodes one item may make.
pub const MOST_VISITS: u64 = 1_048_576;

/// The greatest number of nodes that are open at once.
pub const MOST_NODES: u64 = 1_048_576;

/// The greatest number of hubs.
pub const MOST_HUBS: u64 = 1_024;
