//! What a caller counts for the register.

/// What is open, and what its closing may need.
#[derive(Clone, Copy)]
pub struct Load {
    /// How many nodes are open.
    pub open: u64,
    /// How many events closing everything may still need: one for each open node, two for each
    /// resource that its node owns, which are its removal and its taking, one for each resource that
    /// leases alone hold or that waits, one for each lease that is out, and one for each projected
    /// item that an open FlatMap or Switch owes.
    pub debt: u64,
}
