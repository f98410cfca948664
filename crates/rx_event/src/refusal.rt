//! Why a call changes nothing.

use std::error::Error;
use std::fmt::{self, Display, Formatter, Write};

/// Why a call was refused. A refused call changes nothing, and gives back what was handed in.
/// Where several causes stand, the first in this order is given: `NoHub`, `Gone`, `WrongKind`,
/// `PlaceTaken`, `NothingOwed`, `NotRoot`, `HubOrder`, `Connected`, `NotConnected`, `NotFresh`,
/// `NoLease`, `NotHeld`, `Leased`, `HasChild`, `MailLeft`, `TooMany`, `Full`, `NoMemory`.
#[derive(Clone, Copy, Debug, PartialEq, Eq)]
pub enum Refusal {
    /// Memory was asked for and refused, or a store has 536,870,912 entries.
    NoMemory,
    /// The history would pass its limit, with what closing everything needs counted in.
    Full,
    /// The key's node is not open.
    Gone,
    /// The node's or hub's kind does not take the call.
    WrongKind,
    /// The source's or notifier's place was opened before.
    PlaceTaken,
    /// No projected item waits for its inner observable.
    NothingOwed,
    /// The node is not a root, or it is a connection.
    NotRoot,
    /// No hub has that number.
    NoHub,
    /// A subscriber of a hub would stand inside a connection of the same hub or an earlier one.
    HubOrder,
    /// The hub has an open connection.
    Connected,
    /// The hub has no open connection.
    NotConnected,
    /// The resource was released, or used, before it was handed in.
    NotFresh,
    /// The resource is not held.
    NotHeld,
    /// The node has an open child.
    HasChild,
    /// A limit of nodes, of hubs, of an item's visits or of places would be passed.
    TooMany,
    /// The lease was given back, or never was.
    NoLease,
    /// The resource is held by leases alone: its node closed, or it was removed.
    Leased,
    /// Notes were not handed out yet.
    MailLeft,
}

impl Refusal {
    // What an error's text says of the refusal.
    fn sentence(self) -> &'static str {
        match self {
            Refusal::NoMemory => "memory was refused",
            Refusal::Full => "the history has no room left for the call and for closing everything",
            Refusal::Gone => "no open node has this key",
            Refusal::WrongKind => "the node or hub is not of a kind that takes the call",
            Refusal::PlaceTaken => "that place was opened before",
            Refusal::NothingOwed => "no projected item waits for an inner observable",
            Refusal::NotRoot => "the node is not a root",
            Refusal::NoHub => "no hub has this number",
            Refusal::HubOrder => {
                "the subscriber would stand inside a connection of its own hub or an earlier one"
            }
            Refusal::Connected => "the hub is connected",
            Refusal::NotConnected => "the hub is not connected",
            Refusal::NotFresh => "the resource was released or used before",
            Refusal::NotHeld => "no held resource has this key",
            Refusal::HasChild => "a node below is open",
            Refusal::TooMany => "a limit of nodes, hubs, visits or places would be passed",
            Refusal::NoLease => "no lease that is out has this key",
            Refusal::Leased => "the resource is held by leases alone",
            Refusal::MailLeft => "notes were not handed out yet",
        }
    }
}

impl Display for Refusal {
    fn fmt<W: Write>(&self, f: &mut Formatter<W>) -> fmt::Result {
        f.write_str(self.sentence())
    }
}

impl Error for Refusal {}
