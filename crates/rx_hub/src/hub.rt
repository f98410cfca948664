//! A hub, and how a connection ended.

use rx_event::Mode;
use rx_note::Terminal;
use rx_slots::Key;

/// How a hub's connection ended that ended by itself.
#[derive(Clone, Copy)]
pub struct LastEnd {
    /// The place of its End in the history. A subscriber that is older ends in the same way.
    pub place: u64,
    /// Whether it completed or failed.
    pub terminal: Terminal,
}

/// A published observable, without its subscribers.
#[derive(Clone, Copy)]
pub struct Published {
    /// The place of the event that made it.
    pub number: u64,
    /// Whether it connects by itself (RefCount) or by hand (Connect).
    pub mode: Mode,
    /// The key of its open connection, if it has one.
    pub connection: Option<Key>,
    /// How the last of its connections ended that ended by itself.
    pub last_end: Option<LastEnd>,
}

/// What a hub has to do.
#[derive(Clone, Copy)]
pub enum HubDue {
    /// The hub of this number connects.
    Connect(u64),
    /// The subscriber of this key ends in this way.
    End(Key, Terminal),
    /// The connection of this key closes.
    Close(Key),
}
