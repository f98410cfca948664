//! What crosses: a command, what it answers, and what there is to do then.

ghost use Rattle.std.specs.Prelude.{◌≡◌};
ghost use Rattle.rx_cellar.specs.Codes.{key_of, key_numbered, no_node};
ghost use Rattle.rx_cellar.specs.Crossings.{what_code, what_of, effect_of, inner_of, no_answer};

use rx_book::Key;
use rx_lanes::LaneName;
use rx_roles::{Effect as Sent, What, carries};

/// The key of a node, a resource or a lease.
#[repr(C)]
#[derive(Clone, Copy)]
pub struct NumberedKey {
    pub slot: u64,
    pub number: u64,
}

/// The key of no node, where a call opened none.
pub fn no_node() -> NumberedKey
    ensures { result ≡ no_node }
{
    NumberedKey { slot: 0, number: 0 }
}

/// The book's key.
pub(crate) fn key_of(node: NumberedKey) -> Key
    ensures { result ≡ key_of node }
{
    Key {
        slot: node.slot,
        number: node.number,
    }
}

/// The key for the caller.
pub(crate) fn node_of(key: Key) -> NumberedKey
    ensures { result ≡ key_numbered key }
{
    NumberedKey {
        slot: key.slot,
        number: key.number,
    }
}

/// A command.
#[repr(C)]
#[derive(Clone, Copy)]
pub struct Command {
    pub what: u8,
    pub place: u8,
    pub kind: u8,
    pub flags: u8,
    pub level: u32,
    pub hub: u64,
    pub node: NumberedKey,
    pub user: u64,
    pub value: u64,
    pub by: u64,
    pub spare: u64,
}

/// Something that the face is to do.
#[repr(C)]
#[derive(Clone, Copy)]
pub struct Effect {
    pub user: u64,
    pub value: u64,
    pub by: u64,
    pub kind: u32,
    pub carries: u32,
}

/// What a command answers, in the caller's memory; and behind that, from `handed` on, room for what its turn is to do now,
/// which no command writes.
#[repr(C)]
#[derive(Clone, Copy)]
pub struct Answer {
    pub node: NumberedKey,
    pub other: NumberedKey,
    pub is_connected: u64,
    pub hub: u64,
    pub copies: u64,
    pub closed: u64,
    pub closings: [u64; 8],
    pub handed: u64,
    pub own: u64,
    pub ticket: u64,
    pub spare: u64,
    pub effect: Effect,
}

impl Answer {
    /// Nothing was done: the counts of a command are 0, and the rest stays as it is.
    pub fn clear(&mut self)
        ensures { self.new ≡ no_answer self.old }
    {
        self.is_connected = 0;
        self.copies = 0;
        self.closed = 0;
    }
}

// The number of what is to be done.
fn what_code(what: What) -> u32
    ensures { result ≡ what_code what }
{
    match what {
        What::Next => 0,
        What::Project => 1,
        What::Completed => 2,
        What::Failed => 3,
        What::Gone => 4,
        What::Release => 5,
        What::Put => 6,
        What::Merged => 7,
    }
}

/// What is to be done, by its number.
pub(crate) fn what_of(code: u32) -> Option<What>
    ensures { result ≡ what_of code }
{
    match code {
        0 => Some(What::Next),
        1 => Some(What::Project),
        2 => Some(What::Completed),
        3 => Some(What::Failed),
        4 => Some(What::Gone),
        5 => Some(What::Release),
        6 => Some(What::Put),
        7 => Some(What::Merged),
        _ => None,
    }
}

/// An effect as it crosses.
pub(crate) fn effect_of(sent: Sent) -> Effect
    ensures { result ≡ effect_of sent }
{
    Effect {
        user: sent.user,
        value: sent.value,
        by: sent.by,
        kind: what_code(sent.what),
        carries: if carries(sent.what) { 1 } else { 0 },
    }
}

/// An effect of a lane that comes back.
pub(crate) fn inner_of(lane: LaneName, effect: Effect) -> Option<Sent>
    ensures { result ≡ inner_of lane effect }
{
    match what_of(effect.kind) {
        Some(what) => Some(Sent {
            lane,
            user: effect.user,
            value: effect.value,
            by: effect.by,
            what,
        }),
        None => None,
    }
}
