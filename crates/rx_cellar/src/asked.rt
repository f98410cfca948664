//! What a command asks, by its numbers.

ghost use Rattle.std.specs.Prelude.{◌≡◌, true};
ghost use Rattle.rx_engine.specs.Openings.{connects_none};
ghost use Rattle.rx_cellar.specs.Asking.{asked_of, kind_of, opened_as, user_of, lane_asked, share_of, res_of, lease_of};
ghost use Rattle.rx_cellar.specs.Asking.{by_code, opening_of, using_of, connect_of, put_of, next_of, plain_of, is_emission};
ghost use Rattle.rx_cellar.specs.Codes.{place_at};
ghost use Rattle.rx_cellar.specs.Frequent.{opening_in, has_no_flags};

use crate::shapes::{Command, NumberedKey, key_of};
use rx_book::{At, Key, Kind, LeaseKey, Mode, ResKey};
use rx_engine::{LaneOf, User};
use rx_pool::Share;

/// A kind that is no subscriber of a hub.
#[derive(Clone, Copy)]
pub enum OwnKind {
    Leaf,
    Pass,
    Flat,
    Switch,
    Until,
}

/// How a node is opened.
#[derive(Clone, Copy)]
pub enum OpenedAs {
    Own(OwnKind),
    /// As a subscriber of this share.
    Of(Share),
}

/// An item that is handed out: its leaf and its value.
#[derive(Clone, Copy)]
pub(crate) struct Item {
    pub(crate) leaf: Key,
    pub(crate) value: u64,
}

/// What an opening says beside its kind.
#[derive(Clone, Copy)]
pub(crate) struct Opening {
    pub(crate) at: At,
    pub(crate) user: User,
}

/// What a command asks.
#[derive(Clone, Copy)]
pub enum Asked {
    Open(At, OwnKind, User),
    /// Of this share, with the place of its hub as a hint.
    Subscribe(At, Share, u64, User),
    /// With this tag.
    Using(At, User, u64),
    Hold(Key, u64),
    /// With this value; whether the first effect is handed out.
    Next(Key, u64, bool),
    Complete(Key),
    Error(Key, u64),
    Fail(Key, u64),
    Decline(Key),
    Dispose(Key),
    Connect(Share, u64, User),
    /// The share of this word.
    Disconnect(u64, u64),
    /// This effect's word and value.
    Put(LaneOf, u64, u64),
    Shut,
    Abort(Key, u64),
    Apply(ResKey),
    Remove(ResKey),
    Lease(ResKey),
    GiveBack(LeaseKey),
}

/// The kind that the book has.
pub(crate) fn kind_of(kind: OwnKind) -> Kind
    ensures kind { result ≡ kind_of kind }
    ensures own { connects_none result ≡ true }
{
    match kind {
        OwnKind::Leaf => Kind::Leaf,
        OwnKind::Pass => Kind::Pass,
        OwnKind::Flat => Kind::Flat,
        OwnKind::Switch => Kind::Switch,
        OwnKind::Until => Kind::Until,
    }
}

// The place of this code: 0 root, 1 source, 2 inner, 3 notifier of that node.
fn place_at(code: u8, above: NumberedKey) -> Option<At>
    ensures { result ≡ place_at code above }
{
    match code {
        0 => Some(At::Root),
        1 => Some(At::Source(key_of(above))),
        2 => Some(At::Inner(key_of(above))),
        3 => Some(At::Notifier(key_of(above))),
        _ => None,
    }
}

// The share of a command.
#[inline(always)]
fn share_of(command: &Command, mode: Mode) -> Share
    ensures { result ≡ share_of command.now mode }
{
    Share {
        word: command.value,
        mode,
        level: command.level,
    }
}

/// How a node is opened.
#[inline(always)]
pub(crate) fn opened_as(command: &Command) -> Option<OpenedAs>
    ensures { result ≡ opened_as command.now }
{
    match command.kind {
        0 => Some(OpenedAs::Own(OwnKind::Leaf)),
        1 => Some(OpenedAs::Own(OwnKind::Pass)),
        2 => Some(OpenedAs::Own(OwnKind::Flat)),
        3 => Some(OpenedAs::Own(OwnKind::Switch)),
        4 => Some(OpenedAs::Own(OwnKind::Until)),
        5 => Some(OpenedAs::Of(share_of(command, Mode::Auto))),
        6 => Some(OpenedAs::Of(share_of(command, Mode::Manual))),
        _ => None,
    }
}

// Whose lane a root has, by the flags for that.
#[inline(always)]
fn lane_asked(code: u8, node: NumberedKey) -> Option<Option<LaneOf>>
    ensures { result ≡ lane_asked code node }
{
    match code {
        0 => Some(None),
        1 => Some(Some(LaneOf::Node(key_of(node)))),
        3 => Some(Some(LaneOf::Projections(key_of(node)))),
        _ => None,
    }
}

// What the face says of a node that it opens.
#[inline(always)]
fn user_of(command: &Command) -> Option<User>
    ensures { result ≡ user_of command.now }
{
    // Most commands wish at most.
    if command.flags < 2 {
        return Some(User {
            word: command.user,
            lane: None,
            wished: command.flags == 1,
        });
    }
    if command.place != 0 {
        return None;
    }
    let lane = lane_asked(command.flags / 2, command.node)?;
    Some(User {
        word: command.user,
        lane,
        wished: command.flags % 2 == 1,
    })
}

// An opening.
#[inline(always)]
fn opening_of(command: &Command) -> Option<Asked>
    ensures { result ≡ opening_of command.now }
{
    let at = place_at(command.place, command.node)?;
    let user = user_of(command)?;
    match opened_as(command)? {
        OpenedAs::Own(kind) => Some(Asked::Open(at, kind, user)),
        OpenedAs::Of(share) => Some(Asked::Subscribe(at, share, command.hub, user)),
    }
}

// An opening with a resource.
#[inline(always)]
fn using_of(command: &Command) -> Option<Asked>
    ensures { result ≡ using_of command.now }
{
    let at = place_at(command.place, command.node)?;
    let user = user_of(command)?;
    Some(Asked::Using(at, user, command.value))
}

// An item.
#[inline(always)]
fn next_of(command: &Command) -> Option<Asked>
    ensures { result ≡ next_of command.now }
{
    match command.flags {
        0 => Some(Asked::Next(key_of(command.node), command.value, true)),
        8 => Some(Asked::Next(key_of(command.node), command.value, false)),
        _ => None,
    }
}

// A connection by hand.
#[inline(always)]
fn connect_of(command: &Command) -> Option<Asked>
    ensures { result ≡ connect_of command.now }
{
    if command.flags > 1 {
        return None;
    }
    let user = User {
        word: command.user,
        lane: None,
        wished: command.flags == 1,
    };
    Some(Asked::Connect(share_of(command, Mode::Manual), command.hub, user))
}

// An effect of the face's own.
#[inline(always)]
fn put_of(command: &Command) -> Option<Asked>
    ensures { result ≡ put_of command.now }
{
    let key = key_of(command.node);
    match command.flags {
        0 => Some(Asked::Put(LaneOf::Node(key), command.user, command.value)),
        4 => Some(Asked::Put(LaneOf::Projections(key), command.user, command.value)),
        _ => None,
    }
}

fn res_of(node: NumberedKey) -> ResKey
    ensures { result ≡ res_of node }
{
    ResKey {
        slot: node.slot,
        number: node.number,
    }
}

fn lease_of(node: NumberedKey) -> LeaseKey
    ensures { result ≡ lease_of node }
{
    LeaseKey {
        slot: node.slot,
        number: node.number,
    }
}

// A command that has no flags.
#[inline(always)]
fn plain_of(command: &Command) -> Option<Asked>
    ensures { result ≡ plain_of command.now }
{
    let key = key_of(command.node);
    match command.what {
        2 => Some(Asked::Hold(key, command.value)),
        4 => Some(Asked::Complete(key)),
        5 => Some(Asked::Error(key, command.value)),
        6 => Some(Asked::Fail(key, command.value)),
        7 => Some(Asked::Decline(key)),
        8 => Some(Asked::Dispose(key)),
        10 => Some(Asked::Disconnect(command.value, command.hub)),
        12 => Some(Asked::Shut),
        13 => Some(Asked::Abort(key, command.value)),
        14 => Some(Asked::Apply(res_of(command.node))),
        15 => Some(Asked::Remove(res_of(command.node))),
        16 => Some(Asked::Lease(res_of(command.node))),
        17 => Some(Asked::GiveBack(lease_of(command.node))),
        _ => None,
    }
}

// By its first number.
#[inline(always)]
fn by_code(command: &Command) -> Option<Asked>
    ensures { result ≡ by_code command.now }
{
    match command.what {
        0 => opening_of(command),
        1 => using_of(command),
        3 => next_of(command),
        9 => connect_of(command),
        11 => put_of(command),
        _ => {
            if command.flags == 0 {
                plain_of(command)
            } else {
                None
            }
        }
    }
}

/// Whether a command is an item that is to be handed out: found before the rest of the command is read.
#[inline(always)]
pub(crate) fn is_emission(command: &Command) -> bool
    ensures { result ≡ is_emission command.now }
{
    command.what == 3 && command.flags == 0 && command.spare == 0
}

/// What a command asks; nothing where a number of it is none of its enum, a flag is one that it does not have, or
/// the spare field is not 0.
#[inline(always)]
pub fn asked_of(command: &Command) -> Option<Asked>
    ensures { result ≡ asked_of command.now }
{
    if command.spare == 0 {
        by_code(command)
    } else {
        None
    }
}

/// What an opening says beside its kind; nothing where the command is none.
#[inline(always)]
pub(crate) fn opening_in(command: &Command) -> Option<Opening>
    ensures { result ≡ opening_in command.now }
{
    if command.spare != 0 {
        return None;
    }
    let at = place_at(command.place, command.node)?;
    let user = user_of(command)?;
    Some(Opening { at, user })
}

/// Whether a command has no flags and nothing to spare.
#[inline(always)]
pub(crate) fn has_no_flags(command: &Command) -> bool
    ensures { result ≡ has_no_flags command.now }
{
    command.flags == 0 && command.spare == 0
}
