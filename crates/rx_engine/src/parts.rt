//! What an engine keeps beside its book: roles, the effects of the command that is being done, and lanes.

ghost use Rattle.std.specs.Prelude.{◌≡◌, ◌+◌, ◌<◌, ◌≤◌, ◌^◌, IfSome, IsTrue};
ghost use Rattle.rx_engine.specs.Rooms.{role_count, name_count, IsReady, IsRoomier, HasRoomFor, HasRoomToEnter};

use crate::homes::LaneOf;
use rx_book::{Key, ResKey};
use rx_lanes::Lanes;
use rx_pool::Shares;
use rx_roles::{Effect, Effects, Roles};

/// What the face says of a node that it opens.
#[derive(Clone, Copy)]
pub struct User {
    /// Its word for the node.
    pub word: u64,
    /// Of a root: whose lane it has, or a new one.
    pub lane: Option<LaneOf>,
    /// Whether its word stands among the closings of the command that closes the node.
    pub wished: bool,
}

/// What was opened, and what it holds.
#[derive(Clone, Copy)]
pub struct Used {
    pub key: Key,
    pub res: ResKey,
}

/// Who is in which lane, who hears, who projects, what is released for each resource, and the effects that wait.
#[derive(Drop)]
pub struct Parts {
    /// Of each open node: its lane, and as its word the limit of a share below it.
    pub homes: Roles,
    /// Of each open root.
    pub hears: Roles,
    /// Of each open FlatMap or Switch.
    pub merges: Roles,
    /// Of each resource that was accepted and not taken.
    pub holds: Roles,
    /// The hubs, and which of them each open subscriber and connection names.
    pub shares: Shares,
    /// Those of the command that is being done; none between commands.
    pub effects: Effects,
    /// Those that wait.
    pub lanes: Lanes<Effect>,
    /// How many effects of the last accepted command carry its value.
    pub copies: u64,
}

// So many, where no more than a lane can count would name it.
fn where_few(names: usize, many: usize) -> Option<usize>
    ensures same { IfSome result (λ n. n ≡ many) }
    ensures few { IfSome result (λ n. names < 2 ^ 63) }
{
    if names as u64 >= 9_223_372_036_854_775_808 {
        None
    } else {
        Some(many)
    }
}

impl Parts {
    // An effect for each role, and so many more.
    fn wanted(&self, more: u64) -> Option<usize>
        ensures sum { IfSome result (λ n. n ≡ role_count self.now + more) }
        ensures few { IfSome result (λ n. name_count self.now + more < 2 ^ 63) }
    {
        let ears = self.hears.len().checked_add(self.merges.len())?;
        let roles = ears.checked_add(self.holds.len())?;
        let many = roles.checked_add(more as usize)?;
        where_few(many.checked_add(self.homes.len())?, many)
    }

    /// For how many effects there is room beside the last one of each role.
    #[inline(always)]
    pub(crate) fn spare(&self) -> usize
        requires ready { IsReady 0 self.now }
        ensures room { role_count self.now + result ≤ self.now.effects.room }
        ensures spare { role_count self.now + result ≤ self.now.lanes.spare }
    {
        let on_their_way = self.effects.room();
        let in_lanes = self.lanes.spare();
        let roles = self.hears.len() + self.merges.len() + self.holds.len();
        if on_their_way < in_lanes {
            on_their_way - roles
        } else {
            in_lanes - roles
        }
    }

    // Gets room for so many effects, on their way and in lanes.
    #[inline(always)]
    fn reserve_both(&mut self, many: usize) -> bool
        ensures same { IsRoomier self.old self.new }
        ensures room { IsTrue result → many ≤ self.new.effects.room }
        ensures spare { IsTrue result → many ≤ self.new.lanes.spare }
    {
        if self.effects.reserve(many).is_err() {
            return false;
        }
        self.lanes.reserve(many, 0).is_ok()
    }

    /// Gets room for the last effect of each role, and for so many effects more; false where memory was refused.
    #[inline(always)]
    pub(crate) fn reserve(&mut self, more: u64) -> bool
        ensures same { IsRoomier self.old self.new }
        ensures room { IsTrue result → HasRoomFor more self.new }
    {
        match self.wanted(more) {
            Some(many) => self.reserve_both(many),
            None => false,
        }
    }

    // Gets room for the roles of one node more, and for their lanes.
    #[inline(always)]
    pub(crate) fn reserve_node(&mut self) -> bool
        ensures same { IsRoomier self.old self.new }
        ensures room { IsTrue result → HasRoomToEnter self.new }
    {
        if self.homes.reserve(1).is_err() {
            return false;
        }
        if self.hears.reserve(1).is_err() {
            return false;
        }
        if self.merges.reserve(1).is_err() {
            return false;
        }
        self.lanes.reserve(0, 3).is_ok()
    }

    /// Gets room for the roles of one node more, their lanes, and so many effects more; false where memory was
    /// refused.
    #[inline(always)]
    pub(crate) fn make_room(&mut self, more: u64) -> bool
        ensures same { IsRoomier self.old self.new }
        ensures room { IsTrue result → HasRoomFor more self.new }
        ensures node { IsTrue result → HasRoomToEnter self.new }
    {
        if !self.reserve(more) {
            return false;
        }
        self.reserve_node()
    }

    /// Gets room for one resource more, and for its release; false where memory was refused.
    pub(crate) fn make_room_to_hold(&mut self) -> bool
        ensures same { IsRoomier self.old self.new }
        ensures room { IsTrue result → HasRoomFor 1 self.new }
        ensures holds { IsTrue result → 0 < self.new.holds.room }
    {
        if !self.reserve(1) {
            return false;
        }
        self.holds.reserve(1).is_ok()
    }

    /// Gets room for the roles of one node more, for a resource, and for their last effects; false where memory was
    /// refused.
    #[inline(always)]
    pub(crate) fn make_room_to_use(&mut self) -> bool
        ensures same { IsRoomier self.old self.new }
        ensures room { IsTrue result → HasRoomFor 3 self.new }
        ensures node { IsTrue result → HasRoomToEnter self.new }
        ensures holds { IsTrue result → 0 < self.new.holds.room }
    {
        if !self.make_room(3) {
            return false;
        }
        self.holds.reserve(1).is_ok()
    }
}
