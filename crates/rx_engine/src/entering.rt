//! A node that was opened, or a resource that was accepted, gets its roles and their lanes.

ghost use Rattle.std.specs.Prelude.{◌≡◌, ◌+◌, ◌≤◌, ◌<◌, ◌^◌, Some, IsSome};
ghost use Rattle.rx_event.specs.declared.event.Event.{Event};
ghost use Rattle.rx_event.specs.declared.event.Place.{Place};
ghost use Rattle.rx_event.specs.declared.event.Kind.{Kind};
ghost use Rattle.rx_event.specs.Events.{is_root, is_merging};
ghost use Rattle.rx_book.specs.Requests.{place_of};
ghost use Rattle.rx_lanes.specs.declared.names.LaneName.{LaneName};
ghost use Rattle.rx_lanes.specs.Lane.{Lane};
ghost use Rattle.rx_lanes.specs.State.{lane};
ghost use Rattle.rx_roles.specs.Roles.{AreBelow};
ghost use Rattle.rx_engine.specs.Deliveries.{many_at};
ghost use Rattle.rx_engine.specs.Rooms.{name_count, named, HasRoomToEnter};
ghost use Rattle.rx_engine.specs.Openings.{IsLaneFor, Gives, Enters};
ghost use Rattle.rx_engine.specs.Holdings.{Keeps};

use crate::homes::Home;
use crate::parts::Parts;
use rx_book::{At, Kind};
use rx_lanes::{LaneName, Lanes};
use rx_roles::{Effect, Role, Roles};

// Whether it is a root's place.
fn is_root_at(at: At) -> bool
    ensures { (kind : Kind) → result ≡ is_root (Event.Open (place_of at) kind) }
{
    match at {
        At::Root => true,
        At::Source(_) => false,
        At::Inner(_) => false,
        At::Notifier(_) => false,
    }
}

// Whether it is a FlatMap or a Switch.
fn is_merging(kind: Kind) -> bool
    ensures { (place : Place) → result ≡ is_merging (Event.Open place kind) }
{
    match kind {
        Kind::Flat => true,
        Kind::Switch => true,
        Kind::Leaf => false,
        Kind::Pass => false,
        Kind::Until => false,
        Kind::Sub(_) => false,
    }
}

// The lane of a new role.
#[inline(always)]
fn lane_for(lanes: &mut Lanes<Effect>, at: Option<LaneName>) -> LaneName
    requires room { 0 < lanes.old.room }
    requires there { (name : LaneName) → at ≡ Some name → IsSome (lane lanes.old name) }
    requires few { (name : LaneName) → (l : Lane Effect) → lane lanes.old name ≡ Some l → l.many < 2 ^ 63 }
    ensures given { IsLaneFor at lanes.old lanes.new result }
    ensures spare { lanes.new.spare ≡ lanes.old.spare }
    ensures room { lanes.old.room ≤ lanes.new.room + 1 }
{
    match at {
        Some(name) => {
            lanes.join(name);
            name
        }
        None => lanes.open(),
    }
}

// Gives a node its role, where it has one of this sort.
#[inline(always)]
fn give(
    roles: &mut Roles,
    lanes: &mut Lanes<Effect>,
    is: bool,
    number: u64,
    word: u64,
    at: Option<LaneName>,
)
    requires one { 0 < roles.old.room }
    requires below { AreBelow roles.old.list number }
    requires room { 0 < lanes.old.room }
    requires there { (name : LaneName) → at ≡ Some name → IsSome (lane lanes.old name) }
    requires few { (name : LaneName) → (l : Lane Effect) → lane lanes.old name ≡ Some l → l.many < 2 ^ 63 }
    ensures gives { Gives is number word at roles.old.list roles.new.list lanes.old lanes.new }
    ensures spare { lanes.new.spare ≡ lanes.old.spare }
    ensures room { lanes.old.room ≤ lanes.new.room + 1 }
{
    if is {
        let lane = lane_for(lanes, at);
        roles.put(Role { number, word, lane });
    }
}

impl Parts {
    /// Gives a node that was opened its home and its roles, and answers its lane.
    #[inline(always)]
    pub(crate) fn enter(
        &mut self,
        at: At,
        kind: Kind,
        number: u64,
        word: u64,
        home: Home,
    ) -> LaneName
        requires room { HasRoomToEnter self.old }
        requires homes { AreBelow self.old.homes.list number }
        requires hears { AreBelow self.old.hears.list number }
        requires merges { AreBelow self.old.merges.list number }
        requires there { (name : LaneName) → home.lane ≡ Some name → IsSome (lane self.old.lanes name) }
        requires many { (name : LaneName) → many_at self.old.lanes name ≡ named name self.old }
        requires few { name_count self.old + 2 < 2 ^ 63 }
        ensures entered { Enters self.old number (is_root (Event.Open (place_of at) kind))
            (is_merging (Event.Open (place_of at) kind)) word home result self.new }
        ensures holds { self.new.holds ≡ self.old.holds }
        ensures homes_room { self.old.homes.room ≤ self.new.homes.room + 1 }
        ensures lanes_room { self.old.lanes.room ≤ self.new.lanes.room + 3 }
        ensures shares { self.new.shares ≡ self.old.shares }
        ensures effects { self.new.effects ≡ self.old.effects }
        ensures spare { self.new.lanes.spare ≡ self.old.lanes.spare }
    {
        let lane = lane_for(&mut self.lanes, home.lane);
        self.homes.put(Role {
            number,
            word: home.limit,
            lane,
        });
        give(
            &mut self.hears,
            &mut self.lanes,
            is_root_at(at),
            number,
            word,
            Some(lane),
        );
        give(
            &mut self.merges,
            &mut self.lanes,
            is_merging(kind),
            number,
            word,
            None,
        );
        lane
    }

    /// Keeps a tag until it is released, in this lane.
    pub(crate) fn keep(&mut self, number: u64, tag: u64, name: LaneName)
        requires room { 0 < self.old.holds.room }
        requires below { AreBelow self.old.holds.list number }
        requires there { IsSome (lane self.old.lanes name) }
        requires few { (l : Lane Effect) → lane self.old.lanes name ≡ Some l → l.many < 2 ^ 63 }
        ensures keeps { Keeps self.old number tag name self.new }
        ensures effects { self.new.effects ≡ self.old.effects }
        ensures spare { self.new.lanes.spare ≡ self.old.lanes.spare }
    {
        self.lanes.join(name);
        self.holds.put(Role {
            number,
            word: tag,
            lane: name,
        });
    }
}
