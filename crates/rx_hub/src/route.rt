//! Where an item goes over a tree and its hubs, stop by stop.

ghost use Rattle.std.specs.Prelude.{◌≡◌, ◌≤◌, [], length, reverse, vec_capacity};
ghost use Rattle.std.specs.Prelude.{IfSome, IsSome, IsOk, OnOk, OnErr, Some, None};
ghost use Rattle.std.specs.Option.{option_and_then};
ghost use Rattle.rx_event.specs.Climb.{most_visits};
ghost use Rattle.rx_slots.specs.Slots.{find};
ghost use Rattle.rx_hub.specs.Walk.{arrival, climb_over, stops_over};
ghost use Rattle.rx_hub.specs.Route.{IsFrame, IsBehind, AreFrames, GoesOn, first_keys, hub_keys};

use crate::climbing::climb;
use crate::hubs::Hubs;
use crate::stop::Stop;
use rx_event::MOST_VISITS;
use rx_resource::Resource;
use rx_slots::Key;
use rx_tree::Tree;
use std::alloc::{AllocError, Global};
use std::marker::Model;

/// A subscriber from which an item's way goes on, and its hub.
#[derive(Clone, Copy)]
pub(crate) struct Frame {
    /// The hub's number.
    pub(crate) hub: u64,
    /// The subscriber's key.
    pub(crate) key: Key,
}

/// Where an item's way stands over a tree and its hubs: up from a node, and from a connection on to each
/// subscriber of its hub, by rising number, the first one's climb before the second's (Publish).
///
/// The way is gone stop by stop, and takes no memory on the way.
#[derive(Drop)]
pub struct Route {
    at: Option<Key>,
    frames: Vec<Frame>,
    visits: u64,
}

impl Model for Route {
    ghost use Rattle.rx_hub.specs.Route.{Route as Shown};

    ghost Value = { Shown };

    ghost use Rattle.std.specs.Prelude.{reverse, vec_capacity};

    ghost view = { λ r. record {
      at = r.at;
      frames = reverse r.frames.items;
      visits = r.visits;
      room = vec_capacity r.frames;
    } };

    ghost invariant = { λ r. Unit {0} };
}

// The first subscriber of the hub behind a connection.
#[inline(always)]
fn first_beyond(hubs: &Hubs, hub: Option<u64>) -> Option<Frame>
    ensures keys { first_keys hubs.now.hubs result ≡ hub_keys hubs.now.hubs hub }
    ensures frame { IfSome result (IsFrame hubs.now.hubs) }
    ensures behind { IfSome result (λ frame. hub ≡ Some frame.hub) }
{
    let hub = hub?;
    let key = hubs.first_subscriber(hub)?;
    Some(Frame { hub, key })
}

// Goes on from a subscriber, and after it from the next younger one of its hub.
fn turn_to(frames: &mut Vec<Frame>, hubs: &Hubs, frame: Frame) -> Key
    requires frame { IsFrame hubs.now.hubs frame }
    requires behind { IsBehind frame.hub (reverse frames.old.items) }
    requires frames { AreFrames hubs.now.hubs (reverse frames.old.items) }
    requires room { length hubs.now.hubs ≤ vec_capacity frames.old }
    ensures goes_on { GoesOn hubs.now.hubs (reverse frames.old.items) (reverse frames.new.items) (Some frame)
        (Some result) }
    ensures room { vec_capacity frames.new ≡ vec_capacity frames.old }
{
    hubs.promise();
    if let Some(key) = hubs.next_subscriber(frame.key) {
        frames.push_reserved(Frame {
            hub: frame.hub,
            key,
        });
    }
    frame.key
}

// Goes on from the first, if there is one, and else from what comes after.
#[inline(always)]
fn go_on(frames: &mut Vec<Frame>, hubs: &Hubs, first: Option<Frame>) -> Option<Key>
    requires frame { IfSome first (IsFrame hubs.now.hubs) }
    requires behind { IfSome first (λ frame. IsBehind frame.hub (reverse frames.old.items)) }
    requires frames { AreFrames hubs.now.hubs (reverse frames.old.items) }
    requires room { length hubs.now.hubs ≤ vec_capacity frames.old }
    ensures goes_on { GoesOn hubs.now.hubs (reverse frames.old.items) (reverse frames.new.items) first result }
    ensures room { vec_capacity frames.new ≡ vec_capacity frames.old }
{
    if let Some(frame) = first {
        return Some(turn_to(frames, hubs, frame));
    }
    let frame = frames.pop()?;
    Some(turn_to(frames, hubs, frame))
}

// The stop, where an item arrives there: a connection is none.
#[inline(always)]
fn arrival(stop: Option<Stop>) -> Option<Stop>
    ensures { result ≡ option_and_then arrival stop }
{
    match stop? {
        Stop::Connection(_) => None,
        arrived => Some(arrived),
    }
}

impl Route {
    ghost use Rattle.rx_hub.specs.Route.{IsOrdered, IsUnderWay, Climbs, Arrives, started, stops_left, all_visits};

    /// A way that is nowhere. It takes no memory until the first reservation.
    pub fn new(alloc: Global) -> Self
        ensures at { result.at ≡ None }
        ensures frames { result.frames ≡ [] }
        ensures visits { result.visits ≡ 0 }
        ensures room { result.room ≡ 0 }
    {
        Route {
            at: None,
            frames: Vec::new(alloc),
            visits: 0,
        }
    }

    /// Makes room for ways over so many hubs. Refused only where there was less room and memory was
    /// refused. Nothing else changes either way.
    pub fn reserve(&mut self, hubs: usize) -> Result<(), AllocError>
        ensures ok { OnOk result (hubs ≤ self.new.room) }
        ensures kept { self.new ≡ record self.old { room = self.new.room } }
        ensures room { self.old.room ≤ self.new.room }
        ensures err { OnErr result (self.new ≡ self.old) }
        ensures succeeds { hubs ≤ self.old.room → IsOk result }
    {
        if hubs <= self.frames.capacity() {
            return Ok(());
        }
        self.frames.reserve(hubs)
    }

    /// Begins the way of an item of this node.
    #[inline(always)]
    pub fn start(&mut self, node: Key)
        ensures started { self.new ≡ started node self.old }
        ensures stops { (nodes : _) (hubs : _) → stops_left nodes hubs self.new ≡ stops_over nodes hubs node }
        ensures visits { (nodes : _) (hubs : _) → all_visits nodes hubs self.new ≡ length (climb_over nodes hubs node) }
        ensures under_way { (nodes : _) (hubs : _) → IsSome (find nodes node) → length hubs ≤ self.old.room →
            IsUnderWay nodes hubs self.new }
    {
        self.at = Some(node);
        self.frames.clear();
        self.visits = 0;
    }

    /// How many visits were made since the beginning: 1,048,577 where the way was cut off, one visit after
    /// the most that an item may make.
    #[inline(always)]
    pub fn visits(&self) -> u64
        ensures { result ≡ self.now.visits }
    {
        self.visits
    }

    // Climbs from the node up to a stop, and goes on from there.
    #[inline(always)]
    fn climb_on<R: Resource>(&mut self, tree: &Tree<R>, hubs: &Hubs, node: Key) -> Option<Stop>
        requires ordered { IsOrdered tree.now.nodes hubs.now.hubs }
        requires under_way { IsUnderWay tree.now.nodes hubs.now.hubs self.old }
        requires at { self.old.at ≡ Some node }
        requires visits { self.old.visits ≤ most_visits }
        ensures { Climbs tree.now.nodes hubs.now.hubs self.old self.new result }
    {
        let reached = climb(tree, node);
        if reached.visits > MOST_VISITS + 1 - self.visits {
            self.visits = MOST_VISITS + 1;
            return None;
        }
        self.visits += reached.visits;
        let first = first_beyond(hubs, reached.hub);
        self.at = go_on(&mut self.frames, hubs, first);
        arrival(reached.stop)
    }

    /// The next stop where the item arrives: at a root, at a FlatMap or Switch that projects it, or at a
    /// TakeUntil that it fires. None at the end of its way. It takes no memory.
    #[inline(always)]
    pub fn next<R: Resource>(&mut self, tree: &Tree<R>, hubs: &Hubs) -> Option<Stop>
        requires ordered { IsOrdered tree.now.nodes hubs.now.hubs }
        requires under_way { IsUnderWay tree.now.nodes hubs.now.hubs self.old }
        ensures { Arrives tree.now.nodes hubs.now.hubs self.old self.new result }
    {
        while self.visits <= MOST_VISITS {
            let node = self.at?;
            let arrived = self.climb_on(tree, hubs, node);
            if arrived.is_some() {
                return arrived;
            }
        }
        None
    }
}
