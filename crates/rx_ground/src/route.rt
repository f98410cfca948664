//! Where an item goes, and what it does on its way: up from its leaf, and from a connection on to each
//! subscriber of its hub (Publish), the first one's climb before the second's.

ghost use Rattle.std.specs.Prelude.{◌≡◌, ◌+◌, ◌<◌, ◌≤◌, ◌++◌, [], length, Some, None, false, is_some, nat_lt, IsSome, IfSome};
ghost use Rattle.std.specs.Prelude.{IfOk, IfErr, OnOk, if◌then◌else◌};
ghost use Rattle.std.specs.Option.{option_to_list};
ghost use Rattle.std.proofs.Math.Bool.{not};
ghost use Rattle.rx_event.specs.declared.event.Event.{Event};
ghost use Rattle.rx_event.specs.Climb.{visits, most_visits};
ghost use Rattle.rx_event.specs.Calls.{Emitting};
ghost use Rattle.rx_event.specs.Lawful.{IsLawful};
ghost use Rattle.rx_event.specs.Notes.{mail_of};
ghost use Rattle.rx_slots.specs.Slots.{find};
ghost use Rattle.rx_tree.specs.Owed.{owed_in};
ghost use Rattle.rx_tree.specs.Tree.{is_on};
ghost use Rattle.rx_hub.specs.Route.{IsOrdered};
ghost use Rattle.rx_hub.specs.Walk.{IsWalk, climb_over, stops_over};
ghost use Rattle.rx_ground.specs.FirstCause.{first_at};
ghost use Rattle.rx_ground.specs.Ties.{AreRecords, IsStanding, IsUndue};
ghost use Rattle.rx_ground.specs.Passing.{owed_at, told_at, mail_at, IsThere, IsMarkedAt, IsArrived, IsMeasured, IsPassing};
ghost use Rattle.rx_ground.specs.Reached.{IsReach, MakesOnly};

use crate::base::Ground;
use rx_event::{MOST_VISITS, Mail, Refusal};
use rx_hub::{Hubs, Reached, Route, Stop, climb};
use rx_note::Note;
use rx_register::Register;
use rx_resource::Resource;
use rx_tree::{Key, Tree};

/// What an item of a leaf wants, wherever it goes.
#[derive(Clone, Copy)]
pub struct Reach {
    /// How many events and reservations: its own event, and an answer for each time that a FlatMap or a
    /// Switch projects it, which owes an inner or a declining for it.
    pub events: u64,
    /// How many notes: one for each time that it reaches a root, or a FlatMap or a Switch.
    pub notes: u64,
}

/// The way of an item.
#[derive(Clone, Copy)]
pub struct Way {
    /// What it wants.
    pub reach: Reach,
    /// Its one stop, where it makes just one.
    pub only: Option<Stop>,
}

/// What an item wants that stops there, its own event not counted.
#[inline(always)]
fn reach_at(stop: Stop) -> Reach
    ensures events { result.events ≡ owed_at stop }
    ensures notes { result.notes ≡ told_at stop }
{
    match stop {
        Stop::Delivery(_) => Reach {
            events: 0,
            notes: 1,
        },
        Stop::Projection(_) => Reach {
            events: 1,
            notes: 1,
        },
        Stop::Firing(_) | Stop::Connection(_) => Reach {
            events: 0,
            notes: 0,
        },
    }
}

/// The stop, where it is the first of its way.
#[inline(always)]
fn if_first(is_first: bool, stop: Stop) -> Option<Stop>
    ensures { result ≡ (if is_first then Some stop else None) }
{
    if is_first { Some(stop) } else { None }
}

/// The stop, where the item of a climb comes to its end there: not where it was cut off, and not at a connection,
/// from which it goes on.
#[inline(always)]
fn arrived(climb: Reached) -> Option<Stop>
    ensures { IfSome result (IsArrived climb) }
{
    if climb.visits > MOST_VISITS {
        return None;
    }
    match climb.stop? {
        Stop::Delivery(root) => Some(Stop::Delivery(root)),
        Stop::Projection(merging) => Some(Stop::Projection(merging)),
        Stop::Firing(until) => Some(Stop::Firing(until)),
        Stop::Connection(_) => None,
    }
}

/// What an item of this node wants, by one walk of its way over all hubs, and its stop where it makes just one. How
/// many visits it makes, the route then says.
#[inline(never)]
fn measure_over<R: Resource>(tree: &Tree<R>, hubs: &Hubs, route: &mut Route, node: Key) -> Way
    requires open { IsSome (find tree.now.nodes node) }
    requires ordered { IsOrdered tree.now.nodes hubs.now.hubs }
    requires room { length hubs.now.hubs ≤ route.old.room }
    ensures reach { IsMeasured (stops_over tree.now.nodes hubs.now.hubs node) result.reach }
    ensures only { MakesOnly tree.now.nodes hubs.now.hubs node result.only }
    ensures visits { route.new.visits ≡ length (climb_over tree.now.nodes hubs.now.hubs node) }
    ensures room { route.new.room ≡ route.old.room }
{
    route.start(node);
    let mut events = 1;
    let mut notes = 0;
    let mut is_first = true;
    let mut only = None;
    while let Some(stop) = route.next(tree, hubs) {
        let more = reach_at(stop);
        events += more.events;
        notes += more.notes;
        only = if_first(is_first, stop);
        is_first = false;
    }
    Way {
        reach: Reach { events, notes },
        only,
    }
}

/// What an item of this node wants, and its stop where it makes just one; None where it would make more visits
/// than it may. Where it reaches no connection, one climb tells it.
#[inline(always)]
fn measure<R: Resource>(tree: &Tree<R>, hubs: &Hubs, route: &mut Route, node: Key) -> Option<Way>
    requires open { IsSome (find tree.now.nodes node) }
    requires ordered { IsOrdered tree.now.nodes hubs.now.hubs }
    requires room { length hubs.now.hubs ≤ route.old.room }
    ensures reach { IfSome result (λ way. IsMeasured (stops_over tree.now.nodes hubs.now.hubs node) way.reach) }
    ensures only { IfSome result (λ way. MakesOnly tree.now.nodes hubs.now.hubs node way.only) }
    ensures visits { is_some result ≡ not (nat_lt most_visits (length (climb_over tree.now.nodes hubs.now.hubs node))) }
    ensures room { route.new.room ≡ route.old.room }
{
    let reached = climb(tree, node);
    if reached.visits > MOST_VISITS {
        return None;
    }
    match arrived(reached) {
        Some(stop) => {
            let more = reach_at(stop);
            Some(Way {
                reach: Reach {
                    events: 1 + more.events,
                    notes: more.notes,
                },
                only: Some(stop),
            })
        }
        None => {
            let way = measure_over(tree, hubs, route, node);
            if route.visits() > MOST_VISITS {
                return None;
            }
            Some(way)
        }
    }
}

/// Tells of an item at one of its stops: a root is told it, and a FlatMap or a Switch to project it.
#[inline(always)]
fn tell_at(register: &mut Register, stop: Stop, value: i64)
    requires room { told_at stop ≤ register.old.mail_room }
    ensures same { register.new ≡ record register.old { pending = register.new.pending; mail_room = register.new.mail_room } }
    ensures told { register.new.pending ≡
        register.old.pending ++ option_to_list (mail_at (length register.old.history) value stop) }
    ensures mail_room { register.old.mail_room ≡ register.new.mail_room + told_at stop }
{
    let (to, note) = match stop {
        Stop::Delivery(root) => (root.number, Note::Next(value)),
        Stop::Projection(merging) => (merging.number, Note::Project(value)),
        Stop::Firing(_) | Stop::Connection(_) => return,
    };
    let place = register.len();
    register.tell(Mail { place, to, note });
}

/// Marks the node at which an item stops.
#[inline(always)]
fn mark_at<R: Resource>(tree: &mut Tree<R>, stop: Stop)
    requires there { IsThere tree.old.nodes stop }
    requires countable { owed_in tree.old.nodes < 9223372036854775808 }
    requires quiet { (key : _) → is_on key tree.old.chain ≡ false → IsUndue tree.old.nodes key }
    ensures { IsMarkedAt stop tree.old tree.new }
{
    match stop {
        Stop::Projection(merging) => tree.mark_projection(merging),
        Stop::Firing(until) => tree.mark_firing(until),
        // Two tests for two stops: a table of all four costs each item more.
        _ => {}
    }
}

/// Takes an item its way: at each stop it tells who is to be told of it, and marks what it changes there.
#[inline(never)]
fn pass_on<R: Resource>(
    register: &mut Register,
    tree: &mut Tree<R>,
    hubs: &Hubs,
    route: &mut Route,
    leaf: Key,
    value: i64,
)
    requires lawful { IsLawful register.old.base register.old.history }
    requires walk { IsWalk register.old.base register.old.history tree.old.nodes hubs.now.hubs }
    requires records { AreRecords register.old.base register.old.history tree.old.nodes tree.old.chain }
    requires open { IsSome (find tree.old.nodes leaf) }
    requires notes { length (mail_of register.old.history (Event.Item leaf.number value)) ≤ register.old.mail_room }
    requires pending { register.old.pending ≡ [] }
    requires room { length hubs.now.hubs ≤ route.old.room }
    requires countable { owed_in tree.old.nodes ≤ 4503608216256510 }
    ensures passed { IsPassing register.old tree.old leaf.number value register.new tree.new [] }
    ensures room { route.new.room ≡ route.old.room }
{
    route.start(leaf);
    while let Some(stop) = route.next(tree, hubs) {
        tell_at(register, stop, value);
        mark_at(tree, stop);
    }
}

/// Takes an item its way, where it is known whether that has just one stop: then without a walk.
#[inline(always)]
pub(crate) fn pass<R: Resource>(
    register: &mut Register,
    tree: &mut Tree<R>,
    hubs: &Hubs,
    route: &mut Route,
    only: Option<Stop>,
    leaf: Key,
    value: i64,
)
    requires lawful { IsLawful register.old.base register.old.history }
    requires walk { IsWalk register.old.base register.old.history tree.old.nodes hubs.now.hubs }
    requires records { AreRecords register.old.base register.old.history tree.old.nodes tree.old.chain }
    requires open { IsSome (find tree.old.nodes leaf) }
    requires notes { length (mail_of register.old.history (Event.Item leaf.number value)) ≤ register.old.mail_room }
    requires pending { register.old.pending ≡ [] }
    requires room { length hubs.now.hubs ≤ route.old.room }
    requires only { MakesOnly tree.old.nodes hubs.now.hubs leaf only }
    requires countable { owed_in tree.old.nodes ≤ 4503608216256510 }
    ensures passed { IsPassing register.old tree.old leaf.number value register.new tree.new [] }
    ensures room { route.new.room ≡ route.old.room }
{
    match only {
        Some(one) => {
            tell_at(register, one, value);
            mark_at(tree, one);
        }
        None => pass_on(register, tree, hubs, route, leaf, value),
    }
}

impl<R: Resource> Ground<R> {
    /// What an item of this leaf wants, or what stands first against it: `TooMany` counts the visits of its
    /// whole way over all hubs, and `Full` the item's event, and one more for each time that a FlatMap or a
    /// Switch projects it. With it comes its stop, where it makes just one. Nothing changes.
    #[inline(always)]
    pub fn route(&mut self, leaf: Key, value: i64) -> Result<Way, Refusal>
        requires standing { IsStanding R.Resource self.old }
        ensures kept { self.new ≡ self.old }
        ensures ok { IfOk result (λ way. IsReach self.old.register.history self.old.tree.nodes leaf way.reach) }
        ensures only { IfOk result (λ way. MakesOnly self.old.tree.nodes self.old.hubs.hubs leaf way.only) }
        ensures none { OnOk result (first_at self.old leaf (Emitting leaf.number value) ≡ None) }
        ensures first { IfErr result (λ why. first_at self.old leaf (Emitting leaf.number value) ≡ Some why) }
    {
        let Some(record) = self.tree.get(leaf) else {
            return Err(Refusal::Gone);
        };
        if !record.is_leaf() {
            return Err(Refusal::WrongKind);
        }
        self.register.promise();
        self.tree.promise();
        let Some(way) = measure(&self.tree, &self.hubs, &mut self.route, leaf) else {
            return Err(Refusal::TooMany);
        };
        if self.is_over(way.reach.events) {
            return Err(Refusal::Full);
        }
        Ok(way)
    }
}
