//! Hubs: what stands against making, connecting and disconnecting one, the event that makes one, the one that
//! connects it, and which connections are open.

ghost use Rattle.std.specs.Prelude.{◌≡◌, ◌+◌, ◌<◌, ◌++◌, ◌∷◌, ◌&&◌, [], nat_lt, length, true, false, IfSome, IfNone};
ghost use Rattle.std.specs.Prelude.{IsSome, is_some, is_none, option_map};
ghost use Rattle.std.specs.List.{find};
ghost use Rattle.std.specs.Option.{option_to_list};
ghost use Rattle.rx_event.specs.declared.event.Event.{Event};
ghost use Rattle.rx_event.specs.declared.event.Kind.{Kind};
ghost use Rattle.rx_event.specs.Allowed.{most_hubs};
ghost use Rattle.rx_event.specs.Events.{makes_hub, is_manual_hub, is_auto_hub};
ghost use Rattle.rx_event.specs.Tree.{at, hubs, open_connections, places};
ghost use Rattle.rx_event.specs.Calls.{Publishing, Connecting, Disconnecting};
ghost use Rattle.rx_slots.specs.Slots.{find as find_in};
ghost use Rattle.rx_hub.specs.Hubs.{new_hub};
ghost use Rattle.rx_ground.specs.FirstCause.{first_by_key};
ghost use Rattle.rx_ground.specs.Shown.{list_room};
ghost use Rattle.rx_ground.specs.Ties.{IsReady, IsStanding, KeepsOlder};
ghost use Rattle.rx_ground.specs.Wrote.{IsBetween, Wrote, OpensNode};
ghost use Rattle.rx_ground.specs.Told.{IsFound, IsHubTold, is_connected_manual};

use crate::base::{Ground, Wanted};
use rx_event::{Event, Kind, MOST_HUBS, Mode, Refusal};
use rx_hub::Published;
use rx_resource::Resource;
use rx_tree::Key;

// Whether a caller connects the hub, and it has an open connection.
fn is_up_by_hand(hub: Published) -> bool
    ensures { result ≡ (is_manual_hub (Event.Hub hub.mode) && is_some hub.connection) }
{
    Event::Hub(hub.mode).is_manual_hub() && hub.connection.is_some()
}

/// What an opening has to know of the hub that its node subscribes to, looked up once.
#[derive(Clone, Copy)]
pub struct Found {
    /// Where the hub stands among the others; 0 where there is none.
    pub index: usize,
    /// Whether no hub has its number.
    pub(crate) is_missing: bool,
    /// Whether the opening connects it: it connects by itself, and has no connection.
    pub connects: bool,
}

impl Found {
    // Nothing of a hub.
    #[inline(always)]
    fn none(is_missing: bool) -> Self
        ensures { result ≡ record { index = 0; is_missing = is_missing; connects = false } }
    {
        Found {
            index: 0,
            is_missing,
            connects: false,
        }
    }
}

// Whether a hub connects by itself, and has no connection.
#[inline(always)]
fn awaits(hub: Published) -> bool
    ensures { result ≡ (is_auto_hub (Event.Hub hub.mode) && is_none hub.connection) }
{
    Event::Hub(hub.mode).is_auto_hub() && hub.connection.is_none()
}

impl<R: Resource> Ground<R> {
    /// What is known of a hub; None where no hub has this number.
    #[inline(always)]
    fn published(&self, hub: u64) -> Option<Published>
        requires standing { IsStanding R.Resource self.now }
        ensures some { IfSome result (IsHubTold self.now.register.history hub) }
        ensures none { IfNone result (at makes_hub self.now.register.history hub ≡ false) }
    {
        self.hubs.get(hub)
    }

    /// What is found of the hub that a node of this kind subscribes to.
    #[inline(always)]
    pub fn found(&self, kind: Kind) -> Found
        requires standing { IsStanding R.Resource self.now }
        ensures { IsFound self.now.register.history self.now.hubs.hubs kind result }
    {
        match kind {
            Kind::Sub(hub) => self.found_hub(hub),
            _ => Found::none(false),
        }
    }

    // What is found of the hub of this number.
    #[inline(always)]
    fn found_hub(&self, hub: u64) -> Found
        requires standing { IsStanding R.Resource self.now }
        ensures { IsFound self.now.register.history self.now.hubs.hubs (Kind.Sub hub) result }
    {
        let Some(index) = self.hubs.index_of(hub) else {
            return Found::none(true);
        };
        Found {
            index,
            is_missing: false,
            connects: awaits(self.hubs.at(index)),
        }
    }

    /// Whether one hub more would be too many.
    fn has_most_hubs(&self) -> bool
        requires standing { IsStanding R.Resource self.now }
        ensures { result ≡ nat_lt most_hubs (length (hubs self.now.register.history) + 1) }
    {
        self.hubs.promise();
        MOST_HUBS <= self.hubs.len() as u64
    }

    /// What stands first against making a hub: `TooMany` at 1,024 hubs, `Full`.
    pub fn publishing_cause(&self, _mode: Mode) -> Option<Refusal>
        requires standing { IsStanding R.Resource self.now }
        ensures { result ≡ first_by_key self.now true true (Publishing _mode) }
    {
        if self.has_most_hubs() {
            return Some(Refusal::TooMany);
        }
        if self.is_over(Wanted::of_hub().events) {
            return Some(Refusal::Full);
        }
        None
    }

    /// What stands first against connecting a hub by hand: `NoHub`, `WrongKind` where it connects by itself,
    /// `Connected`, `TooMany`, `Full`.
    pub fn connecting_cause(&self, hub: u64) -> Option<Refusal>
        requires standing { IsStanding R.Resource self.now }
        ensures { result ≡ first_by_key self.now true true (Connecting hub) }
    {
        let Some(published) = self.published(hub) else {
            return Some(Refusal::NoHub);
        };
        if !Event::Hub(published.mode).is_manual_hub() {
            return Some(Refusal::WrongKind);
        }
        if published.connection.is_some() {
            return Some(Refusal::Connected);
        }
        let cost = Wanted::of_connecting();
        if self.is_crowded(cost.nodes as u64) {
            return Some(Refusal::TooMany);
        }
        if self.is_over(cost.events) {
            return Some(Refusal::Full);
        }
        None
    }

    /// What stands first against disconnecting a hub by hand: `NoHub`, `WrongKind` where it connects by itself,
    /// `NotConnected`.
    pub fn disconnecting_cause(&self, hub: u64) -> Option<Refusal>
        requires standing { IsStanding R.Resource self.now }
        ensures { result ≡ first_by_key self.now true true (Disconnecting hub) }
    {
        let Some(published) = self.published(hub) else {
            return Some(Refusal::NoHub);
        };
        if !Event::Hub(published.mode).is_manual_hub() {
            return Some(Refusal::WrongKind);
        }
        if published.connection.is_none() {
            return Some(Refusal::NotConnected);
        }
        None
    }

    /// The key of a hub's open connection; None where it has none, and where no hub has this number.
    pub fn connection(&self, hub: u64) -> Option<Key>
        requires standing { IsStanding R.Resource self.now }
        ensures number { option_to_list (option_map (λ key. key.number) result) ≡
            open_connections self.now.register.history hub }
        ensures there { IfSome result (λ key. IsSome (find_in self.now.tree.nodes key)) }
    {
        self.register.promise();
        self.hubs.get(hub)?.connection
    }

    /// The least number of a hub that a caller connects and that has an open connection; None where there is none.
    pub fn first_manual(&self) -> Option<u64>
        requires standing { IsStanding R.Resource self.now }
        ensures { result ≡ find (is_connected_manual self.now.register.history) (places self.now.register.history) }
    {
        self.hubs.promise();
        for index in 0..self.hubs.len() {
            let hub = self.hubs.nth(index)?;
            if is_up_by_hand(hub) {
                return Some(hub.number);
            }
        }
        None
    }

    /// Makes a hub, for which there is room, and to which nobody has subscribed (Publish, at reactivex.io).
    /// Its number is the place of the event.
    pub fn write_hub(&mut self, mode: Mode) -> u64
        requires between { IsBetween R.Resource self.old }
        requires ready { IsReady self.old.register (Event.Hub mode) }
        requires room { 0 < self.old.hubs.room }
        ensures wrote { Wrote R.Resource self.old (Event.Hub mode ∷ []) self.new }
        ensures frame { self.new ≡ record self.old { register = self.new.register; hubs = self.new.hubs } }
        ensures number { result ≡ length self.old.register.history }
        ensures hubs { self.new.hubs.hubs ≡ self.old.hubs.hubs ++ new_hub result mode ∷ [] }
    {
        self.register.promise();
        let number = self.register.len();
        self.hubs.add(number, mode);
        self.register.write(Event::Hub(mode));
        number
    }

    /// Connects a hub that has no connection, for which there is room (Connect, at reactivex.io): the
    /// connection is a root, and its hub has it from then on. The key's number is the place of the event.
    pub fn write_connect(&mut self, hub: u64) -> Key
        requires between { IsBetween R.Resource self.old }
        requires ready { IsReady self.old.register (Event.Connect hub) }
        requires room { 0 < self.old.tree.nodes.room }
        requires space { 0 < list_room self.old }
        ensures wrote { Wrote R.Resource self.old (Event.Connect hub ∷ []) self.new }
        ensures frame { OpensNode self.old self.new (Event.Connect hub) result }
        ensures nodes { KeepsOlder self.new.register.history (length self.old.register.history)
            self.old.tree.nodes self.new.tree.nodes }
        ensures closed { self.new.closed ≡ self.old.closed }
    {
        self.register.promise();
        self.tree.promise();
        let number = self.register.len();
        let made = Event::Connect(hub);
        let Ok(key) = self.tree.open(number, made, None) else {
            unreachable!()
        };
        self.hubs.connect(hub, key);
        self.register.write(made);
        key
    }
}
