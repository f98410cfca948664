//! Hubs with what may be due at them.

ghost use Rattle.std.specs.Prelude.{◌≡◌, ◌+◌, ◌<◌, ◌≤◌, ◌++◌, ◌∷◌, [], length, option_map, max, slice_get};
ghost use Rattle.std.specs.Prelude.{OnOk, OnErr, IsOk, IsTrue, IfSome, IfNone, IsSome, Some, None, true, false};
ghost use Rattle.std.specs.Option.{option_and_then};
ghost use Rattle.rx_hub.specs.Chains.{AreEmpty, IsChain, IsSteady, Notes, Puts};
ghost use Rattle.rx_hub.specs.Due.{connect_of, due_of};
ghost use Rattle.rx_hub.specs.Rules.{given_by};
ghost use Rattle.rx_slots.specs.Lists.{list_at, is_in};

use crate::forcing::{Rule, due_at, next_at};
use crate::hub::{HubDue, LastEnd, Published};
use crate::store::Store;
use rx_event::Mode;
use rx_slots::{Key, Rings};
use std::alloc::{AllocError, Global};
use std::marker::Model;

/// Hubs, the published observables: each with its connection and its subscribers (Publish, Connect,
/// RefCount).
#[derive(Drop)]
pub struct Hubs {
    pub(crate) store: Store,
    // The hubs that may wait for a connection, and those at which something else may be due.
    waiting: Rings,
    due: Rings,
    // Whether there is one of them.
    noted: bool,
}

impl Model for Hubs {
    ghost use Rattle.rx_hub.specs.Hubs.{Hubs as Shown};

    ghost Value = { Shown };

    ghost use Rattle.std.specs.Prelude.{◌-◌, length};
    ghost use Rattle.rx_hub.specs.Chains.{IsLinked};

    ghost view = { λ s. record s.store { room = s.waiting.members - length s.store.hubs } };

    ghost invariant = { λ s. IsLinked s.store s.waiting s.due s.noted };
}

// Lets indices below this one stand on a chain.
fn lengthen(chain: &mut Rings, members: usize) -> Result<(), AllocError>
    requires chain { IsChain chain.old }
    ensures chain { IsChain chain.new }
    ensures same { (e : _) → list_at chain.new e ≡ list_at chain.old e }
    ensures ok { OnOk result (members ≤ chain.new.members) }
    ensures more { chain.old.members ≤ chain.new.members }
    ensures most { chain.new.members ≤ max members chain.old.members }
    ensures err { OnErr result (chain.new.members ≡ chain.old.members) }
    ensures succeeds { members ≤ chain.old.members → IsOk result }
{
    if members <= chain.members() {
        return Ok(());
    }
    if chain.is_empty() {
        chain.reserve(1)?;
        chain.add();
    }
    chain.admit(members)
}

// Puts an index on a chain, where it is not there.
fn put(chain: &mut Rings, index: usize)
    requires chain { IsChain chain.old }
    requires index { index < chain.old.members }
    ensures { Puts chain.old chain.new index }
{
    if chain.is_free(index) {
        chain.join(0, index);
    }
}

// Puts an index on a chain where the rule gives something there.
fn note_at(store: &Store, chain: &mut Rings, rule: Rule, index: usize)
    requires chain { IsChain chain.old }
    requires index { index < chain.old.members }
    ensures { Notes (option_and_then (given_by rule) (slice_get store.now.hubs index)) chain.old chain.new index }
{
    if due_at(store, rule, index).is_some() {
        put(chain, index);
    }
}

// Puts an index on each chain where its rule gives something there. Whether something stands on one of them then.
#[cold]
#[inline(never)]
fn note(store: &Store, waiting: &mut Rings, due: &mut Rings, index: usize) -> bool
    requires waiting { IsChain waiting.old }
    requires due { IsChain due.old }
    requires index { index < waiting.old.members }
    requires both { waiting.old.members ≤ due.old.members }
    ensures waits { Notes (option_and_then connect_of (slice_get store.now.hubs index)) waiting.old waiting.new index }
    ensures acts { Notes (option_and_then due_of (slice_get store.now.hubs index)) due.old due.new index }
    ensures empty { result ≡ false → AreEmpty waiting.new due.new }
{
    note_at(store, waiting, Rule::Connect, index);
    note_at(store, due, Rule::Other, index);
    waiting.first(0).is_some() || due.first(0).is_some()
}

// Puts a hub on the chains where a subscriber came or left: they stay as they are where nothing is due by that.
#[inline(always)]
fn note_unless(
    is_quiet: bool,
    noted: bool,
    store: &Store,
    waiting: &mut Rings,
    due: &mut Rings,
    index: usize,
) -> bool
    requires waiting { IsChain waiting.old }
    requires due { IsChain due.old }
    requires index { index < waiting.old.members }
    requires both { waiting.old.members ≤ due.old.members }
    requires empty { noted ≡ false → AreEmpty waiting.old due.old }
    requires unmet { is_quiet ≡ true → is_in index (list_at waiting.old 0) ≡ false →
        option_and_then connect_of (slice_get store.now.hubs index) ≡ None }
    requires undue { is_quiet ≡ true → is_in index (list_at due.old 0) ≡ false →
        option_and_then due_of (slice_get store.now.hubs index) ≡ None }
    ensures waits { Notes (option_and_then connect_of (slice_get store.now.hubs index)) waiting.old waiting.new index }
    ensures acts { Notes (option_and_then due_of (slice_get store.now.hubs index)) due.old due.new index }
    ensures empty { result ≡ false → AreEmpty waiting.new due.new }
{
    if is_quiet {
        return noted;
    }
    note(store, waiting, due, index)
}

// Whether nothing is due at a hub by a subscriber that comes: it has a connection, and keeps no end.
#[inline(always)]
fn is_steady(hub: Published) -> bool
    ensures { result ≡ true → IsSteady hub }
{
    if hub.connection.is_none() {
        return false;
    }
    hub.last_end.is_none()
}

impl Hubs {
    ghost use Rattle.rx_hub.specs.Hubs.{Hub, IsPromised, IsFree, StandsAt, AreBelow, new_hub, find_hub, at_hub, published_of};
    ghost use Rattle.rx_hub.specs.Hubs.{connected, disconnected, subscribed, unsubscribed, key_after};
    ghost use Rattle.rx_hub.specs.Due.{IsDueIn, IsQuiet, ConcernsHub};
    ghost use Rattle.rx_tree.specs.Tree.{is_on, first_of};

    /// No hub. It takes no memory until the first reservation.
    pub fn new(alloc: Global) -> Self
        ensures hubs { result.hubs ≡ [] }
        ensures room { result.room ≡ 0 }
        ensures slots { result.slots ≡ 0 }
    {
        Hubs {
            store: Store::new(alloc),
            waiting: Rings::new(alloc),
            due: Rings::new(alloc),
            noted: false,
        }
    }

    /// What holds of all hubs, for proofs: their numbers rise, and so do those of each hub's subscribers.
    /// It does nothing.
    #[inline(always)]
    pub fn promise(&self)
        ensures { IsPromised self.now }
    {
        self.store.promise();
    }

    /// How many hubs there are.
    #[inline(always)]
    pub fn len(&self) -> usize
        ensures { result ≡ length self.now.hubs }
    {
        self.store.len()
    }

    /// Makes room for `additional` hubs more and for no others, so that as many calls of `add` take no
    /// memory. Refused only where there was less room and memory was refused. Nothing else changes either
    /// way.
    pub fn reserve(&mut self, additional: usize) -> Result<(), AllocError>
        ensures ok { OnOk result (additional ≤ self.new.room) }
        ensures kept { self.new ≡ record self.old { room = self.new.room } }
        ensures room { self.old.room ≤ self.new.room }
        ensures most { self.new.room ≤ max additional self.old.room }
        ensures err { OnErr result (self.new ≡ self.old) }
        ensures succeeds { additional ≤ self.old.room → IsOk result }
    {
        self.store.reserve(additional)?;
        let members = self.store.len() + additional;
        lengthen(&mut self.due, members)?;
        lengthen(&mut self.waiting, members)
    }

    /// Lets subscribers stand at all slots of a tree below this one: so `subscribe` takes no memory.
    /// Refused only where memory was. Nothing else changes either way.
    #[inline(always)]
    pub fn reserve_slots(&mut self, slots: usize) -> Result<(), AllocError>
        ensures ok { OnOk result (slots ≤ self.new.slots) }
        ensures kept { self.new ≡ record self.old { slots = self.new.slots } }
        ensures slots { self.old.slots ≤ self.new.slots }
        ensures err { OnErr result (self.new ≡ self.old) }
        ensures succeeds { slots ≤ self.old.slots → IsOk result }
    {
        self.store.admit(slots)
    }

    /// Adds a hub to which nobody has subscribed. Its number is greater than those before. There is
    /// room for it, of which it takes one place.
    pub fn add(&mut self, number: u64, mode: Mode)
        requires room { 0 < self.old.room }
        requires newest { (i : _) (hub : Hub) → slice_get self.old.hubs i ≡ Some hub → hub.number < number }
        ensures hubs { self.new.hubs ≡ self.old.hubs ++ new_hub number mode ∷ [] }
        ensures slots { self.new.slots ≡ self.old.slots }
        ensures room { self.new.room + 1 ≡ self.old.room }
    {
        self.store.add(number, mode);
    }

    /// Where the hub of this number stands among the others; None where no hub has it.
    #[inline(always)]
    pub fn index_of(&self, hub: u64) -> Option<usize>
        ensures some { IfSome result (λ i. StandsAt self.now.hubs i hub) }
        ensures none { IfNone result (find_hub self.now.hubs hub ≡ None) }
    {
        self.store.index_of(hub)
    }

    /// A hub without its subscribers; None where no hub has the number.
    #[inline(always)]
    pub fn get(&self, hub: u64) -> Option<Published>
        ensures { result ≡ option_map published_of (find_hub self.now.hubs hub) }
    {
        self.store.published(self.store.index_of(hub)?)
    }

    /// The hub at an index at which there is one, without its subscribers.
    #[inline(always)]
    pub fn at(&self, index: usize) -> Published
        requires { IsSome (slice_get self.now.hubs index) }
        ensures { option_map published_of (slice_get self.now.hubs index) ≡ Some result }
    {
        self.store.at(index)
    }

    /// The hub at an index, without its subscribers: hubs stand by rising number. None past the last.
    pub fn nth(&self, index: usize) -> Option<Published>
        ensures { result ≡ option_map published_of (slice_get self.now.hubs index) }
    {
        self.store.published(index)
    }

    /// The key of a hub's oldest subscriber; None where it has none, and where no hub has the number.
    #[inline(always)]
    pub fn first_subscriber(&self, hub: u64) -> Option<Key>
        ensures { result ≡ option_and_then (λ (h : Hub). first_of h.subscribers) (find_hub self.now.hubs hub) }
    {
        self.store.first(self.store.index_of(hub)?)
    }

    /// The key of the next younger subscriber of the same hub; None for the youngest.
    #[inline(always)]
    pub fn next_subscriber(&self, key: Key) -> Option<Key>
        ensures { (n : _) (h : Hub) → find_hub self.now.hubs n ≡ Some h → IsTrue (is_on key h.subscribers) →
            result ≡ key_after key h.subscribers }
    {
        self.store.next(key)
    }

    /// Subscribes: the node of this key comes last among the hub's subscribers. It is newer than they
    /// are, and no subscriber stands at its slot, which was reserved for.
    #[inline(always)]
    pub fn subscribe(&mut self, index: usize, hub: u64, key: Key)
        requires there { StandsAt self.old.hubs index hub }
        requires newest { IfSome (find_hub self.old.hubs hub) (λ h. AreBelow key.number h.subscribers) }
        requires slot { key.slot < self.old.slots }
        requires free { IsFree self.old.hubs key.slot }
        ensures { self.new ≡ record self.old { hubs = at_hub hub (subscribed key) self.old.hubs } }
    {
        self.store.promise();
        let _ = hub;
        let is_quiet = is_steady(self.store.at(index));
        self.store.subscribe(index, key);
        self.noted = note_unless(
            is_quiet,
            self.noted,
            &self.store,
            &mut self.waiting,
            &mut self.due,
            index,
        );
    }

    /// Takes a subscriber away from its hub, when its node is closed. It takes the same time however
    /// many subscribers there are.
    #[inline(always)]
    pub fn leave(&mut self, hub: u64, key: Key)
        requires there { IsSome (find_hub self.old.hubs hub) }
        requires subscribes { IfSome (find_hub self.old.hubs hub) (λ h. IsTrue (is_on key h.subscribers)) }
        ensures { self.new ≡ record self.old { hubs = at_hub hub (unsubscribed key) self.old.hubs } }
    {
        let Some(index) = self.store.index_of(hub) else {
            unreachable!()
        };
        self.store.unsubscribe(index, key);
        let is_quiet = self.store.first(index).is_some();
        self.noted = note_unless(
            is_quiet,
            self.noted,
            &self.store,
            &mut self.waiting,
            &mut self.due,
            index,
        );
    }

    /// Gives the hub its open connection. It has none: a connection is never replaced.
    pub fn connect(&mut self, hub: u64, key: Key)
        requires there { IsSome (find_hub self.old.hubs hub) }
        requires unconnected { IfSome (find_hub self.old.hubs hub) (λ h. h.connection ≡ None) }
        ensures { self.new ≡ record self.old { hubs = at_hub hub (connected key) self.old.hubs } }
    {
        let Some(index) = self.store.index_of(hub) else {
            unreachable!()
        };
        self.store.connect(index, key);
        self.noted = note(&self.store, &mut self.waiting, &mut self.due, index);
    }

    /// Takes the hub's connection away, when its node is closed. Where it ended by itself, that end is
    /// kept in place of the one before: a subscriber that is older than its place ends in the same way,
    /// and one that comes later does not.
    #[inline(never)]
    pub fn disconnect(&mut self, hub: u64, ended: Option<LastEnd>)
        requires there { IsSome (find_hub self.old.hubs hub) }
        ensures { self.new ≡ record self.old { hubs = at_hub hub (disconnected ended) self.old.hubs } }
    {
        let Some(index) = self.store.index_of(hub) else {
            unreachable!()
        };
        self.store.disconnect(index, ended);
        self.noted = note(&self.store, &mut self.waiting, &mut self.due, index);
    }

    /// Whether no hub was changed so that something may be due there: then nothing is due at any.
    #[inline(always)]
    pub fn is_calm(&self) -> bool
        ensures { result ≡ true → IsQuiet self.now.hubs }
    {
        !self.noted
    }

    /// What a hub has to do next: connect, before anything else, where a hub with RefCount has a
    /// subscriber and no connection; end a subscriber as the connection ended that it had (Publish);
    /// close the connection of a hub with RefCount that nobody is subscribed to. None only where
    /// nothing is due at any hub.
    ///
    /// It looks at hubs alone that were changed since it last found nothing due there, and takes no
    /// memory.
    #[inline(always)]
    pub fn next_forced(&mut self) -> Option<HubDue>
        ensures due { IfSome result (IsDueIn self.old.hubs) }
        ensures concerns { IfSome result (ConcernsHub self.old.hubs) }
        ensures none { IfNone result (IsQuiet self.old.hubs) }
        ensures kept { self.new ≡ self.old }
    {
        if !self.noted {
            return None;
        }
        self.store.promise();
        let connect = next_at(&self.store, &mut self.waiting, Rule::Connect);
        if connect.is_some() {
            return connect;
        }
        let other = next_at(&self.store, &mut self.due, Rule::Other);
        self.noted = other.is_some();
        other
    }
}
