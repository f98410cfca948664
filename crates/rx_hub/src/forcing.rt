//! What the hubs have to do.

ghost use Rattle.std.specs.Prelude.{◌≡◌, IfSome, IfNone, slice_get};
ghost use Rattle.std.specs.Option.{option_and_then};
ghost use Rattle.rx_hub.specs.Chains.{IsCalm, IsChain, IsAt};
ghost use Rattle.rx_hub.specs.Due.{is_auto, is_cut};
ghost use Rattle.rx_hub.specs.Rules.{connect_by, due_by, given_by};
ghost use Rattle.rx_slots.specs.Lists.{head_of, list_at};

use crate::hub::{HubDue, LastEnd, Published};
use crate::store::Store;
use rx_event::Mode;
use rx_slots::{Key, Rings};

/// Which of a hub's rules are asked for.
#[derive(Clone, Copy)]
pub(crate) enum Rule {
    /// That it connects: before anything else.
    Connect,
    /// That a subscriber ends, or the connection closes.
    Other,
}

// Whether a hub connects by itself.
#[inline(always)]
fn is_auto(mode: Mode) -> bool
    ensures { result ≡ is_auto mode }
{
    match mode {
        Mode::Auto => true,
        Mode::Manual => false,
    }
}

// Whether a subscriber is older than the end.
#[inline(always)]
fn is_cut(last: Option<LastEnd>, key: Key) -> bool
    ensures { result ≡ is_cut last key }
{
    match last {
        Some(end) => key.number < end.place,
        None => false,
    }
}

// The Connect that a hub's youngest subscriber asks for.
#[inline(always)]
fn connect_by(hub: Published, youngest: Option<Key>) -> Option<HubDue>
    ensures { result ≡ connect_by hub youngest }
{
    let key = youngest?;
    if !is_auto(hub.mode) {
        return None;
    }
    if hub.connection.is_some() {
        return None;
    }
    if is_cut(hub.last_end, key) {
        return None;
    }
    Some(HubDue::Connect(hub.number))
}

// What else is due where this is a hub's oldest subscriber.
#[inline(always)]
fn due_by(hub: Published, oldest: Option<Key>) -> Option<HubDue>
    ensures { result ≡ due_by hub oldest }
{
    if let Some(key) = oldest {
        let end = hub.last_end?;
        if key.number < end.place {
            return Some(HubDue::End(key, end.terminal));
        }
        return None;
    }
    if !is_auto(hub.mode) {
        return None;
    }
    let connection = hub.connection?;
    Some(HubDue::Close(connection))
}

// What a rule gives at an index.
pub(crate) fn due_at(store: &Store, rule: Rule, index: usize) -> Option<HubDue>
    ensures { result ≡ option_and_then (given_by rule) (slice_get store.now.hubs index) }
{
    store.promise();
    let hub = store.published(index)?;
    match rule {
        Rule::Connect => connect_by(hub, store.last(index)),
        Rule::Other => due_by(hub, store.first(index)),
    }
}

// What a rule gives at some hub; None only where it gives nothing at any. It drops what stands on the
// chain before that hub.
#[inline(always)]
pub(crate) fn next_at(store: &Store, chain: &mut Rings, rule: Rule) -> Option<HubDue>
    requires calm { IsCalm (given_by rule) store.now.hubs chain.old }
    requires chain { IsChain chain.old }
    ensures calm { IsCalm (given_by rule) store.now.hubs chain.new }
    ensures chain { IsChain chain.new }
    ensures members { chain.new.members ≡ chain.old.members }
    ensures some { IfSome result (IsAt (given_by rule) store.now.hubs) }
    ensures none { IfNone result ((i : _) (hub : _) → slice_get store.now.hubs i ≡ Some hub →
        given_by rule hub ≡ None) }
    ensures empty { IfNone result (head_of (list_at chain.new 0) ≡ None) }
{
    while let Some(index) = chain.first(0) {
        let due = due_at(store, rule, index);
        if due.is_some() {
            return due;
        }
        chain.promise();
        chain.leave(index);
    }
    None
}
