//! The list of the nodes that may have to end or to close.

ghost use Rattle.std.specs.Prelude.{◌≡◌, ◌+◌, ◌<◌, ◌&&◌, ◌||◌, ◌↔◌, OnOk, ◌∷◌, ◌++◌, is_some};
ghost use Rattle.rx_audit.specs.Imports.{nothing_kept, ℕ, IsTrue, true, false, Some, [], length, take, Event, is_open, IsSettled, IsLawful, MayFollow};
ghost use Rattle.rx_audit.specs.Latest.{IsNoted};
ghost use Rattle.rx_audit.specs.Tables.{IsMarked};
ghost use Rattle.rx_audit.specs.Marking.{IsKept, IsCovered, IsUntouched, node_due};
ghost use Rattle.rx_audit.specs.DueList.{acts, Keeps, HasEnded, HasLost, IsLostNoted, lost_connection};
ghost use Rattle.rx_audit.specs.HubTables.{AreLinked, AreOpenListed, on_list};
ghost use Rattle.rx_audit.specs.Rules.{is_disconnected};
ghost use Rattle.rx_audit.specs.Standing.{IsKnown};

use crate::advance::Nodes;
use crate::children::value_at;
use crate::event_tests::event_at;
use crate::forced::{any_connect_due, close_due, is_disconnected};
use crate::hubs::{Hubs, hub_ended};
use crate::marks::is_marked;
use crate::nodes::{marks_at, touched};
use crate::subscribers::{Subscribers, hub_subscribed_at, number_by_word};
use rx_event::Event;
use rx_marks::Marks;
use std::alloc::AllocError;

/// Whether node `n` has to end, by its marks.
fn node_due(past: &[Event], live: &[bool], marks: &Vec<Marks>, n: usize) -> bool
    requires live { IsMarked live.now (is_open past.now) }
    requires kept { IsKept past.now marks.now.items }
    ensures { result ≡ node_due past.now n }
{
    if !is_marked(live, n as u64) {
        return false;
    }
    match event_at(past, n) {
        Some(made) => marks_at(marks, n as u64).terminal_due(made).is_some(),
        None => false,
    }
}

/// Whether node `n` is open, and its source ended.
fn is_cut_off(past: &[Event], live: &[bool], nodes: &Nodes, n: usize) -> bool
    requires { IsKnown past.now live.now nodes.now }
    ensures { result ≡ (is_open past.now n && is_disconnected past.now n) }
{
    is_marked(live, n as u64) && is_disconnected(past, live, nodes, n as u64)
}

/// Whether node `n` has to end or to close.
#[tactic(auto, unfolding(crate::specs::DueList::acts))]
fn acts(past: &[Event], live: &[bool], nodes: &Nodes, n: usize) -> bool
    requires { IsKnown past.now live.now nodes.now }
    ensures { result ≡ acts past.now n }
{
    node_due(past, live, &nodes.marks, n)
        || is_cut_off(past, live, nodes, n)
        || close_due(past, live, nodes, n as u64)
}

/// Keeps the first so many numbers of the list.
fn keep_first(list: &mut Vec<usize>, count: usize)
    ensures { list.new.items ≡ take count list.old.items }
{
    list.truncate(count);
}

/// Whether operators have nothing left to do. What was looked at on the list and has nothing to do is
/// taken off it, so each entry is looked at once.
pub fn settle(past: &[Event], live: &[bool], nodes: &mut Nodes) -> bool
    requires { IsKnown past.now live.now nodes.old }
    ensures answer { IsTrue result ↔ IsSettled nothing_kept past.now }
    ensures known { IsKnown past.now live.now nodes.new }
{
    if any_connect_due(past, live, nodes) {
        return false;
    }
    let mut left = nodes.due.len();
    while left > 0 {
        let n = nodes.due[left - 1];
        if acts(past, live, nodes, n) {
            keep_first(&mut nodes.due, left);
            return false;
        }
        left -= 1;
    }
    nodes.due.clear();
    true
}

/// Notes the node whose marks the event changes, which is no item that changes any.
pub fn note_touched(past: &[Event], event: Event, due: &mut Vec<usize>) -> Result<(), AllocError>
    requires lawful { IsLawful nothing_kept past.now }
    requires next { MayFollow nothing_kept past.now event }
    requires no_item { IsUntouched past.now event }
    requires covered { IsCovered past.now due.old.items }
    ensures covered { OnOk result (IsCovered (past.now ++ event ∷ []) due.new.items) }
    ensures keeps { OnOk result (Keeps due.old.items due.new.items) }
{
    if let Some(p) = touched(past, event) {
        due.push(p as usize)?;
    }
    Ok(())
}

/// Notes each open subscriber of hub `g`.
fn note_subscribers(
    past: &[Event],
    subs: &Subscribers,
    g: u64,
    due: &mut Vec<usize>,
) -> Result<(), AllocError>
    requires { AreLinked past.now (length subs.now.listed.items) subs.now }
    ensures keeps { OnOk result (Keeps due.old.items due.new.items) }
    ensures all { OnOk result ((s : ℕ) → on_list past.now subs.now.listed.items g s ≡ true → IsNoted 0 due.new.items s) }
{
    let mut next = value_at(&subs.last, g);
    while next > 0 {
        let s = next - 1;
        due.push(s)?;
        next = value_at(&subs.before, s as u64);
    }
    Ok(())
}

/// Notes each open subscriber of the hub whose connection the event ends, if it ends one.
pub fn note_cut(
    past: &[Event],
    event: Event,
    subs: &Subscribers,
    due: &mut Vec<usize>,
) -> Result<(), AllocError>
    requires linked { AreLinked past.now (length subs.now.listed.items) subs.now }
    requires listed { AreOpenListed past.now subs.now }
    ensures keeps { OnOk result (Keeps due.old.items due.new.items) }
    ensures ended { OnOk result (HasEnded past.now event due.new.items) }
{
    match hub_ended(past, event) {
        Some(g) => {
            note_subscribers(past, subs, g, due)?;
            Ok(())
        }
        None => Ok(()),
    }
}

/// The last connection of the hub of node `s`, if it subscribes to one.
fn lost_connection(past: &[Event], hubs: &Hubs, s: u64) -> Option<u64>
    ensures { result ≡ lost_connection past.now hubs.now.connection.items s }
{
    number_by_word(value_at(&hubs.connection, hub_subscribed_at(past, s)?))
}

/// Notes it.
fn note_connection(
    past: &[Event],
    hubs: &Hubs,
    s: u64,
    due: &mut Vec<usize>,
) -> Result<(), AllocError>
    ensures keeps { OnOk result (Keeps due.old.items due.new.items) }
    ensures lost { OnOk result (IsLostNoted past.now s hubs.now.connection.items due.new.items) }
{
    if let Some(c) = lost_connection(past, hubs, s) {
        due.push(c as usize)?;
    }
    Ok(())
}

/// Notes the connection of the hub of each subscriber that was closed, and the node that the event
/// may make.
pub fn note_left(
    past: &[Event],
    closed: &[usize],
    hubs: &Hubs,
    due: &mut Vec<usize>,
) -> Result<(), AllocError>
    ensures keeps { OnOk result (Keeps due.old.items due.new.items) }
    ensures lost { OnOk result (HasLost past.now closed.now hubs.now.connection.items due.new.items) }
    ensures new { OnOk result (IsNoted 0 due.new.items (length past.now)) }
{
    for s in closed {
        note_connection(past, hubs, *s as u64, due)?;
    }
    due.push(past.len())?;
    Ok(())
}
