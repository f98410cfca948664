//! Where an item goes.

ghost use Rattle.std.specs.Prelude.{◌≡◌, ◌-◌, ◌<◌, IfOk, OnOk, is_some};
ghost use Rattle.rx_audit.specs.Imports.{ℕ, false, true, [], Some, None, length, sum_by, option_and_then, option_to_list, at, parent, stop_made};
ghost use Rattle.rx_audit.specs.Imports.{stop_at, onward_from, onward, open_subscribers};
ghost use Rattle.rx_audit.specs.Flow.{entered, AreEntered};
ghost use Rattle.rx_audit.specs.HubTables.{AreLinked, AreOpenListed, AreNestedListed};
ghost use Rattle.rx_audit.specs.Rules.{fired_by, projecting_node};

use crate::children::value_at;
use crate::event_tests::{at, event_at};
use crate::openness::parent_of;
use crate::subscribers::{Subscribers, subscribers_of};
use rx_event::{Event, Place};
use std::alloc::AllocError;

/// The FlatMap or Switch to which an item is projected at node `n`.
pub fn projected_at(past: &[Event], n: u64) -> Option<u64>
    ensures { result ≡ option_and_then projecting_node (stop_at past.now n) }
{
    let f = event_at(past, n as usize)?.source_of()?;
    if at(Event::is_merging, past, f) {
        Some(f)
    } else {
        None
    }
}

/// The TakeUntil that an item fires at node `n`.
pub fn fired_at(past: &[Event], n: u64) -> Option<u64>
    ensures { result ≡ option_and_then fired_by (stop_at past.now n) }
{
    event_at(past, n as usize)?.notifier_of()
}

/// Whether an item goes no further than node `n`, which the event made.
fn is_stop(past: &[Event], n: u64, event: Event) -> bool
    ensures { result ≡ is_some (stop_made past.now n event) }
{
    match event {
        Event::Open { place, .. } => match place {
            Place::Root | Place::Notifier(_) => true,
            Place::Source(f) => at(Event::is_merging, past, f),
            Place::Inner(_) => false,
        },
        _ => false,
    }
}

/// Whether an item goes no further than node `n`.
fn stops_at(past: &[Event], n: u64) -> bool
    ensures { result ≡ is_some (stop_at past.now n) }
{
    match event_at(past, n as usize) {
        Some(event) => is_stop(past, n, event),
        None => false,
    }
}

/// Puts the node into the list, if it is no root.
fn enter(past: &[Event], p: u64, next: &mut Vec<u64>) -> Result<(), AllocError>
    requires empty { next.old.items ≡ [] }
    ensures { OnOk result ((number : ℕ → ℕ) → sum_by number next.new.items ≡ entered past.now number p) }
{
    if !at(Event::is_root, past, p) {
        next.push(p)?;
    }
    Ok(())
}

/// How many nodes are above node `n`, 1 or 0. Puts it into the list, if it is no root.
fn parents(past: &[Event], n: u64, next: &mut Vec<u64>) -> Result<usize, AllocError>
    requires empty { next.old.items ≡ [] }
    ensures count { IfOk result (λ k. k ≡ length (option_to_list (parent past.now n))) }
    ensures next { OnOk result (AreEntered past.now next.new.items (option_to_list (parent past.now n))) }
{
    let Some(p) = parent_of(past, n as usize) else {
        return Ok(0);
    };
    enter(past, p, next)?;
    Ok(1)
}

/// How many open subscribers hub `g` has. Puts those that are no roots into the list.
fn subscribers(
    past: &[Event],
    subs: &Subscribers,
    nested: &Subscribers,
    g: u64,
    next: &mut Vec<u64>,
) -> Result<usize, AllocError>
    requires linked { AreLinked past.now (length subs.now.listed.items) subs.now }
    requires listed { AreOpenListed past.now subs.now }
    requires nested_linked { AreLinked past.now (length nested.now.listed.items) nested.now }
    requires nested_listed { AreNestedListed past.now nested.now }
    requires empty { next.old.items ≡ [] }
    ensures count { IfOk result (λ k. k ≡ length (open_subscribers past.now g)) }
    ensures next { OnOk result (AreEntered past.now next.new.items (open_subscribers past.now g)) }
{
    subscribers_of(past, nested, g, next)?;
    Ok(value_at(&subs.counts, g))
}

/// To how many nodes an item goes on from node `n`, which the event made. Puts those that are no roots into the
/// list.
fn onward_from(
    past: &[Event],
    subs: &Subscribers,
    nested: &Subscribers,
    n: u64,
    event: Event,
    next: &mut Vec<u64>,
) -> Result<usize, AllocError>
    requires linked { AreLinked past.now (length subs.now.listed.items) subs.now }
    requires listed { AreOpenListed past.now subs.now }
    requires nested_linked { AreLinked past.now (length nested.now.listed.items) nested.now }
    requires nested_listed { AreNestedListed past.now nested.now }
    requires empty { next.old.items ≡ [] }
    ensures count { IfOk result (λ k. k ≡ length (onward_from past.now n event)) }
    ensures next { OnOk result (AreEntered past.now next.new.items (onward_from past.now n event)) }
{
    match event {
        Event::Connect(g) => subscribers(past, subs, nested, g, next),
        _ => parents(past, n, next),
    }
}

/// To how many nodes an item goes on from node `n`. Puts those that are no roots into an empty list, in some
/// order: at a root an item changes nothing.
pub fn onward(
    past: &[Event],
    subs: &Subscribers,
    nested: &Subscribers,
    n: u64,
    next: &mut Vec<u64>,
) -> Result<usize, AllocError>
    requires linked { AreLinked past.now (length subs.now.listed.items) subs.now }
    requires listed { AreOpenListed past.now subs.now }
    requires nested_linked { AreLinked past.now (length nested.now.listed.items) nested.now }
    requires nested_listed { AreNestedListed past.now nested.now }
    requires empty { next.old.items ≡ [] }
    ensures count { IfOk result (λ k. k ≡ length (onward past.now n)) }
    ensures next { OnOk result (AreEntered past.now next.new.items (onward past.now n)) }
{
    if stops_at(past, n) {
        return Ok(0);
    }
    match event_at(past, n as usize) {
        Some(event) => onward_from(past, subs, nested, n, event, next),
        None => Ok(0),
    }
}
