//! The place at which each node is itself taken away: by its end, its closing, or the opening of
//! the next inner of its Switch.

ghost use Rattle.std.specs.Prelude.{◌≡◌, ◌+◌, IfOk};
ghost use Rattle.rx_picture.specs.Imports.{length, slice_get, option_and_then, at, if_less, is_switch, inner_named};
ghost use Rattle.rx_picture.specs.Tables.{AreTurns, was_shut, switch_of, if_switch, stopped_of, shut_key, number_before, latest_of, inner_with};

use crate::event_tests::{at, event_at};
use crate::firsts::{filled, note, value_at};
use rx_event::Event;
use std::alloc::{AllocError, Global};

/// Whether there is a Switch at the place.
fn is_switch_at(events: &[Event], f: u64) -> bool
    ensures { result ≡ at is_switch events.now f }
{
    at(Event::is_switch, events, f)
}

/// The number, if it is below the place and that of a Switch.
fn if_switch(events: &[Event], place: usize, f: u64) -> Option<u64>
    ensures { result ≡ if_switch events.now place f }
{
    if f < place as u64 && is_switch_at(events, f) {
        Some(f)
    } else {
        None
    }
}

/// The FlatMap or Switch of which the event at the place opens an inner.
fn inner_at(events: &[Event], place: usize) -> Option<u64>
    ensures { result ≡ option_and_then inner_named (slice_get events.now place) }
{
    event_at(events, place)?.inner_of()
}

/// The Switch of which the event at the place opens an inner.
fn switch_of(events: &[Event], place: usize) -> Option<u64>
    ensures { result ≡ switch_of events.now place }
{
    if_switch(events, place, inner_at(events, place)?)
}

/// The number, if it is below the place.
fn below(n: u64, place: usize) -> Option<u64>
    ensures { result ≡ if_less place n }
{
    if n < place as u64 { Some(n) } else { None }
}

/// One number less, if it is not 0.
fn number_before(value: usize) -> Option<u64>
    ensures { result ≡ number_before value }
{
    if value > 0 {
        Some(value as u64 - 1)
    } else {
        None
    }
}

/// The last inner of the Switch.
fn latest_of(inner: &Vec<usize>, key: Option<u64>) -> Option<u64>
    ensures { result ≡ latest_of inner.now.items key }
{
    number_before(value_at(inner, key?))
}

/// The node that the event ends or closes.
fn stopped(event: Event) -> Option<u64>
    ensures { result ≡ stopped_of event }
{
    match event {
        Event::End(n, _) => Some(n),
        Event::Close(n) => Some(n),
        _ => None,
    }
}

/// The node that the event at the place ends or closes.
fn stopped_at(events: &[Event], place: usize) -> Option<u64>
    ensures { result ≡ option_and_then stopped_of (slice_get events.now place) }
{
    stopped(event_at(events, place)?)
}

/// The number of the node that the event at the place itself takes away, if there is one.
fn shut_by(events: &[Event], place: usize, inner: &Vec<usize>) -> Option<u64>
    ensures { result ≡ shut_key events.now inner.now.items place }
{
    match stopped_at(events, place) {
        Some(n) => below(n, place),
        None => latest_of(inner, switch_of(events, place)),
    }
}

/// Writes the value at the place of the Switch, if there is one.
fn set_inner(inner: &mut Vec<usize>, key: Option<u64>, value: usize)
    ensures { inner.new.items ≡ inner_with inner.old.items key value }
{
    if let Some(f) = key {
        let f = f as usize;
        if f < inner.len() {
            inner[f] = value;
        }
    }
}

/// By node: the place of the first event that itself takes it away, and the number of events where
/// none does.
pub fn shuttings(alloc: Global, events: &[Event]) -> Result<Vec<usize>, AllocError>
    ensures { IfOk result (λ v. AreTurns events.now was_shut (length events.now) v.items) }
{
    let mut table = filled(alloc, events.len(), events.len())?;
    let mut inner = filled(alloc, 0, events.len())?;
    for place in 0..events.len() {
        let shut = shut_by(events, place, &inner);
        note(&mut table, shut, place);
        let opened = switch_of(events, place);
        set_inner(&mut inner, opened, place + 1);
    }
    Ok(table)
}
