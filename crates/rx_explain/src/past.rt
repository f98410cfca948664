//! A settled history, what is open at its end, and the event that is to come next.

use rx_dump::{Names, label};
use rx_event::{Event, Place};
use std::alloc::{AllocError, Global};
use std::collections::HashSet;

/// A settled history, with the names of its numbers, with the numbers of the open nodes, as the audit found them, and
/// with the event that is to come next.
#[derive(Clone, Copy)]
pub struct Past<'a> {
    pub events: &'a [Event],
    pub names: Names<'a>,
    pub live: &'a [u64],
    pub next: Event,
}

/// A number, and its name behind it if it has one.
pub fn shown(past: Past<'_>, n: u64) -> Result<String, AllocError> {
    label(past.names, n)
}

/// The event at a place.
pub fn event_at(events: &[Event], place: u64) -> Option<Event> {
    events.get(place as usize).copied()
}

/// The open connection of a hub.
pub fn connection_of(past: Past<'_>, hub: u64) -> Option<u64> {
    for node in past.live {
        if event_at(past.events, *node) == Some(Event::Connect(hub)) {
            return Some(*node);
        }
    }
    None
}

/// The node above a node.
pub fn parent_of(events: &[Event], node: u64) -> Option<u64> {
    match event_at(events, node) {
        Some(Event::Open { place, .. }) => place.above(),
        _ => None,
    }
}

// The event that ended or closed a node by its number.
fn named_end(events: &[Event], node: u64) -> Option<usize> {
    for (place, event) in events.iter().enumerate() {
        if event.ended() == Some(node) || *event == Event::Close(node) {
            return Some(place);
        }
    }
    None
}

/// The event that ended or closed a node, or one above it, where that is found near above.
pub fn end_of(events: &[Event], node: u64) -> Option<usize> {
    let mut here = node;
    for _level in 0..64u32 {
        let end = named_end(events, here);
        if end.is_some() {
            return end;
        }
        here = parent_of(events, here)?;
    }
    None
}

/// The first opening at this place.
pub fn opening_at(events: &[Event], wanted: Place) -> Option<usize> {
    for (place, event) in events.iter().enumerate() {
        if let Event::Open { place: site, .. } = event {
            if *site == wanted {
                return Some(place);
            }
        }
    }
    None
}

/// The first place of an event.
pub fn place_of(events: &[Event], wanted: Event) -> Option<usize> {
    for (place, event) in events.iter().enumerate() {
        if *event == wanted {
            return Some(place);
        }
    }
    None
}

/// The last event that gave a lease of this resource back.
pub fn last_return_of(events: &[Event], resource: u64) -> Option<usize> {
    let mut last = None;
    for (place, event) in events.iter().enumerate() {
        if let Event::Return(lease) = event {
            if event_at(events, *lease) == Some(Event::Lease(resource)) {
                last = Some(place);
            }
        }
    }
    last
}

/// The first lease of this resource that is out.
pub fn lease_out(
    alloc: Global,
    events: &[Event],
    resource: u64,
) -> Result<Option<usize>, AllocError> {
    let mut returned = HashSet::new(alloc);
    for event in events {
        if let Event::Return(lease) = event {
            if returned.insert(*lease).is_err() {
                return Err(AllocError);
            }
        }
    }
    for (place, event) in events.iter().enumerate() {
        if *event == Event::Lease(resource) && !returned.contains(&(place as u64)) {
            return Ok(Some(place));
        }
    }
    Ok(None)
}
