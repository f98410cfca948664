//! What the rules force after a history that is not settled. A table of what is open tells which events these
//! are, or may be; the audit then says of an event that is tried whether it may come next.

use crate::fired::fired_by;
use crate::left::{Left, left_at, left_by};
use crate::past::event_at;
use rx_audit::{Verdict, audit};
use rx_event::Event;
use rx_note::Terminal;
use std::alloc::{AllocError, Global};

/// How many events are tried. The first is right, but where FlatMaps or Switches lost their last open child
/// after the last call: the table does not tell how many items they still owe.
const MOST_TRIED: u32 = 64;

/// A lawful history, with what is known of its end.
#[derive(Drop)]
struct Ending {
    /// What it leaves.
    left: Vec<Left>,
    /// The TakeUntils that its last call fired, by number.
    fired: Vec<bool>,
    /// The nodes below which its last call ended or closed a child, or declined an item, by number.
    stirred: Vec<bool>,
}

// Whether an event may follow a lawful history.
fn may_follow(alloc: Global, events: &[Event], next: Event) -> Result<bool, AllocError> {
    let mut longer = Vec::from_slice(alloc, events)?;
    longer.push(next)?;
    match audit(alloc, longer.as_slice()) {
        Ok(verdict) => Ok(!matches!(&verdict, Verdict::Unlawful { .. })),
        Err(_) => Err(AllocError),
    }
}

// A place that is not behind the last call: what rules force are ends, closings and connections.
fn last_call(events: &[Event]) -> usize {
    let mut last = 0;
    for (place, event) in events.iter().enumerate() {
        match event {
            Event::End(_, _) | Event::Close(_) | Event::Connect(_) => {}
            _ => last = place,
        }
    }
    last
}

// The node below which the event ended or closed a child, or declined an item.
fn stirred_by(events: &[Event], event: Event) -> Option<u64> {
    match event {
        Event::End(n, _) | Event::Close(n) => event_at(events, n)?.parent(),
        Event::Decline(n) => Some(n),
        _ => None,
    }
}

// The nodes that the last call, at this place, stirred.
fn stirred_from(alloc: Global, events: &[Event], call: usize) -> Result<Vec<bool>, AllocError> {
    let mut stirred = vec![in alloc; false; events.len()]?;
    for event in events.iter().skip(call) {
        if let Some(n) = stirred_by(events, *event) {
            let at = n as usize;
            if at < stirred.len() {
                stirred[at] = true;
            }
        }
    }
    Ok(stirred)
}

// The TakeUntils that the last call, at this place, fired.
fn fired_at(alloc: Global, events: &[Event], call: usize) -> Result<Vec<bool>, AllocError> {
    match (events.get(call), events.get(..call)) {
        (Some(Event::Item(leaf, _)), Some(before)) => fired_by(alloc, before, *leaf),
        _ => Ok(Vec::new(alloc)),
    }
}

// What is known of the end of a history.
fn end_of_history(alloc: Global, events: &[Event]) -> Result<Ending, AllocError> {
    let call = last_call(events);
    Ok(Ending {
        left: left_by(alloc, events)?,
        fired: fired_at(alloc, events, call)?,
        stirred: stirred_from(alloc, events, call)?,
    })
}

fn is_marked(marks: &[bool], n: u64) -> bool {
    marks.get(n as usize) == Some(&true)
}

// How a subscriber has to end whose connection ended after it was opened.
fn cut(ending: &Ending, n: u64, hub: u64) -> Option<Terminal> {
    let (place, terminal) = left_at(ending.left.as_slice(), hub).cut?;
    if n < place { Some(terminal) } else { None }
}

// How the open node has to end, which the event made.
fn end_due(ending: &Ending, n: u64, made: Event) -> Option<Terminal> {
    let left = left_at(ending.left.as_slice(), n);
    if left.child_end.is_some() {
        return left.child_end;
    }
    if let Some(hub) = made.subscribes_to() {
        return cut(ending, n, hub);
    }
    let is_over = made.is_merging()
        && left.is_source_completed
        && !left.has_child
        && is_marked(ending.stirred.as_slice(), n);
    if is_over || (made.is_until() && is_marked(ending.fired.as_slice(), n)) {
        return Some(Terminal::Completed);
    }
    None
}

// Whether the event made the connection of a hub with RefCount that has no open subscriber.
fn is_left(events: &[Event], ending: &Ending, made: Event) -> bool {
    match made.connects() {
        Some(hub) => {
            event_at(events, hub).is_some_and(Event::is_auto_hub)
                && left_at(ending.left.as_slice(), hub).subscriber.is_none()
        }
        None => false,
    }
}

// What the rules force at a node, which the event made, or may force.
fn due_at(events: &[Event], ending: &Ending, n: u64, made: Event) -> Option<Event> {
    if !left_at(ending.left.as_slice(), n).is_open {
        return None;
    }
    if let Some(terminal) = end_due(ending, n, made) {
        return Some(Event::End(n, terminal));
    }
    if is_left(events, ending, made) {
        return Some(Event::Close(n));
    }
    None
}

// What the rules force at an open node, the last such node first.
fn forced_at_node(alloc: Global, events: &[Event]) -> Result<Option<Event>, AllocError> {
    let ending = end_of_history(alloc, events)?;
    let mut left = MOST_TRIED;
    for (place, made) in events.iter().enumerate().rev() {
        if let Some(next) = due_at(events, &ending, place as u64, *made) {
            if left == 0 {
                return Ok(None);
            }
            left -= 1;
            if may_follow(alloc, events, next)? {
                return Ok(Some(next));
            }
        }
    }
    Ok(None)
}

/// An event that is forced after a lawful history that is not settled: the connection that its last event waits for,
/// or else what is due at an open node, the last such node first. None where of [`MOST_TRIED`] events that are
/// tried none is forced. All but these audits is linear in the events.
pub fn forced_after(alloc: Global, events: &[Event]) -> Result<Option<Event>, AllocError> {
    if let Some(hub) = events.last().copied().and_then(Event::subscribes_to) {
        let connection = Event::Connect(hub);
        if may_follow(alloc, events, connection)? {
            return Ok(Some(connection));
        }
    }
    forced_at_node(alloc, events)
}
