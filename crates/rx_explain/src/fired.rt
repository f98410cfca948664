//! Which TakeUntils the item of the last call fired.

use crate::left::{Left, left_at, left_by};
use crate::past::event_at;
use rx_event::Event;
use std::alloc::{AllocError, Global};

/// The climb of an item: what was open before it, the nodes that are still to be visited, the nodes that were
/// reached, and the TakeUntils that were fired, both by number.
#[derive(Drop)]
struct Climb {
    before: Vec<Left>,
    todo: Vec<u64>,
    reached: Vec<bool>,
    fired: Vec<bool>,
}

// Marks a number; false where it was marked before, or has no mark.
fn mark(marks: &mut [bool], n: u64) -> bool {
    let at = n as usize;
    if at < marks.len() && !marks[at] {
        marks[at] = true;
        return true;
    }
    false
}

// The item reaches a node.
fn reach(climb: &mut Climb, n: u64) -> Result<(), AllocError> {
    if mark(climb.reached.as_mut_slice(), n) {
        climb.todo.push(n)?;
    }
    Ok(())
}

// The item reaches each open subscriber of a hub.
fn reach_subscribers(climb: &mut Climb, hub: u64) -> Result<(), AllocError> {
    let mut next = left_at(climb.before.as_slice(), hub).subscriber;
    for _subscriber in 0..climb.before.len() {
        let Some(n) = next else {
            return Ok(());
        };
        reach(climb, n)?;
        next = left_at(climb.before.as_slice(), n).previous;
    }
    Ok(())
}

// The item goes on from a node, which the event made.
fn visit(events: &[Event], climb: &mut Climb, made: Event) -> Result<(), AllocError> {
    if let Some(hub) = made.connects() {
        return reach_subscribers(climb, hub);
    }
    if let Some(until) = made.notifier_of() {
        let _is_new = mark(climb.fired.as_mut_slice(), until);
        return Ok(());
    }
    let Some(above) = made.parent() else {
        return Ok(());
    };
    let is_projected = made.source_of().is_some()
        && event_at(events, above).is_some_and(Event::is_merging);
    if is_projected {
        return Ok(());
    }
    reach(climb, above)
}

/// The TakeUntils that an item fired, by number: the item of this leaf, after these events.
pub fn fired_by(alloc: Global, events: &[Event], leaf: u64) -> Result<Vec<bool>, AllocError> {
    let mut climb = Climb {
        before: left_by(alloc, events)?,
        todo: Vec::new(alloc),
        reached: vec![in alloc; false; events.len()]?,
        fired: vec![in alloc; false; events.len()]?,
    };
    reach(&mut climb, leaf)?;
    for _visit in 0..events.len() {
        let Some(n) = climb.todo.pop() else {
            break;
        };
        if let Some(made) = event_at(events, n) {
            visit(events, &mut climb, made)?;
        }
    }
    Ok(climb.fired)
}
