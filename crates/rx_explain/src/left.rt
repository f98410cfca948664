//! What a lawful history leaves of the nodes and hubs that its events made, in a table by number.

use crate::past::event_at;
use rx_event::Event;
use rx_note::Terminal;
use std::alloc::{AllocError, Global};

/// What is left of a node or a hub.
#[derive(Clone, Copy)]
pub struct Left {
    /// The node is open.
    pub is_open: bool,
    /// Its own end or closing, or the next inner of its Switch, took the node away.
    is_shut: bool,
    /// How the first child ended whose end the node has to pass on.
    pub child_end: Option<Terminal>,
    /// The source of the node completed.
    pub is_source_completed: bool,
    /// An open node stands directly below the node.
    pub has_child: bool,
    /// The last inner of the node.
    inner: Option<u64>,
    /// Where a connection of the hub ended last, and how.
    pub cut: Option<(u64, Terminal)>,
    /// The last open subscriber of the hub.
    pub subscriber: Option<u64>,
    /// The open subscriber of the same hub before this node.
    pub previous: Option<u64>,
}

/// Nothing yet.
const BLANK: Left = Left {
    is_open: false,
    is_shut: false,
    child_end: None,
    is_source_completed: false,
    has_child: false,
    inner: None,
    cut: None,
    subscriber: None,
    previous: None,
};

/// What is left of this number.
pub fn left_at(table: &[Left], n: u64) -> Left {
    match table.get(n as usize) {
        Some(left) => *left,
        None => BLANK,
    }
}

// Keeps what is left of this number.
fn keep(table: &mut [Left], n: u64, left: Left) {
    let at = n as usize;
    if at < table.len() {
        table[at] = left;
    }
}

// The end or the closing of a node.
fn shut(table: &mut [Left], n: u64) {
    let left = left_at(table, n);
    keep(
        table,
        n,
        Left {
            is_shut: true,
            ..left
        },
    );
}

// A child of a node ended.
fn child_ended(events: &[Event], table: &mut [Left], child: Event, terminal: Terminal) {
    let Some(above) = child.parent() else {
        return;
    };
    let mut left = left_at(table, above);
    let is_completed = terminal == Terminal::Completed;
    let is_merging = event_at(events, above).is_some_and(Event::is_merging);
    if left.child_end.is_none() && !(is_completed && is_merging) {
        left.child_end = Some(terminal);
    }
    if is_completed && child.source_of().is_some() {
        left.is_source_completed = true;
    }
    keep(table, above, left);
}

// A node ended at this place.
fn ended(events: &[Event], table: &mut [Left], place: u64, n: u64, terminal: Terminal) {
    shut(table, n);
    let Some(made) = event_at(events, n) else {
        return;
    };
    child_ended(events, table, made, terminal);
    if let Some(hub) = made.connects() {
        let left = left_at(table, hub);
        let cut = Some((place, terminal));
        keep(table, hub, Left { cut, ..left });
    }
}

// An inner of a node was opened at this place: a Switch unsubscribes from the one before.
fn inner_opened(events: &[Event], table: &mut [Left], place: u64, above: u64) {
    if !event_at(events, above).is_some_and(Event::is_switch) {
        return;
    }
    let left = left_at(table, above);
    if let Some(before) = left.inner {
        shut(table, before);
    }
    let inner = Some(place);
    keep(table, above, Left { inner, ..left });
}

// What the event at this place took away.
fn follow(events: &[Event], table: &mut [Left], place: u64, event: Event) {
    match event {
        Event::End(n, terminal) => ended(events, table, place, n, terminal),
        Event::Close(n) => shut(table, n),
        _ => {
            if let Some(above) = event.inner_of() {
                inner_opened(events, table, place, above);
            }
        }
    }
}

// The event made an open node at this place.
fn stands(table: &mut [Left], place: u64, event: Event) {
    let mut left = left_at(table, place);
    left.is_open = true;
    if let Some(hub) = event.subscribes_to() {
        let of_hub = left_at(table, hub);
        left.previous = of_hub.subscriber;
        let subscriber = Some(place);
        keep(
            table,
            hub,
            Left {
                subscriber,
                ..of_hub
            },
        );
    }
    keep(table, place, left);
    if let Some(above) = event.parent() {
        let left = left_at(table, above);
        keep(
            table,
            above,
            Left {
                has_child: true,
                ..left
            },
        );
    }
}

// Whether what the event made at this place is an open node, where it is known which nodes above it are.
fn is_standing(table: &[Left], place: u64, event: Event) -> bool {
    let is_below_open = match event.parent() {
        Some(above) => left_at(table, above).is_open,
        None => true,
    };
    event.makes_node() && is_below_open && !left_at(table, place).is_shut
}

/// What a lawful history leaves.
pub fn left_by(alloc: Global, events: &[Event]) -> Result<Vec<Left>, AllocError> {
    let mut table = vec![in alloc; BLANK; events.len()]?;
    for (place, event) in events.iter().enumerate() {
        follow(events, table.as_mut_slice(), place as u64, *event);
    }
    for (place, event) in events.iter().enumerate() {
        if is_standing(table.as_slice(), place as u64, *event) {
            stands(table.as_mut_slice(), place as u64, *event);
        }
    }
    Ok(table)
}
