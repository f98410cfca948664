//! What is wrong with a dump: which event is not one, and which of its elements.

use crate::walk::{Stop, Walk, tell};
use crate::wanted::{Wanted, shown};
use crate::words::{ENDS, EVENTS};
use rx_scenario::{KINDS, MODES, PLACES};
use serde_json::Value;
use std::alloc::Global;

/// What an event is.
const EVENT: Wanted = Wanted::Word(EVENTS);

/// The number of a node, a hub, a resource or a lease, or a tag.
const NUMBER: Wanted = Wanted::Number(0, u64::MAX);

/// An error's code.
const CODE: Wanted = Wanted::Number(0, 4_294_967_295);

const PLACE: Wanted = Wanted::Word(PLACES);

const KIND: Wanted = Wanted::Word(KINDS);

const MODE: Wanted = Wanted::Word(MODES);

const END: Wanted = Wanted::Word(ENDS);

// Whether the element of an event is this word.
fn is_word(event: &Value, place: usize, word: &str) -> bool {
    event.get(place).and_then(Value::as_str) == Some(word)
}

// What is wrong with the element at a place.
fn element_fault(alloc: Global, event: &Value, place: usize, wanted: Wanted) -> Walk {
    let Some(element) = event.get(place) else {
        let wanted = wanted.described(alloc)?;
        return tell(format!(in alloc; ", element {place}: missing; {wanted} is expected"));
    };
    if wanted.fits(element) {
        return Ok(());
    }
    let told = wanted.misfit(alloc, element)?;
    tell(format!(in alloc; ", element {place}: {told}"))
}

// What is wrong with an event that is to have just these elements.
fn elements_fault(alloc: Global, event: &Value, wanted: &[Wanted]) -> Walk {
    for (place, part) in wanted.iter().enumerate() {
        element_fault(alloc, event, place, *part)?;
    }
    let most = wanted.len();
    if event.get(most).is_none() {
        return Ok(());
    }
    tell(format!(in alloc; ", element {most}: one too many; the event has {most} elements"))
}

// What is wrong with the opening of a node.
fn open_fault(alloc: Global, event: &Value) -> Walk {
    if is_word(event, 1, "root") {
        if is_word(event, 2, "sub") {
            return elements_fault(alloc, event, &[EVENT, PLACE, KIND, NUMBER]);
        }
        return elements_fault(alloc, event, &[EVENT, PLACE, KIND]);
    }
    if is_word(event, 3, "sub") {
        return elements_fault(alloc, event, &[EVENT, PLACE, NUMBER, KIND, NUMBER]);
    }
    elements_fault(alloc, event, &[EVENT, PLACE, NUMBER, KIND])
}

// What is wrong with the end of a node.
fn end_fault(alloc: Global, event: &Value) -> Walk {
    if is_word(event, 2, "error") {
        return elements_fault(alloc, event, &[EVENT, NUMBER, END, CODE]);
    }
    elements_fault(alloc, event, &[EVENT, NUMBER, END])
}

// The events whose elements are the same in each, and what is expected behind the word.
static ELEMENTS: [(&str, Wanted, Option<Wanted>); 11] = [
    ("hub", MODE, None),
    ("connect", NUMBER, None),
    ("accept", NUMBER, Some(NUMBER)),
    ("use", NUMBER, None),
    ("remove", NUMBER, None),
    ("lease", NUMBER, None),
    ("return", NUMBER, None),
    ("item", NUMBER, Some(Wanted::Item)),
    ("decline", NUMBER, None),
    ("close", NUMBER, None),
    ("take", NUMBER, None),
];

// What is expected behind this word, if the events that begin with it have the same elements in each.
fn elements_of(word: &str) -> Option<(Wanted, Option<Wanted>)> {
    for &(known, first, second) in &ELEMENTS {
        if known == word {
            return Some((first, second));
        }
    }
    None
}

// What is wrong with an event of this word that is neither an opening nor an end.
fn other_fault(alloc: Global, event: &Value, word: &str) -> Walk {
    match elements_of(word) {
        Some((first, Some(second))) => elements_fault(alloc, event, &[EVENT, first, second]),
        Some((first, None)) => elements_fault(alloc, event, &[EVENT, first]),
        None => elements_fault(alloc, event, &[EVENT]),
    }
}

// What is wrong with an event.
fn event_fault(alloc: Global, event: &Value) -> Walk {
    if !event.is_array() {
        let shown = shown(alloc, event)?;
        return tell(format!(in alloc; ": an event is an array, and this is {shown}"));
    }
    let word = event.get(0usize).and_then(Value::as_str).unwrap_or("");
    if word == "open" {
        return open_fault(alloc, event);
    }
    if word == "end" {
        return end_fault(alloc, event);
    }
    other_fault(alloc, event, word)
}

/// What is wrong with an array, or with the member `dump` of an object, that is not a dump.
pub fn dump_fault(alloc: Global, dump: &Value) -> Walk {
    let Some(events) = dump.as_array() else {
        let shown = shown(alloc, dump)?;
        return tell(format!(in alloc;
            ".dump: an array of events is expected, and this is {shown}"
        ));
    };
    for (place, event) in events.iter().enumerate() {
        match event_fault(alloc, event) {
            Err(Stop::Told(told)) => return tell(format!(in alloc; "event {place}{told}")),
            walk => walk?,
        }
    }
    Ok(())
}
