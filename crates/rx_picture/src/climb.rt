//! Where an item goes, after the events before its place.

ghost use Rattle.std.specs.Prelude.{◌≡◌, ◌&&◌, ◌++◌, IfOk, OnOk, is_some, reverse};
ghost use Rattle.rx_picture.specs.Imports.{length, option_and_then, option_to_list, is_merging, is_subscriber_of, at, is_open, open_subscribers};
ghost use Rattle.rx_picture.specs.Imports.{parent, stop_made, stop_at, onward_from, onward, climb, told};
ghost use Rattle.rx_picture.specs.Told.{AreEndsOf};

use crate::event_tests::{at, event_at};
use crate::firsts::value_at;
use crate::lines::parent_of;
use rx_event::{Event, MOST_VISITS, Mail, Place};
use rx_note::Note;
use std::alloc::{AllocError, Global};

/// Whether there is a FlatMap or a Switch at the place.
fn is_merging_at(past: &[Event], f: u64) -> bool
    ensures { result ≡ at is_merging past.now f }
{
    at(Event::is_merging, past, f)
}

/// What a leaf emits.
#[derive(Clone, Copy)]
pub struct Emitted {
    /// The item.
    pub value: i64,
}

/// What an item says that arrives at node `n`, which the event made.
fn mail_of(past: &[Event], n: u64, event: Event, item: Emitted) -> Option<Mail>
    ensures { result ≡ option_and_then (told (length past.now) item.value) (stop_made past.now n event) }
{
    let value = item.value;
    let place = past.len() as u64;
    match event {
        Event::Open {
            place: Place::Root,
            ..
        } => Some(Mail {
            place,
            to: n,
            note: Note::Next(value),
        }),
        Event::Open {
            place: Place::Source(f),
            ..
        } => {
            if is_merging_at(past, f) {
                Some(Mail {
                    place,
                    to: f,
                    note: Note::Project(value),
                })
            } else {
                None
            }
        }
        _ => None,
    }
}

/// What an item says that arrives at node `n`, if it stops there and tells somebody.
pub fn mail_at(past: &[Event], n: u64, item: Emitted) -> Option<Mail>
    ensures { result ≡ option_and_then (told (length past.now) item.value) (stop_at past.now n) }
{
    mail_of(past, n, event_at(past, n as usize)?, item)
}

/// Whether an item goes no further than node `n`, which the event made.
fn is_stop(past: &[Event], n: u64, event: Event) -> bool
    ensures { result ≡ is_some (stop_made past.now n event) }
{
    match event {
        Event::Open { place, .. } => match place {
            Place::Root | Place::Notifier(_) => true,
            Place::Source(f) => is_merging_at(past, f),
            Place::Inner(_) => false,
        },
        _ => false,
    }
}

/// Whether an item goes no further than node `n`.
fn stops_at(past: &[Event], n: u64) -> bool
    ensures { result ≡ is_some (stop_at past.now n) }
{
    match event_at(past, n as usize) {
        Some(event) => is_stop(past, n, event),
        None => false,
    }
}

/// Whether node `n` is open after these events.
fn is_open_after(past: &[Event], ends: &[usize], n: u64) -> bool
    requires { AreEndsOf past.now ends.now }
    ensures { result ≡ is_open past.now n }
{
    n < past.len() as u64 && value_at(ends, n) >= past.len()
}

/// Whether node `k` is an open subscriber of hub `g`.
fn is_open_subscriber(past: &[Event], ends: &[usize], g: u64, k: u64) -> bool
    requires { AreEndsOf past.now ends.now }
    ensures { result ≡ (at (is_subscriber_of g) past.now k && is_open past.now k) }
{
    event_at(past, k as usize).is_some_and(|e| e.subscribes_to() == Some(g))
        && is_open_after(past, ends, k)
}

/// The open subscribers of hub `g`.
fn open_subscribers(
    alloc: Global,
    past: &[Event],
    ends: &[usize],
    g: u64,
) -> Result<Vec<u64>, AllocError>
    requires { AreEndsOf past.now ends.now }
    ensures { IfOk result (λ v. v.items ≡ open_subscribers past.now g) }
{
    (0..past.len() as u64)
        .filter(|k| is_open_subscriber(past, ends, g, *k))
        .collect(alloc)
}

/// The node above node `n`, if there is one.
fn parents(alloc: Global, past: &[Event], n: u64) -> Result<Vec<u64>, AllocError>
    ensures { IfOk result (λ v. v.items ≡ option_to_list (parent past.now n)) }
{
    match parent_of(past, n as usize) {
        Some(p) => Ok(vec![in alloc; p]?),
        None => Ok(Vec::new(alloc)),
    }
}

/// Where an item goes on from node `n`, which the event made.
fn onward_from(
    alloc: Global,
    past: &[Event],
    ends: &[usize],
    n: u64,
    event: Event,
) -> Result<Vec<u64>, AllocError>
    requires { AreEndsOf past.now ends.now }
    ensures { IfOk result (λ v. v.items ≡ onward_from past.now n event) }
{
    match event {
        Event::Connect(g) => open_subscribers(alloc, past, ends, g),
        _ => parents(alloc, past, n),
    }
}

/// Where an item goes on from node `n`.
fn onward(alloc: Global, past: &[Event], ends: &[usize], n: u64) -> Result<Vec<u64>, AllocError>
    requires { AreEndsOf past.now ends.now }
    ensures { IfOk result (λ v. v.items ≡ onward past.now n) }
{
    if stops_at(past, n) {
        return Ok(Vec::new(alloc));
    }
    match event_at(past, n as usize) {
        Some(event) => onward_from(alloc, past, ends, n, event),
        None => Ok(Vec::new(alloc)),
    }
}

/// Puts where an item goes on from node `n` on the end of the list, the first last.
fn push_onward(
    alloc: Global,
    todo: &mut Vec<u64>,
    past: &[Event],
    ends: &[usize],
    n: u64,
) -> Result<(), AllocError>
    requires { AreEndsOf past.now ends.now }
    ensures { OnOk result (todo.new.items ≡ todo.old.items ++ reverse (onward past.now n)) }
{
    let mut next = onward(alloc, past, ends, n)?;
    next.reverse();
    todo.extend_from_slice(next.as_slice())
}

/// The nodes that an item of the leaf visits, in order, each as often as it is reached.
pub fn climb(
    alloc: Global,
    past: &[Event],
    ends: &[usize],
    leaf: u64,
) -> Result<Vec<u64>, AllocError>
    requires { AreEndsOf past.now ends.now }
    ensures { IfOk result (λ v. v.items ≡ climb past.now leaf) }
{
    let mut visits = Vec::new(alloc);
    let mut todo = vec![in alloc; leaf]?;
    for step in 0..MOST_VISITS + 1 {
        let Some(n) = todo.pop() else {
            return Ok(visits);
        };
        visits.push(n)?;
        push_onward(alloc, &mut todo, past, ends, n)?;
    }
    Ok(visits)
}
