//! The history so far: an event of it, or all of it as a dump.

ghost use Rattle.std.specs.Prelude.{◌≡◌, ◌≢◌, true, false, string_bytes, IfOk, MatchOption};
ghost use Rattle.rx_dump.specs.Dump.{dump};
ghost use Rattle.rx_cellar.specs.EventsShown.{event_of, no_event, place_code, kind_code, opened_event, ended_event};

use crate::reading::Event as Shown;
use rx_book::{Book, Event, Kind, Mode, Terminal};
use rx_dump::push_dump;
use rx_event::Place;
use rx_resource::Token;
use std::alloc::{AllocError, Global};

/// No event.
pub fn no_event() -> Shown
    ensures { result ≡ no_event }
{
    Shown {
        what: 0,
        place: 0,
        kind: 0,
        how: 0,
        spare: 0,
        of: 0,
        other: 0,
        value: 0,
    }
}

// An event of this sort that names one number.
fn of_one(what: u8, number: u64) -> Shown
    ensures { result ≡ record no_event { what = what; of = number } }
{
    Shown {
        what,
        of: number,
        ..no_event()
    }
}

// The code of a place, and the number of the node above.
fn place_code(place: Place) -> (u8, u64)
    ensures { result ≡ place_code place }
{
    match place {
        Place::Root => (0, 0),
        Place::Source(above) => (1, above),
        Place::Inner(above) => (2, above),
        Place::Notifier(above) => (3, above),
    }
}

// The code of a kind, and the number of its hub.
fn kind_code(kind: Kind) -> (u8, u64)
    ensures { result ≡ kind_code kind }
{
    match kind {
        Kind::Leaf => (0, 0),
        Kind::Pass => (1, 0),
        Kind::Flat => (2, 0),
        Kind::Switch => (3, 0),
        Kind::Until => (4, 0),
        Kind::Sub(hub) => (5, hub),
    }
}

fn opened(place: Place, kind: Kind) -> Shown
    ensures { result ≡ opened_event place kind }
{
    let (code, above) = place_code(place);
    let (made, hub) = kind_code(kind);
    Shown {
        place: code,
        kind: made,
        of: above,
        other: hub,
        ..no_event()
    }
}

fn ended(node: u64, terminal: Terminal) -> Shown
    ensures { result ≡ ended_event node terminal }
{
    match terminal {
        Terminal::Completed => of_one(10, node),
        Terminal::Error(code) => Shown {
            how: 1,
            value: i64::from(code),
            ..of_one(10, node)
        },
    }
}

/// The event for the caller.
pub(crate) fn event_of(event: Event) -> Shown
    ensures { result ≡ event_of event }
{
    match event {
        Event::Open { place, kind } => opened(place, kind),
        Event::Hub(Mode::Auto) => of_one(1, 0),
        Event::Hub(Mode::Manual) => Shown {
            how: 1,
            ..of_one(1, 0)
        },
        Event::Connect(hub) => of_one(2, hub),
        Event::Accept(node, tag) => Shown {
            other: tag,
            ..of_one(3, node)
        },
        Event::Use(res) => of_one(4, res),
        Event::Remove(res) => of_one(5, res),
        Event::Lease(res) => of_one(6, res),
        Event::Return(lease) => of_one(7, lease),
        Event::Item(leaf, value) => Shown {
            value,
            ..of_one(8, leaf)
        },
        Event::Decline(merging) => of_one(9, merging),
        Event::End(node, terminal) => ended(node, terminal),
        Event::Close(node) => of_one(11, node),
        Event::Take(res) => of_one(12, res),
    }
}

// Whether no checkpoint took events away.
fn is_whole(book: &Book<Token>) -> bool
    ensures whole { result ≡ true → book.now.base.at_length ≡ 0 }
    ensures cut { result ≡ false → book.now.base.at_length ≢ 0 }
{
    book.promise();
    book.len() == 0 || book.event(0).is_some()
}

// All events, oldest first, where there was no checkpoint.
fn events_of(book: &Book<Token>, alloc: Global) -> Result<Vec<Event>, AllocError>
    requires { book.now.base.at_length ≡ 0 }
    ensures { IfOk result (λ events. events.items ≡ book.now.history) }
{
    let mut events = Vec::new(alloc);
    'places: for place in 0..book.len() {
        if let Some(event) = book.event(place) {
            events.push(event)?;
        }
    }
    Ok(events)
}

/// The dump of a book's history, or None where a checkpoint took events away.
pub(crate) fn dump_of(book: &Book<Token>, alloc: Global) -> Result<Option<String>, AllocError>
    ensures { IfOk result (λ text. MatchOption text (book.now.base.at_length ≢ 0)
        (λ t. (book.now.base.at_length ≡ 0) × (string_bytes t ≡ dump book.now.history))) }
{
    if !is_whole(book) {
        return Ok(None);
    }
    let events = events_of(book, alloc)?;
    let mut text = String::new(alloc);
    push_dump(&mut text, events.as_slice())?;
    Ok(Some(text))
}
