//! A dump, read event by event from the tokens of its text, with no JSON value of the whole.

ghost use Rattle.std.specs.Prelude.{◌≡◌, ◌∷◌, IfOk};
ghost use Rattle.rx_dump.specs.Imports.{IsTrue, begin_array, array, items_view};
ghost use Rattle.rx_dump.specs.History.{event_of};
ghost use Rattle.rx_dump.specs.Tokens.{in_event, AreItems, IsEvent, AreEvents, IsTextOf};
ghost use Rattle.rx_dump.specs.Inputs.{IsDumpOf};

mod tokens;

use crate::history::event_of;
use json::{Reader, Scratch, Token};
use rx_device::ShapeError;
use rx_event::Event;
use serde_json::Value;
use std::alloc::Global;
use tokens::part_of;

// Whether the next token opens an array, which is then open.
fn opens_array(reader: &mut Reader<'_>) -> bool
    ensures { IsTrue result → reader.old ≡ begin_array ∷ reader.new }
{
    matches!(reader.next(), Some(Token::BeginArray))
}

// The parts of an event whose array is open, up to its end.
fn parts_of(alloc: Global, reader: &mut Reader<'_>) -> Result<Vec<Value>, ShapeError>
    ensures { IfOk result (λ v. AreItems in_event reader.old reader.new (items_view v.items)) }
{
    let mut parts = Vec::new(alloc);
    'parts: while !reader.take_end_array() {
        let token = reader.next().ok_or(ShapeError::Shape)?;
        let part = part_of(alloc, token)?;
        parts.push(part)?;
    }
    Ok(parts)
}

// The event of these parts.
fn event_from(parts: Vec<Value>) -> Option<Event>
    ensures { result ≡ event_of (array (items_view parts.items)) }
{
    let event = Value::from(parts);
    event_of(&event)
}

// The next event.
fn next_event(alloc: Global, reader: &mut Reader<'_>) -> Result<Event, ShapeError>
    ensures { IfOk result (IsEvent reader.old reader.new) }
{
    if !opens_array(reader) {
        return Err(ShapeError::Shape);
    }
    let parts = parts_of(alloc, reader)?;
    let event = event_from(parts).ok_or(ShapeError::Shape)?;
    Ok(event)
}

// The events of a dump whose array is open, up to its end.
fn events_of(alloc: Global, reader: &mut Reader<'_>) -> Result<Vec<Event>, ShapeError>
    ensures { IfOk result (λ v. AreEvents reader.old reader.new v.items) }
{
    let mut history = Vec::new(alloc);
    'events: while !reader.take_end_array() {
        let event = next_event(alloc, reader)?;
        history.push(event)?;
    }
    Ok(history)
}

// The history of which the text is a dump, and nothing stands behind that.
fn history_of_text(
    alloc: Global,
    text: &str,
    scratch: &mut Scratch,
) -> Result<Vec<Event>, ShapeError>
    ensures { IfOk result (λ v. IsTextOf text.now v.items) }
{
    let mut reader = Reader::new(text, scratch)?;
    if !opens_array(&mut reader) {
        return Err(ShapeError::Shape);
    }
    let history = events_of(alloc, &mut reader)?;
    if reader.next().is_some() {
        return Err(ShapeError::Shape);
    }
    Ok(history)
}

/// The history of which the input is a dump. `Shape` says no more than that it was not read so: whether
/// it is JSON at all, a value of the whole tells.
///
/// Beside the input and the events this takes as much memory as the input is long.
pub fn history_of_input(alloc: Global, input: &[u8]) -> Result<Vec<Event>, ShapeError>
    ensures { IfOk result (λ v. IsDumpOf input.now v.items) }
{
    let Ok(text) = std::str::from_utf8(input) else {
        return Err(ShapeError::Shape);
    };
    let mut scratch = Scratch::new(alloc);
    history_of_text(alloc, text, &mut scratch)
}
