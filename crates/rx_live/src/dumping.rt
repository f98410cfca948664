//! The history so far, as a dump, and the names of its numbers.

ghost use Rattle.std.specs.Prelude.{◌≡◌, ◌++◌, length, option_map, string_bytes, IfOk, OnOk};
ghost use Rattle.std.specs.Fmt.{decimal};
ghost use Rattle.rx_line.specs.Pieces.{name_text, joined};
ghost use Rattle.rx_listing.specs.Parts.{led_text};
ghost use Rattle.rx_live.specs.Session.{session_of};
ghost use Rattle.rx_live.specs.Dumps.{name_of_open, name_made, name_at, name_entry_text, name_entry_at, entries};
ghost use Rattle.rx_live.specs.Dumps.{named_dump_text, since_text, dump_text};

use crate::engine::Engine;
use crate::telling::push_quoted;
use rx_book::Event;
use rx_dump::push_dump;
use rx_line::ok_text;
use rx_listing::since;
use std::alloc::{AllocError, Global};

// All events, oldest first, where there was no checkpoint.
fn events_of(engine: &Engine) -> Result<Vec<Event>, AllocError>
    requires { engine.now.book.base.at_length ≡ 0 }
    ensures { IfOk result (λ events. events.items ≡ engine.now.book.history) }
{
    let mut events = Vec::new(engine.alloc);
    'places: for place in 0..engine.book.len() {
        if let Some(event) = engine.book.event(place) {
            events.push(event)?;
        }
    }
    Ok(events)
}

// The name of an open node.
#[tactic(auto, unfolding(crate::specs::Dumps::name_of_open))]
fn name_of_open(engine: &Engine, number: u64) -> Option<&str>
    ensures { option_map (λ s. s.now) result ≡ name_of_open (session_of engine.now) number }
{
    let name = engine.nodes.name_of(number)?;
    if engine.node(name).is_some() {
        Some(name)
    } else {
        None
    }
}

// The name of what this event made, at the place that is its number.
fn name_made(engine: &Engine, number: u64, event: Event) -> Option<&str>
    ensures { option_map (λ s. s.now) result ≡ name_made (session_of engine.now) number event }
{
    match event {
        Event::Open { place: _, kind: _ } => name_of_open(engine, number),
        Event::Connect(_) => name_of_open(engine, number),
        Event::Hub(_) => engine.hubs.name_of(number),
        Event::Accept(_, _) => engine.resources.name_of(number),
        Event::Lease(_) => engine.leases.name_of(number),
        _ => None,
    }
}

#[tactic(auto, unfolding(crate::specs::Dumps::name_at))]
fn name_at(engine: &Engine, number: u64) -> Option<&str>
    ensures { option_map (λ s. s.now) result ≡ name_at (session_of engine.now) number }
{
    let event = engine.book.event(number)?;
    name_made(engine, number, event)
}

// A number, between quotes.
#[tactic(auto, unfolding(rx_line::specs::Pieces::name_text))]
fn number_text(alloc: Global, number: u64) -> Result<String, AllocError>
    ensures { IfOk result (λ s. string_bytes s ≡ name_text (decimal number)) }
{
    format!(in alloc; "\"{number}\"")
}

#[tactic(auto, unfolding(crate::specs::Dumps::name_entry_text))]
fn name_entry_text(alloc: Global, number: u64, name: &str) -> Result<String, AllocError>
    ensures { IfOk result (λ s. string_bytes s ≡ name_entry_text number name.now) }
{
    let mut text = number_text(alloc, number)?;
    push_quoted(&mut text, ":", name, 0)?;
    Ok(text)
}

// A number that has a name, with that.
fn name_entry_at(engine: &Engine, number: u64) -> Result<Option<String>, AllocError>
    ensures { IfOk result (λ o. option_map string_bytes o ≡ name_entry_at (session_of engine.now) number) }
{
    let Some(name) = name_at(engine, number) else {
        return Ok(None);
    };
    let entry = name_entry_text(engine.alloc, number, name)?;
    Ok(Some(entry))
}

// Writes an entry behind those before it.
fn push_entry(text: &mut String, is_first: bool, entry: &str) -> Result<(), AllocError>
    ensures { OnOk result (string_bytes text.new ≡ string_bytes text.old ++ led_text is_first entry.now) }
{
    if !is_first {
        text.push_str(",")?;
    }
    text.push_str(entry)
}

// Writes the numbers that have names, with those.
fn push_entries(engine: &Engine, text: &mut String) -> Result<(), AllocError>
    ensures { OnOk result (string_bytes text.new ≡ string_bytes text.old
        ++ joined (entries (session_of engine.now) (length engine.now.book.history))) }
{
    let mut is_first = true;
    'places: for place in 0..engine.book.len() {
        if let Some(entry) = name_entry_at(engine, place)? {
            push_entry(text, is_first, entry.as_str())?;
            is_first = false;
        }
    }
    Ok(())
}

// The answer that has the whole history.
fn named_dump_text(engine: &Engine) -> Result<String, AllocError>
    requires { engine.now.book.base.at_length ≡ 0 }
    ensures { IfOk result (λ s. string_bytes s ≡ named_dump_text (session_of engine.now)) }
{
    let events = events_of(engine)?;
    let mut dump = String::new(engine.alloc);
    push_dump(&mut dump, events.as_slice())?;
    let mut text = ok_text(engine.alloc, engine.book.len())?;
    text.push_str(",\"dump\":")?;
    text.push_str(dump.as_str().trim())?;
    text.push_str(",\"names\":{")?;
    push_entries(engine, &mut text)?;
    text.push_str("}}")?;
    Ok(text)
}

// The answer that says since which place there are events.
fn since_text(engine: &Engine, since: u64) -> Result<String, AllocError>
    ensures { IfOk result (λ s. string_bytes s ≡ since_text (session_of engine.now) since) }
{
    let mut text = ok_text(engine.alloc, engine.book.len())?;
    write!(text, ",\"since\":{since}}}")?;
    Ok(text)
}

/// The answer that has the history so far, as a dump; where a checkpoint was made, which took events away, the
/// place of that instead. It goes over the events since, and changes nothing.
pub fn dump_text(engine: &Engine) -> Result<String, AllocError>
    ensures { IfOk result (λ s. string_bytes s ≡ dump_text (session_of engine.now)) }
{
    let since = since(&engine.book);
    if since == 0 {
        return named_dump_text(engine);
    }
    since_text(engine, since)
}
