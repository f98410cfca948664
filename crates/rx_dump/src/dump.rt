//! The dump of a history, written behind a text.

ghost use Rattle.std.specs.Prelude.{◌≡◌, ◌++◌, codes, flat_map, string_bytes, OnOk};
ghost use Rattle.std.specs.Fmt.{decimal};
ghost use Rattle.rx_dump.specs.Dump.{place_text, kind_text, mode_text, terminal_text, event_text, following_event_text, events_text, dump};

use rx_event::{Event, Kind, Mode, Place, Terminal};
use std::alloc::AllocError;

fn push_place(text: &mut String, place: Place) -> Result<(), AllocError>
    ensures { OnOk result (string_bytes text.new ≡ string_bytes text.old ++ place_text place) }
{
    match place {
        Place::Root => text.push_str("\"root\""),
        Place::Source(node) => write!(text, "\"source\",{node}"),
        Place::Inner(node) => write!(text, "\"inner\",{node}"),
        Place::Notifier(node) => write!(text, "\"notifier\",{node}"),
    }
}

fn push_kind(text: &mut String, kind: Kind) -> Result<(), AllocError>
    ensures { OnOk result (string_bytes text.new ≡ string_bytes text.old ++ kind_text kind) }
{
    match kind {
        Kind::Leaf => text.push_str("\"leaf\""),
        Kind::Pass => text.push_str("\"pass\""),
        Kind::Flat => text.push_str("\"flat\""),
        Kind::Switch => text.push_str("\"switch\""),
        Kind::Until => text.push_str("\"until\""),
        Kind::Sub(hub) => write!(text, "\"sub\",{hub}"),
    }
}

fn mode_text(mode: Mode) -> &'static str
    ensures { result.now ≡ mode_text mode }
{
    match mode {
        Mode::Auto => "\"auto\"",
        Mode::Manual => "\"manual\"",
    }
}

fn push_terminal(text: &mut String, terminal: Terminal) -> Result<(), AllocError>
    ensures { OnOk result (string_bytes text.new ≡ string_bytes text.old ++ terminal_text terminal) }
{
    match terminal {
        Terminal::Completed => text.push_str("\"completed\""),
        Terminal::Error(code) => write!(text, "\"error\",{code}"),
    }
}

#[tactic(auto, unfolding(crate::specs::Dump::event_text))]
fn push_open(text: &mut String, place: Place, kind: Kind) -> Result<(), AllocError>
    ensures { OnOk result (string_bytes text.new ≡ string_bytes text.old ++ event_text (Event.Open place kind)) }
{
    text.push_str("[\"open\",")?;
    push_place(text, place)?;
    text.push_str(",")?;
    push_kind(text, kind)?;
    text.push_str("]")
}

#[tactic(auto, unfolding(crate::specs::Dump::event_text))]
fn push_end(text: &mut String, node: u64, terminal: Terminal) -> Result<(), AllocError>
    ensures { OnOk result (string_bytes text.new ≡ string_bytes text.old ++ event_text (Event.End node terminal)) }
{
    write!(text, "[\"end\",{node},")?;
    push_terminal(text, terminal)?;
    text.push_str("]")
}

// An event of one number.
fn push_numbered(text: &mut String, word: &str, number: u64) -> Result<(), AllocError>
    ensures { OnOk result (string_bytes text.new
        ≡ string_bytes text.old ++ codes "[\"" ++ word.now ++ codes "\"," ++ decimal number ++ codes "]") }
{
    write!(text, "[\"{word}\",{number}]")
}

#[tactic(auto, unfolding(crate::specs::Dump::event_text))]
fn push_event(text: &mut String, event: Event) -> Result<(), AllocError>
    ensures { OnOk result (string_bytes text.new ≡ string_bytes text.old ++ event_text event) }
{
    match event {
        Event::Open { place, kind } => push_open(text, place, kind),
        Event::Hub(mode) => {
            let mode = mode_text(mode);
            write!(text, "[\"hub\",{mode}]")
        }
        Event::Connect(hub) => push_numbered(text, "connect", hub),
        Event::Accept(node, tag) => write!(text, "[\"accept\",{node},{tag}]"),
        Event::Use(res) => push_numbered(text, "use", res),
        Event::Remove(res) => push_numbered(text, "remove", res),
        Event::Lease(res) => push_numbered(text, "lease", res),
        Event::Return(lease) => push_numbered(text, "return", lease),
        Event::Item(leaf, value) => write!(text, "[\"item\",{leaf},{value}]"),
        Event::Decline(node) => push_numbered(text, "decline", node),
        Event::End(node, terminal) => push_end(text, node, terminal),
        Event::Close(node) => push_numbered(text, "close", node),
        Event::Take(res) => push_numbered(text, "take", res),
    }
}

fn push_rest(text: &mut String, events: &[Event]) -> Result<(), AllocError>
    ensures { OnOk result (string_bytes text.new ≡ string_bytes text.old ++ flat_map following_event_text events.now) }
{
    for event in events {
        text.push_str(",")?;
        push_event(text, *event)?;
    }
    Ok(())
}

fn push_events(text: &mut String, events: &[Event]) -> Result<(), AllocError>
    ensures { OnOk result (string_bytes text.new ≡ string_bytes text.old ++ events_text events.now) }
{
    let Some((first, rest)) = events.split_first() else {
        return Ok(());
    };
    push_event(text, *first)?;
    push_rest(text, rest)
}

/// The dump of a history.
#[tactic(auto, unfolding(crate::specs::Dump::dump))]
pub fn push_dump(text: &mut String, history: &[Event]) -> Result<(), AllocError>
    ensures { OnOk result (string_bytes text.new ≡ string_bytes text.old ++ dump history.now) }
{
    text.push_str("[")?;
    push_events(text, history)?;
    text.push_str("]\n")
}
