//! What things are called in a picture, each written behind a text.

ghost use Rattle.std.specs.Fmt.{decimal};
ghost use Rattle.std.specs.Prelude.{◌≡◌, ◌++◌, string_bytes, OnOk};
ghost use Rattle.serde_json.specs.View.{view};
ghost use Rattle.rx_dump.specs.Names.{name_in_object};
ghost use Rattle.rx_svg.specs.Label.{kind_label, place_label, terminal_label, event_label, called_text};
ghost use Rattle.rx_svg.specs.Said.{said_label};

use crate::names::push_named;
use rx_dump::Names;
use rx_event::{Event, Kind, Mode, Place, Terminal};
use rx_note::Note;
use std::alloc::AllocError;

// Words, and the number that they are about.
fn push_about(text: &mut String, words: &'static str, n: u64) -> Result<(), AllocError>
    ensures { OnOk result (string_bytes text.new ≡ string_bytes text.old ++ (words.now ++ decimal n)) }
{
    text.push_str(words)?;
    write!(text, "{n}")
}

#[tactic(auto, unfolding(crate::specs::Label::kind_label))]
fn push_kind(text: &mut String, kind: Kind) -> Result<(), AllocError>
    ensures { OnOk result (string_bytes text.new ≡ string_bytes text.old ++ kind_label kind) }
{
    match kind {
        Kind::Leaf => text.push_str(" leaf"),
        Kind::Pass => text.push_str(" mirror"),
        Kind::Flat => text.push_str(" FlatMap"),
        Kind::Switch => text.push_str(" Switch"),
        Kind::Until => text.push_str(" TakeUntil"),
        Kind::Sub(hub) => push_about(text, " subscriber of hub ", hub),
    }
}

#[tactic(auto, unfolding(crate::specs::Label::place_label))]
fn push_place(text: &mut String, place: Place) -> Result<(), AllocError>
    ensures { OnOk result (string_bytes text.new ≡ string_bytes text.old ++ place_label place) }
{
    match place {
        Place::Root => text.push_str(", root"),
        Place::Source(p) => push_about(text, ", source of ", p),
        Place::Inner(p) => push_about(text, ", inner of ", p),
        Place::Notifier(p) => push_about(text, ", notifier of ", p),
    }
}

#[tactic(auto, unfolding(crate::specs::Label::terminal_label))]
fn push_terminal(text: &mut String, terminal: Terminal) -> Result<(), AllocError>
    ensures { OnOk result (string_bytes text.new ≡ string_bytes text.old ++ terminal_label terminal) }
{
    match terminal {
        Terminal::Completed => text.push_str(" completed"),
        Terminal::Error(code) => write!(text, " error {code}"),
    }
}

/// What the event did; of one that makes something, what it made.
#[tactic(auto, unfolding(crate::specs::Label::event_label, crate::specs::Label::mode_label))]
pub fn push_event(text: &mut String, event: Event) -> Result<(), AllocError>
    ensures { OnOk result (string_bytes text.new ≡ string_bytes text.old ++ event_label event) }
{
    match event {
        Event::Open { place, kind } => {
            push_kind(text, kind)?;
            push_place(text, place)
        }
        Event::Hub(Mode::Auto) => text.push_str(" hub, RefCount"),
        Event::Hub(Mode::Manual) => text.push_str(" hub"),
        Event::Connect(hub) => push_about(text, " connection of hub ", hub),
        Event::Accept(node, tag) => write!(text, " resource of {node}, tag {tag}"),
        Event::Use(r) => push_about(text, " use of ", r),
        Event::Remove(r) => push_about(text, " removal of ", r),
        Event::Lease(r) => push_about(text, " lease of ", r),
        Event::Return(l) => push_about(text, " return of lease ", l),
        Event::Item(n, value) => write!(text, " item {value} of {n}"),
        Event::Decline(f) => push_about(text, " no inner for an item of ", f),
        Event::End(n, terminal) => {
            write!(text, " end of {n}:")?;
            push_terminal(text, terminal)
        }
        Event::Close(n) => push_about(text, " closing of ", n),
        Event::Take(r) => push_about(text, " release of ", r),
    }
}

/// What the event made, with its number and its name.
#[tactic(auto, unfolding(crate::specs::Label::called_text))]
pub fn push_called(
    text: &mut String,
    names: Names<'_>,
    n: u64,
    made: Event,
) -> Result<(), AllocError>
    ensures { OnOk result (string_bytes text.new ≡ string_bytes text.old
        ++ called_text n (name_in_object (view names.entry.object.now) n) made) }
{
    write!(text, "{n}")?;
    push_named(text, names, n)?;
    push_event(text, made)
}

/// What somebody was told.
#[tactic(auto, unfolding(crate::specs::Said::said_label))]
pub fn push_note(text: &mut String, note: Note) -> Result<(), AllocError>
    ensures { OnOk result (string_bytes text.new ≡ string_bytes text.old ++ said_label note) }
{
    match note {
        Note::Next(value) => write!(text, " next {value}"),
        Note::Project(value) => write!(text, " project {value}"),
        Note::End(terminal) => push_terminal(text, terminal),
    }
}
