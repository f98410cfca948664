//! Events by what they are.

ghost use Rattle.std.specs.Prelude.{◌≡◌, ◌+◌, ◌^◌, ◌<◌};
ghost use Rattle.serde_json.specs.View.{view};
ghost use Rattle.rx_dump.specs.History.{plain_kind, kind_from, place_below, open_below, open_by, open_event_of, terminal_by};
ghost use Rattle.rx_dump.specs.History.{end_event_of, mode_by_word, hub_of, accept_of, item_event_of, resource_event_by, event_by_word, event_of};

use super::parts::{has_count, number_element, only_number, value_element, word_at};
use rx_event::{Event, Kind, Mode, Place, Terminal};
use serde_json::Value;

#[tactic(auto, unfolding(crate::specs::History::plain_kind))]
fn plain_kind(word: &str) -> Option<Kind>
    ensures { result ≡ plain_kind word.now }
{
    match word {
        "leaf" => Some(Kind::Leaf),
        "pass" => Some(Kind::Pass),
        "flat" => Some(Kind::Flat),
        "switch" => Some(Kind::Switch),
        "until" => Some(Kind::Until),
        _ => None,
    }
}

#[tactic(auto, unfolding(crate::specs::History::kind_from))]
fn kind_from(event: &Value, place: usize) -> Option<Kind>
    requires { place + 2 < 2 ^ 64 }
    ensures { result ≡ kind_from place (view event.now) }
{
    if has_count(event, place + 1) {
        return plain_kind(word_at(event, place)?);
    }
    if !has_count(event, place + 2) {
        return None;
    }
    match word_at(event, place)? {
        "sub" => Some(Kind::Sub(number_element(event, place + 1)?)),
        _ => None,
    }
}

#[tactic(auto, unfolding(crate::specs::History::place_below))]
fn place_below(word: &str, node: u64) -> Option<Place>
    ensures { result ≡ place_below word.now node }
{
    match word {
        "source" => Some(Place::Source(node)),
        "inner" => Some(Place::Inner(node)),
        "notifier" => Some(Place::Notifier(node)),
        _ => None,
    }
}

#[tactic(auto, unfolding(crate::specs::History::open_below))]
fn open_below(word: &str, event: &Value) -> Option<Event>
    ensures { result ≡ open_below word.now (view event.now) }
{
    let node = number_element(event, 2)?;
    let place = place_below(word, node)?;
    let kind = kind_from(event, 3)?;
    Some(Event::Open { place, kind })
}

#[tactic(auto, unfolding(crate::specs::History::open_by))]
fn open_by(word: &str, event: &Value) -> Option<Event>
    ensures { result ≡ open_by word.now (view event.now) }
{
    match word {
        "root" => {
            let kind = kind_from(event, 2)?;
            Some(Event::Open {
                place: Place::Root,
                kind,
            })
        }
        _ => open_below(word, event),
    }
}

#[tactic(auto, unfolding(crate::specs::History::open_event_of))]
fn open_event_of(event: &Value) -> Option<Event>
    ensures { result ≡ open_event_of (view event.now) }
{
    open_by(word_at(event, 1)?, event)
}

#[tactic(auto, unfolding(crate::specs::History::terminal_by))]
fn terminal_by(word: &str, event: &Value) -> Option<Terminal>
    ensures { result ≡ terminal_by word.now (view event.now) }
{
    match word {
        "completed" if has_count(event, 3) => Some(Terminal::Completed),
        "error" if has_count(event, 4) => match number_element(event, 3) {
            Some(code) if code < 4_294_967_296 => Some(Terminal::Error(code as u32)),
            _ => None,
        },
        _ => None,
    }
}

#[tactic(auto, unfolding(crate::specs::History::end_event_of))]
fn end_event_of(event: &Value) -> Option<Event>
    ensures { result ≡ end_event_of (view event.now) }
{
    let node = number_element(event, 1)?;
    let terminal = terminal_by(word_at(event, 2)?, event)?;
    Some(Event::End(node, terminal))
}

#[tactic(auto, unfolding(crate::specs::History::mode_by_word))]
fn mode_by_word(word: &str) -> Option<Mode>
    ensures { result ≡ mode_by_word word.now }
{
    match word {
        "auto" => Some(Mode::Auto),
        "manual" => Some(Mode::Manual),
        _ => None,
    }
}

#[tactic(auto, unfolding(crate::specs::History::hub_of))]
fn hub_of(event: &Value) -> Option<Event>
    ensures { result ≡ hub_of (view event.now) }
{
    if !has_count(event, 2) {
        return None;
    }
    let mode = mode_by_word(word_at(event, 1)?)?;
    Some(Event::Hub(mode))
}

#[tactic(auto, unfolding(crate::specs::History::accept_of))]
fn accept_of(event: &Value) -> Option<Event>
    ensures { result ≡ accept_of (view event.now) }
{
    if !has_count(event, 3) {
        return None;
    }
    let node = number_element(event, 1)?;
    let tag = number_element(event, 2)?;
    Some(Event::Accept(node, tag))
}

#[tactic(auto, unfolding(crate::specs::History::item_event_of))]
fn item_event_of(event: &Value) -> Option<Event>
    ensures { result ≡ item_event_of (view event.now) }
{
    if !has_count(event, 3) {
        return None;
    }
    let leaf = number_element(event, 1)?;
    let value = value_element(event, 2)?;
    Some(Event::Item(leaf, value))
}

// An event of a resource.
#[tactic(auto, unfolding(crate::specs::History::resource_event_by))]
fn resource_event_by(word: &str, event: &Value) -> Option<Event>
    ensures { result ≡ resource_event_by word.now (view event.now) }
{
    match word {
        "accept" => accept_of(event),
        "use" => only_number(event).map(Event::Use),
        "remove" => only_number(event).map(Event::Remove),
        "lease" => only_number(event).map(Event::Lease),
        "return" => only_number(event).map(Event::Return),
        "take" => only_number(event).map(Event::Take),
        _ => None,
    }
}

// An event of a node or a hub, or by another word of a resource.
#[tactic(auto, unfolding(crate::specs::History::event_by_word))]
fn event_by_word(word: &str, event: &Value) -> Option<Event>
    ensures { result ≡ event_by_word word.now (view event.now) }
{
    match word {
        "open" => open_event_of(event),
        "hub" => hub_of(event),
        "connect" => only_number(event).map(Event::Connect),
        "item" => item_event_of(event),
        "decline" => only_number(event).map(Event::Decline),
        "end" => end_event_of(event),
        "close" => only_number(event).map(Event::Close),
        _ => resource_event_by(word, event),
    }
}

/// The event, by its first part.
#[tactic(auto, unfolding(crate::specs::History::event_of))]
pub fn event_of(event: &Value) -> Option<Event>
    ensures { result ≡ event_of (view event.now) }
{
    event_by_word(word_at(event, 0)?, event)
}
