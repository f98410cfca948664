//! The members of an object.

ghost use Rattle.std.specs.Prelude.{◌≡◌, ◌++◌, option_map, string_bytes, Some, OnOk};
ghost use Rattle.rx_listing.specs.Text.{member_of, below_text, place_member_text, of_hub_text, kind_member_text, made_text, mode_word};

use rx_event::{Event, Kind, Place};
use rx_line::Names;
use std::alloc::AllocError;

/// Writes a member of an object whose value is a name, where there is one.
#[tactic(auto, unfolding(crate::specs::Text::member_of))]
pub fn push_member(text: &mut String, member: &str, name: Option<&str>) -> Result<(), AllocError>
    ensures { OnOk result (string_bytes text.new ≡
        string_bytes text.old ++ member_of member.now (option_map (λ s. s.now) name.entry)) }
{
    match name {
        Some(name) => write!(text, ",\"{member}\":\"{name}\""),
        None => Ok(()),
    }
}

// Writes where a node stands, and what it is below.
#[tactic(auto, unfolding(crate::specs::Text::below_text))]
fn push_below(text: &mut String, nodes: &Names, word: &str, above: u64) -> Result<(), AllocError>
    ensures { OnOk result (string_bytes text.new ≡ string_bytes text.old ++ below_text nodes.now word.now above) }
{
    push_member(text, "place", Some(word))?;
    push_member(text, "of", nodes.name_of(above))
}

fn push_place(text: &mut String, nodes: &Names, place: Place) -> Result<(), AllocError>
    ensures { OnOk result (string_bytes text.new ≡ string_bytes text.old ++ place_member_text nodes.now place) }
{
    match place {
        Place::Root => push_member(text, "place", Some("root")),
        Place::Source(above) => push_below(text, nodes, "source", above),
        Place::Inner(above) => push_below(text, nodes, "inner", above),
        Place::Notifier(above) => push_below(text, nodes, "notifier", above),
    }
}

// Writes a kind, and the hub where there is one.
#[tactic(auto, unfolding(crate::specs::Text::of_hub_text))]
fn push_of_hub(text: &mut String, hubs: &Names, word: &str, hub: u64) -> Result<(), AllocError>
    ensures { OnOk result (string_bytes text.new ≡ string_bytes text.old ++ of_hub_text hubs.now word.now hub) }
{
    push_member(text, "kind", Some(word))?;
    push_member(text, "hub", hubs.name_of(hub))
}

fn push_kind(text: &mut String, hubs: &Names, kind: Kind) -> Result<(), AllocError>
    ensures { OnOk result (string_bytes text.new ≡ string_bytes text.old ++ kind_member_text hubs.now kind) }
{
    match kind {
        Kind::Leaf => push_member(text, "kind", Some("leaf")),
        Kind::Pass => push_member(text, "kind", Some("pass")),
        Kind::Flat => push_member(text, "kind", Some("flat")),
        Kind::Switch => push_member(text, "kind", Some("switch")),
        Kind::Until => push_member(text, "kind", Some("until")),
        Kind::Sub(hub) => push_of_hub(text, hubs, "sub", hub),
    }
}

/// Writes what a node is, by the event that made it.
pub fn push_made(
    text: &mut String,
    nodes: &Names,
    hubs: &Names,
    made: Option<Event>,
) -> Result<(), AllocError>
    ensures { OnOk result (string_bytes text.new ≡ string_bytes text.old ++ made_text nodes.now hubs.now made) }
{
    match made {
        Some(Event::Open { place, kind }) => {
            push_kind(text, hubs, kind)?;
            push_place(text, nodes, place)
        }
        Some(Event::Connect(hub)) => push_of_hub(text, hubs, "connection", hub),
        _ => Ok(()),
    }
}

/// The word for how a hub is connected.
#[tactic(auto, unfolding(crate::specs::Text::mode_word))]
pub fn mode_word(is_manual: bool) -> &'static str
    ensures { result.now ≡ mode_word is_manual }
{
    if is_manual { "manual" } else { "auto" }
}
