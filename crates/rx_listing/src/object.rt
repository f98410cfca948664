//! What is said of one number.

ghost use Rattle.std.specs.Prelude.{◌≡◌, option_map, string_bytes, IfOk};
ghost use Rattle.rx_listing.specs.Text.{named_text, front_text, node_text, resource_text, lease_text, bool_word, hub_text};

use crate::text::{mode_word, push_made, push_member};
use rx_event::Event;
use rx_line::Names;
use std::alloc::{AllocError, Global};

// Begins an object with its name.
#[tactic(auto, unfolding(crate::specs::Text::named_text))]
fn named(alloc: Global, name: &str) -> Result<String, AllocError>
    ensures { IfOk result (λ s. string_bytes s ≡ named_text name.now) }
{
    format!(in alloc; "{{\"name\":\"{name}\"")
}

// Begins an object with its name and its number.
#[tactic(auto, unfolding(crate::specs::Text::front_text))]
fn front(alloc: Global, name: &str, number: u64) -> Result<String, AllocError>
    ensures { IfOk result (λ s. string_bytes s ≡ front_text name.now number) }
{
    let mut text = named(alloc, name)?;
    write!(text, ",\"number\":{number}")?;
    Ok(text)
}

/// An open node, by the event that made it.
#[tactic(auto, unfolding(crate::specs::Text::node_text))]
pub fn node_object(
    alloc: Global,
    name: &str,
    number: u64,
    nodes: &Names,
    hubs: &Names,
    made: Option<Event>,
) -> Result<String, AllocError>
    ensures { IfOk result (λ s. string_bytes s ≡ node_text nodes.now hubs.now name.now number made) }
{
    let mut text = front(alloc, name, number)?;
    push_made(&mut text, nodes, hubs, made)?;
    text.push_str("}")?;
    Ok(text)
}

/// A resource, with the name of its node and its uses.
#[tactic(auto, unfolding(crate::specs::Text::resource_text))]
pub fn resource_object(
    alloc: Global,
    name: &str,
    number: u64,
    node: Option<&str>,
    uses: u64,
) -> Result<String, AllocError>
    ensures { IfOk result (λ s. string_bytes s ≡ resource_text name.now number (option_map (λ s. s.now) node.entry) uses) }
{
    let mut text = front(alloc, name, number)?;
    push_member(&mut text, "node", node)?;
    write!(text, ",\"uses\":{uses}}}")?;
    Ok(text)
}

/// A lease, with the name of its resource.
#[tactic(auto, unfolding(crate::specs::Text::lease_text))]
pub fn lease_object(
    alloc: Global,
    name: &str,
    number: u64,
    res: Option<&str>,
) -> Result<String, AllocError>
    ensures { IfOk result (λ s. string_bytes s ≡ lease_text name.now number (option_map (λ s. s.now) res.entry)) }
{
    let mut text = front(alloc, name, number)?;
    push_member(&mut text, "res", res)?;
    text.push_str("}")?;
    Ok(text)
}

#[tactic(auto, unfolding(crate::specs::Text::bool_word))]
fn bool_word(is_so: bool) -> &'static str
    ensures { result.now ≡ bool_word is_so }
{
    if is_so { "true" } else { "false" }
}

/// A hub, with its mode, whether it is connected, and how many subscribers it has.
#[tactic(auto, unfolding(crate::specs::Text::hub_text))]
pub fn hub_object(
    alloc: Global,
    name: &str,
    number: u64,
    is_manual: bool,
    is_connected: bool,
    subscribers: u64,
) -> Result<String, AllocError>
    ensures { IfOk result (λ s. string_bytes s ≡ hub_text name.now number is_manual is_connected subscribers) }
{
    let mut text = front(alloc, name, number)?;
    push_member(&mut text, "mode", Some(mode_word(is_manual)))?;
    let connected = bool_word(is_connected);
    write!(
        text,
        ",\"connected\":{connected},\"subscribers\":{subscribers}}}"
    )?;
    Ok(text)
}
