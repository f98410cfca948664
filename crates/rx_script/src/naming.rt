//! The dump of a history beside the names of what is in it.

ghost use Rattle.std.specs.Prelude.{◌≡◌, ◌++◌, map, flat_map, string_bytes, IfOk, OnOk};
ghost use Rattle.serde_json.specs.Data.{string};
ghost use Rattle.serde_json.specs.Written.{compact_text};
ghost use Rattle.rx_event.specs.Kept.{nothing_kept};
ghost use Rattle.rx_agenda.specs.Shown.{number_binding};
ghost use Rattle.rx_script.specs.Keys.{node_binding, res_binding};
ghost use Rattle.rx_script.specs.NamedDumps.{number_member_text, binding_text, following_text, joined, named_dump};
ghost use Rattle.rx_script.specs.Engine.{engine_names};

use crate::engine::Engine;
use crate::report::events_of;
use rx_agenda::Named;
use rx_book::{Key, ResKey};
use rx_dump::push_dump;
use rx_resource::Resource;
use serde_json::Value;
use std::alloc::{AllocError, Global};

// A text as a JSON string.
fn quoted(alloc: Global, text: &str) -> Result<String, AllocError>
    ensures { IfOk result (λ s. string_bytes s ≡ compact_text (string text.now)) }
{
    let text = String::from_str(alloc, text)?;
    Value::String(text).to_string(alloc)
}

// The member of a JSON object that leads from the number to the name.
#[tactic(auto, unfolding(crate::specs::NamedDumps::number_member_text))]
fn member(alloc: Global, number: u64, name: &str) -> Result<String, AllocError>
    ensures { IfOk result (λ s. string_bytes s ≡ number_member_text number name.now) }
{
    let name = quoted(alloc, name)?;
    format!(in alloc; "\"{number}\":{name}")
}

// Adds a member for each of these nodes.
fn add_nodes(
    alloc: Global,
    members: &mut Vec<String>,
    nodes: &[Named<Key>],
) -> Result<(), AllocError>
    ensures { OnOk result (map string_bytes members.new.items
        ≡ map string_bytes members.old.items ++ map binding_text (map node_binding nodes.now)) }
{
    for named in nodes {
        members.push(member(alloc, named.key.number, named.name.as_str())?)?;
    }
    Ok(())
}

// Adds a member for each of these hubs.
fn add_hubs(alloc: Global, members: &mut Vec<String>, hubs: &[Named<u64>]) -> Result<(), AllocError>
    ensures { OnOk result (map string_bytes members.new.items
        ≡ map string_bytes members.old.items ++ map binding_text (map number_binding hubs.now)) }
{
    for named in hubs {
        members.push(member(alloc, named.key, named.name.as_str())?)?;
    }
    Ok(())
}

// Adds a member for each of these resources.
fn add_resources(
    alloc: Global,
    members: &mut Vec<String>,
    resources: &[Named<ResKey>],
) -> Result<(), AllocError>
    ensures { OnOk result (map string_bytes members.new.items
        ≡ map string_bytes members.old.items ++ map binding_text (map res_binding resources.now)) }
{
    for named in resources {
        members.push(member(alloc, named.key.number, named.name.as_str())?)?;
    }
    Ok(())
}

// A member for each node, hub and resource that has a name.
fn members<S: Resource>(alloc: Global, engine: &Engine<S>) -> Result<Vec<String>, AllocError>
    ensures { IfOk result (λ v. map string_bytes v.items ≡ map binding_text (engine_names engine.now)) }
{
    let mut members = Vec::new(alloc);
    add_nodes(alloc, &mut members, engine.nodes.in_order())?;
    add_hubs(alloc, &mut members, engine.hubs.in_order())?;
    add_resources(alloc, &mut members, engine.resources.in_order())?;
    Ok(members)
}

// Each text behind a comma.
fn push_rest(text: &mut String, texts: &[String]) -> Result<(), AllocError>
    ensures { OnOk result (string_bytes text.new
        ≡ string_bytes text.old ++ flat_map following_text (map string_bytes texts.now)) }
{
    for one in texts {
        text.push_str(",")?;
        text.push_str(one.as_str())?;
    }
    Ok(())
}

// The texts, with a comma between them.
fn push_joined(text: &mut String, texts: &[String]) -> Result<(), AllocError>
    ensures { OnOk result (string_bytes text.new ≡ string_bytes text.old ++ joined (map string_bytes texts.now)) }
{
    let Some((first, rest)) = texts.split_first() else {
        return Ok(());
    };
    text.push_str(first.as_str())?;
    push_rest(text, rest)
}

/// The dump of the history, and the names of the run.
#[tactic(auto, unfolding(crate::specs::NamedDumps::named_dump))]
pub fn named_dump<S: Resource>(alloc: Global, engine: &Engine<S>) -> Result<String, AllocError>
    ensures { IfOk result (λ s. engine.now.book.base ≡ nothing_kept
        → string_bytes s ≡ named_dump engine.now.book.history (engine_names engine.now)) }
{
    let events = events_of(alloc, &engine.book)?;
    let members = members(alloc, engine)?;
    let mut text = String::new(alloc);
    text.push_str("{\"dump\":")?;
    push_dump(&mut text, events.as_slice())?;
    text.push_str(",\"names\":{")?;
    push_joined(&mut text, members.as_slice())?;
    text.push_str("}}\n")?;
    Ok(text)
}
