//! Members of objects, and the names, numbers and words in them.

ghost use Rattle.std.specs.Prelude.{◌≡◌, ◌≤◌, ◌||◌, map, option_map, option_and_then, string_bytes, IfOk};
ghost use Rattle.serde_json.specs.Find.{as_str};
ghost use Rattle.std.specs.List.{list_all};
ghost use Rattle.json.specs.Value.{members_view};
ghost use Rattle.serde_json.specs.Data.{no_members};
ghost use Rattle.rx_device.specs.Part.{part_data, members_data};
ghost use Rattle.rx_scenario.specs.Scenario.{site_of, sort_of};
ghost use Rattle.rx_device.specs.Gives.{Gives};
ghost use Rattle.rx_scenario.specs.Reading.{is_one_of, has_only, is_object_of, is_of_steps, has_only_steps, is_step_of, is_name_byte};
ghost use Rattle.rx_scenario.specs.Reading.{is_name_text, name_in, optional_name_in, value_in, word_in, code_in, terminal_in, if_name};
ghost use Rattle.rx_scenario.specs.Reading.{root_in, site_below, site_by};
ghost use Rattle.rx_scenario.specs.Reading.{site_in, plain_by, sub_in, sort_by_kind, kind_in, mode_by, mode_in, events_in, until_in, time_in, delay_in};

use crate::scenario::{Site, Sort, Ticks};
use json::Value;
use rx_device::{Part, ShapeError};
use rx_event::{Mode, Terminal};
use std::alloc::Global;

fn is_one_of(key: &str, names: &[&str]) -> bool
    ensures { result ≡ is_one_of (map (λ s. s.now) names.now) key.now }
{
    names.contains(&key)
}

fn are_all_of(members: &Vec<(&str, Value<'_>)>, names: &[&str]) -> bool
    ensures { result ≡ list_all (λ m. is_one_of (map (λ s. s.now) names.now) m.0.now) members.now.items }
{
    members.iter().all(|member| is_one_of(member.0, names))
}

#[tactic(auto, unfolding(crate::specs::Reading::has_only))]
fn has_only(members: &Vec<(&str, Value<'_>)>, names: &[&str]) -> bool
    ensures { result ≡ has_only (map (λ s. s.now) names.now) (members_data (members_view members.now.items) no_members) }
{
    are_all_of(members, names)
}

/// Whether a value is an object with no member of another name.
pub fn is_object_of(value: Part<'_, '_>, names: &[&str]) -> bool
    ensures { result ≡ is_object_of (map (λ s. s.now) names.now) (part_data value.entry) }
{
    match value.as_object() {
        Some(members) => has_only(members, names),
        None => false,
    }
}

fn is_of_steps(key: &str) -> bool
    ensures { result ≡ is_of_steps key.now }
{
    matches!(key, "do" | "label" | "at" | "after" | "then")
}

fn are_all_of_steps(members: &Vec<(&str, Value<'_>)>, names: &[&str]) -> bool
    ensures { result ≡ list_all (λ m. is_of_steps m.0.now || is_one_of (map (λ s. s.now) names.now) m.0.now) members.now.items }
{
    members.iter().all(|member| is_of_steps(member.0) || is_one_of(member.0, names))
}

#[tactic(auto, unfolding(crate::specs::Reading::has_only_steps))]
fn has_only_steps(members: &Vec<(&str, Value<'_>)>, names: &[&str]) -> bool
    ensures { result ≡ has_only_steps (map (λ s. s.now) names.now) (members_data (members_view members.now.items) no_members) }
{
    are_all_of_steps(members, names)
}

/// Whether a value is an object with no members but these and those that every step may have.
pub fn is_step_of(value: Part<'_, '_>, names: &[&str]) -> bool
    ensures { result ≡ is_step_of (map (λ s. s.now) names.now) (part_data value.entry) }
{
    match value.as_object() {
        Some(members) => has_only_steps(members, names),
        None => false,
    }
}

#[tactic(auto, unfolding(crate::specs::Reading::is_name_byte))]
fn is_name_byte(byte: u8) -> bool
    ensures { result ≡ is_name_byte byte }
{
    matches!(byte, b'0'..=b'9' | b'A'..=b'Z' | b'a'..=b'z' | b'-' | b'_')
}

fn are_name_bytes(bytes: &[u8]) -> bool
    ensures { result ≡ list_all is_name_byte bytes.now }
{
    bytes.iter().all(|byte| is_name_byte(*byte))
}

/// Whether a text is a name: 1 to 32 ASCII letters, digits, dashes and underscores.
#[tactic(auto, unfolding(crate::specs::Reading::is_name_text))]
pub fn is_name(text: &str) -> bool
    ensures { result ≡ is_name_text text.now }
{
    let bytes = text.as_bytes();
    1 <= bytes.len() && bytes.len() <= 32 && are_name_bytes(bytes)
}

// The name that a value is.
fn name_of(alloc: Global, value: Part<'_, '_>) -> Result<String, ShapeError>
    ensures { Gives string_bytes result (option_and_then if_name (as_str (part_data value.entry))) }
{
    let Some(text) = value.as_str() else {
        return Err(ShapeError::Shape);
    };
    if !is_name(text) {
        return Err(ShapeError::Shape);
    }
    Ok(String::from_str(alloc, text)?)
}

/// The name at a key: 1 to 32 ASCII letters, digits, dashes and underscores.
#[tactic(auto, unfolding(crate::specs::Reading::name_in))]
pub fn name_in(alloc: Global, object: Part<'_, '_>, key: &str) -> Result<String, ShapeError>
    ensures { Gives string_bytes result (name_in key.now (part_data object.entry)) }
{
    match object.get(key) {
        Some(value) => name_of(alloc, value),
        None => Err(ShapeError::Shape),
    }
}

/// The name at a key, or None where there is no such member.
#[tactic(auto, unfolding(crate::specs::Reading::optional_name_in))]
pub fn optional_name_in(
    alloc: Global,
    object: Part<'_, '_>,
    key: &str,
) -> Result<Option<String>, ShapeError>
    ensures { Gives (option_map string_bytes) result (optional_name_in key.now (part_data object.entry)) }
{
    match object.get(key) {
        Some(value) => Ok(Some(name_of(alloc, value)?)),
        None => Ok(None),
    }
}

/// The member `value`, an item.
#[tactic(auto, unfolding(crate::specs::Reading::value_in))]
pub fn value_in(object: Part<'_, '_>) -> Result<i64, ShapeError>
    ensures { Gives (λ v. v) result (value_in (part_data object.entry)) }
{
    match object.get("value").and_then(Part::as_i64) {
        Some(number) => Ok(number),
        None => Err(ShapeError::Shape),
    }
}

/// The member `word`, what a resource is used on.
#[tactic(auto, unfolding(crate::specs::Reading::word_in))]
pub fn word_in(object: Part<'_, '_>) -> Result<u64, ShapeError>
    ensures { Gives (λ w. w) result (word_in (part_data object.entry)) }
{
    match object.get("word").and_then(Part::as_u64) {
        Some(word) => Ok(word),
        None => Err(ShapeError::Shape),
    }
}

/// The member `error`, an error's code.
#[tactic(auto, unfolding(crate::specs::Reading::code_in))]
pub fn code_in(object: Part<'_, '_>) -> Result<u32, ShapeError>
    ensures { Gives (λ c. c) result (code_in (part_data object.entry)) }
{
    match object.get("error").and_then(Part::as_u64) {
        Some(number) if number <= 4_294_967_295 => Ok(number as u32),
        _ => Err(ShapeError::Shape),
    }
}

/// The member `error`, an error's code, or a completion where there is no such member.
#[tactic(auto, unfolding(crate::specs::Reading::terminal_in))]
pub fn terminal_in(object: Part<'_, '_>) -> Result<Terminal, ShapeError>
    ensures { Gives (λ t. t) result (terminal_in (part_data object.entry)) }
{
    let Some(error) = object.get("error") else {
        return Ok(Terminal::Completed);
    };
    match error.as_u64() {
        Some(code) if code < 4_294_967_296 => Ok(Terminal::Error(code as u32)),
        _ => Err(ShapeError::Shape),
    }
}

// A root, which stands below no node.
fn root_in(object: Part<'_, '_>) -> Result<Site, ShapeError>
    ensures { Gives site_of result (root_in (part_data object.entry)) }
{
    match object.get("of") {
        Some(_) => Err(ShapeError::Shape),
        None => Ok(Site::Root),
    }
}

// Where a node stands below the node of this name.
#[tactic(auto, unfolding(crate::specs::Reading::site_below))]
fn site_below(place: &str, above: String) -> Result<Site, ShapeError>
    ensures { Gives site_of result (site_below place.now (string_bytes above)) }
{
    match place {
        "source" => Ok(Site::Source(above)),
        "inner" => Ok(Site::Inner(above)),
        "notifier" => Ok(Site::Notifier(above)),
        _ => Err(ShapeError::Shape),
    }
}

#[tactic(auto, unfolding(crate::specs::Reading::site_by))]
fn site_by(alloc: Global, place: &str, object: Part<'_, '_>) -> Result<Site, ShapeError>
    ensures { Gives site_of result (site_by place.now (part_data object.entry)) }
{
    if place == "root" {
        return root_in(object);
    }
    let above = name_in(alloc, object, "of")?;
    site_below(place, above)
}

/// The members `place` and `of`: a root, or the source, an inner or the notifier of a node.
#[tactic(auto, unfolding(crate::specs::Reading::site_in))]
pub fn site_in(alloc: Global, object: Part<'_, '_>) -> Result<Site, ShapeError>
    ensures { Gives site_of result (site_in (part_data object.entry)) }
{
    let Some(place) = object.get("place").and_then(Part::as_str) else {
        return Err(ShapeError::Shape);
    };
    site_by(alloc, place, object)
}

#[tactic(auto, unfolding(crate::specs::Reading::plain_by))]
fn plain_by(kind: &str) -> Result<Sort, ShapeError>
    ensures { Gives sort_of result (plain_by kind.now) }
{
    match kind {
        "leaf" => Ok(Sort::Leaf),
        "pass" => Ok(Sort::Pass),
        "flat" => Ok(Sort::Flat),
        "switch" => Ok(Sort::Switch),
        "until" => Ok(Sort::Until),
        _ => Err(ShapeError::Shape),
    }
}

// The members `hub` and `connection` of a subscriber, which need not have the second.
#[tactic(auto, unfolding(crate::specs::Reading::sub_in))]
fn sub_in(alloc: Global, object: Part<'_, '_>) -> Result<Sort, ShapeError>
    ensures { Gives sort_of result (sub_in (part_data object.entry)) }
{
    let hub = name_in(alloc, object, "hub")?;
    let connection = optional_name_in(alloc, object, "connection")?;
    Ok(Sort::Sub { hub, connection })
}

#[tactic(auto, unfolding(crate::specs::Reading::sort_by_kind))]
fn sort_by_kind(alloc: Global, kind: &str, object: Part<'_, '_>) -> Result<Sort, ShapeError>
    ensures { Gives sort_of result (sort_by_kind kind.now (part_data object.entry)) }
{
    if kind == "sub" {
        return sub_in(alloc, object);
    }
    if object.get("hub").is_some() || object.get("connection").is_some() {
        return Err(ShapeError::Shape);
    }
    plain_by(kind)
}

/// The member `kind`: a leaf, a node that mirrors its source, a FlatMap, a Switch or a TakeUntil; or a
/// subscriber, which alone has the members `hub` and `connection`.
#[tactic(auto, unfolding(crate::specs::Reading::kind_in))]
pub fn kind_in(alloc: Global, object: Part<'_, '_>) -> Result<Sort, ShapeError>
    ensures { Gives sort_of result (kind_in (part_data object.entry)) }
{
    let Some(kind) = object.get("kind").and_then(Part::as_str) else {
        return Err(ShapeError::Shape);
    };
    sort_by_kind(alloc, kind, object)
}

#[tactic(auto, unfolding(crate::specs::Reading::mode_by))]
fn mode_by(mode: &str) -> Result<Mode, ShapeError>
    ensures { Gives (λ m. m) result (mode_by mode.now) }
{
    match mode {
        "auto" => Ok(Mode::Auto),
        "manual" => Ok(Mode::Manual),
        _ => Err(ShapeError::Shape),
    }
}

/// The member `mode`, how a hub is connected: by RefCount, or by hand.
#[tactic(auto, unfolding(crate::specs::Reading::mode_in))]
pub fn mode_in(object: Part<'_, '_>) -> Result<Mode, ShapeError>
    ensures { Gives (λ m. m) result (mode_in (part_data object.entry)) }
{
    let Some(mode) = object.get("mode").and_then(Part::as_str) else {
        return Err(ShapeError::Shape);
    };
    mode_by(mode)
}

/// The member `events`, a limit from 1 to 4,294,967,295, which is 1,048,576 where there is none.
#[tactic(auto, unfolding(crate::specs::Reading::events_in))]
pub fn events_in(object: Part<'_, '_>) -> Result<u64, ShapeError>
    ensures value { Gives (λ n. n) result (events_in (part_data object.entry)) }
    ensures limited { IfOk result (λ n. n ≤ 4294967295) }
{
    let Some(events) = object.get("events") else {
        return Ok(1_048_576);
    };
    match events.as_u64() {
        Some(number) if 1 <= number && number < 4_294_967_296 => Ok(number),
        _ => Err(ShapeError::Shape),
    }
}

/// The member `until`, a time to 1,000,000,000,000,000, which it is where there is none.
#[tactic(auto, unfolding(crate::specs::Reading::until_in))]
pub fn until_in(object: Part<'_, '_>) -> Result<u64, ShapeError>
    ensures value { Gives (λ n. n) result (until_in (part_data object.entry)) }
    ensures limited { IfOk result (λ n. n ≤ 1000000000000000) }
{
    let Some(until) = object.get("until") else {
        return Ok(1_000_000_000_000_000);
    };
    match until.as_u64() {
        Some(number) if number <= 1_000_000_000_000_000 => Ok(number),
        _ => Err(ShapeError::Shape),
    }
}

// The time at a key, or the other where there is no such member.
#[tactic(auto, unfolding(crate::specs::Reading::time_in))]
fn time_in(
    object: Part<'_, '_>,
    key: &str,
    absent: Option<Ticks>,
) -> Result<Option<Ticks>, ShapeError>
    ensures { Gives (λ t. t) result (time_in absent key.now (part_data object.entry)) }
{
    let Some(time) = object.get(key) else {
        return Ok(absent);
    };
    match time.as_u64().and_then(Ticks::new) {
        Some(ticks) => Ok(Some(ticks)),
        None => Err(ShapeError::Shape),
    }
}

/// How long a step waits: the member `after` of a step that follows another, and else the member `at`,
/// which is 0 where there is none.
#[tactic(auto, unfolding(crate::specs::Reading::delay_in))]
pub fn delay_in(object: Part<'_, '_>, follows: bool) -> Result<Option<Ticks>, ShapeError>
    ensures { Gives (λ t. t) result (delay_in follows (part_data object.entry)) }
{
    let (key, other, absent) = if follows {
        ("after", "at", None)
    } else {
        ("at", "after", Ticks::new(0))
    };
    if object.get(other).is_some() {
        return Err(ShapeError::Shape);
    }
    time_in(object, key, absent)
}
