//! The parts of an event: numbers, and words.

ghost use Rattle.std.specs.Prelude.{◌≡◌, option_map};
ghost use Rattle.serde_json.specs.View.{view};
ghost use Rattle.rx_dump.specs.History.{has_count, word_at, number_element, value_element, only_number};

use serde_json::Value;

/// Whether it is an array of so many.
#[tactic(auto, unfolding(crate::specs::History::has_count))]
pub fn has_count(event: &Value, count: usize) -> bool
    ensures { result ≡ has_count count (view event.now) }
{
    match event.as_array() {
        Some(parts) => parts.len() == count,
        None => false,
    }
}

/// The word at a place.
#[tactic(auto, unfolding(crate::specs::History::word_at))]
pub fn word_at(event: &Value, place: usize) -> Option<&str>
    ensures { option_map (λ s. s.now) result ≡ word_at place (view event.now) }
{
    event.get(place).and_then(Value::as_str)
}

/// The number of a node, a hub, a resource or a lease, or the tag, at a place.
#[tactic(auto, unfolding(crate::specs::History::number_element))]
pub fn number_element(event: &Value, place: usize) -> Option<u64>
    ensures { result ≡ number_element place (view event.now) }
{
    event.get(place).and_then(Value::as_u64)
}

/// The item at a place.
#[tactic(auto, unfolding(crate::specs::History::value_element))]
pub fn value_element(event: &Value, place: usize) -> Option<i64>
    ensures { result ≡ value_element place (view event.now) }
{
    event.get(place).and_then(Value::as_i64)
}

/// The number of an event that has no other part.
#[tactic(auto, unfolding(crate::specs::History::only_number))]
pub fn only_number(event: &Value) -> Option<u64>
    ensures { result ≡ only_number (view event.now) }
{
    if !has_count(event, 2) {
        return None;
    }
    number_element(event, 1)
}
