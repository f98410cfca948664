//! The names of numbers.

ghost use Rattle.std.specs.Prelude.{◌≡◌, string_bytes, IfOk, option_map, option_and_then};
ghost use Rattle.serde_json.specs.Data.{string};
ghost use Rattle.serde_json.specs.Find.{get, as_str};
ghost use Rattle.serde_json.specs.View.{view};
ghost use Rattle.serde_json.specs.Written.{compact_text};
ghost use Rattle.rx_dump.specs.Names.{name_in_object};
ghost use Rattle.rx_dump.specs.NamedVerdict.{name_after_number, label_text};

use serde_json::Value;
use std::alloc::{AllocError, Global};

/// The names of numbers.
#[derive(Clone, Copy)]
pub struct Names<'a> {
    /// Where a number's text gets its memory.
    pub alloc: Global,
    /// An object that leads from numbers to names. Any other value has no names.
    pub object: &'a Value,
}

/// The text that an object has at a member.
fn text_at<'a>(object: &'a Value, member: &str) -> Option<&'a str>
    ensures { option_map (λ s. s.now) result ≡ option_and_then as_str (get member.now (view object.now)) }
{
    object.get(member).and_then(Value::as_str)
}

/// The name of the number, if it has one.
pub fn name_of<'a>(names: Names<'a>, n: u64) -> Result<Option<&'a str>, AllocError>
    ensures { IfOk result (λ name. option_map (λ s. s.now) name ≡ name_in_object (view names.entry.object.now) n) }
{
    let alloc = names.alloc;
    let number = format!(in alloc; "{n}")?;
    Ok(text_at(names.object, number.as_str()))
}

/// A text as a JSON string.
fn quoted(alloc: Global, text: &str) -> Result<String, AllocError>
    ensures { IfOk result (λ s. string_bytes s ≡ compact_text (string text.now)) }
{
    let text = String::from_str(alloc, text)?;
    Value::String(text).to_string(alloc)
}

/// What stands behind a number of this name: a space and the name as a JSON string, or nothing if there is none.
pub fn name_text(alloc: Global, name: Option<&str>) -> Result<String, AllocError>
    ensures { IfOk result (λ s. string_bytes s ≡ name_after_number (option_map (λ s. s.now) name.entry)) }
{
    let Some(name) = name else {
        return Ok(String::new(alloc));
    };
    let quoted = quoted(alloc, name)?;
    format!(in alloc; " {quoted}")
}

/// The number, and behind it its name as a JSON string, if it has one: `4 "socket"`.
#[tactic(auto, unfolding(crate::specs::NamedVerdict::label_text))]
pub fn label(names: Names<'_>, n: u64) -> Result<String, AllocError>
    ensures { IfOk result (λ s. string_bytes s ≡ label_text (name_in_object (view names.entry.object.now)) n) }
{
    let alloc = names.alloc;
    let name = name_text(alloc, name_of(names, n)?)?;
    format!(in alloc; "{n}{name}")
}
