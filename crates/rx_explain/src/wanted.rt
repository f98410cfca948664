//! What is expected of a value, and what is said where it is something else.

use rx_scenario::{is_among, is_name, nearest};
use serde_json::Value;
use std::alloc::{AllocError, Global};

/// What is expected of a value.
#[derive(Clone, Copy)]
pub enum Wanted {
    /// A name of a node, a hub, a resource, a lease or a step.
    Name,
    /// A whole number from the one to the other.
    Number(u64, u64),
    /// An item.
    Item,
    /// One of the words of a list.
    Word(&'static str),
    /// An array of steps.
    Steps,
}

/// The longest text that is shown.
const MOST_SHOWN: usize = 40;

fn is_within(number: Option<u64>, least: u64, most: u64) -> bool {
    match number {
        Some(number) => least <= number && number <= most,
        None => false,
    }
}

impl Wanted {
    /// Whether the value is what is expected.
    pub fn fits(self, value: &Value) -> bool {
        match self {
            Wanted::Name => value.as_str().is_some_and(|text| is_name(text)),
            Wanted::Number(least, most) => is_within(value.as_u64(), least, most),
            Wanted::Item => value.as_i64().is_some(),
            Wanted::Word(list) => value.as_str().is_some_and(|word| is_among(word, list)),
            Wanted::Steps => value.is_array(),
        }
    }

    /// What is expected, in words.
    pub fn described(self, alloc: Global) -> Result<String, AllocError> {
        match self {
            Wanted::Name => String::from_str(
                alloc,
                "a name of 1 to 32 ASCII letters, digits, \"-\" or \"_\"",
            ),
            Wanted::Number(least, most) => {
                format!(in alloc; "a whole number from {least} to {most}")
            }
            Wanted::Item => {
                let (least, most) = (i64::MIN, i64::MAX);
                format!(in alloc; "a whole number from {least} to {most}")
            }
            Wanted::Word(list) => format!(in alloc; "one of {list}"),
            Wanted::Steps => String::from_str(alloc, "an array of steps"),
        }
    }

    /// What there is to say of a value that is not what is expected.
    pub fn misfit(self, alloc: Global, value: &Value) -> Result<String, AllocError> {
        let wanted = self.described(alloc)?;
        let shown = shown(alloc, value)?;
        let hint = match self {
            Wanted::Word(list) => hint(alloc, value.as_str().unwrap_or(""), list)?,
            _ => String::new(alloc),
        };
        format!(in alloc; "{wanted} is expected, and this is {shown}{hint}")
    }
}

// The nearest word of a list, as the end of a sentence; nothing where none is near.
fn hint(alloc: Global, word: &str, list: &'static str) -> Result<String, AllocError> {
    match nearest(word, list) {
        Some(known) => format!(in alloc; "; the nearest is \"{known}\""),
        None => Ok(String::new(alloc)),
    }
}

/// A text as it is shown.
pub fn quoted(alloc: Global, text: &str) -> Result<String, AllocError> {
    let length = text.len();
    if length > MOST_SHOWN {
        return format!(in alloc; "a text of {length} bytes");
    }
    format!(in alloc; "{text:?}")
}

/// A value as it is shown.
pub fn shown(alloc: Global, value: &Value) -> Result<String, AllocError> {
    match value {
        Value::String(text) => quoted(alloc, text.as_str()),
        Value::Array(_) => String::from_str(alloc, "an array"),
        Value::Object(_) => String::from_str(alloc, "an object"),
        _ => value.to_string(alloc),
    }
}
