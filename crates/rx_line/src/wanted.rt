//! What is wrong with a JSON value that is no command. Nothing is proved of what it says.

use rx_device::Part;
use rx_scenario::{KINDS, MODES, PLACES, is_among, is_name, members_of, nearest};
use std::alloc::{AllocError, Global};

const NAME: &str = "a name of 1 to 32 letters, digits, - and _ is expected";

const CODE: &str = "a whole number from 0 to 4294967295 is expected";

// The commands of a live book.
const COMMANDS: &str =
    "using, open, hold, apply, remove, lease, return, next, end, abort, fail, decline, dispose, is, hub, connect, disconnect, drain, checkpoint, list, dump";

// The members of a command, besides `do`.
fn own_members(command: &str) -> Option<&'static str> {
    match command {
        "open" => Some("name, place, of, kind, hub, connection, res"),
        "is" => Some("node"),
        "list" | "dump" => Some(""),
        _ => members_of(command),
    }
}

fn has_name(value: Part<'_, '_>) -> bool {
    match value.as_str() {
        Some(text) => is_name(text),
        None => false,
    }
}

fn is_code(value: Part<'_, '_>) -> bool {
    match value.as_u64() {
        Some(code) => code <= 4_294_967_295,
        None => false,
    }
}

// Whether a member of the object is this word.
fn is_word(object: Part<'_, '_>, member: &str, word: &str) -> bool {
    object.get(member).and_then(Part::as_str) == Some(word)
}

// Whether a member of the object is one of these words.
fn is_one_of(object: Part<'_, '_>, member: &str, words: &str) -> bool {
    match object.get(member).and_then(Part::as_str) {
        Some(word) => is_among(word, words),
        None => false,
    }
}

// Whether a name, or with `may` none, stands there.
fn name_fault(object: Part<'_, '_>, member: &str, may: bool) -> Option<&'static str> {
    match object.get(member) {
        Some(value) if has_name(value) => None,
        None if may => None,
        _ => Some(NAME),
    }
}

// Whether an error's code, or with `may` none, stands there.
fn code_fault(object: Part<'_, '_>, may: bool) -> Option<&'static str> {
    match object.get("error") {
        Some(value) if is_code(value) => None,
        None if may => None,
        _ => Some(CODE),
    }
}

// What is said of a member that is not right.
fn fault(is_right: bool, told: &'static str) -> Option<&'static str> {
    if is_right { None } else { Some(told) }
}

// What is wrong with the node above.
fn of_fault(object: Part<'_, '_>) -> Option<&'static str> {
    if !is_word(object, "place", "root") {
        return name_fault(object, "of", false);
    }
    let told = "not allowed here: a root has no node above it";
    fault(object.get("of").is_none(), told)
}

// What is wrong with a member that a subscriber alone has.
fn sub_fault(object: Part<'_, '_>, member: &str, may: bool) -> Option<&'static str> {
    if is_word(object, "kind", "sub") {
        return name_fault(object, member, may);
    }
    let told = "not allowed here: the kind is not sub";
    fault(object.get(member).is_none(), told)
}

fn number_fault(object: Part<'_, '_>, member: &str) -> Option<&'static str> {
    let number = object.get(member);
    if member == "value" {
        let told = "a whole number from -2^63 to 2^63 - 1 is expected";
        return fault(number.and_then(Part::as_i64).is_some(), told);
    }
    let told = "a whole number from 0 to 2^64 - 1 is expected";
    fault(number.and_then(Part::as_u64).is_some(), told)
}

// The words that may stand there, if only these may.
fn words_of(member: &str) -> &'static str {
    match member {
        "place" => PLACES,
        "kind" => KINDS,
        "mode" => MODES,
        _ => "",
    }
}

fn words_fault(object: Part<'_, '_>, member: &str) -> Option<&'static str> {
    let told = match member {
        "place" => "root, source, inner or notifier is expected",
        "kind" => "leaf, pass, flat, switch, until or sub is expected",
        _ => "auto or manual is expected",
    };
    fault(is_one_of(object, member, words_of(member)), told)
}

// What is wrong with a member of a command.
fn member_fault(object: Part<'_, '_>, command: &str, member: &str) -> Option<&'static str> {
    match member {
        "value" | "word" => number_fault(object, member),
        "error" => code_fault(object, command == "end"),
        "of" => of_fault(object),
        "place" | "kind" | "mode" => words_fault(object, member),
        "hub" if command == "open" => sub_fault(object, member, false),
        "connection" => sub_fault(object, member, true),
        "res" => name_fault(object, member, command == "open"),
        _ => name_fault(object, member, command == "connect" && member == "name"),
    }
}

// The first member that the command does not have.
fn stranger<'a>(object: Part<'_, 'a>, own: &str) -> Option<&'a str> {
    for member in object.as_object()? {
        let name = member.0;
        if name != "do" && !is_among(name, own) {
            return Some(name);
        }
    }
    None
}

// What is said of the word of a list that is nearest to this one; nothing where none is near.
fn hint(alloc: Global, word: &str, list: &'static str) -> Result<String, AllocError> {
    match nearest(word, list) {
        Some(known) => format!(in alloc; "; the nearest is {known}"),
        None => Ok(String::new(alloc)),
    }
}

// What is wrong with an object that has this word for its command.
fn command_fault(
    alloc: Global,
    object: Part<'_, '_>,
    command: &str,
    own: &'static str,
) -> Result<String, AllocError> {
    if let Some(member) = stranger(object, own) {
        let near = hint(alloc, member, own)?;
        return format!(in alloc; "{member}: {command} has no such member{near}");
    }
    for member in own.split(", ") {
        if member.is_empty() {
            break;
        }
        if let Some(told) = member_fault(object, command, member) {
            let word = object.get(member).and_then(Part::as_str).unwrap_or("");
            let near = hint(alloc, word, words_of(member))?;
            return format!(in alloc; "{member}: {told}{near}");
        }
    }
    format!(in alloc; "{command}: not a valid command")
}

/// What is wrong with a value that is no command: which member, and why.
pub fn fault_of(alloc: Global, value: Part<'_, '_>) -> Result<String, AllocError> {
    if value.as_object().is_none() {
        return String::from_str(alloc, "a command is an object");
    }
    let Some(command) = value.get("do").and_then(Part::as_str) else {
        return String::from_str(alloc, "do: the name of a command is expected");
    };
    match own_members(command) {
        Some(own) => command_fault(alloc, value, command, own),
        None => {
            let near = hint(alloc, command, COMMANDS)?;
            format!(in alloc; "do: there is no such command here{near}")
        }
    }
}
