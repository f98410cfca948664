//! The pieces of an answer, in JSON.

ghost use Rattle.std.specs.Prelude.{◌≡◌, ◌++◌, ◌+◌, ◌≤◌, length, string_bytes, IfOk};
ghost use Rattle.std.specs.String.{string_len, string_capacity};
ghost use Rattle.rx_line.specs.Pieces.{cause_name, faulty_text, to_text, next_text};
ghost use Rattle.rx_line.specs.Pieces.{project_text, completed_text, error_text, note_text, ok_text, refused_text};

use crate::outcome::Cause;
use itoa::Buffer;
use rx_event::Terminal;
use rx_note::Note;
use rx_scenario::refusal_word;
use serde_json::Value;
use std::alloc::{AllocError, Global};

// Room for a piece, so that its text need not grow: for one that has a number and no name, and for what a note has
// beside its name.
const PIECE: usize = 32;

const NOTE: usize = 48;

// The name of a cause.
fn cause_name(why: Cause) -> &'static str
    ensures name { result.now ≡ cause_name why }
    ensures short { length result.now ≤ 12 }
{
    match why {
        Cause::NoName => "NoName",
        Cause::NameTaken => "NameTaken",
        Cause::Book(why) => refusal_word(why),
    }
}

/// The answer to a command that was refused. Err where memory is refused.
#[tactic(auto, unfolding(crate::specs::Pieces::refused_text))]
pub fn refused_text(alloc: Global, why: Cause) -> Result<String, AllocError>
    ensures { IfOk result (λ s. string_bytes s ≡ refused_text why) }
{
    let name = cause_name(why);
    let mut text = String::with_capacity(alloc, PIECE)?;
    write!(text, "{{\"refused\":\"{name}\"}}")?;
    Ok(text)
}

/// The answer to a line that is faulty, with which member, and why. Err where memory is refused.
#[tactic(auto, unfolding(crate::specs::Pieces::faulty_text))]
pub fn faulty_text(alloc: Global, told: String) -> Result<String, AllocError>
    ensures { IfOk result (λ s. string_bytes s ≡ faulty_text (string_bytes told)) }
{
    let told = Value::String(told).to_string(alloc)?;
    format!(in alloc; "{{\"faulty\":{told}}}")
}

/// How the answer begins of a command that is accepted at this place. Err where memory is refused.
#[tactic(auto, unfolding(crate::specs::Pieces::ok_text))]
pub fn ok_text(alloc: Global, place: u64) -> Result<String, AllocError>
    ensures { IfOk result (λ s. string_bytes s ≡ ok_text place) }
{
    let mut text = String::with_capacity(alloc, PIECE)?;
    write!(text, "{{\"ok\":{place}")?;
    Ok(text)
}

// The front of a note, which has the name of the node that it goes to.
#[tactic(auto, unfolding(crate::specs::Pieces::to_text))]
fn to_text(alloc: Global, to: &str) -> Result<String, AllocError>
    ensures { IfOk result (λ s. string_bytes s ≡ to_text to.now) }
{
    let mut text = String::with_capacity(alloc, to.len().saturating_add(NOTE))?;
    write!(text, "{{\"to\":\"{to}\"")?;
    Ok(text)
}

#[tactic(auto, unfolding(crate::specs::Pieces::next_text))]
fn next_text(alloc: Global, to: &str, value: i64) -> Result<String, AllocError>
    ensures { IfOk result (λ s. string_bytes s ≡ next_text to.now value) }
{
    let mut text = to_text(alloc, to)?;
    write!(text, ",\"next\":{value}}}")?;
    Ok(text)
}

#[tactic(auto, unfolding(crate::specs::Pieces::project_text))]
fn project_text(alloc: Global, to: &str, value: i64) -> Result<String, AllocError>
    ensures { IfOk result (λ s. string_bytes s ≡ project_text to.now value) }
{
    let mut text = to_text(alloc, to)?;
    text.push_str(",\"project\":")?;
    write!(text, "{value}}}")?;
    Ok(text)
}

#[tactic(auto, unfolding(crate::specs::Pieces::completed_text))]
fn completed_text(alloc: Global, to: &str) -> Result<String, AllocError>
    ensures { IfOk result (λ s. string_bytes s ≡ completed_text to.now) }
{
    let mut text = to_text(alloc, to)?;
    text.push_str(",\"completed\":true}")?;
    Ok(text)
}

#[tactic(auto, unfolding(crate::specs::Pieces::error_text))]
fn error_text(alloc: Global, to: &str, code: u32) -> Result<String, AllocError>
    ensures { IfOk result (λ s. string_bytes s ≡ error_text to.now code) }
{
    let mut text = to_text(alloc, to)?;
    write!(text, ",\"error\":{code}}}")?;
    Ok(text)
}

/// What is told of a note, to the node of this name. Err where memory is refused.
pub fn note_text(alloc: Global, to: &str, note: Note) -> Result<String, AllocError>
    ensures { IfOk result (λ s. string_bytes s ≡ note_text to.now note) }
{
    match note {
        Note::Next(value) => next_text(alloc, to, value),
        Note::Project(value) => project_text(alloc, to, value),
        Note::End(Terminal::Completed) => completed_text(alloc, to),
        Note::End(Terminal::Error(code)) => error_text(alloc, to, code),
    }
}

/// Puts a piece behind a text that has room for it. It takes no memory.
pub fn put(text: &mut String, piece: &str)
    requires room { string_len text.old + length piece.now ≤ string_capacity text.old }
    ensures bytes { string_bytes text.new ≡ string_bytes text.old ++ piece.now }
    ensures len { string_len text.new ≡ string_len text.old + length piece.now }
    ensures capacity { string_capacity text.old ≤ string_capacity text.new }
{
    match text.push_str(piece) {
        Ok(()) => {}
        Err(_) => unreachable!(),
    }
}

/// Puts the front of the answer to what is accepted at this place behind a text that has room for it. It takes no memory.
#[tactic(auto, unfolding(crate::specs::Pieces::ok_text))]
pub fn put_ok(text: &mut String, place: u64)
    requires room { string_len text.old + 26 ≤ string_capacity text.old }
    ensures bytes { string_bytes text.new ≡ string_bytes text.old ++ ok_text place }
    ensures len { string_len text.new ≤ string_len text.old + 26 }
    ensures capacity { string_capacity text.old ≤ string_capacity text.new }
{
    let mut digits = Buffer::new();
    put(text, "{\"ok\":");
    put(text, digits.format(place));
}

/// Puts the answer to what is refused behind a text that has room for it. It takes no memory.
#[tactic(auto, unfolding(crate::specs::Pieces::refused_text))]
pub fn put_refused(text: &mut String, why: Cause)
    requires room { string_len text.old + 26 ≤ string_capacity text.old }
    ensures bytes { string_bytes text.new ≡ string_bytes text.old ++ refused_text why }
    ensures capacity { string_capacity text.old ≤ string_capacity text.new }
{
    put(text, "{\"refused\":\"");
    put(text, cause_name(why));
    put(text, "\"}");
}
