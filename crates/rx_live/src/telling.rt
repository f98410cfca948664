//! What an answer tells beside its outcome: notes, and what is to be released.

ghost use Rattle.std.specs.Prelude.{◌≡◌, ◌≤◌, ◌+◌, ◌++◌, None, [], string_bytes, IfOk, IfSome, IfNone, OnOk, OnErr};
ghost use Rattle.std.specs.String.{string_capacity};
ghost use Rattle.rx_line.specs.Pieces.{name_text};
ghost use Rattle.rx_live.specs.Session.{session_of, IsSound};
ghost use Rattle.rx_live.specs.Answers.{told_of, told_text, to_tell, WritesNotes, WritesNames};
ghost use Rattle.rx_live.specs.Steps.{TellsOne, MayWriteNote, TakesName, DropsName, MayWriteName};
ghost use Rattle.rx_live.specs.Room.{HasRoom, KeepsRoom};

use crate::engine::Engine;
use rx_book::Mail;
use rx_line::{note_text, put};
use std::alloc::AllocError;

/// How many bytes of room an answer keeps behind what was written, for the brackets that close it. What takes a
/// `rest` keeps room for so many bytes more behind the answer.
pub const ROOM: usize = 32;

/// Writes a piece of an array, and what leads to it; a piece that finds no room is not written.
pub fn push_piece(text: &mut String, lead: &str, piece: &str, rest: u32) -> Result<(), AllocError>
    ensures ok { OnOk result (string_bytes text.new ≡ string_bytes text.old ++ lead.now ++ piece.now) }
    ensures err { OnErr result (string_bytes text.new ≡ string_bytes text.old) }
    ensures room { KeepsRoom rest text.old text.new }
    ensures capacity { string_capacity text.old ≤ string_capacity text.new }
{
    let wanted = lead.len().saturating_add(piece.len());
    text.reserve(wanted.saturating_add(rest as usize + ROOM))?;
    put(text, lead);
    put(text, piece);
    Ok(())
}

// What is told of a note.
fn mail_text(engine: &Engine, mail: &Mail) -> Result<String, AllocError>
    ensures { IfOk result (λ s. string_bytes s ≡ told_text (told_of engine.now.nodes mail.now)) }
{
    match engine.nodes.name_of(mail.to) {
        Some(to) => note_text(engine.alloc, to, mail.note),
        None => note_text(engine.alloc, "", mail.note),
    }
}

// Writes a note, and what leads to it.
fn push_mail(
    engine: &Engine,
    text: &mut String,
    lead: &str,
    mail: &Mail,
    rest: u32,
) -> Result<(), AllocError>
    ensures ok { OnOk result (string_bytes text.new ≡ string_bytes text.old ++ lead.now ++ told_text (told_of engine.now.nodes mail.now)) }
    ensures err { OnErr result (string_bytes text.new ≡ string_bytes text.old) }
    ensures room { KeepsRoom rest text.old text.new }
    ensures capacity { string_capacity text.old ≤ string_capacity text.new }
{
    let piece = mail_text(engine, mail)?;
    push_piece(text, lead, piece.as_str(), rest)
}

// The note that comes next: the one that was not told in want of memory, or one of the book's.
fn next_mail(engine: &mut Engine) -> Option<Mail>
    requires { IsSound (session_of engine.old) }
    ensures some { IfSome result (λ m. TellsOne (session_of engine.old) m (session_of engine.new)) }
    ensures none { IfNone result (session_of engine.new ≡ session_of engine.old) }
    ensures all { IfNone result (to_tell (session_of engine.old) ≡ []) }
    ensures untold { engine.new.untold ≡ None }
    ensures sound { IsSound (session_of engine.new) }
{
    match engine.untold.take() {
        Some(mail) => Some(mail),
        None => {
            let mail = engine.book.take_mail();
            engine.book.promise();
            mail
        }
    }
}

/// Writes the next note behind this lead. False where there is none, or no memory for it: it is told later.
pub fn push_next(engine: &mut Engine, text: &mut String, lead: &str, rest: u32) -> bool
    requires { IsSound (session_of engine.old) }
    ensures told { MayWriteNote result (session_of engine.old) (string_bytes text.old) lead.now (session_of engine.new) (string_bytes text.new) }
    ensures sound { IsSound (session_of engine.new) }
    ensures room { KeepsRoom rest text.old text.new }
    ensures capacity { string_capacity text.old ≤ string_capacity text.new }
{
    let Some(mail) = next_mail(engine) else {
        return false;
    };
    if push_mail(engine, text, lead, &mail, rest).is_err() {
        engine.untold = Some(mail);
        return false;
    }
    true
}

/// Writes the notes that were not told yet, for as many as there is memory. The rest is told later.
pub fn tell_notes(engine: &mut Engine, text: &mut String, rest: u32)
    requires sound { IsSound (session_of engine.old) }
    requires room { HasRoom (rest + 15) text.old }
    ensures told { WritesNotes (session_of engine.old) (string_bytes text.old) (session_of engine.new) (string_bytes text.new) }
    ensures sound { IsSound (session_of engine.new) }
    ensures room { HasRoom (rest + 14) text.new }
    ensures capacity { string_capacity text.old ≤ string_capacity text.new }
{
    if !push_next(engine, text, ",\"notes\":[", rest) {
        return;
    }
    'notes: while push_next(engine, text, ",", rest) {}
    put(text, "]");
}

// Takes a resource that waits, and forgets its name, which is answered.
fn take_name(engine: &mut Engine) -> Option<String>
    requires { IsSound (session_of engine.old) }
    ensures some { IfSome result (λ name. TakesName (session_of engine.old) (string_bytes name) (session_of engine.new)) }
    ensures none { IfNone result (session_of engine.new ≡ session_of engine.old) }
    ensures all { IfNone result (engine.old.book.waiting ≡ []) }
    ensures sound { IsSound (session_of engine.new) }
{
    engine.book.promise();
    let handed = engine.book.take()?;
    engine.book.promise();
    let number = handed.number();
    let _released = handed.release();
    engine.resources.forget(number)
}

/// The name of the resource that is to be released next: the one that was not told in want of memory, or
/// one that waits in the book.
pub fn next_name(engine: &mut Engine) -> Option<String>
    requires { IsSound (session_of engine.old) }
    ensures some { IfSome result (λ name. DropsName (session_of engine.old) (string_bytes name) (session_of engine.new)) }
    ensures none { IfNone result (session_of engine.new ≡ session_of engine.old) }
    ensures all { IfNone result (engine.old.book.waiting ≡ []) }
    ensures gone { IfNone result ((session_of engine.old).unnamed ≡ None) }
    ensures sound { IsSound (session_of engine.new) }
{
    match engine.unnamed.take() {
        Some(name) => Some(name),
        None => take_name(engine),
    }
}

// Writes a name, and what leads to it; one that finds no room is not written.
#[tactic(auto, unfolding(rx_line::specs::Pieces::name_text))]
pub fn push_quoted(text: &mut String, lead: &str, name: &str, rest: u32) -> Result<(), AllocError>
    ensures ok { OnOk result (string_bytes text.new ≡ string_bytes text.old ++ lead.now ++ name_text name.now) }
    ensures err { OnErr result (string_bytes text.new ≡ string_bytes text.old) }
    ensures room { KeepsRoom rest text.old text.new }
    ensures capacity { string_capacity text.old ≤ string_capacity text.new }
{
    let wanted = lead.len().saturating_add(name.len());
    text.reserve(wanted.saturating_add(rest as usize + (2 + ROOM)))?;
    put(text, lead);
    put(text, "\"");
    put(text, name);
    put(text, "\"");
    Ok(())
}

// Writes the next name behind this lead. False where there is none, or no memory for it: it is told later.
fn push_name(engine: &mut Engine, text: &mut String, lead: &str, rest: u32) -> bool
    requires { IsSound (session_of engine.old) }
    ensures told { MayWriteName result (session_of engine.old) (string_bytes text.old) lead.now (session_of engine.new) (string_bytes text.new) }
    ensures sound { IsSound (session_of engine.new) }
    ensures room { KeepsRoom rest text.old text.new }
    ensures capacity { string_capacity text.old ≤ string_capacity text.new }
{
    let Some(name) = next_name(engine) else {
        return false;
    };
    if push_quoted(text, lead, name.as_str(), rest).is_err() {
        engine.unnamed = Some(name);
        return false;
    }
    true
}

/// Takes what waits, and writes the names, for as many as there is memory. The rest is told later.
pub fn tell_releases(engine: &mut Engine, text: &mut String, rest: u32)
    requires sound { IsSound (session_of engine.old) }
    requires room { HasRoom (rest + 14) text.old }
    ensures told { WritesNames (session_of engine.old) (string_bytes text.old) (session_of engine.new) (string_bytes text.new) }
    ensures sound { IsSound (session_of engine.new) }
    ensures room { HasRoom (rest + 13) text.new }
    ensures capacity { string_capacity text.old ≤ string_capacity text.new }
{
    if !push_name(engine, text, ",\"release\":[", rest) {
        return;
    }
    'names: while push_name(engine, text, ",", rest) {}
    put(text, "]");
}
