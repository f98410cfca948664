//! Notes, taken while a run goes on.

ghost use Rattle.std.specs.Prelude.{◌≡◌, ◌+◌, slice_get, is_some, IfOk, OnOk, if◌then◌else◌};
ghost use Rattle.rx_event.specs.Notes.{notes};
ghost use Rattle.rx_script.specs.Engine.{IsSound, StaysAt};

use crate::engine::Engine;
use rx_book::Mail;
use rx_resource::Resource;
use std::alloc::AllocError;

/// Takes the first note that the book did not hand out yet, if there is one, and keeps it for the report. Nothing
/// else changes. Err where memory is refused for it; then the scenario goes no further.
pub fn next_note<R: Resource>(engine: &mut Engine<R>) -> Result<Option<Mail>, AllocError>
    requires { IsSound engine.old }
    ensures note { IfOk result (λ m. m ≡ slice_get (notes engine.old.book.history) engine.old.book.given) }
    ensures handed { IfOk result (λ m. engine.new.book ≡ record engine.old.book {
      given = if is_some m then engine.old.book.given + 1 else engine.old.book.given;
    }) }
    ensures stays { OnOk result (StaysAt engine.old engine.new) }
{
    let Some(note) = engine.book.take_mail() else {
        engine.book.promise();
        return Ok(None);
    };
    engine.book.promise();
    engine.tallies.add_note(note)?;
    Ok(Some(note))
}

/// Takes all notes that the book did not hand out yet, and keeps them for the report, where those in a row that are
/// the same take the memory of one. Err where memory is refused; then the scenario goes no further.
pub fn keep_notes<R: Resource>(engine: &mut Engine<R>) -> Result<(), AllocError>
    requires { IsSound engine.old }
    ensures { OnOk result (StaysAt engine.old engine.new) }
{
    while next_note(engine)?.is_some() {}
    Ok(())
}
