//! What a book has that the tallies do not have yet.

ghost use Rattle.std.specs.Prelude.{◌≡◌, ◌<◌, ◌++◌, List, length, drop, OnOk};
ghost use Rattle.rx_event.specs.declared.event.Event.{Event};
ghost use Rattle.rx_event.specs.declared.mail.Mail.{Mail};
ghost use Rattle.rx_event.specs.Kept.{nothing_kept};
ghost use Rattle.rx_event.specs.Lawful.{IsLawful};
ghost use Rattle.rx_event.specs.Notes.{notes};
ghost use Rattle.rx_script.specs.Tallies.{AreCountsOf, AreNotesOf, GoesOnFromFront, Gathers};

use crate::tallies::Tallies;
use rx_book::Book;
use rx_resource::Resource;
use std::alloc::AllocError;

// Takes the notes that were not handed out yet.
fn gather_notes<R: Resource>(tallies: &mut Tallies, book: &mut Book<R>) -> Result<(), AllocError>
    ensures notes { OnOk result ((mail : List Mail) → AreNotesOf mail tallies.old
        → AreNotesOf (mail ++ drop book.old.given (notes book.old.history)) tallies.new) }
    ensures counts { tallies.new ≡ record tallies.old { notes = tallies.new.notes } }
    ensures given { OnOk result (book.new.given ≡ length (notes book.old.history)) }
    ensures kept { book.new ≡ record book.old { given = book.new.given } }
{
    book.promise();
    while let Some(note) = book.take_mail() {
        book.promise();
        tallies.add_note(note)?;
    }
    Ok(())
}

// Counts the events that were not counted yet.
fn gather_events<R: Resource>(tallies: &mut Tallies, book: &Book<R>) -> Result<(), AllocError>
    ensures counts { OnOk result ((front h : List Event) → AreCountsOf front tallies.old → GoesOnFromFront front h book.now
        → IsLawful nothing_kept h → AreCountsOf h tallies.new) }
    ensures notes { tallies.new.notes ≡ tallies.old.notes }
{
    book.promise();
    while let Some(event) = book.event(tallies.events) {
        tallies.add_event(&event)?;
    }
    Ok(())
}

/// Takes all notes that the book did not hand out yet, and counts its events from the first on that was
/// not counted. It is to be called before each checkpoint, which keeps neither and is refused while notes
/// are left, and before the report.
///
/// It answers Err only where memory was refused. Nothing but the notes handed out changes in the book, also
/// then; the tallies may have a part of what there was.
pub fn gather<R: Resource>(tallies: &mut Tallies, book: &mut Book<R>) -> Result<(), AllocError>
    ensures ok { OnOk result (Gathers tallies.old tallies.new book.old) }
    ensures given { OnOk result (book.new.given ≡ length (notes book.old.history)) }
    ensures kept { book.new ≡ record book.old { given = book.new.given } }
{
    gather_notes(tallies, book)?;
    gather_events(tallies, book)?;
    Ok(())
}
