//! What observers are told.

ghost use Rattle.rx_event.specs.Kept.{Kept};
ghost use Rattle.rx_event.specs.Claims.Notes.{NotesInOrder};

/// In a lawful history each observer is told items, then at most one end, and then nothing
/// (Observable Contract). A node that is no root is told projected items alone, and one that is
/// not open nothing more.
pub fn notes_obey_the_grammar()
    ensures { (base : Kept) → NotesInOrder base }
{}
