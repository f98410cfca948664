//! The order of the notes of one observer.

ghost use Rattle.std.specs.Prelude.{◌≡◌, ◌↔◌, Bool, true, false, OnOk, OnErr, IsOk};
ghost use Rattle.rx_note.specs.Notes.{is_end};

use crate::note::Note;
use std::marker::Model;

/// A note came after the end.
#[derive(Clone, Copy, Debug, PartialEq, Eq)]
pub struct AfterEnd;

/// Where one observer is in the Observable Contract: before its end, or after it.
#[derive(Debug, Drop)]
pub struct Grammar {
    ended: bool,
}

impl Model for Grammar {
    ghost Value = { Bool };

    ghost view = { λ g. g.ended };
}

impl Grammar {
    /// An observer that has been told nothing.
    pub fn new() -> Self
        ensures { result ≡ false }
    {
        Grammar { ended: false }
    }

    /// Takes the next note. `AfterEnd` exactly where an end was taken before; then nothing changes.
    pub fn accept(&mut self, note: &Note) -> Result<(), AfterEnd>
        ensures ok { IsOk result ↔ (self.old ≡ false) }
        ensures ended { OnOk result (self.new ≡ is_end note.now) }
        ensures err { OnErr result (self.new ≡ self.old) }
    {
        if self.ended {
            return Err(AfterEnd);
        }
        self.ended = match note {
            Note::End(_) => true,
            Note::Next(_) | Note::Project(_) => false,
        };
        Ok(())
    }
}
