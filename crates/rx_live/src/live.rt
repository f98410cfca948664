//! What a live book is.

ghost use Rattle.std.specs.Prelude.{◌≤◌};
ghost use Rattle.std.specs.String.{string_capacity};
ghost use Rattle.rx_live.specs.Session.{session_of, IsTied};

use crate::engine::Engine;
use json::Scratch;

/// The room for the answer to a command that takes no memory. It has the names of 128 resources, and what every answer says.
pub(crate) const KEPT: usize = 4_608;

/// A book that takes its commands as lines of text, and answers each with one.
///
/// A resource stays with the caller: the book holds a token in its place, and tells the caller by its name
/// when it is to be released.
///
/// Contracts speak of its `session`: its book, and which names are bound (`specs/Session.antt`).
pub struct Live {
    pub(crate) engine: Engine,
    /// What reading a line needs, kept from line to line.
    pub(crate) scratch: Scratch,
    /// The last answer, where it took memory.
    pub(crate) answer: Option<String>,
    /// The last answer else; its room is set aside from the first line on.
    pub(crate) kept: String,
    ghost tied: { IsTied (session_of engine) },
    ghost roomy: { 4608 ≤ string_capacity kept },
}

// Written out, so that where a live book is let go there is one call to prove, and not the drop of each field in turn.
impl Drop for Live {
    fn drop(self) {
        let Live {
            engine: _engine,
            scratch: _scratch,
            answer: _answer,
            kept: _kept,
        } = self;
    }
}
