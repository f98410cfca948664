//! An engine by commands of numbers, as they cross to C.
//!
//! A face in another language makes one [`Command`] at a time, a struct of numbers, and gets an [`Answer`], one too,
//! written into its own memory. Then the lanes that got something are served, by their words.
//!
//! # Vocabulary
//!
//! - [`asked_of`] says what a command's numbers ask, an [`Asked`]; nothing where one of them is none of its enum
//!   (`specs/Asking.antt`).
//! - A [`Cellar`] is an engine of `rx_engine`, and beside it the count of the releases that were told, and when it is
//!   to make a checkpoint by itself (`specs/Cellars.antt`).
//! - A lane crosses as a **word**: its place, the last 34 bits of its turn, and whether the caller serves it already,
//!   further out (`specs/Words.antt`). It finds its lane as long as that is open ([`words_find_their_lanes`]), and
//!   no lane after that, until 2^34 lanes more were opened.
//! - What each command comes to is the line of its name in `specs/Makings.antt`, by the engine's own definitions.
//!
//! # Promised, and not
//!
//! - [`Cellar::make`] does what the command asks, by the engine's call of that name, and its answer is the engine's:
//!   keys, hub, copies and the first eight closings, the rest by [`Cellar::closings`]; the due lanes by
//!   [`Cellar::due_word`]. Where it is refused, all counts are 0, and nothing changed but room, a checkpoint, and the hubs
//!   of shares.
//! - Only an item is handed out with its answer: if, and only if, it is all that comes of its command, its lane has
//!   nothing in it, and nobody serves that; and never where the command or its caller says that it waits.
//! - Where the history is full a checkpoint is made, and the command is tried once more; where the checkpoint is
//!   refused, for want of memory, so is the command. Where a share finds no hub the hubs are made, and it is tried
//!   once more.
//! - Serving, giving up and finding lanes are the engine's, by the lane that the word names.
//! - What a face makes of effects is its own: that it serves what an answer names, and that words of callers differ.
#![tactic(auto)]

mod asked;
mod beginning;
mod cellar;
mod dumping;
mod frequent;
mod making;
mod reading;
mod rest;
mod serving;
mod shapes;
mod status;
mod telling;
mod word_laws;
mod words;

pub use asked::{Asked, OpenedAs, OwnKind, asked_of};
pub use cellar::Cellar;
pub use dumping::no_event;
pub use making::Made;
pub use reading::{Event, Totals, no_totals};
pub use shapes::{Answer, Command, Effect, NumberedKey, no_node};
pub use status::{
    CUT, DONE, HELD, NO_MEMORY, NO_SUCH_CODE, NOTHING_KEPT, NOTHING_WAITS, SMALL, UNTAKEN,
};
pub use word_laws::words_find_their_lanes;
