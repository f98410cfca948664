//! A live book: a book that is driven by lines of text, each of which is answered by one.
//!
//! # Vocabulary
//!
//! - A **line** is one task as JSON, or `is`, `list` or `dump`, or an array of such; what each asks for is
//!   defined in `rx_line`. Its **answer** is one JSON object, or an array of them.
//! - A **session** is what a [`Live`] is to contracts: its book, which names are bound, and what was taken
//!   from the book and is still to be told (`specs/Session.antt`).
//! - A resource's name is **held** from the answer of the `using`, the `hold` or the `open` that hands it in
//!   until it stands in a `release`. The handing in and the release are the **acts** of a line (`specs/Promise.antt`).
//!
//! - A line finds the history full **by its age** where a checkpoint makes room; it is then taken again behind
//!   one (`specs/Renewals.antt`). What finds no memory in an answer is **late**, and a later answer tells it.
//!
//! # Promised, and not
//!
//! - What a line is answered, and what it leaves, is one relation between the session before, the line, the
//!   answer and the session after (`Sends` in `specs/Lines.antt`): a faulty line changes nothing, a refused
//!   one is refused by its first cause and changes nothing, and an accepted one tells all notes of the book's
//!   history that were not told before, in order, and the names of all that was taken from it, or says that
//!   something is late.
//! - The commands of an array are carried out and answered one after the other, each as in a line of its own
//!   (`AnswersEach` there). One for which memory is refused is answered so, and the next is taken.
//! - The answer to the opening of a subscriber says whether that made a connection.
//! - The answer to a task names the nodes that it closed, those without a name and the one that it asks for left out,
//!   or in want of memory says that it names none (`specs/Closings.antt`).
//! - A line that is refused `Full` finds no event in the history since its last checkpoint. After a checkpoint
//!   each name of a node is that of an open one. `dump` is answered with the dump of the history and the names of
//!   its numbers, or with the place of the checkpoint that took events away, and `is` with whether a node of that
//!   name is open.
//! - Of any list of lines up to the last one: each name that is handed in is released exactly once behind that,
//!   before it is handed in again, and no other name is ([`names_are_released_once`]).
//! - Of any list of lines: the answers tell the notes of the events that were written, each once and in order
//!   ([`notes_are_told_in_order`]).
//! - A line that is a command which takes no memory (`specs/FreeCommands.antt` of `rx_line`) is never refused for want of it, and
//!   what ends a session needs none: [`Live::shut`], and each [`Live::next_release`] behind it
//!   ([`names_are_released_to_the_end`]).
//! - Where memory is refused a line was not taken, and nothing has changed, but that a checkpoint may have been
//!   made. While something is late no name of a node is forgotten.
//! - Nothing is promised of the text with which `list` is answered, nor of the words of a faulty line. That
//!   something is late, or a checkpoint not made, only where memory was refused is tested and not proved.
#![tactic(auto)]

mod arrays;
mod calls;
mod closed;
mod closing;
mod connected;
mod dumping;
mod engine;
mod free;
mod holder;
mod holding;
mod lines;
mod listing;
mod live;
mod opening;
mod query;
mod renewing;
mod running;
mod sending;
mod shutting;
mod telling;
mod theorems;

pub use live::Live;
pub use rx_line::faulty_text;
pub use theorems::{
    names_are_released_once, names_are_released_to_the_end, notes_are_told_in_order,
};
