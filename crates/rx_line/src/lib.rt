//! Lines of a live book: what a line asks for, what the pieces of an answer are, and which names are bound.
//!
//! # Vocabulary
//!
//! - A **line** is the JSON text of one task, of `is`, `list` or `dump`, or of an array of such; [`read_line`] reads
//!   it as a JSON value, and [`order_of`] such a value as an [`Order`]. A [`Task`] is a command of a scenario, or an
//!   `open` with the member `res`. Which values are orders, and which order, is defined in `specs/Orders.antt`.
//! - A **free command** is one that takes no memory, and is read without any: [`free_command_in`] (`specs/FreeCommands.antt`).
//! - An **answer** is written of pieces, which are defined in `specs/Pieces.antt`: what was accepted, refused or
//!   faulty, and a note that an observer is told.
//! - [`Names`] is a space of names, each of which stands for one number (`specs/Names.antt`).
//!
//! # Promised, and not
//!
//! - [`read_line`] gives the value that a line is, and [`order_of`] the order that a value is, and each `Faulty`
//!   where it is none, exactly. Of what is answered `Memory` nothing is known, and that this comes only where memory
//!   was refused is not proved.
//! - Each piece of an answer is the text that its definition says, or memory was refused.
//! - A name that is bound, and one that is forgotten, changes nothing of any other.
//! - Of the words with which a line or a value is called faulty nothing is promised.
#![tactic(auto)]

mod free;
mod names;
mod order;
mod outcome;
mod pieces;
mod wanted;

pub use free::{FreeCommand, free_command_in};
pub use names::{Names, Spot, Twice};
pub use order::{Order, Task, Unread, order_of, read_line};
pub use outcome::{Cause, Outcome};
pub use pieces::{faulty_text, note_text, ok_text, put, put_ok, put_refused, refused_text};
