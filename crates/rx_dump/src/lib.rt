//! Dumps: histories as JSON, alone or beside names for their numbers, and the audit's verdict on one.
//!
//! # Vocabulary
//!
//! - A **dump** of a history is a JSON array of its events, and an event an array: what it is, then its
//!   parts. `specs/History.antt` says which JSON values are dumps, and of which history; `specs/Dump.antt`
//!   the bytes of the dump that [`push_dump`] writes of a history.
//! - A **verdict** is what `rx_audit` says of a history; `specs/Verdict.antt` defines its text.
//! - [`history_of`] gives the history of which a JSON value is a dump.
//! - [`check`] reads a dump and gives the [`Judgement`] on its history: the text of the verdict (`specs/Inputs.antt`).
//! - An **input** is a dump, or an object with a dump as its member `dump` and, if there are some, names as its member
//!   `names`: an object that leads from numbers, written as decimals, to texts (`specs/Names.antt`).
//!   `rxbook run --names` writes one, and so does a live book.
//! - [`Names`] are those of one value; [`name_of`] finds that of a number, [`label`] writes both.
//! - A verdict **tells names** where behind each number of something that is open, held or waiting stands its name as
//!   a JSON string (`specs/NamedVerdict.antt`). [`judge`] reads an input and gives its verdict, with
//!   [`Labels::Names`] so (`specs/Judged.antt`).
//!
//! # How a dump is read
//!
//! [`check`] takes the events one after the other from the tokens of the text (`specs/Tokens.antt`), with
//! no JSON value of the whole. So beside the text and the events it needs a buffer as long as the text,
//! which is given back before the audit begins. Only an input that is not read so, and
//! thus is at fault, is read once more as a value, which tells JSON from what is none.
//!
//! # Promised, and not
//!
//! - Where [`check`] answers Ok, the text is that of the verdict on the history of which the bytes are a dump, and it
//!   is `lawful` for a lawful history whose operators have nothing left to do, and for no other. Each error comes only for
//!   its cause, and a cause of `Syntax` or `Shape` is never passed over; `Read` and `Write` never come.
//! - [`judge`] promises of an input what [`check`] promises of a dump; with [`Labels::Numbers`] it gives the text of
//!   the verdict alone, with [`Labels::Names`] the same with names.
//! - [`a_dump_alone_has_no_names`]: a dump is an input without names, whose verdict is the same with either.
//! - A number has at most one name, and nothing says that the names of two numbers differ.
//! - [`a_dump_is_read_back`]: the dump of a history is the compact text of a JSON value and a newline,
//!   and that value is read as the history. That `serde_json` reads its own text back is its promise;
//!   that the newline changes nothing is tested.
//! - That `Memory` is given only where memory was really refused is tested and not proved.
#![tactic(auto)]

mod checking;
mod dump;
mod history;
mod input;
mod judging;
mod laws;
mod named_verdict;
mod names;
mod reading;
mod verdict;

pub use checking::{Judgement, check};
pub use dump::push_dump;
pub use history::history_of;
pub use input::{dump_in, names_or};
pub use judging::{Labels, judge};
pub use laws::{a_dump_alone_has_no_names, a_dump_is_read_back};
pub use names::{Names, label, name_of, name_text};
