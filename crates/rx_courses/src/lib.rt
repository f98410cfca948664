//! What holds of every course of an engine: of commands, and of those who serve its lanes between them.
//!
//! # Vocabulary
//!
//! - A **course** (`Course`, specs/Courses) is what an engine went through: each command with what it came to, each
//!   taking and giving-up of a lane, one after another. Each call that changes an engine is one of these
//!   (`calls_are_commands`).
//! - **Told** (`told_there`) is what was taken of a lane and not given back; what **waits** there is `line_at`.
//! - A lane is **named** by the answer of a command that put something there, and by the answer to who gives it up.
//! - A **role** of a word is given by a command that opens a node or hands a tag in, and ends with its last effect.
//!
//! # Promises
//!
//! Each law is a function that does nothing and whose clause a caller may cite. They speak of the public clauses of
//! `rx_engine` alone.
#![tactic(auto)]

mod course_laws;
mod share_laws;

pub use course_laws::{
    calls_are_commands, closings_once, commands_name_what_is_left, each_is_told_once,
    each_note_is_told, lanes_are_named_at_once, lanes_are_served_one_at_a_time, lanes_run,
    no_note_is_lost, nothing_comes_behind_a_last_effect, nothing_is_stuck, refused_is_unchanged,
    roots_are_told_in_order, tags_once, tells_in_order, values_once, words_end_once,
};
pub use share_laws::shares_are_served;
