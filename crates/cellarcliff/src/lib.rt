//! The calls of `cellarcliff.h`: an engine behind a handle, calls that take a text, and a live book behind a handle.
//!
//! # An engine
//!
//! A call takes a [`CellarHandle`] and numbers, and answers a status of `rx_cellar`. Each does what `rx_turns` or
//! `rx_cellar` says of the call of its name, on what the handle keeps; where it keeps nothing, nothing is done, and the
//! status is 1.
//!
//! # Texts
//!
//! The audit of a dump, the run of a scenario, a picture and an explanation have text in and text out. A call takes a
//! text as a pointer and a length, writes its answer to the front of the caller's buffer, and answers a status. Those of
//! the audit and the run are as the program `rxbook` has them:
//!
//! | Status | Of an audit | Of a run | Of a picture | Of an explanation |
//! |---|---|---|---|---|
//! | 0 | the verdict is `lawful` | the run is done | it is drawn | nothing is wrong; the text is empty |
//! | 1 | the buffer is too small | the same | the same | the same |
//! | 3 | the input is no dump | the input is no scenario | the input has no dump | |
//! | 4 | memory was refused | the same | the same | the same |
//! | 5 | the verdict is another | | | the text says what is wrong |
//!
//! With 0 and 5 the text stands in the buffer and its length is told. With 1 nothing is written, and
//! what is told is the length that the buffer needs, which is more than it has. With 3 and 4 nothing is
//! written, and 0 is told.
//!
//! # A live book
//!
//! A call on a live book takes a [`LiveHandle`], which keeps a book or nothing:
//!
//! | Status | Meaning |
//! |---|---|
//! | 0 | done |
//! | 1 | done, but the buffer is too small: the answer waits in the handle, and its length is told |
//! | 2 | the handle keeps nothing, and nothing was done |
//! | 3 | an answer waits, its length is told, and nothing was done |
//! | 4 | memory was refused: no line was taken, and nothing was made or ended |
//! | 5 | the handle keeps something already, and nothing was done |
//! | 6 | no answer waits |
//!
//! A line is taken at most once: with 0 or 1 it was, with any other status it was not. Its answer is handed
//! out by that call or, where it waits, by `cellar_live_read`.
//!
//! # Promised, and not
//!
//! - Each call on an engine is one line of `specs/Calls.antt` or `specs/Steps.antt`: what the handle keeps before and
//!   after it, and what is told. Any calls on one handle are a course of its engine ([`calls_are_courses`],
//!   `specs/Courses.antt`): each tag is released once, each effect told once, under a ticket of its own, by one stack at a
//!   time and in order in its lane, and a root hears nothing behind its end. No effect has a word behind its last
//!   ([`words_and_values_end_once`]). A refused command changes nothing ([`refused_calls_change_nothing`]), and a step that
//!   hands out nothing leaves nothing ([`steps_leave_nothing`]).
//! - Each answer of an audit or a run is one line of `Answers` (`specs/`): the text is the verdict on the
//!   history of which the input is a dump, what `rx_script` says of a scenario, or the picture that `rx_svg` tells of
//!   a history, and a status comes only for its cause. An explanation has a text for just the inputs that `rxbook`
//!   does not accept; what the text says is not proved.
//! - The stock is the program's, of `rx_script`, which proves what resources of it answer their release with a
//!   fault; that a report counts them is tested.
//! - Each call on a live book is one line of `LiveCalls` (`specs/`): what the handle keeps before and after it, as
//!   `rx_live` promises of its book, and the answer, where it stands or waits. Of all calls on one handle, from a new
//!   book to its end: the texts that were handed out are the answers to the lines that were taken, in order and each
//!   once, and each resource's name is released once ([`answers_are_handed_out_once`]).
//! - A handle owns what it keeps (`specs/Ownership.antt`). Otherwise no pointer is kept: all that a call uses is the
//!   caller's, or given back before it answers.
//! - That a call gives back what the handle no longer keeps, and that 4 comes for want of memory alone, is
//!   tested and not proved.
//! - What a C caller must ensure is in the header and in docs/reference/c-library.md: no clause can say it.
#![tactic(auto)]

mod audit;
mod dumping;
mod handing;
mod handle;
mod kept;
mod laws;
mod live;
mod live_handle;
mod live_status;
mod loose;
mod making;
mod reading;
mod running;
mod showing;
mod stepping;
#[cfg(test)]
mod tests;

pub use audit::cellar_audit;
pub use handle::CellarHandle;
pub use laws::{
    answers_are_handed_out_once, calls_are_courses, effects_are_told_in_order,
    effects_are_told_once, lanes_are_served_one_by_one, no_effect_is_lost,
    refused_calls_change_nothing, roots_hear_in_order, steps_leave_nothing, tickets_are_own,
    words_and_values_end_once,
};
pub use live::{
    cellar_live_drop, cellar_live_end, cellar_live_new, cellar_live_read, cellar_live_send,
};
pub use live_handle::LiveHandle;
pub use making::{cellar_abi, cellar_drop, cellar_finish, cellar_new, cellar_size};
pub use reading::{cellar_dump, cellar_event, cellar_totals};
pub use running::{cellar_run, cellar_run_dump};
pub use showing::{cellar_explain, cellar_picture, cellar_run_names};
pub use stepping::{Stack, cellar_closings, cellar_next, cellar_pass, cellar_step, cellar_stop};
