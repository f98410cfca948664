//! Traces: a scenario as it goes, a line a step.
//!
//! [`trace`] reads a scenario and carries it out as `rx_script` does: each step by [`rx_script::take_step`], in the
//! order of its agenda. It gives a JSON object a line for each step that was executed, and one for the closing of
//! the book, in place of the report.
//!
//! # Vocabulary
//!
//! - A **line** has the number of its step, counted from 0 as in a report; the moment of virtual time; the command
//!   and what it is about; and its answer, as a live book gives it: the place of its first event in the history
//!   where it is accepted, else the cause. Behind that is what is **told**: the notes that its step made for
//!   observers, each with the name of its node; the names of all resources that wait for their release then; and the
//!   names of those that it handed out for it, in that order.
//! - The **trace** is the lines of all steps of one course, in order, and the line of the closing, which names what
//!   was held or waited at the end (`specs/Traced.antt`).
//!
//! # Promised, and not
//!
//! - Where [`trace`] answers Ok, the bytes are a scenario, and the text is the trace of a course of it,
//!   which is a course as [`rx_script::run`] reports one, and nothing else. Each line is exactly the one that the
//!   stages before and after its step give (`specs/Line.antt`). A scenario is traced just where it is reported. Each
//!   error comes only for its cause; `Read` and `Write` never come.
//! - That the book is closed in every outcome is tested alone, and so is that `Memory` comes only where memory was
//!   refused.
//! - How long a trace takes is no clause: the name of a note's node is found by halves, since nodes are named in the order
//!   in which they were made; the resources of a stock are gone through for each line.
#![tactic(auto)]

mod front;
mod handed;
mod running;
mod told;
mod tracing;

pub use running::trace;
