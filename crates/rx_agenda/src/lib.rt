//! The steps of a scenario that are to come, and what names stand for.
//!
//! # Vocabulary
//!
//! - The [`Agenda`] is what is to come: the steps that wait in virtual time (`rx_time`), and those of the
//!   **turn** that has begun, which come behind each other. A turn is begun by the waiting step that is
//!   due first, of several by the one that was scheduled first.
//! - A step that waits can be cancelled by its **label**; of several steps with one label, which no
//!   scenario has, the label stands for the first.
//! - An [`Answer`] says whether a step was done, or why it was refused. What would follow a refused step
//!   is dropped.
//! - [`Names`] are what names stand for, in the order in which they were bound.
//!
//! # Promised, and not
//!
//! - `specs/Agenda` defines what is to come after each call, and which step comes next; each call says
//!   what it makes of the agenda that `agenda_of` of `specs/Shown` shows.
//! - In which order that is, `specs/Order` says by comparison, with no queue: turns go by moment, then by the
//!   order of scheduling, and so do the steps of a turn; and missing are just the steps below a refused
//!   one, those after the end, the cancelled ones, and what is below those. [`runs_are_in_order`] says
//!   that every run of an agenda keeps to it, and [`order_is_determined`] that there is one such order.
//! - [`next_step`] and [`cancel`] are refused for no want of memory: their clauses say of each answer when
//!   it comes. That they take none is no clause; they take steps out of a timeline and a trampoline, which
//!   are tested to need none. A call that answers want of memory may have lost the step that was handed
//!   in: its scenario ends there.
//! - That a name is found in a number of steps that does not grow with how many there are is no clause.
#![tactic(auto)]

mod agenda;
mod answer;
mod names;
mod theorems;

pub use agenda::{Agenda, add, add_all, cancel, empty_agenda, follow, next_step};
pub use answer::{Answer, Cause};
pub use names::{Named, Names};
pub use theorems::{heads_come_first, order_is_determined, runs_are_in_order};
