//! Scenarios of subscriptions at work, and their reports and dumps.
//!
//! A scenario (`rx_scenario`) says, step by step, what to do with a book of subscriptions. [`run`] reads
//! one, carries it out on a new book with the caller's resources, closes the book, and gives a report:
//! which steps were refused and why, what each node was told, and what became of each resource; or
//! the dump of the history before the closing (`rx_dump`), alone or with the names that the scenario gives to
//! numbers in it.
//!
//! # Vocabulary
//!
//! - A step goes by names: it binds names to the nodes that it opens, the hubs that it makes, the
//!   resources that it hands in, which are taken from the **stock**, first to last, and the leases that it
//!   is given. Nodes, hubs, resources and leases have a space of names each. A **connection** is a node; it
//!   is named where a step gives a name for it and makes it. A step that is **refused** changes nothing and
//!   binds nothing, and its resource goes back to the front of the stock.
//! - The programs have one stock of their own, which [`stock`] makes: [`STOCK`] resources, each a [`Stocked`] of the
//!   kind, `Plain`, `Tally` or `Faulty`, that [`ResourceKind::by_tag`] says.
//! - Steps come in virtual time (`rx_time`): each at the time that it waits for, those of one time in the
//!   order in which they were scheduled. The one that is due begins a **turn**, in which the steps that
//!   follow it without a delay come behind each other, and the next turn begins when this one is over.
//!   What is to come is the **agenda**. What would follow a refused step is dropped, and a step that
//!   waits can be cancelled by its label.
//! - At a **checkpoint** the book puts what its history leaves in place of the events so far (`rx_book`).
//!   For a course nothing happens there, but that the limit of events counts from there. What is to be
//!   reported of those events is gathered before, so a report is of the whole run.
//! - A **report** has a line for each step that was refused, for each node that is told something, and for
//!   each resource that the scenario handed in, one for the totals and one for the closing of the book.
//!   `Text` of `specs/` defines the bytes of each line, and `Lines` which lines there are.
//! - **Tallies** are what each resource and each node met, by their numbers. They grow as events and notes
//!   come, so that a checkpoint may let those go and the report is still of the whole history.
//! - A **course** of a scenario is the list of the answers of its steps, and where it is at its end: the
//!   history from its first event on, how many events came before the last checkpoint, what the names
//!   stand for, and the stock that is left. `rx_agenda` defines which step comes
//!   next, `specs/` a course as a relation (`Course`), and the report of one (`Report`); what a run makes
//!   of its input is said in `Running`.
//! - To **close** a book is to give back all leases, to dispose of all that is open, and to take and release
//!   all that waits then.
//!
//! # Promised, and not
//!
//! - Where [`run`] answers Ok, the text is the report of a course of the scenario that the bytes are, or the dump of that
//!   course's history, alone or with the names of its nodes, hubs and resources (`NamedDumps`), and nothing else. A
//!   scenario that has a checkpoint anywhere has no dump, which is `Shape`:
//!   a dump is a history from place 0. Each error comes only for its cause, and a cause of `Syntax` or `Shape`
//!   is never passed over; `Read` and `Write` never come.
//! - Where no step was refused `Full`, that report is, but for the count of faults, the one of the
//!   **canonical course**, of which a scenario with a stock has just one: it has no limit of events,
//!   what is forced comes in one order in it, and it drains by rising number. So no report shows an order
//!   that the code chose ([`courses_are_reported_alike`]).
//! - [`close`] leaves nothing open, held or waiting, and no lease out, and takes no memory.
//! - `run` closes its book in every outcome; that it does so where
//!   it answers an error is tested and not proved. So it is that `Memory` is given only where memory
//!   was really refused, and that the faults of a report are those that the resources answered: proved
//!   is that there are at most as many as accepted resources.
//! - How often a resource was used is proved; that it was used on the word of its step, which no history
//!   keeps, is tested.
//! - How long a run takes, and in how much memory, is no clause: a name is found by a map, and the report is made in
//!   one pass over the events and one over the notes. These are taken from the book after each step, and those in a
//!   row that are the same take the memory of one.
#![tactic(auto)]

mod boxes;
mod calls;
mod closing;
mod counting;
mod course;
mod engine;
mod gathering;
mod line;
mod naming;
mod noting;
mod opening;
mod repeated;
mod report;
mod running;
mod shelf;
mod tallies;
mod text;
mod theorems;

pub use boxes::{ResourceKind, STOCK, Stocked, stock};
pub use closing::close;
pub use course::take_step;
pub use engine::{Engine, begin};
pub use noting::next_note;
pub use running::{Ran, has_refused, run, run_strictly};
pub use rx_book::Closed;
pub use rx_device::ScriptError;
pub use text::cause_name;
pub use theorems::{courses_are_reported_alike, each_scenario_has_one_canonical_course};

/// What a run gives.
#[derive(Clone, Copy, Debug, PartialEq, Eq)]
pub enum Form {
    /// What became of each node and resource, and the totals.
    Report,
    /// The history before the closing, in JSON. A scenario with a checkpoint has none.
    Dump,
    /// A JSON object with that history as `dump`. Its member `names` leads from the number of each node, hub and
    /// resource that the scenario names, in decimal, to the name. A scenario with a checkpoint has none.
    NamedDump,
}
