//! Scenarios: what to do with a book of subscriptions, step by step, as JSON.
//!
//! # Vocabulary
//!
//! - A [`Scenario`] is a list of [`Step`]s, how many events the book may have, and when time ends. A
//!   step waits in virtual time for the moment that it names; what it does is its [`Action`], which is a
//!   [`Command`] of the book but for the one that takes a waiting step off; and it may be followed by
//!   other steps. A command goes by the names that earlier ones gave to nodes, hubs, resources and
//!   leases; a [`Site`] is where a node is opened, and a [`Sort`] is what it does.
//! - Contracts see names as their bytes (`specs/Scenario.antt`). Which JSON values are scenarios, and
//!   which scenario, is defined in `specs/Reading.antt`; [`scenario_of`] decides it.
//!
//! - [`refusal_word`] gives the word that stands for a refusal in reports, traces and answers
//!   (`specs/RefusalWords.antt`); [`nearest`] the word of a list that is nearest to a misspelt one, for what is said of it.
//!
//! # Promised, and not
//!
//! - [`scenario_of`] gives the scenario that a value is, and `Shape` where it is none, exactly; so does
//!   [`action_in`] for what one step does, and [`name_in`], [`site_in`] and [`kind_in`] for members of
//!   it. That `Memory` is given only where memory was refused is tested above.
//! - [`has_checkpoint`] says whether any of these steps makes a checkpoint, those that follow others and
//!   those that are never executed included (`specs/Checkpoints.antt`).
//! - There are the commands `using`, `open`, `hold`, `apply`, `remove`, `lease`, `return`, `next`,
//!   `end`, `abort`, `decline`, `fail`, `dispose`, `hub`, `connect`, `disconnect`, `drain`, `checkpoint`
//!   and `cancel`, at every place, for every kind of node. Anything else is `Shape`.
#![tactic(auto)]

mod checkpoints;
mod reading;
mod refusals;
mod scenario;
mod words;

pub use checkpoints::has_checkpoint;
pub use reading::{action_in, is_name, is_object_of, kind_in, name_in, scenario_of, site_in};
pub use refusals::refusal_word;
pub use scenario::{Action, Command, Scenario, Site, Sort, Step, Ticks};
pub use words::{KINDS, MODES, PLACES, is_among, members_of, nearest};
