//! Explanations: what is wrong with an input that `rxbook` does not accept, in a sentence.
//!
//! # Vocabulary
//!
//! - An input is **accepted** where it is a scenario, or the dump of a history that the audit calls
//!   lawful, alone or in an object beside names (`specs/Accepted.antt`).
//! - [`explain`] says nothing of an input that is accepted, and of every other one where it goes wrong.
//!   An input whose JSON is an array, or an object with a member `dump`, is taken for a dump, and every other
//!   one for a scenario. What is said of a history names its numbers by the names beside the dump (`rx_dump`).
//! - A place in a scenario is told as `jq` writes it, `.steps[2].then[0].node`, and one in a dump by the
//!   number of the event and of its element, both from 0.
//!
//! # Promised, and not
//!
//! - [`explain`] answers None for just the inputs that are accepted, by the definitions of `rx_scenario`,
//!   `rx_dump` and `rx_audit`, whose readers decide it.
//! - Where the first event out of order comes when no rule forces another, the sentence has its place, and begins as
//!   the refusal of the table of causes is worded, with the right number (`specs/Worded.antt`).
//! - What other sentences say is not proved, nor which earlier event one names. The faults of scenarios and dumps
//!   are looked for a second time, by plain code over the tables of `words`; where that finds none, the sentence says
//!   no more than what the input is not. Mistakes stand with what is said of them in `examples/stored/mistakes`.
#![tactic(auto)]

mod dump;
mod explaining;
mod fired;
mod forced;
mod left;
mod past;
mod refusals;
mod scenario;
mod sentences;
mod texts;
mod walk;
mod wanted;
mod words;

pub use explaining::{explain, too_long};
