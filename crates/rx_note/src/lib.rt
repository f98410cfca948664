//! What an observer is told, and the order in which it may be told it.
//!
//! Vocabulary: a `Note` is one notification, a `Terminal` how a subscription ends by itself, a
//! `Grammar` the place of one observer in the Observable Contract: zero or more items, then at
//! most one end, and nothing after it.
//!
//! Promised: a grammar refuses exactly the notes that come after an end. Not promised: that
//! anybody asks it.
#![tactic(auto)]

mod grammar;
mod laws;
mod note;

pub use grammar::{AfterEnd, Grammar};
pub use laws::accepted_whole;
pub use note::{Note, Terminal};
