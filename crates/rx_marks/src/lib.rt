//! What a node remembers of what happened below it.
//!
//! Vocabulary: `Marks` are what the rule of a node's operator needs to know, so that it can be told without a search
//! of the history. What they mean is defined beside the rules, in `specs/Marks.antt` of `rx_event`: `marks_of` reads
//! them off a history, `after_child` and the like say what one event does to them, and `terminal_due` how the node
//! has to end.
//!
//! Promised: marks change as these definitions say, and answer what they say. Not promised: that they are those of a
//! node of some history; that is for whoever keeps one.
#![tactic(auto)]

mod flags;
mod marks;

pub use marks::Marks;
