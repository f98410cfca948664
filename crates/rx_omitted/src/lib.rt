//! What needs no engine, as a law: an item that is only heard, and a root that is a leaf alone, may be left out of
//! a lawful history, and all else comes to the same.
//!
//! # Vocabulary
//!
//! - `omit` tells of each place of a history whether its event is left out; what **stays** is the rest.
//! - `what_stays omit h` is the history of the events that stay, and `number omit n` the number that place `n` then has.
//! - `MayOmit` says what may be left out: items all of whose stops are deliveries, and whole roots that are leaves and
//!   hold nothing, with their items, their end or their closing. `IsOnlyHeard` and `IsLoneLeaf` are one of each.
//! - `ComesToTheSame` is the promise, in one record.
//!
//! # Promised, and not
//!
//! - The history of what stays is lawful. In it the same nodes are open and remember the same, the same resources and
//!   leases fare the same, the same tags are released in the same order, and the notes are those of the events that stay.
//! - A call that names nothing left out is refused as before, but that there is no less room for it.
//! - Of calls one after another those that stay lead, without the others, to what stays of where all led.
//! - Nothing is said of when a face tells what it leaves out: that order is the face's to keep.
#![tactic(auto)]

mod laws;

pub use laws::{
    a_lone_leaf_may_be_omitted, an_item_only_heard_may_be_omitted, bases_have_own_places,
    calls_that_stay_go_the_same, omitting_changes_nothing_else,
};
