//! The drawing of a history: which lines, bars and marbles it has, and where each begins and ends.
//!
//! Vocabulary: a `Row` is what is drawn of one node, hub, resource or lease. It lies in a track: that of
//! a lease in its resource's, every other in a track of its own. A place is that of an event in the
//! history, from 0. A prefix of the history is its first so many events: the one of length `k` is what
//! had happened just before the event at place `k`.
//!
//! Promised: on any list of events there is one row for each node, hub, resource and lease whose track
//! is shown, by rising number. At most 200 tracks are shown: first those of resources that were never
//! handed out, then those of open nodes, then the others, each by rising number. At most 2,000
//! places are shown: first those at which a shown track begins, then the others. A node's line spans
//! just the prefixes in which the definitions of `rx_event` say that it is open, and ends as the event
//! says that closed it; a resource's bar spans just those in which its node owns it, and is taken from
//! the one on in which they say that; a lease's row spans just those in which it is out. Each resource
//! that was never handed out is on the list of what leaks, shown or not. Each note that
//! goes to a shown track from a shown place has its marble, in order, and those of one event to one node
//! have one. Nothing is assumed of the list: it need not be lawful.
//!
//! Cost: some passes over the events, and the visits of the items whose places are shown. Such an item
//! that reaches a connection costs a pass over the events before it.
#![tactic(auto)]

mod choice;
mod climb;
mod columns;
mod drawing;
mod event_tests;
mod firsts;
mod laws;
mod leaks;
mod levels;
mod lines;
mod marbles;
mod points;
mod row;
mod rows;
mod shut;
mod tables;
mod tracks;

pub use drawing::{Drawing, draw};
pub use laws::{
    a_resource_is_held_where_it_has_a_full_bar, a_row_is_leaking_where_its_resource_leaks,
    what_leaks_is_held_or_waits,
};
pub use points::Point;
pub use row::{Ending, Row, Shape};
