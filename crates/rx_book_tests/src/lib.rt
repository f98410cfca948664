//! What no clause says of a book, of its [`parts`], of [`desks`] and of an engine's [`pool`] of hubs, and no scenario shows.
//!
//! Of a book: a checkpoint that is refused memory, just the memory that a call needs, closings where none is left, boxes of
//! two kinds, and what becomes of a book that is dropped. Of desks: threads, and storms. Memory that is refused to each
//! command in turn stands in the tests of `cellarcliff`. What operators do, over checkpoints too, and which calls are refused, stands
//! in the scenarios that `.ci/replay` compares, and that `.ci/play` plays at a desk.
//!
//! Each test runs in a process of its own, so the memory that one test uses up is missing in no other.
#![tactic(auto)]

#[cfg(test)]
mod boxed;
#[cfg(test)]
mod caller;
#[cfg(test)]
mod checkpoints;
#[cfg(test)]
mod desks;
#[cfg(test)]
mod dropped_book;
#[cfg(test)]
mod exact_memory;
#[cfg(test)]
mod load;
#[cfg(test)]
mod no_memory_left;
#[cfg(test)]
mod parts;
#[cfg(test)]
mod pool;
#[cfg(test)]
mod probe;
#[cfg(test)]
mod same;
