//! A list that grows at its end and never moves what it has.
//!
//! A `Vec` that is full asks for twice its room and copies all that it has. A [`Segments`] asks for one
//! more piece of 4,096 items instead, so that growing costs the same however long the list is, and no
//! memory is used twice while it grows. Only its first piece is copied as it grows: it begins with room
//! for 8 items, so that a short list takes little.
//!
//! # Vocabulary
//!
//! A contract sees a [`Segments`] as its `items`, a list, and its `room`: how many more need no memory
//! (`specs/Segments.antt`).
//!
//! # What is promised
//!
//! Each call's answer is that of the list. After `reserve(n)` n pushes take no memory and cannot be refused.
//!
//! # What is not
//!
//! How much memory is asked for at a time: the size of a piece is no part of a contract. Memory that a list
//! has goes back only with the list.
#![tactic(auto)]

mod pieces;
mod segments;

pub use segments::Segments;
