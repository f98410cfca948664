//! The picture of a history as an SVG document, which every browser shows.
//!
//! Vocabulary: the drawing of a history is that of `rx_picture`. Its tracks stand under one another, its
//! places beside one another.
//!
//! Promised: the text of [`picture`] is the document that `specs` tells of the drawing of the events
//! and of the verdict that the audit gives on them. It is well formed: one element, in which each
//! element is closed in order by a tag of its own name, no tag has an attribute twice, and no text and
//! no value has a character of markup. Nothing is asked of the events, of which the text takes numbers
//! alone, nor of the names of numbers: markup in a name is written as references, and each byte of a control
//! character or of a letter beyond ASCII as a question mark.
//!
//! [`draw`] reads the history from a text: a dump, or an object with a dump and the names of numbers.
//!
//! Not promised: what a browser makes of it.
//!
//! Cost: that of the drawing and of the audit, and one pass over what is drawn.
#![tactic(auto)]

mod labels;
mod legend;
mod names;
mod pictured;
mod pieces;
mod strokes;
mod svg;
mod tracks;
mod width;

pub use pictured::draw;
pub use svg::{named_picture, picture};
