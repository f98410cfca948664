//! What each stack of calls is to do next, so that no face names a lane.
//!
//! A face gives a command, does one effect after another until there is none, and goes on. Which lanes it serves for that,
//! in which order, and that no observer is told one thing within another, is kept here.
//!
//! # Vocabulary
//!
//! - A **turn** ([`Turn`]) is what one call of a face has to do: its `by` names a stack of calls, its `depth` says how many
//!   calls of that stack are under way, itself included.
//! - A lane is **due** to a turn that is to serve it, and **in hand** of the turn that serves it. What is due to whom is the
//!   **agenda** (`specs/Agendas.antt`): to each turn the places of lanes, in the order in which they were claimed.
//! - A lane is **claimed** for a turn: then it is due to that one, behind all others, and to no other turn (`Claims`).
//! - A command of a turn claims the lanes that its answer names, and before these the lane in which it opens an inner, where
//!   that is due (`specs/Making.antt`).
//! - A turn is **served** (`specs/Serving.antt`): what was handed out and not begun is handed out again; else the lane in
//!   hand is asked first, then those that are due. What is handed out is a [`Task`], which has a ticket.
//! - What is due to no turn is **astray**: a walk over the lanes finds it ([`Turns::step`] at depth 1).
//! - The calls of a face are [`Turns::step`], [`Turns::pass`] and [`Turns::stop`] (`specs/Calls.antt`).
//!
//! # Promises
//!
//! - Each call is a course of the engine ([`calls_are_courses`], `specs/Courses.antt`), so the laws of `rx_courses` hold of it.
//! - A lane is due to one turn at most ([`Turns::promise`]).
//! - Of each serving: where it hands out nothing, the turn has nothing any more; what it hands out is in hand; each other
//!   turn keeps what it has. These are laws (`specs/Promises.antt`), each the contract of a public function without a body.
//! - No call loses a lane ([`no_lane_is_lost`], `specs/Tended.antt`): what waits in one is due to a turn, in hand, or astray.
//! - A pass and a stop cannot fail, and a stop asks for no memory.
//!
//! # Not promised
//!
//! That words of stacks differ, and that a face calls at the depth at which it is: that is the face's own.
#![tactic(auto)]

mod agenda;
mod ending;
mod making;
mod serving;
mod turn_laws;
mod turns;

pub use agenda::{Task, Turn, clear_step};
pub use turn_laws::{
    calls_are_courses, no_lane_is_lost, nothing_is_astray_where_the_outermost_hands_out_nothing,
    nothing_is_left_where_nothing_is_handed_out, other_turns_keep_theirs,
    what_is_handed_out_is_in_hand,
};
pub use turns::Turns;
