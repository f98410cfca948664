//! The engine: what a command does above the book, and what comes of it, with its effects in lanes.
//!
//! # Vocabulary
//!
//! - A **command** ([`Engine::next`], [`Engine::open`], ..) is a call of the book. What it tells, ends and sets
//!   free becomes **effects**, each in the **lane** of its role; whoever serves a lane takes them there
//!   ([`Engine::take`]). An item may be handed out as it is emitted ([`Engine::next_handing`]).
//! - A **home** is the lane of an open node, which what stands below it has too ([`Engine::lane_of`]). Its word is
//!   the place in the pool of hubs before which a share below it has to stand.
//! - A **role** stands for the last effect that is still to come: of who hears an open root, of who projects for
//!   an open FlatMap or Switch, of each resource that was accepted and not taken. A lane is named by the roles
//!   whose effects go there and by the homes, and by nothing else.
//! - A **wish** is a role whose last word is no effect: it stands among the **closings** of the command that
//!   closes its node ([`Engine::nth_closing`]).
//! - An engine is **ended** by letting go of one thing after another ([`Engine::close_next`]) and serving what each
//!   comes to, until nothing is left ([`Engine::is_done`]).
//! - A **checkpoint** ([`Engine::checkpoint`]) puts what the history leaves in place of its events. Keys, roles,
//!   homes, shares and wishes stay, and so does what waits in lanes.
//!
//! # Promises
//!
//! Each command has its result pinned, keeps the promise of every engine, and changes nothing but room where it
//! is refused. What ends, closes, takes or gives back needs no memory: each role has the room of its last effect
//! from the moment at which it came in.
#![tactic(auto)]

mod calls;
mod checkpoint;
mod closing;
mod delivering;
mod emitting;
mod engine;
mod entering;
mod handing;
mod holding;
mod homes;
mod hubs;
mod leaving;
mod looking;
mod opening;
mod parts;
mod putting;
mod serving;
mod settling;
mod sharing;
mod telling;
mod using;
mod wishes;

pub use engine::{Engine, GREATEST_LIMIT};
pub use homes::LaneOf;
pub use parts::{Parts, Used, User};
pub use sharing::{Connected, Subscribed};
pub use wishes::Wishes;
