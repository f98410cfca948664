//! The two schedulers of the Rx family that need neither a thread nor a clock: virtual time, and a
//! trampoline.
//!
//! Both only keep work and say what comes next. The caller takes an item out and does what it says,
//! and may schedule more meanwhile. An item is a value of any type, which need not be `Drop`.
//!
//! # Vocabulary
//!
//! - An *item* is a piece of work, and its *due time* the virtual time at which it comes out.
//! - A [`Ticket`] is the name of one entry of a [`Timeline`]. Tickets are counted from 0, and none
//!   is given twice.
//! - *What comes next* is the entry with the least due time, and of several the one that was
//!   scheduled first (`next_of` in `specs/Schedule.antt`).
//! - A [`Trampoline`] is a list: the item that was pushed first comes out first.
//!
//! # What is promised
//!
//! A timeline is seen as its virtual time, the number of tickets that were given, and the list of
//! its entries in the order of scheduling; a trampoline as the list of its items. Each call says
//! what it makes of that value, so each item that goes in comes out once: by `next_until` or
//! `next`, by `cancel`, or with the refusal. `schedule`, `push` and `reserve` are the only calls that
//! ask for memory; where it is refused, nothing has changed and the item is handed back.
//!
//! # What is not promised
//!
//! That there is memory. How long a call takes is no clause either. Entries that are scheduled in
//! the order in which they come out lie in a queue: `schedule` and `next_until` take constant time
//! there, but for the moves when it grows, and `cancel` halves it until it finds its entry. One that
//! comes out before some of them, and those that are scheduled after it while it waits, lie in an
//! ordered map by ticket and their places in an ordered set by due time: with `n` entries there
//! each of the three calls takes a number of steps that grows as the logarithm of `n`. A call of a
//! trampoline takes constant time, but for the moves when its buffer grows.
#![tactic(auto)]

mod priority_queue;
mod run;
mod ticket;
mod timeline;
mod trampoline;
mod work;

pub use ticket::{MAX_TICKETS, Ticket};
pub use timeline::Timeline;
pub use trampoline::Trampoline;
