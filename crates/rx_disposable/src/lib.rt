//! Disposables: places that take a value in, and give it out once.
//!
//! The four disposables of System.Reactive as plain containers. A value stands for something that has
//! to be released, as a resource or a handle. It goes in, and comes out once, to the caller, who then
//! releases it: no place here releases anything itself. That is how each of them differs from its
//! model; its own page says what else does.
//!
//! | Place | What it holds | In System.Reactive |
//! |---|---|---|
//! | [`Single`] | one value, given once | `SingleAssignmentDisposable` |
//! | [`Serial`] | one value, until the next comes | `SerialDisposable` |
//! | [`Group`] | values under tickets | `CompositeDisposable` |
//! | [`Counted`] | one value, while leases are out | `RefCountDisposable` |
//!
//! To *dispose of* a place is to take out what is inside, for good: it takes no value from then on, and
//! a second `dispose` gives nothing. A *ticket* is the number under which a group keeps a value. A
//! *lease* is one use of a counted value that has still to be given back. A refused value comes back
//! in a [`Back`], which says [`Why`].
//!
//! # What is promised
//!
//! A contract sees a [`Single`] and a [`Serial`] as `empty`, `full` of a value, or `disposed`; a
//! [`Group`] as the list of its tickets and values in order of adding, the number of tickets given and
//! whether it is disposed of; a [`Counted`] as its value, the number of leases out and whether it is
//! disposed of; and [`Members`] as the list of what is left of them. Each call says what it answers and
//! what the place is afterwards, so that each value which was inside or was handed in is inside
//! afterwards, or came back with a refusal, or came out: just one of these.
//!
//! Every call but [`Group::add`] succeeds in want of memory. That none of them asks for any is tested.
//!
//! # What is not
//!
//! That what comes out is released, or that a lease is given back: both are the caller's. A place that
//! is dropped drops what is inside; where values may not be dropped, neither may the place, and
//! `into_inner` ends it.
//!
//! # For a caller that is generic in the values
//!
//! A [`Group`] and [`Members`] have places for [`INLINE_LEN`] values in themselves. Where `T` is a type
//! parameter, nothing bounds their size, and a call on one is proved only where a parameter or the
//! result says so: as a `&mut Group<T>` does for the group, or a
//! `requires { FitsInMemory (the_row T.row) }`, which holds at each type of the program.
#![tactic(auto)]

mod back;
mod counted;
mod group;
mod members;
mod serial;
mod single;

pub use back::{Back, Why};
pub use counted::{Counted, Denied, MAX_LEASES, NoLease};
pub use group::{Group, MAX_TICKETS};
pub use members::{INLINE_LEN, Members};
pub use serial::Serial;
pub use single::Single;
