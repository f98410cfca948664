//! Seats: what each thread at a desk has counted, in shares that add up to the book's totals.
//!
//! Every thread that works on a book behind a lock counts in its own seat which items it emitted and
//! which resources it handed in and took out. The book counts the same in all. A forgotten, a lost and
//! an invented count would stay unnoticed where these were plain numbers, so they are shares of
//! ledgers: a share changes only together with the ledger's total.
//!
//! # Vocabulary
//!
//! - [`Ledgers`] lie with the book, and contracts see them as [`Sums`], the totals over all seats.
//! - A [`Seat`] is a thread's. Contracts see it as `Shares` of `specs/`: a share of the items, of the
//!   accepted and of the taken resources, and the number of parts of the ledgers that it stands on.
//!   All seats of one desk have [`PARTS`] parts together; [`Seat::split`] gives one to a new seat, and
//!   [`Seat::gather`] puts seats together again. `together` says what a list of seats holds.
//! - A [`Receipt`] says that an event was written at a place.
//!
//! # Promised, and not
//!
//! - The three ledgers are type parameters, so a seat of another desk has another type.
//! - Who has all parts has all shares ([`Ledgers::audit`]); who has some has at most the totals.
//! - A share can pass 2^64 only in a seat whose ledgers have counted that far. Its getter then gives
//!   the number modulo 2^64, and contracts see the share itself.
//! - A seat that is dropped takes its shares and parts with it: who gathers the others has fewer parts.
//! - A receipt alone is plain data and proves nothing; it is to be compared with a book.
#![tactic(auto)]

mod ledgers;
mod receipt;
mod seat;

pub use ledgers::{Ledgers, Sums};
pub use receipt::Receipt;
pub use seat::{PARTS, Seat};
