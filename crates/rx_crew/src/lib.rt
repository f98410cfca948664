//! A book behind one lock, and the threads at it.
//!
//! Threads that subscribe, emit and release share one book. A [`Desk`] keeps it behind a mutex; each
//! thread has a [`rx_ledger::Seat`] in which its own items and resources count. Once all threads are
//! joined, [`finish`] takes the book out and says whether what they counted is what the book says.
//!
//! # Vocabulary
//!
//! - The [`Floor`] is what lies behind the lock: the book, the totals of the ledgers, and whether the
//!   desk is shut. It has the book's calls by the same names, but for `next_all`, `ask`, `closed_count`,
//!   `nth_closed`, `next_within` and those that release, and its `shut` shuts the desk. It has calls of hubs too, the published observables that threads share
//!   (Publish, Connect and RefCount, at reactivex.io), and of leases, which one thread may take out and
//!   another give back (RefCountDisposable of System.Reactive).
//! - `Counting` of `specs/` says what a call counts, `Verdicts` what [`finish`] answers.
//!
//! # Promised, and not
//!
//! - Whenever the lock is free, the book keeps its promise (`IsPromised` of `rx_book`), and the
//!   ledgers' totals are the numbers of items, of accepted and of taken resources in its history.
//! - Each call of the floor answers, refuses and does just what the book's call of its name does,
//!   leaves the shut flag, and changes the caller's seat by one count or by nothing.
//! - `finish` answers `Ok` exactly where the shares are the totals and each receipt's event stands at
//!   its place, else the first that differs; with all parts only a receipt can differ. Where nothing
//!   is open or waiting then, and no lease is out, all that was accepted was taken.
//! - Not promised: how long a thread waits for the lock, which of several gets it, and what other
//!   threads did between two holds of it.
#![tactic(auto)]

mod desk;
mod feeding;
mod finishing;
mod floor;
mod working;

pub use desk::Desk;
pub use feeding::{Fed, Pull, Source, feed};
pub use finishing::{Finished, Mismatch, Totals, finish};
pub use floor::Floor;
pub use working::{Gate, Stop, Worked, worker};
