//! The program `rxbook` without its `main`: its words, what they order, its exit statuses.
//!
//! `main` gathers the words, makes the stock of resources and passes the standard streams on; all else
//! is done here over any streams, so that it can be proved and tested over memory.
//!
//! # Vocabulary
//!
//! - An [`Order`] is what the words of a command line ask for; [`order`] reads it by `clap`.
//! - The stock is the list of resources that a scenario may hold; [`stock`] of `rx_script` makes it.
//! - A [`Watched`] input or output notes whether the stream behind it failed, so that the contract of
//!   [`serve`] can say when a stream is at fault.
//! - A dump is a history in JSON, and a verdict what the audit says of it, both of `rx_dump`, with names or without.
//! - A storm is of `rx_storm`: threads that emit and threads that release, at one book.
//! - A live book is of `rx_live`; [`keep`] keeps one over streams: a line in, a line out.
//! - [`serve`] does what the words order, and answers the exit status:
//!
//! | Status | Cause | Line on the error stream |
//! |---|---|---|
//! | 0 | a run, a picture, a live book or a storm is done, the verdict on a dump is lawful, an explanation has nothing to say, or help or the version was shown | none |
//! | 1 | a stream failed, or no thread could be started | `rxbook: read fault`, `rxbook: write fault`, `rxbook: thread fault` |
//! | 2 | the command line is invalid | the text of `clap` |
//! | 3 | the input is not a scenario, or not a dump | `rxbook: faulty input` |
//! | 3 | an explanation says what is wrong with the input | none |
//! | 4 | memory was refused | `rxbook: out of memory` |
//! | 5 | the history is unlawful or unsettled | none |
//! | 5 | the threads of a storm do not agree with the book | `rxbook: mismatch` |
//!
//! # Promised, and not
//!
//! - The order is the one that `clap` matches in the words, a report where they name no subcommand; it is
//!   refused only where `clap` refuses the words or memory is. What `clap` matches in the words `rxbook`,
//!   `rxbook run`, `rxbook run --dump`, `rxbook run --names`, `rxbook run --trace`, `rxbook audit`,
//!   `rxbook audit --names`, `rxbook explain`, `rxbook picture`, `rxbook live` and `rxbook storm` is proved too, and what it makes of `--help`, of `--version` and of a file's name
//!   ([`words_have_their_orders`]). The numbers of a storm lie in their ranges.
//! - Where the words order a run that is done, no call of a stream failed, each write took a byte, and the
//!   output got the report of a course of the scenario that the input is, with this stock, or the dump of its
//!   history, alone or with its names, and nothing else. With a write fault it got a front of one, and with any
//!   other fault nothing; each fault but want of memory comes only for its cause. Of a traced run it got the trace
//!   of `rx_trace` in place of the report.
//! - Where the words order an audit that ends without a fault, the input was a dump, alone or in an object beside
//!   names, the output got the text of the verdict on its history and nothing else, with the names of its
//!   numbers where the words ask for them, and the status is 0 where the verdict is `lawful`, and 5 where it is
//!   `unlawful` or `unsettled`. Faults are as those of a run.
//! - Where the words order an explanation that ends without a fault, the output got a line on the input exactly where
//!   it is one that the program does not accept; where they order a picture, the input was a dump, alone or beside
//!   names, and the output got the picture of its history. What a live book reads and writes is tested alone.
//! - Where the words order a storm, nothing is read, and what is written are the figures that `rx_storm`
//!   promises, or a front of them with a write fault, or nothing. That a storm has so many threads and items
//!   as ordered is tested alone.
//! - The status and the line are those of the outcome, exactly; where the words are refused, nothing is
//!   read, and only a request for help or for the version writes to the output.
//! - No contract says that memory was really refused where the status is 4.
//! - The words of help and of usage errors are `clap`'s, and are tested alone.
//! - The line on the error stream is there in full where that stream takes bytes; what it refuses is lost,
//!   and the status stays.
#![tactic(auto)]

mod answering;
mod faults;
mod files;
mod lines;
mod program;
mod request;
mod said;
mod statuses;
mod telling;
mod usage;
mod word_laws;
mod words;

pub use files::{Given, split_file};
pub use lines::keep;
pub use program::serve;
pub use request::{Asked, Order};
pub use rx_device::Watched;
pub use rx_script::stock;
pub use statuses::{out_of_memory, weathered};
pub use usage::{refuse_bytes, refuse_file, tell_waiting};
pub use word_laws::words_have_their_orders;
pub use words::order;
