//! The program of the tutorial, which keeps its subscriptions in a book: one with a file, from its opening to the
//! release of the file, one that it forgets, which the end of the session closes, two that share a source, one
//! each with FlatMap, Switch and TakeUntil, and one whose connection is lent to a request that outlives it. Then it
//! makes a checkpoint.
#![tactic(auto)]

mod file;
mod pipelines;
mod session;
mod stopped;

use pipelines::run;
use rx_book::Book;
use session::Session;
use stopped::Stopped;

fn main(rt: HostRuntime) -> Result<(), Stopped> {
    let mut session = Session {
        book: Book::new(rt.alloc(), 1_000_000),
    };
    let outcome = run(&rt, &mut session.book);
    let closed = session.end();
    println!(rt; "the end of the session releases {} more", closed.released)?;
    outcome
}
