//! Why the program ends early.

use rx_book::{Life, Refusal, Refused, Resource};
use std::io;
use thiserror::Error;

/// Why the program ends early.
#[derive(Debug, Drop, Error)]
pub enum Stopped {
    /// The book refused a call.
    #[error("the book refuses: {0}")]
    Refused(#[from] Refusal),
    /// The output failed.
    #[error(transparent)]
    Output(#[from] io::Error),
}

impl<R: Resource> From<Refused<R>> for Stopped {
    // The book did not take the resource, so it is released here.
    fn from(refused: Refused<R>) -> Stopped {
        let Refused { why, mut back } = refused;
        if back.life() == Life::Live {
            let _ = back.release();
        }
        Stopped::Refused(why)
    }
}
