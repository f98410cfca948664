//! How a cellar begins.

ghost use Rattle.std.specs.Prelude.{◌≡◌};
ghost use Rattle.rx_cellar.specs.Beginnings.{limit_of, first_until, IsFresh};

use crate::cellar::{Cellar, FEW};
use rx_engine::{Engine, GREATEST_LIMIT};
use std::alloc::Global;

// The limit on the events of the book.
fn limit_of(max_events: u32) -> u64
    ensures { result ≡ limit_of max_events }
{
    if max_events == 0 {
        GREATEST_LIMIT
    } else {
        max_events as u64
    }
}

// The most events until the first checkpoint, where the engine chooses.
fn first_until(max_events: u32) -> Option<u64>
    ensures { result ≡ first_until max_events }
{
    if max_events == 0 { Some(FEW) } else { None }
}

impl Cellar {
    /// An engine with nothing in it, whose history has at most so many events at a time; with 0 it chooses. It takes
    /// no memory.
    pub fn new(alloc: Global, max_events: u32) -> Cellar
        ensures engine { IsFresh (limit_of max_events) result.engine }
        ensures released { result.released ≡ 0 }
        ensures at { result.at ≡ 0 }
        ensures until { result.until ≡ first_until max_events }
    {
        Cellar {
            engine: Engine::new(alloc, limit_of(max_events)),
            released: 0,
            at: 0,
            until: first_until(max_events),
        }
    }
}
