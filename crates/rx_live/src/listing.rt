//! What a running book holds. It goes over the events since the last checkpoint, and changes nothing.

use crate::engine::Engine;
use rx_listing::{Known, Past};
use std::alloc::AllocError;

// What is known of the book's numbers.
fn known(engine: &Engine) -> Known<'_> {
    Known {
        nodes: &engine.nodes,
        hubs: &engine.hubs,
        resources: &engine.resources,
        leases: &engine.leases,
        past: &engine.past,
    }
}

/// The answer that says what is open and held: nodes, resources, leases and hubs, each in the order in which
/// they were made.
pub fn list_text(engine: &Engine) -> Result<String, AllocError> {
    rx_listing::list_text(engine.alloc, &engine.book, &known(engine))
}

/// What is told of all events so far, once they are gone. Err where memory is refused.
pub fn past_of(engine: &Engine) -> Result<Past, AllocError> {
    rx_listing::past_of(engine.alloc, &engine.book, &known(engine))
}
