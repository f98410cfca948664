//! What a thread says that it has written.

use rx_event::Event;

/// That an event was written at a place of the history.
#[derive(Clone, Copy, Debug, PartialEq, Eq)]
pub struct Receipt {
    /// The place.
    pub place: u64,
    /// The event.
    pub event: Event,
}
