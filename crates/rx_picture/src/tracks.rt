//! Which rows are shown: those that lie in a track which is.

ghost use Rattle.std.specs.Prelude.{◌≡◌, IfOk, length};
ghost use Rattle.rx_picture.specs.Choice.{AreMarksByTest, marked};
ghost use Rattle.rx_picture.specs.Drawn.{is_rowed_by};
ghost use Rattle.rx_picture.specs.Rows.{track_of};

use crate::choice::is_marked;
use crate::event_tests::event_at;
use rx_event::Event;
use std::alloc::{AllocError, Global};

/// The number in whose track the row lies of what the event at place `n` made.
fn track_of(n: usize, made: Event) -> usize
    ensures { result ≡ track_of n made }
{
    match made {
        Event::Lease(resource) => resource as usize,
        _ => n,
    }
}

/// Whether the track is marked in which the row of the event at the place lies.
fn is_track_marked(events: &[Event], shown: &[bool], n: usize) -> bool
    ensures { result ≡ is_rowed_by (marked shown.now) events.now n }
{
    match event_at(events, n) {
        Some(made) => is_marked(shown, track_of(n, made)),
        None => false,
    }
}

/// Marks the rows that are shown, by the marks of the tracks that are.
pub fn row_marks(alloc: Global, events: &[Event], shown: &[bool]) -> Result<Vec<bool>, AllocError>
    ensures { IfOk result (λ v. AreMarksByTest v.items (length events.now) (is_rowed_by (marked shown.now) events.now)) }
{
    let mut marks = Vec::new(alloc);
    for n in 0..events.len() {
        let mark = is_track_marked(events, shown, n);
        marks.push(mark)?;
    }
    Ok(marks)
}
