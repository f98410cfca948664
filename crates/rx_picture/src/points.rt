//! The places that are shown, and what happened there.

ghost use Rattle.std.specs.Prelude.{◌≡◌, ◌&&◌, false, IfOk, MatchOption, is_some, slice_get};
ghost use Rattle.rx_picture.specs.Choice.{marked};
ghost use Rattle.rx_picture.specs.Told.{ArePoints, IsPointAt};

use crate::choice::is_marked;
use crate::event_tests::event_at;
use rx_event::Event;
use std::alloc::{AllocError, Global};

/// A place that is shown.
#[derive(Clone, Copy)]
pub struct Point {
    /// The place.
    pub place: u64,
    /// What happened there.
    pub event: Event,
}

/// The point of the place, if that is marked.
fn point_at(events: &[Event], places: &[bool], n: usize) -> Option<Point>
    ensures { MatchOption result ((is_some (slice_get events.now n) && marked places.now n) ≡ false)
        (IsPointAt events.now (marked places.now) n) }
{
    if !is_marked(places, n) {
        return None;
    }
    let event = event_at(events, n)?;
    Some(Point {
        place: n as u64,
        event,
    })
}

/// The places that are marked, by rising number, each with its event.
pub fn points_of(alloc: Global, events: &[Event], places: &[bool]) -> Result<Vec<Point>, AllocError>
    ensures { IfOk result (λ v. ArePoints events.now (marked places.now) v.items) }
{
    let mut points = Vec::new(alloc);
    for n in 0..events.len() {
        if let Some(point) = point_at(events, places, n) {
            points.push(point)?;
        }
    }
    Ok(points)
}
