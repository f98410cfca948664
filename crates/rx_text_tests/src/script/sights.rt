//! Resources of the tests.

use rx_resource::{Tracked, Tracker};
use std::alloc::{AllocError, Global};

// The fault that the release of a resource of this tag meets.
fn fault_of(tag: u64) -> Option<u32> {
    if tag % 8 == 3 { Some(2) } else { None }
}

/// So many trackers, each for one resource.
pub fn trackers(alloc: Global, count: u64) -> Result<Vec<Tracker>, AllocError> {
    let mut trackers = Vec::new(alloc);
    for _ in 0..count {
        trackers.push(Tracker::new(alloc)?)?;
    }
    Ok(trackers)
}

/// Resources of the tags from 0 on, each with a tracker of its own. Each tag that is 3 modulo 8 is that of one
/// whose release meets the fault 2.
pub fn stock_by(alloc: Global, trackers: &[Tracker]) -> Result<Vec<Tracked>, AllocError> {
    let mut stock = Vec::new(alloc);
    for tag in 0..trackers.len() {
        let tag_number = tag as u64;
        stock.push(trackers[tag].resource(tag_number, fault_of(tag_number))?)?;
    }
    Ok(stock)
}

/// Whether each of the first so many resources was released once, each other one never, and each was
/// dropped once.
pub fn are_released_once(trackers: &[Tracker], accepted: usize) -> bool {
    for tag in 0..trackers.len() {
        let releases = if tag < accepted { 1 } else { 0 };
        if trackers[tag].released() != releases || trackers[tag].dropped() != 1 {
            return false;
        }
    }
    true
}

/// How many of the resources heard a word.
pub fn heard_count(trackers: &[Tracker]) -> usize {
    let mut count = 0usize;
    for tracker in trackers {
        if tracker.heard() > 0 {
            count = count.saturating_add(1);
        }
    }
    count
}
