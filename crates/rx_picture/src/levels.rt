//! How deep each node stands.

ghost use Rattle.std.specs.Prelude.{◌≡◌, ◌+◌, ◌<◌, ◌≤◌, IfOk, length};
ghost use Rattle.rx_picture.specs.Levels.{AreLevels, level};

use crate::firsts::value_at;
use crate::lines::parent_of;
use rx_event::Event;
use std::alloc::{AllocError, Global};

/// How deep node `n` stands.
fn level_of(events: &[Event], levels: &[usize], n: usize) -> usize
    requires within { n < length events.now }
    requires levels { AreLevels events.now n levels.now }
    ensures value { result ≡ level events.now n }
    ensures few { result ≤ n + 1 }
{
    match parent_of(events, n) {
        Some(p) => value_at(levels, p) + 1,
        None => 1,
    }
}

/// By number: how many nodes stand above it, and one.
pub fn levels_of(alloc: Global, events: &[Event]) -> Result<Vec<usize>, AllocError>
    ensures { IfOk result (λ v. AreLevels events.now (length events.now) v.items) }
{
    let mut levels = Vec::new(alloc);
    for n in 0..events.len() {
        let level = level_of(events, &levels, n);
        levels.push(level)?;
    }
    Ok(levels)
}
