//! Tables of places by number, and which number an event names.

ghost use Rattle.std.specs.Prelude.{◌≡◌, IfOk, replicate, slice_index_or};
ghost use Rattle.rx_picture.specs.Imports.{slice_get, option_and_then, removed_of, returned_of, taken_of};
ghost use Rattle.rx_picture.specs.Tables.{noted};

use crate::event_tests::event_at;
use rx_event::Event;
use std::alloc::{AllocError, Global};

/// A list of this many times the value.
pub fn filled(alloc: Global, value: usize, size: usize) -> Result<Vec<usize>, AllocError>
    ensures { IfOk result (λ v. v.items ≡ replicate size value) }
{
    Ok(vec![in alloc; value; size]?)
}

/// The value at this place of the list, and 0 past its end.
pub fn value_at(table: &[usize], n: u64) -> usize
    ensures { result ≡ slice_index_or table.now n 0 }
{
    let n = n as usize;
    if n < table.len() { table[n] } else { 0 }
}

/// Notes the place for the number, if there is one, the list has it, and no place was noted for it:
/// what stands there then is the list's length.
pub fn note(table: &mut Vec<usize>, key: Option<u64>, place: usize)
    ensures { table.new.items ≡ noted table.old.items key place }
{
    if let Some(n) = key {
        let n = n as usize;
        if n < table.len() && table[n] == table.len() {
            table[n] = place;
        }
    }
}

/// The resource that the event at the place removes.
pub fn removed_at(events: &[Event], place: usize) -> Option<u64>
    ensures { result ≡ option_and_then removed_of (slice_get events.now place) }
{
    event_at(events, place)?.removed()
}

/// The lease that the event at the place returns.
pub fn returned_at(events: &[Event], place: usize) -> Option<u64>
    ensures { result ≡ option_and_then returned_of (slice_get events.now place) }
{
    event_at(events, place)?.returned()
}

/// The resource that the event at the place hands out.
pub fn taken_at(events: &[Event], place: usize) -> Option<u64>
    ensures { result ≡ option_and_then taken_of (slice_get events.now place) }
{
    event_at(events, place)?.taken()
}
