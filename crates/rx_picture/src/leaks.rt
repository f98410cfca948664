//! Which resources leak.

ghost use Rattle.std.specs.Prelude.{◌≡◌, IfOk};
ghost use Rattle.rx_picture.specs.Imports.{filter, length, makes_resource, at, places};
ghost use Rattle.rx_picture.specs.Rows.{leaks};
ghost use Rattle.rx_picture.specs.Choice.{AreMarksByTest};
ghost use Rattle.rx_picture.specs.Tables.{AreTurns, has_taken};

use crate::event_tests::at;
use crate::firsts::value_at;
use rx_event::Event;
use std::alloc::{AllocError, Global};

/// Whether the event at the place makes a resource.
fn is_resource_at(events: &[Event], n: usize) -> bool
    ensures { result ≡ at makes_resource events.now n }
{
    at(Event::makes_resource, events, n as u64)
}

/// Whether number `n` is a resource that was never handed out.
pub fn is_leak(events: &[Event], taken: &[usize], n: usize) -> bool
    requires { AreTurns events.now has_taken (length events.now) taken.now }
    ensures { result ≡ leaks events.now n }
{
    if value_at(taken, n as u64) < events.len() {
        return false;
    }
    is_resource_at(events, n)
}

/// Marks the resources that were never handed out.
pub fn leak_marks(alloc: Global, events: &[Event], taken: &[usize]) -> Result<Vec<bool>, AllocError>
    requires { AreTurns events.now has_taken (length events.now) taken.now }
    ensures { IfOk result (λ v. AreMarksByTest v.items (length events.now) (leaks events.now)) }
{
    let mut marks = Vec::new(alloc);
    for n in 0..events.len() {
        let mark = is_leak(events, taken, n);
        marks.push(mark)?;
    }
    Ok(marks)
}

/// The resources that were never handed out, by rising number.
pub fn leaks_of(alloc: Global, events: &[Event], taken: &[usize]) -> Result<Vec<u64>, AllocError>
    requires { AreTurns events.now has_taken (length events.now) taken.now }
    ensures { IfOk result (λ v. v.items ≡ filter (leaks events.now) (places events.now)) }
{
    (0..events.len() as u64)
        .filter(|r| is_leak(events, taken, *r as usize))
        .collect(alloc)
}
