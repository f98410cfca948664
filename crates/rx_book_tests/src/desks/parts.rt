//! What the tests share: a gate that does nothing, the blanks of a desk, and what is told, line by line.

ghost use Rattle.std.specs.Prelude.{◌≡◌};
ghost use Rattle.rx_ledger.specs.Shares.{all_parts};

use rx_book::Key;
use rx_crew::Gate;
use rx_ledger::{PARTS, Seat};
use std::alloc::Global;
use std::fmt::Debug;
use std::sync::ledger::{Blank, Ledger};

// A gate that does nothing.
pub(super) struct Open;

impl Gate for Open {
    fn before(&self, _number: u64) {}

    fn after(&self, _number: u64) {}
}

// Three blanks of all parts.
pub(super) fn blanks() -> (Blank, Blank, Blank)
    ensures { (result.0.parts ≡ all_parts) × (result.1.parts ≡ all_parts) × (result.2.parts ≡ all_parts) }
{
    (Blank::new(PARTS), Blank::new(PARTS), Blank::new(PARTS))
}

// So many seats beside the first one.
pub(super) fn seats_beside<I: Ledger, A: Ledger, K: Ledger>(
    alloc: Global,
    first: &mut Seat<I, A, K>,
    count: u64,
) -> Option<Vec<Seat<I, A, K>>> {
    let mut seats = Vec::new(alloc);
    for _ in 0..count {
        seats.push(first.split()?).ok()?;
    }
    Some(seats)
}

// Puts a line behind what was told. Without memory for it the line is missing.
pub(super) fn tell<T: Debug + Drop>(told: &mut String, line: T) {
    let _ = write!(told, "{line:?}\n");
}

// The number of a key.
pub(super) fn number_of(key: Option<Key>) -> Option<u64> {
    match key {
        Some(key) => Some(key.number),
        None => None,
    }
}
