//! A number for each of some numbers.

ghost use Rattle.std.specs.Prelude.{◌≡◌, ℕ, ◌+◌, ◌<◌, cond, unwrap_or, OnOk};
ghost use Rattle.std.specs.Bool.{nat_eq};
ghost use Rattle.std.specs.HashMap.{get};
ghost use Rattle.rx_listing.specs.Parts.{IsPut};

use std::alloc::AllocError;
use std::collections::HashMap;

/// A number for each of some numbers.
pub type Counts = HashMap<u64, u64>;

/// The count of a number, 0 where there is none.
pub fn count_of(counts: &Counts, number: u64) -> u64
    ensures { result ≡ unwrap_or (get nat_eq counts.now number) 0 }
{
    counts.get(&number).copied().unwrap_or(0)
}

/// Keeps a number for a number.
pub fn keep(counts: &mut Counts, number: u64, value: u64) -> Result<(), AllocError>
    ensures { OnOk result (IsPut (get nat_eq counts.old) number value (get nat_eq counts.new)) }
{
    match counts.insert(number, value) {
        Ok(_) => Ok(()),
        Err(_) => Err(AllocError),
    }
}

/// Counts a number once more.
pub fn count(counts: &mut Counts, number: u64) -> Result<(), AllocError>
    ensures { OnOk result ((n : ℕ) → unwrap_or (get nat_eq counts.old n) 0 < 18446744073709551615 →
        unwrap_or (get nat_eq counts.new n) 0 ≡ unwrap_or (get nat_eq counts.old n) 0 + cond (nat_eq number n) 1 0) }
{
    let many = count_of(counts, number).saturating_add(1);
    keep(counts, number, many)
}
