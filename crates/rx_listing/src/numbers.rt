//! Which numbers have names.

ghost use Rattle.std.specs.Prelude.{◌≡◌, ℕ, is_some, filter, IfOk};
ghost use Rattle.std.specs.List.{range_with_len};
ghost use Rattle.rx_line.specs.Names.{name_of_number};
ghost use Rattle.rx_listing.specs.Listed.{AreNamesBelow};

use rx_line::Names;
use std::alloc::{AllocError, Global};

/// The numbers that have names, each once, rising. Err where memory is refused.
pub fn rising(alloc: Global, names: &Names) -> Result<Vec<u64>, AllocError>
    ensures { IfOk result (λ v. (len : ℕ) → AreNamesBelow len names.now →
        v.items ≡ filter (λ n. is_some (name_of_number names.now n)) (range_with_len 0 len)) }
{
    let mut numbers = names.numbers(alloc)?;
    numbers.sort()?;
    numbers.dedup();
    Ok(numbers)
}
