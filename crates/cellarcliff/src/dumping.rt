//! How the dump of an engine is handed out.

ghost use Rattle.cellarcliff.specs.Dumps.{IsHandedOver};

use crate::handing::fits;
use rx_cellar::{CUT, Cellar, DONE, NO_MEMORY, SMALL};
use std::alloc::Global;

/// Writes the dump to the front of the buffer.
pub(crate) fn dump_to(kept: &Cellar, alloc: Global, buffer: &mut [u8], told: &mut u64) -> u8
    ensures { IsHandedOver kept.now.engine.book buffer.old buffer.new told.new result }
{
    *told = 0;
    match kept.dump(alloc) {
        Ok(Some(text)) => {
            let mut length = 0;
            let is_whole = fits(text.as_bytes(), buffer, &mut length);
            *told = length as u64;
            if is_whole { DONE } else { SMALL }
        }
        Ok(None) => CUT,
        Err(_) => NO_MEMORY,
    }
}
