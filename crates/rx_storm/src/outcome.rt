//! How a storm ended.

ghost use Rattle.std.specs.Prelude.{◌≡◌};
ghost use Rattle.rx_storm.specs.Storms.{storm_outcome};

use crate::figures::Figures;
use rx_crew::{Mismatch, Totals};

/// What keeps a storm from its end.
#[derive(Clone, Copy)]
pub enum Lack {
    /// Memory was refused.
    Memory,
    /// A thread could not be started, and no memory was refused.
    Thread,
}

/// What kept the storm from its end, where something did; else its figures, and whether the seats and
/// receipts agree with the book.
pub fn storm_outcome(
    lack: Option<Lack>,
    figures: Figures,
    verdict: Result<Totals, Mismatch>,
) -> Result<(Figures, bool), Lack>
    ensures { result ≡ storm_outcome lack figures verdict }
{
    match lack {
        Some(lack) => Err(lack),
        None => Ok((figures, verdict.is_ok())),
    }
}
