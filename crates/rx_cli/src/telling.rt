//! Writing to the error stream.
ghost use Rattle.rx_device.specs.Device.{KeepsDevice};
ghost use Rattle.rx_cli.specs.Told.{IsTextWritten};

use rx_device::{Watched, write_text};
use std::io::Write;

/// Writes the text, or a front of it where the stream fails or takes no byte; the rest is lost.
#[tactic(auto, using(crate::proofs::Fronts::told_in_any_case))]
pub fn tell<E: Write>(errors: &mut Watched<'_, E>, text: &[u8])
    ensures told { IsTextWritten E.contents errors.old errors.new text.now }
    ensures same_errors { KeepsDevice errors.old errors.new }
{
    let _ = write_text(errors, text);
}
