//! The audit of a dump.

ghost use Rattle.std.specs.Prelude.{IfOk, IsErrOf, string_bytes};
ghost use Rattle.rx_device.specs.declared.fault.ScriptError.{ScriptError};
ghost use Rattle.cellarcliff.specs.Answers.{AnswersText};
ghost use Rattle.cellarcliff.specs.Audited.{TellsVerdict, HasNoHistory};

use crate::handing::{Said, hand_out};
use rx_device::{MOST_BYTES, ScriptError};
use rx_dump::check;
use std::alloc::Global;

// The verdict on the history of a dump.
fn verdict_on(alloc: Global, dump: &[u8]) -> Result<Said, ScriptError>
    ensures ok { IfOk result (λ s. TellsVerdict dump.now (string_bytes s.text) s.status) }
    ensures syntax { IsErrOf result ScriptError.Syntax → HasNoHistory dump.now }
    ensures shape { IsErrOf result ScriptError.Shape → HasNoHistory dump.now }
{
    if dump.len() > MOST_BYTES {
        return Err(ScriptError::Syntax);
    }
    let judgement = check(alloc, dump)?;
    Ok(Said {
        text: judgement.text,
        status: if judgement.is_lawful { 0 } else { 5 },
    })
}

/// Judges the dump and writes the verdict on its history to the front of `buffer`, as
/// `rxbook audit` does; `told` gets the length of that text.
///
/// The status is 0 where the verdict is `lawful`, 5 where it is another, 1 where the buffer is too
/// small, 3 where the bytes are no dump, 4 where memory was refused.
#[unsafe(no_mangle)]
pub extern "C" fn cellar_audit(
    alloc: Global,
    dump: &[u8],
    buffer: &mut [u8],
    told: &mut usize,
) -> u8
    ensures { AnswersText (TellsVerdict dump.now) (HasNoHistory dump.now) buffer.old buffer.new told.new result }
{
    hand_out(verdict_on(alloc, dump), buffer, told)
}
