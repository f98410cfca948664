//! Reading a device to its end.

ghost use Rattle.std.specs.Prelude.{◌≡◌, ◌≢◌, ◌≤◌, false, true, IfOk, IfErr, OnOk, IsErrOf};
ghost use Rattle.rx_device.specs.Device.{device_of, KeepsDevice, turns_of, most_reads, has_failed, has_stopped, HasReadFault, IsUnasked};
ghost use Rattle.rx_device.specs.Input.{GivesWhole, GivesTooMuch};

use crate::fault::ScriptError;
use crate::watched::Watched;
use std::alloc::Global;
use std::io::Read;

/// The longest input, in bytes.
pub const MOST_BYTES: usize = 16_777_216;

/// How often a reader is asked for bytes at most. One that has not ended gives a byte each time, and so
/// gives more than [`MOST_BYTES`] before that.
pub const MOST_TURNS: u32 = 33_554_432;

const PIECE: usize = 4096;

/// All that the reader has left.
pub fn read_all<R: Read>(alloc: Global, reader: &mut Watched<'_, R>) -> Result<Vec<u8>, ScriptError>
    requires fresh { IsUnasked reader.old }

    ensures ok { IfOk result
        (λ v. GivesWhole (R.remaining (device_of reader.old)) (R.remaining (device_of reader.new)) v.items) }
    ensures unhurt { OnOk result (has_failed reader.new ≡ false) }
    ensures stopped { OnOk result (has_stopped reader.new ≡ true) }
    ensures bound { turns_of reader.new ≤ most_reads }
    ensures same_device { KeepsDevice reader.old reader.new }

    ensures read { IsErrOf result ScriptError.Read → HasReadFault reader.new }
    ensures syntax { IsErrOf result ScriptError.Syntax
        → GivesTooMuch (R.remaining (device_of reader.old)) (R.remaining (device_of reader.new)) }
    ensures never { IfErr result (λ e. (e ≢ ScriptError.Write) × (e ≢ ScriptError.Shape)) }
{
    let mut bytes = Vec::new(alloc);
    let mut buffer = [0u8; PIECE];
    for _turn in 0..MOST_TURNS {
        let Some(count) = reader.read(&mut buffer) else {
            return Err(ScriptError::Read);
        };
        if count == 0 {
            return Ok(bytes);
        }
        if count > MOST_BYTES - bytes.len() {
            return Err(ScriptError::Syntax);
        }
        if bytes.extend_from_slice(&buffer[..count]).is_err() {
            return Err(ScriptError::Memory);
        }
    }
    Err(ScriptError::Read)
}
