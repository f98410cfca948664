//! Writing a text to a device.

ghost use Rattle.std.specs.Prelude.{◌≡◌, ◌≤◌, ◌+◌, [], length, OnOk, OnErr};
ghost use Rattle.std.specs.Io.KnownBytes.{Appends};
ghost use Rattle.rx_device.specs.Device.{device_of, KeepsDevice, turns_of, has_failed, has_stopped, HasWriteFault, AppendsPrefix};

use crate::watched::Watched;
use std::io::Write;

/// The writer failed, or took no byte.
#[derive(Clone, Copy, Debug, PartialEq, Eq)]
pub struct WriteFault;

/// Writes the whole text, or a front of it where the writer fails or takes no byte: it is not asked again
/// after that, and at most once for each byte, so of an empty text not at all.
pub fn write_text<W: Write>(writer: &mut Watched<'_, W>, text: &[u8]) -> Result<(), WriteFault>
    ensures same_device { KeepsDevice writer.old writer.new }
    ensures ok { OnOk result
        (Appends (W.contents (device_of writer.old)) (W.contents (device_of writer.new)) text.now) }
    ensures err { OnErr result
        (AppendsPrefix (W.contents (device_of writer.old)) (W.contents (device_of writer.new)) text.now) }
    ensures unhurt { OnOk result (has_failed writer.new ≡ has_failed writer.old) }
    ensures moved { OnOk result (has_stopped writer.new ≡ has_stopped writer.old) }
    ensures bound { turns_of writer.new ≤ turns_of writer.old + length text.now }
    ensures failed { OnErr result (HasWriteFault writer.new) }
    ensures unasked { text.now ≡ [] → writer.new ≡ writer.old }
{
    let mut done = 0;
    while done < text.len() {
        let Some(count) = writer.write(&text[done..]) else {
            return Err(WriteFault);
        };
        done += count;
    }
    Ok(())
}
