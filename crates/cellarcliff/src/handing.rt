//! How an outcome is handed out: a text and its status.

ghost use Rattle.std.specs.Prelude.{◌≡◌, true, false};
ghost use Rattle.cellarcliff.specs.Answers.{IsGiven, IsTextTooLong};
ghost use Rattle.cellarcliff.specs.Handing.{IsHandedOut, fault_status_in_memory};

use rx_device::ScriptError;

/// What a call has to say.
#[derive(Drop)]
pub struct Said {
    /// The text.
    pub text: String,
    /// The status with it.
    pub status: u8,
}

/// Hands the text out if it fits: to the front of `buffer`. Its length is told in either case.
pub fn fits(text: &[u8], buffer: &mut [u8], told: &mut usize) -> bool
    ensures given { result ≡ true → IsGiven text.now buffer.old buffer.new told.new }
    ensures too_long { result ≡ false → IsTextTooLong text.now buffer.old buffer.new told.new }
{
    *told = text.len();
    if text.len() > buffer.len() {
        return false;
    }
    buffer[..text.len()].copy_from_slice(text);
    true
}

// The status of a fault: as the program has it of faulty input and of memory that was refused. Bytes in memory meet no other
// fault, so that 1 is left to a small buffer.
fn fault_status_in_memory(error: &ScriptError) -> u8
    ensures { result ≡ fault_status_in_memory error.now }
{
    match error {
        ScriptError::Syntax | ScriptError::Shape => 3,
        ScriptError::Read | ScriptError::Write | ScriptError::Memory => 4,
    }
}

/// Hands the text out, with its status: to the front of `buffer`, and its
/// length to `told`. Where the buffer is too small it stays, and the status is 1. Where there is no text
/// nothing is written, 0 is told, and the status is that of the fault.
pub fn hand_out(outcome: Result<Said, ScriptError>, buffer: &mut [u8], told: &mut usize) -> u8
    ensures { IsHandedOut outcome buffer.old buffer.new told.new result }
{
    *told = 0;
    let said = match outcome {
        Ok(said) => said,
        Err(error) => return fault_status_in_memory(&error),
    };
    if fits(said.text.as_bytes(), buffer, told) {
        said.status
    } else {
        1
    }
}
