//! A reader or a writer that is watched.

ghost use Rattle.std.specs.Prelude.{◌≡◌, ◌<◌, ◌≤◌, ◌+◌, ◌-◌, ◌^◌, ◌⊎◌, length, min, take, IfSome, IfNone};
ghost use Rattle.std.specs.Result.{result_ok};
ghost use Rattle.std.specs.Io.KnownBytes.{Appends, Consumes, IsAtEnd, Keeps};
ghost use Rattle.rx_device.specs.Device.{device_of, KeepsDevice, Watches, turns_of, NotesMoved, NotesFailed, IsUnasked};

use std::io::{Read, Result, Write};

/// A reader or a writer, with what is known of its calls: how many there were, whether one failed,
/// and whether one moved no byte, as a reader's does at its end.
#[derive(Drop)]
pub struct Watched<'a, D> {
    device: &'a mut D,
    turns: u64,
    failed: bool,
    stopped: bool,
}

impl<'a, D> Watched<'a, D> {
    /// Watches a device, from which nothing was asked through this watch yet.
    pub fn new(device: &'a mut D) -> Self
        ensures device { device_of result ≡ device.old }
        ensures watches { Watches result device.entry }
        ensures fresh { IsUnasked result }
    {
        Watched {
            device,
            turns: 0,
            failed: false,
            stopped: false,
        }
    }
}

impl<D> Watched<'_, D> {
    // Notes one call more of the device, and what it answered: how many bytes it moved, which is handed on,
    // or that it failed.
    fn note(&mut self, answer: Result<usize>) -> Option<usize>
        ensures same_device { KeepsDevice self.old self.new }
        ensures device { device_of self.new ≡ device_of self.old }
        ensures count { result ≡ result_ok answer }
        ensures turns { turns_of self.new ≡ min (turns_of self.old + 1) (2 ^ 64 - 1) }
        ensures ok { IfSome result (λ n. NotesMoved self.old self.new n) }
        ensures err { IfNone result (NotesFailed self.old self.new) }
    {
        self.turns = self.turns.saturating_add(1);
        match answer {
            Ok(count) => {
                self.stopped = self.stopped || count == 0;
                Some(count)
            }
            Err(_) => {
                self.failed = true;
                None
            }
        }
    }
}

impl<R: Read> Watched<'_, R> {
    // The next bytes, and how many they are; None where the reader failed.
    pub(crate) fn read(&mut self, buffer: &mut [u8]) -> Option<usize>
        requires { 0 < length buffer.old }

        ensures same_device { KeepsDevice self.old self.new }
        ensures turns { turns_of self.new ≡ min (turns_of self.old + 1) (2 ^ 64 - 1) }

        ensures within { IfSome result (λ n. n ≤ length buffer.new) }
        ensures bytes { IfSome result
            (λ n. Consumes (R.remaining (device_of self.old)) (R.remaining (device_of self.new)) (take n buffer.new)) }
        ensures end { IfSome result (λ n. n ≡ 0 → IsAtEnd (R.remaining (device_of self.new))) }
        ensures ok { IfSome result (λ n. NotesMoved self.old self.new n) }

        ensures kept { IfNone result (Keeps (R.remaining (device_of self.old)) (R.remaining (device_of self.new))) }
        ensures failed { IfNone result (NotesFailed self.old self.new) }
    {
        let answer = self.device.read(buffer);
        self.note(answer)
    }
}

impl<W: Write> Watched<'_, W> {
    // How many bytes of the text were written, which are more than none; None where the writer
    // failed or took none.
    pub(crate) fn write(&mut self, text: &[u8]) -> Option<usize>
        requires { 0 < length text.now }

        ensures same_device { KeepsDevice self.old self.new }
        ensures turns { turns_of self.new ≡ min (turns_of self.old + 1) (2 ^ 64 - 1) }

        ensures within { IfSome result (λ n. (0 < n) × (n ≤ length text.now)) }
        ensures bytes { IfSome result
            (λ n. Appends (W.contents (device_of self.old)) (W.contents (device_of self.new)) (take n text.now)) }
        ensures ok { IfSome result (λ n. NotesMoved self.old self.new n) }

        ensures kept { IfNone result (Keeps (W.contents (device_of self.old)) (W.contents (device_of self.new))) }
        ensures failed { IfNone result (NotesFailed self.old self.new ⊎ NotesMoved self.old self.new 0) }
    {
        let answer = self.device.write(text);
        match self.note(answer) {
            Some(0) => None,
            counted => counted,
        }
    }
}
