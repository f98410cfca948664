//! Room for events that is set aside, and room that is spare.

ghost use Rattle.std.specs.Prelude.{◌≡◌, ◌+◌, ◌≤◌, length, true, false, OnOk, OnErr};

use super::Register;
use std::alloc::AllocError;

impl Register {
    /// Whether there is spare room for so many events: then they pass no limit either, with what was set
    /// aside counted in.
    #[inline(always)]
    pub fn has_spare(&self, events: u64) -> bool
        ensures { result ≡ true → length self.now.history + self.now.room + events ≤ self.now.base.at_length +
            self.now.limit }
    {
        events <= self.spare
    }

    /// Sets so much of the spare room aside, where there is as much; answers whether there was. It takes no
    /// memory.
    #[inline(always)]
    pub fn take_spare(&mut self, events: u64) -> bool
        ensures kept { self.new ≡ record self.old { room = self.new.room } }
        ensures taken { result ≡ true → self.new.room ≡ self.old.room + events }
        ensures none { result ≡ false → self.new ≡ self.old }
    {
        if self.spare < events {
            return false;
        }
        self.spare -= events;
        true
    }

    /// Sets room for just so many events aside, whatever was set aside before, and leaves what else there is
    /// spare. Refused only where there was less in all and memory was refused; then nothing changes.
    pub fn set_aside(&mut self, events: u64) -> Result<(), AllocError>
        requires { length self.old.history + events ≤ self.old.base.at_length + self.old.limit }
        ensures ok { OnOk result (self.new.room ≡ events) }
        ensures kept { self.new ≡ record self.old { room = self.new.room } }
        ensures refused { OnErr result (self.new ≡ self.old) }
    {
        match self.history.reserve(events) {
            Ok(()) => {
                self.spare = self.history.room() - events;
                Ok(())
            }
            Err(_) => Err(AllocError),
        }
    }
}
