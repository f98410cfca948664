//! What a history leaves, in place of it.

ghost use Rattle.std.specs.Prelude.{◌≡◌, ◌≤◌, [], length, OnOk, OnErr};
ghost use Rattle.rx_event.specs.Bases.{base_of};
ghost use Rattle.rx_event.specs.Forced.{IsSettled};
ghost use Rattle.rx_event.specs.Notes.{notes};
ghost use Rattle.rx_event.specs.Refusals.{first_cause};
ghost use Rattle.rx_event.specs.Totals.{debt};
ghost use Rattle.rx_event.specs.Causes.{checkpoint_causes};
ghost use Rattle.rx_register.specs.State.{Rebases};

use super::Register;
use rx_event::{Base, Refusal};
use std::alloc::AllocError;

/// The greatest place at which a checkpoint may be made.
const MOST_PLACES: u64 = 9_223_372_036_854_775_807;

impl Register {
    /// What stands first against a checkpoint: `MailLeft` where notes were not handed out, `TooMany` where
    /// there were more than 9,223,372,036,854,775,807 events. None where nothing does.
    pub fn checkpoint_cause(&self) -> Option<Refusal>
        ensures { result ≡ first_cause (checkpoint_causes self.now.history self.now.given) }
    {
        if self.told != 0 {
            return Some(Refusal::MailLeft);
        }
        if MOST_PLACES < self.history.len() {
            return Some(Refusal::TooMany);
        }
        None
    }

    /// Puts what the history leaves in place of it, with room for just so many events after it, which are
    /// those that closing everything may need at least. The memory of the events is given back. Refused
    /// only where memory was refused; then nothing changes.
    pub fn rebase(&mut self, base: Base, room: u64) -> Result<(), AllocError>
        requires base { base ≡ base_of self.old.base self.old.history }
        requires settled { IsSettled self.old.base self.old.history }
        requires handed { self.old.given ≡ length (notes self.old.history) }
        requires pending { self.old.pending ≡ [] }
        requires placed { length self.old.history ≤ 9223372036854775807 }
        requires closing { debt self.old.base self.old.history ≤ room }
        requires within { room ≤ self.old.limit }
        ensures ok { OnOk result (Rebases self.old self.new room) }
        ensures refused { OnErr result (self.new ≡ self.old) }
    {
        self.history.rebase(base, room)?;
        self.spare = 0;
        Ok(())
    }
}
