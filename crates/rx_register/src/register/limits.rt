//! What of a call's causes needs numbers alone.

ghost use Rattle.std.specs.Prelude.{◌≡◌};
ghost use Rattle.rx_event.specs.Causes.{is_crowded as is_crowded_in, is_over as is_over_in};
ghost use Rattle.rx_register.specs.State.{IsLoadOf};

use super::Register;
use crate::load::Load;
use rx_event::MOST_NODES;

impl Register {
    /// Whether so many open nodes more would be too many.
    #[inline(always)]
    pub fn is_crowded(&self, load: Load, more: u64) -> bool
        requires { IsLoadOf self.now.base self.now.history load }
        ensures { result ≡ is_crowded_in self.now.history more }
    {
        let _told = &self.told;
        MOST_NODES < more || MOST_NODES - more < load.open
    }

    /// Whether so many events and reservations more would pass the limit on the events since the
    /// base, with what closing everything needs counted in.
    #[inline(always)]
    pub fn is_over(&self, load: Load, more: u64) -> bool
        requires { IsLoadOf self.now.base self.now.history load }
        ensures { result ≡ is_over_in self.now.base self.now.history self.now.limit more }
    {
        let since = self.history.len() - self.history.base().at();
        let left = self.limit - since;
        left < load.debt || left - load.debt < more
    }
}
