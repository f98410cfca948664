//! The event at a place, and tests of it.

ghost use Rattle.std.specs.Prelude.{◌≡◌, false, slice_get};
ghost use Rattle.std.specs.Option.{MatchOption};

use rx_event::Event;

/// The event at the place.
pub fn event_at(events: &[Event], n: usize) -> Option<Event>
    ensures { result ≡ slice_get events.now n }
{
    events.get(n).copied()
}

/// Whether there is an event at the place of which the test holds.
pub fn at<F: Fn(Event) -> bool>(test: F, events: &[Event], n: u64) -> bool
    requires { F.IsAlwaysCallable test }
    ensures { MatchOption (slice_get events.now n) (result ≡ false) (λ e. F.post test e result) }
{
    event_at(events, n as usize).is_some_and(test)
}
