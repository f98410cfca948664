//! Tests of one event, and of the event at a place.

ghost use Rattle.std.specs.Prelude.{◌≡◌, false, slice_get};
ghost use Rattle.std.specs.Option.{MatchOption};

use rx_event::Event;

/// The event at this place.
pub fn event_at(past: &[Event], n: usize) -> Option<Event>
    ensures { result ≡ slice_get past.now n }
{
    past.get(n).copied()
}

/// Whether there is an event at the place of which the test holds.
pub fn at<F: Fn(Event) -> bool>(test: F, past: &[Event], n: u64) -> bool
    requires { F.IsAlwaysCallable test }
    ensures { MatchOption (slice_get past.now n) (result ≡ false) (λ e. F.post test e result) }
{
    event_at(past, n as usize).is_some_and(test)
}
