//! Tests of a place.

ghost use Rattle.std.specs.Prelude.{◌≡◌};
ghost use Rattle.rx_event.specs.Events.{named_by};

use super::Place;

impl Place {
    /// The node above, which the place names. A root has none.
    pub fn above(self) -> Option<u64>
        ensures { result ≡ named_by self }
    {
        match self {
            Place::Root => None,
            Place::Source(n) | Place::Inner(n) | Place::Notifier(n) => Some(n),
        }
    }
}
