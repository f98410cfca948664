//! Where a node is to be opened, as the tree has it.

ghost use Rattle.std.specs.Prelude.{◌≡◌};
ghost use Rattle.rx_book.specs.Requests.{place_of};
ghost use Rattle.rx_book.specs.Places.{key_above};

use crate::answer::At;
use rx_event::Place;
use rx_tree::Key;

/// A place by numbers, and the key of the node that it names.
#[derive(Clone, Copy)]
pub(crate) struct Spot {
    pub(crate) place: Place,
    pub(crate) above: Option<Key>,
}

/// The place that a caller names by keys.
pub(crate) fn spot_of(at: At) -> Spot
    ensures place { result.place ≡ place_of at }
    ensures above { result.above ≡ key_above at }
{
    match at {
        At::Root => Spot {
            place: Place::Root,
            above: None,
        },
        At::Source(key) => Spot {
            place: Place::Source(key.number),
            above: Some(key),
        },
        At::Inner(key) => Spot {
            place: Place::Inner(key.number),
            above: Some(key),
        },
        At::Notifier(key) => Spot {
            place: Place::Notifier(key.number),
            above: Some(key),
        },
    }
}
