//! Tests of a kind.

ghost use Rattle.std.specs.Prelude.{◌≡◌};
ghost use Rattle.rx_event.specs.declared.event.Place.{Place};
ghost use Rattle.rx_event.specs.declared.event.Event.TheVariants.{Open};
ghost use Rattle.rx_event.specs.Events.{is_leaf, is_merging, has_source, hub_subscribed};

use super::Kind;

impl Kind {
    /// Whether a node of this kind is a leaf, wherever it is opened.
    pub fn is_leaf(self) -> bool
        ensures { (place : Place) → result ≡ is_leaf (Open place self) }
    {
        matches!(self, Kind::Leaf)
    }

    /// Whether a node of this kind is a FlatMap or a Switch, wherever it is opened.
    pub fn is_merging(self) -> bool
        ensures { (place : Place) → result ≡ is_merging (Open place self) }
    {
        matches!(self, Kind::Flat | Kind::Switch)
    }

    /// Whether a node of this kind has a place for a source: it is neither a leaf nor a subscriber.
    pub fn has_source(self) -> bool
        ensures { (place : Place) → result ≡ has_source (Open place self) }
    {
        matches!(self, Kind::Pass | Kind::Flat | Kind::Switch | Kind::Until)
    }

    /// The hub that a node of this kind subscribes to.
    pub fn hub(self) -> Option<u64>
        ensures { (place : Place) → result ≡ hub_subscribed (Open place self) }
    {
        match self {
            Kind::Sub(hub) => Some(hub),
            _ => None,
        }
    }
}
