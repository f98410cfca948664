//! What an event makes, and where it stands.

ghost use Rattle.std.specs.Prelude.{◌≡◌};
ghost use Rattle.rx_event.specs.Events.{makes_node, makes_hub, makes_resource, makes_lease, is_root, is_leaf, is_switch, is_until, is_merging};
ghost use Rattle.rx_event.specs.Events.{is_mirroring, has_source, is_auto_hub, is_manual_hub, parent_named, source_named, inner_named};
ghost use Rattle.rx_event.specs.Events.{notifier_named, hub_subscribed, hub_connected, node_of_accept};
ghost use Rattle.rx_event.specs.Allowed.{may_abort};

use super::{Event, Kind, Mode, Place};

impl Event {
    /// Whether it makes a node: one that is opened, or a connection.
    pub fn makes_node(self) -> bool
        ensures { result ≡ makes_node self }
    {
        matches!(self, Event::Open { .. } | Event::Connect(_))
    }

    /// Whether it makes a hub.
    pub fn makes_hub(self) -> bool
        ensures { result ≡ makes_hub self }
    {
        matches!(self, Event::Hub(_))
    }

    /// Whether it makes a resource: one is held at a node.
    pub fn makes_resource(self) -> bool
        ensures { result ≡ makes_resource self }
    {
        matches!(self, Event::Accept(_, _))
    }

    /// Whether it makes a lease.
    pub fn makes_lease(self) -> bool
        ensures { result ≡ makes_lease self }
    {
        matches!(self, Event::Lease(_))
    }

    /// Whether it opens a root. A connection is none.
    pub fn is_root(self) -> bool
        ensures { result ≡ is_root self }
    {
        matches!(
            self,
            Event::Open {
                place: Place::Root,
                ..
            }
        )
    }

    /// Whether it opens a leaf.
    pub fn is_leaf(self) -> bool
        ensures { result ≡ is_leaf self }
    {
        matches!(
            self,
            Event::Open {
                kind: Kind::Leaf,
                ..
            }
        )
    }

    /// Whether it opens a Switch.
    pub fn is_switch(self) -> bool
        ensures { result ≡ is_switch self }
    {
        matches!(
            self,
            Event::Open {
                kind: Kind::Switch,
                ..
            }
        )
    }

    /// Whether it opens a TakeUntil.
    pub fn is_until(self) -> bool
        ensures { result ≡ is_until self }
    {
        matches!(
            self,
            Event::Open {
                kind: Kind::Until,
                ..
            }
        )
    }

    /// Whether it opens a FlatMap or a Switch.
    pub fn is_merging(self) -> bool
        ensures { result ≡ is_merging self }
    {
        matches!(
            self,
            Event::Open {
                kind: Kind::Flat | Kind::Switch,
                ..
            }
        )
    }

    /// Whether the node that it makes passes on how its child ends.
    pub fn is_mirroring(self) -> bool
        ensures { result ≡ is_mirroring self }
    {
        matches!(
            self,
            Event::Open {
                kind: Kind::Pass | Kind::Until,
                ..
            } | Event::Connect(_)
        )
    }

    /// Whether the node that it makes has a place for a source: it is neither a leaf nor a
    /// subscriber.
    pub fn has_source(self) -> bool
        ensures { result ≡ has_source self }
    {
        matches!(
            self,
            Event::Open {
                kind: Kind::Pass | Kind::Flat | Kind::Switch | Kind::Until,
                ..
            } | Event::Connect(_)
        )
    }

    /// Whether a caller may end the node that it makes with an error, where that has no open
    /// child: it is neither a leaf nor a subscriber.
    pub fn may_abort(self) -> bool
        ensures { result ≡ may_abort self }
    {
        self.has_source()
    }

    /// Whether it makes a hub with RefCount.
    pub fn is_auto_hub(self) -> bool
        ensures { result ≡ is_auto_hub self }
    {
        matches!(self, Event::Hub(Mode::Auto))
    }

    /// Whether it makes a hub that a caller connects.
    pub fn is_manual_hub(self) -> bool
        ensures { result ≡ is_manual_hub self }
    {
        matches!(self, Event::Hub(Mode::Manual))
    }

    /// The node above, which its place names. A root and a connection have none.
    pub fn parent(self) -> Option<u64>
        ensures { result ≡ parent_named self }
    {
        match self {
            Event::Open { place, .. } => place.above(),
            _ => None,
        }
    }

    /// The node whose source it opens.
    pub fn source_of(self) -> Option<u64>
        ensures { result ≡ source_named self }
    {
        match self {
            Event::Open {
                place: Place::Source(n),
                ..
            } => Some(n),
            _ => None,
        }
    }

    /// The FlatMap or Switch of which it opens an inner observable.
    pub fn inner_of(self) -> Option<u64>
        ensures { result ≡ inner_named self }
    {
        match self {
            Event::Open {
                place: Place::Inner(n),
                ..
            } => Some(n),
            _ => None,
        }
    }

    /// The TakeUntil whose notifier it opens.
    pub fn notifier_of(self) -> Option<u64>
        ensures { result ≡ notifier_named self }
    {
        match self {
            Event::Open {
                place: Place::Notifier(n),
                ..
            } => Some(n),
            _ => None,
        }
    }

    /// The hub that the node subscribes to.
    pub fn subscribes_to(self) -> Option<u64>
        ensures { result ≡ hub_subscribed self }
    {
        match self {
            Event::Open {
                kind: Kind::Sub(hub),
                ..
            } => Some(hub),
            _ => None,
        }
    }

    /// The hub that the node connects.
    pub fn connects(self) -> Option<u64>
        ensures { result ≡ hub_connected self }
    {
        match self {
            Event::Connect(hub) => Some(hub),
            _ => None,
        }
    }

    /// The node that the resource is held at.
    pub fn held_at(self) -> Option<u64>
        ensures { result ≡ node_of_accept self }
    {
        match self {
            Event::Accept(node, _) => Some(node),
            _ => None,
        }
    }
}
