//! Connections of hubs.

ghost use Rattle.rx_event.specs.Kept.{Kept};
ghost use Rattle.rx_event.specs.Claims.Forced.{StepsConnectOnce};
ghost use Rattle.rx_event.specs.Claims.Connections.{LastConnectionTells, ConnectionChanges, SubscribersFall};
ghost use Rattle.rx_event.specs.Claims.Hubs.{ConnectsOnce};

/// A hub has at most one open connection (Publish). Where no operator's rule is left undone, a
/// RefCount hub has exactly one if it has an open subscriber, and none if it has not.
pub fn a_hub_connects_once()
    ensures { (base : Kept) → ConnectsOnce base }
{}

/// One step, which is a caller's event and all that it forces, connects one hub at most, and
/// first (RefCount: it connects when a first observer subscribes). Each other forced event closes
/// at least one open node.
pub fn a_step_connects_one_hub()
    ensures { (base : Kept) → StepsConnectOnce base }
{}

/// Of all connections of a hub the last alone may be open, and of all ends of its connections the
/// last alone tells which open subscribers are cut off, and how: those that were opened before it.
pub fn the_last_connection_tells()
    ensures { (base : Kept) → LastConnectionTells base }
{}

/// After one more event a subscriber is cut off that was so before or whose hub's connection the
/// event ends. A hub waits for its connection that did so before or has the event's subscriber. A
/// connection has to be closed that had to before, that lost a subscriber, or that is new.
pub fn one_event_changes_few_connections()
    ensures { (base : Kept) → ConnectionChanges base }
{}

/// The open subscribers of a hub may be gone over from the last to the first, in any sum.
pub fn subscribers_may_be_gone_over_downward()
    ensures { SubscribersFall }
{}
