//! What the gate has proved of where items go, and of what operators and hubs have to do.

ghost use Rattle.rx_event.specs.Kept.{Kept};
ghost use Rattle.rx_hub.specs.Claims.{HubsAreForced, WalksAreClimbs, HubsReady, HubsFollow, HubsInOrder};
ghost use Rattle.rx_hub.specs.TreeClaims.{DueIsForced, WaysAreClimbs};

/// For every history whose records a tree has: the way of an item that reaches no connection is the
/// item's climb in the history, and from a connection the climb goes on to the open subscribers of its
/// hub.
pub fn ways_are_climbs()
    ensures { (base : Kept) → WaysAreClimbs base }
{}

/// For every history whose records a tree has: what is due at a record is forced, where no hub waits
/// for its connection; and where nothing is due at any, only hubs may force something.
pub fn due_is_forced()
    ensures { (base : Kept) → DueIsForced base }
{}

/// For every history whose hubs these are: what is due at a hub is forced in it; and where nothing is
/// due at any hub nor, by [`due_is_forced`], at any record of its tree, the history is settled.
pub fn hubs_are_forced()
    ensures { (base : Kept) → HubsAreForced base }
{}

/// For every history whose records and hubs these are: where an item goes over the tree and the hubs is
/// its climb in the history, with the same stops in the same order and as many visits.
pub fn walks_are_climbs()
    ensures { (base : Kept) → WalksAreClimbs base }
{}

/// How one more event changes the hubs of a history: what it closes leaves them, what it makes joins
/// them, and they are the hubs of the longer history. So a caller that does just this to the hubs with
/// each event that it writes keeps them those of the history. The event is one that may follow, and so
/// the hub is there that it subscribes to or connects.
pub fn hubs_follow_events()
    ensures ready { (base : Kept) → HubsReady base }
    ensures follow { (base : Kept) → HubsFollow base }
{}

/// In every lawful history a subscriber that stands inside the connection of a hub is of an earlier
/// hub, and what climbs from it reaches connections of later hubs alone. So an item's way to one stop
/// goes through each hub once at most.
pub fn hubs_are_in_order()
    ensures { (base : Kept) → HubsInOrder base }
{}
