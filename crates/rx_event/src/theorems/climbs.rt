//! Where items go.

ghost use Rattle.rx_event.specs.Kept.{Kept};
ghost use Rattle.rx_event.specs.Claims.Climbs.{ClimbsEnd, ClimbsWhole, VisitsCounted};

/// In a lawful history each climb from an open node ends, since the hubs above a subscriber are
/// later than its own; what it reaches is open. It is the node, and then the climbs of where it
/// goes on, in order: within the limit all of them, beyond it cut off one visit after the limit.
/// A node is visited as often as visited nodes go on to it.
pub fn climbs_go_on_in_order()
    ensures end { (base : Kept) → ClimbsEnd base }
    ensures whole { (base : Kept) → ClimbsWhole base }
    ensures counted { VisitsCounted }
{}
