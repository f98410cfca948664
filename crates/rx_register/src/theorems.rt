//! What the gate has proved of the table of refusals, and of what callers may do.

ghost use Rattle.rx_event.specs.Kept.{Kept};
ghost use Rattle.rx_register.specs.Claims.{CallsFollow, EventsDecided, RoomIsKept};

/// Where no cause of refusal stands against a call in a settled history, its events may follow, and
/// add no more than what `Full` has counted: the events themselves, and what the closing of what they
/// make may need.
pub fn calls_without_cause_follow()
    ensures { (base : Kept) → CallsFollow base }
{}

/// Where there was room for a call, there is room for all that it forces, a connection among it, and
/// for closing everything: so neither takes memory.
pub fn room_is_kept()
    ensures { RoomIsKept }
{}

/// In a lawful and settled history, an event of a caller is allowed exactly where no cause but `Full` and
/// `NoMemory` stands against the call behind it. That call adds just the event; and where any call that
/// adds just the event has no other cause, that one has none.
pub fn causes_decide_events()
    ensures { (base : Kept) → EventsDecided base }
{}
