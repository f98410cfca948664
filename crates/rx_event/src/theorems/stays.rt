//! What stays open, and what forces nothing.

ghost use Rattle.rx_event.specs.Kept.{Kept};
ghost use Rattle.rx_event.specs.Claims.Stays.{CalmForcesLittle, OpenedStays};

/// An event that ends and declines nothing, and fires no TakeUntil, makes no node due to end, so
/// that no marks of an open node say anything. Where it closes nothing either, nothing is forced
/// after it but the connection of a new subscriber's hub (RefCount), and after that nothing.
pub fn calm_events_force_little()
    ensures { (base : Kept) → CalmForcesLittle base }
{}

/// What a caller opens stays open through all that is forced after it, also where it takes the
/// place of a Switch's open inner, so that RefCount closes connections. So does the node at which
/// a resource is accepted (Using, Finally).
pub fn what_is_opened_stays_open()
    ensures { (base : Kept) → OpenedStays base }
{}
