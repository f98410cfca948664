//! One more event.

ghost use Rattle.rx_event.specs.Kept.{Kept};
ghost use Rattle.rx_event.specs.Claims.Nodes.{NodeChanges};
ghost use Rattle.rx_event.specs.Claims.Resources.{ResourceChanges};
ghost use Rattle.rx_event.specs.Claims.Totals.{TotalChanges};
ghost use Rattle.rx_event.specs.Claims.Debt.{DebtChanges};
ghost use Rattle.rx_event.specs.Claims.Marks.{MarkChanges};

/// What one more event does to the nodes that are open, to the resources, to the totals, to
/// the events that closing everything may still need and to what each node remembers. Observable Contract: an end and an
/// unsubscription close what stands below too. Switch: it unsubscribes from the previous inner.
pub fn what_one_event_changes()
    ensures nodes { (base : Kept) → NodeChanges base }
    ensures resources { (base : Kept) → ResourceChanges base }
    ensures totals { (base : Kept) → TotalChanges base }
    ensures debt { (base : Kept) → DebtChanges base }
    ensures marks { (base : Kept) → MarkChanges base }
{}
