//! Where resources are.

ghost use Rattle.rx_event.specs.Kept.{Kept};
ghost use Rattle.rx_event.specs.Claims.Resources.{AllReleased, EachInOnePlace, LeasedIsHeld};

/// In a lawful history each resource that was accepted is held, waits for its release, or was
/// taken, and is only one of these (Using, Finally: it is released once).
pub fn each_resource_is_in_one_place()
    ensures { (base : Kept) → EachInOnePlace base }
{}

/// A lease that is out keeps its resource held: it neither waits nor was taken, also where its node
/// closed or it was removed. It begins to wait at its last return (System.Reactive: a
/// RefCountDisposable is released once it was disposed of and no dependent is left).
pub fn a_leased_resource_is_held()
    ensures { (base : Kept) → LeasedIsHeld base }
{}

/// Where no node is open and no lease is out no resource is held. Where none waits either, each that
/// was accepted was handed out for its release.
pub fn a_closed_history_holds_nothing()
    ensures { (base : Kept) → AllReleased base }
{}
