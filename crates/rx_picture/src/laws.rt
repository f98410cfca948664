//! What is proved of drawings as definitions.

ghost use Rattle.rx_picture.specs.Held.{HeldIsBarred};
ghost use Rattle.rx_picture.specs.Leaks.{LeaksAreDrawn, LeaksAreLeft};

/// From its acceptance on, a resource whose track is shown is held in just the prefixes over which its
/// track has a full bar: its own, where its node owns it, or that of a lease which is out.
#[tactic(auto, using(crate::proofs::HeldByFullBar::held_is_barred))]
pub fn a_resource_is_held_where_it_has_a_full_bar()
    ensures { HeldIsBarred }
{}

/// Of the rows of a drawing just those last beyond the last event, as a resource that is not handed out or a
/// lease that is not returned, whose resource leaks or whose lease is out.
#[tactic(auto, using(crate::proofs::LeakingRows::leaks_are_drawn))]
pub fn a_row_is_leaking_where_its_resource_leaks()
    ensures { LeaksAreDrawn }
{}

/// Of a lawful history just those resources leak that are held or wait.
#[tactic(auto, using(crate::proofs::LeakingRows::leaks_are_left))]
pub fn what_leaks_is_held_or_waits()
    ensures { LeaksAreLeft }
{}
