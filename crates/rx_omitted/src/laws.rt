//! What the gate has proved of leaving events out.

ghost use Rattle.rx_event.specs.Kept.{Kept};
ghost use Rattle.rx_omitted.specs.Claims.{BasesHaveOwnPlaces, CallsThatStayGoTheSame, ItemsMayBeOmitted};
ghost use Rattle.rx_omitted.specs.Claims.{LeavesMayBeOmitted, OmittingChangesNothingElse};

/// A lawful history without what may be left out is lawful, and all that stays comes to the same.
pub fn omitting_changes_nothing_else()
    ensures { (base : Kept) → OmittingChangesNothingElse base }
{}

/// Of calls one after another those that stay lead, without the others, to what stays of where all led.
pub fn calls_that_stay_go_the_same()
    ensures { (base : Kept) → CallsThatStayGoTheSame base }
{}

/// An item that is only heard may be left out, and each node that it does not reach was told the same.
pub fn an_item_only_heard_may_be_omitted()
    ensures { (base : Kept) → ItemsMayBeOmitted base }
{}

/// All of a root that is a leaf and holds nothing may be left out, and each other node was told the same.
pub fn a_lone_leaf_may_be_omitted()
    ensures { (base : Kept) → LeavesMayBeOmitted base }
{}

/// The laws hold over the empty base and over each base that a checkpoint makes.
pub fn bases_have_own_places()
    ensures { BasesHaveOwnPlaces }
{}
