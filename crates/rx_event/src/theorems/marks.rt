//! What nodes remember.

ghost use Rattle.rx_event.specs.Kept.{Kept};
ghost use Rattle.rx_event.specs.Claims.Marks.{MarksSayWhatIsDue};

/// What an operator has to do at an open node of a lawful history is what the marks of the node say:
/// they say nothing else, and where they say nothing only the end of a connection ends the node. All
/// that is due at one moment ends in one way. So a history in which no marks say anything and no
/// hub's rule is left undone is settled.
pub fn marks_say_what_is_due()
    ensures { (base : Kept) → MarksSayWhatIsDue base }
{}
