//! What the gate has proved of the order of steps.

ghost use Rattle.rx_agenda.specs.Claims.{RunsAreInOrder, OrderIsDetermined, HeadsComeFirst};

/// The steps of a scenario come in the order that the comparison defines: by moment, then by the order
/// in which they were scheduled, and within a turn likewise; and missing are just those below a refused
/// step, those of moments after the end, the cancelled ones, and what is below those. So it is for
/// every scenario and whatever its steps are answered.
pub fn runs_are_in_order()
    ensures { RunsAreInOrder }
{}

/// The answers determine the order: two lists of executed steps that are both in the order of the
/// comparison, and whose answers agree as far as both go, are one.
pub fn order_is_determined()
    ensures { OrderIsDetermined }
{}

/// In that order the step that heads a turn comes before the others of its turn.
pub fn heads_come_first()
    ensures { HeadsComeFirst }
{}
