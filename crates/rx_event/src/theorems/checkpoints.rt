//! Checkpoints.

ghost use Rattle.rx_event.specs.Claims.Checkpoints.{CheckpointsAgree};

/// A history may begin with the base of a settled one, which agrees with it: both go on by the same
/// events, with the same stops and notes, and owe the same to their closing.
pub fn checkpoints_change_nothing()
    ensures { CheckpointsAgree }
{}
