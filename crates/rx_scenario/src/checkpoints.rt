//! Which scenarios make checkpoints.

ghost use Rattle.std.specs.Prelude.{◌≡◌, map};
ghost use Rattle.rx_scenario.specs.Scenario.{action_of, step_of, steps_of};
ghost use Rattle.rx_scenario.specs.Checkpoints.{is_checkpoint_command, has_checkpoint};

use crate::scenario::{Action, Command, Step};

fn is_checkpoint_command(action: &Action) -> bool
    ensures { result ≡ is_checkpoint_command (action_of action.now) }
{
    matches!(action, Action::Command(Command::Checkpoint))
}

/// Whether one of these steps, or one that follows one of them at whatever depth, makes a checkpoint. It
/// does not matter whether that step would ever be executed. It takes no memory.
pub fn has_checkpoint(steps: &[Step]) -> bool
    ensures { result ≡ has_checkpoint (steps_of (map step_of steps.now)) }
{
    for step in steps {
        if is_checkpoint_command(&step.action) || has_checkpoint(&step.then) {
            return true;
        }
    }
    false
}
