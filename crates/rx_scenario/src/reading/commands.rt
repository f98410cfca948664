//! What a step does, by its member `do`.

ghost use Rattle.rx_device.specs.Part.{part_data};
ghost use Rattle.rx_scenario.specs.Scenario.{command_of as command_meant, action_of as action_meant};
ghost use Rattle.rx_device.specs.Gives.{Gives};
ghost use Rattle.rx_scenario.specs.Reading.{using_command_of, open_command_of, hold_of, apply_of, remove_of, lease_command_of, return_of};
ghost use Rattle.rx_scenario.specs.Reading.{next_of, end_command_of, abort_of, decline_of, fail_of, dispose_of, hub_of};
ghost use Rattle.rx_scenario.specs.Reading.{connect_of, disconnect_of, drain_of, checkpoint_of};
ghost use Rattle.rx_scenario.specs.Reading.{book_command_by, node_command_by, command_by, cancel_of, action_by, action_in};

use super::members::{
    code_in, is_step_of, kind_in, mode_in, name_in, optional_name_in, site_in, terminal_in,
    value_in, word_in,
};
use crate::scenario::{Action, Command};
use rx_device::{Part, ShapeError};
use std::alloc::Global;

#[tactic(auto, unfolding(crate::specs::Reading::using_command_of))]
fn using_command_of(alloc: Global, object: Part<'_, '_>) -> Result<Command, ShapeError>
    ensures { Gives command_meant result (using_command_of (part_data object.entry)) }
{
    if !is_step_of(object, &["name", "place", "of", "res"]) {
        return Err(ShapeError::Shape);
    }
    let name = name_in(alloc, object, "name")?;
    let place = site_in(alloc, object)?;
    let res = name_in(alloc, object, "res")?;
    Ok(Command::Using { name, place, res })
}

#[tactic(auto, unfolding(crate::specs::Reading::open_command_of))]
fn open_command_of(alloc: Global, object: Part<'_, '_>) -> Result<Command, ShapeError>
    ensures { Gives command_meant result (open_command_of (part_data object.entry)) }
{
    if !is_step_of(
        object,
        &["name", "place", "of", "kind", "hub", "connection"],
    ) {
        return Err(ShapeError::Shape);
    }
    let name = name_in(alloc, object, "name")?;
    let place = site_in(alloc, object)?;
    let kind = kind_in(alloc, object)?;
    Ok(Command::Open { name, place, kind })
}

#[tactic(auto, unfolding(crate::specs::Reading::hold_of))]
fn hold_of(alloc: Global, object: Part<'_, '_>) -> Result<Command, ShapeError>
    ensures { Gives command_meant result (hold_of (part_data object.entry)) }
{
    if !is_step_of(object, &["node", "res"]) {
        return Err(ShapeError::Shape);
    }
    let node = name_in(alloc, object, "node")?;
    let res = name_in(alloc, object, "res")?;
    Ok(Command::Hold { node, res })
}

#[tactic(auto, unfolding(crate::specs::Reading::apply_of))]
fn apply_of(alloc: Global, object: Part<'_, '_>) -> Result<Command, ShapeError>
    ensures { Gives command_meant result (apply_of (part_data object.entry)) }
{
    if !is_step_of(object, &["res", "word"]) {
        return Err(ShapeError::Shape);
    }
    let res = name_in(alloc, object, "res")?;
    let word = word_in(object)?;
    Ok(Command::Apply { res, word })
}

#[tactic(auto, unfolding(crate::specs::Reading::remove_of))]
fn remove_of(alloc: Global, object: Part<'_, '_>) -> Result<Command, ShapeError>
    ensures { Gives command_meant result (remove_of (part_data object.entry)) }
{
    if !is_step_of(object, &["res"]) {
        return Err(ShapeError::Shape);
    }
    let res = name_in(alloc, object, "res")?;
    Ok(Command::Remove { res })
}

#[tactic(auto, unfolding(crate::specs::Reading::lease_command_of))]
fn lease_command_of(alloc: Global, object: Part<'_, '_>) -> Result<Command, ShapeError>
    ensures { Gives command_meant result (lease_command_of (part_data object.entry)) }
{
    if !is_step_of(object, &["res", "name"]) {
        return Err(ShapeError::Shape);
    }
    let res = name_in(alloc, object, "res")?;
    let name = name_in(alloc, object, "name")?;
    Ok(Command::Lease { res, name })
}

#[tactic(auto, unfolding(crate::specs::Reading::return_of))]
fn return_of(alloc: Global, object: Part<'_, '_>) -> Result<Command, ShapeError>
    ensures { Gives command_meant result (return_of (part_data object.entry)) }
{
    if !is_step_of(object, &["lease"]) {
        return Err(ShapeError::Shape);
    }
    let lease = name_in(alloc, object, "lease")?;
    Ok(Command::Return { lease })
}

#[tactic(auto, unfolding(crate::specs::Reading::next_of))]
fn next_of(alloc: Global, object: Part<'_, '_>) -> Result<Command, ShapeError>
    ensures { Gives command_meant result (next_of (part_data object.entry)) }
{
    if !is_step_of(object, &["node", "value"]) {
        return Err(ShapeError::Shape);
    }
    let node = name_in(alloc, object, "node")?;
    let value = value_in(object)?;
    Ok(Command::Next { node, value })
}

#[tactic(auto, unfolding(crate::specs::Reading::end_command_of))]
fn end_command_of(alloc: Global, object: Part<'_, '_>) -> Result<Command, ShapeError>
    ensures { Gives command_meant result (end_command_of (part_data object.entry)) }
{
    if !is_step_of(object, &["node", "error"]) {
        return Err(ShapeError::Shape);
    }
    let node = name_in(alloc, object, "node")?;
    let terminal = terminal_in(object)?;
    Ok(Command::End { node, terminal })
}

#[tactic(auto, unfolding(crate::specs::Reading::abort_of))]
fn abort_of(alloc: Global, object: Part<'_, '_>) -> Result<Command, ShapeError>
    ensures { Gives command_meant result (abort_of (part_data object.entry)) }
{
    if !is_step_of(object, &["node", "error"]) {
        return Err(ShapeError::Shape);
    }
    let node = name_in(alloc, object, "node")?;
    let code = code_in(object)?;
    Ok(Command::Abort { node, code })
}

#[tactic(auto, unfolding(crate::specs::Reading::decline_of))]
fn decline_of(alloc: Global, object: Part<'_, '_>) -> Result<Command, ShapeError>
    ensures { Gives command_meant result (decline_of (part_data object.entry)) }
{
    if !is_step_of(object, &["node"]) {
        return Err(ShapeError::Shape);
    }
    let node = name_in(alloc, object, "node")?;
    Ok(Command::Decline { node })
}

#[tactic(auto, unfolding(crate::specs::Reading::fail_of))]
fn fail_of(alloc: Global, object: Part<'_, '_>) -> Result<Command, ShapeError>
    ensures { Gives command_meant result (fail_of (part_data object.entry)) }
{
    if !is_step_of(object, &["node", "error"]) {
        return Err(ShapeError::Shape);
    }
    let node = name_in(alloc, object, "node")?;
    let code = code_in(object)?;
    Ok(Command::Fail { node, code })
}

#[tactic(auto, unfolding(crate::specs::Reading::dispose_of))]
fn dispose_of(alloc: Global, object: Part<'_, '_>) -> Result<Command, ShapeError>
    ensures { Gives command_meant result (dispose_of (part_data object.entry)) }
{
    if !is_step_of(object, &["node"]) {
        return Err(ShapeError::Shape);
    }
    let node = name_in(alloc, object, "node")?;
    Ok(Command::Dispose { node })
}

#[tactic(auto, unfolding(crate::specs::Reading::hub_of))]
fn hub_of(alloc: Global, object: Part<'_, '_>) -> Result<Command, ShapeError>
    ensures { Gives command_meant result (hub_of (part_data object.entry)) }
{
    if !is_step_of(object, &["name", "mode"]) {
        return Err(ShapeError::Shape);
    }
    let name = name_in(alloc, object, "name")?;
    let mode = mode_in(object)?;
    Ok(Command::Hub { name, mode })
}

#[tactic(auto, unfolding(crate::specs::Reading::connect_of))]
fn connect_of(alloc: Global, object: Part<'_, '_>) -> Result<Command, ShapeError>
    ensures { Gives command_meant result (connect_of (part_data object.entry)) }
{
    if !is_step_of(object, &["hub", "name"]) {
        return Err(ShapeError::Shape);
    }
    let hub = name_in(alloc, object, "hub")?;
    let name = optional_name_in(alloc, object, "name")?;
    Ok(Command::Connect { hub, name })
}

#[tactic(auto, unfolding(crate::specs::Reading::disconnect_of))]
fn disconnect_of(alloc: Global, object: Part<'_, '_>) -> Result<Command, ShapeError>
    ensures { Gives command_meant result (disconnect_of (part_data object.entry)) }
{
    if !is_step_of(object, &["hub"]) {
        return Err(ShapeError::Shape);
    }
    let hub = name_in(alloc, object, "hub")?;
    Ok(Command::Disconnect { hub })
}

#[tactic(auto, unfolding(crate::specs::Reading::drain_of))]
fn drain_of(object: Part<'_, '_>) -> Result<Command, ShapeError>
    ensures { Gives command_meant result (drain_of (part_data object.entry)) }
{
    if !is_step_of(object, &[]) {
        return Err(ShapeError::Shape);
    }
    Ok(Command::Drain)
}

#[tactic(auto, unfolding(crate::specs::Reading::checkpoint_of))]
fn checkpoint_of(object: Part<'_, '_>) -> Result<Command, ShapeError>
    ensures { Gives command_meant result (checkpoint_of (part_data object.entry)) }
{
    if !is_step_of(object, &[]) {
        return Err(ShapeError::Shape);
    }
    Ok(Command::Checkpoint)
}

// What is done with a hub, or with the book.
#[tactic(auto, unfolding(crate::specs::Reading::book_command_by))]
fn book_command_by(alloc: Global, what: &str, object: Part<'_, '_>) -> Result<Command, ShapeError>
    ensures { Gives command_meant result (book_command_by what.now (part_data object.entry)) }
{
    match what {
        "hub" => hub_of(alloc, object),
        "connect" => connect_of(alloc, object),
        "disconnect" => disconnect_of(alloc, object),
        "drain" => drain_of(object),
        "checkpoint" => checkpoint_of(object),
        _ => Err(ShapeError::Shape),
    }
}

// What is done with a node, or by another word with a hub or the book.
#[tactic(auto, unfolding(crate::specs::Reading::node_command_by))]
fn node_command_by(alloc: Global, what: &str, object: Part<'_, '_>) -> Result<Command, ShapeError>
    ensures { Gives command_meant result (node_command_by what.now (part_data object.entry)) }
{
    match what {
        "open" => open_command_of(alloc, object),
        "next" => next_of(alloc, object),
        "end" => end_command_of(alloc, object),
        "abort" => abort_of(alloc, object),
        "decline" => decline_of(alloc, object),
        "fail" => fail_of(alloc, object),
        "dispose" => dispose_of(alloc, object),
        _ => book_command_by(alloc, what, object),
    }
}

// What is done with a resource, or by another word with anything else.
#[tactic(auto, unfolding(crate::specs::Reading::command_by))]
fn command_by(alloc: Global, what: &str, object: Part<'_, '_>) -> Result<Command, ShapeError>
    ensures { Gives command_meant result (command_by what.now (part_data object.entry)) }
{
    match what {
        "using" => using_command_of(alloc, object),
        "hold" => hold_of(alloc, object),
        "apply" => apply_of(alloc, object),
        "remove" => remove_of(alloc, object),
        "lease" => lease_command_of(alloc, object),
        "return" => return_of(alloc, object),
        _ => node_command_by(alloc, what, object),
    }
}

#[tactic(auto, unfolding(crate::specs::Reading::cancel_of))]
fn cancel_of(alloc: Global, object: Part<'_, '_>) -> Result<Action, ShapeError>
    ensures { Gives action_meant result (cancel_of (part_data object.entry)) }
{
    if !is_step_of(object, &["step"]) {
        return Err(ShapeError::Shape);
    }
    Ok(Action::Cancel(name_in(alloc, object, "step")?))
}

#[tactic(auto, unfolding(crate::specs::Reading::action_by))]
fn action_by(alloc: Global, what: &str, object: Part<'_, '_>) -> Result<Action, ShapeError>
    ensures { Gives action_meant result (action_by what.now (part_data object.entry)) }
{
    match what {
        "cancel" => cancel_of(alloc, object),
        _ => Ok(Action::Command(command_by(alloc, what, object)?)),
    }
}

/// What a step does, by its member `do`: the command, or the `cancel`, that has just the members which
/// docs/reference/scenario.md gives it, beside those that any step may have and which are not read here.
///
/// # Errors
///
/// `Shape` where the value is no such object, exactly; `Memory` where memory for a name is refused.
#[tactic(auto, unfolding(crate::specs::Reading::action_in))]
pub fn action_in(alloc: Global, object: Part<'_, '_>) -> Result<Action, ShapeError>
    ensures { Gives action_meant result (action_in (part_data object.entry)) }
{
    let Some(what) = object.get("do").and_then(Part::as_str) else {
        return Err(ShapeError::Shape);
    };
    action_by(alloc, what, object)
}
