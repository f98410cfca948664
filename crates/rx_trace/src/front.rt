//! The front of a line: its step, its moment, its command and its answer.

ghost use Rattle.std.specs.Prelude.{◌≡◌, ◌++◌, string_bytes, OnOk};
ghost use Rattle.rx_scenario.specs.Scenario.{action_of, command_of};
ghost use Rattle.rx_trace.specs.Line.{step_word, command_word, named_member, subject_text, command_subject, step_text, outcome_text};

use rx_agenda::Answer;
use rx_scenario::{Action, Command};
use rx_script::cause_name;
use std::alloc::AllocError;

// The word of a command.
fn command_word(command: &Command) -> &'static str
    ensures { result.now ≡ command_word (command_of command.now) }
{
    match command {
        Command::Using {
            name: _,
            place: _,
            res: _,
        } => "using",
        Command::Open {
            name: _,
            place: _,
            kind: _,
        } => "open",
        Command::Hold { node: _, res: _ } => "hold",
        Command::Apply { res: _, word: _ } => "apply",
        Command::Remove { res: _ } => "remove",
        Command::Lease { res: _, name: _ } => "lease",
        Command::Return { lease: _ } => "return",
        Command::Next { node: _, value: _ } => "next",
        Command::End {
            node: _,
            terminal: _,
        } => "end",
        Command::Abort { node: _, code: _ } => "abort",
        Command::Decline { node: _ } => "decline",
        Command::Fail { node: _, code: _ } => "fail",
        Command::Dispose { node: _ } => "dispose",
        Command::Hub { name: _, mode: _ } => "hub",
        Command::Connect { hub: _, name: _ } => "connect",
        Command::Disconnect { hub: _ } => "disconnect",
        Command::Drain => "drain",
        Command::Checkpoint => "checkpoint",
    }
}

// The word of what a step does.
fn step_word(action: &Action) -> &'static str
    ensures { result.now ≡ step_word (action_of action.now) }
{
    match action {
        Action::Command(command) => command_word(command),
        Action::Cancel(_) => "cancel",
    }
}

// Writes a member that is a name.
#[tactic(auto, unfolding(crate::specs::Line::named_member))]
fn push_named(text: &mut String, key: &str, name: &str) -> Result<(), AllocError>
    ensures { OnOk result (string_bytes text.new ≡ string_bytes text.old ++ named_member key.now name.now) }
{
    write!(text, ",\"{key}\":\"{name}\"")
}

// Writes what a command is about, under the member that a scenario has for it.
fn push_command_subject(text: &mut String, command: &Command) -> Result<(), AllocError>
    ensures { OnOk result (string_bytes text.new ≡ string_bytes text.old ++ command_subject (command_of command.now)) }
{
    match command {
        Command::Using {
            name,
            place: _,
            res: _,
        } => push_named(text, "name", name.as_str()),
        Command::Open {
            name,
            place: _,
            kind: _,
        } => push_named(text, "name", name.as_str()),
        Command::Hold { node, res: _ } => push_named(text, "node", node.as_str()),
        Command::Apply { res, word: _ } => push_named(text, "res", res.as_str()),
        Command::Remove { res } => push_named(text, "res", res.as_str()),
        Command::Lease { res, name: _ } => push_named(text, "res", res.as_str()),
        Command::Return { lease } => push_named(text, "lease", lease.as_str()),
        Command::Next { node, value: _ } => push_named(text, "node", node.as_str()),
        Command::End { node, terminal: _ } => push_named(text, "node", node.as_str()),
        Command::Abort { node, code: _ } => push_named(text, "node", node.as_str()),
        Command::Decline { node } => push_named(text, "node", node.as_str()),
        Command::Fail { node, code: _ } => push_named(text, "node", node.as_str()),
        Command::Dispose { node } => push_named(text, "node", node.as_str()),
        Command::Hub { name, mode: _ } => push_named(text, "name", name.as_str()),
        Command::Connect { hub, name: _ } => push_named(text, "hub", hub.as_str()),
        Command::Disconnect { hub } => push_named(text, "hub", hub.as_str()),
        Command::Drain => Ok(()),
        Command::Checkpoint => Ok(()),
    }
}

// Writes what a step is about.
fn push_subject(text: &mut String, action: &Action) -> Result<(), AllocError>
    ensures { OnOk result (string_bytes text.new ≡ string_bytes text.old ++ subject_text (action_of action.now)) }
{
    match action {
        Action::Command(command) => push_command_subject(text, command),
        Action::Cancel(label) => push_named(text, "label", label.as_str()),
    }
}

/// Writes the front of the line of the step that is executed as this one, counted from 0, at this moment.
#[tactic(auto, unfolding(crate::specs::Line::step_text))]
pub fn push_front(
    text: &mut String,
    executed: usize,
    at: u64,
    action: &Action,
) -> Result<(), AllocError>
    ensures { OnOk result (string_bytes text.new ≡ string_bytes text.old ++ step_text executed at (action_of action.now)) }
{
    let word = step_word(action);
    write!(text, "{{\"step\":{executed},\"at\":{at},\"do\":\"{word}\"")?;
    push_subject(text, action)
}

/// Writes the answer of a step that came when the history had so many events.
#[tactic(auto, unfolding(crate::specs::Line::outcome_text))]
pub fn push_outcome(text: &mut String, answer: Answer, place: u64) -> Result<(), AllocError>
    ensures { OnOk result (string_bytes text.new ≡ string_bytes text.old ++ outcome_text answer place) }
{
    match answer {
        Answer::Accepted => write!(text, ",\"ok\":{place}"),
        Answer::Refused(why) => push_named(text, "refused", cause_name(why)),
    }
}
