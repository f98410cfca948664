//! The words of the formats, in lists, beside those of `rx_scenario`.

/// What a step may do.
pub const COMMANDS: &str =
    "using, open, hold, apply, remove, lease, return, next, end, abort, decline, fail, dispose, hub, connect, disconnect, drain, checkpoint, cancel";

/// The members that every step may have.
pub const OF_STEPS: &str = "do, label, at, after, then";

/// The members of a scenario.
pub const OF_SCENARIOS: &str = "steps, events, until";

/// How a node ends in a dump.
pub const ENDS: &str = "completed, error";

/// What an event of a dump is.
pub const EVENTS: &str =
    "open, hub, connect, accept, use, remove, lease, return, item, decline, end, close, take";

/// The members of a command, beside those that every step may have; none where it is no command.
pub fn members_of(command: &str) -> &'static str {
    if command == "cancel" {
        return "step";
    }
    rx_scenario::members_of(command).unwrap_or("")
}
