//! Tasks, one after another.

ghost use Rattle.std.specs.Prelude.{IfOk, OnErr};
ghost use Rattle.rx_scenario.specs.Scenario.{command_of};
ghost use Rattle.rx_line.specs.Orders.{task_of};
ghost use Rattle.rx_live.specs.Session.{session_of, IsSound};
ghost use Rattle.rx_live.specs.Given.{IsUnchanged};
ghost use Rattle.rx_live.specs.Lines.{RunsCommand, DoesTask};

use crate::calls::ask;
use crate::engine::Engine;
use crate::renewing::renew;
use crate::{holder, holding, opening};
use rx_line::{Outcome, Task};
use rx_scenario::Command;
use std::alloc::AllocError;

// Carries a command out.
fn run(engine: &mut Engine, command: Command) -> Result<Outcome, AllocError>
    requires { IsSound (session_of engine.old) }
    ensures ok { IfOk result (λ o. RunsCommand (session_of engine.old) (command_of command) o (session_of engine.new)) }
    ensures err { OnErr result (IsUnchanged (session_of engine.old) (session_of engine.new)) }
    ensures sound { IsSound (session_of engine.new) }
{
    match command {
        Command::Using { name, place, res } => opening::using(engine, name, &place, res),
        Command::Open { name, place, kind } => opening::open(engine, name, &place, kind),
        Command::Hold { node, res } => holding::hold(engine, node.as_str(), res),
        Command::Lease { res, name } => holding::lease(engine, res.as_str(), name),
        Command::Return { lease } => holding::give_back(engine, lease.as_str()),
        Command::Hub { name, mode } => holding::hub(engine, name, mode),
        Command::Connect { hub, name } => opening::connect(engine, hub.as_str(), name),
        Command::Drain => Ok(Outcome::Accepted),
        Command::Checkpoint => renew(engine),
        other => ask(engine, &other),
    }
}

/// Carries a task out. Err where memory is refused, and then nothing has changed.
pub fn act(engine: &mut Engine, task: Task) -> Result<Outcome, AllocError>
    requires { IsSound (session_of engine.old) }
    ensures ok { IfOk result (λ o. DoesTask (session_of engine.old) (task_of task) o (session_of engine.new)) }
    ensures err { OnErr result (IsUnchanged (session_of engine.old) (session_of engine.new)) }
    ensures sound { IsSound (session_of engine.new) }
{
    match task {
        Task::Command(command) => run(engine, command),
        Task::OpenHolding {
            name,
            place,
            kind,
            res,
        } => holder::open_holding(engine, name, &place, kind, res),
    }
}
