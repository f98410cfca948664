//! Commands that make a call of the book as a value, and give or free no name.

ghost use Rattle.std.specs.Prelude.{◌≡◌, ◌≢◌, true, Err, IfOk, OnErr};
ghost use Rattle.rx_event.specs.declared.refusal.Refusal.{Refusal};
ghost use Rattle.rx_scenario.specs.Scenario.{command_of};
ghost use Rattle.rx_line.specs.declared.outcome.Cause.TheVariants.{Book};
ghost use Rattle.rx_line.specs.declared.outcome.Outcome.TheVariants.{Refused};
ghost use Rattle.rx_live.specs.Session.{session_of, IsSound};
ghost use Rattle.rx_live.specs.Carried.{outcome_of};
ghost use Rattle.rx_live.specs.KeyedCalls.{keeps_names, call_by_keys};
ghost use Rattle.rx_live.specs.Lines.{RunsCommand};

use crate::engine::Engine;
use rx_book::{Call, Refusal};
use rx_line::{Cause, Outcome};
use rx_scenario::Command;
use std::alloc::AllocError;

/// What a call of the book is answered; want of memory is no answer.
pub fn answered<T: Drop>(answer: Result<T, Refusal>) -> Result<Outcome, AllocError>
    ensures ok { IfOk result (λ o. o ≡ outcome_of answer) }
    ensures err { OnErr result (answer ≡ Err Refusal.NoMemory) }
    ensures want { IfOk result (λ o. o ≢ Refused (Book Refusal.NoMemory)) }
{
    match answer {
        Ok(_) => Ok(Outcome::Accepted),
        Err(Refusal::NoMemory) => Err(AllocError),
        Err(why) => Ok(Outcome::Refused(Cause::Book(why))),
    }
}

/// The call that a command makes, with keys in place of names; None where a name is not bound, and of a command
/// that makes none, hands a resource in, or gives or frees a name.
fn call_by_keys(engine: &Engine, command: &Command) -> Option<Call>
    ensures { result ≡ call_by_keys (session_of engine.now) (command_of command.now) }
{
    match command {
        Command::Apply { res, word } => Some(Call::Apply(engine.resource(res.as_str())?, *word)),
        Command::Remove { res } => engine.resource(res.as_str()).map(Call::Remove),
        Command::Next { node, value } => Some(Call::Next(engine.node(node.as_str())?, *value)),
        Command::End { node, terminal } => {
            Some(Call::End(engine.node(node.as_str())?, *terminal))
        }
        Command::Abort { node, code } => Some(Call::Abort(engine.node(node.as_str())?, *code)),
        Command::Decline { node } => engine.node(node.as_str()).map(Call::Decline),
        Command::Fail { node, code } => Some(Call::Fail(engine.node(node.as_str())?, *code)),
        Command::Dispose { node } => engine.node(node.as_str()).map(Call::Dispose),
        Command::Disconnect { hub } => engine.hub_by_name(hub.as_str()).map(Call::Disconnect),
        _ => None,
    }
}

/// Makes the call of a command.
pub fn ask(engine: &mut Engine, command: &Command) -> Result<Outcome, AllocError>
    requires sound { IsSound (session_of engine.old) }
    requires asked { keeps_names (command_of command.now) ≡ true }
    ensures ok { IfOk result (λ o. RunsCommand (session_of engine.old) (command_of command.now) o (session_of engine.new)) }
    ensures err { OnErr result (session_of engine.new ≡ session_of engine.old) }
    ensures sound { IsSound (session_of engine.new) }
    ensures want { IfOk result (λ o. o ≢ Refused (Book Refusal.NoMemory)) }
{
    let Some(call) = call_by_keys(engine, command) else {
        return Ok(Outcome::Refused(Cause::NoName));
    };
    let answer = engine.book.ask(call);
    engine.book.promise();
    answered(answer)
}
