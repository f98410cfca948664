//! Commands that take no memory: carried out and answered without any.

ghost use Rattle.std.specs.Prelude.{◌≡◌, ◌≤◌, true, false, option_map, string_bytes};
ghost use Rattle.std.specs.String.{string_capacity};
ghost use Rattle.rx_line.specs.FreeCommands.{free_command_of};
ghost use Rattle.rx_line.specs.Orders.{plain};
ghost use Rattle.rx_live.specs.Session.{session_of, lease_by_name, IsSound};
ghost use Rattle.rx_live.specs.Closings.{asked_node, is_call};
ghost use Rattle.rx_live.specs.Carried.{outcome_of};
ghost use Rattle.rx_live.specs.Given.{GivesNames, FreesLease};
ghost use Rattle.rx_book.specs.Requests.{give_back_request};
ghost use Rattle.rx_live.specs.KeyedCalls.{keeps_names, call_by_keys};
ghost use Rattle.rx_live.specs.Lines.{RunsCommand, CarriesOut};
ghost use Rattle.rx_live.specs.Taken.{WritesAnswer};
ghost use Rattle.rx_live.specs.Room.{HasRoom};

use crate::closed::{Closing, number_of, push_closed};
use crate::engine::Engine;
use crate::sending::tell;
use rx_book::{Answer, Call, Refusal, Terminal};
use rx_line::{Cause, FreeCommand, Outcome, put_ok, put_refused};

// The call that a command makes, with keys in place of names; None where a name is not bound, and of one that makes none or
// frees a name.
fn call_by_keys(engine: &Engine, command: FreeCommand<'_>) -> Option<Call>
    ensures { result ≡ call_by_keys (session_of engine.now) (free_command_of command.entry) }
{
    match command {
        FreeCommand::Remove(res) => engine.resource(res).map(Call::Remove),
        FreeCommand::End(node) => Some(Call::End(engine.node(node)?, Terminal::Completed)),
        FreeCommand::Decline(node) => engine.node(node).map(Call::Decline),
        FreeCommand::Dispose(node) => engine.node(node).map(Call::Dispose),
        FreeCommand::Disconnect(hub) => engine.hub_by_name(hub).map(Call::Disconnect),
        FreeCommand::Return(_) => None,
        FreeCommand::Drain => None,
    }
}

// What a call of the book comes to.
fn outcome_of(answer: Result<Answer, Refusal>) -> Outcome
    ensures { result ≡ outcome_of answer }
{
    match answer {
        Ok(_) => Outcome::Accepted,
        Err(why) => Outcome::Refused(Cause::Book(why)),
    }
}

// Makes the call of a command.
fn ask(engine: &mut Engine, command: FreeCommand<'_>) -> Outcome
    requires sound { IsSound (session_of engine.old) }
    requires asked { keeps_names (free_command_of command) ≡ true }
    ensures runs { RunsCommand (session_of engine.old) (free_command_of command.entry) result (session_of engine.new) }
    ensures sound { IsSound (session_of engine.new) }
{
    let Some(call) = call_by_keys(engine, command) else {
        return Outcome::Refused(Cause::NoName);
    };
    let answer = engine.book.ask(call);
    engine.book.promise();
    outcome_of(answer)
}

// A lease is given back, and its name is free again.
fn give_back(engine: &mut Engine, lease: &str) -> Outcome
    requires { IsSound (session_of engine.old) }
    ensures gives { GivesNames (session_of engine.old)
        (option_map (give_back_request engine.old.book) (lease_by_name (session_of engine.old) lease.now))
        false (FreesLease (session_of engine.old) lease.now) result (session_of engine.new) }
{
    let Some(key) = engine.lease_by_name(lease) else {
        return Outcome::Refused(Cause::NoName);
    };
    match engine.book.give_back(key) {
        Ok(_place) => {
            engine.book.promise();
            let _name = engine.leases.forget(key.number);
            Outcome::Accepted
        }
        Err(why) => Outcome::Refused(Cause::Book(why)),
    }
}

// Carries a command out.
fn run(engine: &mut Engine, command: FreeCommand<'_>) -> Outcome
    requires { IsSound (session_of engine.old) }
    ensures runs { RunsCommand (session_of engine.old) (free_command_of command.entry) result (session_of engine.new) }
    ensures sound { IsSound (session_of engine.new) }
{
    match command {
        FreeCommand::Drain => Outcome::Accepted,
        FreeCommand::Return(lease) => give_back(engine, lease),
        other => ask(engine, other),
    }
}

// What is to be named of what a command will have closed.
fn closing_of(engine: &Engine, command: FreeCommand<'_>) -> Closing
    ensures call { result.is_call ≡ is_call (plain (free_command_of command.entry)) }
    ensures asked { result.asked ≡ asked_node (session_of engine.now) (plain (free_command_of command.entry)) }
{
    let asked = match command {
        FreeCommand::End(node) => number_of(engine, node),
        FreeCommand::Dispose(node) => number_of(engine, node),
        _ => None,
    };
    Closing {
        is_call: command != FreeCommand::Drain,
        asked,
    }
}

/// Carries a command out, and answers it behind a text that has room for what every answer says. What finds no room beside
/// that and no memory is told later.
pub fn carry_out_free(engine: &mut Engine, command: FreeCommand<'_>, text: &mut String)
    requires sound { IsSound (session_of engine.old) }
    requires room { HasRoom 55 text.old }
    ensures ok { WritesAnswer
        (λ t. CarriesOut (session_of engine.old) (plain (free_command_of command.entry)) t (session_of engine.new))
        (string_bytes text.old) (string_bytes text.new) }
    ensures sound { IsSound (session_of engine.new) }
    ensures capacity { string_capacity text.old ≤ string_capacity text.new }
{
    let place = engine.book.len();
    let closing = closing_of(engine, command);
    match run(engine, command) {
        Outcome::Accepted => {
            put_ok(text, place);
            push_closed(engine, text, closing, 0);
            tell(engine, text, 0);
        }
        Outcome::Refused(why) => put_refused(text, why),
    }
}
