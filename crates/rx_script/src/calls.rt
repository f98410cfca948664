//! One command of a scenario, carried out; most make a call of the book as a value.

ghost use Rattle.std.specs.Prelude.{◌≡◌, true, false, IfOk, OnOk};
ghost use Rattle.rx_scenario.specs.Scenario.{command_of};
ghost use Rattle.rx_script.specs.KeyedCalls.{is_asked, keyed_call, rebinds, with_given};
ghost use Rattle.rx_script.specs.Engine.{IsSound, CarriesStep};

use crate::engine::{Engine, checkpoint, drain, hold, place_of, refused, using};
use crate::opening::{
    bind_connection, connection_name, is_connection_bound, is_named_twice, kind_by_hubs,
};
use rx_agenda::{Answer, Cause};
use rx_book::{Answer as Given, Call};
use rx_resource::Resource;
use rx_scenario::Command;
use std::alloc::AllocError;

// The call that a command makes, with keys in place of names; None where a name is not bound, and of a command
// that makes none, or hands a resource in.
fn keyed_call<R: Resource>(engine: &Engine<R>, command: &Command) -> Option<Call>
    ensures { result ≡ keyed_call engine.now (command_of command.now) }
{
    let nodes = &engine.nodes;
    let resources = &engine.resources;
    match command {
        Command::Open {
            name: _,
            place,
            kind,
        } => { Some(Call::Open(place_of(nodes, place)?, kind_by_hubs(&engine.hubs, kind)?)) }
        Command::Apply { res, word } => Some(Call::Apply(resources.get(res.as_str())?, *word)),
        Command::Remove { res } => resources.get(res.as_str()).map(Call::Remove),
        Command::Lease { res, name: _ } => resources.get(res.as_str()).map(Call::Lease),
        Command::Return { lease } => engine.leases.get(lease.as_str()).map(Call::GiveBack),
        Command::Next { node, value } => Some(Call::Next(nodes.get(node.as_str())?, *value)),
        Command::End { node, terminal } => Some(Call::End(nodes.get(node.as_str())?, *terminal)),
        Command::Abort { node, code } => Some(Call::Abort(nodes.get(node.as_str())?, *code)),
        Command::Decline { node } => nodes.get(node.as_str()).map(Call::Decline),
        Command::Fail { node, code } => Some(Call::Fail(nodes.get(node.as_str())?, *code)),
        Command::Dispose { node } => nodes.get(node.as_str()).map(Call::Dispose),
        Command::Hub { name: _, mode } => Some(Call::Hub(*mode)),
        Command::Connect { hub, name: _ } => engine.hubs.get(hub.as_str()).map(Call::Connect),
        Command::Disconnect { hub } => engine.hubs.get(hub.as_str()).map(Call::Disconnect),
        _ => None,
    }
}

// Whether a command would bind a name that is bound, or one name twice.
fn rebinds<R: Resource>(engine: &Engine<R>, command: &Command) -> bool
    ensures { result ≡ rebinds engine.now.nodes engine.now.hubs engine.now.leases (command_of command.now) }
{
    match command {
        Command::Open {
            name,
            place: _,
            kind,
        } => {
            engine.nodes.is_bound(name.as_str())
                || is_named_twice(&engine.nodes, name.as_str(), kind)
        }
        Command::Lease { res: _, name } => engine.leases.is_bound(name.as_str()),
        Command::Hub { name, mode: _ } => engine.hubs.is_bound(name.as_str()),
        Command::Connect { hub: _, name } => is_connection_bound(&engine.nodes, name),
        _ => false,
    }
}

// Binds the name that a command gives to what its call gave: where it opens a subscriber for which its hub is
// connected, the connection gets a name too, if the step gives it one. Err where memory is refused.
fn bind<R: Resource>(
    engine: &mut Engine<R>,
    command: Command,
    given: Given,
) -> Result<(), AllocError>
    requires { rebinds engine.old.nodes engine.old.hubs engine.old.leases (command_of command) ≡ false }
    ensures { OnOk result (engine.new ≡ with_given engine.old command given) }
{
    match command {
        Command::Open {
            name,
            place: _place,
            kind,
        } => match given {
            Given::Opened(opened) => {
                engine.nodes.bind(name, opened.key)?;
                bind_connection(&mut engine.nodes, connection_name(kind), opened.connected)
            }
            _ => Ok(()),
        },
        Command::Lease { res: _res, name } => match given {
            Given::Leased(lease) => engine.leases.bind(name, lease),
            _ => Ok(()),
        },
        Command::Hub { name, mode: _ } => match given {
            Given::Place(number) => engine.hubs.bind(name, number),
            _ => Ok(()),
        },
        Command::Connect { hub: _hub, name } => match given {
            Given::Connected(connection) => bind_connection(
                &mut engine.nodes,
                name,
                Some(connection),
            ),
            _ => Ok(()),
        },
        other => {
            drop(other);
            Ok(())
        }
    }
}

// Makes the call of a command. Where it ends early, it lets the command go by a call: in place, the drop of each kind of
// command would be proved once more.
fn ask<R: Resource>(engine: &mut Engine<R>, command: Command) -> Result<Answer, AllocError>
    requires sound { IsSound engine.old }
    requires asked { is_asked (command_of command) ≡ true }
    ensures { IfOk result (λ a. CarriesStep engine.old (command_of command) a engine.new) }
{
    let Some(call) = keyed_call(engine, &command) else {
        drop(command);
        return Ok(Answer::Refused(Cause::NoName));
    };
    if rebinds(engine, &command) {
        drop(command);
        return Ok(Answer::Refused(Cause::NameTaken));
    }
    match engine.book.ask(call) {
        Ok(given) => {
            engine.book.promise();
            bind(engine, command, given)?;
            Ok(Answer::Accepted)
        }
        Err(why) => {
            drop(command);
            refused(why)
        }
    }
}

/// Carries out one command. Err where memory was refused; then the scenario goes no further.
pub fn execute<R: Resource>(engine: &mut Engine<R>, command: Command) -> Result<Answer, AllocError>
    requires { IsSound engine.old }
    ensures { IfOk result (λ a. CarriesStep engine.old (command_of command) a engine.new) }
{
    match command {
        Command::Using { name, place, res } => using(engine, name, &place, res),
        Command::Hold { node, res } => hold(engine, node.as_str(), res),
        Command::Drain => {
            drain(engine);
            Ok(Answer::Accepted)
        }
        Command::Checkpoint => checkpoint(engine),
        other => ask(engine, other),
    }
}
