//! Commands that give a name to a resource, a lease or a hub, and the one that gives a lease back.

ghost use Rattle.std.specs.Prelude.{◌≢◌, Some, false, is_some, option_map, string_bytes, IfOk, OnErr};
ghost use Rattle.rx_book.specs.Requests.{lease_request, give_back_request, hub_request};
ghost use Rattle.rx_event.specs.declared.refusal.Refusal.{Refusal};
ghost use Rattle.rx_line.specs.declared.outcome.Cause.TheVariants.{Book};
ghost use Rattle.rx_line.specs.declared.outcome.Outcome.TheVariants.{Refused};
ghost use Rattle.rx_live.specs.Session.{session_of, node_by_name, resource_by_name, lease_by_name, hub_by_name, has_resource, IsSound};
ghost use Rattle.rx_live.specs.Given.{GivesNames, IsUnchanged, BindsResource, BindsLease, BindsHub, FreesLease, hold_asked};

use crate::calls::answered;
use crate::engine::Engine;
use rx_book::{LeaseKey, ResKey};
use rx_event::Mode;
use rx_line::{Cause, Outcome, Spot, Twice};
use rx_resource::Token;
use std::alloc::AllocError;

/// A node holds a resource of the caller's.
pub fn hold(engine: &mut Engine, node: &str, res: String) -> Result<Outcome, AllocError>
    requires { IsSound (session_of engine.old) }
    ensures ok { IfOk result (λ o. GivesNames (session_of engine.old)
        (option_map (hold_asked engine.old.book) (node_by_name (session_of engine.old) node.now))
        (has_resource (session_of engine.old) (string_bytes res))
        (BindsResource (session_of engine.old) (string_bytes res)) o (session_of engine.new)) }
    ensures err { OnErr result (IsUnchanged (session_of engine.old) (session_of engine.new)) }
    ensures want { IfOk result (λ o. o ≢ Refused (Book Refusal.NoMemory)) }
{
    let Some(key) = engine.node(node) else {
        return Ok(Outcome::Refused(Cause::NoName));
    };
    if engine.has_resource(res.as_str()) {
        return Ok(Outcome::Refused(Cause::NameTaken));
    }
    let res = Twice::new(res)?;
    engine.resources.make_room()?;
    let token = Token::new(engine.book.len());
    match engine.book.hold(key, token) {
        Ok(held) => {
            engine.book.promise();
            let spot = Spot {
                slot: held.slot,
                number: held.number,
            };
            engine.resources.bind(res, spot);
            Ok(Outcome::Accepted)
        }
        Err(unheld) => answered::<ResKey>(Err(unheld.why)),
    }
}

/// A lease of an owned resource is given out.
pub fn lease(engine: &mut Engine, res: &str, name: String) -> Result<Outcome, AllocError>
    requires { IsSound (session_of engine.old) }
    ensures ok { IfOk result (λ o. GivesNames (session_of engine.old)
        (option_map (lease_request engine.old.book) (resource_by_name (session_of engine.old) res.now))
        (is_some (lease_by_name (session_of engine.old) (string_bytes name)))
        (BindsLease (session_of engine.old) (string_bytes name)) o (session_of engine.new)) }
    ensures err { OnErr result (IsUnchanged (session_of engine.old) (session_of engine.new)) }
    ensures want { IfOk result (λ o. o ≢ Refused (Book Refusal.NoMemory)) }
{
    let Some(key) = engine.resource(res) else {
        return Ok(Outcome::Refused(Cause::NoName));
    };
    if engine.lease_by_name(name.as_str()).is_some() {
        return Ok(Outcome::Refused(Cause::NameTaken));
    }
    let name = Twice::new(name)?;
    engine.leases.make_room()?;
    match engine.book.lease(key) {
        Ok(lease) => {
            engine.book.promise();
            let spot = Spot {
                slot: lease.slot,
                number: lease.number,
            };
            engine.leases.bind(name, spot);
            Ok(Outcome::Accepted)
        }
        Err(why) => answered::<LeaseKey>(Err(why)),
    }
}

/// A lease is given back, and its name is free again.
pub fn give_back(engine: &mut Engine, lease: &str) -> Result<Outcome, AllocError>
    requires { IsSound (session_of engine.old) }
    ensures ok { IfOk result (λ o. GivesNames (session_of engine.old)
        (option_map (give_back_request engine.old.book) (lease_by_name (session_of engine.old) lease.now))
        false (FreesLease (session_of engine.old) lease.now) o (session_of engine.new)) }
    ensures err { OnErr result (IsUnchanged (session_of engine.old) (session_of engine.new)) }
    ensures want { IfOk result (λ o. o ≢ Refused (Book Refusal.NoMemory)) }
{
    let Some(key) = engine.lease_by_name(lease) else {
        return Ok(Outcome::Refused(Cause::NoName));
    };
    match engine.book.give_back(key) {
        Ok(_place) => {
            engine.book.promise();
            let _name = engine.leases.forget(key.number);
            Ok(Outcome::Accepted)
        }
        Err(why) => answered::<u64>(Err(why)),
    }
}

/// A hub is made.
pub fn hub(engine: &mut Engine, name: String, mode: Mode) -> Result<Outcome, AllocError>
    requires { IsSound (session_of engine.old) }
    ensures ok { IfOk result (λ o. GivesNames (session_of engine.old) (Some (hub_request mode))
        (is_some (hub_by_name (session_of engine.old) (string_bytes name)))
        (BindsHub (session_of engine.old) (string_bytes name)) o (session_of engine.new)) }
    ensures err { OnErr result (IsUnchanged (session_of engine.old) (session_of engine.new)) }
    ensures want { IfOk result (λ o. o ≢ Refused (Book Refusal.NoMemory)) }
{
    if engine.hub_by_name(name.as_str()).is_some() {
        return Ok(Outcome::Refused(Cause::NameTaken));
    }
    let name = Twice::new(name)?;
    engine.hubs.make_room()?;
    match engine.book.hub(mode) {
        Ok(number) => {
            engine.book.promise();
            engine.hubs.bind(name, Spot { slot: 0, number });
            Ok(Outcome::Accepted)
        }
        Err(why) => answered::<u64>(Err(why)),
    }
}
