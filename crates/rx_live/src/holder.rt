//! Opening a node that holds a resource from then on.

ghost use Rattle.std.specs.Prelude.{◌≢◌, Some, option_map, string_bytes, IfOk, OnErr};
ghost use Rattle.rx_scenario.specs.Scenario.{site_of, sort_of};
ghost use Rattle.rx_event.specs.declared.refusal.Refusal.TheVariants.{NoMemory};
ghost use Rattle.rx_line.specs.declared.outcome.Cause.{Cause as CauseOf};
ghost use Rattle.rx_line.specs.declared.outcome.Outcome.TheVariants.{Refused};
ghost use Rattle.rx_live.specs.Session.{session_of, IsSound};
ghost use Rattle.rx_live.specs.Given.{IsUnchanged};
ghost use Rattle.rx_live.specs.Openings.{connection_asked, holder_at, holder_asked, is_holder_taken, GivesHolder, BindsHolder};

use crate::calls::answered;
use crate::engine::Engine;
use crate::opening::{
    are_taken, bind_made, connection_name, kind_of_sort, place_at, spot_of, twice,
};
use rx_book::{At, OpenedHolding};
use rx_event::Kind;
use rx_line::{Cause, Outcome, Spot, Twice};
use rx_resource::Token;
use rx_scenario::{Site, Sort};
use std::alloc::AllocError;

// A node is opened at a place, and holds a resource.
fn open_holding_at(
    engine: &mut Engine,
    name: String,
    connection: Option<String>,
    place: At,
    kind: Kind,
    res: String,
) -> Result<Outcome, AllocError>
    requires { IsSound (session_of engine.old) }
    ensures ok { IfOk result (λ o. GivesHolder (session_of engine.old) (Some (holder_at place kind))
        (is_holder_taken (session_of engine.old) (string_bytes name) (option_map string_bytes connection) (string_bytes res))
        (BindsHolder (session_of engine.old) (string_bytes name) (option_map string_bytes connection) (string_bytes res)) o (session_of engine.new)) }
    ensures err { OnErr result (IsUnchanged (session_of engine.old) (session_of engine.new)) }
    ensures want { IfOk result (λ o. o ≢ Refused (CauseOf.Book NoMemory)) }
{
    if engine.has_resource(res.as_str()) {
        return Ok(Outcome::Refused(Cause::NameTaken));
    }
    if are_taken(
        &engine.book,
        &mut engine.nodes,
        &engine.untold,
        name.as_str(),
        &connection,
    ) {
        return Ok(Outcome::Refused(Cause::NameTaken));
    }
    let name = Twice::new(name)?;
    let connection = twice(connection)?;
    let res = Twice::new(res)?;
    engine.nodes.make_room()?;
    engine.resources.make_room()?;
    let token = Token::new(engine.book.len());
    match engine.book.open_holding(place, kind, token) {
        Ok(held) => {
            engine.book.promise();
            engine.nodes.bind(name, spot_of(held.opened.key));
            bind_made(&mut engine.nodes, connection, held.opened.connected);
            let spot = Spot {
                slot: held.res.slot,
                number: held.res.number,
            };
            engine.resources.bind(res, spot);
            Ok(Outcome::Accepted)
        }
        Err(unheld) => answered::<OpenedHolding>(Err(unheld.why)),
    }
}

/// A node is opened, and holds a resource of the caller's from then on. A connection that this makes gets the
/// name that the line gives it, if it gives one.
pub fn open_holding(
    engine: &mut Engine,
    name: String,
    site: &Site,
    sort: Sort,
    res: String,
) -> Result<Outcome, AllocError>
    requires { IsSound (session_of engine.old) }
    ensures ok { IfOk result (λ o. GivesHolder (session_of engine.old)
        (holder_asked (session_of engine.old) (site_of site.now) (sort_of sort))
        (is_holder_taken (session_of engine.old) (string_bytes name) (connection_asked (sort_of sort)) (string_bytes res))
        (BindsHolder (session_of engine.old) (string_bytes name) (connection_asked (sort_of sort)) (string_bytes res)) o
        (session_of engine.new)) }
    ensures err { OnErr result (IsUnchanged (session_of engine.old) (session_of engine.new)) }
    ensures want { IfOk result (λ o. o ≢ Refused (CauseOf.Book NoMemory)) }
{
    let kind = kind_of_sort(engine, &sort);
    let connection = connection_name(sort);
    let Some(place) = place_at(engine, site) else {
        return Ok(Outcome::Refused(Cause::NoName));
    };
    let Some(kind) = kind else {
        return Ok(Outcome::Refused(Cause::NoName));
    };
    open_holding_at(engine, name, connection, place, kind, res)
}
