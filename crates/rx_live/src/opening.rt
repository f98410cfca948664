//! Commands that open a node.

ghost use Rattle.std.specs.Prelude.{◌≢◌, ◌≡◌, ◌<◌, ◌||◌, Some, None, false, option_map, string_bytes, IfOk, IfSome, OnErr};
ghost use Rattle.std.specs.Str.{bytes_eq};
ghost use Rattle.std.specs.Option.{option_map_or};
ghost use Rattle.rx_scenario.specs.Scenario.{site_of, sort_of};
ghost use Rattle.rx_book.specs.Requests.{open_request, connect_request};
ghost use Rattle.rx_line.specs.Names.{spot_of, name_of_number, room_for_names, IsPaired};
ghost use Rattle.rx_event.specs.declared.refusal.Refusal.TheVariants.{NoMemory};
ghost use Rattle.rx_line.specs.declared.outcome.Cause.{Cause as CauseOf};
ghost use Rattle.rx_line.specs.declared.outcome.Outcome.TheVariants.{Refused};
ghost use Rattle.rx_live.specs.Session.{session_of, is_node_in, hub_by_name, IsSound};
ghost use Rattle.rx_live.specs.Given.{AreOpenSame, GivesNames, IsUnchanged};
ghost use Rattle.rx_live.specs.Openings.{place_at, kind_of_sort, connection_asked, open_asked, using_asked, is_node, is_open_taken, is_using_taken};
ghost use Rattle.rx_live.specs.Openings.{BindsMade, BindsNode, BindsUsing, BindsConnection};

use crate::calls::answered;
use crate::engine::Engine;
use rx_book::{At, Book, Key, Mail, Opened, OpenedUsing};
use rx_event::Kind;
use rx_line::{Cause, Names, Outcome, Spot, Twice};
use rx_resource::Token;
use rx_scenario::{Site, Sort};
use std::alloc::AllocError;

/// The place that a site stands for.
pub fn place_at(engine: &Engine, site: &Site) -> Option<At>
    ensures { result ≡ place_at (session_of engine.now) (site_of site.now) }
{
    match site {
        Site::Root => Some(At::Root),
        Site::Source(name) => Some(At::Source(engine.node(name.as_str())?)),
        Site::Inner(name) => Some(At::Inner(engine.node(name.as_str())?)),
        Site::Notifier(name) => Some(At::Notifier(engine.node(name.as_str())?)),
    }
}

/// The kind that a sort stands for; None where the name of a subscriber's hub is not bound.
pub fn kind_of_sort(engine: &Engine, sort: &Sort) -> Option<Kind>
    ensures { result ≡ kind_of_sort (session_of engine.now) (sort_of sort.now) }
{
    match sort {
        Sort::Leaf => Some(Kind::Leaf),
        Sort::Pass => Some(Kind::Pass),
        Sort::Flat => Some(Kind::Flat),
        Sort::Switch => Some(Kind::Switch),
        Sort::Until => Some(Kind::Until),
        Sort::Sub { hub, connection: _ } => Some(Kind::Sub(engine.hub_by_name(hub.as_str())?)),
    }
}

/// The name for the connection that a subscriber's opening may make.
pub fn connection_name(sort: Sort) -> Option<String>
    ensures { option_map string_bytes result ≡ connection_asked (sort_of sort) }
{
    match sort {
        Sort::Sub {
            hub: _hub,
            connection,
        } => connection,
        _ => None,
    }
}

// Whether a name is a node's. That of a closed one, to which nothing is to be told, is forgotten, so that it
// can be bound.
fn is_taken(book: &Book<Token>, nodes: &mut Names, untold: &Option<Mail>, name: &str) -> bool
    requires { IsPaired nodes.old }
    ensures answer { result ≡ is_node_in untold.now book.now nodes.old name.now }
    ensures same { AreOpenSame untold.now book.now nodes.old nodes.new }
    ensures paired { IsPaired nodes.new }
    ensures free { result ≡ false → spot_of nodes.new name.now ≡ None }
{
    let Some(spot) = nodes.get(name) else {
        return false;
    };
    if untold.is_some() {
        return true;
    }
    let key = Key {
        slot: spot.slot,
        number: spot.number,
    };
    if book.is_open(key) {
        return true;
    }
    let _name = nodes.forget(spot.number);
    false
}

// Whether another node has a name that may be left out.
fn is_other_taken(
    book: &Book<Token>,
    nodes: &mut Names,
    untold: &Option<Mail>,
    name: &Option<String>,
) -> bool
    requires { IsPaired nodes.old }
    ensures answer { result ≡ option_map_or (is_node_in untold.now book.now nodes.old) (option_map string_bytes name.now) false }
    ensures same { AreOpenSame untold.now book.now nodes.old nodes.new }
    ensures paired { IsPaired nodes.new }
    ensures free { result ≡ false → IfSome (option_map string_bytes name.now) (λ n. spot_of nodes.new n ≡ None) }
{
    match name {
        Some(name) => is_taken(book, nodes, untold, name.as_str()),
        None => false,
    }
}

// Whether the two are one name.
fn is_same(name: &str, other: &Option<String>) -> bool
    ensures { result ≡ option_map_or (bytes_eq name.now) (option_map string_bytes other.now) false }
{
    match other {
        Some(other) => name == other.as_str(),
        None => false,
    }
}

/// Whether a node's name is taken, or that of the connection that may come with it.
pub fn are_taken(
    book: &Book<Token>,
    nodes: &mut Names,
    untold: &Option<Mail>,
    name: &str,
    other: &Option<String>,
) -> bool
    requires { IsPaired nodes.old }
    ensures answer { result ≡ (is_node_in untold.now book.now nodes.old name.now
        || option_map_or (bytes_eq name.now) (option_map string_bytes other.now) false
        || option_map_or (is_node_in untold.now book.now nodes.old) (option_map string_bytes other.now) false) }
    ensures same { AreOpenSame untold.now book.now nodes.old nodes.new }
    ensures paired { IsPaired nodes.new }
    ensures free { result ≡ false → spot_of nodes.new name.now ≡ None }
    ensures other_free { result ≡ false → IfSome (option_map string_bytes other.now) (λ n. spot_of nodes.new n ≡ None) }
{
    if is_taken(book, nodes, untold, name) {
        return true;
    }
    if is_same(name, other) {
        return true;
    }
    is_other_taken(book, nodes, untold, other)
}

/// A name, where there is one, twice.
pub fn twice(name: Option<String>) -> Result<Option<Twice>, AllocError>
    ensures { IfOk result (λ t. t ≡ option_map string_bytes name) }
{
    match name {
        Some(name) => Ok(Some(Twice::new(name)?)),
        None => Ok(None),
    }
}

/// Where a node lies.
pub fn spot_of(key: Key) -> Spot
    ensures { result ≡ record { slot = key.slot; number = key.number } }
{
    Spot {
        slot: key.slot,
        number: key.number,
    }
}

/// Binds a name to a node that was made, where there are both.
pub fn bind_made(nodes: &mut Names, name: Option<Twice>, made: Option<Key>)
    requires room { 0 < room_for_names nodes.old }
    requires free { IfSome name (λ n. spot_of nodes.old n ≡ None) }
    requires unnamed { IfSome made (λ k. name_of_number nodes.old k.number ≡ None) }
    ensures binds { BindsMade nodes.old name (option_map (λ k. k.number) made) nodes.new }
    ensures paired { IsPaired nodes.old → IsPaired nodes.new }
{
    let Some(name) = name else {
        return;
    };
    let Some(key) = made else {
        return;
    };
    nodes.bind(name, spot_of(key));
}

// A node is opened at a place.
fn open_at(
    engine: &mut Engine,
    name: String,
    connection: Option<String>,
    place: At,
    kind: Kind,
) -> Result<Outcome, AllocError>
    requires { IsSound (session_of engine.old) }
    ensures ok { IfOk result (λ o. GivesNames (session_of engine.old) (Some (open_request engine.old.book place kind))
        (is_open_taken (session_of engine.old) (string_bytes name) (option_map string_bytes connection))
        (BindsNode (session_of engine.old) (string_bytes name) (option_map string_bytes connection)) o (session_of engine.new)) }
    ensures err { OnErr result (IsUnchanged (session_of engine.old) (session_of engine.new)) }
    ensures want { IfOk result (λ o. o ≢ Refused (CauseOf.Book NoMemory)) }
{
    if are_taken(
        &engine.book,
        &mut engine.nodes,
        &engine.untold,
        name.as_str(),
        &connection,
    ) {
        return Ok(Outcome::Refused(Cause::NameTaken));
    }
    let name = Twice::new(name)?;
    let connection = twice(connection)?;
    engine.nodes.make_room()?;
    match engine.book.open(place, kind) {
        Ok(opened) => {
            engine.book.promise();
            engine.nodes.bind(name, spot_of(opened.key));
            bind_made(&mut engine.nodes, connection, opened.connected);
            Ok(Outcome::Accepted)
        }
        Err(why) => answered::<Opened>(Err(why)),
    }
}

/// A node is opened. Where it is a subscriber for which its hub is connected, the connection gets the name
/// that the command gives it, if it gives one.
pub fn open(
    engine: &mut Engine,
    name: String,
    site: &Site,
    sort: Sort,
) -> Result<Outcome, AllocError>
    requires { IsSound (session_of engine.old) }
    ensures ok { IfOk result (λ o. GivesNames (session_of engine.old)
        (open_asked (session_of engine.old) (site_of site.now) (sort_of sort))
        (is_open_taken (session_of engine.old) (string_bytes name) (connection_asked (sort_of sort)))
        (BindsNode (session_of engine.old) (string_bytes name) (connection_asked (sort_of sort))) o (session_of engine.new)) }
    ensures err { OnErr result (IsUnchanged (session_of engine.old) (session_of engine.new)) }
    ensures want { IfOk result (λ o. o ≢ Refused (CauseOf.Book NoMemory)) }
{
    let kind = kind_of_sort(engine, &sort);
    let connection = connection_name(sort);
    let Some(place) = place_at(engine, site) else {
        return Ok(Outcome::Refused(Cause::NoName));
    };
    let Some(kind) = kind else {
        return Ok(Outcome::Refused(Cause::NoName));
    };
    open_at(engine, name, connection, place, kind)
}

/// A mirroring node is opened with a resource of the caller's.
pub fn using(
    engine: &mut Engine,
    name: String,
    site: &Site,
    res: String,
) -> Result<Outcome, AllocError>
    requires { IsSound (session_of engine.old) }
    ensures ok { IfOk result (λ o. GivesNames (session_of engine.old)
        (using_asked (session_of engine.old) (site_of site.now))
        (is_using_taken (session_of engine.old) (string_bytes name) (string_bytes res))
        (BindsUsing (session_of engine.old) (string_bytes name) (string_bytes res)) o (session_of engine.new)) }
    ensures err { OnErr result (IsUnchanged (session_of engine.old) (session_of engine.new)) }
    ensures want { IfOk result (λ o. o ≢ Refused (CauseOf.Book NoMemory)) }
{
    let Some(place) = place_at(engine, site) else {
        return Ok(Outcome::Refused(Cause::NoName));
    };
    if engine.has_resource(res.as_str()) {
        return Ok(Outcome::Refused(Cause::NameTaken));
    }
    if is_taken(
        &engine.book,
        &mut engine.nodes,
        &engine.untold,
        name.as_str(),
    ) {
        return Ok(Outcome::Refused(Cause::NameTaken));
    }
    let name = Twice::new(name)?;
    let res = Twice::new(res)?;
    engine.nodes.make_room()?;
    engine.resources.make_room()?;
    let token = Token::new(engine.place_behind());
    match engine.book.open_using(place, token) {
        Ok(opened) => {
            engine.book.promise();
            engine.nodes.bind(name, spot_of(opened.key));
            let spot = Spot {
                slot: opened.res.slot,
                number: opened.res.number,
            };
            engine.resources.bind(res, spot);
            Ok(Outcome::Accepted)
        }
        Err(unheld) => answered::<OpenedUsing>(Err(unheld.why)),
    }
}

/// A hub is connected by hand; its connection gets the name, where there is one.
pub fn connect(engine: &mut Engine, hub: &str, name: Option<String>) -> Result<Outcome, AllocError>
    requires { IsSound (session_of engine.old) }
    ensures ok { IfOk result (λ o. GivesNames (session_of engine.old)
        (option_map connect_request (hub_by_name (session_of engine.old) hub.now))
        (option_map_or (is_node (session_of engine.old)) (option_map string_bytes name) false)
        (BindsConnection (session_of engine.old) (option_map string_bytes name)) o (session_of engine.new)) }
    ensures err { OnErr result (IsUnchanged (session_of engine.old) (session_of engine.new)) }
    ensures want { IfOk result (λ o. o ≢ Refused (CauseOf.Book NoMemory)) }
{
    let Some(number) = engine.hub_by_name(hub) else {
        return Ok(Outcome::Refused(Cause::NoName));
    };
    if is_other_taken(&engine.book, &mut engine.nodes, &engine.untold, &name) {
        return Ok(Outcome::Refused(Cause::NameTaken));
    }
    let name = twice(name)?;
    engine.nodes.make_room()?;
    match engine.book.connect(number) {
        Ok(connection) => {
            engine.book.promise();
            bind_made(&mut engine.nodes, name, Some(connection));
            Ok(Outcome::Accepted)
        }
        Err(why) => answered::<Key>(Err(why)),
    }
}
