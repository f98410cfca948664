//! The sorts of nodes that are to be opened, and names for connections, which a step may give and may leave out.

ghost use Rattle.std.specs.Prelude.{◌≡◌, false, option_map, string_bytes, OnOk};
ghost use Rattle.rx_scenario.specs.Scenario.{sort_of};
ghost use Rattle.rx_script.specs.Stage.{connection_name};
ghost use Rattle.rx_script.specs.Engine.{kind_by_hubs, is_connection_bound, is_taken_beside, with_named};
ghost use Rattle.rx_script.specs.KeyedCalls.{connection_of};

use rx_agenda::Names;
use rx_book::Key;
use rx_event::Kind;
use rx_scenario::Sort;
use std::alloc::AllocError;

/// The kind that a sort stands for; None where the name of a subscriber's hub is not bound.
pub fn kind_by_hubs(hubs: &Names<u64>, sort: &Sort) -> Option<Kind>
    ensures { result ≡ kind_by_hubs hubs.now (sort_of sort.now) }
{
    match sort {
        Sort::Leaf => Some(Kind::Leaf),
        Sort::Pass => Some(Kind::Pass),
        Sort::Flat => Some(Kind::Flat),
        Sort::Switch => Some(Kind::Switch),
        Sort::Until => Some(Kind::Until),
        Sort::Sub { hub, connection: _ } => hubs.get(hub.as_str()).map(Kind::Sub),
    }
}

/// The name for the connection that a subscriber's opening may make.
pub fn connection_name(sort: Sort) -> Option<String>
    ensures { result ≡ connection_of sort }
{
    match sort {
        Sort::Sub { hub: _, connection } => connection,
        Sort::Leaf | Sort::Pass | Sort::Flat | Sort::Switch | Sort::Until => None,
    }
}

/// Whether the name, where there is one, is bound.
pub fn is_connection_bound(nodes: &Names<Key>, name: &Option<String>) -> bool
    ensures { result ≡ is_connection_bound nodes.now (option_map string_bytes name.now) }
{
    match name {
        Some(name) => nodes.is_bound(name.as_str()),
        None => false,
    }
}

/// Whether the name for the connection, where there is one, is bound, or is this one of the node itself.
pub fn is_named_twice(nodes: &Names<Key>, node: &str, sort: &Sort) -> bool
    ensures { result ≡ is_taken_beside nodes.now node.now (connection_name (sort_of sort.now)) }
{
    match sort {
        Sort::Sub { hub: _, connection } => match connection {
            Some(name) => nodes.is_bound(name.as_str()) || node == name.as_str(),
            None => false,
        },
        Sort::Leaf | Sort::Pass | Sort::Flat | Sort::Switch | Sort::Until => false,
    }
}

/// Binds the name to the connection that was made, where there are both. Err where memory is refused.
pub fn bind_connection(
    nodes: &mut Names<Key>,
    name: Option<String>,
    made: Option<Key>,
) -> Result<(), AllocError>
    requires { is_connection_bound nodes.old (option_map string_bytes name) ≡ false }
    ensures { OnOk result (nodes.new ≡ with_named nodes.old name made) }
{
    let Some(name) = name else {
        return Ok(());
    };
    let Some(key) = made else {
        return Ok(());
    };
    nodes.bind(name, key)
}
