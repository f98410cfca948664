//! What operators must do before a caller may go on.

ghost use Rattle.std.specs.Prelude.{◌≡◌, ◌-◌, ◌&&◌, ◌||◌, ◌↔◌, slice_index_or};
ghost use Rattle.rx_audit.specs.Imports.{nothing_kept, IsTrue, false, Some, None, nat_lt, not, at, is_open, IsForced, same_terminal};
ghost use Rattle.rx_audit.specs.Tables.{IsMarked};
ghost use Rattle.rx_audit.specs.Marking.{IsKept, ends_so, forced_end};
ghost use Rattle.rx_audit.specs.HubTables.{terminal_of_end, terminal_of_word, ends_last_so, cut_so, ends_now, forced_now};
ghost use Rattle.rx_audit.specs.Rules.{any_has_key, open_connected, open_subscribed, open_waiting, connect_due, any_connect_due, has_lost_subscribers, close_due};
ghost use Rattle.rx_audit.specs.Rules.{is_disconnected};
ghost use Rattle.rx_audit.specs.Standing.{IsKnown};

use crate::advance::Nodes;
use crate::children::value_at;
use crate::event_tests::{at, event_at};
use crate::marks::is_marked;
use crate::nodes::marks_at;
use crate::subscribers::{hub_connected_at, hub_subscribed_at};
use rx_event::{Event, Terminal};
use rx_marks::Marks;

/// Whether the ends are the same.
pub fn same_terminal(one: Terminal, other: Terminal) -> bool
    ensures { result ≡ same_terminal one other }
{
    match (one, other) {
        (Terminal::Completed, Terminal::Completed) => true,
        (Terminal::Error(code), Terminal::Error(other_code)) => code == other_code,
        _ => false,
    }
}

/// Whether hub `g` has an open subscriber.
fn is_subscribed(past: &[Event], live: &[bool], nodes: &Nodes, g: u64) -> bool
    requires { IsKnown past.now live.now nodes.now }
    ensures { result ≡ any_has_key (open_subscribed past.now) past.now g }
{
    value_at(&nodes.subscribers.last, g) > 0
}

/// Whether the word leads to a number with a mark.
fn leads_to_marked(marks: &[bool], word: usize) -> bool
    ensures { result ≡ (nat_lt 0 word && slice_index_or marks.now (word - 1) false) }
{
    word > 0 && is_marked(marks, (word - 1) as u64)
}

/// Whether the word leads past number `s`.
fn leads_past(word: usize, s: u64) -> bool
    ensures { result ≡ (nat_lt 0 word && nat_lt s (word - 1)) }
{
    word > 0 && s < (word - 1) as u64
}

/// Whether a word leads somewhere, and another one to no later number.
fn leads_no_less(word: usize, other: usize) -> bool
    ensures { result ≡ (nat_lt 0 word && not (nat_lt word other)) }
{
    if word < other {
        return false;
    }
    word > 0
}

/// Whether hub `g` has an open connection.
pub fn is_connected(past: &[Event], live: &[bool], nodes: &Nodes, g: u64) -> bool
    requires { IsKnown past.now live.now nodes.now }
    ensures { result ≡ any_has_key (open_connected past.now) past.now g }
{
    leads_to_marked(live, value_at(&nodes.hubs.connection, g))
}

/// Whether hub `g` has an open subscriber that waits for a connection: the last one, if any does.
fn is_waited_for(past: &[Event], live: &[bool], nodes: &Nodes, g: u64) -> bool
    requires { IsKnown past.now live.now nodes.now }
    ensures { result ≡ any_has_key (open_waiting past.now) past.now g }
{
    let last = value_at(&nodes.subscribers.last, g);
    let ended = value_at(&nodes.hubs.ended, g);
    leads_no_less(last, ended)
}

/// Whether a connection of the hub of node `s` ended after it was opened.
pub fn is_disconnected(past: &[Event], live: &[bool], nodes: &Nodes, s: u64) -> bool
    requires { IsKnown past.now live.now nodes.now }
    ensures { result ≡ is_disconnected past.now s }
{
    match hub_subscribed_at(past, s) {
        Some(g) => leads_past(value_at(&nodes.hubs.ended, g), s),
        None => false,
    }
}

/// Whether hub `g` waits for its connection (RefCount).
#[tactic(auto, unfolding(crate::specs::Rules::connect_due))]
fn connect_due(past: &[Event], live: &[bool], nodes: &Nodes, g: u64) -> bool
    requires { IsKnown past.now live.now nodes.now }
    ensures { result ≡ connect_due past.now g }
{
    at(Event::is_auto_hub, past, g)
        && is_waited_for(past, live, nodes, g)
        && !is_connected(past, live, nodes, g)
}

/// Whether some hub waits for its connection.
pub fn any_connect_due(past: &[Event], live: &[bool], nodes: &Nodes) -> bool
    requires { IsKnown past.now live.now nodes.now }
    ensures { result ≡ any_connect_due past.now }
{
    match nodes.hubs.waiting {
        Some(g) => connect_due(past, live, nodes, g),
        None => false,
    }
}

/// Whether RefCount disconnects hub `g`, whose subscribers have all gone.
fn has_lost_subscribers(past: &[Event], live: &[bool], nodes: &Nodes, g: u64) -> bool
    requires { IsKnown past.now live.now nodes.now }
    ensures { result ≡ has_lost_subscribers past.now g }
{
    at(Event::is_auto_hub, past, g) && !is_subscribed(past, live, nodes, g)
}

/// Whether node `c` has to close.
#[tactic(auto, unfolding(crate::specs::Rules::close_due))]
pub fn close_due(past: &[Event], live: &[bool], nodes: &Nodes, c: u64) -> bool
    requires { IsKnown past.now live.now nodes.now }
    ensures { result ≡ close_due past.now c }
{
    is_marked(live, c)
        && match hub_connected_at(past, c) {
            Some(g) => has_lost_subscribers(past, live, nodes, g),
            None => false,
        }
}

/// How the event ends a node, if it ends one.
fn terminal_of_end(event: Event) -> Option<Terminal>
    ensures { result ≡ terminal_of_end event }
{
    match event {
        Event::End(_, terminal) => Some(terminal),
        _ => None,
    }
}

/// How the event before this word's place ends a node, if it ends one.
fn terminal_of_word(past: &[Event], word: usize) -> Option<Terminal>
    ensures { result ≡ terminal_of_word past.now word }
{
    if word == 0 {
        return None;
    }
    terminal_of_end(event_at(past, word - 1)?)
}

/// Whether the last end of a connection of the hub of node `s` is so.
fn ended_last_so(past: &[Event], nodes: &Nodes, s: u64, terminal: Terminal) -> bool
    ensures { result ≡ ends_last_so past.now nodes.now.hubs.ended.items s terminal }
{
    match hub_subscribed_at(past, s) {
        Some(g) => match terminal_of_word(past, value_at(&nodes.hubs.ended, g)) {
            Some(last) => same_terminal(last, terminal),
            None => false,
        },
        None => false,
    }
}

/// Whether node `s` is open, and its source ended so.
#[tactic(auto, unfolding(crate::specs::HubTables::cut_so))]
fn cut_so(past: &[Event], live: &[bool], nodes: &Nodes, s: u64, terminal: Terminal) -> bool
    requires { IsKnown past.now live.now nodes.now }
    ensures { result ≡ cut_so past.now nodes.now.hubs.ended.items s terminal }
{
    is_marked(live, s)
        && is_disconnected(past, live, nodes, s)
        && ended_last_so(past, nodes, s, terminal)
}

/// Whether the node has to end so, by its marks.
fn ends_so(made: Event, marks: Marks, terminal: Terminal) -> bool
    ensures { result ≡ ends_so made marks terminal }
{
    match marks.terminal_due(made) {
        Some(due) => same_terminal(due, terminal),
        None => false,
    }
}

/// Whether node `n` has to end so, by its marks.
fn node_ends_so(
    past: &[Event],
    live: &[bool],
    marks: &Vec<Marks>,
    n: u64,
    terminal: Terminal,
) -> bool
    requires live { IsMarked live.now (is_open past.now) }
    requires kept { IsKept past.now marks.now.items }
    ensures { result ≡ forced_end past.now n terminal }
{
    if !is_marked(live, n) {
        return false;
    }
    match event_at(past, n as usize) {
        Some(made) => ends_so(made, marks_at(marks, n), terminal),
        None => false,
    }
}

/// Whether node `n` has to end so.
#[tactic(auto, unfolding(crate::specs::HubTables::ends_now))]
fn ends_now(past: &[Event], live: &[bool], nodes: &Nodes, n: u64, terminal: Terminal) -> bool
    requires { IsKnown past.now live.now nodes.now }
    ensures { result ≡ ends_now past.now nodes.now.hubs.ended.items n terminal }
{
    node_ends_so(past, live, &nodes.marks, n, terminal) || cut_so(past, live, nodes, n, terminal)
}

/// Whether the event has to come now.
fn forced_now(past: &[Event], live: &[bool], nodes: &Nodes, event: Event) -> bool
    requires { IsKnown past.now live.now nodes.now }
    ensures { result ≡ forced_now past.now nodes.now.hubs.ended.items event }
{
    match event {
        Event::Connect(g) => connect_due(past, live, nodes, g),
        Event::End(n, t) => !any_connect_due(past, live, nodes)
            && ends_now(past, live, nodes, n, t),
        Event::Close(c) => !any_connect_due(past, live, nodes) && close_due(past, live, nodes, c),
        _ => false,
    }
}

/// Whether the event must come before a caller may go on.
pub fn is_forced(past: &[Event], live: &[bool], nodes: &Nodes, event: Event) -> bool
    requires { IsKnown past.now live.now nodes.now }
    ensures { IsTrue result ↔ IsForced nothing_kept past.now event }
{
    forced_now(past, live, nodes, event)
}
