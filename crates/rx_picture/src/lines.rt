//! Where the line of each node ends.

ghost use Rattle.std.specs.Prelude.{◌≡◌, ◌<◌, ◌≤◌, IfOk};
ghost use Rattle.rx_picture.specs.Imports.{length, makes_node, at, is_open, parent};
ghost use Rattle.rx_picture.specs.Rows.{Spans};
ghost use Rattle.rx_picture.specs.Tables.{AreTurns, AreLines, was_shut};

use crate::event_tests::{at, event_at};
use crate::firsts::value_at;
use rx_event::Event;
use std::alloc::{AllocError, Global};

/// The node that the place of node `n` names, if its number is less.
#[tactic(auto, unfolding(rx_event::specs::Tree::parent))]
pub fn parent_of(events: &[Event], n: usize) -> Option<u64>
    ensures { result ≡ parent events.now n }
{
    let p = event_at(events, n)?.parent()?;
    if p < n as u64 { Some(p) } else { None }
}

/// Whether the event at the place makes a node.
fn is_node_at(events: &[Event], n: usize) -> bool
    ensures { result ≡ at makes_node events.now n }
{
    at(Event::makes_node, events, n as u64)
}

/// The place at which node `n` is taken away, by itself or with a node above it.
fn line_end(events: &[Event], shut: &[usize], ends: &[usize], n: usize) -> usize
    requires within { n < length events.now }
    requires shut { AreTurns events.now was_shut (length events.now) shut.now }
    requires ends { AreLines events.now n ends.now }
    ensures begun { n ≤ result }
    ensures within { result ≤ length events.now }
    ensures spans { Spans events.now (λ k. is_open k n) n result }
{
    if !is_node_at(events, n) {
        return n;
    }
    let own = value_at(shut, n as u64);
    match parent_of(events, n) {
        Some(p) => own.min(value_at(ends, p)).max(n),
        None => own.max(n),
    }
}

/// By node: the place of the event that closes it, and the number of events where none does.
pub fn line_ends(alloc: Global, events: &[Event], shut: &[usize]) -> Result<Vec<usize>, AllocError>
    requires { AreTurns events.now was_shut (length events.now) shut.now }
    ensures { IfOk result (λ v. AreLines events.now (length events.now) v.items) }
{
    let mut ends = Vec::new(alloc);
    for n in 0..events.len() {
        let end = line_end(events, shut, &ends, n);
        ends.push(end)?;
    }
    Ok(ends)
}
