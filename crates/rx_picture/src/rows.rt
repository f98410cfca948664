//! The rows of a history.

ghost use Rattle.std.specs.Prelude.{◌≡◌, ◌<◌, ◌&&◌, IfOk, MatchOption};
ghost use Rattle.rx_picture.specs.Imports.{true, false, Some, length, slice_get, option_and_then, makes_node, node_of_accept, at, Lease};
ghost use Rattle.rx_picture.specs.Rows.{AreRowsShown, IsShape, ending_by, has_row};
ghost use Rattle.rx_picture.specs.Choice.{marked};
ghost use Rattle.rx_picture.specs.Tables.{AreTurns, AreLines, AreTables, IsShownAt, owned_end, owned_start, has_returned};

use crate::choice::is_marked;
use crate::event_tests::event_at;
use crate::firsts::value_at;
use crate::row::{Ending, Row, Shape};
use crate::tables::Tables;
use rx_event::Event;
use std::alloc::{AllocError, Global};

/// How node `n` ends by the event.
fn ending_by(n: usize, event: Event) -> Ending
    ensures { result ≡ ending_by n (Some event) }
{
    match event {
        Event::End(m, terminal) => {
            if m == n as u64 {
                Ending::Ended(terminal)
            } else {
                Ending::Disposed
            }
        }
        _ => Ending::Disposed,
    }
}

/// How node `n` ends by the event at the place, if there is one.
fn ending_at(events: &[Event], n: usize, until: usize) -> Ending
    ensures { result ≡ ending_by n (slice_get events.now until) }
{
    match event_at(events, until) {
        Some(event) => ending_by(n, event),
        None => Ending::Lasting,
    }
}

/// What is drawn of node `n`.
fn line_of(events: &[Event], ends: &[usize], n: usize) -> Shape
    requires within { n < length events.now }
    requires ends { AreLines events.now (length events.now) ends.now }
    requires node { at makes_node events.now n ≡ true }
    ensures { IsShape events.now n result }
{
    let until = ends[n];
    Shape::Node {
        until: until as u64,
        ending: ending_at(events, n, until),
    }
}

/// The place after which its node owns resource `r`, which was accepted at the node.
fn owned_start(ends: &[usize], node: u64, r: u64) -> u64
    ensures { result ≡ owned_start ends.now node r }
{
    if node < ends.len() as u64 {
        node.max(r)
    } else {
        r
    }
}

/// The place after which its node owns the resource no more, of one that was accepted at the node and is
/// removed at the place.
fn owned_end(ends: &[usize], node: u64, removed: usize) -> usize
    ensures { result ≡ owned_end ends.now node removed }
{
    if node < ends.len() as u64 {
        value_at(ends, node).min(removed)
    } else {
        0
    }
}

/// What is drawn of resource `r`, which was accepted at the node.
fn bar_of(events: &[Event], tables: &Tables, r: usize, node: u64) -> Shape
    requires within { r < length events.now }
    requires tables { AreTables events.now tables.now }
    requires accepted { option_and_then node_of_accept (slice_get events.now r) ≡ Some node }
    ensures { IsShape events.now r result }
{
    let after = owned_start(&tables.ends, node, r as u64);
    let gone = value_at(&tables.removed, r as u64);
    let out = value_at(&tables.taken, r as u64);
    Shape::Resource {
        owned_after: after,
        owned_until: (owned_end(&tables.ends, node, gone) as u64).max(after),
        taken: out.max(r) as u64,
    }
}

/// What is drawn of lease `l` of the resource.
fn loan_of(events: &[Event], returned: &[usize], l: usize, resource: u64) -> Shape
    requires within { l < length events.now }
    requires returned { AreTurns events.now has_returned (length events.now) returned.now }
    requires leased { slice_get events.now l ≡ Some (Lease resource) }
    ensures { IsShape events.now l result }
{
    let back = value_at(returned, l as u64);
    Shape::Loan {
        resource,
        until: back.max(l) as u64,
    }
}

/// What is drawn of what the event at place `n` made, if it made something that is.
fn shape_of(events: &[Event], tables: &Tables, n: usize, made: Event) -> Option<Shape>
    requires here { slice_get events.now n ≡ Some made }
    requires tables { AreTables events.now tables.now }
    ensures { MatchOption result (has_row made ≡ false) (IsShape events.now n) }
{
    if made.makes_node() {
        return Some(line_of(events, &tables.ends, n));
    }
    if made.makes_hub() {
        return Some(Shape::Hub);
    }
    match made {
        Event::Accept(node, _) => Some(bar_of(events, tables, n, node)),
        Event::Lease(resource) => Some(loan_of(events, &tables.returned, n, resource)),
        _ => None,
    }
}

/// The row of what the event at place `n` made, if it made something that is drawn and shown.
fn row_at(events: &[Event], tables: &Tables, shown: &[bool], n: usize) -> Option<Row>
    requires { AreTables events.now tables.now }
    ensures { MatchOption result ((at has_row events.now n && marked shown.now n) ≡ false)
        (IsShownAt events.now (marked shown.now) n) }
{
    if !is_marked(shown, n) {
        return None;
    }
    let made = event_at(events, n)?;
    let shape = shape_of(events, tables, n, made)?;
    Some(Row {
        number: n as u64,
        made,
        shape,
    })
}

/// The rows of the history: one for each node, hub, resource and lease whose number is marked, by
/// rising number. The error comes where memory is refused.
pub fn rows_of(
    alloc: Global,
    events: &[Event],
    tables: &Tables,
    shown: &[bool],
) -> Result<Vec<Row>, AllocError>
    requires { AreTables events.now tables.now }
    ensures { IfOk result (λ rows. AreRowsShown events.now (marked shown.now) rows.items) }
{
    let mut rows = Vec::new(alloc);
    for n in 0..events.len() {
        if let Some(row) = row_at(events, tables, shown, n) {
            rows.push(row)?;
        }
    }
    Ok(rows)
}
