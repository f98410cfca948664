//! One event more: what is kept of the nodes and the hubs. Each event costs what it changes.

ghost use Rattle.std.specs.Prelude.{◌≡◌, ◌<◌, IfOk, OnOk, ◌∷◌, ◌++◌};
ghost use Rattle.rx_audit.specs.Imports.{nothing_kept, Some, None, [], length, is_open, IsLawful, MayFollow};
ghost use Rattle.rx_audit.specs.Tables.{IsMarked, mark_count};
ghost use Rattle.rx_audit.specs.Latest.{AreChildren, AreClosed};
ghost use Rattle.rx_audit.specs.Flow.{IsReached};
ghost use Rattle.rx_audit.specs.Found.{IsClimbed};
ghost use Rattle.rx_audit.specs.Marking.{leaf_of};
ghost use Rattle.rx_audit.specs.HubTables.{AreHubs, AreLinked, AreOpenListed, AreNestedListed};
ghost use Rattle.rx_audit.specs.Standing.{IsFollowed, AreNodesRemarked};
ghost use Rattle.rx_audit.specs.Verdict.{most_judged};

use crate::children::{Children, link_child, no_children};
use crate::closing::{mark_open, shut_top};
use crate::duties::{note_cut, note_left, note_touched};
use crate::hubs::{Hubs, no_hubs, note_hubs};
use crate::nodes::{remark, remark_visits};
use crate::reach::Visit;
use crate::subscribers::{Subscribers, let_go, list_nested, list_new, no_subscribers};
use rx_event::Event;
use rx_marks::Marks;
use std::alloc::{AllocError, Global};

/// What is kept of the nodes and the hubs.
pub struct Nodes {
    /// The children of each node.
    pub children: Children,
    /// The open subscribers of each hub.
    pub subscribers: Subscribers,
    /// Those of them that are no roots.
    pub nested: Subscribers,
    /// The hubs.
    pub hubs: Hubs,
    /// The nodes that the last event closed.
    pub todo: Vec<usize>,
    /// What each open node remembers, by number.
    pub marks: Vec<Marks>,
    /// Numbers of nodes, among which is each that has to end or to close.
    pub due: Vec<usize>,
}

// Written out, so that where they are let go there is one call to prove, and not the drop of each list in turn.
impl Drop for Nodes {
    fn drop(self) {
        let Nodes {
            children: _children,
            subscribers: _subscribers,
            nested: _nested,
            hubs: _hubs,
            todo: _todo,
            marks: _marks,
            due: _due,
        } = self;
    }
}

/// The leaf that emits the item, if the event is one.
fn leaf_of(event: Event) -> Option<u64>
    ensures { result ≡ leaf_of event }
{
    match event {
        Event::Item(leaf, _) => Some(leaf),
        _ => None,
    }
}

/// Nothing is kept of no events, with room for this many.
pub fn no_nodes(alloc: Global, size: usize) -> Result<Nodes, AllocError>
    ensures { IfOk result (λ nodes. IsFollowed [] size nodes) }
{
    Ok(Nodes {
        children: no_children(alloc, size)?,
        subscribers: no_subscribers(alloc, size)?,
        nested: no_subscribers(alloc, size)?,
        hubs: no_hubs(alloc, size)?,
        todo: Vec::new(alloc),
        marks: vec![in alloc; Marks::blank(); size]?,
        due: Vec::new(alloc),
    })
}

/// Keeps what an item of this leaf changes, which visits the nodes in the log.
fn keep_item(
    past: &[Event],
    event: Event,
    log: &[Visit],
    live: &[bool],
    leaf: u64,
    nodes: &mut Nodes,
) -> Result<(), AllocError>
    requires lawful { IsLawful nothing_kept past.now }
    requires next { MayFollow nothing_kept past.now event }
    requires item { leaf_of event ≡ Some leaf }
    requires reached { IsReached past.now leaf log.now }
    requires room { length past.now < length live.now }
    requires followed { IsFollowed past.now (length live.now) nodes.old }
    ensures { OnOk result (AreNodesRemarked past.now event nodes.old nodes.new) }
{
    remark_visits(past, log, &mut nodes.marks, &mut nodes.due)?;
    Ok(())
}

/// Keeps what an event changes that is no item.
fn keep_other(
    past: &[Event],
    event: Event,
    live: &[bool],
    nodes: &mut Nodes,
) -> Result<(), AllocError>
    requires lawful { IsLawful nothing_kept past.now }
    requires next { MayFollow nothing_kept past.now event }
    requires other { leaf_of event ≡ None }
    requires live { IsMarked live.now (is_open past.now) }
    requires room { length past.now < length live.now }
    requires followed { IsFollowed past.now (length live.now) nodes.old }
    ensures { OnOk result (AreNodesRemarked past.now event nodes.old nodes.new) }
{
    let top = shut_top(past, event, &nodes.children, live);
    remark(past, event, top, &mut nodes.marks);
    note_touched(past, event, &mut nodes.due)?;
    Ok(())
}

/// Keeps what the event changes in what nodes remember.
fn keep(
    past: &[Event],
    event: Event,
    log: &[Visit],
    live: &[bool],
    nodes: &mut Nodes,
) -> Result<(), AllocError>
    requires lawful { IsLawful nothing_kept past.now }
    requires next { MayFollow nothing_kept past.now event }
    requires climbed { IsClimbed past.now event log.now }
    requires live { IsMarked live.now (is_open past.now) }
    requires room { length past.now < length live.now }
    requires followed { IsFollowed past.now (length live.now) nodes.old }
    ensures { OnOk result (AreNodesRemarked past.now event nodes.old nodes.new) }
{
    match leaf_of(event) {
        Some(leaf) => keep_item(past, event, log, live, leaf, nodes),
        None => keep_other(past, event, live, nodes),
    }
}

/// The children, the hubs and the subscribers, with one event more, of which `closed` lists what it
/// closes.
fn relink(
    past: &[Event],
    event: Event,
    closed: &[usize],
    children: &mut Children,
    subs: &mut Subscribers,
    nested: &mut Subscribers,
    hubs: &mut Hubs,
)
    requires lawful { IsLawful nothing_kept past.now }
    requires next { MayFollow nothing_kept past.now event }
    requires closed { AreClosed past.now event closed.now }
    requires children { AreChildren past.now (length children.old.youngest.items) children.old }
    requires linked { AreLinked past.now (length children.old.youngest.items) subs.old }
    requires listed { AreOpenListed past.now subs.old }
    requires nested_linked { AreLinked past.now (length children.old.youngest.items) nested.old }
    requires nested_listed { AreNestedListed past.now nested.old }
    requires hubs { AreHubs past.now (length children.old.youngest.items) hubs.old }
    requires room { length past.now < length children.old.youngest.items }
    requires short { length past.now < most_judged }
    ensures children { AreChildren (past.now ++ event ∷ []) (length children.old.youngest.items) children.new }
    ensures linked { AreLinked (past.now ++ event ∷ []) (length children.old.youngest.items) subs.new }
    ensures listed { AreOpenListed (past.now ++ event ∷ []) subs.new }
    ensures nested_linked { AreLinked (past.now ++ event ∷ []) (length children.old.youngest.items) nested.new }
    ensures nested_listed { AreNestedListed (past.now ++ event ∷ []) nested.new }
    ensures hubs { AreHubs (past.now ++ event ∷ []) (length children.old.youngest.items) hubs.new }
{
    let_go(past, closed, subs);
    list_new(past, event, subs);
    let_go(past, closed, nested);
    list_nested(past, event, nested);
    note_hubs(past, event, hubs);
    link_child(past, event, children);
}

/// The marks of the open nodes, their number and what is kept of them, with one event more. Of an item,
/// `log` has the nodes that it visits.
pub fn advance(
    past: &[Event],
    event: Event,
    log: &[Visit],
    live: &mut [bool],
    live_count: &mut usize,
    nodes: &mut Nodes,
) -> Result<(), AllocError>
    requires lawful { IsLawful nothing_kept past.now }
    requires next { MayFollow nothing_kept past.now event }
    requires climbed { IsClimbed past.now event log.now }
    requires live { IsMarked live.old (is_open past.now) }
    requires live_count { live_count.old ≡ mark_count live.old }
    requires room { length past.now < length live.old }
    requires short { length past.now < most_judged }
    requires followed { IsFollowed past.now (length live.old) nodes.old }
    ensures live { OnOk result (IsMarked live.new (is_open (past.now ++ event ∷ []))) }
    ensures live_count { OnOk result (live_count.new ≡ mark_count live.new) }
    ensures followed { OnOk result (IsFollowed (past.now ++ event ∷ []) (length live.old) nodes.new) }
    ensures len { length live.new ≡ length live.old }
{
    keep(past, event, log, live, nodes)?;
    note_cut(past, event, &nodes.subscribers, &mut nodes.due)?;
    mark_open(
        past,
        event,
        &nodes.children,
        live,
        &mut nodes.todo,
        live_count,
    )?;
    note_left(past, nodes.todo.as_slice(), &nodes.hubs, &mut nodes.due)?;
    relink(
        past,
        event,
        nodes.todo.as_slice(),
        &mut nodes.children,
        &mut nodes.subscribers,
        &mut nodes.nested,
        &mut nodes.hubs,
    );
    Ok(())
}
