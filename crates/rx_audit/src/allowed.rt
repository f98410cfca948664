//! What refuses a caller's event: the first cause, but for room, against the call behind it. The rows are those of
//! the table of refusals (`Causes` in `rx_event`), and each test here is one of its tests.

ghost use Rattle.std.specs.Prelude.{◌≡◌, ◌+◌, ◌<◌, ◌≤◌, ◌&&◌, IfOk, if◌then◌else◌};
ghost use Rattle.rx_audit.specs.Imports.{false, true, Some, None, length, slice_get, option_and_then, not, list_any};
ghost use Rattle.rx_audit.specs.Imports.{makes_lease, makes_resource, node_of_accept, ancestors, hubs, nat_lt};
ghost use Rattle.rx_audit.specs.Imports.{nothing_kept, marks_of, at, is_open, open_nodes, is_owned, is_out, is_leased, is_held, is_waiting};
ghost use Rattle.rx_note.specs.declared.note.Terminal.TheVariants.{Error};
ghost use Rattle.rx_event.specs.declared.refusal.Refusal.TheVariants.{NoHub, WrongKind, NotRoot};
ghost use Rattle.rx_audit.specs.Imports.{End, Close};
ghost use Rattle.rx_event.specs.Events.{makes_hub, is_leaf, is_manual_hub, is_root};
ghost use Rattle.rx_event.specs.Allowed.{most_hubs};
ghost use Rattle.rx_event.specs.Calls.{Opening, Emitting, Ending, Aborting, Removing, Leasing, Connecting};
ghost use Rattle.rx_event.specs.Refusals.{first_cause};
ghost use Rattle.rx_event.specs.Causes.{connects_up_to, is_without_hub, is_out_of_order, is_gone, is_wrong_place, is_taken_place};
ghost use Rattle.rx_event.specs.Causes.{is_unowed_place, is_crowded, forces_connect, nodes_opened, has_connection, projecting_causes};
ghost use Rattle.rx_register.specs.CallBehind.{may_fail, refusal_against, refusal_of, takes_waiting};
ghost use Rattle.rx_audit.specs.Found.{IsFoundHere, IsClimbed};
ghost use Rattle.rx_audit.specs.Standing.{IsKnown};
ghost use Rattle.rx_audit.specs.Marking.{IsKept};
ghost use Rattle.rx_audit.specs.HubTables.{AreLinked, AreOpenListed, AreNestedListed};
ghost use Rattle.rx_audit.specs.Flow.{IsReached};
ghost use Rattle.rx_audit.specs.Rules.{was_removed, was_taken, refused_simply};

use crate::advance::Nodes;
use crate::children::word_at;
use crate::event_tests::{at, event_at};
use crate::forced::is_connected;
use crate::found::Found;
use crate::marks::is_marked;
use crate::nodes::marks_at;
use crate::openness::parent_of;
use crate::reach::{Climb, reached};
use crate::subscribers::{Subscribers, hub_connected_at};
use rx_event::{Event, Kind, MOST_HUBS, MOST_NODES, Place, Refusal, Terminal};
use rx_marks::Marks;
use std::alloc::AllocError;

/// How many nodes are open.
pub fn open_count(past: &[Event], found: &Found) -> usize
    requires { IsFoundHere past.now found.now }
    ensures { result ≡ length (open_nodes past.now) }
{
    found.live_count
}

/// Whether node `n` is open.
fn is_open_node(past: &[Event], found: &Found, n: u64) -> bool
    requires { IsFoundHere past.now found.now }
    ensures { result ≡ is_open past.now n }
{
    is_marked(found.live.as_slice(), n)
}

/// What node `n` remembers, which is open.
fn open_marks(past: &[Event], marks: &Vec<Marks>, n: u64) -> Marks
    requires kept { IsKept past.now marks.now.items }
    requires here { is_open past.now n ≡ true }
    ensures { result ≡ marks_of nothing_kept past.now n }
{
    marks_at(marks, n)
}

// hubs ------------------------------------------------------------------------------------------

/// Whether hub `g` has an open connection.
#[tactic(auto, using(crate::proofs::Refusing::connected_listed))]
fn has_connection(past: &[Event], found: &Found, nodes: &Nodes, g: u64) -> bool
    requires found { IsFoundHere past.now found.now }
    requires known { IsKnown past.now found.now.live.items nodes.now }
    ensures { result ≡ has_connection past.now g }
{
    is_connected(past, found.live.as_slice(), nodes, g)
}

/// Whether the kind is that of a subscriber of a hub that is not there.
fn is_without_hub(past: &[Event], kind: Kind) -> bool
    ensures { result ≡ is_without_hub past.now kind }
{
    match kind {
        Kind::Sub(g) => !at(Event::makes_hub, past, g),
        _ => false,
    }
}

/// Whether opening such a node forces a connection (RefCount).
fn forces_connect(past: &[Event], found: &Found, nodes: &Nodes, kind: Kind) -> bool
    requires found { IsFoundHere past.now found.now }
    requires known { IsKnown past.now found.now.live.items nodes.now }
    ensures { result ≡ forces_connect past.now kind }
{
    match kind {
        Kind::Sub(g) => {
            at(Event::is_auto_hub, past, g) && !has_connection(past, found, nodes, g)
        }
        _ => false,
    }
}

/// Whether node `a` is a connection of hub `g` or of an earlier one.
#[tactic(auto, using(crate::proofs::Refusing::connects_at))]
fn connects_up_to(past: &[Event], g: u64, a: u64) -> bool
    ensures { result ≡ at (connects_up_to g) past.now a }
{
    match hub_connected_at(past, a) {
        Some(k) => !(g < k),
        None => false,
    }
}

/// Whether a connection at or above node `p` is of hub `g` or of an earlier one.
fn is_below_connection(past: &[Event], g: u64, p: u64) -> bool
    ensures { result ≡ list_any (at (connects_up_to g) past.now) (ancestors past.now p) }
{
    let mut a = p;
    loop {
        if connects_up_to(past, g, a) {
            return true;
        }
        match parent_of(past, a as usize) {
            Some(above) => a = above,
            None => return false,
        }
    }
}

/// Whether a subscriber there would stand inside a connection of its own hub or of an earlier one.
fn is_out_of_order(past: &[Event], place: Place, kind: Kind) -> bool
    ensures { result ≡ is_out_of_order past.now place kind }
{
    match kind {
        Kind::Sub(g) => match place.above() {
            Some(p) => is_below_connection(past, g, p),
            None => false,
        },
        _ => false,
    }
}

// places ----------------------------------------------------------------------------------------

/// Whether the node that the place names, if it names one, is not open.
fn is_gone(past: &[Event], found: &Found, place: Place) -> bool
    requires { IsFoundHere past.now found.now }
    ensures { result ≡ is_gone past.now place }
{
    match place.above() {
        Some(n) => !is_open_node(past, found, n),
        None => false,
    }
}

/// Whether that node has no such place.
fn is_wrong_place(past: &[Event], place: Place) -> bool
    ensures { result ≡ is_wrong_place past.now place }
{
    match place {
        Place::Root => false,
        Place::Source(p) => !at(Event::has_source, past, p),
        Place::Inner(p) => !at(Event::is_merging, past, p),
        Place::Notifier(p) => !at(Event::is_until, past, p),
    }
}

/// Whether a source or a notifier was opened there before.
#[tactic(auto, using(crate::proofs::Refusing::source_open, crate::proofs::Refusing::notifier_open))]
fn is_taken_place(past: &[Event], marks: &Vec<Marks>, place: Place) -> bool
    requires kept { IsKept past.now marks.now.items }
    requires here { is_gone past.now place ≡ false }
    ensures { result ≡ is_taken_place nothing_kept past.now place }
{
    match place {
        Place::Root => false,
        Place::Source(p) => open_marks(past, marks, p).source_opened(),
        Place::Inner(_) => false,
        Place::Notifier(p) => open_marks(past, marks, p).notifier_opened(),
    }
}

/// Whether no projected item waits for an inner there.
#[tactic(auto, using(crate::proofs::Refusing::inner_open))]
fn is_unowed_place(past: &[Event], marks: &Vec<Marks>, place: Place) -> bool
    requires kept { IsKept past.now marks.now.items }
    requires here { is_gone past.now place ≡ false }
    ensures { result ≡ is_unowed_place nothing_kept past.now place }
{
    match place {
        Place::Root => false,
        Place::Source(_) => false,
        Place::Inner(p) => open_marks(past, marks, p).owed() == 0,
        Place::Notifier(_) => false,
    }
}

// limits ----------------------------------------------------------------------------------------

/// Whether so many open nodes more, one or two, would be too many.
#[tactic(auto, using(crate::proofs::Refusing::crowded))]
fn is_crowded(past: &[Event], found: &Found, more: u64) -> bool
    requires found { IsFoundHere past.now found.now }
    requires few { more ≤ 2 }
    ensures { result ≡ is_crowded past.now more }
{
    MOST_NODES - more < open_count(past, found) as u64
}

/// How many nodes the opening makes: its own, and a connection where it forces one.
fn nodes_opened(past: &[Event], found: &Found, nodes: &Nodes, kind: Kind) -> u64
    requires found { IsFoundHere past.now found.now }
    requires known { IsKnown past.now found.now.live.items nodes.now }
    ensures value { result ≡ nodes_opened past.now kind }
    ensures few { result ≤ 2 }
{
    if forces_connect(past, found, nodes, kind) {
        2
    } else {
        1
    }
}

/// Whether one hub more would be too many.
#[tactic(auto, using(crate::proofs::Refusing::hubs_full))]
fn is_full_of_hubs(past: &[Event], live: &[bool], nodes: &Nodes) -> bool
    requires { IsKnown past.now live.now nodes.now }
    ensures { result ≡ nat_lt most_hubs (length (hubs past.now) + 1) }
{
    !((nodes.hubs.count as u64) < MOST_HUBS)
}

// resources -------------------------------------------------------------------------------------

/// The node at which resource `r` was accepted.
fn node_of_resource(past: &[Event], r: u64) -> Option<u64>
    ensures { result ≡ option_and_then node_of_accept (slice_get past.now r) }
{
    event_at(past, r as usize)?.held_at()
}

/// Whether node `n` is open, and resource `r`, which is in the history, was not removed.
fn stays_owned(past: &[Event], found: &Found, n: u64, r: u64) -> bool
    requires found { IsFoundHere past.now found.now }
    requires within { r < length past.now }
    ensures { result ≡ (is_open past.now n && not (was_removed past.now r)) }
{
    is_marked(found.live.as_slice(), n) && !is_marked(found.removed.as_slice(), r)
}

/// Whether resource `r` is owned by its node.
fn is_owned(past: &[Event], found: &Found, r: u64) -> bool
    requires { IsFoundHere past.now found.now }
    ensures { result ≡ is_owned past.now r }
{
    match node_of_resource(past, r) {
        Some(n) => stays_owned(past, found, n, r),
        None => false,
    }
}

/// Whether `r` is a resource.
fn is_resource(past: &[Event], r: u64) -> bool
    ensures { result ≡ at makes_resource past.now r }
{
    at(Event::makes_resource, past, r)
}

/// Whether `r` is a resource of which a lease is out.
fn is_leased(past: &[Event], found: &Found, r: u64) -> bool
    requires { IsFoundHere past.now found.now }
    ensures { result ≡ is_leased past.now r }
{
    if !is_resource(past, r) {
        return false;
    }
    word_at(&found.leases, r) > 0
}

/// Whether resource `r` is held.
pub fn is_held(past: &[Event], found: &Found, r: u64) -> bool
    requires { IsFoundHere past.now found.now }
    ensures { result ≡ is_held past.now r }
{
    if is_owned(past, found, r) {
        return true;
    }
    is_leased(past, found, r)
}

/// Whether `l` is a lease.
fn is_lease(past: &[Event], l: u64) -> bool
    ensures { result ≡ at makes_lease past.now l }
{
    at(Event::makes_lease, past, l)
}

/// Whether lease `l` is out.
fn is_out(past: &[Event], found: &Found, l: u64) -> bool
    requires { IsFoundHere past.now found.now }
    ensures { result ≡ is_out past.now l }
{
    if !is_lease(past, l) {
        return false;
    }
    !is_marked(found.returned.as_slice(), l)
}

/// Whether resource `r`, which is in the history, is neither held nor handed out.
fn is_left_over(past: &[Event], found: &Found, r: u64) -> bool
    requires found { IsFoundHere past.now found.now }
    requires within { r < length past.now }
    ensures { result ≡ (not (is_held past.now r) && not (was_taken past.now r)) }
{
    !is_held(past, found, r) && !is_marked(found.taken.as_slice(), r)
}

/// Whether resource `r` waits to be handed out.
pub fn is_waiting(past: &[Event], found: &Found, r: u64) -> bool
    requires { IsFoundHere past.now found.now }
    ensures { result ≡ is_waiting past.now r }
{
    if !is_resource(past, r) {
        return false;
    }
    is_left_over(past, found, r)
}

// the rows --------------------------------------------------------------------------------------

/// What refuses opening such a node there.
fn opening_refusal(
    past: &[Event],
    found: &Found,
    nodes: &Nodes,
    place: Place,
    kind: Kind,
) -> Option<Refusal>
    requires found { IsFoundHere past.now found.now }
    requires known { IsKnown past.now found.now.live.items nodes.now }
    ensures { result ≡ refusal_against nothing_kept past.now (Opening place kind) }
{
    if is_without_hub(past, kind) {
        return Some(Refusal::NoHub);
    }
    if is_gone(past, found, place) {
        return Some(Refusal::Gone);
    }
    if is_wrong_place(past, place) {
        return Some(Refusal::WrongKind);
    }
    if is_taken_place(past, &nodes.marks, place) {
        return Some(Refusal::PlaceTaken);
    }
    if is_unowed_place(past, &nodes.marks, place) {
        return Some(Refusal::NothingOwed);
    }
    if is_out_of_order(past, place, kind) {
        return Some(Refusal::HubOrder);
    }
    if is_crowded(past, found, nodes_opened(past, found, nodes, kind)) {
        return Some(Refusal::TooMany);
    }
    None
}

/// What refuses connecting hub `g`.
fn connecting_refusal(past: &[Event], found: &Found, nodes: &Nodes, g: u64) -> Option<Refusal>
    requires found { IsFoundHere past.now found.now }
    requires known { IsKnown past.now found.now.live.items nodes.now }
    ensures { result ≡ refusal_against nothing_kept past.now (Connecting g) }
{
    if !at(Event::makes_hub, past, g) {
        return Some(Refusal::NoHub);
    }
    if !at(Event::is_manual_hub, past, g) {
        return Some(Refusal::WrongKind);
    }
    if has_connection(past, found, nodes, g) {
        return Some(Refusal::Connected);
    }
    if is_crowded(past, found, 1) {
        return Some(Refusal::TooMany);
    }
    None
}

/// What refuses removing resource `r`, and leasing it.
fn owned_refusal(past: &[Event], found: &Found, r: u64) -> Option<Refusal>
    requires { IsFoundHere past.now found.now }
    ensures removing { result ≡ refusal_against nothing_kept past.now (Removing r) }
    ensures leasing { result ≡ refusal_against nothing_kept past.now (Leasing r) }
{
    if !is_held(past, found, r) {
        return Some(Refusal::NotHeld);
    }
    if !is_owned(past, found, r) {
        return Some(Refusal::Leased);
    }
    None
}

/// What refuses the end of leaf `n`.
fn ending_refusal(past: &[Event], found: &Found, n: u64, terminal: Terminal) -> Option<Refusal>
    requires { IsFoundHere past.now found.now }
    ensures { result ≡ refusal_against nothing_kept past.now (Ending n terminal) }
{
    if !is_open_node(past, found, n) {
        return Some(Refusal::Gone);
    }
    if !is_leaf(past, n) {
        return Some(Refusal::WrongKind);
    }
    None
}

/// What refuses ending node `n`, which is open, with an error, where it is no leaf and owes nothing.
#[tactic(auto, using(crate::proofs::DueListCovers::child_marked))]
fn aborting_refusal(past: &[Event], marks: &Vec<Marks>, n: u64, code: u32) -> Option<Refusal>
    requires kept { IsKept past.now marks.now.items }
    requires here { is_open past.now n ≡ true }
    ensures { result ≡ refusal_against nothing_kept past.now (Aborting n code) }
{
    if !at(Event::may_abort, past, n) {
        return Some(Refusal::WrongKind);
    }
    if open_marks(past, marks, n).open_children() > 0 {
        return Some(Refusal::HasChild);
    }
    None
}

/// Whether node `n`, which is open, is a FlatMap or a Switch that owes something.
fn may_fail(past: &[Event], marks: &Vec<Marks>, n: u64) -> bool
    requires kept { IsKept past.now marks.now.items }
    requires here { is_open past.now n ≡ true }
    ensures { result ≡ may_fail nothing_kept past.now n }
{
    at(Event::is_merging, past, n) && open_marks(past, marks, n).owed() > 0
}

/// What refuses ending node `n` with an error.
#[tactic(auto, using(crate::proofs::Refusing::failing_gone, crate::proofs::Refusing::failing_leaf, crate::proofs::Refusing::failing_owed, crate::proofs::Refusing::failing_aborts))]
fn failing_refusal(
    past: &[Event],
    found: &Found,
    marks: &Vec<Marks>,
    n: u64,
    code: u32,
) -> Option<Refusal>
    requires found { IsFoundHere past.now found.now }
    requires kept { IsKept past.now marks.now.items }
    ensures { result ≡ refusal_of nothing_kept past.now (End n (Error code)) }
{
    if !is_open_node(past, found, n) {
        return Some(Refusal::Gone);
    }
    if is_leaf(past, n) {
        return None;
    }
    if may_fail(past, marks, n) {
        return None;
    }
    aborting_refusal(past, marks, n, code)
}

/// What refuses the end of node `n`.
fn end_refusal(
    past: &[Event],
    found: &Found,
    marks: &Vec<Marks>,
    n: u64,
    terminal: Terminal,
) -> Option<Refusal>
    requires found { IsFoundHere past.now found.now }
    requires kept { IsKept past.now marks.now.items }
    ensures { result ≡ refusal_of nothing_kept past.now (End n terminal) }
{
    match terminal {
        Terminal::Completed => ending_refusal(past, found, n, terminal),
        Terminal::Error(code) => failing_refusal(past, found, marks, n, code),
    }
}

/// What refuses an answer to an item that was projected to node `f`.
fn projecting_refusal(past: &[Event], found: &Found, marks: &Vec<Marks>, f: u64) -> Option<Refusal>
    requires found { IsFoundHere past.now found.now }
    requires kept { IsKept past.now marks.now.items }
    ensures { result ≡ first_cause (projecting_causes nothing_kept past.now f) }
{
    if !is_open_node(past, found, f) {
        return Some(Refusal::Gone);
    }
    if !at(Event::is_merging, past, f) {
        return Some(Refusal::WrongKind);
    }
    if open_marks(past, marks, f).owed() == 0 {
        return Some(Refusal::NothingOwed);
    }
    None
}

/// What refuses closing node `n`: a connection is closed by its hub, and only a root by itself.
#[tactic(auto, using(crate::proofs::Refusing::closing_gone, crate::proofs::Refusing::closing_root, crate::proofs::Refusing::closing_connection))]
fn closing_refusal(past: &[Event], found: &Found, n: u64) -> Option<Refusal>
    requires { IsFoundHere past.now found.now }
    ensures { result ≡ refusal_of nothing_kept past.now (Close n) }
{
    if !is_open_node(past, found, n) {
        return Some(Refusal::Gone);
    }
    match hub_connected_at(past, n) {
        Some(g) => hub_refusal(past, g),
        None => root_refusal(past, n),
    }
}

// What refuses disconnecting hub `g`, which is connected.
fn hub_refusal(past: &[Event], g: u64) -> Option<Refusal>
    ensures { result ≡ (if not (at makes_hub past.now g) then Some NoHub
        else if not (at is_manual_hub past.now g) then Some WrongKind else None) }
{
    if !at(Event::makes_hub, past, g) {
        return Some(Refusal::NoHub);
    }
    if !at(Event::is_manual_hub, past, g) {
        return Some(Refusal::WrongKind);
    }
    None
}

// What refuses unsubscribing node `n`, which is open.
fn root_refusal(past: &[Event], n: u64) -> Option<Refusal>
    ensures { result ≡ (if not (at is_root past.now n) then Some NotRoot else None) }
{
    if !at(Event::is_root, past, n) {
        return Some(Refusal::NotRoot);
    }
    None
}

/// The refusal, where the test holds.
fn refused_if(holds: bool, why: Refusal) -> Option<Refusal>
    ensures { result ≡ (if holds then Some why else None) }
{
    if holds { Some(why) } else { None }
}

/// What refuses a caller's event that is no item, where operators have nothing left to do.
fn refusal_simply(past: &[Event], found: &Found, nodes: &Nodes, event: Event) -> Option<Refusal>
    requires found { IsFoundHere past.now found.now }
    requires known { IsKnown past.now found.now.live.items nodes.now }
    ensures { result ≡ refused_simply past.now event }
{
    match event {
        Event::Open { place, kind } => opening_refusal(past, found, nodes, place, kind),
        Event::Item(_, _) => None,
        Event::Hub(_) => refused_if(
            is_full_of_hubs(past, found.live.as_slice(), nodes),
            Refusal::TooMany,
        ),
        Event::Connect(g) => connecting_refusal(past, found, nodes, g),
        Event::Accept(n, _) => refused_if(!is_open_node(past, found, n), Refusal::Gone),
        Event::Use(r) => refused_if(!is_held(past, found, r), Refusal::NotHeld),
        Event::Remove(r) => owned_refusal(past, found, r),
        Event::Lease(r) => owned_refusal(past, found, r),
        Event::Return(l) => refused_if(!is_out(past, found, l), Refusal::NoLease),
        Event::Decline(f) => projecting_refusal(past, found, &nodes.marks, f),
        Event::End(n, terminal) => end_refusal(past, found, &nodes.marks, n, terminal),
        Event::Close(n) => closing_refusal(past, found, n),
        Event::Take(_) => None,
    }
}

/// Whether `l` is a leaf.
fn is_leaf(past: &[Event], l: u64) -> bool
    ensures { result ≡ at is_leaf past.now l }
{
    at(Event::is_leaf, past, l)
}

/// What refuses an item of leaf `l`. Where nothing does, the climb has the nodes that it visits.
#[tactic(auto, using(crate::proofs::Refusing::item_gone, crate::proofs::Refusing::item_no_leaf, crate::proofs::Refusing::refused_climbs))]
fn item_refusal(
    past: &[Event],
    found: &Found,
    subs: &Subscribers,
    nested: &Subscribers,
    climb: &mut Climb,
    l: u64,
    _value: i64,
) -> Result<Option<Refusal>, AllocError>
    requires found { IsFoundHere past.now found.now }
    requires linked { AreLinked past.now (length subs.now.listed.items) subs.now }
    requires listed { AreOpenListed past.now subs.now }
    requires nested_linked { AreLinked past.now (length nested.now.listed.items) nested.now }
    requires nested_listed { AreNestedListed past.now nested.now }
    ensures value { IfOk result (λ why. why ≡ refusal_against nothing_kept past.now (Emitting l _value)) }
    ensures climbed { IfOk result (λ why. why ≡ None → IsReached past.now l climb.new.log.items) }
{
    if !is_open_node(past, found, l) {
        return Ok(Some(Refusal::Gone));
    }
    if !is_leaf(past, l) {
        return Ok(Some(Refusal::WrongKind));
    }
    if !reached(past, subs, nested, climb, l)? {
        return Ok(Some(Refusal::TooMany));
    }
    Ok(None)
}

/// What refuses a caller's event, where operators have nothing left to do. Where nothing refuses an item, the
/// climb has the nodes that it visits.
pub fn refusal(
    past: &[Event],
    event: Event,
    found: &Found,
    nodes: &Nodes,
    climb: &mut Climb,
) -> Result<Option<Refusal>, AllocError>
    requires found { IsFoundHere past.now found.now }
    requires known { IsKnown past.now found.now.live.items nodes.now }
    ensures value { IfOk result (λ why. why ≡ refusal_of nothing_kept past.now event) }
    ensures climbed { IfOk result (λ why. why ≡ None → IsClimbed past.now event climb.new.log.items) }
{
    match event {
        Event::Item(leaf, value) => {
            item_refusal(
                past,
                found,
                &nodes.subscribers,
                &nodes.nested,
                climb,
                leaf,
                value,
            )
        }
        _ => Ok(refusal_simply(past, found, nodes, event)),
    }
}

/// Whether what the event hands out waits.
pub fn takes_waiting(past: &[Event], found: &Found, event: Event) -> bool
    requires { IsFoundHere past.now found.now }
    ensures { result ≡ takes_waiting past.now event }
{
    match event {
        Event::Take(r) => is_waiting(past, found, r),
        _ => true,
    }
}
