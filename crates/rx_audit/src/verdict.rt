//! The verdict on a list of events.

ghost use Rattle.std.specs.Prelude.{◌≡◌, ◌<◌, ◌≤◌, ◌&&◌, ◌↔◌, Err, IfOk, MatchOption};
ghost use Rattle.rx_audit.specs.Imports.{nothing_kept, true, false, IsTrue, [], Some, None, length, Event, open_nodes, held_resources};
ghost use Rattle.rx_audit.specs.Imports.{waiting_resources, IsSettled, MayFollow};
ghost use Rattle.rx_event.specs.Allowed.{IsAllowed};
ghost use Rattle.rx_audit.specs.Rules.{opens_pass, opened_with};
ghost use Rattle.rx_audit.specs.Standing.{IsFollowed, IsKnown, IsAllFound};
ghost use Rattle.rx_audit.specs.Found.{AreListsFound, IsFoundHere, IsClimbed};
ghost use Rattle.rx_audit.specs.Verdict.{IsVerdict, IsFoundUnlawful, IsRefusedAfter, most_judged};

use crate::advance::{Nodes, no_nodes};
use crate::allowed::{is_held, is_waiting, refusal, takes_waiting};
use crate::duties::settle;
use crate::event_tests::at;
use crate::forced::is_forced;
use crate::found::{Found, follow, nothing_found};
use crate::marks::is_marked;
use crate::reach::{Climb, no_climb};
use rx_event::{Event, Kind, Refusal};
use std::alloc::{AllocError, Global};

/// What the audit says of a list of events.
#[derive(Debug, Drop)]
pub enum Verdict {
    /// The events are a history that may be, and operators have nothing left to do.
    Lawful {
        /// The open nodes, by rising number.
        live: Vec<u64>,
        /// The resources that are held, by rising number.
        held: Vec<u64>,
        /// The resources that wait to be handed out, by rising number.
        waiting: Vec<u64>,
    },
    /// The events before this place are a history that may be, and the event there may not follow
    /// them.
    Unlawful {
        /// The place, from 0.
        place: u64,
    },
    /// The events are a history that may be, and operators have something left to do.
    Unsettled,
}

/// Why there is no verdict.
#[derive(Clone, Copy, Debug, PartialEq, Eq, Drop)]
pub enum NoVerdict {
    /// The list has more than [`MOST_JUDGED`] events.
    TooMany,
    /// Memory was asked for and refused.
    NoMemory,
}

/// Whether a caller's event may come next, where operators have nothing left to do. Where an item may, the
/// climb has the nodes that it visits.
#[tactic(auto, using(crate::proofs::TestsToVerdict::none_climbs))]
fn is_allowed(
    past: &[Event],
    event: Event,
    found: &Found,
    nodes: &Nodes,
    climb: &mut Climb,
) -> Result<bool, AllocError>
    requires settled { IsSettled nothing_kept past.now }
    requires found { IsFoundHere past.now found.now }
    requires known { IsKnown past.now found.now.live.items nodes.now }
    ensures allows { IfOk result (λ b. IsTrue b ↔ IsAllowed nothing_kept past.now event) }
    ensures climbed { IfOk result (λ b. IsTrue b → IsClimbed past.now event climb.new.log.items) }
{
    let why = refusal(past, event, found, nodes, climb)?;
    Ok(why.is_none() && takes_waiting(past, found, event))
}

/// Whether the event opens a mirroring node.
fn opens_pass(event: Event) -> bool
    ensures { result ≡ opens_pass event }
{
    match event {
        Event::Open {
            kind: Kind::Pass,
            ..
        } => true,
        _ => false,
    }
}

/// Whether the event accepts a resource at the node that was opened last, which is a mirroring one
/// (Using).
fn is_opened_with(past: &[Event], found: &Found, event: Event) -> bool
    requires { IsFoundHere past.now found.now }
    ensures { result ≡ opened_with past.now event }
{
    match event {
        Event::Accept(n, _) => {
            at(opens_pass, past, n)
                && past.len() as u64 - 1 == n
                && is_marked(found.live.as_slice(), n)
        }
        _ => false,
    }
}

/// Whether the event may come next, where operators have something left to do.
fn may_follow_unsettled(past: &[Event], event: Event, found: &Found, nodes: &Nodes) -> bool
    requires found { IsFoundHere past.now found.now }
    requires known { IsKnown past.now found.now.live.items nodes.now }
    requires unsettled { ¬ IsSettled nothing_kept past.now }
    ensures { IsTrue result ↔ MayFollow nothing_kept past.now event }
{
    if is_forced(past, found.live.as_slice(), nodes, event) {
        return true;
    }
    is_opened_with(past, found, event)
}

/// Whether the event may come next. Where an item may, the climb has the nodes that it visits.
fn may_follow(
    past: &[Event],
    event: Event,
    found: &Found,
    nodes: &Nodes,
    settled: bool,
    climb: &mut Climb,
) -> Result<bool, AllocError>
    requires found { IsFoundHere past.now found.now }
    requires known { IsKnown past.now found.now.live.items nodes.now }
    requires settled { IsTrue settled ↔ IsSettled nothing_kept past.now }
    ensures follows { IfOk result (λ b. IsTrue b ↔ MayFollow nothing_kept past.now event) }
    ensures climbed { IfOk result (λ b. IsTrue b → IsClimbed past.now event climb.new.log.items) }
{
    if settled {
        return is_allowed(past, event, found, nodes, climb);
    }
    Ok(may_follow_unsettled(past, event, found, nodes))
}

/// The first place whose event may not follow those before it, if there is one. Where there is
/// none, `found` is what was found of all events, and `nodes` what is kept of them.
fn first_unlawful(
    events: &[Event],
    found: &mut Found,
    nodes: &mut Nodes,
    climb: &mut Climb,
) -> Result<Option<u64>, AllocError>
    requires found { AreListsFound [] (length events.now) found.old }
    requires followed { IsFollowed [] (length events.now) nodes.old }
    requires short { length events.now ≤ most_judged }
    ensures { IfOk result
        (λ place. MatchOption place (IsAllFound events.now found.new nodes.new) (IsFoundUnlawful events.now)) }
{
    for i in 0..events.len() {
        let past = &events[..i];
        let event = events[i];
        let settled = settle(past, found.live.as_slice(), nodes);
        if !may_follow(past, event, found, nodes, settled, climb)? {
            return Ok(Some(i as u64));
        }
        follow(past, event, climb.log.as_slice(), found, nodes)?;
    }
    Ok(None)
}

/// The open nodes.
fn open_nodes(alloc: Global, events: &[Event], found: &Found) -> Result<Vec<u64>, AllocError>
    requires { IsFoundHere events.now found.now }
    ensures { IfOk result (λ v. v.items ≡ open_nodes events.now) }
{
    (0..events.len() as u64)
        .filter(|k| is_marked(found.live.as_slice(), *k))
        .collect(alloc)
}

/// The held resources.
fn held_resources(alloc: Global, events: &[Event], found: &Found) -> Result<Vec<u64>, AllocError>
    requires { IsFoundHere events.now found.now }
    ensures { IfOk result (λ v. v.items ≡ held_resources events.now) }
{
    (0..events.len() as u64)
        .filter(|r| is_held(events, found, *r))
        .collect(alloc)
}

/// The resources that wait.
fn waiting_resources(alloc: Global, events: &[Event], found: &Found) -> Result<Vec<u64>, AllocError>
    requires { IsFoundHere events.now found.now }
    ensures { IfOk result (λ v. v.items ≡ waiting_resources events.now) }
{
    (0..events.len() as u64)
        .filter(|r| is_waiting(events, found, *r))
        .collect(alloc)
}

/// The verdict on a lawful list of events.
fn judge_lawful(
    alloc: Global,
    events: &[Event],
    found: &Found,
    nodes: &mut Nodes,
) -> Result<Verdict, AllocError>
    requires { IsAllFound events.now found.now nodes.old }
    ensures { IfOk result (IsVerdict events.now) }
{
    if !settle(events, found.live.as_slice(), nodes) {
        return Ok(Verdict::Unsettled);
    }
    Ok(Verdict::Lawful {
        live: open_nodes(alloc, events, found)?,
        held: held_resources(alloc, events, found)?,
        waiting: waiting_resources(alloc, events, found)?,
    })
}

/// How many events a list that is judged has at most: their numbers take 32 bits.
pub const MOST_JUDGED: usize = 4_294_967_295;

/// The verdict on a list of events that is not too long.
fn judge(alloc: Global, events: &[Event]) -> Result<Verdict, AllocError>
    requires { length events.now ≤ most_judged }
    ensures { IfOk result (IsVerdict events.now) }
{
    let mut found = nothing_found(alloc, events.len())?;
    let mut nodes = no_nodes(alloc, events.len())?;
    let mut climb = no_climb(alloc, events.len())?;
    match first_unlawful(events, &mut found, &mut nodes, &mut climb)? {
        Some(place) => Ok(Verdict::Unlawful { place }),
        None => judge_lawful(alloc, events, &found, &mut nodes),
    }
}

/// The verdict on any list of events, oldest first: `Unlawful` with the first place whose event may
/// not follow those before it, `Unsettled` where all may and operators have something left to do,
/// else `Lawful` with what is open, held and waiting. The rules are those of the Observable
/// Contract, of the operators' pages at reactivex.io and of System.Reactive's disposables.
///
/// Refused with `TooMany` exactly where there are more than [`MOST_JUDGED`] events, whose numbers the lists of
/// the audit have no room for, and else with `NoMemory` where memory was asked for and refused.
pub fn audit(alloc: Global, events: &[Event]) -> Result<Verdict, NoVerdict>
    ensures ok { IfOk result (IsVerdict events.now) }
    ensures refused_too_many { (result ≡ Err NoVerdict.TooMany) ↔ (most_judged < length events.now) }
{
    if events.len() > MOST_JUDGED {
        return Err(NoVerdict::TooMany);
    }
    match judge(alloc, events) {
        Ok(verdict) => Ok(verdict),
        Err(_) => Err(NoVerdict::NoMemory),
    }
}

// What refuses the event behind a list that is not too long, where each event of the list may follow those before it.
#[tactic(auto, using(crate::proofs::TestsToVerdict::not_lawful))]
fn refused_after(
    alloc: Global,
    events: &[Event],
    event: Event,
) -> Result<Option<Refusal>, AllocError>
    requires { length events.now ≤ most_judged }
    ensures { IfOk result (IsRefusedAfter events.now event) }
{
    let mut found = nothing_found(alloc, events.len())?;
    let mut nodes = no_nodes(alloc, events.len())?;
    let mut climb = no_climb(alloc, events.len())?;
    match first_unlawful(events, &mut found, &mut nodes, &mut climb)? {
        Some(_place) => Ok(None),
        None => refusal(events, event, &found, &nodes, &mut climb),
    }
}

/// What refuses a caller's event after a lawful list of events: the first cause, but for room, that stands
/// against the call behind it. `None` of an event that is allowed, and of the taking of a resource, which no
/// cause refuses.
///
/// Refused as [`audit`] is.
pub fn refused(alloc: Global, events: &[Event], event: Event) -> Result<Option<Refusal>, NoVerdict>
    ensures ok { IfOk result (IsRefusedAfter events.now event) }
    ensures refused_too_many { (result ≡ Err NoVerdict.TooMany) ↔ (most_judged < length events.now) }
{
    if events.len() > MOST_JUDGED {
        return Err(NoVerdict::TooMany);
    }
    match refused_after(alloc, events, event) {
        Ok(why) => Ok(why),
        Err(_) => Err(NoVerdict::NoMemory),
    }
}
