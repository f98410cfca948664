//! What was found of the events so far.

ghost use Rattle.std.specs.Prelude.{◌≡◌, ◌+◌, ◌<◌, ◌≤◌, ◌∷◌, ◌++◌, IfOk, OnOk, replicate, slice_index_or};
ghost use Rattle.rx_audit.specs.Imports.{nothing_kept, ℕ, false, [], length, option_and_then, returned_of, leases_of, IsLawful, MayFollow};
ghost use Rattle.rx_audit.specs.Found.{AreListsFound, IsClimbed};
ghost use Rattle.rx_audit.specs.Rules.{resource_of};
ghost use Rattle.rx_audit.specs.Standing.{IsFollowed};
ghost use Rattle.rx_audit.specs.Tables.{IsTally};
ghost use Rattle.rx_audit.specs.Verdict.{most_judged};

use crate::advance::{Nodes, advance};
use crate::children::zeros;
use crate::event_tests::event_at;
use crate::marks::{count, count_less, mark};
use crate::reach::Visit;
use rx_event::Event;
use std::alloc::{AllocError, Global};

/// What was found, by the number of a node, a resource or a lease. Each list has a place for every event
/// that there will be.
pub struct Found {
    /// The node is open.
    pub live: Vec<bool>,
    /// How many nodes are open.
    pub live_count: usize,
    /// The resource was removed from its node.
    pub removed: Vec<bool>,
    /// The lease was given back.
    pub returned: Vec<bool>,
    /// How many leases of the resource are out.
    pub leases: Vec<u32>,
    /// The resource was handed out.
    pub taken: Vec<bool>,
}

// Written out, so that where it is let go there is one call to prove, and not the drop of each list in turn.
impl Drop for Found {
    fn drop(self) {
        let Found {
            live: _live,
            live_count: _,
            removed: _removed,
            returned: _returned,
            leases: _leases,
            taken: _taken,
        } = self;
    }
}

/// A list of this many marks, none of which is set.
pub fn unmarked(alloc: Global, size: usize) -> Result<Vec<bool>, AllocError>
    ensures { IfOk result (λ v. v.items ≡ replicate size false) }
{
    Ok(vec![in alloc; false; size]?)
}

/// Nothing was found yet, of this many events.
pub fn nothing_found(alloc: Global, size: usize) -> Result<Found, AllocError>
    ensures { IfOk result (λ f. AreListsFound [] size f) }
{
    Ok(Found {
        live: unmarked(alloc, size)?,
        live_count: 0,
        removed: unmarked(alloc, size)?,
        returned: unmarked(alloc, size)?,
        leases: zeros(alloc, size)?,
        taken: unmarked(alloc, size)?,
    })
}

/// The resource of the lease that the event gives back.
fn given_back(past: &[Event], event: Event) -> Option<u64>
    ensures { result ≡ option_and_then (resource_of past.now) (returned_of event) }
{
    let lease = event.returned()?;
    event_at(past, lease as usize)?.leased()
}

/// Finds how many leases of each resource the event leaves out.
fn find_leases(past: &[Event], event: Event, leases: &mut [u32])
    requires lawful { IsLawful nothing_kept past.now }
    requires next { MayFollow nothing_kept past.now event }
    requires leases { IsTally leases.old (leases_of past.now) }
    requires few { (n : ℕ) → slice_index_or leases.old n 0 ≤ length past.now }
    requires room { length past.now < length leases.old }
    requires short { length past.now < most_judged }
    ensures leases { IsTally leases.new (leases_of (past.now ++ event ∷ [])) }
    ensures len { length leases.new ≡ length leases.old }
    ensures few { (n : ℕ) → slice_index_or leases.new n 0 ≤ length past.now + 1 }
{
    count(leases, event.leased());
    count_less(leases, given_back(past, event));
}

/// Finds what the event adds, and keeps what it changes. Of an item, `log` has the nodes that it visits.
pub fn follow(
    past: &[Event],
    event: Event,
    log: &[Visit],
    found: &mut Found,
    nodes: &mut Nodes,
) -> Result<(), AllocError>
    requires lawful { IsLawful nothing_kept past.now }
    requires next { MayFollow nothing_kept past.now event }
    requires followed { IsFollowed past.now (length found.old.live.items) nodes.old }
    requires found { AreListsFound past.now (length found.old.live.items) found.old }
    requires room { length past.now < length found.old.live.items }
    requires short { length past.now < most_judged }
    requires climbed { IsClimbed past.now event log.now }
    ensures found { OnOk result (AreListsFound (past.now ++ event ∷ []) (length found.old.live.items) found.new) }
    ensures followed { OnOk result (IsFollowed (past.now ++ event ∷ []) (length found.old.live.items) nodes.new) }
{
    advance(
        past,
        event,
        log,
        found.live.as_mut_slice(),
        &mut found.live_count,
        nodes,
    )?;
    mark(found.removed.as_mut_slice(), event.removed());
    mark(found.returned.as_mut_slice(), event.returned());
    find_leases(past, event, found.leases.as_mut_slice());
    mark(found.taken.as_mut_slice(), event.taken());
    Ok(())
}
