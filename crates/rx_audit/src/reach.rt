//! How often an item reaches each node.
//!
//! Nodes are counted and not listed one by one, so that an item that takes many paths costs no
//! more than the nodes on them. A root is counted and not listed: an item that is delivered there changes
//! nothing.

ghost use Rattle.std.specs.Prelude.{◌≡◌, ℕ, ◌+◌, ◌*◌, ◌^◌, ◌<◌, ◌≤◌, IfOk, OnOk, length, take, drop, sum_by};
ghost use Rattle.std.specs.Bool.{MatchBool};
ghost use Rattle.rx_event.specs.Climb.{onward, visits};
ghost use Rattle.rx_audit.specs.HubTables.{AreLinked, AreOpenListed, AreNestedListed};
ghost use Rattle.rx_audit.specs.Flow.{times, IsOften, IsReached};

use crate::children::value_at;
use crate::climb::onward;
use crate::subscribers::Subscribers;
use rx_event::{Event, MOST_VISITS};
use std::alloc::{AllocError, Global};

/// How often a node is reached, on the paths that were found so far.
#[derive(Clone, Copy)]
pub struct Visit {
    /// The node.
    pub node: u64,
    /// How often.
    pub count: u64,
}

/// What a climb for an item takes, kept for the next one, so that it asks for memory only where it
/// grows.
pub struct Climb {
    /// By node: where in the log its last entry may be. What stands there from items before does no
    /// harm, since the entry itself is looked at.
    pub entries: Vec<u32>,
    /// The nodes that the last item visits, and how often: its leaf, and those that are no roots.
    pub log: Vec<Visit>,
    /// The nodes on which an item goes from the one that is looked at.
    pub next: Vec<u64>,
}

// Written out, so that where it is let go there is one call to prove, and not the drop of each list in turn.
impl Drop for Climb {
    fn drop(self) {
        let Climb {
            entries: _entries,
            log: _log,
            next: _next,
        } = self;
    }
}

/// Nothing was climbed for yet, with room for this many events.
pub fn no_climb(alloc: Global, size: usize) -> Result<Climb, AllocError> {
    Ok(Climb {
        entries: vec![in alloc; 0; size]?,
        log: Vec::new(alloc),
        next: Vec::new(alloc),
    })
}

/// Remembers where in the log the last entry of a node is; no log is so long that this does not fit.
fn note_entry(entries: &mut Vec<u32>, node: u64, at: usize) {
    let n = node as usize;
    if let Ok(at) = u32::try_from(at) {
        if n < entries.len() {
            entries[n] = at;
        }
    }
}

/// Adds so many to how often a node is reached: to its last entry in the log, if that was not
/// followed yet, else to a new one.
fn reach(
    log: &mut Vec<Visit>,
    entries: &mut Vec<u32>,
    followed: usize,
    node: u64,
    count: u64,
) -> Result<(), AllocError>
    requires within { followed < length log.old.items }
    requires few { sum_by (times (λ n. 1)) (drop (followed + 1) log.old.items) + count < 2 ^ 64 }
    requires often { IsOften log.old.items }
    requires some { 0 < count }
    ensures kept { OnOk result (take (followed + 1) log.new.items ≡ take (followed + 1) log.old.items) }
    ensures more { OnOk result ((number : ℕ → ℕ) → sum_by (times number) (drop (followed + 1) log.new.items)
        ≡ sum_by (times number) (drop (followed + 1) log.old.items) + count * number node) }
    ensures often { OnOk result (IsOften log.new.items) }
    ensures grows { OnOk result (length log.old.items ≤ length log.new.items) }
{
    let at = value_at(entries, node);
    if followed < at && at < log.len() && log[at].node == node {
        log[at].count += count;
        return Ok(());
    }
    note_entry(entries, node, log.len());
    log.push(Visit { node, count })?;
    Ok(())
}

/// Reaches each of these nodes so often.
fn spread(
    log: &mut Vec<Visit>,
    entries: &mut Vec<u32>,
    followed: usize,
    next: &[u64],
    count: u64,
) -> Result<(), AllocError>
    requires within { followed < length log.old.items }
    requires few { sum_by (times (λ n. 1)) (drop (followed + 1) log.old.items) + count * length next.now < 2 ^ 64 }
    requires often { IsOften log.old.items }
    requires some { 0 < count }
    ensures kept { OnOk result (take (followed + 1) log.new.items ≡ take (followed + 1) log.old.items) }
    ensures more { OnOk result ((number : ℕ → ℕ) → sum_by (times number) (drop (followed + 1) log.new.items)
        ≡ sum_by (times number) (drop (followed + 1) log.old.items) + count * sum_by number next.now) }
    ensures often { OnOk result (IsOften log.new.items) }
    ensures grows { OnOk result (length log.old.items ≤ length log.new.items) }
{
    for m in next {
        reach(log, entries, followed, *m, count)?;
    }
    Ok(())
}

/// Finds how often an item of this leaf reaches each node that is no root, in the log, and whether it makes no
/// more visits than it may.
pub fn reached(
    past: &[Event],
    subs: &Subscribers,
    nested: &Subscribers,
    climb: &mut Climb,
    leaf: u64,
) -> Result<bool, AllocError>
    requires linked { AreLinked past.now (length subs.now.listed.items) subs.now }
    requires listed { AreOpenListed past.now subs.now }
    requires nested_linked { AreLinked past.now (length nested.now.listed.items) nested.now }
    requires nested_listed { AreNestedListed past.now nested.now }
    ensures { IfOk result (λ b. MatchBool b
        (IsReached past.now leaf climb.new.log.items) (1048576 < visits past.now leaf)) }
{
    climb.log.clear();
    climb.log.push(Visit {
        node: leaf,
        count: 1,
    })?;
    let mut total: u64 = 1;
    for i in 0..MOST_VISITS as usize {
        if i >= climb.log.len() {
            return Ok(true);
        }
        let visit = climb.log[i];
        climb.next.clear();
        let size = onward(past, subs, nested, visit.node, &mut climb.next)?;
        let more = u128::from(visit.count) * size as u128;
        if more > u128::from(MOST_VISITS - total) {
            return Ok(false);
        }
        total += more as u64;
        spread(
            &mut climb.log,
            &mut climb.entries,
            i,
            climb.next.as_slice(),
            visit.count,
        )?;
    }
    Ok(true)
}
