//! What is told of the events before the last checkpoint.

ghost use Rattle.std.specs.Prelude.{◌≡◌, ℕ, Some, unwrap_or, length, IfOk, OnOk};
ghost use Rattle.std.specs.Bool.{nat_eq};
ghost use Rattle.std.specs.HashMap.{get};
ghost use Rattle.rx_listing.specs.Recalled.{made_in, holder_in, made_by, holder_by, ArePlaced, IsBlank, Recalls};
ghost use Rattle.rx_listing.specs.Parts.{IsPut, IsKept, HasNamed};

use crate::counts::{Counts, count_of, keep};
use crate::known::{Known, holder_of, made_at};
use crate::numbers::rising;
use crate::seen::{Seen, seen_of};
use rx_book::{Book, Event, Resource};
use std::alloc::{AllocError, Global};
use std::collections::HashMap;

/// What is told of the events before the last checkpoint: what made all nodes, hubs and leases that have names,
/// the node and the uses of each resource that has one, and the hub of each connection that is open.
pub struct Past {
    made: HashMap<u64, Event>,
    holders: Counts,
    uses: Counts,
    connections: Counts,
}

// Written out, so that where one is let go there is one call to prove, and not the drop of each field in turn.
impl Drop for Past {
    fn drop(self) {
        let Past {
            made: _made,
            holders: _holders,
            uses: _uses,
            connections: _connections,
        } = self;
    }
}

impl Past {
    /// There was no checkpoint. It takes no memory.
    pub fn new(alloc: Global) -> Self
        ensures { IsBlank result }
    {
        Past {
            made: HashMap::new(alloc),
            holders: HashMap::new(alloc),
            uses: HashMap::new(alloc),
            connections: HashMap::new(alloc),
        }
    }

    /// The event that made what has this number.
    pub fn made(&self, number: u64) -> Option<Event>
        ensures { result ≡ made_in self.now number }
    {
        self.made.get(&number).copied()
    }

    /// The node that a resource was accepted at.
    pub fn holder(&self, res: u64) -> Option<u64>
        ensures { result ≡ holder_in self.now res }
    {
        self.holders.get(&res).copied()
    }

    /// What the events since add to.
    pub fn begin(&self) -> Result<Seen, AllocError>
        ensures uses { IfOk result (λ s. (r : ℕ) → get nat_eq s.uses r ≡ get nat_eq self.now.uses r) }
        ensures connections { IfOk result (λ s. (c : ℕ) →
            get nat_eq s.connections c ≡ get nat_eq self.now.connections c) }
    {
        let uses = self.uses.clone()?;
        let connections = self.connections.clone()?;
        Ok(Seen { uses, connections })
    }
}

fn keep_event(made: &mut HashMap<u64, Event>, number: u64, event: Event) -> Result<(), AllocError>
    ensures { OnOk result (IsPut (get nat_eq made.old) number event (get nat_eq made.new)) }
{
    match made.insert(number, event) {
        Ok(_) => Ok(()),
        Err(_) => Err(AllocError),
    }
}

// What made all that has one of these numbers.
fn made_of<R: Resource>(
    alloc: Global,
    book: &Book<R>,
    past: &Past,
    numbers: &[u64],
) -> Result<HashMap<u64, Event>, AllocError>
    ensures { IfOk result (λ v. IsKept numbers.now (made_by book.now past.now) (get nat_eq v)) }
{
    let mut made = HashMap::new(alloc);
    'numbers: for number in numbers {
        if let Some(event) = made_at(book, past, *number) {
            keep_event(&mut made, *number, event)?;
        }
    }
    Ok(made)
}

// The numbers of all nodes, hubs and leases that have names.
fn made_numbers(alloc: Global, known: &Known) -> Result<Vec<u64>, AllocError>
    ensures nodes { IfOk result (λ v. HasNamed v.items known.now.nodes.now) }
    ensures hubs { IfOk result (λ v. HasNamed v.items known.now.hubs.now) }
    ensures leases { IfOk result (λ v. HasNamed v.items known.now.leases.now) }
{
    let mut numbers = rising(alloc, known.nodes)?;
    let hubs = rising(alloc, known.hubs)?;
    let leases = rising(alloc, known.leases)?;
    numbers.extend_from_slice(hubs.as_slice())?;
    numbers.extend_from_slice(leases.as_slice())?;
    Ok(numbers)
}

// The node of each resource of these numbers.
fn holders_of<R: Resource>(
    alloc: Global,
    book: &Book<R>,
    past: &Past,
    numbers: &[u64],
) -> Result<Counts, AllocError>
    ensures { IfOk result (λ v. IsKept numbers.now (holder_by book.now past.now) (get nat_eq v)) }
{
    let mut holders = HashMap::new(alloc);
    'numbers: for number in numbers {
        if let Some(node) = holder_of(book, past, *number) {
            keep(&mut holders, *number, node)?;
        }
    }
    Ok(holders)
}

// The uses of each resource of these numbers.
fn uses_of(alloc: Global, seen: &Seen, numbers: &[u64]) -> Result<Counts, AllocError>
    ensures { IfOk result (λ v.
        IsKept numbers.now (λ r. Some (unwrap_or (get nat_eq seen.now.uses r) 0)) (get nat_eq v)) }
{
    let mut uses = HashMap::new(alloc);
    'numbers: for number in numbers {
        keep(&mut uses, *number, count_of(&seen.uses, *number))?;
    }
    Ok(uses)
}

/// What is told of all events so far, once they are gone. Err where memory is refused.
pub fn past_of<R: Resource>(
    alloc: Global,
    book: &Book<R>,
    known: &Known,
) -> Result<Past, AllocError>
    ensures { IfOk result (λ past. ArePlaced (length book.now.history) known.now → Recalls book.now known.now past) }
{
    let seen = seen_of(book, known)?;
    let numbers = made_numbers(alloc, known)?;
    let made = made_of(alloc, book, known.past, numbers.as_slice())?;
    let resources = rising(alloc, known.resources)?;
    let holders = holders_of(alloc, book, known.past, resources.as_slice())?;
    let uses = uses_of(alloc, &seen, resources.as_slice())?;
    Ok(Past {
        made,
        holders,
        uses,
        connections: seen.into_connections(),
    })
}
