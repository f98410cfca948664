//! One more event, counted.

ghost use Rattle.std.specs.Prelude.{◌≡◌, ◌<◌, ◌+◌, ◌-◌, ◌==◌, ◌++◌, ◌∷◌, [], ℕ, List, nat_eq};
ghost use Rattle.std.specs.Prelude.{slice_get, length, option_and_then, unwrap_or, OnOk, if◌then◌else◌};
ghost use Rattle.std.specs.List.{list_any};
ghost use Rattle.std.specs.HashMap.{get};
ghost use Rattle.std.specs.HashSet.{contains};
ghost use Rattle.rx_event.specs.declared.event.Event.{Event};
ghost use Rattle.rx_event.specs.Events.{makes_node, is_take_of};
ghost use Rattle.rx_event.specs.Kept.{nothing_kept};
ghost use Rattle.rx_event.specs.Lawful.{IsLawful};
ghost use Rattle.rx_event.specs.Resources.{uses, leases_of};
ghost use Rattle.rx_event.specs.Tree.{at};
ghost use Rattle.rx_book.specs.State.{accepted_tag};
ghost use Rattle.rx_script.specs.Lines.{is_told};
ghost use Rattle.rx_script.specs.Tallies.{leased_out, AreCountsOf};

use crate::tallies::Tallies;
use rx_event::{Event, Kind, Place};
use std::alloc::AllocError;
use std::collections::{HashMap, HashSet};

// Whether the node that the event makes is told something: a root, a FlatMap or a Switch.
fn is_told(event: &Event) -> bool
    ensures { result ≡ is_told event.now }
{
    match *event {
        Event::Open {
            place: Place::Root,
            kind: _,
        } => true,
        Event::Open { place: _, kind } => matches!(kind, Kind::Flat | Kind::Switch),
        _ => false,
    }
}

fn makes_node(event: &Event) -> bool
    ensures { result ≡ makes_node event.now }
{
    matches!(
        *event,
        Event::Open { place: _, kind: _ } | Event::Connect(_)
    )
}

fn accepted_tag(event: &Event) -> Option<u64>
    ensures { result ≡ accepted_tag event.now }
{
    match *event {
        Event::Accept(_, tag) => Some(tag),
        _ => None,
    }
}

// One more of this number. There are fewer events than would reach the end of a `u64`.
fn raise(counts: &mut HashMap<u64, u64>, number: u64) -> Result<(), AllocError>
    ensures { OnOk result ((n : ℕ) → unwrap_or (get nat_eq counts.old n) 0 < 18446744073709551615
        → unwrap_or (get nat_eq counts.new n) 0
        ≡ unwrap_or (get nat_eq counts.old n) 0 + (if number == n then 1 else 0)) }
{
    let count = counts.entry(number)?.or_insert(0u64);
    *count = count.saturating_add(1);
    Ok(())
}

// One less of this number, which has one.
fn lower(counts: &mut HashMap<u64, u64>, number: u64)
    ensures { (n : ℕ) → unwrap_or (get nat_eq counts.new n) 0
        ≡ unwrap_or (get nat_eq counts.old n) 0 - (if number == n then 1 else 0) }
{
    if let Some(count) = counts.get_mut(&number) {
        *count = count.saturating_sub(1);
    }
}

// The nodes that are told something, with the one that the event made.
fn add_told(told: &mut HashSet<u64>, place: u64, event: &Event) -> Result<(), AllocError>
    ensures { OnOk result ((h : List Event) → place ≡ length h → ((n : ℕ) → contains nat_eq told.old n ≡ at is_told h n)
        → (n : ℕ) → contains nat_eq told.new n ≡ at is_told (h ++ event.now ∷ []) n) }
{
    if is_told(event) {
        told.insert(place)?;
    }
    Ok(())
}

// The tags, with that of the resource that the event accepted.
fn add_tag(tags: &mut HashMap<u64, u64>, place: u64, event: &Event) -> Result<(), AllocError>
    ensures { OnOk result ((h : List Event) → place ≡ length h
        → ((r : ℕ) → get nat_eq tags.old r ≡ option_and_then accepted_tag (slice_get h r))
        → (r : ℕ) → get nat_eq tags.new r ≡ option_and_then accepted_tag (slice_get (h ++ event.now ∷ []) r)) }
{
    if let Some(tag) = accepted_tag(event) {
        tags.insert(place, tag)?;
    }
    Ok(())
}

// How often each resource was used, with this event.
fn add_use(counts: &mut HashMap<u64, u64>, event: &Event) -> Result<(), AllocError>
    ensures { OnOk result ((h : List Event) → length h < 18446744073709551615
        → ((r : ℕ) → unwrap_or (get nat_eq counts.old r) 0 ≡ uses nothing_kept h r)
        → (r : ℕ) → unwrap_or (get nat_eq counts.new r) 0 ≡ uses nothing_kept (h ++ event.now ∷ []) r) }
{
    if let Event::Use(resource) = *event {
        raise(counts, resource)?;
    }
    Ok(())
}

// The resources that were handed out, with the one of this event.
fn add_take(taken: &mut HashSet<u64>, event: &Event) -> Result<(), AllocError>
    ensures { OnOk result ((h : List Event) → ((r : ℕ) → contains nat_eq taken.old r ≡ list_any (is_take_of r) h)
        → (r : ℕ) → contains nat_eq taken.new r ≡ list_any (is_take_of r) (h ++ event.now ∷ [])) }
{
    if let Event::Take(resource) = *event {
        taken.insert(resource)?;
    }
    Ok(())
}

impl Tallies {
    // The leases that are out, and how many of each resource, with this event. In a lawful history a lease
    // comes back once, after it was given out.
    fn add_lease(&mut self, place: u64, event: &Event) -> Result<(), AllocError>
        ensures leases { OnOk result ((h : List Event) → place ≡ length h → place < 18446744073709551615
            → IsLawful nothing_kept (h ++ event.now ∷ []) → ((l : ℕ) → get nat_eq self.old.out l ≡ leased_out h l)
            → ((r : ℕ) → unwrap_or (get nat_eq self.old.leases r) 0 ≡ leases_of h r)
            → (r : ℕ) → unwrap_or (get nat_eq self.new.leases r) 0 ≡ leases_of (h ++ event.now ∷ []) r) }
        ensures out { OnOk result ((h : List Event) → place ≡ length h
            → IsLawful nothing_kept (h ++ event.now ∷ []) → ((l : ℕ) → get nat_eq self.old.out l ≡ leased_out h l)
            → (l : ℕ) → get nat_eq self.new.out l ≡ leased_out (h ++ event.now ∷ []) l) }
        ensures kept { self.new ≡ record self.old { out = self.new.out; leases = self.new.leases } }
    {
        match *event {
            Event::Lease(resource) => {
                self.out.insert(place, resource)?;
                raise(&mut self.leases, resource)?;
            }
            Event::Return(lease) => {
                if let Some(resource) = self.out.remove(&lease) {
                    lower(&mut self.leases, resource);
                }
            }
            _ => {}
        }
        Ok(())
    }

    /// Counts one more event, which follows those that were counted.
    pub(crate) fn add_event(&mut self, event: &Event) -> Result<(), AllocError>
        requires { self.old.events < 18446744073709551615 }
        ensures counts { OnOk result ((h : List Event) → IsLawful nothing_kept (h ++ event.now ∷ [])
            → AreCountsOf h self.old → AreCountsOf (h ++ event.now ∷ []) self.new) }
        ensures events { OnOk result (self.new.events ≡ self.old.events + 1) }
        ensures notes { self.new.notes ≡ self.old.notes }
    {
        let place = self.events;
        add_told(&mut self.told, place, event)?;
        add_tag(&mut self.tags, place, event)?;
        add_use(&mut self.uses, event)?;
        self.add_lease(place, event)?;
        add_take(&mut self.taken, event)?;
        if makes_node(event) {
            self.nodes = self.nodes.saturating_add(1);
        }
        self.events = place + 1;
        Ok(())
    }
}
