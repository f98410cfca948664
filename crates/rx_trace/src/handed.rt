//! Which resources were handed out for their release.

ghost use Rattle.std.specs.Prelude.{◌≡◌, ◌++◌, ◌∷◌, [], List, nat_eq, OnOk};
ghost use Rattle.std.specs.HashSet.{contains};
ghost use Rattle.rx_event.specs.declared.event.Event.{Event};
ghost use Rattle.rx_trace.specs.Taken.{AreHandedOut};

use rx_event::Event;
use std::alloc::{AllocError, Global};
use std::collections::HashSet;

/// The resources that were handed out for their release, by their numbers. The book does not tell them beyond a
/// checkpoint.
#[derive(Drop)]
pub struct HandedOut {
    pub(crate) numbers: HashSet<u64>,
}

impl HandedOut {
    /// Those of no event. It takes no memory.
    pub fn new(alloc: Global) -> Self
        ensures { AreHandedOut result [] }
    {
        HandedOut {
            numbers: HashSet::new(alloc),
        }
    }

    /// Whether the resource is one of them.
    pub fn has(&self, resource: u64) -> bool
        ensures { result ≡ contains nat_eq self.now.numbers resource }
    {
        self.numbers.contains(&resource)
    }

    /// With the one of this event, if it hands one out.
    pub fn add(&mut self, event: &Event) -> Result<(), AllocError>
        ensures { OnOk result ((h : List Event) → AreHandedOut self.old h → AreHandedOut self.new (h ++ event.now ∷ [])) }
    {
        if let Event::Take(resource) = *event {
            self.numbers.insert(resource)?;
        }
        Ok(())
    }
}
