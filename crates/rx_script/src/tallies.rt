//! What each resource and each node met, kept as events and notes come.

ghost use Rattle.std.specs.Prelude.{◌≡◌, ◌++◌, ◌∷◌, [], List, Option, nat_eq, unwrap_or, OnOk};
ghost use Rattle.std.specs.Option.{option_map_or};
ghost use Rattle.std.specs.HashMap.{get};
ghost use Rattle.std.specs.HashSet.{contains};
ghost use Rattle.rx_event.specs.declared.mail.Mail.{Mail};
ghost use Rattle.rx_script.specs.Repeated.{one_by_one};
ghost use Rattle.rx_script.specs.Tallies.{AreCountsOf, AreNotesOf};

use crate::repeated::{Repeated, add};
use rx_book::Mail;
use std::alloc::{AllocError, Global};
use std::collections::{HashMap, HashSet};

/// What a report's lines need of all events and notes so far, by the numbers of nodes, resources and
/// leases, so that neither an event nor a note has to be kept for it. It grows with the nodes, resources
/// and notes that there were.
#[derive(Drop)]
pub struct Tallies {
    /// How many events were counted.
    pub(crate) events: u64,
    /// How many of them made a node.
    pub(crate) nodes: u64,
    /// The nodes that are told something.
    pub(crate) told: HashSet<u64>,
    /// The tag of each resource.
    pub(crate) tags: HashMap<u64, u64>,
    /// How often each resource was used; one that was not has no entry.
    pub(crate) uses: HashMap<u64, u64>,
    /// How many leases of each resource are out; one that was never leased has no entry.
    pub(crate) leases: HashMap<u64, u64>,
    /// The resource of each lease that is out.
    pub(crate) out: HashMap<u64, u64>,
    /// The resources that were handed out for their release.
    pub(crate) taken: HashSet<u64>,
    /// The notes to each node, in order.
    pub(crate) notes: HashMap<u64, Vec<Repeated>>,
}

impl Tallies {
    /// Of no event and no note. It takes no memory.
    pub fn new(alloc: Global) -> Self
        ensures counts { AreCountsOf [] result }
        ensures notes { AreNotesOf [] result }
    {
        Tallies {
            events: 0,
            nodes: 0,
            told: HashSet::new(alloc),
            tags: HashMap::new(alloc),
            uses: HashMap::new(alloc),
            leases: HashMap::new(alloc),
            out: HashMap::new(alloc),
            taken: HashSet::new(alloc),
            notes: HashMap::new(alloc),
        }
    }

    /// Notes what a node was told.
    pub(crate) fn add_note(&mut self, sent: Mail) -> Result<(), AllocError>
        ensures notes { OnOk result ((mail : List Mail) → AreNotesOf mail self.old
            → AreNotesOf (mail ++ sent ∷ []) self.new) }
        ensures kept { self.new ≡ record self.old { notes = self.new.notes } }
    {
        add(self.notes.entry(sent.to)?.or_default(), sent.note)
    }

    /// Whether the node is told something.
    pub(crate) fn is_told(&self, node: u64) -> bool
        ensures { result ≡ contains nat_eq self.now.told node }
    {
        self.told.contains(&node)
    }

    /// The tag of the resource, if there is one of this number.
    pub(crate) fn tag_of(&self, resource: u64) -> Option<u64>
        ensures { result ≡ get nat_eq self.now.tags resource }
    {
        self.tags.get(&resource).copied()
    }

    /// How often the resource was used.
    pub(crate) fn uses_of(&self, resource: u64) -> u64
        ensures { result ≡ unwrap_or (get nat_eq self.now.uses resource) 0 }
    {
        self.uses.get(&resource).copied().unwrap_or(0)
    }

    /// How many leases of the resource are out.
    pub(crate) fn leases_of(&self, resource: u64) -> u64
        ensures { result ≡ unwrap_or (get nat_eq self.now.leases resource) 0 }
    {
        self.leases.get(&resource).copied().unwrap_or(0)
    }

    /// The notes to the node.
    pub(crate) fn notes_to(&self, node: u64) -> &[Repeated]
        ensures { one_by_one result.now ≡ option_map_or (λ g. one_by_one g.items) (get nat_eq self.now.notes node) [] }
    {
        match self.notes.get(&node) {
            Some(notes) => notes.as_slice(),
            None => &[],
        }
    }
}
