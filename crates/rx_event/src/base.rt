//! What a checkpoint keeps of a settled history.

ghost use Rattle.std.specs.Prelude.{◌≡◌};
ghost use Rattle.rx_event.specs.Kept.{nothing_kept};

use crate::event::{Event, Mode};
use std::alloc::Global;
use std::marker::Model;

/// A hub.
#[derive(Clone, Copy)]
pub struct BaseHub {
    /// Its number.
    pub number: u64,
    /// How it is connected.
    pub mode: Mode,
}

/// An open node.
#[derive(Clone, Copy)]
pub struct BaseNode {
    /// Its number.
    pub number: u64,
    /// The event that made it.
    pub made: Event,
    /// Whether a source was ever opened below it.
    pub source_opened: bool,
    /// Whether a notifier was ever opened below it.
    pub notifier_opened: bool,
    /// Whether its source completed.
    pub source_completed: bool,
    /// What it owes.
    pub owed: u64,
}

/// What holds a resource.
#[derive(Clone, Copy)]
pub enum BaseState {
    /// Its node, and the leases of it that are out.
    Owned,
    /// Leases alone.
    Leased,
    /// Nothing: it waits for its release.
    Waiting,
}

/// A resource that was not taken.
#[derive(Clone, Copy)]
pub struct BaseResource {
    /// Its number.
    pub number: u64,
    /// The node that it was accepted at.
    pub node: u64,
    /// Its tag.
    pub tag: u64,
    /// How often it was used.
    pub uses: u64,
    /// What holds it.
    pub state: BaseState,
}

/// A lease that is out.
#[derive(Clone, Copy)]
pub struct BaseLease {
    /// Its number.
    pub number: u64,
    /// The resource that it keeps held.
    pub resource: u64,
}

/// How much there was.
#[derive(Clone, Copy)]
pub struct BaseCounts {
    /// How many events.
    pub at: u64,
    /// How many items were emitted.
    pub items: u64,
    /// How many resources were accepted.
    pub accepted: u64,
    /// How many resources were taken.
    pub taken: u64,
}

/// What is kept.
#[derive(Drop)]
pub struct Base {
    pub(crate) at: u64,
    items: u64,
    accepted: u64,
    taken: u64,
    hubs: Vec<BaseHub>,
    nodes: Vec<BaseNode>,
    resources: Vec<BaseResource>,
    leases: Vec<BaseLease>,
}

impl Model for Base {
    ghost use Rattle.rx_event.specs.Kept.{Kept};

    ghost Value = { Kept };

    ghost view = { λ b. record {
      at_length = b.at;
      items = b.items;
      accepted = b.accepted;
      taken = b.taken;
      hubs = b.hubs.items;
      nodes = b.nodes.items;
      resources = b.resources.items;
      leases = b.leases.items;
    } };
}

impl Base {
    /// Nothing: what a history begins with of which nothing happened yet. It takes no memory.
    pub fn empty(alloc: Global) -> Self
        ensures { result ≡ nothing_kept }
    {
        Base {
            at: 0,
            items: 0,
            accepted: 0,
            taken: 0,
            hubs: Vec::new(alloc),
            nodes: Vec::new(alloc),
            resources: Vec::new(alloc),
            leases: Vec::new(alloc),
        }
    }

    /// Of so many events, with these hubs, nodes, resources and leases, each by rising number.
    pub fn new(
        counts: BaseCounts,
        hubs: Vec<BaseHub>,
        nodes: Vec<BaseNode>,
        resources: Vec<BaseResource>,
        leases: Vec<BaseLease>,
    ) -> Self
        ensures { result ≡ record {
          at_length = counts.at;
          items = counts.items;
          accepted = counts.accepted;
          taken = counts.taken;
          hubs = hubs.items;
          nodes = nodes.items;
          resources = resources.items;
          leases = leases.items;
        } }
    {
        let BaseCounts {
            at,
            items,
            accepted,
            taken,
        } = counts;
        Base {
            at,
            items,
            accepted,
            taken,
            hubs,
            nodes,
            resources,
            leases,
        }
    }

    /// How many events it stands for.
    pub fn at(&self) -> u64
        ensures { result ≡ self.now.at_length }
    {
        self.at
    }
}
