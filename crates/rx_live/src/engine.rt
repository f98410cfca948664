//! A session: its book, and what names stand for.

ghost use Rattle.std.specs.Prelude.{◌≡◌, ◌+◌, ◌≤◌, length};
ghost use Rattle.rx_register.specs.State.{greatest_limit};
ghost use Rattle.rx_book.specs.State.{IsPromised};
ghost use Rattle.rx_live.specs.Lines.{IsNewSession};
ghost use Rattle.rx_live.specs.Session.{session_of, node_by_name, resource_by_name, lease_by_name, hub_by_name, has_resource, IsSound};

use rx_book::{Book, Key, LeaseKey, Mail, ResKey};
use rx_line::Names;
use rx_listing::Past;
use rx_resource::Token;
use std::alloc::Global;

/// A book, and the names of its nodes, of its hubs, of its resources and of its leases.
pub struct Engine {
    pub alloc: Global,
    pub book: Book<Token>,
    pub nodes: Names,
    pub hubs: Names,
    pub resources: Names,
    pub leases: Names,
    /// A note that was taken from the book and, in want of memory, is still to be told.
    pub untold: Option<Mail>,
    /// The name of a resource that was taken from the book and is still to be told.
    pub unnamed: Option<String>,
    /// What `list` tells of the events before the last checkpoint. No contract speaks of it.
    pub past: Past,
}

// Written out, so that where a session is let go there is one call to prove, and not the drop of each field in turn.
impl Drop for Engine {
    fn drop(self) {
        let Engine {
            alloc: _,
            book: _book,
            nodes: _nodes,
            hubs: _hubs,
            resources: _resources,
            leases: _leases,
            untold: _,
            unnamed: _unnamed,
            past: _past,
        } = self;
    }
}

impl Engine {
    /// Nothing is open, and no name is bound.
    pub fn new(alloc: Global, max_events: u64) -> Self
        requires { max_events ≤ greatest_limit }
        ensures sound { IsSound (session_of result) }
        ensures fresh { IsNewSession (session_of result) }
        ensures limit { result.book.limit ≡ max_events }
    {
        let book = Book::new(alloc, max_events);
        book.promise();
        Engine {
            alloc,
            book,
            nodes: Names::new(alloc),
            hubs: Names::new(alloc),
            resources: Names::new(alloc),
            leases: Names::new(alloc),
            untold: None,
            unnamed: None,
            past: Past::new(alloc),
        }
    }

    /// The place behind that of the next event.
    pub fn place_behind(&self) -> u64
        requires { IsPromised self.now.book }
        ensures { result ≡ length self.now.book.history + 1 }
    {
        self.book.len() + 1
    }

    /// The open node that has the name.
    #[tactic(auto, unfolding(crate::specs::Session::open_node_in))]
    pub fn node(&self, name: &str) -> Option<Key>
        ensures { result ≡ node_by_name (session_of self.now) name.now }
    {
        let spot = self.nodes.get(name)?;
        let key = Key {
            slot: spot.slot,
            number: spot.number,
        };
        if self.book.is_open(key) {
            Some(key)
        } else {
            None
        }
    }

    /// The held resource that has the name, or one that waits, whose key is nobody's.
    pub fn resource(&self, name: &str) -> Option<ResKey>
        ensures { result ≡ resource_by_name (session_of self.now) name.now }
    {
        let spot = self.resources.get(name)?;
        Some(ResKey {
            slot: spot.slot,
            number: spot.number,
        })
    }

    /// Whether a resource of this name was handed in, and is not yet told to be released.
    pub fn has_resource(&self, name: &str) -> bool
        ensures { result ≡ has_resource (session_of self.now) name.now }
    {
        if self.resources.get(name).is_some() {
            return true;
        }
        match &self.unnamed {
            Some(unnamed) => name == unnamed.as_str(),
            None => false,
        }
    }

    /// The lease that has the name.
    pub fn lease_by_name(&self, name: &str) -> Option<LeaseKey>
        ensures { result ≡ lease_by_name (session_of self.now) name.now }
    {
        let spot = self.leases.get(name)?;
        Some(LeaseKey {
            slot: spot.slot,
            number: spot.number,
        })
    }

    /// The number of the hub that has the name.
    pub fn hub_by_name(&self, name: &str) -> Option<u64>
        ensures { result ≡ hub_by_name (session_of self.now) name.now }
    {
        let spot = self.hubs.get(name)?;
        Some(spot.number)
    }
}
