//! The engine: a book, and beside it who is to be told of what.

ghost use Rattle.std.specs.Prelude.{◌≡◌, ◌≤◌, []};
ghost use Rattle.rx_event.specs.Kept.{nothing_kept};
ghost use Rattle.rx_register.specs.State.{greatest_limit};
ghost use Rattle.rx_engine.specs.States.{IsPromised};
ghost use Rattle.rx_engine.specs.Rooms.{name_count};

use crate::parts::Parts;
use crate::wishes::Wishes;
use rx_book::Book;
use rx_lanes::{LaneName, Lanes};
use rx_pool::Shares;
use rx_resource::Token;
use rx_roles::{Effect, Effects, Roles, What};
use std::alloc::Global;
use std::marker::Model;

/// No engine may have more events at a time.
pub const GREATEST_LIMIT: u64 = 4_294_967_295;

/// An engine.
#[derive(Drop)]
pub struct Engine {
    pub(crate) book: Book<Token>,
    pub(crate) parts: Parts,
    pub(crate) wishes: Wishes,
}

impl Model for Engine {
    ghost use Rattle.rx_engine.specs.States.{State};
    ghost use Rattle.rx_engine.specs.Ties.{state_of, IsTiedInside};

    ghost Value = { State };

    ghost view = { state_of };

    ghost invariant = { IsTiedInside };
}

impl Engine {
    /// With no node, and of at most so many events at a time. It takes no memory.
    pub fn new(alloc: Global, max_events: u64) -> Engine
        requires { max_events ≤ greatest_limit }
        ensures book { result.book ≡ record {
          base = nothing_kept;
          history = [];
          limit = max_events;
          keys = [];
          res_keys = [];
          lease_keys = [];
          held = [];
          waiting = [];
          given = 0;
          closed = [];
        } }
        ensures lanes { result.parts.lanes.places ≡ [] }
        ensures roles { name_count result.parts ≡ 0 }
        ensures shares { result.parts.shares.list ≡ [] }
        ensures hubs { result.parts.shares.hubs ≡ [] }
        ensures copies { result.parts.copies ≡ 0 }
        ensures wishes { result.wishes.roles.list ≡ [] }
        ensures closings { result.wishes.closings ≡ [] }
    {
        // In free cells.
        let blank = Effect {
            lane: LaneName { place: 0, turn: 0 },
            user: 0,
            value: 0,
            by: 0,
            what: What::Next,
        };
        Engine {
            book: Book::new(alloc, max_events),
            parts: Parts {
                homes: Roles::new(alloc),
                hears: Roles::new(alloc),
                merges: Roles::new(alloc),
                holds: Roles::new(alloc),
                shares: Shares::new(alloc),
                effects: Effects::new(alloc),
                lanes: Lanes::new(alloc, blank),
                copies: 0,
            },
            wishes: Wishes::new(alloc),
        }
    }

    /// The promise of every engine, at each moment. It does nothing.
    pub fn promise(&self)
        ensures { IsPromised self.now }
    {
        self.book.promise();
        self.parts.lanes.promise();
        self.parts.shares.promise();
    }
}
