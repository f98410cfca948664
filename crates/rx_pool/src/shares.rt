//! A pool of hubs, and which of them each open node names.

ghost use Rattle.std.specs.Prelude.{◌≡◌, ◌+◌, ◌<◌, ◌≤◌, ◌++◌, ◌∷◌, [], true, length, slice_get, Some, OnOk};
ghost use Rattle.std.specs.Option.{option_to_list};
ghost use Rattle.rx_roles.specs.declared.roles.Role.{Role};
ghost use Rattle.rx_roles.specs.Roles.{role_of, without, AreBelow};
ghost use Rattle.rx_pool.specs.declared.search.PooledHub.{PooledHub};
ghost use Rattle.rx_pool.specs.Pool.{pool_size, is_used, is_own, new_hub};
ghost use Rattle.rx_pool.specs.Choice.{choice, last_before, passes};
ghost use Rattle.rx_pool.specs.Moves.{left_all};
ghost use Rattle.rx_pool.specs.Ties.{IsPlain, MayJoin};
ghost use Rattle.rx_pool.specs.Places.{place_in, Joins};

use crate::pool::Pool;
use crate::search::{PooledHub, Share};
use rx_event::{Mode, Refusal};
use rx_lanes::LaneName;
use rx_roles::{Role, Roles};
use std::alloc::{AllocError, Global};
use std::marker::Model;

/// The hubs of a book, which share each of them serves, and which of them each open node names.
#[derive(Drop)]
pub struct Shares {
    places: Roles,
    pool: Pool,
}

impl Model for Shares {
    ghost use Rattle.rx_pool.specs.Places.{State};

    ghost Value = { State };

    ghost view = { λ s. record { list = s.places.list; room = s.places.room; hubs = s.pool.hubs; hub_room = s.pool.room } };
}

impl Shares {
    /// With no hub. It takes no memory.
    pub fn new(alloc: Global) -> Shares
        ensures list { result.list ≡ [] }
        ensures hubs { result.hubs ≡ [] }
    {
        Shares {
            places: Roles::new(alloc),
            pool: Pool::new(alloc),
        }
    }

    /// What holds of all pools, for proofs. It does nothing.
    pub fn promise(&self)
        ensures { IsPlain self.now.hubs }
    {
        self.pool.promise();
    }

    /// How many hubs there are.
    pub fn hub_count(&self) -> usize
        ensures { result ≡ length self.now.hubs }
    {
        self.pool.len()
    }

    /// The hub at a place, if there is one.
    pub fn hub_at(&self, place: usize) -> Option<PooledHub>
        ensures { result ≡ slice_get self.now.hubs place }
    {
        self.pool.get(place)
    }

    /// Gets room for so many hubs more.
    pub fn reserve_hubs(&mut self, many: usize) -> Result<(), AllocError>
        ensures ok { OnOk result (many ≤ self.new.hub_room) }
        ensures kept { self.new ≡ record self.old { hub_room = self.new.hub_room } }
    {
        self.pool.reserve(many)
    }

    /// Adds a hub of the book, as [`Pool::add`] does. It takes no memory.
    pub fn add_hub(&mut self, number: u64, mode: Mode)
        requires room { 0 < self.old.hub_room }
        requires few { length self.old.hubs < pool_size }
        requires newest { (i : _) (hub : PooledHub) → slice_get self.old.hubs i ≡ Some hub → hub.number < number }
        ensures list { self.new.list ≡ self.old.list }
        ensures hubs { self.new.hubs ≡ self.old.hubs ++ new_hub number mode ∷ [] }
    {
        self.pool.add(number, mode);
    }

    /// The place of the hub that the share gets, as by [`Pool::choose`].
    pub fn choose(&self, share: Share, hint: usize, limit: usize) -> Result<usize, Refusal>
        ensures { result ≡ choice self.now.hubs share limit }
    {
        self.pool.choose(share, hint, limit)
    }

    /// The place of the hub that serves the share, if one does. The hint changes no answer.
    pub fn serving(&self, share: Share, hint: usize) -> Option<usize>
        ensures { result ≡ last_before (is_own share) self.now.hubs (length self.now.hubs) }
    {
        self.pool.serving(share, hint)
    }

    /// Gets room for so many nodes more that name a hub.
    pub fn reserve(&mut self, many: usize) -> Result<(), AllocError>
        ensures ok { OnOk result (many ≤ self.new.room) }
        ensures list { self.new.list ≡ self.old.list }
        ensures hubs { self.new.hubs ≡ self.old.hubs }
    {
        self.places.reserve(many)
    }

    /// The node of this number names the hub at a place, for the share of this word. It takes no memory.
    pub fn join(&mut self, number: u64, place: usize, word: u64)
        requires room { 0 < self.old.room }
        requires below { AreBelow self.old.list number }
        requires may { MayJoin self.old.hubs place word }
        ensures joins { Joins self.old number place word self.new }
        ensures room { self.old.room ≤ self.new.room + 1 }
    {
        self.pool.join(place, word);
        self.places.put(Role {
            number,
            word: place as u64,
            lane: LaneName { place: 0, turn: 0 },
        });
    }

    /// The node of this number was closed: it leaves the hub that it names, if it names one. It takes no memory.
    pub fn leave(&mut self, number: u64)
        requires { (role : Role) → role_of self.old.list number ≡ Some role → passes is_used self.old.hubs role.word ≡ true }
        ensures list { self.new.list ≡ without self.old.list number }
        ensures hubs { self.new.hubs ≡ left_all (option_to_list (place_in self.old.list number)) self.old.hubs }
    {
        if let Some(role) = self.places.take(number) {
            self.pool.leave(role.word as usize);
        }
    }
}
