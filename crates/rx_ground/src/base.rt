//! What a book stands on: the register of what happened, the tree of what is open, held and waiting, the
//! hubs that were made, and the leases that are out.

ghost use Rattle.std.specs.Prelude.{◌≡◌, ◌+◌, ◌-◌, ◌<◌, ◌≤◌, [], length, slice_get, vec_capacity};
ghost use Rattle.std.specs.Prelude.{option_map, IfSome, IsSome, OnOk};
ghost use Rattle.rx_register.specs.State.{IsPromised as IsRegisterPromised};
ghost use Rattle.rx_tree.specs.Tree.{AreApart, IsPromised as IsTreePromised, parent_number};
ghost use Rattle.rx_hub.specs.Hubs.{IsPromised as IsHubsPromised};
ghost use Rattle.rx_slots.specs.Slots.{find};
ghost use Rattle.rx_ground.specs.Shown.{closed_key};
ghost use Rattle.rx_ground.specs.Ties.{IsRoomier, HasRoom};

use crate::leases::Leases;
use rx_hub::{Hubs, Route};
use rx_register::Register;
use rx_resource::Resource;
use rx_tree::{Closed, Key, Tree};
use std::alloc::AllocError;
use std::marker::Model;

/// The register, the tree, the hubs and the leases. Between a caller's event and the last that it forces they are of
/// one history, in which something is still due.
#[derive(Drop)]
pub struct Ground<R: Resource> {
    pub(crate) register: Register,
    pub(crate) tree: Tree<R>,
    pub(crate) hubs: Hubs,
    pub(crate) leases: Leases,
    // What was moved out since the list was last begun, in that order. It has room for all that the tree has
    // beside, so that a closing takes no memory.
    pub(crate) closed: Vec<Closed>,
    // Where an item stands on its way. It has room for all hubs, so that an item takes no memory.
    pub(crate) route: Route,
}

impl<R: Resource> Model for Ground<R> {
    ghost use Rattle.std.specs.Prelude.{◌+◌, ◌-◌, ◌≤◌, length, vec_len, vec_capacity};
    ghost use Rattle.rx_ground.specs.Shown.{Ground as Shown, closed_keys};

    ghost Value = { Shown R };

    ghost view = { λ b. record {
      register = b.register;
      tree = b.tree;
      hubs = b.hubs;
      leases = b.leases;
      closed = closed_keys b.closed.items;
      space = vec_capacity b.closed - b.tree.nodes.count;
    } };

    ghost invariant = { λ b. (vec_len b.closed + b.tree.nodes.count ≤ vec_capacity b.closed) ×
        (length b.hubs.hubs + b.hubs.room ≤ b.route.room) };
}

/// For how much a call wants room.
#[derive(Clone, Copy)]
pub struct Wanted {
    /// Events to write.
    pub events: u64,
    /// Notes to tell.
    pub notes: u64,
    /// Nodes to open.
    pub nodes: usize,
    /// Resources to accept.
    pub resources: usize,
    /// Hubs to make.
    pub hubs: usize,
    /// Leases to give out.
    pub leases: usize,
}

// The key of the node above, by the record as it stands.
#[inline(always)]
#[tactic(auto, using(crate::proofs::InsideConnections::parent_read, crate::proofs::InsideConnections::parent_none))]
pub(crate) fn parent<R: Resource>(tree: &Tree<R>, key: Key) -> Option<Key>
    ensures number { option_map (λ parent. parent.number) result ≡ parent_number tree.now.nodes key }
    ensures found { IfSome result (λ parent. IsSome (find tree.now.nodes parent)) }
{
    tree.promise();
    match tree.get(key) {
        Some(node) => node.parent(),
        None => None,
    }
}

// The key that a closed node had.
#[inline(always)]
fn key_of(closed: &Closed) -> Key
    ensures { result ≡ closed_key closed.now }
{
    closed.key()
}

// Twice the room that there was, no less than is wanted, and 4 at least.
fn grown(room: usize, wanted: usize) -> usize
    ensures { wanted ≤ result }
{
    let twice = room.saturating_mul(2);
    let least = if wanted < 4 { 4 } else { wanted };
    if twice < least { least } else { twice }
}

// Room for a list of so many, on which what it has stays. One that has nothing is made anew, and nothing is copied.
#[cold]
#[inline(never)]
fn grow_closed(closed: &mut Vec<Closed>, space: usize) -> Result<(), AllocError>
    requires less { vec_capacity closed.old < space }
    ensures ok { OnOk result (space ≤ vec_capacity closed.new) }
    ensures closed { closed.new.items ≡ closed.old.items }
    ensures capacity { vec_capacity closed.old ≤ vec_capacity closed.new }
{
    let capacity = grown(closed.capacity(), space);
    if !closed.is_empty() {
        return closed.reserve(capacity - closed.len());
    }
    let alloc = *closed.allocator();
    let fresh = Vec::with_capacity(alloc, capacity)?;
    *closed = fresh;
    Ok(())
}

// Room for so many nodes more, and for closing all there are then. Where none is wanted, none is asked for.
#[inline(always)]
fn reserve_nodes<R: Resource>(
    tree: &mut Tree<R>,
    closed: &mut Vec<Closed>,
    additional: usize,
) -> Result<(), AllocError>
    ensures ok { OnOk result (additional ≤ tree.new.nodes.room) }
    ensures kept { tree.new ≡ record tree.old { nodes = record tree.old.nodes { room = tree.new.nodes.room } } }
    ensures room { tree.old.nodes.room ≤ tree.new.nodes.room }
    ensures space { OnOk result (additional ≤ vec_capacity closed.new - tree.new.nodes.count) }
    ensures closed { closed.new.items ≡ closed.old.items }
    ensures capacity { vec_capacity closed.old ≤ vec_capacity closed.new }
{
    if additional == 0 {
        return Ok(());
    }
    let Some(space) = tree.len().checked_add(additional) else {
        return Err(AllocError);
    };
    if closed.capacity() < space {
        grow_closed(closed, space)?;
    }
    tree.reserve(additional)
}

// Room for so many resources more. Where none is wanted, none is asked for.
#[inline(always)]
fn reserve_resources<R: Resource>(tree: &mut Tree<R>, additional: usize) -> Result<(), AllocError>
    ensures ok { OnOk result (additional ≤ tree.new.resources.room) }
    ensures kept { tree.new ≡ record tree.old
        { resources = record tree.old.resources { room = tree.new.resources.room } } }
{
    if additional == 0 {
        return Ok(());
    }
    tree.reserve_resources(additional)
}

// Room for so many leases more. Where none is wanted, none is asked for.
#[inline(always)]
fn reserve_leases(leases: &mut Leases, additional: usize) -> Result<(), AllocError>
    ensures ok { OnOk result (additional ≤ leases.new.room) }
    ensures kept { leases.new ≡ record leases.old { room = leases.new.room } }
{
    if additional == 0 {
        return Ok(());
    }
    leases.reserve(additional)
}

// Lets subscribers stand at all slots below this one, where there are hubs.
#[inline(always)]
fn reserve_slots(hubs: &mut Hubs, slots: usize) -> Result<(), AllocError>
    ensures ok { OnOk result (0 < length hubs.old.hubs → slots ≤ hubs.new.slots) }
    ensures kept { hubs.new ≡ record hubs.old { slots = hubs.new.slots } }
{
    if hubs.len() == 0 {
        return Ok(());
    }
    hubs.reserve_slots(slots)
}

// Room for so many hubs more, and for an item's way over all there are then. Where none is wanted, none is
// asked for.
#[inline(always)]
fn reserve_hubs(hubs: &mut Hubs, route: &mut Route, additional: usize) -> Result<(), AllocError>
    requires within { length hubs.old.hubs + hubs.old.room ≤ route.old.room }
    ensures ok { OnOk result (additional ≤ hubs.new.room) }
    ensures kept { hubs.new ≡ record hubs.old { room = hubs.new.room } }
    ensures within { length hubs.new.hubs + hubs.new.room ≤ route.new.room }
{
    if additional == 0 {
        return Ok(());
    }
    let Some(in_all) = hubs.len().checked_add(additional) else {
        return Err(AllocError);
    };
    route.reserve(in_all)?;
    hubs.reserve(additional)
}

impl<R: Resource> Ground<R> {
    /// What its parts promise, for proofs. It does nothing.
    #[inline(always)]
    pub fn promise(&self)
        ensures register { IsRegisterPromised self.now.register }
        ensures tree { IsTreePromised self.now.tree }
        ensures hubs { IsHubsPromised self.now.hubs }
        ensures leases { AreApart self.now.leases }
    {
        self.register.promise();
        self.tree.promise();
        self.hubs.promise();
        self.leases.promise();
    }

    /// Gets room for what is wanted in all, with what is kept for closing everything counted in. Where there
    /// are hubs, a subscriber may then stand at each slot of the tree.
    ///
    /// An error comes where memory is refused, where a store would have more than 536,870,912 entries, and where
    /// the count of nodes or of hubs would pass `usize`; then some of the room may have been gotten, and nothing
    /// else changed.
    #[inline(always)]
    pub fn reserve(&mut self, wanted: Wanted) -> Result<(), AllocError>
        requires within { length self.old.register.history + wanted.events ≤ self.old.register.base.at_length +
            self.old.register.limit }
        ensures ok { OnOk result (HasRoom self.new wanted) }
        ensures kept { IsRoomier self.old self.new }
        ensures room { self.old.register.room ≤ self.new.register.room }
    {
        self.register.reserve(wanted.events)?;
        self.register.reserve_mail(wanted.notes as usize)?;
        reserve_nodes(&mut self.tree, &mut self.closed, wanted.nodes)?;
        reserve_resources(&mut self.tree, wanted.resources)?;
        reserve_leases(&mut self.leases, wanted.leases)?;
        reserve_slots(&mut self.hubs, self.tree.slots())?;
        reserve_hubs(&mut self.hubs, &mut self.route, wanted.hubs)
    }

    /// Begins the list of what is closed anew. A caller does so before it writes an event from outside, so that
    /// the list then has what that event closed, and what it forced; answers the place of that event.
    #[inline(always)]
    pub fn begin(&mut self) -> u64
        ensures begun { self.new ≡ record self.old { closed = [] } }
        ensures place { result ≡ length self.new.register.history }
        ensures promised { IsRegisterPromised self.new.register }
    {
        self.closed.clear();
        self.register.promise();
        self.register.len()
    }

    /// How many nodes were closed since the list was last begun.
    #[inline(always)]
    pub fn closed_count(&self) -> usize
        ensures { result ≡ length self.now.closed }
    {
        self.closed.len()
    }

    /// The key of one of them, by its place in the order in which they were closed, from 0; None beyond the last.
    #[inline(always)]
    pub fn nth_closed(&self, n: usize) -> Option<Key>
        ensures { result ≡ slice_get self.now.closed n }
    {
        let closed = self.closed.get(n)?;
        Some(key_of(closed))
    }

    /// How many events there are, which is the place of the next one.
    #[inline(always)]
    pub fn len(&self) -> u64
        ensures { result ≡ length self.now.register.history }
    {
        self.register.len()
    }
}
