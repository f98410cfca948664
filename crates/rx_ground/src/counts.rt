//! What is there, counted, and room for more.

ghost use Rattle.std.specs.Prelude.{◌≡◌, ◌+◌, ◌<◌, ◌≤◌, ◌↔◌, [], length, slice_get, is_some, if◌then◌else◌, IsTrue, IsSome, IfSome, IfNone, IfErr, OnOk};
ghost use Rattle.rx_event.specs.Kept.{nothing_kept, event_since};
ghost use Rattle.rx_event.specs.Notes.{notes};
ghost use Rattle.rx_event.specs.Totals.{open_count as open_count_in, held_count, waiting_count, lease_count};
ghost use Rattle.rx_event.specs.Totals.{accepted_count, taken_count, item_count, debt};
ghost use Rattle.rx_event.specs.declared.refusal.Refusal.{Refusal};
ghost use Rattle.rx_slots.specs.Slots.{find};
ghost use Rattle.rx_tree.specs.Tree.{IsFirst, IsRoot, HasNone};
ghost use Rattle.rx_tree.specs.Resources.{is_held_at, is_owned_at};
ghost use Rattle.rx_ground.specs.Leases.{IsOut, is_out_at, lease_key};
ghost use Rattle.rx_register.specs.State.{IsLoadOf, greatest_limit};
ghost use Rattle.rx_ground.specs.Ties.{IsStanding, IsRoomier, HasRoomBeside, HasRoomToTell, SetsAside};
ghost use Rattle.rx_ground.specs.Costs.{most_notes};
ghost use Rattle.rx_ground.specs.Memory.{HasNoRoom};

use crate::base::{Ground, Wanted};
use crate::leases::{LeaseKey, Leases};
use rx_event::{Event, Mail, Refusal};
use rx_hub::{Hubs, Route};
use rx_register::{Load, Register};
use rx_resource::Resource;
use rx_tree::{Key, ResKey, Tree};
use std::alloc::{AllocError, Global};

impl<R: Resource> Ground<R> {
    /// With no events, and of at most `limit` since the base, which is at most 4,294,967,295. It takes no
    /// memory.
    pub fn new(alloc: Global, limit: u64) -> Self
        requires limited { limit ≤ greatest_limit }
        ensures standing { IsStanding R.Resource result }
        ensures base { result.register.base ≡ nothing_kept }
        ensures history { result.register.history ≡ [] }
        ensures limit { result.register.limit ≡ limit }
        ensures given { result.register.given ≡ 0 }
        ensures nodes { result.tree.nodes.entries ≡ [] }
        ensures resources { result.tree.resources.entries ≡ [] }
        ensures hubs { result.hubs.hubs ≡ [] }
        ensures leases { result.leases.entries ≡ [] }
        ensures closed { result.closed ≡ [] }
        ensures no_room { HasNoRoom result }
    {
        Ground {
            register: Register::new(alloc, limit),
            tree: Tree::new(alloc),
            hubs: Hubs::new(alloc),
            leases: Leases::new(alloc),
            closed: Vec::new(alloc),
            route: Route::new(alloc),
        }
    }

    /// How many nodes are open.
    #[inline(always)]
    pub fn open_count(&self) -> u64
        requires standing { IsStanding R.Resource self.now }
        ensures { result ≡ open_count_in self.now.register.history }
    {
        self.tree.promise();
        self.tree.len() as u64
    }

    /// How many resources are held.
    pub fn held_count(&self) -> u64
        requires standing { IsStanding R.Resource self.now }
        ensures { result ≡ held_count self.now.register.history }
    {
        self.promise();
        self.accepted() - self.taken() - self.waiting_count()
    }

    /// How many resources wait for their release.
    #[inline(always)]
    pub fn waiting_count(&self) -> u64
        requires standing { IsStanding R.Resource self.now }
        ensures { result ≡ waiting_count self.now.register.history }
    {
        self.tree.promise();
        self.tree.waiting()
    }

    /// How many resources were accepted.
    #[inline(always)]
    pub fn accepted(&self) -> u64
        ensures { result ≡ accepted_count self.now.register.base self.now.register.history }
    {
        self.register.accepted()
    }

    /// How many resources were taken.
    #[inline(always)]
    pub fn taken(&self) -> u64
        ensures { result ≡ taken_count self.now.register.base self.now.register.history }
    {
        self.register.taken()
    }

    /// How many items were emitted.
    #[inline(always)]
    pub fn items(&self) -> u64
        ensures { result ≡ item_count self.now.register.base self.now.register.history }
    {
        self.register.items()
    }

    /// The event at a place, if it is one since the base.
    pub fn event(&self, place: u64) -> Option<Event>
        ensures { result ≡ event_since self.now.register.base self.now.register.history place }
    {
        self.register.event(place)
    }

    /// Whether the key is an open node's.
    #[inline(always)]
    pub fn contains(&self, node: Key) -> bool
        ensures { IsTrue result ↔ IsSome (find self.now.tree.nodes node) }
    {
        self.tree.contains(node)
    }

    /// Whether the key is a held resource's.
    #[inline(always)]
    pub fn holds(&self, res: ResKey) -> bool
        ensures { result ≡ is_held_at self.now.tree res }
    {
        self.tree.holds(res)
    }

    /// Whether the resource of the key is owned: its node is open, and it was not removed.
    #[inline(always)]
    pub fn owns(&self, res: ResKey) -> bool
        ensures { result ≡ is_owned_at self.now.tree res }
    {
        self.tree.owns(res)
    }

    /// How many leases are out.
    #[inline(always)]
    pub fn lease_count(&self) -> u64
        requires standing { IsStanding R.Resource self.now }
        ensures { result ≡ lease_count self.now.register.history }
    {
        self.leases.promise();
        self.leases.len() as u64
    }

    /// Whether the key is that of a lease that is out.
    #[inline(always)]
    pub fn lends(&self, lease: LeaseKey) -> bool
        ensures { result ≡ is_out_at self.now.leases lease }
    {
        self.leases.get(lease).is_some()
    }

    /// The key of the lease of least number that is out; None where none is.
    pub fn first_lease(&self) -> Option<LeaseKey>
        ensures some { IfSome result (λ lease. IsFirst (IsOut self.now.leases) 0 (lease_key lease)) }
        ensures none { IfNone result (HasNone (IsOut self.now.leases) 0) }
    {
        self.leases.first()
    }

    /// The key of the open root of least number; None where no root is open.
    pub fn first_root(&self) -> Option<Key>
        ensures some { IfSome result (IsFirst (IsRoot self.now.tree.nodes) 0) }
        ensures none { IfNone result (HasNone (IsRoot self.now.tree.nodes) 0) }
    {
        self.tree.first_root()
    }

    /// What is open, and what its closing may need: an event for each open node, two for each resource
    /// that its node owns, one for each that leases alone hold or that waits, one for each lease that is
    /// out, and one for each projected item that is owed.
    #[inline(always)]
    pub(crate) fn load(&self) -> Load
        requires standing { IsStanding R.Resource self.now }
        ensures load { IsLoadOf self.now.register.base self.now.register.history result }
        ensures bound { result.debt ≤ greatest_limit }
    {
        self.promise();
        let open = self.open_count();
        let waiting = self.waiting_count();
        let held = self.accepted() - self.taken() - waiting;
        let alone = self.tree.lent_alone();
        let leases = self.lease_count();
        let owed = self.tree.owed();
        Load {
            open,
            debt: open + 2 * (held - alone) + alone + waiting + leases + owed,
        }
    }

    /// Gets room for what a call wants, beside what is kept for closing everything.
    ///
    /// `NoMemory` where memory is refused, or a store would have more than 536,870,912 entries; then some of
    /// the room may have been gotten, and nothing else changed.
    #[inline(always)]
    pub fn make_room(&mut self, wanted: Wanted) -> Result<(), Refusal>
        requires standing { IsStanding R.Resource self.old }
        requires within { length self.old.register.history + debt self.old.register.base self.old.register.history + wanted.events ≤
            self.old.register.base.at_length + self.old.register.limit }
        requires notes { wanted.notes ≤ most_notes }
        ensures ok { OnOk result (HasRoomBeside self.new wanted) }
        ensures err { IfErr result (λ why. why ≡ Refusal.NoMemory) }
        ensures kept { IsRoomier self.old self.new }
        ensures standing { IsStanding R.Resource self.new }
    {
        match self.make_room_to_tell(wanted.events, wanted.notes) {
            Ok(()) => self.make_rest(wanted),
            Err(why) => Err(why),
        }
    }

    /// Gets room for so many events and notes alone, beside what is kept for closing everything. Where no note is
    /// told, none is asked for.
    ///
    /// `NoMemory` where memory is refused; then some of the room may have been gotten, and nothing else changed.
    #[inline(always)]
    pub fn make_room_to_tell(&mut self, events: u64, notes: u64) -> Result<(), Refusal>
        requires standing { IsStanding R.Resource self.old }
        requires within { length self.old.register.history + debt self.old.register.base self.old.register.history + events ≤
            self.old.register.base.at_length + self.old.register.limit }
        requires notes { notes ≤ most_notes }
        ensures ok { OnOk result (HasRoomToTell self.new events notes) }
        ensures err { IfErr result (λ why. why ≡ Refusal.NoMemory) }
        ensures kept { IsRoomier self.old self.new }
        ensures standing { IsStanding R.Resource self.new }
    {
        let Ok(()) = self.set_aside(events) else {
            return Err(Refusal::NoMemory);
        };
        if notes == 0 {
            return Ok(());
        }
        self.register.promise();
        let open = self.open_count();
        match self.register.reserve_mail((open + notes) as usize) {
            Ok(()) => Ok(()),
            Err(_) => Err(Refusal::NoMemory),
        }
    }

    // Room for the rest of what a call wants.
    #[inline(always)]
    fn make_rest(&mut self, wanted: Wanted) -> Result<(), Refusal>
        requires standing { IsStanding R.Resource self.old }
        requires tells { HasRoomToTell self.old wanted.events wanted.notes }
        ensures ok { OnOk result (HasRoomBeside self.new wanted) }
        ensures err { IfErr result (λ why. why ≡ Refusal.NoMemory) }
        ensures kept { IsRoomier self.old self.new }
        ensures standing { IsStanding R.Resource self.new }
    {
        self.promise();
        let rest = Wanted {
            events: 0,
            notes: 0,
            ..wanted
        };
        match self.reserve(rest) {
            Ok(()) => Ok(()),
            Err(_) => Err(Refusal::NoMemory),
        }
    }

    // Sets room for so many events aside, beside what is kept for closing everything. Where there is spare
    // room, that is not summed.
    #[inline(always)]
    fn set_aside(&mut self, events: u64) -> Result<(), AllocError>
        requires standing { IsStanding R.Resource self.old }
        requires within { length self.old.register.history + debt self.old.register.base self.old.register.history + events ≤
            self.old.register.base.at_length + self.old.register.limit }
        ensures ok { OnOk result (debt self.old.register.base self.old.register.history + events ≤ self.new.register.room) }
        ensures aside { SetsAside self.old self.new }
    {
        if self.register.take_spare(events) {
            return Ok(());
        }
        self.sum_up(events)
    }

    // Sets that much room aside by what closing everything needs, summed: room for what came to an end in another
    // way is spare again.
    #[cold]
    #[inline(never)]
    fn sum_up(&mut self, events: u64) -> Result<(), AllocError>
        requires standing { IsStanding R.Resource self.old }
        requires within { length self.old.register.history + debt self.old.register.base self.old.register.history + events ≤
            self.old.register.base.at_length + self.old.register.limit }
        ensures ok { OnOk result (debt self.old.register.base self.old.register.history + events ≤ self.new.register.room) }
        ensures aside { SetsAside self.old self.new }
    {
        self.promise();
        let load = self.load();
        let wanted = load.debt + events;
        self.register.set_aside(wanted)
    }

    /// The next of the notes, which is then handed out; None where all were. It takes no memory.
    #[inline(always)]
    pub fn take_mail(&mut self) -> Option<Mail>
        requires standing { IsStanding R.Resource self.old }
        ensures value { result ≡ slice_get (notes self.old.register.history) self.old.register.given }
        ensures given { self.new.register.given ≡ (if is_some result then self.old.register.given + 1 else self.old.register.given) }
        ensures base { self.new.register.base ≡ self.old.register.base }
        ensures history { self.new.register.history ≡ self.old.register.history }
        ensures limit { self.new.register.limit ≡ self.old.register.limit }
        ensures tree { self.new.tree ≡ self.old.tree }
        ensures standing { IsStanding R.Resource self.new }
        ensures kept { self.new ≡ record self.old {
          register = record self.old.register
              { given = self.new.register.given; mail_room = self.new.register.mail_room };
        } }
        ensures mail_room { self.new.register.mail_room ≡
            (if is_some result then self.old.register.mail_room + 1 else self.old.register.mail_room) }
    {
        self.register.take_mail()
    }
}
