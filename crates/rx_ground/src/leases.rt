//! The leases that are out, in the order in which they were given out: each under a checked key, with the key
//! of the resource that it keeps held after its subscription has ended (System.Reactive's
//! RefCountDisposable). How many of each resource are out, the tree counts beside it.

ghost use Rattle.std.specs.Prelude.{◌≡◌, ◌+◌, ◌<◌, ◌≤◌, [], IsOk, Some, None, IfSome, IfNone, IfOk, OnOk, OnSome, option_map, length, is_some, count_by};
ghost use Rattle.rx_slots.specs.Lists.{list_at};

use rx_event::BaseLease;
use rx_slots::{Key, Rings, Slots};
use rx_tree::ResKey;
use std::alloc::{AllocError, Global};
use std::marker::Model;

/// The key of a lease: its slot in the store of leases, and its number, which is the place of its
/// event.
#[derive(Clone, Copy, Debug, PartialEq, Eq)]
pub struct LeaseKey {
    /// The slot, from 0 on.
    pub slot: u64,
    /// The number that the caller gave to `lease`.
    pub number: u64,
}

/// Leases that are out, each with the key of its resource.
#[derive(Drop)]
pub(crate) struct Leases {
    out: Slots<ResKey>,
    // The slots of the leases, in the order of their numbers.
    order: Rings,
}

impl Model for Leases {
    ghost use Rattle.rx_slots.specs.Slots.{Slots as Entries};
    ghost use Rattle.rx_tree.specs.declared.node.ResKey.{ResKey as Res};
    ghost use Rattle.rx_ground.specs.LeasesInOrder.{shown, IsInOrder};

    ghost Value = { Entries Res };

    ghost view = { λ l. shown l.out l.order };

    ghost invariant = { λ l. IsInOrder l.out l.order };
}

// Lets one list be there.
#[inline(always)]
fn begin(order: &mut Rings) -> Result<(), AllocError>
    requires { length order.old.lists ≤ 1 }
    ensures ok { OnOk result (length order.new.lists ≡ 1) }
    ensures few { length order.new.lists ≤ 1 }
    ensures same { (e : _) → list_at order.new e ≡ list_at order.old e }
    ensures members { order.new.members ≡ order.old.members }
    ensures there { 0 < length order.old.lists → (IsOk result) × (order.new ≡ order.old) }
{
    if !order.is_empty() {
        return Ok(());
    }
    order.reserve(1)?;
    order.add();
    Ok(())
}

impl Leases {
    ghost use Rattle.rx_slots.specs.Slots.{find, entry_at, KeepsOthers};
    ghost use Rattle.rx_tree.specs.Tree.{IsPast, IsFirst, HasNone, AreApart};
    ghost use Rattle.rx_tree.specs.Bases.{IsByNumber, kept_by};
    ghost use Rattle.rx_ground.specs.Leases.{lease_key, lease_as_kept, IsOut};

    /// No lease, which takes no memory.
    pub(crate) fn new(alloc: Global) -> Self
        ensures entries { result.entries ≡ [] }
        ensures count { result.count ≡ 0 }
        ensures room { result.room ≡ 0 }
    {
        Leases {
            out: Slots::new(alloc),
            order: Rings::new(alloc),
        }
    }

    /// What holds of all leases: no two have one number.
    #[inline(always)]
    pub(crate) fn promise(&self)
        ensures { AreApart self.now }
    {
        let _out = &self.out;
    }

    /// Makes room for `additional` leases more, so that giving out as many takes no memory.
    ///
    /// Refused only where there was less room, and memory was refused or there would be more than
    /// 536,870,912 leases. No lease changes either way.
    #[inline(always)]
    pub(crate) fn reserve(&mut self, additional: usize) -> Result<(), AllocError>
        ensures ok { OnOk result (additional ≤ self.new.room) }
        ensures kept { self.new ≡ record self.old { room = self.new.room } }
    {
        self.out.reserve(additional)?;
        begin(&mut self.order)?;
        self.order.admit(self.out.capacity())
    }

    /// Lets a lease of this resource be out under this number, which is greater than any before, and
    /// gives its key. It takes no memory.
    #[inline(always)]
    pub(crate) fn lease(&mut self, number: u64, res: ResKey) -> LeaseKey
        requires newest { IsPast self.old number }
        requires room { 0 < self.old.room }
        ensures numbered { result.number ≡ number }
        ensures was_free { entry_at self.old result.slot ≡ None }
        ensures out { find self.new (lease_key result) ≡ Some res }
        ensures kept { KeepsOthers self.old self.new (lease_key result) }
        ensures count { self.new.count ≡ self.old.count + 1 }
        ensures room { self.new.room + 1 ≡ self.old.room }
    {
        self.order.promise();
        let _within = self.out.capacity();
        let Ok(key) = self.out.insert(number, res) else {
            unreachable!()
        };
        let _still = self.out.capacity();
        self.order.join(0, key.slot as usize);
        LeaseKey {
            slot: key.slot,
            number: key.number,
        }
    }

    /// The key of the resource of a lease; None where no such lease is out.
    #[inline(always)]
    pub(crate) fn get(&self, lease: LeaseKey) -> Option<ResKey>
        ensures { result ≡ find self.now (lease_key lease) }
    {
        let key = Key {
            slot: lease.slot,
            number: lease.number,
        };
        let res = self.out.get(key)?;
        Some(*res)
    }

    /// Lets the lease be out no more, and gives the key of its resource; None where no such lease is
    /// out. It takes no memory.
    #[inline(always)]
    pub(crate) fn give_back(&mut self, lease: LeaseKey) -> Option<ResKey>
        ensures value { result ≡ find self.old (lease_key lease) }
        ensures gone { find self.new (lease_key lease) ≡ None }
        ensures kept { KeepsOthers self.old self.new (lease_key lease) }
        ensures count { OnSome result (self.new.count + 1 ≡ self.old.count) }
        ensures room { self.old.room ≤ self.new.room }
        ensures absent { IfNone result (self.new ≡ self.old) }
    {
        let key = Key {
            slot: lease.slot,
            number: lease.number,
        };
        self.order.promise();
        let res = self.out.take(key)?;
        self.order.leave(key.slot as usize);
        Some(res)
    }

    /// The key of the lease of least number; None where none is out.
    pub(crate) fn first(&self) -> Option<LeaseKey>
        ensures some { IfSome result (λ lease. IsFirst (IsOut self.now) 0 (lease_key lease)) }
        ensures none { IfNone result (HasNone (IsOut self.now) 0) }
    {
        let slot = self.order.first(0)?;
        let key = self.out.key_at(slot)?;
        Some(LeaseKey {
            slot: key.slot,
            number: key.number,
        })
    }

    /// How many leases are out.
    #[inline(always)]
    pub(crate) fn len(&self) -> usize
        ensures value { result ≡ self.now.count }
        ensures counted { result ≡ count_by is_some self.now.entries }
    {
        self.out.len()
    }

    // What is kept of the lease at a slot.
    fn base_lease(&self, slot: usize) -> Option<BaseLease>
        ensures { result ≡ option_map lease_as_kept (entry_at self.now slot) }
    {
        let entry = self.out.entry_at(slot)?;
        Some(BaseLease {
            number: entry.number,
            resource: entry.value.number,
        })
    }

    // What is kept of the leases, by rising slot.
    fn list_leases(&self, alloc: Global) -> Result<Vec<BaseLease>, AllocError>
        ensures { IfOk result (λ kept. kept.items ≡ kept_by lease_as_kept self.now) }
    {
        (0..self.out.slot_count())
            .filter_map(|slot| self.base_lease(slot))
            .collect(alloc)
    }

    /// What a checkpoint keeps of the leases, by rising number. It goes over the slots that leases stood
    /// at. Refused only where memory was refused.
    pub(crate) fn base_leases(&self, alloc: Global) -> Result<Vec<BaseLease>, AllocError>
        ensures { IfOk result (λ kept. IsByNumber (λ k. k.number) (kept_by lease_as_kept self.now) kept.items) }
    {
        let mut leases = self.list_leases(alloc)?;
        leases.sort_by_key(|lease| lease.number)?;
        Ok(leases)
    }
}
