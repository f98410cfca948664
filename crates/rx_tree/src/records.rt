//! The records of a store as they come, change and go, and how many resources wait and are held.

ghost use Rattle.std.specs.Prelude.{◌≡◌, ◌+◌, ◌<◌, ◌≤◌, ◌^◌, IsTrue, ◌==◌, ◌&&◌, cond, IsOk, IfOk, IfSome, IfErr, OnOk};
ghost use Rattle.std.specs.Prelude.{OnErr, Some, false, option_map, IsSome};
ghost use Rattle.rx_event.specs.Events.{makes_node, parent_named, is_merging};
ghost use Rattle.rx_event.specs.Marks.{after_child, after_source, after_notifier, after_inner, after_projection, after_firing, after_decline};
ghost use Rattle.rx_slots.specs.declared.Key.{Key};
ghost use Rattle.rx_tree.specs.declared.node.Stowed.{Stowed};
ghost use Rattle.rx_slots.specs.Slots.{find, key_at, Changes, entry_of};
ghost use Rattle.rx_tree.specs.Tree.{Rewrites, with_last, with_due};
ghost use Rattle.rx_tree.specs.Owed.{owed_in};
ghost use Rattle.rx_tree.specs.Resources.{is_owned, is_held, is_lent, removed, one_lease_more, one_lease_less};
ghost use Rattle.rx_tree.specs.Places.{is_place};
ghost use Rattle.rx_tree.specs.Store.{alone, link_at, set_link_at, next_of, nodes_of, resources_of};
ghost use Rattle.rx_tree.specs.Store.{is_there, held_count_at, freed, shown, KeepsLinks, Relinks, Inserts, Takes_out};
ghost use Rattle.rx_tree.specs.Ties.{IsCounted, IsKept, IsRemarked, resource_ring};
ghost use Rattle.std.proofs.Math.Bool.{not};
ghost use Rattle.std.specs.Option.{option_map_or, option_and_then};
ghost use Rattle.rx_tree.specs.declared.links.Place.TheVariants.{Children, Held, Sibling, Noted, Waiting, Stored as At};

use crate::counts::Counts;
use crate::linked::Record;
use crate::links::{Link, Place};
use crate::node::{Node, Stowed};
use crate::store::{Store, Stored};
use rx_event::Terminal;
use rx_marks::Marks;
use rx_slots::Key;
use std::alloc::AllocError;

impl<R: Drop> Store<R> {
    // The record of a key.
    #[inline(always)]
    pub(crate) fn node(&self, key: Key) -> Option<Node>
        ensures { result ≡ find (nodes_of self.now) key }
    {
        Some(self.nodes.get(key)?.node())
    }

    // The key of the node at a slot that has one.
    #[inline(always)]
    pub(crate) fn node_key(&self, slot: usize) -> Key
        requires there { IsTrue (is_there self.now (Sibling slot)) }
        ensures { key_at (nodes_of self.now) slot ≡ Some result }
    {
        Key {
            slot: slot as u64,
            number: self.nodes.number_of(slot),
        }
    }

    // The key of the resource at a slot that has one.
    #[inline(always)]
    pub(crate) fn resource_key(&self, slot: usize) -> Key
        requires there { IsTrue (is_there self.now (At slot)) }
        ensures { key_at (resources_of self.now) slot ≡ Some result }
    {
        Key {
            slot: slot as u64,
            number: self.resources.number_of(slot),
        }
    }

    // Whether a slot's node stands among those that may be due.
    #[inline(always)]
    pub(crate) fn is_noted(&self, slot: usize) -> bool
        requires there { IsTrue (is_there self.now (Noted slot)) }
        ensures { result ≡ not (is_place (next_of self.now (Noted slot)) (Noted slot)) }
    {
        !self.nodes.at(slot).noted.next.is_noted(slot)
    }

    // The slot of a node above fits a record. It does nothing.
    #[inline(always)]
    fn fits_above(&self, above: Option<Key>)
        requires there { IfSome above (λ key. IsSome (find (nodes_of self.now) key)) }
        ensures { IfSome above (λ key. key.slot < 2 ^ 32) }
    {
        let _above = above;
        let _nodes = self.nodes.capacity();
    }

    // Adds a record that stands on no ring and owes nothing.
    #[inline(always)]
    pub(crate) fn add_node(&mut self, number: u64, node: Node) -> Result<Key, AllocError>
        requires counted { IsCounted self.old }
        requires homes { (key : Key) (stowed : Stowed R) → find (resources_of self.old) key ≡ Some stowed →
            stowed.node.number < number }
        requires owes_nothing { node.marks.owed ≡ 0 }
        requires makes { IsTrue (makes_node node.made) }
        requires named { parent_named node.made ≡ option_map (λ key. key.number) node.above }
        requires there { IfSome node.above (λ key. IsSome (find (nodes_of self.old) key)) }
        ensures ok { IfOk result (λ key. Inserts (nodes_of self.old) (nodes_of self.new) key number node) }
        ensures counted { OnOk result (IsCounted self.new) }
        ensures links { KeepsLinks self.old self.new }
        ensures resources { self.new.resources ≡ self.old.resources }
        ensures succeeds { 0 < self.old.nodes.room → IsOk result }
        ensures had_room { 0 < self.old.nodes.room → self.new.nodes.room + 1 ≡ self.old.nodes.room }
        ensures err { OnErr result (self.new ≡ record self.old
            { nodes = record self.old.nodes { room = self.new.nodes.room } }) }
        ensures room { OnErr result (self.old.nodes.room ≤ self.new.nodes.room) }
    {
        self.fits_above(node.above);
        let linked = Record::alone(node, self.nodes.next_slot());
        match self.nodes.insert(number, linked) {
            Ok(key) => {
                // What stands at a slot fits.
                let _slots = self.nodes.capacity();
                Ok(key)
            }
            Err(refused) => Err(refused),
        }
    }

    // Writes a record's marks.
    #[inline(always)]
    pub(crate) fn write_marks(&mut self, key: Key, marks: Marks)
        requires counted { IsCounted self.old }
        requires open { IsSome (find (nodes_of self.old) key) }
        requires countable { owed_in (nodes_of self.old) + marks.owed < 18446744073709551616 }
        ensures { (node : Node) → find (nodes_of self.old) key ≡ Some node → IsRemarked self.old self.new key node marks }
    {
        let record = self.nodes.at_mut(key.slot as usize);
        let before = record.marks.owed();
        record.marks = marks;
        self.owed = self.owed + marks.owed() - before;
    }

    // A node below this one ended.
    #[inline(always)]
    pub(crate) fn end_child(&mut self, key: Key, is_source: bool, terminal: Terminal)
        requires counted { IsCounted self.old }
        requires open { IsSome (find (nodes_of self.old) key) }
        requires child { IfSome (find (nodes_of self.old) key) (λ node. 0 < node.marks.open_children) }
        ensures { (node : Node) → find (nodes_of self.old) key ≡ Some node →
            IsRemarked self.old self.new key node (after_child is_source (is_merging node.made) terminal node.marks) }
    {
        let record = self.nodes.at_mut(key.slot as usize);
        let merging = record.is_merging();
        record.marks.end_child(is_source, merging, terminal);
    }

    // A source was opened below it.
    #[inline(always)]
    pub(crate) fn open_source(&mut self, key: Key)
        requires counted { IsCounted self.old }
        requires open { IsSome (find (nodes_of self.old) key) }
        requires room { IfSome (find (nodes_of self.old) key) (λ node. node.marks.open_children + 1 < 2 ^ 64) }
        ensures { (node : Node) → find (nodes_of self.old) key ≡ Some node →
            IsRemarked self.old self.new key node (after_source node.marks) }
    {
        self.nodes.at_mut(key.slot as usize).marks.open_source();
    }

    // A notifier was opened below it.
    #[inline(always)]
    pub(crate) fn open_notifier(&mut self, key: Key)
        requires counted { IsCounted self.old }
        requires open { IsSome (find (nodes_of self.old) key) }
        requires room { IfSome (find (nodes_of self.old) key) (λ node. node.marks.open_children + 1 < 2 ^ 64) }
        ensures { (node : Node) → find (nodes_of self.old) key ≡ Some node →
            IsRemarked self.old self.new key node (after_notifier node.marks) }
    {
        self.nodes.at_mut(key.slot as usize).marks.open_notifier();
    }

    // An inner was opened below it.
    #[inline(always)]
    pub(crate) fn open_inner(&mut self, key: Key, replaces: bool)
        requires counted { IsCounted self.old }
        requires open { IsSome (find (nodes_of self.old) key) }
        requires owes { IfSome (find (nodes_of self.old) key) (λ node. 0 < node.marks.owed) }
        requires room { IfSome (find (nodes_of self.old) key) (λ node. node.marks.open_children + 1 < 2 ^ 64) }
        ensures { (node : Node) → find (nodes_of self.old) key ≡ Some node →
            IsRemarked self.old self.new key node (after_inner replaces node.marks) }
    {
        self.nodes
            .at_mut(key.slot as usize)
            .marks
            .open_inner(replaces);
        self.owed -= 1;
    }

    // An item was projected to it.
    #[inline(always)]
    pub(crate) fn project(&mut self, key: Key)
        requires counted { IsCounted self.old }
        requires open { IsSome (find (nodes_of self.old) key) }
        requires countable { owed_in (nodes_of self.old) + 1 < 2 ^ 64 }
        ensures { (node : Node) → find (nodes_of self.old) key ≡ Some node →
            IsRemarked self.old self.new key node (after_projection node.marks) }
    {
        self.nodes.at_mut(key.slot as usize).marks.project();
        self.owed += 1;
    }

    // An item reached its notifier's place.
    #[inline(always)]
    pub(crate) fn fire(&mut self, key: Key)
        requires counted { IsCounted self.old }
        requires open { IsSome (find (nodes_of self.old) key) }
        ensures { (node : Node) → find (nodes_of self.old) key ≡ Some node →
            IsRemarked self.old self.new key node (after_firing node.marks) }
    {
        self.nodes.at_mut(key.slot as usize).marks.fire();
    }

    // One of its projected items was declined.
    #[inline(always)]
    pub(crate) fn decline(&mut self, key: Key)
        requires counted { IsCounted self.old }
        requires open { IsSome (find (nodes_of self.old) key) }
        requires owes { IfSome (find (nodes_of self.old) key) (λ node. 0 < node.marks.owed) }
        ensures { (node : Node) → find (nodes_of self.old) key ≡ Some node →
            IsRemarked self.old self.new key node (after_decline node.marks) }
    {
        self.nodes.at_mut(key.slot as usize).marks.decline();
        self.owed -= 1;
    }

    // Puts a node last on the chain of what may be due, where it is not there.
    #[inline(never)]
    pub(crate) fn note(&mut self, key: Key)
        requires kept { IsKept self.old }
        requires open { IsSome (find (nodes_of self.old) key) }
        ensures kept { IsKept self.new }
        ensures chain { (shown self.new).chain ≡ with_last key (shown self.old).chain }
        ensures rest { Relinks self.old self.new }
    {
        if !self.is_noted(key.slot as usize) {
            self.join(Place::Due, Place::Noted(key.slot as usize));
        }
    }

    // Puts it there where by its marks it has to end.
    #[inline(always)]
    pub(crate) fn note_due(&mut self, key: Key)
        requires kept { IsKept self.old }
        requires open { IsSome (find (nodes_of self.old) key) }
        ensures kept { IsKept self.new }
        ensures chain { (shown self.new).chain ≡ with_due (nodes_of self.old) key (shown self.old).chain }
        ensures rest { Relinks self.old self.new }
    {
        if self.nodes.at(key.slot as usize).terminal_due().is_some() {
            self.note(key);
        }
    }

    // Takes out a record that its siblings pass by, which is on no chain and on whose rings nothing
    // stands. What it owned waits from then on, or leases alone hold it.
    #[inline(always)]
    pub(crate) fn take_node(&mut self, key: Key)
        requires counted { IsCounted self.old }
        requires open { IsSome (find (nodes_of self.old) key) }
        requires noted { link_at self.old (Noted key.slot) ≡ alone (Noted key.slot) }
        requires children { link_at self.old (Children key.slot) ≡ alone (Children key.slot) }
        requires held { link_at self.old (Held key.slot) ≡ alone (Held key.slot) }
        ensures taken { Takes_out (nodes_of self.old) (nodes_of self.new) key }
        ensures counted { IsCounted self.new }
        ensures links { (q : _) → link_at self.new q ≡ set_link_at (Sibling key.slot) (alone (Sibling key.slot)) self.old q }
        ensures resources { self.new.resources ≡ self.old.resources }
    {
        // No more resources are held and wait than there are slots, so their count fits.
        let _slots = self.resources.slot_count();
        let leaf = self.nodes.at(key.slot as usize);
        let count = leaf.held_count;
        let owed = leaf.marks.owed();
        self.nodes.remove(key);
        self.waiting_count.free += count.free;
        self.waiting_count.lent += count.lent;
        self.owed -= owed;
    }

    // How many resources a slot's node owns.
    #[inline(always)]
    fn held_count(&self, slot: usize) -> Counts
        requires there { IsTrue (is_there self.now (Held slot)) }
        ensures { result ≡ held_count_at self.now slot }
    {
        self.nodes.at(slot).held_count
    }

    // Writes how many resources a slot's node owns.
    #[inline(always)]
    fn set_held_count(&mut self, slot: usize, count: Counts)
        requires there { IsTrue (is_there self.old (Held slot)) }
        ensures held { (q : _) → held_count_at self.new q ≡ cond (slot == q) count (held_count_at self.old q) }
        ensures waiting { self.new.waiting_count ≡ self.old.waiting_count }
        ensures owed { self.new.owed ≡ self.old.owed }
        ensures links { KeepsLinks self.old self.new }
        ensures nodes { nodes_of self.new ≡ nodes_of self.old }
        ensures resources { self.new.resources ≡ self.old.resources }
    {
        let record = self.nodes.at_mut(slot);
        record.held_count.free = count.free;
        record.held_count.lent = count.lent;
    }

    // Adds a resource that its node owns and that has no lease out, and that stands on no ring yet.
    #[inline(always)]
    pub(crate) fn add_resource(&mut self, number: u64, stowed: Stowed<R>) -> Result<Key, R>
        requires counted { IsCounted self.old }
        requires owned { IsTrue (is_owned (nodes_of self.old) stowed) }
        requires free { is_lent stowed ≡ false }
        ensures ok { IfOk result (λ key. Inserts (resources_of self.old) (resources_of self.new) key number stowed) }
        ensures counted { OnOk result (IsCounted self.new) }
        ensures links { KeepsLinks self.old self.new }
        ensures nodes { nodes_of self.new ≡ nodes_of self.old }
        ensures succeeds { 0 < self.old.resources.room → IsOk result }
        ensures had_room { 0 < self.old.resources.room → self.new.resources.room + 1 ≡ self.old.resources.room }
        ensures given_back { IfErr result (λ back. back ≡ stowed.resource) }
        ensures err { OnErr result (self.new ≡ record self.old
            { resources = record self.old.resources { room = self.new.resources.room } }) }
        ensures room { OnErr result (self.old.resources.room ≤ self.new.resources.room) }
    {
        let home = stowed.node.slot as usize;
        let link = Link::alone(Place::Stored(self.resources.next_slot()));
        match self.resources.insert(number, Stored { stowed, link }) {
            Ok(key) => {
                // No more are held than there are slots, so their count fits.
                let _slots = self.resources.slot_count();
                let count = self.held_count(home);
                self.set_held_count(
                    home,
                    Counts {
                        free: count.free + 1,
                        lent: count.lent,
                    },
                );
                Ok(key)
            }
            Err(back) => Err(back.stowed.resource),
        }
    }

    // Marks an owned resource as removed from its node: it waits from then on, or leases alone hold it.
    #[inline(always)]
    pub(crate) fn mark_removed(&mut self, key: Key)
        requires counted { IsCounted self.old }
        requires owned { IfSome (find (resources_of self.old) key)
            (λ stowed. IsTrue (is_owned (nodes_of self.old) stowed)) }
        ensures counted { IsCounted self.new }
        ensures rewrites { Rewrites (resources_of self.old) (resources_of self.new) key removed }
        ensures changes { (stowed : Stowed R) → find (resources_of self.old) key ≡ Some stowed →
            Changes (resources_of self.old) (resources_of self.new) key.slot
            (Some (entry_of key.number (removed stowed))) }
        ensures links { KeepsLinks self.old self.new }
        ensures nodes { nodes_of self.new ≡ nodes_of self.old }
    {
        if let Some(stored) = self.resources.get_mut(key) {
            let home = stored.stowed.node.slot as usize;
            let lent = stored.stowed.leases != 0;
            stored.stowed.removed = true;
            let count = self.held_count(home);
            // No more wait, and no more are held by leases alone, than there are slots, so their counts fit.
            let _slots = self.resources.slot_count();
            self.set_held_count(home, count.less(lent));
            self.waiting_count = self.waiting_count.more(lent);
        }
    }

    // Takes out a resource that waits and stands on no ring.
    #[inline(always)]
    pub(crate) fn take_resource(&mut self, key: Key) -> Stowed<R>
        requires counted { IsCounted self.old }
        requires found { IsSome (find (resources_of self.old) key) }
        requires waits { IfSome (find (resources_of self.old) key)
            (λ stowed. is_held (nodes_of self.old) stowed ≡ false) }
        requires link { link_at self.old (At key.slot) ≡ alone (At key.slot) }
        ensures value { find (resources_of self.old) key ≡ Some result }
        ensures taken { Takes_out (resources_of self.old) (resources_of self.new) key }
        ensures counted { IsCounted self.new }
        ensures links { KeepsLinks self.old self.new }
        ensures nodes { self.new.nodes ≡ self.old.nodes }
    {
        let stored = self.resources.take_at(key.slot as usize);
        self.waiting_count = self.waiting_count.less(false);
        stored.stowed
    }

    // One lease more of an owned resource is out.
    #[inline(always)]
    pub(crate) fn lend(&mut self, key: Key)
        requires counted { IsCounted self.old }
        requires owned { IfSome (find (resources_of self.old) key)
            (λ stowed. IsTrue (is_owned (nodes_of self.old) stowed)) }
        requires countable { IfSome (find (resources_of self.old) key) (λ stowed. stowed.leases + 1 < 2 ^ 64) }
        ensures counted { IsCounted self.new }
        ensures rewrites { Rewrites (resources_of self.old) (resources_of self.new) key one_lease_more }
        ensures changes { (stowed : Stowed R) → find (resources_of self.old) key ≡ Some stowed →
            Changes (resources_of self.old) (resources_of self.new) key.slot
            (Some (entry_of key.number (one_lease_more stowed))) }
        ensures links { KeepsLinks self.old self.new }
        ensures nodes { nodes_of self.new ≡ nodes_of self.old }
    {
        if let Some(stored) = self.resources.get_mut(key) {
            let home = stored.stowed.node.slot as usize;
            let lent = stored.stowed.leases != 0;
            stored.stowed.leases += 1;
            if !lent {
                let count = self.held_count(home);
                // No more are lent than there are slots, so their count fits.
                let _slots = self.resources.slot_count();
                self.set_held_count(home, count.less(false).more(true));
            }
        }
    }

    // One lease of a resource is out no more. It gives the ring on which the resource belongs from then on; None
    // while leases of it are out.
    #[inline(always)]
    pub(crate) fn unlend(&mut self, key: Key) -> Option<Place>
        requires counted { IsCounted self.old }
        requires lent { IfSome (find (resources_of self.old) key) (λ stowed. IsTrue (is_lent stowed)) }
        ensures counted { IsCounted self.new }
        ensures rewrites { Rewrites (resources_of self.old) (resources_of self.new) key one_lease_less }
        ensures changes { (stowed : Stowed R) → find (resources_of self.old) key ≡ Some stowed →
            Changes (resources_of self.old) (resources_of self.new) key.slot
            (Some (entry_of key.number (one_lease_less stowed))) }
        ensures links { KeepsLinks self.old self.new }
        ensures nodes { nodes_of self.new ≡ nodes_of self.old }
        ensures ring { result ≡ option_and_then (resource_ring (nodes_of self.new)) (find (resources_of self.new) key) }
    {
        let owned = self.owns(key);
        let stored = self.resources.get_mut(key)?;
        let home = stored.stowed.node.slot as usize;
        stored.stowed.leases -= 1;
        let last = stored.stowed.leases == 0;
        // No more wait than there are slots, so their count fits.
        let _slots = self.resources.slot_count();
        if last {
            Some(self.free_one(home, owned))
        } else {
            None
        }
    }

    // Counts one of those with a lease out among the others. It gives the ring on which that one then belongs.
    #[inline(always)]
    fn free_one(&mut self, slot: usize, owned: bool) -> Place
        requires there { IsTrue owned → IsTrue (is_there self.old (Held slot)) }
        requires some { 0 < (cond owned (held_count_at self.old slot) self.old.waiting_count).lent }
        requires fits { (cond owned (held_count_at self.old slot) self.old.waiting_count).free + 1 < 2 ^ 32 }
        ensures held { (q : _) → held_count_at self.new q ≡
            cond (owned && slot == q) (freed (held_count_at self.old slot)) (held_count_at self.old q) }
        ensures waiting { self.new.waiting_count ≡ cond owned self.old.waiting_count (freed self.old.waiting_count) }
        ensures owed { self.new.owed ≡ self.old.owed }
        ensures links { KeepsLinks self.old self.new }
        ensures nodes { nodes_of self.new ≡ nodes_of self.old }
        ensures resources { self.new.resources ≡ self.old.resources }
        ensures ring { result ≡ cond owned (Held slot) Waiting }
    {
        if owned {
            let count = self.held_count(slot);
            self.set_held_count(slot, count.less(true).more(false));
            Place::Held(slot)
        } else {
            self.waiting_count = self.waiting_count.less(true).more(false);
            Place::Waiting
        }
    }

    // Whether the node of a key's resource owns it.
    #[inline(always)]
    pub(crate) fn owns(&self, key: Key) -> bool
        ensures { result ≡ option_map_or (is_owned (nodes_of self.now)) (find (resources_of self.now) key) false }
    {
        match self.resources.get(key) {
            Some(stored) => !stored.stowed.removed && self.node(stored.stowed.node).is_some(),
            None => false,
        }
    }

    // The ring on which the resource of a key belongs; None for one of which a lease is out.
    #[inline(always)]
    pub(crate) fn ring_of(&self, key: Key) -> Option<Place>
        ensures { result ≡ option_and_then (resource_ring (nodes_of self.now)) (find (resources_of self.now) key) }
    {
        let stored = self.resources.get(key)?;
        if stored.stowed.leases != 0 {
            return None;
        }
        if self.owns(key) {
            Some(Place::Held(stored.stowed.node.slot as usize))
        } else {
            Some(Place::Waiting)
        }
    }

    // How many leases of a key's resource are out.
    #[inline(always)]
    pub(crate) fn leases(&self, key: Key) -> u64
        ensures { result ≡ option_map_or (λ stowed. stowed.leases) (find (resources_of self.now) key) 0 }
    {
        match self.resources.get(key) {
            Some(stored) => stored.stowed.leases,
            None => 0,
        }
    }

    // Whether the resource of a key is held.
    #[inline(always)]
    pub(crate) fn holds(&self, key: Key) -> bool
        ensures { result ≡ option_map_or (is_held (nodes_of self.now)) (find (resources_of self.now) key) false }
    {
        match self.resources.get(key) {
            Some(stored) => {
                stored.stowed.leases != 0
                    || (!stored.stowed.removed && self.node(stored.stowed.node).is_some())
            }
            None => false,
        }
    }
}
