//! The tree, and the calls on its records.

ghost use Rattle.std.specs.Prelude.{◌≡◌, ◌+◌, ◌<◌, ◌≤◌, ◌^◌, ◌↔◌, [], IsOk, IsSome, IsTrue, IfOk, IfErr};
ghost use Rattle.std.specs.Prelude.{IfSome, IfNone, OnOk, OnErr, Some, None, option_map, vec_len};
ghost use Rattle.std.specs.Prelude.{vec_capacity, take, drop, length, cond, is_some, count_by, option_copied};
ghost use Rattle.rx_event.specs.Events.{is_merging};
ghost use Rattle.rx_event.specs.Marks.{after_child, after_source, after_notifier, after_inner, after_projection, after_firing, after_decline};
ghost use Rattle.rx_resource.specs.declared.Life.{Life};
ghost use Rattle.rx_slots.specs.declared.Key.{Key};
ghost use Rattle.rx_slots.specs.Slots.{find, entry_at, value_at, number_at, IsWithin, KeepsOthers};
ghost use Rattle.rx_tree.specs.Ties.{sibling_ring};

use crate::closed::Closed;
use crate::linked::Record;
use crate::links::Place;
use crate::node::{Node, ResKey, Stowed};
use crate::store::Store;
use rx_event::{Event, Terminal};
use rx_marks::Marks;
use rx_resource::Resource;
use rx_slots::Key;
use std::alloc::{AllocError, Global};
use std::marker::Model;

// The ring that a node stands on among its siblings; a connection stands on none.
#[inline(always)]
fn sibling_ring(node: &Node) -> Option<Place>
    ensures { result ≡ sibling_ring node.now }
{
    match (node.above, node.made) {
        (Some(above), _) => Some(Place::Children(above.slot as usize)),
        (
            None,
            Event::Open {
                place: rx_event::Place::Root,
                ..
            },
        ) => Some(Place::Roots),
        _ => None,
    }
}

/// The open nodes with the resources that came to them.
///
/// What stands below a node is closed with it (Observable Contract: an end and an unsubscription stop
/// the observable, and so all that it subscribed to), and what is held at it then waits for its
/// release, as the resource of Using does.
pub struct Tree<R: Resource> {
    pub(crate) store: Store<R>,
}

// Written out, so that where a tree is let go there is one call to prove, and not the drop of each field in turn.
impl<R: Resource> Drop for Tree<R> {
    fn drop(self) {
        let Tree { store: _store } = self;
    }
}

impl<R: Resource> Model for Tree<R> {
    ghost use Rattle.rx_tree.specs.Tree.{Tree as Shown};

    ghost Value = { Shown R };

    ghost use Rattle.rx_tree.specs.Store.{shown};
    ghost use Rattle.rx_tree.specs.Ties.{IsKept};

    ghost view = { λ t. shown t.store };

    ghost invariant = { λ t. IsKept t.store };
}

impl<R: Resource> Tree<R> {
    ghost use Rattle.rx_tree.specs.Tree.{IsPromised, IsNewest, IsPast, IsPlaced, IsChild, IsRoot, IsFirst, HasNone};
    ghost use Rattle.rx_tree.specs.Tree.{Rewrites, blank_node, parent_number, with_marks, with_due, first_of};
    ghost use Rattle.rx_tree.specs.Below.{is_below};
    ghost use Rattle.rx_tree.specs.Closing.{IsSubtree, outside};
    ghost use Rattle.rx_tree.specs.Owed.{owed_in};
    ghost use Rattle.rx_tree.specs.declared.node.Stowed.{Stowed};
    ghost use Rattle.rx_tree.specs.Resources.{is_held, is_held_at, is_owned_at, is_lent_at, store_key, stowed_at, stowed_of, removed, one_lease_more};
    ghost use Rattle.rx_tree.specs.Resources.{one_lease_less, waiting_count, lent_alone_count, Takes, Uses};

    /// A tree with no node and no resource, which takes no memory until the first reservation.
    pub fn new(alloc: Global) -> Self
        ensures nodes { result.nodes.entries ≡ [] }
        ensures count { result.nodes.count ≡ 0 }
        ensures room { result.nodes.room ≡ 0 }
        ensures resources { result.resources.entries ≡ [] }
        ensures resource_count { result.resources.count ≡ 0 }
        ensures resource_room { result.resources.room ≡ 0 }
        ensures chain { result.chain ≡ [] }
    {
        Tree {
            store: Store::new(alloc),
        }
    }

    /// What holds of every tree, for proofs: no two nodes and no two resources have one number, each
    /// node stands where its event says, and what may be due is open. It does nothing.
    pub fn promise(&self)
        ensures { IsPromised self.now }
    {
        let _store = &self.store;
    }

    /// Makes room for `additional` nodes more, so that as many calls of `open` succeed and take no
    /// memory. Refused only where there was less room, and memory was refused or there would be more
    /// than 536,870,912. Nothing else changes either way.
    pub fn reserve(&mut self, additional: usize) -> Result<(), AllocError>
        ensures ok { OnOk result (additional ≤ self.new.nodes.room) }
        ensures succeeds { additional ≤ self.old.nodes.room → IsOk result }
        ensures had_room { additional ≤ self.old.nodes.room → self.new ≡ self.old }
        ensures kept { self.new ≡ record self.old { nodes = record self.old.nodes { room = self.new.nodes.room } } }
        ensures room { self.old.nodes.room ≤ self.new.nodes.room }
    {
        self.store.nodes.reserve(additional)
    }

    /// Makes room for `additional` resources more, so that as many calls of `hold` succeed and take no
    /// memory. Refused only where there was less room, and memory was refused or there would be more
    /// than 536,870,912. Nothing else changes either way.
    pub fn reserve_resources(&mut self, additional: usize) -> Result<(), AllocError>
        ensures ok { OnOk result (additional ≤ self.new.resources.room) }
        ensures succeeds { additional ≤ self.old.resources.room → IsOk result }
        ensures had_room { additional ≤ self.old.resources.room → self.new ≡ self.old }
        ensures kept { self.new ≡ record self.old
            { resources = record self.old.resources { room = self.new.resources.room } } }
        ensures room { self.old.resources.room ≤ self.new.resources.room }
    {
        self.store.resources.reserve(additional)
    }

    /// How many nodes are open.
    pub fn len(&self) -> usize
        ensures value { result ≡ self.now.nodes.count }
        ensures counted { result ≡ count_by is_some self.now.nodes.entries }
    {
        self.store.nodes.len()
    }

    /// How many nodes are open and have room: each stands at a slot below, also those that `open` adds
    /// without a request for memory.
    pub fn slots(&self) -> usize
        ensures value { result ≡ self.now.nodes.count + self.now.nodes.room }
        ensures within { IsWithin self.now.nodes }
    {
        self.store.nodes.capacity()
    }

    /// How many projected items the marks of all open nodes owe together.
    pub fn owed(&self) -> u64
        ensures { result ≡ owed_in self.now.nodes }
    {
        self.store.owed
    }

    /// For how many nodes more there is room.
    #[inline(always)]
    pub fn room(&self) -> usize
        ensures { result ≡ self.now.nodes.room }
    {
        self.store.nodes.room()
    }

    /// For how many resources more there is room.
    #[inline(always)]
    pub fn resource_room(&self) -> usize
        ensures { result ≡ self.now.resources.room }
    {
        self.store.resources.room()
    }

    /// The node's record, to be read in place; None where the key finds none. The node above it is open.
    #[inline(always)]
    pub fn get(&self, key: Key) -> Option<&Record>
        ensures value { option_map (λ r. r.node) (option_copied result) ≡ find self.now.nodes key }
        ensures above { IfSome (option_copied result) (λ r. IfSome r.node.above (λ up. IsSome (find self.now.nodes up))) }
    {
        self.store.nodes.get(key)
    }

    /// The record at a slot that has one.
    #[inline(always)]
    pub fn at(&self, slot: u64) -> &Record
        requires there { IsSome (entry_at self.now.nodes slot) }
        ensures value { value_at self.now.nodes slot ≡ Some result.now.node }
        ensures above { IfSome result.now.node.above (λ up. IsSome (find self.now.nodes up)) }
    {
        self.store.nodes.at(slot as usize)
    }

    /// The number of the node at a slot that has one.
    #[inline(always)]
    pub fn number_of(&self, slot: usize) -> u64
        requires there { IsSome (entry_at self.now.nodes slot) }
        ensures { number_at self.now.nodes slot ≡ Some result }
    {
        self.store.nodes.number_of(slot)
    }

    /// The record of the node above one that stands below a node.
    #[inline(always)]
    pub fn above(&self, node: &Record) -> &Record
        requires below { IsSome node.now.node.above }
        requires there { IfSome node.now.node.above (λ up. IsSome (find self.now.nodes up)) }
        ensures value { IfSome node.now.node.above (λ up. find self.now.nodes up ≡ Some result.now.node) }
        ensures above { IfSome result.now.node.above (λ up. IsSome (find self.now.nodes up)) }
    {
        self.store.nodes.at(node.made.slot as usize)
    }

    /// Whether a key finds a node.
    #[inline(always)]
    pub fn contains(&self, key: Key) -> bool
        ensures { IsTrue result ↔ IsSome (find self.now.nodes key) }
    {
        self.store.nodes.contains(key)
    }

    /// The Open or Connect that made the node; None where the key finds none.
    #[inline(always)]
    pub fn made(&self, key: Key) -> Option<Event>
        ensures { result ≡ option_map (λ node. node.made) (find self.now.nodes key) }
    {
        Some(self.store.nodes.get(key)?.made.event())
    }

    /// The node's marks; None where the key finds none.
    #[inline(always)]
    pub fn marks(&self, key: Key) -> Option<Marks>
        ensures { result ≡ option_map (λ node. node.marks) (find self.now.nodes key) }
    {
        Some(self.store.nodes.get(key)?.marks)
    }

    /// The key of the node that this one stands below; None for a root, for a connection, and where
    /// the key finds none.
    #[inline(always)]
    pub fn parent(&self, key: Key) -> Option<Key>
        ensures number { option_map (λ parent. parent.number) result ≡ parent_number self.now.nodes key }
        ensures found { IfSome result (λ parent. IsSome (find self.now.nodes parent)) }
    {
        self.store.nodes.get(key)?.parent()
    }

    /// The key of the oldest node directly below this one; None where there is none.
    #[inline(always)]
    pub fn first_child(&self, key: Key) -> Option<Key>
        ensures some { IfSome result (IsFirst (IsChild self.now.nodes key) 0) }
        ensures none { IfNone result (HasNone (IsChild self.now.nodes key) 0) }
    {
        let _node = self.store.node(key)?;
        match self.store.nodes.at(key.slot as usize).children.next.place() {
            Place::Sibling(slot) => self.store.nodes.key_at(slot),
            _ => None,
        }
    }

    /// The key of the next younger node directly below the same one; None for the youngest, for a node
    /// that stands below none, and where the key finds none.
    #[inline(always)]
    pub fn next_sibling(&self, key: Key) -> Option<Key>
        ensures some { IfSome result (λ next. (parent : Key) → IsChild self.now.nodes parent key →
            IsFirst (IsChild self.now.nodes parent) (key.number + 1) next) }
        ensures none { IfNone result ((parent : Key) → IsChild self.now.nodes parent key →
            HasNone (IsChild self.now.nodes parent) (key.number + 1)) }
        ensures alone { parent_number self.now.nodes key ≡ None → result ≡ None }
    {
        let _parent = self.store.node(key)?.above?;
        match self.store.nodes.at(key.slot as usize).sibling.next.place() {
            Place::Sibling(slot) => self.store.nodes.key_at(slot),
            _ => None,
        }
    }

    /// The key of the oldest open root; None where no root is open. A connection is no root.
    #[inline(always)]
    pub fn first_root(&self) -> Option<Key>
        ensures some { IfSome result (IsFirst (IsRoot self.now.nodes) 0) }
        ensures none { IfNone result (HasNone (IsRoot self.now.nodes) 0) }
    {
        match self.store.roots.next.place() {
            Place::Sibling(slot) => self.store.nodes.key_at(slot),
            _ => None,
        }
    }

    /// Adds a record with blank marks, and gives its key.
    ///
    /// The event is the Open or Connect that makes the node, and `above` the key of the node that its
    /// place names, None for a root or a connection; with the key the parent needs no search.
    /// Refused only where there was no room, and memory was refused or there are 536,870,912 nodes; then
    /// nothing else changes.
    #[inline(always)]
    pub fn open(&mut self, number: u64, made: Event, above: Option<Key>) -> Result<Key, AllocError>
        requires newest { IsNewest self.old number }
        requires placed { IsPlaced self.old.nodes number made above }

        // The record goes to a slot that was free, and no other changes.
        ensures numbered { IfOk result (λ key. key.number ≡ number) }
        ensures was_free { IfOk result (λ key. entry_at self.old.nodes key.slot ≡ None) }
        ensures opened { IfOk result (λ key. find self.new.nodes key ≡ Some (blank_node made above)) }
        ensures kept { IfOk result (λ key. KeepsOthers self.old.nodes self.new.nodes key) }
        ensures count { OnOk result (self.new.nodes.count ≡ self.old.nodes.count + 1) }
        ensures owed { OnOk result (owed_in self.new.nodes ≡ owed_in self.old.nodes) }
        ensures resources { self.new.resources ≡ self.old.resources }
        ensures chain { self.new.chain ≡ self.old.chain }

        // One place of the room is used, where there was room.
        ensures succeeds { 0 < self.old.nodes.room → IsOk result }
        ensures had_room { 0 < self.old.nodes.room → self.new.nodes.room + 1 ≡ self.old.nodes.room }

        ensures err { OnErr result (self.new ≡ record self.old
            { nodes = record self.old.nodes { room = self.new.nodes.room } }) }
        ensures room { OnErr result (self.old.nodes.room ≤ self.new.nodes.room) }
    {
        let node = Node {
            made,
            above,
            marks: Marks::blank(),
        };
        let ring = sibling_ring(&node);
        let key = match self.store.add_node(number, node) {
            Ok(key) => key,
            Err(refused) => return Err(refused),
        };
        if let Some(ring) = ring {
            self.store.join_siblings(ring, key.slot as usize);
        }
        Ok(key)
    }

    /// Gives the node these marks, and puts it last on the chain of what may be due where by them it has
    /// to end and it is not there. Nothing changes where the key finds none. It takes no memory.
    ///
    /// What all nodes owe is counted as a `u64`, which the caller keeps from its end.
    pub fn set_marks(&mut self, key: Key, marks: Marks)
        requires countable { owed_in self.old.nodes + marks.owed < 18446744073709551616 }
        ensures nodes { Rewrites self.old.nodes self.new.nodes key (with_marks marks) }
        ensures chain { self.new.chain ≡ with_due self.new.nodes key self.old.chain }
        ensures resources { self.new.resources ≡ self.old.resources }
    {
        if self.contains(key) {
            self.store.write_marks(key, marks);
            self.store.note_due(key);
        }
    }

    /// Marks the node as one below which a node ended by itself, and puts it last on the chain of what may
    /// be due where it has to end by that and it is not there. As all that marks, it takes no memory.
    #[inline(always)]
    pub fn mark_end(&mut self, key: Key, is_source: bool, terminal: Terminal)
        requires open { IsSome (find self.old.nodes key) }
        requires child { IfSome (find self.old.nodes key) (λ node. 0 < node.marks.open_children) }
        ensures nodes { (node : Node) → find self.old.nodes key ≡ Some node → Rewrites self.old.nodes self.new.nodes key
            (with_marks (after_child is_source (is_merging node.made) terminal node.marks)) }
        ensures chain { self.new.chain ≡ with_due self.new.nodes key self.old.chain }
        ensures resources { self.new.resources ≡ self.old.resources }
    {
        self.store.end_child(key, is_source, terminal);
        self.store.note_due(key);
    }

    /// Marks the node as one of whose projected items a caller declined one, and chains it likewise.
    #[inline(always)]
    pub fn mark_decline(&mut self, key: Key)
        requires open { IsSome (find self.old.nodes key) }
        requires owes { IfSome (find self.old.nodes key) (λ node. 0 < node.marks.owed) }
        ensures nodes { (node : Node) → find self.old.nodes key ≡ Some node →
            Rewrites self.old.nodes self.new.nodes key (with_marks (after_decline node.marks)) }
        ensures chain { self.new.chain ≡ with_due self.new.nodes key self.old.chain }
        ensures resources { self.new.resources ≡ self.old.resources }
    {
        self.store.decline(key);
        self.store.note_due(key);
    }

    /// Marks the node as one at whose notifier's place an item arrived, and chains it likewise.
    #[inline(always)]
    pub fn mark_firing(&mut self, key: Key)
        requires open { IsSome (find self.old.nodes key) }
        ensures nodes { (node : Node) → find self.old.nodes key ≡ Some node →
            Rewrites self.old.nodes self.new.nodes key (with_marks (after_firing node.marks)) }
        ensures chain { self.new.chain ≡ with_due self.new.nodes key self.old.chain }
        ensures resources { self.new.resources ≡ self.old.resources }
    {
        self.store.fire(key);
        self.store.note_due(key);
    }

    /// Marks the node as one to which an item was projected. By that no node has to end.
    #[inline(always)]
    pub fn mark_projection(&mut self, key: Key)
        requires open { IsSome (find self.old.nodes key) }
        requires countable { owed_in self.old.nodes + 1 < 2 ^ 64 }
        ensures nodes { (node : Node) → find self.old.nodes key ≡ Some node →
            Rewrites self.old.nodes self.new.nodes key (with_marks (after_projection node.marks)) }
        ensures chain { self.new.chain ≡ self.old.chain }
        ensures resources { self.new.resources ≡ self.old.resources }
    {
        self.store.project(key);
    }

    /// Marks the node as one at whose Source place a node was opened. By an opening none has to end.
    #[inline(always)]
    pub fn mark_source(&mut self, key: Key)
        requires open { IsSome (find self.old.nodes key) }
        requires room { IfSome (find self.old.nodes key) (λ node. node.marks.open_children + 1 < 2 ^ 64) }
        ensures nodes { (node : Node) → find self.old.nodes key ≡ Some node →
            Rewrites self.old.nodes self.new.nodes key (with_marks (after_source node.marks)) }
        ensures chain { self.new.chain ≡ self.old.chain }
        ensures resources { self.new.resources ≡ self.old.resources }
    {
        self.store.open_source(key);
    }

    /// Marks the node as one at whose Notifier place a node was opened.
    #[inline(always)]
    pub fn mark_notifier(&mut self, key: Key)
        requires open { IsSome (find self.old.nodes key) }
        requires room { IfSome (find self.old.nodes key) (λ node. node.marks.open_children + 1 < 2 ^ 64) }
        ensures nodes { (node : Node) → find self.old.nodes key ≡ Some node →
            Rewrites self.old.nodes self.new.nodes key (with_marks (after_notifier node.marks)) }
        ensures chain { self.new.chain ≡ self.old.chain }
        ensures resources { self.new.resources ≡ self.old.resources }
    {
        self.store.open_notifier(key);
    }

    /// Marks the node as one at whose Inner place a node was opened for an item that was owed: in the place
    /// of an open one, or beside the others. It chains it likewise.
    #[inline(always)]
    pub fn mark_inner(&mut self, key: Key, replaces: bool)
        requires open { IsSome (find self.old.nodes key) }
        requires owes { IfSome (find self.old.nodes key) (λ node. 0 < node.marks.owed) }
        requires room { IfSome (find self.old.nodes key) (λ node. node.marks.open_children + 1 < 2 ^ 64) }
        ensures nodes { (node : Node) → find self.old.nodes key ≡ Some node →
            Rewrites self.old.nodes self.new.nodes key (with_marks (after_inner replaces node.marks)) }
        ensures chain { self.new.chain ≡ with_due self.new.nodes key self.old.chain }
        ensures resources { self.new.resources ≡ self.old.resources }
    {
        self.store.open_inner(key, replaces);
        self.store.note_due(key);
    }

    /// Whether the chain of what may be due is empty.
    #[inline(always)]
    pub fn is_calm(&self) -> bool
        ensures { IsTrue result ↔ self.now.chain ≡ [] }
    {
        match self.store.due.next.place() {
            Place::Noted(_) => false,
            _ => true,
        }
    }

    /// The key of the node that is first on the chain of what may be due; None where it is empty.
    #[inline(always)]
    pub fn pending(&self) -> Option<Key>
        ensures { result ≡ first_of self.now.chain }
    {
        match self.store.due.next.place() {
            Place::Noted(slot) => self.store.nodes.key_at(slot),
            _ => None,
        }
    }

    /// Drops the first of the chain of what may be due; nothing changes where it is empty. It takes no
    /// memory.
    pub fn unchain(&mut self)
        ensures { self.new ≡ record self.old { chain = drop 1 self.old.chain } }
    {
        if let Place::Noted(slot) = self.store.due.next.place() {
            self.store.leave(Place::Noted(slot));
        }
    }

    /// Moves the node and all below it out into the caller's list. The resources that were held there
    /// wait from then on, since their node is open no more.
    ///
    /// The caller keeps room in the list for as many records as the tree has. It takes no memory, and
    /// time that grows with what it moves out alone; the slots are free again.
    #[inline(always)]
    pub fn close_below(&mut self, key: Key, closed: &mut Vec<Closed>)
        requires open { IsSome (find self.old.nodes key) }
        requires room { vec_len closed.old + self.old.nodes.count ≤ vec_capacity closed.old }

        // The list begins as it did, and goes on with the subtree.
        ensures before { take (length closed.old.items) closed.new.items ≡ closed.old.items }
        ensures moved { IsSubtree self.old.nodes key.number (drop (length closed.old.items) closed.new.items) }
        ensures kept { (other : Key) → find self.new.nodes other ≡
            cond (is_below self.old.nodes key.number other.number) None (find self.old.nodes other) }
        ensures count { vec_len closed.new + self.new.nodes.count ≡ vec_len closed.old + self.old.nodes.count }
        ensures owed { owed_in self.new.nodes ≤ owed_in self.old.nodes }
        ensures room { self.new.nodes.room + self.new.nodes.count ≡ self.old.nodes.room + self.old.nodes.count }
        ensures list_room { vec_capacity closed.new ≡ vec_capacity closed.old }
        ensures chain { self.new.chain ≡ outside self.old.nodes key.number self.old.chain }
        ensures resources { self.new.resources ≡ self.old.resources }
    {
        let mut at = key;
        while let Some(above) = self.store.close_leaf(key, at, closed) {
            at = above;
        }
    }

    /// Adds a resource that is held at the node, and gives its key.
    ///
    /// Refused only where there was no room, and memory was refused or there are 536,870,912 resources:
    /// the resource then comes back, and nothing else changes.
    #[inline(always)]
    pub fn hold(&mut self, key: Key, number: u64, resource: R) -> Result<ResKey, R>
        requires open { IsSome (find self.old.nodes key) }
        requires newest { IsPast self.old.resources number }

        // The resource goes to a slot that was free, and no other changes.
        ensures numbered { IfOk result (λ res. res.number ≡ number) }
        ensures was_free { IfOk result (λ res. entry_at self.old.resources res.slot ≡ None) }
        ensures held { IfOk result (λ res. stowed_of self.new res ≡ Some (stowed_at key resource)) }
        ensures kept { IfOk result (λ res. KeepsOthers self.old.resources self.new.resources (store_key res)) }
        ensures count { OnOk result (self.new.resources.count ≡ self.old.resources.count + 1) }
        ensures nodes { self.new.nodes ≡ self.old.nodes }
        ensures chain { self.new.chain ≡ self.old.chain }

        // One place of the room is used, where there was room.
        ensures succeeds { 0 < self.old.resources.room → IsOk result }
        ensures had_room { 0 < self.old.resources.room → self.new.resources.room + 1 ≡ self.old.resources.room }

        ensures given_back { IfErr result (λ back. back ≡ resource) }
        ensures err { OnErr result (self.new ≡ record self.old
            { resources = record self.old.resources { room = self.new.resources.room } }) }
        ensures room { OnErr result (self.old.resources.room ≤ self.new.resources.room) }
    {
        let stowed = Stowed {
            node: key,
            removed: false,
            leases: 0,
            resource,
        };
        match self.store.add_resource(number, stowed) {
            Ok(stored) => {
                self.store.join(
                    Place::Held(key.slot as usize),
                    Place::Stored(stored.slot as usize),
                );
                Ok(ResKey {
                    slot: stored.slot,
                    number: stored.number,
                })
            }
            Err(back) => Err(back),
        }
    }

    /// Whether a resource is held under this key.
    pub fn holds(&self, res: ResKey) -> bool
        ensures { result ≡ is_held_at self.now res }
    {
        self.store.holds(Key {
            slot: res.slot,
            number: res.number,
        })
    }

    /// Uses a held resource on a word, and answers its word.
    pub fn apply(&mut self, res: ResKey, word: u64) -> u64
        requires held { IsTrue (is_held_at self.old res) }
        requires live { IfSome (stowed_of self.old res) (λ stowed. R.life_of stowed.resource ≡ Life.Live) }
        requires countable { IfSome (stowed_of self.old res) (λ stowed. R.uses_of stowed.resource + 1 < 2 ^ 64) }
        ensures { IfSome (stowed_of self.old res) (Uses R.Resource self.old self.new res) }
    {
        let key = Key {
            slot: res.slot,
            number: res.number,
        };
        match self.store.resources.get_mut(key) {
            Some(stored) => stored.stowed.resource.apply(word),
            None => unreachable!(),
        }
    }

    /// Whether a resource is owned under this key: its node is open, and it was not removed.
    pub fn owns(&self, res: ResKey) -> bool
        ensures { result ≡ is_owned_at self.now res }
    {
        self.store.owns(Key {
            slot: res.slot,
            number: res.number,
        })
    }

    /// Lets one lease more of an owned resource be out. It takes no memory.
    pub fn lend(&mut self, res: ResKey)
        requires owned { IsTrue (is_owned_at self.old res) }
        requires countable { IfSome (stowed_of self.old res) (λ stowed. stowed.leases + 1 < 2 ^ 64) }
        ensures resources { Rewrites self.old.resources self.new.resources (store_key res) one_lease_more }
        ensures nodes { self.new.nodes ≡ self.old.nodes }
        ensures chain { self.new.chain ≡ self.old.chain }
    {
        let key = Key {
            slot: res.slot,
            number: res.number,
        };
        self.store.leave(Place::Stored(res.slot as usize));
        self.store.lend(key);
    }

    /// Lets one lease of a resource be out no more: after its last one it is held by its node again, or
    /// waits. It takes no memory.
    pub fn unlend(&mut self, res: ResKey)
        requires lent { IsTrue (is_lent_at self.old res) }
        ensures resources { Rewrites self.old.resources self.new.resources (store_key res) one_lease_less }
        ensures nodes { self.new.nodes ≡ self.old.nodes }
        ensures chain { self.new.chain ≡ self.old.chain }
    {
        let key = Key {
            slot: res.slot,
            number: res.number,
        };
        // One of which a lease is out stands on no ring.
        if let Some(ring) = self.store.unlend(key) {
            self.store.join(ring, Place::Stored(res.slot as usize));
        }
    }

    /// Takes an owned resource away from its node: it then waits, or leases alone hold it. It takes no
    /// memory.
    pub fn unhold(&mut self, res: ResKey)
        requires owned { IsTrue (is_owned_at self.old res) }
        ensures resources { Rewrites self.old.resources self.new.resources (store_key res) removed }
        ensures nodes { self.new.nodes ≡ self.old.nodes }
        ensures chain { self.new.chain ≡ self.old.chain }
    {
        let key = Key {
            slot: res.slot,
            number: res.number,
        };
        let place = Place::Stored(res.slot as usize);
        self.store.leave(place);
        self.store.mark_removed(key);
        if let Some(ring) = self.store.ring_of(key) {
            self.store.join(ring, place);
        }
    }

    /// How many resources wait.
    pub fn waiting(&self) -> u64
        ensures { result ≡ waiting_count self.now }
    {
        u64::from(self.store.waiting_count.free)
    }

    /// How many resources leases alone hold.
    pub fn lent_alone(&self) -> u64
        ensures { result ≡ lent_alone_count self.now }
    {
        u64::from(self.store.waiting_count.lent)
    }

    /// Takes out a resource that waits, with its number; None where none waits. It takes no memory.
    pub fn take_waiting(&mut self) -> Option<(u64, R)>
        ensures some { IfSome result (λ taken. Takes self.old self.new taken.0 taken.1) }
        ensures none { IfNone result ((key : Key) (stowed : Stowed R) → find self.old.resources key ≡ Some stowed →
            IsTrue (is_held self.old.nodes stowed)) }
        ensures kept { IfNone result (self.new ≡ self.old) }
        ensures nodes { self.new.nodes ≡ self.old.nodes }
        ensures chain { self.new.chain ≡ self.old.chain }
    {
        match self.store.waiting.next.place() {
            Place::Stored(slot) => {
                let key = self.store.resource_key(slot);
                self.store.leave(Place::Stored(key.slot as usize));
                let stowed = self.store.take_resource(key);
                Some((key.number, stowed.resource))
            }
            _ => None,
        }
    }
}
