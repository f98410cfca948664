//! How a node is closed with all below it: one childless node after another.

ghost use Rattle.std.specs.Prelude.{◌≡◌, ◌+◌, ◌<◌, ◌≤◌, ◌^◌, IsSome, IfSome, IsTrue, None, is_some, true, vec_len, vec_capacity};
ghost use Rattle.rx_slots.specs.Slots.{find, entry_at};
ghost use Rattle.rx_tree.specs.Cuts.{Descends, LetsWait, CutsLeaf, still_open};
ghost use Rattle.rx_slots.specs.Rings.{Leaves};
ghost use Rattle.rx_tree.specs.Places.{places};
ghost use Rattle.rx_tree.specs.Store.{nodes_of, resources_of, next_of, previous_of, is_there, shown, Relinks, Takes_out};
ghost use Rattle.rx_tree.specs.Ties.{IsTied, IsCounted};
ghost use Rattle.rx_tree.specs.declared.links.Place.TheVariants.{Children, Noted};

use crate::closed::Closed;
use crate::links::Place;
use crate::store::Store;
use rx_slots::Key;

// The number of a key, which is bounded.
#[inline(always)]
fn number_of(key: Key) -> u64
    ensures value { result ≡ key.number }
    ensures bounded { result < 2 ^ 64 }
{
    key.number
}

impl<R: Drop> Store<R> {
    // The key of a node's first child.
    #[inline(always)]
    fn child(&self, key: Key) -> Option<Key>
        requires tied { IsTied self.now }
        requires open { IsSome (find (nodes_of self.now) key) }
        ensures below { IfSome result (λ child. Descends (nodes_of self.now) key child) }
        ensures there { IfSome result (λ child. IsSome (find (nodes_of self.now) child)) }
        ensures later { IfSome result (λ child. key.number < child.number) }
        ensures none { result ≡ None → next_of self.now (Children key.slot) ≡ Children key.slot }
    {
        match self.nodes.at(key.slot as usize).children.next.place() {
            Place::Sibling(slot) => Some(self.node_key(slot)),
            _ => None,
        }
    }

    // The key of a node without children: this one, or one below it.
    #[inline(always)]
    fn leaf_below(&self, key: Key) -> Key
        requires tied { IsTied self.now }
        requires open { IsSome (find (nodes_of self.now) key) }
        ensures below { Descends (nodes_of self.now) key result }
        ensures there { IsSome (find (nodes_of self.now) result) }
        ensures childless { next_of self.now (Children result.slot) ≡ Children result.slot }
    {
        let mut leaf = key;
        while let Some(child) = self.child(leaf) {
            let _bounded = number_of(leaf);
            leaf = child;
        }
        leaf
    }

    // Lets the resources wait that are held at a slot's node.
    #[inline(always)]
    fn let_wait(&mut self, slot: usize)
        requires tied { IsTied self.old }
        requires there { is_some (entry_at (nodes_of self.old) slot) ≡ true }
        ensures waits { LetsWait self.old self.new slot }
        ensures rest { Relinks self.old self.new }
    {
        if let Place::Stored(_) = self.nodes.at(slot).held.next.place() {
            self.merge_held(slot);
        }
    }

    // Takes a slot's node off the chain of what may be due, where it stands there.
    #[inline(always)]
    fn unnote(&mut self, slot: usize)
        requires there { IsTrue (is_there self.old (Noted slot)) }
        requires before { IsTrue (is_there self.old (previous_of self.old (Noted slot))) }
        requires after { IsTrue (is_there self.old (next_of self.old (Noted slot))) }
        requires alone { next_of self.old (Noted slot) ≡ Noted slot → previous_of self.old (Noted slot) ≡ Noted slot }
        ensures leaves { Leaves places (next_of self.old) (previous_of self.old)
            (next_of self.new) (previous_of self.new) (Noted slot) }
        ensures rest { Relinks self.old self.new }
    {
        if self.is_noted(slot) {
            self.leave_noted(slot);
        }
    }

    // Takes a node off the chain on which it stands, which is seldom: apart, so that what closes a node stays small.
    #[cold]
    #[inline(never)]
    fn leave_noted(&mut self, slot: usize)
        requires there { IsTrue (is_there self.old (Noted slot)) }
        requires before { IsTrue (is_there self.old (previous_of self.old (Noted slot))) }
        requires after { IsTrue (is_there self.old (next_of self.old (Noted slot))) }
        ensures leaves { Leaves places (next_of self.old) (previous_of self.old)
            (next_of self.new) (previous_of self.new) (Noted slot) }
        ensures rest { Relinks self.old self.new }
    {
        self.leave(Place::Noted(slot));
    }

    // Takes out the record of a node without children.
    #[inline(always)]
    fn take_leaf(&mut self, key: Key)
        requires tied { IsTied self.old }
        requires open { IsSome (find (nodes_of self.old) key) }
        requires counted { IsCounted self.old }
        requires childless { next_of self.old (Children key.slot) ≡ Children key.slot }
        ensures taken { Takes_out (nodes_of self.old) (nodes_of self.new) key }
        ensures tied { IsTied self.new }
        ensures counted { IsCounted self.new }
        ensures chain { (shown self.new).chain ≡ still_open (nodes_of self.new) (shown self.old).chain }
        ensures resources { resources_of self.new ≡ resources_of self.old }
    {
        self.let_wait(key.slot as usize);
        self.unnote(key.slot as usize);
        self.pass_sibling_by(key.slot as usize);
        self.take_node(key);
    }

    // Moves out a node without children that is this one or stands below it, and gives the key of its
    // parent; None once the top is out.
    #[inline(always)]
    pub(crate) fn close_leaf(
        &mut self,
        top: Key,
        from: Key,
        closed: &mut Vec<Closed>,
    ) -> Option<Key>
        requires tied { IsTied self.old }
        requires counted { IsCounted self.old }
        requires open { IsSome (find (nodes_of self.old) from) }
        requires room { vec_len closed.old + self.old.nodes.count ≤ vec_capacity closed.old }
        ensures cuts { CutsLeaf self.old self.new closed.old.items closed.new.items top from result }
        ensures tied { IsTied self.new }
        ensures counted { IsCounted self.new }
        ensures len { vec_len closed.new ≡ vec_len closed.old + 1 }
        ensures fewer { self.new.nodes.count + 1 ≡ self.old.nodes.count }
        ensures list_room { vec_capacity closed.new ≡ vec_capacity closed.old }
    {
        let key = self.leaf_below(from);
        // It is copied while it stands in its place.
        let leaf = self.nodes.at(key.slot as usize);
        let above = leaf.parent();
        closed.push_reserved(leaf.closed(key));
        self.take_leaf(key);
        if key.number == top.number {
            None
        } else {
            above
        }
    }
}
