//! The records of the nodes and the resources, each with its links, and the rings that the links make.

ghost use Rattle.std.specs.Prelude.{◌≡◌, ◌<◌, ◌^◌, [], IsTrue};
ghost use Rattle.rx_slots.specs.Rings.{set_step, Joins, PassesBy, Leaves, Merges};
ghost use Rattle.rx_tree.specs.Places.{places, slot_of};
ghost use Rattle.rx_tree.specs.Store.{alone, link_at, set_link_at, next_of, previous_of};
ghost use Rattle.rx_tree.specs.Store.{is_there, no_counts, Relinks};
ghost use Rattle.rx_tree.specs.declared.links.Place.TheVariants.{Roots, Due, Waiting, Children, Held, Sibling, Noted};

use crate::counts::Counts;
use crate::linked::Record;
use crate::links::{Link, Place, Step};
use crate::node::Stowed;
use rx_slots::{Records, Slots};
use std::alloc::Global;

/// A resource with its links.
#[derive(Drop)]
pub(crate) struct Stored<R: Drop> {
    pub(crate) stowed: Stowed<R>,
    /// Among those that its node owns with it, or that wait; of its own while a lease of it is out.
    pub(crate) link: Link,
}

/// The records and the resources, and where the rings begin that belong to no node.
#[derive(Drop)]
pub(crate) struct Store<R: Drop> {
    pub(crate) nodes: Records<Record>,
    pub(crate) resources: Slots<Stored<R>>,
    pub(crate) roots: Link,
    pub(crate) due: Link,
    pub(crate) waiting: Link,
    /// How many resources no node owns: those that wait, and those that leases alone hold.
    pub(crate) waiting_count: Counts,
    /// How many projected items the marks of the nodes owe together.
    pub(crate) owed: u64,
}

impl<R: Drop> Store<R> {
    // A store with nothing in it, which takes no memory.
    pub(crate) fn new(alloc: Global) -> Self
        ensures nodes { result.nodes.entries ≡ [] }
        ensures count { result.nodes.count ≡ 0 }
        ensures room { result.nodes.room ≡ 0 }
        ensures resources { result.resources.entries ≡ [] }
        ensures resource_count { result.resources.count ≡ 0 }
        ensures resource_room { result.resources.room ≡ 0 }
        ensures roots { result.roots ≡ alone Roots }
        ensures due { result.due ≡ alone Due }
        ensures waiting { result.waiting ≡ alone Waiting }
        ensures waiting_count { result.waiting_count ≡ no_counts }
        ensures owed { result.owed ≡ 0 }
    {
        Store {
            nodes: Records::new(alloc),
            resources: Slots::new(alloc),
            roots: Link::alone(Place::Roots),
            due: Link::alone(Place::Due),
            waiting: Link::alone(Place::Waiting),
            waiting_count: Counts::zero(),
            owed: 0,
        }
    }

    // The calls on links are inlined, so that no kind is asked for where the caller writes it. Where a place's kind is
    // known, its own call keeps what closes or opens a node so small that it is inlined as well.

    // Writes what comes first and last of the resources that are held at a slot's node.
    #[inline(always)]
    fn set_held(&mut self, slot: usize, link: Link)
        requires there { IsTrue (is_there self.old (Held slot)) }
        ensures linked { (q : _) → link_at self.new q ≡ set_link_at (Held slot) link self.old q }
        ensures rest { Relinks self.old self.new }
        ensures fits { slot < 2 ^ 29 }
    {
        self.nodes.at_mut(slot).held.set(link);
    }

    // Writes what comes after a slot's node among its siblings, and before it.
    #[inline(always)]
    pub(crate) fn set_sibling(&mut self, slot: usize, link: Link)
        requires there { IsTrue (is_there self.old (Sibling slot)) }
        ensures linked { (q : _) → link_at self.new q ≡ set_link_at (Sibling slot) link self.old q }
        ensures rest { Relinks self.old self.new }
        ensures fits { slot < 2 ^ 29 }
    {
        self.nodes.at_mut(slot).sibling.set(link);
    }

    // What comes after a place and before it.
    #[inline(always)]
    pub(crate) fn link(&self, place: Place) -> Link
        requires there { IsTrue (is_there self.now place) }
        ensures { result ≡ link_at self.now place }
    {
        match place {
            Place::Roots => self.roots,
            Place::Due => self.due,
            Place::Waiting => self.waiting,
            Place::Children(slot) => self.nodes.at(slot).children,
            Place::Held(slot) => self.nodes.at(slot).held,
            Place::Sibling(slot) => self.nodes.at(slot).sibling,
            Place::Noted(slot) => self.nodes.at(slot).noted,
            Place::Stored(slot) => self.resources.at(slot).link,
        }
    }

    // Writes what comes after a place and before it.
    #[inline(always)]
    fn set_link(&mut self, place: Place, link: Link)
        requires there { IsTrue (is_there self.old place) }
        ensures linked { (q : _) → link_at self.new q ≡ set_link_at place link self.old q }
        ensures rest { Relinks self.old self.new }
        ensures fits { slot_of place < 2 ^ 29 }
    {
        match place {
            Place::Roots => self.roots.set(link),
            Place::Due => self.due.set(link),
            Place::Waiting => self.waiting.set(link),
            Place::Children(slot) => self.nodes.at_mut(slot).children.set(link),
            Place::Held(slot) => self.set_held(slot, link),
            Place::Sibling(slot) => self.set_sibling(slot, link),
            Place::Noted(slot) => self.nodes.at_mut(slot).noted.set(link),
            Place::Stored(slot) => self.resources.at_mut(slot).link.set(link),
        }
    }

    // Writes what comes after a place.
    #[inline(always)]
    pub(crate) fn set_next(&mut self, place: Place, to: Step)
        requires there { IsTrue (is_there self.old place) }
        ensures next { (q : _) → next_of self.new q ≡ set_step places place to (next_of self.old) q }
        ensures previous { (q : _) → previous_of self.new q ≡ previous_of self.old q }
        ensures rest { Relinks self.old self.new }
    {
        match place {
            Place::Roots => self.roots.next = to,
            Place::Due => self.due.next = to,
            Place::Waiting => self.waiting.next = to,
            Place::Children(slot) => self.nodes.at_mut(slot).children.next = to,
            Place::Held(slot) => self.nodes.at_mut(slot).held.next = to,
            Place::Sibling(slot) => self.nodes.at_mut(slot).sibling.next = to,
            Place::Noted(slot) => self.nodes.at_mut(slot).noted.next = to,
            Place::Stored(slot) => self.resources.at_mut(slot).link.next = to,
        }
    }

    // Writes what comes before a place.
    #[inline(always)]
    pub(crate) fn set_previous(&mut self, place: Place, to: Step)
        requires there { IsTrue (is_there self.old place) }
        ensures next { (q : _) → next_of self.new q ≡ next_of self.old q }
        ensures previous { (q : _) → previous_of self.new q ≡ set_step places place to (previous_of self.old) q }
        ensures rest { Relinks self.old self.new }
        ensures fits { slot_of place < 2 ^ 29 }
    {
        match place {
            Place::Roots => self.roots.previous = to,
            Place::Due => self.due.previous = to,
            Place::Waiting => self.waiting.previous = to,
            Place::Children(slot) => self.nodes.at_mut(slot).children.previous = to,
            Place::Held(slot) => self.nodes.at_mut(slot).held.previous = to,
            Place::Sibling(slot) => self.nodes.at_mut(slot).sibling.previous = to,
            Place::Noted(slot) => self.nodes.at_mut(slot).noted.previous = to,
            Place::Stored(slot) => self.resources.at_mut(slot).link.previous = to,
        }
    }

    // Puts a place last on a ring.
    #[inline(always)]
    pub(crate) fn join(&mut self, end: Place, place: Place)
        requires end { IsTrue (is_there self.old end) }
        requires place { IsTrue (is_there self.old place) }
        requires last { IsTrue (is_there self.old (previous_of self.old end)) }
        ensures joins { Joins places (next_of self.old) (previous_of self.old)
            (next_of self.new) (previous_of self.new) end place }
        ensures rest { Relinks self.old self.new }
    {
        let last = self.link(end).previous;
        self.set_next(last.place_beside(place), Step::to(place));
        self.set_link(
            place,
            Link {
                next: Step::to(end),
                previous: last,
            },
        );
        self.set_previous(end, Step::to(place));
    }

    // Lets its ring pass a place by, whose own link stays as it was.
    #[inline(always)]
    pub(crate) fn pass_by(&mut self, place: Place)
        requires place { IsTrue (is_there self.old place) }
        requires before { IsTrue (is_there self.old (previous_of self.old place)) }
        requires after { IsTrue (is_there self.old (next_of self.old place)) }
        ensures passes { PassesBy places (next_of self.old) (previous_of self.old)
            (next_of self.new) (previous_of self.new) place }
        ensures rest { Relinks self.old self.new }
    {
        let link = self.link(place);
        self.set_next(link.previous.place_beside(place), link.next);
        self.set_previous(link.next.place_beside(place), link.previous);
    }

    // Takes a place off its ring.
    #[inline(always)]
    pub(crate) fn leave(&mut self, place: Place)
        requires place { IsTrue (is_there self.old place) }
        requires before { IsTrue (is_there self.old (previous_of self.old place)) }
        requires after { IsTrue (is_there self.old (next_of self.old place)) }
        ensures leaves { Leaves places (next_of self.old) (previous_of self.old)
            (next_of self.new) (previous_of self.new) place }
        ensures rest { Relinks self.old self.new }
    {
        self.pass_by(place);
        self.set_link(place, Link::alone(place));
    }

    // Puts the resources that are held at a slot's node at the end of those that wait.
    #[inline(always)]
    pub(crate) fn merge_held(&mut self, slot: usize)
        requires from { IsTrue (is_there self.old (Held slot)) }
        requires last { IsTrue (is_there self.old (previous_of self.old Waiting)) }
        requires from_first { IsTrue (is_there self.old (next_of self.old (Held slot))) }
        requires from_last { IsTrue (is_there self.old (previous_of self.old (Held slot))) }
        ensures merges { Merges places (next_of self.old) (previous_of self.old)
            (next_of self.new) (previous_of self.new) (Held slot) Waiting }
        ensures rest { Relinks self.old self.new }
    {
        let from = Place::Held(slot);
        let link = self.nodes.at(slot).held;
        let last = self.waiting.previous;
        self.set_next(last.place_beside(Place::Waiting), link.next);
        self.set_previous(link.next.place_beside(from), last);
        self.set_next(link.previous.place_beside(from), Step::to(Place::Waiting));
        self.set_previous(Place::Waiting, link.previous);
        self.set_held(slot, Link::alone(from));
    }
}
