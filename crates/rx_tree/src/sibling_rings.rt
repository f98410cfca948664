//! The rings of siblings, which each opening and each closing changes.
//!
//! On them stand the roots' end, a node's end of its children, and nodes. Any other place is asked for last and apart,
//! so that what opens or closes a node stays small.

ghost use Rattle.std.specs.Prelude.{◌≡◌, ◌<◌, ◌^◌, IsTrue};
ghost use Rattle.rx_slots.specs.Rings.{set_step, Joins, PassesBy};
ghost use Rattle.rx_tree.specs.Places.{places, slot_of};
ghost use Rattle.rx_tree.specs.Store.{next_of, previous_of, is_there, Relinks};
ghost use Rattle.rx_tree.specs.declared.links.Place.TheVariants.{Sibling};

use crate::links::{Link, Place, Step};
use crate::store::Store;

impl<R: Drop> Store<R> {
    // What comes before a place that is no sibling.
    #[cold]
    #[inline(never)]
    fn previous_apart(&self, place: Place) -> Step
        requires there { IsTrue (is_there self.now place) }
        ensures { result ≡ previous_of self.now place }
    {
        self.link(place).previous
    }

    // The last of a ring of siblings, by its end.
    #[inline(always)]
    fn last_sibling(&self, end: Place) -> Step
        requires there { IsTrue (is_there self.now end) }
        ensures { result ≡ previous_of self.now end }
    {
        match end {
            Place::Roots => self.roots.previous,
            Place::Children(slot) => self.nodes.at(slot).children.previous,
            _ => self.previous_apart(end),
        }
    }

    // Writes what comes after a place that is no sibling.
    #[cold]
    #[inline(never)]
    fn set_next_apart(&mut self, place: Place, to: Step)
        requires there { IsTrue (is_there self.old place) }
        ensures next { (q : _) → next_of self.new q ≡ set_step places place to (next_of self.old) q }
        ensures previous { (q : _) → previous_of self.new q ≡ previous_of self.old q }
        ensures rest { Relinks self.old self.new }
    {
        self.set_next(place, to);
    }

    // Writes what comes after a sibling, or first after their end.
    #[inline(always)]
    fn set_next_sibling(&mut self, place: Place, to: Step)
        requires there { IsTrue (is_there self.old place) }
        ensures next { (q : _) → next_of self.new q ≡ set_step places place to (next_of self.old) q }
        ensures previous { (q : _) → previous_of self.new q ≡ previous_of self.old q }
        ensures rest { Relinks self.old self.new }
    {
        match place {
            Place::Roots => self.roots.next = to,
            Place::Children(slot) => self.nodes.at_mut(slot).children.next = to,
            Place::Sibling(slot) => self.nodes.at_mut(slot).sibling.next = to,
            _ => self.set_next_apart(place, to),
        }
    }

    // Writes what comes before a place that is no sibling.
    #[cold]
    #[inline(never)]
    fn set_previous_apart(&mut self, place: Place, to: Step)
        requires there { IsTrue (is_there self.old place) }
        ensures next { (q : _) → next_of self.new q ≡ next_of self.old q }
        ensures previous { (q : _) → previous_of self.new q ≡ set_step places place to (previous_of self.old) q }
        ensures rest { Relinks self.old self.new }
        ensures fits { slot_of place < 2 ^ 29 }
    {
        self.set_previous(place, to);
    }

    // Writes what comes before a sibling, or last before their end.
    #[inline(always)]
    fn set_previous_sibling(&mut self, place: Place, to: Step)
        requires there { IsTrue (is_there self.old place) }
        ensures next { (q : _) → next_of self.new q ≡ next_of self.old q }
        ensures previous { (q : _) → previous_of self.new q ≡ set_step places place to (previous_of self.old) q }
        ensures rest { Relinks self.old self.new }
        ensures fits { slot_of place < 2 ^ 29 }
    {
        match place {
            Place::Roots => self.roots.previous = to,
            Place::Children(slot) => self.nodes.at_mut(slot).children.previous = to,
            Place::Sibling(slot) => self.nodes.at_mut(slot).sibling.previous = to,
            _ => self.set_previous_apart(place, to),
        }
    }

    // Puts a slot's node last on a ring of siblings.
    #[inline(always)]
    pub(crate) fn join_siblings(&mut self, end: Place, slot: usize)
        requires end { IsTrue (is_there self.old end) }
        requires place { IsTrue (is_there self.old (Sibling slot)) }
        requires last { IsTrue (is_there self.old (previous_of self.old end)) }
        ensures joins { Joins places (next_of self.old) (previous_of self.old)
            (next_of self.new) (previous_of self.new) end (Sibling slot) }
        ensures rest { Relinks self.old self.new }
    {
        let last = self.last_sibling(end);
        let place = Place::Sibling(slot);
        self.set_next_sibling(last.place_beside(place), Step::to(place));
        self.set_sibling(
            slot,
            Link {
                next: Step::to(end),
                previous: last,
            },
        );
        self.set_previous_sibling(end, Step::to(place));
    }

    // Lets its ring pass a slot's node by, whose own link stays as it was.
    #[inline(always)]
    pub(crate) fn pass_sibling_by(&mut self, slot: usize)
        requires place { IsTrue (is_there self.old (Sibling slot)) }
        requires before { IsTrue (is_there self.old (previous_of self.old (Sibling slot))) }
        requires after { IsTrue (is_there self.old (next_of self.old (Sibling slot))) }
        ensures passes { PassesBy places (next_of self.old) (previous_of self.old)
            (next_of self.new) (previous_of self.new) (Sibling slot) }
        ensures rest { Relinks self.old self.new }
    {
        let Link { next, previous } = self.nodes.at(slot).sibling;
        let place = Place::Sibling(slot);
        self.set_next_sibling(previous.place_beside(place), next);
        self.set_previous_sibling(next.place_beside(place), previous);
    }
}
