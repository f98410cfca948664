//! Links in both directions, and the rings that they make.

ghost use Rattle.std.specs.Prelude.{◌≡◌, ◌≤◌, IsTrue, max, length, vec_capacity};
ghost use Rattle.rx_slots.specs.Rings.{set_step, Joins, Leaves};
ghost use Rattle.rx_slots.specs.Places.{places};
ghost use Rattle.rx_slots.specs.Links.{link_at, set_link_at, next_of, previous_of, is_there, Relinks};

/// A place on a ring. A ring begins and ends at one of the first kind, and goes through places of the
/// other between.
#[derive(Clone, Copy, PartialEq, Eq)]
pub(crate) enum Place {
    /// Where a ring begins and ends.
    End(usize),
    /// What may stand on a ring.
    Member(usize),
}

/// What comes after a place on its ring, and what before.
#[derive(Clone, Copy, PartialEq, Eq)]
pub(crate) struct Link {
    pub(crate) next: Place,
    pub(crate) previous: Place,
}

impl Link {
    // The link of a place that is a ring of its own.
    #[inline(always)]
    pub(crate) fn alone(place: Place) -> Self
        ensures { result ≡ record { next = place; previous = place } }
    {
        Link {
            next: place,
            previous: place,
        }
    }
}

/// The links of all ends and of all members.
#[derive(Drop)]
pub(crate) struct Links {
    pub(crate) ends: Vec<Link>,
    pub(crate) members: Vec<Link>,
}

impl Links {
    // What comes after a place and before it: itself where there is no such place.
    #[inline(always)]
    pub(crate) fn link(&self, place: Place) -> Link
        ensures { result ≡ link_at self.now place }
    {
        let found = match place {
            Place::End(end) => self.ends.get(end),
            Place::Member(member) => self.members.get(member),
        };
        match found {
            Some(link) => *link,
            None => Link::alone(place),
        }
    }

    // What comes after a place that is there, and before it: nothing is asked.
    #[inline(always)]
    fn at(&self, place: Place) -> Link
        requires there { IsTrue (is_there self.now place) }
        ensures { result ≡ link_at self.now place }
    {
        match place {
            Place::End(end) => self.ends[end],
            Place::Member(member) => self.members[member],
        }
    }

    // Writes what comes after a place and before it.
    #[inline(always)]
    fn set_link(&mut self, place: Place, link: Link)
        requires there { IsTrue (is_there self.old place) }
        ensures linked { (q : _) → link_at self.new q ≡ set_link_at place link self.old q }
        ensures rest { Relinks self.old self.new }
    {
        match place {
            Place::End(end) => self.ends[end] = link,
            Place::Member(member) => self.members[member] = link,
        }
    }

    // Adds members that lead to themselves until there are so many. There is room for them.
    pub(crate) fn grow(&mut self, members: usize)
        requires room { members ≤ vec_capacity self.old.members }
        ensures links { (q : _) → link_at self.new q ≡ link_at self.old q }
        ensures ends { self.new.ends ≡ self.old.ends }
        ensures members { members ≤ length self.new.members.items }
        ensures most { length self.new.members.items ≤ max members (length self.old.members.items) }
        ensures more { length self.old.members.items ≤ length self.new.members.items }
    {
        while self.members.len() < members {
            let member = self.members.len();
            self.members
                .push_reserved(Link::alone(Place::Member(member)));
        }
    }

    // Lets one place come directly before another.
    #[inline(always)]
    fn tie(&mut self, one: Place, other: Place)
        requires one { IsTrue (is_there self.old one) }
        requires other { IsTrue (is_there self.old other) }
        ensures next { (q : _) → next_of self.new q ≡ set_step places one other (next_of self.old) q }
        ensures previous { (q : _) → previous_of self.new q ≡ set_step places other one (previous_of self.old) q }
        ensures rest { Relinks self.old self.new }
    {
        let before = self.at(one);
        self.set_link(
            one,
            Link {
                next: other,
                previous: before.previous,
            },
        );
        let after = self.at(other);
        self.set_link(
            other,
            Link {
                next: after.next,
                previous: one,
            },
        );
    }

    // Puts a place last on a ring.
    #[inline(always)]
    pub(crate) fn join(&mut self, end: Place, place: Place)
        requires end { IsTrue (is_there self.old end) }
        requires place { IsTrue (is_there self.old place) }
        requires last { IsTrue (is_there self.old (previous_of self.old end)) }
        ensures joins { Joins places (next_of self.old) (previous_of self.old)
            (next_of self.new) (previous_of self.new) end place }
        ensures rest { Relinks self.old self.new }
    {
        let last = self.at(end).previous;
        self.tie(last, place);
        self.tie(place, end);
    }

    // Takes a place off its ring.
    #[inline(always)]
    pub(crate) fn leave(&mut self, place: Place)
        requires place { IsTrue (is_there self.old place) }
        requires before { IsTrue (is_there self.old (previous_of self.old place)) }
        requires after { IsTrue (is_there self.old (next_of self.old place)) }
        ensures leaves { Leaves places (next_of self.old) (previous_of self.old)
            (next_of self.new) (previous_of self.new) place }
        ensures rest { Relinks self.old self.new }
    {
        let link = self.at(place);
        self.tie(link.previous, link.next);
        self.tie(place, place);
    }
}
