//! Lists of numbers, each number on one of them at most, that may leave its list from anywhere.

ghost use Rattle.std.specs.Prelude.{ℕ, ◌≡◌, ◌+◌, ◌<◌, ◌≤◌, ◌==◌, ◌++◌, ◌∷◌, [], cond, max, length, false, true, OnOk, OnErr, IsOk};

use crate::links::{Link, Links, Place};
use std::alloc::{AllocError, Global};
use std::marker::Model;

/// Lists of numbers, each number on one of them at most. A number leaves its list at no greater cost
/// where the list is long.
#[derive(Drop)]
pub struct Rings {
    links: Links,
}

impl Model for Rings {
    ghost use Rattle.rx_slots.specs.Lists.{Lists};

    ghost Value = { Lists };

    ghost use Rattle.rx_slots.specs.Links.{lists_of};
    ghost use Rattle.rx_slots.specs.Links.{IsTied};

    ghost view = { λ r. lists_of r.links };

    ghost invariant = { λ r. IsTied r.links };
}

impl Rings {
    ghost use Rattle.rx_slots.specs.Lists.{IsPlain, list_at, is_in, take_out, head_of, last_of, after};

    /// No list, which takes no memory.
    pub fn new(alloc: Global) -> Self
        ensures lists { result.lists ≡ [] }
        ensures members { result.members ≡ 0 }
        ensures room { result.room ≡ 0 }
    {
        Rings {
            links: Links {
                ends: Vec::new(alloc),
                members: Vec::new(alloc),
            },
        }
    }

    /// What holds of all such lists.
    #[inline(always)]
    pub fn promise(&self)
        ensures { IsPlain self.now }
    {
        let _links = &self.links;
    }

    /// Makes room for so many lists more.
    pub fn reserve(&mut self, additional: usize) -> Result<(), AllocError>
        ensures ok { OnOk result (additional ≤ self.new.room) }
        ensures kept { self.new ≡ record self.old { room = self.new.room } }
        ensures room { self.old.room ≤ self.new.room }
        ensures succeeds { additional ≤ self.old.room → IsOk result }
    {
        self.links.ends.reserve(additional)
    }

    /// Whether there is no list.
    #[inline(always)]
    pub fn is_empty(&self) -> bool
        ensures { result ≡ (length self.now.lists == 0) }
    {
        self.links.ends.is_empty()
    }

    /// How many numbers may stand on lists: all below this one.
    #[inline(always)]
    pub fn members(&self) -> usize
        ensures { result ≡ self.now.members }
    {
        self.links.members.len()
    }

    /// Adds a list that is empty.
    pub fn add(&mut self)
        requires room { 0 < self.old.room }
        ensures lists { self.new.lists ≡ self.old.lists ++ [] ∷ [] }
        ensures members { self.new.members ≡ self.old.members }
        ensures room { self.new.room + 1 ≡ self.old.room }
    {
        let end = self.links.ends.len();
        self.links.ends.push_reserved(Link::alone(Place::End(end)));
    }

    /// Lets all numbers below this one stand on lists.
    pub fn admit(&mut self, members: usize) -> Result<(), AllocError>
        ensures ok { OnOk result (members ≤ self.new.members) }
        ensures kept { self.new ≡ record self.old { members = self.new.members } }
        ensures members { self.old.members ≤ self.new.members }
        ensures most { self.new.members ≤ max members self.old.members }
        ensures err { OnErr result (self.new ≡ self.old) }
        ensures succeeds { members ≤ self.old.members → IsOk result }
    {
        let so_far = self.links.members.len();
        if members <= so_far {
            return Ok(());
        }
        self.links.members.reserve(members - so_far)?;
        self.links.grow(members);
        Ok(())
    }

    /// The first number on a list.
    #[inline(always)]
    pub fn first(&self, list: usize) -> Option<usize>
        ensures { result ≡ head_of (list_at self.now list) }
    {
        match self.links.ends.get(list)?.next {
            Place::Member(member) => Some(member),
            Place::End(_) => None,
        }
    }

    /// The last number on a list.
    #[inline(always)]
    pub fn last(&self, list: usize) -> Option<usize>
        ensures { result ≡ last_of (list_at self.now list) }
    {
        match self.links.ends.get(list)?.previous {
            Place::Member(member) => Some(member),
            Place::End(_) => None,
        }
    }

    /// The number that follows one on its list.
    #[inline(always)]
    pub fn next(&self, member: usize) -> Option<usize>
        ensures { (e : _) → is_in member (list_at self.now e) ≡ true → result ≡ after member (list_at self.now e) }
    {
        match self.links.link(Place::Member(member)).next {
            Place::Member(next) => Some(next),
            Place::End(_) => None,
        }
    }

    /// Whether a number stands on no list.
    #[inline(always)]
    pub fn is_free(&self, member: usize) -> bool
        ensures free { result ≡ true → (e : _) → is_in member (list_at self.now e) ≡ false }
        ensures stands { result ≡ false → (e : ℕ) × (is_in member (list_at self.now e) ≡ true) }
        ensures taken { (e : _) → is_in member (list_at self.now e) ≡ true → result ≡ false }
    {
        match self.links.link(Place::Member(member)).next {
            Place::Member(next) => next == member,
            Place::End(_) => false,
        }
    }

    /// Puts a number last on a list.
    #[inline(always)]
    pub fn join(&mut self, list: usize, member: usize)
        requires list { list < length self.old.lists }
        requires member { member < self.old.members }
        requires free { (e : _) → is_in member (list_at self.old e) ≡ false }
        ensures lists { (e : _) → list_at self.new e ≡
            cond (list == e) (list_at self.old e ++ member ∷ []) (list_at self.old e) }
        ensures length { length self.new.lists ≡ length self.old.lists }
        ensures members { self.new.members ≡ self.old.members }
        ensures room { self.new.room ≡ self.old.room }
    {
        self.links.join(Place::End(list), Place::Member(member));
    }

    /// Takes a number off its list.
    #[inline(always)]
    pub fn leave(&mut self, member: usize)
        requires member { member < self.old.members }
        ensures lists { (e : _) → list_at self.new e ≡ take_out member (list_at self.old e) }
        ensures length { length self.new.lists ≡ length self.old.lists }
        ensures members { self.new.members ≡ self.old.members }
        ensures room { self.new.room ≡ self.old.room }
    {
        self.links.leave(Place::Member(member));
    }
}
