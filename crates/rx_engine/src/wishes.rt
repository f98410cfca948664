//! Who wants to know that its node is closed.

ghost use Rattle.std.specs.Prelude.{◌≡◌, ◌+◌, ◌<◌, ◌≤◌, ◌++◌, [], length, option_map, slice_get, vec_len, vec_capacity, IfSome, IsTrue};
ghost use Rattle.std.specs.Option.{option_to_list};
ghost use Rattle.rx_roles.specs.Roles.{AreBelow, role_of, without, without_all};
ghost use Rattle.rx_engine.specs.Settlements.{closed_of};
ghost use Rattle.rx_engine.specs.Closings.{words_taken, with_wish, Closes};

use crate::parts::User;
use rx_book::Book;
use rx_lanes::LaneName;
use rx_resource::Token;
use rx_roles::{Role, Roles};
use std::alloc::Global;
use std::marker::Model;

// One node that was closed.
fn close_one(roles: &mut Roles, closings: &mut Vec<u64>, number: u64)
    requires room { vec_len closings.old + length (option_to_list (role_of roles.old.list number)) ≤
        vec_capacity closings.old }
    ensures roles { roles.new.list ≡ without roles.old.list number }
    ensures closings { closings.new.items ≡
        closings.old.items ++ option_to_list (option_map (λ r. r.word) (role_of roles.old.list number)) }
    ensures capacity { vec_capacity closings.new ≡ vec_capacity closings.old }
{
    if let Some(role) = roles.take(number) {
        closings.push_reserved(role.word);
    }
}

// All nodes that the last call closed.
fn close_all(book: &Book<Token>, roles: &mut Roles, closings: &mut Vec<u64>)
    requires room { length roles.old.list ≤ vec_capacity closings.old }
    ensures roles { roles.new.list ≡ without_all roles.old.list (closed_of book.now) }
    ensures closings { closings.new.items ≡ words_taken roles.old.list (closed_of book.now) }
    ensures room { length roles.new.list ≤ vec_capacity closings.new }
{
    closings.clear();
    let _count = book.closed_count();
    let mut at = 0;
    while let Some(key) = book.nth_closed(at) {
        close_one(roles, closings, key.number);
        at += 1;
    }
}

/// The wishes, and the closings of the last command that was accepted.
#[derive(Drop)]
pub struct Wishes {
    roles: Roles,
    closings: Vec<u64>,
}

impl Model for Wishes {
    ghost use Rattle.rx_engine.specs.Closings.{WishState, wishes_of, HasRoom};

    ghost Value = { WishState };

    ghost view = { wishes_of };

    ghost invariant = { HasRoom };
}

impl Wishes {
    /// No wish. It takes no memory.
    pub fn new(alloc: Global) -> Wishes
        ensures roles { result.roles.list ≡ [] }
        ensures closings { result.closings ≡ [] }
    {
        Wishes {
            roles: Roles::new(alloc),
            closings: Vec::new(alloc),
        }
    }

    // One more than there are.
    fn wanted(&self) -> Option<usize>
        ensures { IfSome result (λ n. n ≡ length self.now.roles.list + 1) }
    {
        self.roles.len().checked_add(1)
    }

    /// Gets room for one wish more, and for its closing; false where memory was refused.
    pub(crate) fn make_room(&mut self) -> bool
        ensures room { IsTrue result → 0 < self.new.roles.room }
        ensures capacity { IsTrue result → length self.new.roles.list + 1 ≤ self.new.capacity }
        ensures roles { self.new.roles.list ≡ self.old.roles.list }
        ensures closings { self.new.closings ≡ self.old.closings }
    {
        match self.wanted() {
            Some(many) => {
                if self.closings.reserve(many).is_err() {
                    return false;
                }
                self.roles.reserve(1).is_ok()
            }
            None => false,
        }
    }

    /// Enters the wish of a node that was opened, where it wished.
    pub(crate) fn wish(&mut self, number: u64, user: User)
        requires room { 0 < self.old.roles.room }
        requires capacity { length self.old.roles.list + 1 ≤ self.old.capacity }
        requires below { AreBelow self.old.roles.list number }
        ensures roles { self.new.roles.list ≡ with_wish self.old.roles.list number user }
        ensures closings { self.new.closings ≡ self.old.closings }
    {
        self.roles.put_if(
            user.wished,
            Role {
                number,
                word: user.word,
                // A closing goes to no lane.
                lane: LaneName { place: 0, turn: 0 },
            },
        );
    }

    /// Ends the wishes of the nodes that the last call closed; their words are the closings. It takes no memory.
    pub(crate) fn close(&mut self, book: &Book<Token>)
        ensures { Closes book.now self.old.roles.list self.new }
    {
        close_all(book, &mut self.roles, &mut self.closings);
    }

    /// No node was closed.
    pub(crate) fn close_none(&mut self)
        ensures roles { self.new.roles ≡ self.old.roles }
        ensures closings { self.new.closings ≡ [] }
    {
        self.closings.clear();
    }

    /// How many closings there are.
    pub fn closing_count(&self) -> usize
        ensures { result ≡ length self.now.closings }
    {
        self.closings.len()
    }

    /// One of the closings: the word of a node that the last accepted command closed.
    pub fn nth_closing(&self, n: usize) -> Option<u64>
        ensures { result ≡ slice_get self.now.closings n }
    {
        self.closings.get(n).copied()
    }
}
