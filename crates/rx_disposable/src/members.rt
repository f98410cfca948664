ghost use Rattle.std.specs.Prelude.{◌≡◌, ◌≢◌, ◌<◌, length, Some, None, IsSome, IfSome, IfNone, All};
ghost use Rattle.std.specs.List.{HoldsAt};
ghost use Rattle.std.specs.Iterator.{YieldsFirst, UpTo, item_count, at_most};
ghost use Rattle.std.specs.Iterator.SizeHint.{IsWithinCount};
ghost use Rattle.rx_disposable.specs.Members.{AreTicketsRising};

use smallvec::{IntoIter, SmallVec};
use std::iter::FusedIterator;
use std::marker::Model;

/// How many values a group keeps in itself, with no memory asked for.
pub const INLINE_LEN: usize = 4;

// A ticket, and the place of its value: `Some` in every member that a list holds. The blank one, with
// `None`, is what a list of this kind keeps where it has no member.
#[derive(Drop)]
pub(crate) struct Member<T> {
    pub(crate) ticket: u64,
    pub(crate) value: Option<T>,
}

impl<T> Member<T> {
    ghost use Rattle.rx_disposable.specs.Members.{member_of_entry};

    pub(crate) fn new(ticket: u64, value: T) -> Self
        ensures { result ≡ member_of_entry (ticket, value) }
    {
        Member {
            ticket,
            value: Some(value),
        }
    }

    pub(crate) fn into_value(self) -> T
        requires { IsSome self.value }
        ensures { self.value ≡ Some result }
    {
        let Member { ticket: _, value } = self;
        value.unwrap()
    }
}

impl<T> Default for Member<T> {
    ghost is_default = { λ member. member.value ≡ None };

    fn default() -> Self {
        Member {
            ticket: 0,
            value: None,
        }
    }
}

/// Tickets and values that left a group together, to be taken one by one in order of adding.
///
/// It is an iterator, and to take one from it needs no memory. Those that are left when it is dropped
/// are dropped.
#[derive(Drop)]
#[must_use]
pub struct Members<T: Drop> {
    pub(crate) rest: IntoIter<Member<T>, INLINE_LEN>,
}

impl<T: Drop> Model for Members<T> {
    ghost use Rattle.std.specs.Prelude.{ℕ, List};
    ghost use Rattle.rx_disposable.specs.Members.{member_entries, AreFilled};

    ghost Value = { List (ℕ × T) };

    ghost view = { λ members. member_entries members.rest };

    ghost invariant = { λ members. AreFilled members.rest };
}

impl<T: Drop> Members<T> {
    ghost use Rattle.rx_disposable.specs.Members.{member_entries, AreFilled};

    pub(crate) fn new(members: SmallVec<Member<T>, INLINE_LEN>) -> Self
        requires { AreFilled members.items }
        ensures { result ≡ member_entries members.items }
    {
        Members {
            rest: members.into_iter(),
        }
    }
}

impl<T: Drop> Iterator for Members<T> {
    type Item = (u64, T);

    ghost next_gives = { YieldsFirst (λ rest. rest) };

    ghost remaining = { item_count (λ rest. rest) };

    fn next(&mut self) -> Option<(u64, T)> {
        let member = self.rest.next()?;
        Some((member.ticket, member.into_value()))
    }

    fn size_hint(&self) -> (usize, Option<usize>)
        ensures exact { result ≡ (length self.now, Some (length self.now)) }
        ensures lower { IsWithinCount result.0 (at_most (length self.now)) }
        ensures upper { IfSome result.1 (UpTo (at_most (length self.now))) }
    {
        let len = self.len();
        (len, Some(len))
    }
}

impl<T: Drop> ExactSizeIterator for Members<T> {
    fn len(&self) -> usize {
        self.rest.len()
    }
}

impl<T: Drop> FusedIterator for Members<T> {}

// The place of a ticket among members in order of their tickets.
pub(crate) fn place_of<T>(members: &[Member<T>], ticket: u64) -> Option<usize>
    requires { AreTicketsRising members.now }
    ensures found { IfSome result (λ place. place < length members.now) }
    ensures has_ticket { IfSome result (HoldsAt (λ member. member.ticket ≡ ticket) members.now) }
    ensures absent { IfNone result (All (λ member. member.ticket ≢ ticket) members.now) }
{
    members
        .binary_search_by_key(&ticket, |member| member.ticket)
        .ok()
}
