ghost use Rattle.std.specs.Prelude.{◌≡◌, ◌↔◌, ℕ, ◌+◌, ◌<◌, [], length, Some, None, Err, true, false, IsOk, IfOk, IfErr, OnOk, OnErr, IsTrue};
ghost use Rattle.std.specs.Option.{option_copied_mut};
ghost use Rattle.std.specs.Borrow.{sem};
ghost use Rattle.std.specs.Iterator.{YieldsFirst};
ghost use Rattle.std.specs.Iterator.Runs.{YieldsInOrder};
ghost use Rattle.rx_disposable.specs.Back.{refusal};

use crate::members::{INLINE_LEN, Member, Members, place_of};
use crate::{Back, Why};
use smallvec::SmallVec;
use std::alloc::Global;
use std::marker::Model;
use std::mem;

/// How many tickets a group gives in its life: 4,294,967,295, which are 0 up to 4,294,967,294.
pub const MAX_TICKETS: u32 = u32::MAX;

/// Values that are disposed of together, each under a ticket: System.Reactive's `CompositeDisposable`.
///
/// It differs in two ways. A value is removed by the ticket that `add` gave for it, and not by
/// comparing it with those inside. What comes out, and a value that is added after disposal, go to the
/// caller to be released, where System.Reactive releases them at once.
///
/// A ticket is found by binary search, so in logarithmic time. A removal also moves the values that
/// were added later. `add` takes constant time, averaged over many calls. Up to `INLINE_LEN` values are
/// kept in the group itself.
#[derive(Drop)]
pub struct Group<T: Drop> {
    members: SmallVec<Member<T>, INLINE_LEN>,
    given: u32,
    disposed: bool,
}

impl<T: Drop> Model for Group<T> {
    ghost use Rattle.rx_disposable.specs.Group.{Group as GroupValue};

    ghost Value = { GroupValue T };

    ghost use Rattle.rx_disposable.specs.Members.{member_entries, IsKept};

    ghost view = { λ group.
        record { members = member_entries group.members.items; given = group.given; disposed = group.disposed } };

    ghost invariant = { λ group. IsKept group.members.items group.members.capacity group.given group.disposed };
}

impl<T: Drop> Group<T> {
    ghost use Rattle.rx_disposable.specs.Lends.{LendsMember};
    ghost use Rattle.rx_disposable.specs.Group.{value_under, with_added, without, Updates, IsSound};

    /// An empty group. It asks `alloc` for memory where more than `INLINE_LEN` values are inside.
    pub fn new(alloc: Global) -> Self
        ensures { result ≡ record { members = []; given = 0; disposed = false } }
    {
        Group {
            members: SmallVec::new(alloc),
            given: 0,
            disposed: false,
        }
    }

    /// How many values are inside.
    pub fn len(&self) -> usize
        ensures value { result ≡ length self.now.members }
        ensures sound { IsSound self.now }
    {
        self.members.len()
    }

    /// Whether no value is inside.
    pub fn is_empty(&self) -> bool
        ensures { IsTrue result ↔ (self.now.members ≡ []) }
    {
        self.members.is_empty()
    }

    /// Takes the value in, and gives the ticket that stands for it: 0 for the first, and for each later
    /// one the next number, whatever was removed before.
    ///
    /// Refused, with the value handed back and nothing changed: `Disposed` after `dispose`, then
    /// `TooMany` after `MAX_TICKETS` tickets, then `NoMemory`, which cannot come while fewer than
    /// `INLINE_LEN` values are inside.
    pub fn add(&mut self, value: T) -> Result<u64, Back<T>>
        ensures accepted { OnOk result ((self.old.disposed ≡ false) × (self.old.given < 4294967295)) }
        ensures ok { IfOk result (λ ticket. ticket ≡ self.old.given) }
        ensures added { OnOk result (self.new ≡ with_added self.old value) }

        // What look-ups say of it.
        ensures fresh { OnOk result (value_under self.old self.old.given ≡ None) }
        ensures updates { OnOk result (Updates self.old self.new self.old.given (Some value)) }

        ensures refused_disposed { (result ≡ Err (refusal Why.Disposed value)) ↔ (self.old.disposed ≡ true) }
        ensures refused_too_many { (result ≡ Err (refusal Why.TooMany value))
            ↔ ((self.old.disposed ≡ false) × (self.old.given ≡ 4294967295)) }
        ensures refused_no_memory { IfErr result (λ back. self.old.disposed ≡ false
            → self.old.given < MAX_TICKETS → back.why ≡ Why.NoMemory) }
        ensures succeeds_inline { self.old.disposed ≡ false → self.old.given < MAX_TICKETS
            → length self.old.members < INLINE_LEN → IsOk result }
        ensures value_returned { IfErr result (λ back. back.value ≡ value) }
        ensures err { OnErr result (self.new ≡ self.old) }
    {
        if self.disposed {
            return Back::refuse(Why::Disposed, value);
        }
        if self.given == MAX_TICKETS {
            return Back::refuse(Why::TooMany, value);
        }
        let ticket = u64::from(self.given);
        match self.members.push(Member::new(ticket, value)) {
            Ok(()) => {
                self.given += 1;
                Ok(ticket)
            }
            Err(failed) => Back::refuse(Why::NoMemory, failed.value.into_value()),
        }
    }

    /// The value of the ticket, for writing; `None` where it is not inside.
    pub fn get_mut(&mut self, ticket: u64) -> Option<&mut T>
        ensures* writes_back { sem 𝓛 (LendsMember T.row self.entry ticket result) }
        ensures value { option_copied_mut result ≡ value_under self.old ticket }
    {
        let place = place_of(self.members.as_slice(), ticket)?;
        let member = self.members.get_mut(place)?;
        member.value.as_mut()
    }

    /// Takes the value of the ticket out; `None`, and nothing changed, where it is not inside.
    pub fn remove(&mut self, ticket: u64) -> Option<T>
        ensures value { result ≡ value_under self.old ticket }
        ensures rest { self.new ≡ without self.old ticket }

        // What look-ups say of it.
        ensures updates { Updates self.old self.new ticket None }
    {
        let place = place_of(self.members.as_slice(), ticket)?;
        Some(self.members.remove(place).into_value())
    }

    /// Gives out all values that are inside, and stays usable: the next ticket is the one that it would
    /// have been.
    #[must_use]
    pub fn clear(&mut self) -> Members<T>
        ensures value { result ≡ self.old.members }
        ensures runs { YieldsInOrder (YieldsFirst {A = ℕ × T} (λ rest. rest)) (λ rest. rest) }
        ensures rest { self.new ≡ record self.old { members = [] } }
    {
        let alloc = *self.members.allocator();
        Members::new(mem::replace(&mut self.members, SmallVec::new(alloc)))
    }

    /// Gives out all values that are inside, and takes none from now on.
    ///
    /// A second call gives nothing.
    #[must_use]
    pub fn dispose(&mut self) -> Members<T>
        ensures value { result ≡ self.old.members }
        ensures runs { YieldsInOrder (YieldsFirst {A = ℕ × T} (λ rest. rest)) (λ rest. rest) }
        ensures rest { self.new ≡ record self.old { members = []; disposed = true } }
    {
        let members = self.clear();
        self.disposed = true;
        members
    }
}
