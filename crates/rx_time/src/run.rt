//! Entries that were scheduled in the order in which they come out.

ghost use Rattle.std.specs.Prelude.{◌≡◌, ◌≢◌, ◌+◌, ◌<◌, ◌≤◌, ◌++◌, ◌∷◌, [], ◌↔◌, true, false, length, nat_eq};
ghost use Rattle.std.specs.Prelude.{is_none, slice_set, All, Some, None, IsSome, IsTrue, IfSome, IfNone, OnOk, OnErr, IfErr};
ghost use Rattle.std.specs.List.{AllPairs, HoldsAt};
ghost use Rattle.std.specs.Map.{lookup};
ghost use Rattle.rx_time.specs.Runs.{work_of, slot_of_work, slot_entries, is_front_empty, IsBefore, AreRunSlots};

use crate::work::Work;
use std::alloc::{AllocError, Global};
use std::collections::VecDeque;
use std::marker::Model;

// A ticket and a due time, and what was scheduled until that is taken out.
#[derive(Drop)]
pub(crate) struct Slot<T> {
    ticket: u32,
    due: u64,
    item: Option<T>,
}

impl<T> Slot<T> {
    fn new(ticket: u32, work: Work<T>) -> Self
        ensures { result ≡ slot_of_work ticket work }
    {
        let Work { due, item } = work;
        Slot {
            ticket,
            due,
            item: Some(item),
        }
    }

    fn is_empty(&self) -> bool
        ensures { result ≡ is_none self.now.item }
    {
        self.item.is_none()
    }

    // The due time and the ticket.
    fn place(&self) -> (u64, u32)
        ensures { result ≡ (self.now.due, self.now.ticket) }
    {
        (self.due, self.ticket)
    }

    // Takes the work out.
    fn take(&mut self) -> Option<Work<T>>
        ensures value { result ≡ work_of self.old }
        ensures after { self.new ≡ record self.old { item = None } }
    {
        let due = self.due;
        match self.item.take() {
            Some(item) => Some(Work { due, item }),
            None => None,
        }
    }

    #[inline(always)]
    fn into_work(self) -> Work<T>
        requires { IsSome self.item }
        ensures { work_of self ≡ Some result }
    {
        let Slot {
            ticket: _,
            due,
            item,
        } = self;
        Work {
            due,
            item: item.unwrap(),
        }
    }

    // The work in it, if it has any.
    #[inline(always)]
    fn into_taken(self) -> Option<Work<T>>
        ensures { result ≡ work_of self }
    {
        let Slot {
            ticket: _,
            due,
            item,
        } = self;
        match item {
            Some(item) => Some(Work { due, item }),
            None => None,
        }
    }

    // Frees a slot with no work, where `T` need not be `Drop`.
    fn destroy_empty(self)
        requires { self.item ≡ None }
    {
        let Slot {
            ticket: _,
            due: _,
            item,
        } = self;
        match item {
            Some(_item) => unreachable!(),
            None => {}
        }
    }
}

// Entries whose due times do not fall in the order of their tickets, so that the first one comes next. One goes last,
// and the first one leaves, in constant time. One that leaves from among the others is found by its ticket; its
// slot stays behind, with nothing in it, until those before it are gone.
#[derive(Drop)]
pub(crate) struct Run<T> {
    slots: VecDeque<Slot<T>>,
    // How many slots have nothing in them. No entry goes last while that is more than half of them.
    empty: usize,
}

impl<T> Model for Run<T> {
    ghost use Rattle.std.specs.Prelude.{List, ℕ};
    ghost use Rattle.rx_time.specs.declared.work.Work.{Work};
    ghost use Rattle.rx_time.specs.Runs.{slot_entries, AreRunSlots};

    ghost Value = { List (ℕ × Work T) };

    ghost view = { λ r. slot_entries r.slots.items };

    ghost invariant = { λ r. AreRunSlots r.slots.items };
}

impl<T> Run<T> {
    ghost use Rattle.rx_time.specs.Agenda.{PointsAt};
    ghost use Rattle.rx_time.specs.Schedule.{next_of, without};

    pub(crate) fn new(alloc: Global) -> Self
        ensures { result ≡ [] }
    {
        Run {
            slots: VecDeque::new(alloc),
            empty: 0,
        }
    }

    pub(crate) fn is_empty(&self) -> bool
        ensures { IsTrue result ↔ (self.now ≡ []) }
    {
        self.slots.is_empty()
    }

    // Puts the work last, if its ticket and its due time belong there and not too many slots are empty. Gives it
    // back if not, and where memory is refused.
    pub(crate) fn push(&mut self, ticket: u32, work: Work<T>) -> Result<(), Work<T>>
        ensures ok { OnOk result (self.new ≡ self.old ++ (ticket, work) ∷ []) }
        ensures back { IfErr result (λ back. back ≡ work) }
        ensures kept { OnErr result (self.new ≡ self.old) }
    {
        if self.empty > self.slots.len() / 2 {
            return Err(work);
        }
        if comes_last(&self.slots, ticket, work.due) {
            push_slot(&mut self.slots, ticket, work)
        } else {
            Err(work)
        }
    }

    // Makes room for so many more. Err where memory is refused.
    pub(crate) fn reserve(&mut self, additional: usize) -> Result<(), AllocError>
        ensures { self.new ≡ self.old }
    {
        self.slots.reserve(additional)
    }

    // The due time and the ticket of what comes next.
    pub(crate) fn first(&self) -> Option<(u64, u32)>
        ensures { PointsAt self.now (next_of self.now) result }
    {
        match self.slots.front() {
            Some(slot) => Some(slot.place()),
            None => None,
        }
    }

    // Takes the work of a ticket out.
    #[inline(always)]
    pub(crate) fn remove(&mut self, ticket: u32) -> Option<Work<T>>
        ensures value { result ≡ lookup (nat_eq ticket) self.old }
        ensures others { self.new ≡ without ticket self.old }
    {
        match place_of(&self.slots, ticket) {
            Some(place) => {
                let before = self.slots.len();
                let taken = take_at(&mut self.slots, place);
                self.empty = count_empty(self.empty, before, self.slots.len());
                taken
            }
            None => None,
        }
    }

    pub(crate) fn destroy_empty(self)
        requires { self ≡ [] }
    {
        let Run { slots, empty: _ } = self;
        slots.destroy_empty();
    }
}

// How many slots are empty where that was so many, one more was emptied, and the number of slots fell.
fn count_empty(empty: usize, before: usize, after: usize) -> usize {
    empty
        .saturating_add(1)
        .saturating_sub(before.saturating_sub(after))
}

// Whether a ticket and a due time come after those of all slots.
fn comes_last<T>(slots: &VecDeque<Slot<T>>, ticket: u32, due: u64) -> bool
    requires { AllPairs IsBefore slots.now.items }
    ensures { IsTrue result → All (λ s. (s.ticket < ticket) × (s.due ≤ due)) slots.now.items }
{
    match slots.back() {
        Some(last) => last.ticket < ticket && last.due <= due,
        None => true,
    }
}

// Puts the work in a slot behind all others. Gives it back where memory is refused.
fn push_slot<T>(slots: &mut VecDeque<Slot<T>>, ticket: u32, work: Work<T>) -> Result<(), Work<T>>
    requires run { AreRunSlots slots.old.items }
    requires last { All (λ s. (s.ticket < ticket) × (s.due ≤ work.due)) slots.old.items }
    ensures ok { OnOk result (slot_entries slots.new.items ≡ slot_entries slots.old.items ++ (ticket, work) ∷ []) }
    ensures back { IfErr result (λ back. back ≡ work) }
    ensures kept { OnErr result (slot_entries slots.new.items ≡ slot_entries slots.old.items) }
    ensures run { AreRunSlots slots.new.items }
{
    match slots.push_back(Slot::new(ticket, work)) {
        Ok(()) => Ok(()),
        Err(failed) => Err(failed.value.into_work()),
    }
}

// The place of a ticket's slot.
fn place_of<T>(slots: &VecDeque<Slot<T>>, ticket: u32) -> Option<usize>
    requires { AllPairs IsBefore slots.now.items }
    ensures found { IfSome result (λ place. place < length slots.now.items) }
    ensures has_ticket { IfSome result (HoldsAt (λ s. s.ticket ≡ ticket) slots.now.items) }
    ensures absent { IfNone result (All (λ s. s.ticket ≢ ticket) slots.now.items) }
{
    match slots.front() {
        Some(first) if first.ticket == ticket => Some(0),
        _ => slots.binary_search_by_key(&ticket, |slot| slot.ticket).ok(),
    }
}

// Takes the work at a place out, and then the slots in front that have none.
#[inline(always)]
fn take_at<T>(slots: &mut VecDeque<Slot<T>>, place: usize) -> Option<Work<T>>
    requires in_order { AllPairs IsBefore slots.old.items }
    requires within { place < length slots.old.items }
    ensures value { HoldsAt (λ s. result ≡ work_of s) slots.old.items place }
    ensures others { HoldsAt (λ s. slot_entries slots.new.items
        ≡ slot_entries (slice_set slots.old.items place (record s { item = None }))) slots.old.items place }
    ensures in_order { AllPairs IsBefore slots.new.items }
    ensures filled { is_front_empty slots.new.items ≡ false }
{
    let taken = take_slot(slots, place);
    pass_empty(slots);
    taken
}

// Takes the work at a place out: the first slot leaves with it, and another stays behind with nothing in it.
#[inline(always)]
fn take_slot<T>(slots: &mut VecDeque<Slot<T>>, place: usize) -> Option<Work<T>>
    requires { place < length slots.old.items }
    ensures value { HoldsAt (λ s. result ≡ work_of s) slots.old.items place }
    ensures others { HoldsAt (λ s. slot_entries slots.new.items
        ≡ slot_entries (slice_set slots.old.items place (record s { item = None }))) slots.old.items place }
    ensures in_order { AllPairs IsBefore slots.old.items → AllPairs IsBefore slots.new.items }
{
    if place == 0 {
        return pop_first(slots);
    }
    empty_at(slots, place)
}

// Takes the first slot off whole, and gives the work in it.
#[inline(always)]
fn pop_first<T>(slots: &mut VecDeque<Slot<T>>) -> Option<Work<T>>
    requires { 0 < length slots.old.items }
    ensures value { HoldsAt (λ s. result ≡ work_of s) slots.old.items 0 }
    ensures others { HoldsAt (λ s. slot_entries slots.new.items
        ≡ slot_entries (slice_set slots.old.items 0 (record s { item = None }))) slots.old.items 0 }
    ensures in_order { AllPairs IsBefore slots.old.items → AllPairs IsBefore slots.new.items }
{
    match slots.pop_front() {
        Some(slot) => slot.into_taken(),
        None => None,
    }
}

// Takes the work at a place out.
fn empty_at<T>(slots: &mut VecDeque<Slot<T>>, place: usize) -> Option<Work<T>>
    requires { place < length slots.old.items }
    ensures value { HoldsAt (λ s. result ≡ work_of s) slots.old.items place }
    ensures others { HoldsAt (λ s. slots.new.items
        ≡ slice_set slots.old.items place (record s { item = None })) slots.old.items place }
{
    match slots.get_mut(place) {
        Some(slot) => slot.take(),
        None => None,
    }
}

// Whether the first slot has no work.
fn is_front_empty<T>(slots: &VecDeque<Slot<T>>) -> bool
    ensures { result ≡ is_front_empty slots.now.items }
{
    match slots.front() {
        Some(slot) => slot.is_empty(),
        None => false,
    }
}

// Takes slots without work off the front.
fn pass_empty<T>(slots: &mut VecDeque<Slot<T>>)
    requires { AllPairs IsBefore slots.old.items }
    ensures entries { slot_entries slots.new.items ≡ slot_entries slots.old.items }
    ensures in_order { AllPairs IsBefore slots.new.items }
    ensures filled { is_front_empty slots.new.items ≡ false }
{
    while is_front_empty(slots) {
        pop_empty(slots);
    }
}

// Takes the first slot off, which has no work.
fn pop_empty<T>(slots: &mut VecDeque<Slot<T>>)
    requires { is_front_empty slots.old.items ≡ true }
    ensures entries { slot_entries slots.new.items ≡ slot_entries slots.old.items }
    ensures in_order { AllPairs IsBefore slots.old.items → AllPairs IsBefore slots.new.items }
    ensures shorter { length slots.new.items + 1 ≡ length slots.old.items }
{
    match slots.pop_front() {
        Some(slot) => slot.destroy_empty(),
        None => {}
    }
}
