ghost use Rattle.std.specs.Prelude.{◌≡◌, ◌+◌, ◌<◌, ◌≤◌, ◌↔◌, [], ◌∷◌, ◌++◌, length, max, nat_eq, All, IsTrue, Err};
ghost use Rattle.std.specs.Prelude.{IfOk, IfErr, OnOk, OnErr, OnSome, IfSome, IfNone};
ghost use Rattle.std.specs.Map.{lookup};
ghost use Rattle.std.specs.List.Sorted.{IsPermutation};
ghost use Rattle.rx_time.specs.Places.{earlier_place};
ghost use Rattle.rx_time.specs.Schedule.{without};

use crate::priority_queue::PriorityQueue;
use crate::run::Run;
use crate::ticket::{MAX_TICKETS, Ticket};
use crate::work::Work;
use rx_disposable::{Back, Why};
use std::alloc::{AllocError, Global};
use std::marker::Model;

/// Work in virtual time: System.Reactive's `VirtualTimeScheduler`, of which `HistoricalScheduler`
/// and `TestScheduler` are kinds.
///
/// Time is a number of ticks, from 0 to `u64::MAX`, that moves only where
/// [`next_until`](Timeline::next_until) moves it, and never back. Work comes out in the order of
/// its due times, and work that is due at one time in the order in which it was scheduled.
///
/// It differs from those schedulers in two things. It runs nothing by itself: it hands the work
/// out, one item a call, and the caller runs it. And work whose time is past is due now, with no
/// tick added, where `TestScheduler` makes it due one tick after now.
///
/// A timeline whose items are `Drop` may be dropped with its work; any other is emptied first, and
/// given to [`destroy_empty`](Timeline::destroy_empty).
///
/// Contracts see a timeline as a `Schedule`: its virtual time, how many tickets it gave, and under
/// its ticket each entry's work, in the order of scheduling.
#[derive(Drop)]
pub struct Timeline<T> {
    clock: u64,
    tickets: u32,
    in_order: Run<T>,
    others: PriorityQueue<T>,
}

impl<T> Model for Timeline<T> {
    ghost use Rattle.std.specs.Prelude.{◌++◌};
    ghost use Rattle.rx_time.specs.Schedule.{Schedule, schedule, IsSound};

    ghost Value = { Schedule T };

    ghost view = { λ a. schedule a.clock a.tickets (a.in_order ++ a.others) };

    ghost invariant = { λ a. IsSound (schedule a.clock a.tickets (a.in_order ++ a.others)) };
}

impl<T> Timeline<T> {
    ghost use Rattle.std.specs.Option.{option_map};
    ghost use Rattle.rx_time.specs.Agenda.{PointsAt};
    ghost use Rattle.rx_time.specs.Schedule.{schedule, next_of, next_due, with_work, item_of, scheduled_items, without, IsNext, IsSound};

    /// A timeline with no work, at time 0. It allocates nothing.
    pub fn new(alloc: Global) -> Self
        ensures { result ≡ schedule 0 0 [] }
    {
        Timeline {
            clock: 0,
            tickets: 0,
            in_order: Run::new(alloc),
            others: PriorityQueue::new(alloc),
        }
    }

    /// The virtual time, in ticks.
    ///
    /// The clause `sound` says what holds of every timeline: the tickets of its entries rise and
    /// were given, and no work is overdue.
    pub fn now(&self) -> u64
        ensures value { result ≡ self.now.clock }
        ensures sound { IsSound self.now }
    {
        self.clock
    }

    /// Whether there is no work.
    pub fn is_empty(&self) -> bool
        ensures { IsTrue result ↔ (self.now.work ≡ []) }
    {
        self.in_order.is_empty() && self.others.is_empty()
    }

    /// Puts the item in, due at this time, or now where that time is past, and gives the ticket
    /// that stands for it.
    ///
    /// Both refusals hand the item back and change nothing. `TooMany` comes exactly where all
    /// [`MAX_TICKETS`] tickets were given, and `NoMemory` where there was a ticket and memory was
    /// refused.
    pub fn schedule(&mut self, due: u64, item: T) -> Result<Ticket, Back<T>>
        ensures ok { IfOk result (λ ticket. ticket ≡ self.old.tickets) }
        ensures added { OnOk result (self.new ≡ with_work due item self.old) }

        ensures refused_too_many { (result ≡ Err (record { why = Why.TooMany; value = item }))
            ↔ (self.old.tickets ≡ 4294967295) }
        ensures refused_no_memory { self.old.tickets < MAX_TICKETS
            → IfErr result (λ back. back ≡ record { why = Why.NoMemory; value = item }) }
        ensures kept { OnErr result (self.new ≡ self.old) }
    {
        if self.tickets == MAX_TICKETS {
            return Err(Back {
                why: Why::TooMany,
                value: item,
            });
        }
        let due = due.max(self.clock);
        match self.enter(Work { due, item }) {
            Ok(ticket) => Ok(ticket),
            Err(Work { due: _, item }) => Err(Back {
                why: Why::NoMemory,
                value: item,
            }),
        }
    }

    /// Makes room for so many more items that are due in the order in which they are scheduled: as
    /// long as no other is inside, scheduling those asks for no memory. Err where memory is refused.
    pub fn reserve(&mut self, additional: usize) -> Result<(), AllocError>
        ensures { self.new ≡ self.old }
    {
        self.in_order.reserve(additional)
    }

    /// Takes the item of this ticket out, or gives `None` and changes nothing where there is no
    /// such entry: its item came out before, or the ticket is another timeline's. It takes no
    /// memory.
    pub fn cancel(&mut self, ticket: Ticket) -> Option<T>
        ensures value { result ≡ item_of ticket self.old.work }
        ensures others { self.new ≡ record self.old { work = without ticket self.old.work } }

        ensures once { IfSome result
            (λ item. IsPermutation (scheduled_items self.old.work) (item ∷ scheduled_items self.new.work)) }
        ensures fewer { OnSome result (length self.new.work + 1 ≡ length self.old.work) }
        ensures kept { IfNone result (self.new ≡ self.old) }
    {
        match self.take(ticket.number) {
            Some(Work { due: _, item }) => Some(item),
            None => None,
        }
    }

    /// Takes out what comes next, with its due time, where that is at or before this time, and
    /// moves the virtual time to it. Where there is no such work, gives `None` and moves the
    /// virtual time to this time if it is later. It takes no memory.
    #[inline(always)]
    pub fn next_until(&mut self, until: u64) -> Option<(u64, T)>
        ensures value { result
            ≡ option_map (λ e. (e.1.due, e.1.item)) (next_due until self.old.work) }
        ensures some { IfSome (next_due until self.old.work)
            (λ e. self.new
            ≡ record self.old { clock = e.1.due; work = without e.0 self.old.work }) }
        ensures none { IfNone (next_due until self.old.work)
            (self.new ≡ record self.old { clock = max self.old.clock until }) }

        // What follows: which entry that is, that each item comes out once, and that time never
        // goes back.
        ensures next { IfSome (next_due until self.old.work) (IsNext self.old.work) }
        ensures once { IfSome result
            (λ came. IsPermutation (scheduled_items self.old.work) (came.1 ∷ scheduled_items self.new.work)) }
        ensures fewer { OnSome result (length self.new.work + 1 ≡ length self.old.work) }
        ensures forward { self.old.clock ≤ self.new.clock }
    {
        match self.place_due(until) {
            Some((due, number)) => {
                self.advance(due);
                match self.take(number) {
                    Some(Work { due, item }) => Some((due, item)),
                    None => None,
                }
            }
            None => {
                self.advance(until);
                None
            }
        }
    }

    /// Frees a timeline with no work, where `T` need not be `Drop`.
    pub fn destroy_empty(self)
        requires { self.work ≡ [] }
    {
        let Timeline {
            clock: _,
            tickets: _,
            in_order,
            others,
        } = self;
        in_order.destroy_empty();
        others.destroy_empty();
    }

    // Puts work last, or gives it back where memory is refused.
    fn enter(&mut self, work: Work<T>) -> Result<Ticket, Work<T>>
        requires ticket { self.old.tickets < MAX_TICKETS }
        requires ahead { self.old.clock ≤ work.due }
        ensures ok { IfOk result (λ ticket. ticket ≡ self.old.tickets) }
        ensures added { OnOk result (self.new ≡ schedule self.old.clock (self.old.tickets + 1)
            (self.old.work ++ (self.old.tickets, work) ∷ [])) }
        ensures back { IfErr result (λ back. back ≡ work) }
        ensures kept { OnErr result (self.new ≡ self.old) }
    {
        let number = self.tickets;
        match put_last(&mut self.in_order, &mut self.others, number, work) {
            Ok(()) => {
                self.tickets += 1;
                Ok(Ticket { number })
            }
            Err(work) => Err(work),
        }
    }

    // Takes the work of a ticket out.
    #[inline(always)]
    fn take(&mut self, number: u32) -> Option<Work<T>>
        ensures value { result ≡ lookup (nat_eq number) self.old.work }
        ensures others { self.new ≡ record self.old { work = without number self.old.work } }
        ensures once { IfSome result
            (λ work. IsPermutation (scheduled_items self.old.work) (work.item ∷ scheduled_items self.new.work)) }
        ensures fewer { OnSome result (length self.new.work + 1 ≡ length self.old.work) }
        ensures kept { IfNone result (self.new ≡ self.old) }
    {
        take_from(&mut self.in_order, &mut self.others, number)
    }

    // The due time and the ticket of what comes next.
    fn first_place(&self) -> Option<(u64, u32)>
        ensures next { PointsAt self.now.work (next_of self.now.work) result }
        ensures ahead { IfSome result (λ place. self.now.clock ≤ place.0) }
    {
        let first = self.in_order.first();
        let other = self.others.first();
        earlier_place(first, other)
    }

    // The due time and the ticket of what comes next, where that is due at or before this time. No work is due
    // before it, or before this time.
    fn place_due(&self, until: u64) -> Option<(u64, u32)>
        ensures next { PointsAt self.now.work (next_due until self.now.work) result }
        ensures ahead { IfSome result (λ place. self.now.clock ≤ place.0) }
        ensures least { IfSome result (λ place. All (λ e. place.0 ≤ e.1.due) self.now.work) }
        ensures none { IfNone result (All (λ e. until ≤ e.1.due) self.now.work) }
    {
        match self.first_place() {
            Some((due, number)) if due <= until => Some((due, number)),
            _ => None,
        }
    }

    // Moves the virtual time on, past no work.
    fn advance(&mut self, to: u64)
        requires { All (λ e. to ≤ e.1.due) self.old.work }
        ensures { self.new ≡ record self.old { clock = max self.old.clock to } }
    {
        self.clock = self.clock.max(to);
    }
}

// Puts work last: behind those that are in order, where it belongs there and there are no others, or among the others.
fn put_last<T>(
    in_order: &mut Run<T>,
    others: &mut PriorityQueue<T>,
    number: u32,
    work: Work<T>,
) -> Result<(), Work<T>>
    requires { All (λ e. e.0 < number) (in_order.old ++ others.old) }
    ensures ok { OnOk result (in_order.new ++ others.new ≡ (in_order.old ++ others.old) ++ (number, work) ∷ []) }
    ensures back { IfErr result (λ back. back ≡ work) }
    ensures kept { OnErr result (in_order.new ++ others.new ≡ in_order.old ++ others.old) }
{
    if !others.is_empty() {
        return others.insert(number, work);
    }
    match in_order.push(number, work) {
        Ok(()) => Ok(()),
        Err(work) => others.insert(number, work),
    }
}

// Takes the work of a ticket out, wherever it is.
#[inline(always)]
fn take_from<T>(
    in_order: &mut Run<T>,
    others: &mut PriorityQueue<T>,
    number: u32,
) -> Option<Work<T>>
    ensures value { result ≡ lookup (nat_eq number) (in_order.old ++ others.old) }
    ensures others { in_order.new ++ others.new ≡ without number (in_order.old ++ others.old) }
{
    if others.is_empty() {
        return in_order.remove(number);
    }
    take_from_either(in_order, others, number)
}

// Takes out the work of a number, which stands on one of two lists.
#[inline(always)]
fn take_from_either<T>(
    in_order: &mut Run<T>,
    others: &mut PriorityQueue<T>,
    number: u32,
) -> Option<Work<T>>
    ensures value { result ≡ lookup (nat_eq number) (in_order.old ++ others.old) }
    ensures others { in_order.new ++ others.new ≡ without number (in_order.old ++ others.old) }
{
    match in_order.remove(number) {
        Some(work) => Some(work),
        None => others.remove(number),
    }
}

// Of two places the one that is due first, and at a tie the first one.
fn earlier_place(first: Option<(u64, u32)>, other: Option<(u64, u32)>) -> Option<(u64, u32)>
    ensures { result ≡ earlier_place first other }
{
    match (first, other) {
        (Some(a), Some(b)) => { if a.0 <= b.0 { Some(a) } else { Some(b) } }
        (Some(a), None) => Some(a),
        (None, other) => other,
    }
}
