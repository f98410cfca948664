//! Entries in any order of due times.

ghost use Rattle.std.specs.Prelude.{◌≡◌, ◌<◌, ◌++◌, ◌∷◌, [], nat_eq, All, IsTrue, ◌↔◌, OnOk, OnErr, IfErr};
ghost use Rattle.std.specs.Map.{lookup};

use crate::work::Work;
use std::alloc::Global;
use std::collections::{BTreeMap, BTreeSet};
use std::marker::Model;

// Entries by their tickets, and beside them an agenda: their due times and tickets, in the order in which they come
// out.
#[derive(Drop)]
pub(crate) struct PriorityQueue<T> {
    entries: BTreeMap<u32, Work<T>>,
    agenda: BTreeSet<(u64, u32)>,
}

impl<T> Model for PriorityQueue<T> {
    ghost use Rattle.std.specs.Prelude.{List, ℕ};
    ghost use Rattle.rx_time.specs.declared.work.Work.{Work};
    ghost use Rattle.rx_time.specs.Agenda.{IsKept};

    ghost Value = { List (ℕ × Work T) };

    ghost view = { λ q. q.entries.entries };

    ghost invariant = { λ q. IsKept q.entries.entries q.agenda };
}

impl<T> PriorityQueue<T> {
    ghost use Rattle.rx_time.specs.Agenda.{PointsAt};
    ghost use Rattle.rx_time.specs.Schedule.{next_of, without};

    pub(crate) fn new(alloc: Global) -> Self
        ensures { result ≡ [] }
    {
        PriorityQueue {
            entries: BTreeMap::new(alloc),
            agenda: BTreeSet::new(alloc),
        }
    }

    pub(crate) fn is_empty(&self) -> bool
        ensures { IsTrue result ↔ (self.now ≡ []) }
    {
        self.entries.is_empty()
    }

    // Puts the work in, under a ticket that is above all others. Gives it back where memory is refused.
    pub(crate) fn insert(&mut self, ticket: u32, work: Work<T>) -> Result<(), Work<T>>
        requires { All (λ e. e.0 < ticket) self.old }
        ensures ok { OnOk result (self.new ≡ self.old ++ (ticket, work) ∷ []) }
        ensures back { IfErr result (λ back. back ≡ work) }
        ensures kept { OnErr result (self.new ≡ self.old) }
    {
        let due = work.due;
        let Ok(_) = self.agenda.insert((due, ticket)) else {
            return Err(work);
        };
        match self.entries.insert(ticket, work) {
            Ok(None) => Ok(()),
            Ok(Some(_before)) => unreachable!(),
            Err(failed) => {
                self.agenda.remove(&(due, ticket));
                let (_, work) = failed.value;
                Err(work)
            }
        }
    }

    // The due time and the ticket of what comes next.
    pub(crate) fn first(&self) -> Option<(u64, u32)>
        ensures { PointsAt self.now (next_of self.now) result }
    {
        match self.agenda.first() {
            Some(place) => Some(*place),
            None => None,
        }
    }

    // Takes the work of a ticket out, and its place off the agenda.
    pub(crate) fn remove(&mut self, ticket: u32) -> Option<Work<T>>
        ensures value { result ≡ lookup (nat_eq ticket) self.old }
        ensures others { self.new ≡ without ticket self.old }
    {
        match self.entries.remove(&ticket) {
            Some(work) => {
                self.agenda.remove(&(work.due, ticket));
                Some(work)
            }
            None => None,
        }
    }

    pub(crate) fn destroy_empty(self)
        requires { self ≡ [] }
    {
        let PriorityQueue { entries, agenda } = self;
        entries.destroy_empty();
        drop(agenda);
    }
}
