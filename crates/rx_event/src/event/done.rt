//! What an event does to what others made.

ghost use Rattle.std.specs.Prelude.{◌≡◌};
ghost use Rattle.rx_event.specs.Events.{is_return, is_end, ended_of, completed_of, failed_of, used_of, removed_of, leased_of};
ghost use Rattle.rx_event.specs.Events.{returned_of, taken_of, paid_of};

use super::{Event, Place};
use rx_note::Terminal;

impl Event {
    /// Whether a lease is given back.
    pub fn is_return(self) -> bool
        ensures { result ≡ is_return self }
    {
        matches!(self, Event::Return(_))
    }

    /// Whether a node ends by itself.
    pub fn is_end(self) -> bool
        ensures { result ≡ is_end self }
    {
        matches!(self, Event::End(_, _))
    }

    /// The node that it ends.
    pub fn ended(self) -> Option<u64>
        ensures { result ≡ ended_of self }
    {
        match self {
            Event::End(n, _) => Some(n),
            _ => None,
        }
    }

    /// The node that it ends without an error.
    pub fn completed(self) -> Option<u64>
        ensures { result ≡ completed_of self }
    {
        match self {
            Event::End(n, Terminal::Completed) => Some(n),
            _ => None,
        }
    }

    /// The node that it ends with an error.
    pub fn failed(self) -> Option<u64>
        ensures { result ≡ failed_of self }
    {
        match self {
            Event::End(n, Terminal::Error(_)) => Some(n),
            _ => None,
        }
    }

    /// The resource that it uses.
    pub fn used(self) -> Option<u64>
        ensures { result ≡ used_of self }
    {
        match self {
            Event::Use(r) => Some(r),
            _ => None,
        }
    }

    /// The resource that it removes.
    pub fn removed(self) -> Option<u64>
        ensures { result ≡ removed_of self }
    {
        match self {
            Event::Remove(r) => Some(r),
            _ => None,
        }
    }

    /// The resource that it leases.
    pub fn leased(self) -> Option<u64>
        ensures { result ≡ leased_of self }
    {
        match self {
            Event::Lease(r) => Some(r),
            _ => None,
        }
    }

    /// The lease that it gives back.
    pub fn returned(self) -> Option<u64>
        ensures { result ≡ returned_of self }
    {
        match self {
            Event::Return(l) => Some(l),
            _ => None,
        }
    }

    /// The resource that it hands out.
    pub fn taken(self) -> Option<u64>
        ensures { result ≡ taken_of self }
    {
        match self {
            Event::Take(r) => Some(r),
            _ => None,
        }
    }

    /// The FlatMap or Switch of which it pays one projected item: it opens an inner observable,
    /// or declines.
    pub fn pays(self) -> Option<u64>
        ensures { result ≡ paid_of self }
    {
        match self {
            Event::Open {
                place: Place::Inner(f),
                ..
            }
            | Event::Decline(f) => Some(f),
            _ => None,
        }
    }
}
