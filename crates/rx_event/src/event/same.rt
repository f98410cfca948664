//! Whether two events are the same.

ghost use Rattle.std.specs.Prelude.{◌≡◌, ◌↔◌, IsTrue};
ghost use Rattle.rx_event.specs.Sames.{same_terminal, same_place, same_kind, same_mode, same_event};

use super::{Event, Kind, Mode, Place};
use rx_note::Terminal;

fn same_terminal(one: Terminal, other: Terminal) -> bool
    ensures { result ≡ same_terminal one other }
{
    match one {
        Terminal::Completed => matches!(other, Terminal::Completed),
        Terminal::Error(c) => matches!(other, Terminal::Error(d) if c == d),
    }
}

fn same_place(one: Place, other: Place) -> bool
    ensures { result ≡ same_place one other }
{
    match one {
        Place::Root => matches!(other, Place::Root),
        Place::Source(p) => matches!(other, Place::Source(q) if p == q),
        Place::Inner(p) => matches!(other, Place::Inner(q) if p == q),
        Place::Notifier(p) => matches!(other, Place::Notifier(q) if p == q),
    }
}

fn same_kind(one: Kind, other: Kind) -> bool
    ensures { result ≡ same_kind one other }
{
    match one {
        Kind::Leaf => matches!(other, Kind::Leaf),
        Kind::Pass => matches!(other, Kind::Pass),
        Kind::Flat => matches!(other, Kind::Flat),
        Kind::Switch => matches!(other, Kind::Switch),
        Kind::Until => matches!(other, Kind::Until),
        Kind::Sub(g) => matches!(other, Kind::Sub(h) if g == h),
    }
}

fn same_mode(one: Mode, other: Mode) -> bool
    ensures { result ≡ same_mode one other }
{
    match one {
        Mode::Auto => matches!(other, Mode::Auto),
        Mode::Manual => matches!(other, Mode::Manual),
    }
}

fn same_event(one: Event, other: Event) -> bool
    ensures { result ≡ same_event one other }
{
    match one {
        Event::Open { place, kind } => match other {
            Event::Open { place: p, kind: k } => same_place(place, p) && same_kind(kind, k),
            _ => false,
        },
        Event::Hub(mode) => match other {
            Event::Hub(m) => same_mode(mode, m),
            _ => false,
        },
        Event::Connect(hub) => matches!(other, Event::Connect(h) if hub == h),
        Event::Accept(node, tag) => match other {
            Event::Accept(n, t) => node == n && tag == t,
            _ => false,
        },
        Event::Use(resource) => matches!(other, Event::Use(r) if resource == r),
        Event::Remove(resource) => matches!(other, Event::Remove(r) if resource == r),
        Event::Lease(resource) => matches!(other, Event::Lease(r) if resource == r),
        Event::Return(lease) => matches!(other, Event::Return(l) if lease == l),
        Event::Item(leaf, value) => match other {
            Event::Item(l, v) => leaf == l && value == v,
            _ => false,
        },
        Event::Decline(flat) => matches!(other, Event::Decline(f) if flat == f),
        Event::End(node, terminal) => match other {
            Event::End(n, t) => node == n && same_terminal(terminal, t),
            _ => false,
        },
        Event::Close(node) => matches!(other, Event::Close(n) if node == n),
        Event::Take(resource) => matches!(other, Event::Take(r) if resource == r),
    }
}

impl Event {
    /// Whether it is the same event as the other. `==` answers the same, by a clause that is too large
    /// for the proof of a caller.
    #[tactic(auto, using(crate::proofs::Laws::Sames::same_event_equal))]
    pub fn same(self, other: Event) -> bool
        ensures value { result ≡ same_event self other }
        ensures equal { IsTrue result ↔ (self ≡ other) }
    {
        same_event(self, other)
    }
}
