//! An event as a history stores it: its words apart from its numbers, so that it takes 24 bytes.

ghost use Rattle.std.specs.Prelude.{◌≡◌};
ghost use Rattle.rx_event.specs.Words.{place_at, kind_at, above_in, hub_in, event_of};

use crate::event::{Event, Kind, Mode, Place};
use rx_note::Terminal;

/// Where a node is opened, without the number of the node above.
#[derive(Clone, Copy)]
pub(crate) enum PlaceWord {
    Root,
    Source,
    Inner,
    Notifier,
}

/// What a node does, without the number of its hub.
#[derive(Clone, Copy)]
pub(crate) enum KindWord {
    Leaf,
    Pass,
    Flat,
    Switch,
    Until,
    Sub,
}

/// An event in 24 bytes. A number that its word has no use for is 0.
#[derive(Clone, Copy)]
pub(crate) enum StoredEvent {
    Open {
        place: PlaceWord,
        kind: KindWord,
        above: u64,
        hub: u64,
    },
    Hub(Mode),
    Connect(u64),
    Accept(u64, u64),
    Use(u64),
    Remove(u64),
    Lease(u64),
    Return(u64),
    Item(u64, i64),
    Decline(u64),
    Complete(u64),
    Fail {
        code: u32,
        node: u64,
    },
    Close(u64),
    Take(u64),
}

impl PlaceWord {
    #[inline(always)]
    fn of(place: Place) -> Self
        ensures { place_at result (above_in place) ≡ place }
    {
        match place {
            Place::Root => PlaceWord::Root,
            Place::Source(_) => PlaceWord::Source,
            Place::Inner(_) => PlaceWord::Inner,
            Place::Notifier(_) => PlaceWord::Notifier,
        }
    }

    #[inline(always)]
    fn at(self, above: u64) -> Place
        ensures { result ≡ place_at self above }
    {
        match self {
            PlaceWord::Root => Place::Root,
            PlaceWord::Source => Place::Source(above),
            PlaceWord::Inner => Place::Inner(above),
            PlaceWord::Notifier => Place::Notifier(above),
        }
    }
}

impl KindWord {
    #[inline(always)]
    fn of(kind: Kind) -> Self
        ensures { kind_at result (hub_in kind) ≡ kind }
    {
        match kind {
            Kind::Leaf => KindWord::Leaf,
            Kind::Pass => KindWord::Pass,
            Kind::Flat => KindWord::Flat,
            Kind::Switch => KindWord::Switch,
            Kind::Until => KindWord::Until,
            Kind::Sub(_) => KindWord::Sub,
        }
    }

    #[inline(always)]
    fn at(self, hub: u64) -> Kind
        ensures { result ≡ kind_at self hub }
    {
        match self {
            KindWord::Leaf => Kind::Leaf,
            KindWord::Pass => Kind::Pass,
            KindWord::Flat => Kind::Flat,
            KindWord::Switch => Kind::Switch,
            KindWord::Until => Kind::Until,
            KindWord::Sub => Kind::Sub(hub),
        }
    }
}

// The number of the node above, 0 for a root.
#[inline(always)]
fn above_in(place: Place) -> u64
    ensures { result ≡ above_in place }
{
    match place {
        Place::Root => 0,
        Place::Source(above) | Place::Inner(above) | Place::Notifier(above) => above,
    }
}

// The number of the hub, 0 for what subscribes to none.
#[inline(always)]
fn hub_in(kind: Kind) -> u64
    ensures { result ≡ hub_in kind }
{
    match kind {
        Kind::Sub(hub) => hub,
        _ => 0,
    }
}

impl StoredEvent {
    /// An event, to be stored.
    #[inline(always)]
    pub(crate) fn of(event: Event) -> Self
        ensures { event_of result ≡ event }
    {
        match event {
            Event::Open { place, kind } => StoredEvent::Open {
                place: PlaceWord::of(place),
                kind: KindWord::of(kind),
                above: above_in(place),
                hub: hub_in(kind),
            },
            Event::Hub(mode) => StoredEvent::Hub(mode),
            Event::Connect(hub) => StoredEvent::Connect(hub),
            Event::Accept(node, tag) => StoredEvent::Accept(node, tag),
            Event::Use(res) => StoredEvent::Use(res),
            Event::Remove(res) => StoredEvent::Remove(res),
            Event::Lease(res) => StoredEvent::Lease(res),
            Event::Return(lease) => StoredEvent::Return(lease),
            Event::Item(node, value) => StoredEvent::Item(node, value),
            Event::Decline(node) => StoredEvent::Decline(node),
            Event::End(node, Terminal::Completed) => StoredEvent::Complete(node),
            Event::End(node, Terminal::Error(code)) => StoredEvent::Fail { code, node },
            Event::Close(node) => StoredEvent::Close(node),
            Event::Take(res) => StoredEvent::Take(res),
        }
    }

    /// The event that is stored.
    #[inline(always)]
    pub(crate) fn event(self) -> Event
        ensures { result ≡ event_of self }
    {
        match self {
            StoredEvent::Open {
                place,
                kind,
                above,
                hub,
            } => Event::Open {
                place: place.at(above),
                kind: kind.at(hub),
            },
            StoredEvent::Hub(mode) => Event::Hub(mode),
            StoredEvent::Connect(hub) => Event::Connect(hub),
            StoredEvent::Accept(node, tag) => Event::Accept(node, tag),
            StoredEvent::Use(res) => Event::Use(res),
            StoredEvent::Remove(res) => Event::Remove(res),
            StoredEvent::Lease(res) => Event::Lease(res),
            StoredEvent::Return(lease) => Event::Return(lease),
            StoredEvent::Item(node, value) => Event::Item(node, value),
            StoredEvent::Decline(node) => Event::Decline(node),
            StoredEvent::Complete(node) => Event::End(node, Terminal::Completed),
            StoredEvent::Fail { code, node } => Event::End(node, Terminal::Error(code)),
            StoredEvent::Close(node) => Event::Close(node),
            StoredEvent::Take(res) => Event::Take(res),
        }
    }
}
