//! What made a node, as its record keeps it.

ghost use Rattle.std.specs.Prelude.{◌≡◌, ◌<◌, ◌^◌, IfSome};
ghost use Rattle.rx_event.specs.Events.{hub_connected, hub_subscribed};
ghost use Rattle.rx_tree.specs.Record.{made_of, above_of, place_word, kind_word, hub_in, words_of, place_at};

use rx_event::{Event, Kind, Place};
use rx_slots::Key;

/// Where a node was opened, without the number of the node above.
#[derive(Clone, Copy)]
pub(crate) enum PlaceWord {
    Root,
    Source,
    Inner,
    Notifier,
}

impl PlaceWord {
    // The word of the place that an event names, that of a root where it names none.
    pub(crate) fn of(made: Event) -> Self
        ensures { result ≡ place_word made }
    {
        match made {
            Event::Open { place, kind: _ } => match place {
                Place::Root => PlaceWord::Root,
                Place::Source(_) => PlaceWord::Source,
                Place::Inner(_) => PlaceWord::Inner,
                Place::Notifier(_) => PlaceWord::Notifier,
            },
            _ => PlaceWord::Root,
        }
    }

    // The place below the node of a number.
    #[inline(always)]
    fn at(self, above: u64) -> Place
        ensures { result ≡ place_at self above }
    {
        match self {
            PlaceWord::Root => Place::Root,
            PlaceWord::Source => Place::Source(above),
            PlaceWord::Inner => Place::Inner(above),
            PlaceWord::Notifier => Place::Notifier(above),
        }
    }
}

/// What a node does, without the number of its hub.
#[derive(Clone, Copy)]
pub(crate) enum KindWord {
    Leaf,
    Pass,
    Flat,
    Switch,
    Until,
    Sub,
    /// It is a connection, which stands at no place.
    Connect,
}

impl KindWord {
    // The word of what an event opens, that of a connection where it opens nothing.
    pub(crate) fn of(made: Event) -> Self
        ensures { result ≡ kind_word made }
    {
        match made {
            Event::Open { place: _, kind } => match kind {
                Kind::Leaf => KindWord::Leaf,
                Kind::Pass => KindWord::Pass,
                Kind::Flat => KindWord::Flat,
                Kind::Switch => KindWord::Switch,
                Kind::Until => KindWord::Until,
                Kind::Sub(_) => KindWord::Sub,
            },
            _ => KindWord::Connect,
        }
    }
}

/// What made a node, and what it stands below, in 24 bytes: the numbers of the node above and of the hub, and the slot
/// where the node above stands, each 0 where there is none, and the words that say what they are.
#[derive(Clone, Copy)]
pub(crate) struct Made {
    pub(crate) above: u64,
    pub(crate) hub: u64,
    pub(crate) slot: u32,
    pub(crate) place: PlaceWord,
    pub(crate) kind: KindWord,
}

// The number of the hub that an event names, 0 where it names none.
fn hub_in(made: Event) -> u64
    ensures { result ≡ hub_in made }
{
    match made {
        Event::Open {
            place: _,
            kind: Kind::Sub(hub),
        }
        | Event::Connect(hub) => hub,
        _ => 0,
    }
}

impl Made {
    // Of an event that stands below this node.
    #[inline(always)]
    pub(crate) fn of(made: Event, above: Option<Key>) -> Self
        requires fits { IfSome above (λ key. key.slot < 2 ^ 32) }
        ensures { result ≡ words_of made above }
    {
        let (number, slot) = match above {
            Some(key) => (key.number, key.slot as u32),
            None => (0, 0),
        };
        Made {
            above: number,
            hub: hub_in(made),
            slot,
            place: PlaceWord::of(made),
            kind: KindWord::of(made),
        }
    }

    // The event.
    #[inline(always)]
    pub(crate) fn event(&self) -> Event
        ensures { result ≡ made_of self.now.place self.now.kind self.now }
    {
        let place = self.place.at(self.above);
        match self.kind {
            KindWord::Leaf => Event::Open {
                place,
                kind: Kind::Leaf,
            },
            KindWord::Pass => Event::Open {
                place,
                kind: Kind::Pass,
            },
            KindWord::Flat => Event::Open {
                place,
                kind: Kind::Flat,
            },
            KindWord::Switch => Event::Open {
                place,
                kind: Kind::Switch,
            },
            KindWord::Until => Event::Open {
                place,
                kind: Kind::Until,
            },
            KindWord::Sub => Event::Open {
                place,
                kind: Kind::Sub(self.hub),
            },
            KindWord::Connect => Event::Connect(self.hub),
        }
    }

    // The hub that it connects; None where it is no connection.
    #[inline(always)]
    pub(crate) fn connects(&self) -> Option<u64>
        ensures { result ≡ hub_connected (made_of self.now.place self.now.kind self.now) }
    {
        match self.kind {
            KindWord::Connect => Some(self.hub),
            KindWord::Leaf
            | KindWord::Pass
            | KindWord::Flat
            | KindWord::Switch
            | KindWord::Until
            | KindWord::Sub => None,
        }
    }

    // The hub that it subscribes to; None where it is no subscriber.
    #[inline(always)]
    pub(crate) fn subscribes_to(&self) -> Option<u64>
        ensures { result ≡ hub_subscribed (made_of self.now.place self.now.kind self.now) }
    {
        match self.kind {
            KindWord::Sub => Some(self.hub),
            KindWord::Leaf
            | KindWord::Pass
            | KindWord::Flat
            | KindWord::Switch
            | KindWord::Until
            | KindWord::Connect => None,
        }
    }

    // The key of the node that it stands below.
    #[inline(always)]
    pub(crate) fn above(&self) -> Option<Key>
        ensures { result ≡ above_of self.now.place self.now }
    {
        match self.place {
            PlaceWord::Root => None,
            _ => Some(Key {
                slot: u64::from(self.slot),
                number: self.above,
            }),
        }
    }
}
