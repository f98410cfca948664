//! Where a link of the tree leads.

ghost use Rattle.std.specs.Prelude.{◌≡◌, ◌<◌, ◌^◌};
ghost use Rattle.rx_tree.specs.Places.{is_place, slot_of};
ghost use Rattle.rx_tree.specs.declared.links.Place.TheVariants.{Noted};

use rx_slots::MOST_SLOTS;
use std::marker::Model;

/// A place on one of the tree's rings. A ring begins and ends at one of the first five, and goes
/// through places of the other three between.
#[derive(Clone, Copy)]
pub(crate) enum Place {
    /// Where the roots begin and end.
    Roots,
    /// Where the nodes that may be due begin and end.
    Due,
    /// Where the resources that wait begin and end.
    Waiting,
    /// Where the children of a slot's node begin and end.
    Children(usize),
    /// Where the resources that are held at a slot's node begin and end.
    Held(usize),
    /// A slot's node among its siblings.
    Sibling(usize),
    /// A slot's node among those that may be due.
    Noted(usize),
    /// The resource of a slot, among those that are held with it or wait.
    Stored(usize),
}

// The kinds of places, as a link's word keeps them.
const ROOTS: u32 = 0;

const DUE: u32 = 1;

const WAITING: u32 = 2;

const CHILDREN: u32 = 3;

const HELD: u32 = 4;

const SIBLING: u32 = 5;

const NOTED: u32 = 6;

const STORED: u32 = 7;

/// A place as a link keeps it, in a word of 32 bits: its kind in the three low ones, and above them its slot, which
/// is below 2^29. It is seen as the place.
#[derive(Clone, Copy)]
pub(crate) struct Step {
    word: u32,
}

impl Model for Step {
    ghost use Rattle.rx_tree.specs.declared.links.Place.{Place as Shown};

    ghost Value = { Shown };

    ghost use Rattle.std.specs.Prelude.{◌≡◌};
    ghost use Rattle.rx_tree.specs.Places.{place_in, ring_word};

    ghost view = { λ s. place_in s.word };

    ghost invariant = { λ s. ring_word (place_in s.word) ≡ s.word };

    ghost inverse = { λ p. record { word = ring_word p } };

    ghost inverse_ok = { λ s kept i. record { word = kept i } };
}

impl Step {
    // To a place, where its slot fits.
    #[inline(always)]
    pub(crate) fn to(place: Place) -> Self
        ensures { slot_of place < 2 ^ 29 → result ≡ place }
    {
        let word = match place {
            Place::Roots => ROOTS,
            Place::Due => DUE,
            Place::Waiting => WAITING,
            Place::Children(slot) => (slot % MOST_SLOTS) as u32 * 8 + CHILDREN,
            Place::Held(slot) => (slot % MOST_SLOTS) as u32 * 8 + HELD,
            Place::Sibling(slot) => (slot % MOST_SLOTS) as u32 * 8 + SIBLING,
            Place::Noted(slot) => (slot % MOST_SLOTS) as u32 * 8 + NOTED,
            Place::Stored(slot) => (slot % MOST_SLOTS) as u32 * 8 + STORED,
        };
        Step { word }
    }

    // Where it leads.
    #[inline(always)]
    pub(crate) fn place(&self) -> Place
        ensures { result ≡ self.now }
    {
        let slot = (self.word / 8) as usize;
        match self.word % 8 {
            ROOTS => Place::Roots,
            DUE => Place::Due,
            WAITING => Place::Waiting,
            CHILDREN => Place::Children(slot),
            HELD => Place::Held(slot),
            SIBLING => Place::Sibling(slot),
            NOTED => Place::Noted(slot),
            _ => Place::Stored(slot),
        }
    }

    // The place where it is not likely to lead: apart, so that what asks stays small.
    #[cold]
    #[inline(never)]
    fn place_apart(&self) -> Place
        ensures { result ≡ self.now }
    {
        self.place()
    }

    // The place of a word along the ring of another place: first are asked for the kinds that stand on such a ring.
    #[inline(always)]
    pub(crate) fn place_beside(&self, other: Place) -> Place
        ensures { result ≡ self.now }
    {
        let slot = (self.word / 8) as usize;
        match other {
            Place::Roots | Place::Children(_) | Place::Sibling(_) => match self.word % 8 {
                ROOTS => Place::Roots,
                CHILDREN => Place::Children(slot),
                SIBLING => Place::Sibling(slot),
                _ => self.place_apart(),
            },
            Place::Due | Place::Noted(_) => match self.word % 8 {
                DUE => Place::Due,
                NOTED => Place::Noted(slot),
                _ => self.place_apart(),
            },
            Place::Waiting | Place::Held(_) | Place::Stored(_) => match self.word % 8 {
                WAITING => Place::Waiting,
                HELD => Place::Held(slot),
                STORED => Place::Stored(slot),
                _ => self.place_apart(),
            },
        }
    }

    // Whether it leads to a slot's node among those that may be due. Only its word is compared.
    #[inline(always)]
    pub(crate) fn is_noted(&self, slot: usize) -> bool
        requires fits { slot < 2 ^ 29 }
        ensures { result ≡ is_place self.now (Noted slot) }
    {
        self.word as usize == slot * 8 + NOTED as usize
    }
}

/// What comes after a place on its ring, and what before.
#[derive(Clone, Copy)]
pub(crate) struct Link {
    pub(crate) next: Step,
    pub(crate) previous: Step,
}

impl Link {
    // The link of a place that is a ring of its own, where its slot fits.
    #[inline(always)]
    pub(crate) fn alone(place: Place) -> Self
        ensures { slot_of place < 2 ^ 29 → result ≡ record { next = place; previous = place } }
    {
        let step = Step::to(place);
        Link {
            next: step,
            previous: step,
        }
    }

    // Becomes another. It is written step by step, so that no word is put together first.
    #[inline(always)]
    pub(crate) fn set(&mut self, link: Link)
        ensures { self.new ≡ link }
    {
        let Link { next, previous } = link;
        self.next = next;
        self.previous = previous;
    }
}
