//! What a face is to do.

ghost use Rattle.std.specs.Prelude.{◌≡◌, ◌+◌, ◌<◌, ◌≤◌, [], ◌∷◌, ◌++◌, OnOk, length, slice_get};
ghost use Rattle.rx_roles.specs.Effects.{is_last};

use rx_lanes::LaneName;
use std::alloc::{AllocError, Global};
use std::marker::Model;

/// What is to be done.
#[derive(Clone, Copy, Debug)]
pub enum What {
    /// The root's observer receives an item.
    Next,
    /// An item is to be projected.
    Project,
    /// The root has completed.
    Completed,
    /// The root has failed.
    Failed,
    /// The root has closed without an end.
    Gone,
    /// The resource is to be released.
    Release,
    /// The face's own, which it put itself.
    Put,
    /// Nothing more is projected.
    Merged,
}

/// Whether such an effect is the last for its role.
pub fn is_last(what: What) -> bool
    ensures { result ≡ is_last what }
{
    match what {
        What::Next => false,
        What::Project => false,
        What::Put => false,
        _ => true,
    }
}

/// Something that the face is to do.
#[derive(Clone, Copy)]
pub struct Effect {
    /// Where it waits.
    pub lane: LaneName,
    /// The face's word for who hears it, or its tag.
    pub user: u64,
    /// The item or the error; 0 where it carries none.
    pub value: u64,
    /// Who made the call of which it came.
    pub by: u64,
    pub what: What,
}

/// Effects in order, on their way to their lanes.
#[derive(Drop)]
pub struct Effects {
    list: Vec<Effect>,
}

impl Model for Effects {
    ghost use Rattle.rx_roles.specs.Effects.{Store, store_of};

    ghost Value = { Store };

    ghost view = { store_of };
}

impl Effects {
    /// No effect. It takes no memory.
    pub fn new(alloc: Global) -> Effects
        ensures { result.list ≡ [] }
    {
        Effects {
            list: Vec::new(alloc),
        }
    }

    /// Gets room for so many more.
    #[inline(always)]
    pub fn reserve(&mut self, many: usize) -> Result<(), AllocError>
        ensures ok { OnOk result (many ≤ self.new.room) }
        ensures list { self.new.list ≡ self.old.list }
        ensures room { self.old.room ≤ self.new.room }
    {
        if many <= self.list.capacity() - self.list.len() {
            return Ok(());
        }
        self.grow(many)
    }

    // Gets room where there is too little.
    #[cold]
    #[inline(never)]
    fn grow(&mut self, many: usize) -> Result<(), AllocError>
        ensures ok { OnOk result (many ≤ self.new.room) }
        ensures list { self.new.list ≡ self.old.list }
        ensures room { self.old.room ≤ self.new.room }
    {
        if self
            .list
            .reserve_exact(many.saturating_add(many / 4))
            .is_ok()
        {
            return Ok(());
        }
        self.list.reserve_exact(many)
    }

    /// For how many more there is room.
    #[inline(always)]
    pub fn room(&self) -> usize
        ensures { result ≡ self.now.room }
    {
        self.list.capacity() - self.list.len()
    }

    /// Puts an effect behind the others. It takes no memory.
    #[inline(always)]
    pub fn put(&mut self, effect: Effect)
        requires { 0 < self.old.room }
        ensures list { self.new.list ≡ self.old.list ++ effect ∷ [] }
        ensures room { self.new.room + 1 ≡ self.old.room }
    {
        self.list.push_reserved(effect);
    }

    /// How many there are.
    #[inline(always)]
    pub fn len(&self) -> usize
        ensures { result ≡ length self.now.list }
    {
        self.list.len()
    }

    /// The effect at this place.
    #[inline(always)]
    pub fn get(&self, place: usize) -> Option<Effect>
        ensures { result ≡ slice_get self.now.list place }
    {
        // By its fields: a copy of the whole would go over the stack.
        match self.list.get(place) {
            Some(one) => Some(Effect {
                lane: LaneName {
                    place: one.lane.place,
                    turn: one.lane.turn,
                },
                user: one.user,
                value: one.value,
                by: one.by,
                what: one.what,
            }),
            None => None,
        }
    }

    /// Takes all away. It takes no memory.
    #[inline(always)]
    pub fn clear(&mut self)
        ensures list { self.new.list ≡ [] }
        ensures room { self.old.room ≤ self.new.room }
    {
        self.list.clear();
    }
}
