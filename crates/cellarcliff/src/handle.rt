//! What C holds of an engine.

ghost use Rattle.std.specs.Prelude.{◌≡◌, Option, None, Some, MatchOption};
ghost use Rattle.std.specs.Coded.{coded_option};
ghost use Rattle.rx_engine.specs.States.{IsPromised};
ghost use Rattle.cellarcliff.specs.Ownership.{owns_unless_null};
ghost use Rattle.rx_turns.specs.declared.turns.Turns.{Turns};
ghost use Rattle.rx_turns.specs.contracts.turns.Turns.{the_row};

use crate::loose::Loose;
use rx_turns::Turns;
use std::alloc::Global;
use std::marker::Model;
use std::mem::{self, ManuallyDrop};
use std::ptr::null_mut;

/// What C holds: a pointer to what is kept, or null.
///
/// It owns what it points at, and nobody else points there: C copies no handle. So what is kept is taken out
/// as a box and put back as one, and the code between sees no pointer.
#[repr(C)]
pub struct CellarHandle {
    at: *mut u8,
    pub ghost kept: { Option Turns } by { coded_option the_row.coded },
}

impl Model for CellarHandle {
    ghost also_owns = { λ h. owns_unless_null the_row h.at h.kept };
}

impl CellarHandle {
    /// Keeps nothing, as the zeros do with which a handle of C begins.
    pub fn empty() -> CellarHandle
        ensures { result.kept ≡ None }
    {
        CellarHandle { at: null_mut() }
    }

    // Keeps what the box was of.
    fn holding(loose: Loose<Turns, Global>) -> CellarHandle
        ensures { result.kept ≡ Some loose.value }
    {
        let Loose { at, alloc: _ } = loose;
        CellarHandle { at: at as *mut u8 }
    }

    /// What is kept, for whoever is done with the handle.
    pub fn into_loose(self, alloc: Global) -> Option<Loose<Turns, Global>>
        ensures { MatchOption result (self.kept ≡ None) (λ l. self.kept ≡ Some l.value) }
    {
        let CellarHandle { at } = self;
        if at.is_null() {
            None
        } else {
            Some(Loose {
                at: at as *mut Turns,
                alloc,
            })
        }
    }

    /// Takes out what is kept, and keeps nothing.
    pub fn take(&mut self, alloc: Global) -> Option<Box<Turns>>
        ensures left { self.new.kept ≡ None }
        ensures taken { MatchOption result (self.old.kept ≡ None) (λ b. self.old.kept ≡ Some b.value) }
    {
        match mem::replace(self, CellarHandle::empty()).into_loose(alloc) {
            Some(loose) => Some(loose.into_box()),
            None => None,
        }
    }

    // Lets go of a handle that keeps nothing.
    fn let_go(self)
        requires { self.kept ≡ None }
    {
        let _empty = unsafe { ManuallyDrop::new_unchecked(self) };
    }

    /// Puts a box in where none is kept. The engine's promise is told with it.
    pub(crate) fn put(&mut self, kept: Box<Turns>)
        requires empty { self.old.kept ≡ None }
        ensures kept { self.new.kept ≡ Some kept.value }
        ensures promised { IsPromised kept.value.cellar.engine }
    {
        kept.cellar.promise();
        mem::replace(self, CellarHandle::holding(Loose::of(kept))).let_go();
    }
}
