//! What C holds of a live book.

ghost use Rattle.std.specs.Prelude.{◌≡◌, Option, None, Some, MatchOption};
ghost use Rattle.std.specs.Coded.{coded_option};
ghost use Rattle.cellarcliff.specs.Ownership.{owns_unless_null};
ghost use Rattle.cellarcliff.specs.declared.kept.Kept.{Kept};
ghost use Rattle.cellarcliff.specs.contracts.kept.Kept.{the_row};

use crate::kept::Kept;
use crate::loose::Loose;
use std::alloc::Global;
use std::marker::{Model, Send};
use std::mem;
use std::ptr::null_mut;

/// What C holds: a pointer to what is kept, or null.
///
/// It owns what it points at, and nobody else points there: C copies no handle. So what is kept is taken out
/// as a box and put back as one, and the code between sees no pointer.
#[repr(C)]
pub struct LiveHandle {
    at: *mut u8,
    pub ghost kept: { Option Kept } by { coded_option the_row.coded },
}

impl Model for LiveHandle {
    ghost also_owns = { λ h. owns_unless_null the_row h.at h.kept };
}

// It may go to another thread: `proofs/live_handle/LiveHandle/TheSendSync/Send.antt` shows it.
unsafe impl Send for LiveHandle {}

impl LiveHandle {
    /// Keeps nothing, as the zeros do with which a handle of C begins.
    pub fn empty() -> LiveHandle
        ensures { result.kept ≡ None }
    {
        LiveHandle { at: null_mut() }
    }

    // Keeps what the box was of.
    fn holding(loose: Loose<Kept, Global>) -> LiveHandle
        ensures { result.kept ≡ Some loose.value }
    {
        let Loose { at, alloc: _ } = loose;
        LiveHandle { at: at as *mut u8 }
    }

    /// What is kept, for whoever is done with the handle.
    pub fn into_loose(self, alloc: Global) -> Option<Loose<Kept, Global>>
        ensures { MatchOption result (self.kept ≡ None) (λ l. self.kept ≡ Some l.value) }
    {
        let LiveHandle { at } = self;
        if at.is_null() {
            None
        } else {
            Some(Loose {
                at: at as *mut Kept,
                alloc,
            })
        }
    }

    /// Takes out what is kept, and keeps nothing.
    pub fn take(&mut self, alloc: Global) -> Option<Box<Kept>>
        ensures left { self.new.kept ≡ None }
        ensures taken { MatchOption result (self.old.kept ≡ None) (λ b. self.old.kept ≡ Some b.value) }
    {
        match mem::replace(self, LiveHandle::empty()).into_loose(alloc) {
            Some(loose) => Some(loose.into_box()),
            None => None,
        }
    }

    /// Puts a box in, and gives back what was kept before.
    pub fn put(&mut self, kept: Box<Kept>, alloc: Global)
        ensures { self.new.kept ≡ Some kept.value }
    {
        let before = mem::replace(self, LiveHandle::holding(Loose::of(kept)));
        if let Some(loose) = before.into_loose(alloc) {
            drop(loose.into_box());
        }
    }
}
