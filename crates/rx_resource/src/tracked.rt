//! A resource that tells outside what becomes of it, for tests.

ghost use Rattle.std.specs.Prelude.{◌≡◌, ◌↔◌, ◌+◌, ◌<◌, ◌^◌, Option, None, Some, IsOk, IfOk, IfErr};
ghost use Rattle.rx_resource.specs.declared.Life.{Life};

use crate::{Life, Resource};
use std::alloc::{AllocError, Global};
use std::sync::Arc;
use std::sync::atomic::{AtomicU32, AtomicU64, Ordering};

// What became of a tracker's resources.
#[derive(Drop)]
struct Fates {
    released: AtomicU32,
    dropped: AtomicU32,
    heard: AtomicU64,
}

/// Tells what became of the resources that it made, whoever has them by now, for tests.
///
/// Nothing is proved of what it tells: its resources may change that from any thread.
#[derive(Drop)]
pub struct Tracker {
    fates: Arc<Fates, Global>,
}

impl Tracker {
    /// A tracker that made no resource yet, or Err where memory is refused.
    pub fn new(alloc: Global) -> Result<Tracker, AllocError> {
        let fates = Fates {
            released: AtomicU32::new(0),
            dropped: AtomicU32::new(0),
            heard: AtomicU64::new(0),
        };
        Ok(Tracker {
            fates: Arc::new(alloc, fates)?,
        })
    }

    /// How often its resources were released, modulo 2³².
    pub fn released(&self) -> u32 {
        self.fates.released.load(Ordering::SeqCst)
    }

    /// How many of its resources were dropped, modulo 2³².
    pub fn dropped(&self) -> u32 {
        self.fates.dropped.load(Ordering::SeqCst)
    }

    /// The word that one of its resources was applied to last; 0 before the first.
    pub fn heard(&self) -> u64 {
        self.fates.heard.load(Ordering::SeqCst)
    }

    /// A live resource with this tag, any `u64`, that was never applied. Its release answers the fault
    /// of this code, any `u32`, or `Ok` where that is None. Err where memory is refused.
    pub fn resource(&self, tag: u64, fault: Option<u32>) -> Result<Tracked, AllocError>
        ensures tag { IfOk result (λ made. made.tag ≡ tag) }
        ensures live { IfOk result (λ made. made.life ≡ Life.Live) }
        ensures unused { IfOk result (λ made. made.uses ≡ 0) }
        ensures fault { IfOk result (λ made. made.fault ≡ fault) }
    {
        Ok(Tracked {
            tag,
            life: Life::Live,
            uses: 0,
            fault,
            fates: Arc::try_clone(&self.fates)?,
        })
    }
}

/// A resource whose [`Tracker`] is told of each word, each release and the drop.
///
/// It answers each word as it came, and its release with the fault that it was made with.
pub struct Tracked {
    /// The number that it was made with.
    pub tag: u64,
    /// Whether it was released.
    pub life: Life,
    /// How often it was applied.
    pub uses: u64,
    /// The code of the fault that its release answers, or None where that answers `Ok`.
    pub fault: Option<u32>,
    fates: Arc<Fates, Global>,
}

impl Drop for Tracked {
    fn drop(self) {
        self.fates.dropped.fetch_add(1, Ordering::SeqCst);
        let Tracked {
            tag: _,
            life: _,
            uses: _,
            fault: _,
            fates: _fates,
        } = self;
    }
}

impl Resource for Tracked {
    ghost tag_of = { λ t. t.tag };

    ghost life_of = { λ t. t.life };

    ghost uses_of = { λ t. t.uses };

    fn tag(&self) -> u64 {
        self.tag
    }

    fn life(&self) -> Life {
        self.life
    }

    fn uses(&self) -> u64 {
        self.uses
    }

    /// Tells its tracker the word, and answers it.
    fn apply(&mut self, word: u64) -> u64
        requires { self.old.uses + 1 < 2 ^ 64 }
        ensures word { result ≡ word }
        ensures used { self.new ≡ record self.old { uses = self.old.uses + 1 } }
    {
        self.uses += 1;
        self.fates.heard.store(word, Ordering::SeqCst);
        word
    }

    /// Tells its tracker, and answers the fault that the resource was made with, if it was made with one.
    fn release(&mut self) -> Result<(), u32>
        requires live { self.old.life ≡ Life.Live }
        ensures ok { IsOk result ↔ (self.old.fault ≡ None) }
        ensures fault { IfErr result (λ code. self.old.fault ≡ Some code) }
        ensures released { self.new ≡ record self.old { life = Life.Released } }
    {
        self.life = Life::Released;
        self.fates.released.fetch_add(1, Ordering::SeqCst);
        match self.fault {
            Some(code) => Err(code),
            None => Ok(()),
        }
    }
}
