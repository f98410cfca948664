//! Resources that a subscription holds, and the box that has to be spent.
//!
//! A program that implements [`Resource`] can hand its values to a subscription, as System.Reactive's
//! `Using` takes a disposable. Once the subscription is closed it gets each of them back as a
//! [`Handed`], and a [`Handed`] can be given up in one way: `release`, which calls the resource's own
//! `release` and answers what is left of it, a [`Released`].
//!
//! # Vocabulary
//!
//! A resource is known by three ghost members, which every contract here and above speaks of:
//! `tag_of`, the number that its maker gave it; `life_of`, whether it was released; `uses_of`, how
//! often it was applied to a word. A contract sees a [`Handed`] as the pair of its number and its
//! resource.
//!
//! A [`Token`] stands for a resource that its caller keeps. A [`Sample`] is one that keeps what was done to it,
//! for tests and measures. A [`Tracked`] one tells its [`Tracker`] what becomes of it where a test has no hold
//! of it any more.
//!
//! What keeps resources is generic in `R: Resource`. `Box<dyn Resource>` is itself a resource, so a
//! caller with one kind of resource needs no box, and a caller with many hands in boxes.
//!
//! # Promised, and not
//!
//! - A `Handed` is live, and its release makes it released whatever the resource answers, and does not
//!   use it. A resource is released once: its `release` asks for a live one.
//! - No call of a `Handed` takes memory or waits, beside what the resource's own call does.
//! - Nothing is promised of the word that `apply` answers, nor of what `release` answers: an
//!   implementation is free in both. That [`Released`] passes on what the resource answered is tested.
//! - What an implementation does beside these three numbers, as closing a file, is its own.
#![tactic(auto)]

ghost use Rattle.std.specs.Prelude.{◌≡◌, ℕ, ◌+◌, ◌<◌, ◌^◌};
ghost use Rattle.rx_resource.specs.declared.Life.{Life};

mod release;
mod sample;
mod token;
mod tracked;

pub use release::{Handed, Released};
pub use sample::Sample;
pub use token::Token;
pub use tracked::{Tracked, Tracker};

/// Whether a resource was released.
#[derive(Clone, Copy, Debug, PartialEq, Eq)]
pub enum Life {
    /// It was not released yet, and may be applied.
    Live,
    /// Its `release` was called, whatever that answered.
    Released,
}

/// A value that a subscription holds and hands back for release, as the resource of `Using`.
///
/// It can move to another thread, since the thread that releases it need not be the one that made it.
///
/// No call of a resource but `release` may use the desk, which is the runtime behind its lock: the
/// others, and a drop of the resource, may come while the lock is held, and would wait for ever.
/// `release` is called outside the lock.
pub trait Resource: Send + Drop {
    /// The number that the resource was made with, any `u64`; it never changes.
    ghost tag_of: { Self → ℕ };

    /// Whether the resource was released.
    ghost life_of: { Self → Life };

    /// How often the resource was applied.
    ghost uses_of: { Self → ℕ };

    /// The number that the resource was made with, any `u64`. It names the resource in reports and
    /// need not be unique.
    fn tag(&self) -> u64
        ensures { result ≡ tag_of self.now };

    /// Whether the resource was released.
    fn life(&self) -> Life
        ensures { result ≡ life_of self.now };

    /// How often `apply` was called.
    fn uses(&self) -> u64
        ensures { result ≡ uses_of self.now };

    /// Uses the resource on a word and answers a word, of which nothing is said.
    ///
    /// It may be called while the resource is live and was used less than `u64::MAX` times.
    fn apply(&mut self, word: u64) -> u64
        requires live { life_of self.old ≡ Life.Live }
        requires countable { uses_of self.old + 1 < 2 ^ 64 }
        ensures used { uses_of self.new ≡ uses_of self.old + 1 }
        ensures kept_tag { tag_of self.new ≡ tag_of self.old }
        ensures kept_life { life_of self.new ≡ life_of self.old };

    /// Releases the resource. Err has the code of a fault that it met; it is released all the same.
    /// A release is no use.
    ///
    /// It may be called while the resource is live, so once: a program that releases a resource a
    /// second time does not compile.
    fn release(&mut self) -> Result<(), u32>
        requires live { life_of self.old ≡ Life.Live }
        ensures released { life_of self.new ≡ Life.Released }
        ensures kept_tag { tag_of self.new ≡ tag_of self.old }
        ensures kept_uses { uses_of self.new ≡ uses_of self.old };
}

/// A box of any kind of resource is a resource: it has the tag, life and uses of what is in it.
impl Resource for Box<dyn Resource> {
    ghost tag_of = { λ b. (Resource-box b).tag_of b.value };

    ghost life_of = { λ b. (Resource-box b).life_of b.value };

    ghost uses_of = { λ b. (Resource-box b).uses_of b.value };

    fn tag(&self) -> u64 {
        (**self).tag()
    }

    fn life(&self) -> Life {
        (**self).life()
    }

    fn uses(&self) -> u64 {
        (**self).uses()
    }

    fn apply(&mut self, word: u64) -> u64 {
        (**self).apply(word)
    }

    fn release(&mut self) -> Result<(), u32> {
        (**self).release()
    }
}
