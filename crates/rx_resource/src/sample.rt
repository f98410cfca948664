//! A resource for tests and measures.

ghost use Rattle.std.specs.Prelude.{◌≡◌, ◌↔◌, ◌+◌, ◌<◌, ◌^◌, Some, None, IsOk, IfErr, bit_xor};
ghost use Rattle.rx_resource.specs.declared.Life.{Life};

use crate::{Life, Resource};

/// A resource that keeps what was done to it, for tests and measures of what holds resources.
///
/// It answers each word with the exclusive or of all its words, and its release with the fault that
/// it was made with.
#[derive(Drop)]
pub struct Sample {
    /// The number that it was made with.
    pub tag: u64,
    /// Whether it was released.
    pub life: Life,
    /// How often it was applied.
    pub uses: u64,
    /// The exclusive or of the words that it was applied to; 0 before the first.
    pub sum: u64,
    /// The code of the fault that its release answers, or None where that answers `Ok`.
    pub fault: Option<u32>,
}

impl Sample {
    /// A live resource with this tag, any `u64`, that was never applied. Its release answers `Ok`.
    pub fn new(tag: u64) -> Sample
        ensures { result ≡ record { tag = tag; life = Life.Live; uses = 0; sum = 0; fault = None } }
    {
        Sample {
            tag,
            life: Life::Live,
            uses: 0,
            sum: 0,
            fault: None,
        }
    }

    /// A live resource with this tag that was never applied. Its release answers the fault of this code, any `u32`.
    pub fn faulty(tag: u64, code: u32) -> Sample
        ensures { result ≡ record { tag = tag; life = Life.Live; uses = 0; sum = 0; fault = Some code } }
    {
        Sample {
            tag,
            life: Life::Live,
            uses: 0,
            sum: 0,
            fault: Some(code),
        }
    }
}

impl Resource for Sample {
    ghost tag_of = { λ s. s.tag };

    ghost life_of = { λ s. s.life };

    ghost uses_of = { λ s. s.uses };

    fn tag(&self) -> u64 {
        self.tag
    }

    fn life(&self) -> Life {
        self.life
    }

    fn uses(&self) -> u64 {
        self.uses
    }

    /// Takes the word into the exclusive or of all words, and answers that.
    fn apply(&mut self, word: u64) -> u64
        requires { self.old.uses + 1 < 2 ^ 64 }
        ensures word { result ≡ bit_xor self.old.sum word }
        ensures used { self.new
            ≡ record self.old { uses = self.old.uses + 1; sum = bit_xor self.old.sum word } }
    {
        self.uses += 1;
        self.sum ^= word;
        self.sum
    }

    /// Answers the fault that the resource was made with, if it was made with one.
    fn release(&mut self) -> Result<(), u32>
        requires live { self.old.life ≡ Life.Live }
        ensures ok { IsOk result ↔ (self.old.fault ≡ None) }
        ensures fault { IfErr result (λ code. self.old.fault ≡ Some code) }
        ensures released { self.new ≡ record self.old { life = Life.Released } }
    {
        self.life = Life::Released;
        match self.fault {
            Some(code) => Err(code),
            None => Ok(()),
        }
    }
}
