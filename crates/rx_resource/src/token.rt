//! What a book holds in the place of a resource that its caller keeps.

ghost use Rattle.std.specs.Prelude.{◌≡◌, ◌+◌, ◌<◌, ◌^◌, IsOk};
ghost use Rattle.rx_resource.specs.declared.Life.{Life};

use crate::{Life, Resource};

/// It stands for a resource that the caller keeps, and has the caller's number for it. Its release hands out
/// nothing: once it was taken, the caller releases what it stands for.
#[derive(Drop)]
pub struct Token {
    /// The caller's number.
    pub tag: u64,
    /// Whether it was taken.
    pub life: Life,
    /// How often it was used.
    pub uses: u64,
}

impl Token {
    /// A live one that was never used.
    pub fn new(tag: u64) -> Token
        ensures { result ≡ record { tag = tag; life = Life.Live; uses = 0 } }
    {
        Token {
            tag,
            life: Life::Live,
            uses: 0,
        }
    }
}

impl Resource for Token {
    ghost tag_of = { λ t. t.tag };

    ghost life_of = { λ t. t.life };

    ghost uses_of = { λ t. t.uses };

    fn tag(&self) -> u64 {
        self.tag
    }

    fn life(&self) -> Life {
        self.life
    }

    fn uses(&self) -> u64 {
        self.uses
    }

    /// Answers the word.
    fn apply(&mut self, word: u64) -> u64
        requires { self.old.uses + 1 < 2 ^ 64 }
        ensures word { result ≡ word }
        ensures used { self.new ≡ record self.old { uses = self.old.uses + 1 } }
    {
        self.uses += 1;
        word
    }

    /// Answers no fault.
    fn release(&mut self) -> Result<(), u32>
        requires live { self.old.life ≡ Life.Live }
        ensures no_fault { IsOk result }
        ensures released { self.new ≡ record self.old { life = Life.Released } }
    {
        self.life = Life::Released;
        Ok(())
    }
}
