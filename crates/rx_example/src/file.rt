//! The resource of this program.

ghost use Rattle.rx_resource.specs.declared.Life.{Life};

use rx_book::{Life, Resource};

/// A stand-in for an open file, which counts what is written to it.
#[derive(Drop)]
pub struct File {
    descriptor: u64,
    life: Life,
    writes: u64,
}

impl File {
    /// Opens the file of this descriptor, any `u64`.
    pub fn open(descriptor: u64) -> File {
        File {
            descriptor,
            life: Life::Live,
            writes: 0,
        }
    }
}

impl Resource for File {
    ghost tag_of = { λ f. f.descriptor };

    ghost life_of = { λ f. f.life };

    ghost uses_of = { λ f. f.writes };

    fn tag(&self) -> u64 {
        self.descriptor
    }

    fn life(&self) -> Life {
        self.life
    }

    fn uses(&self) -> u64 {
        self.writes
    }

    fn apply(&mut self, word: u64) -> u64 {
        self.writes += 1;
        word
    }

    fn release(&mut self) -> Result<(), u32> {
        self.life = Life::Released;
        Ok(())
    }
}
