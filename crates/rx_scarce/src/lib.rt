//! Refused memory, for tests.
//!
//! [`Scarce`] takes the memory that is left, block by block, until every request is refused, and
//! gives it back one block at a time. A test holds one, makes its call, looks at the refusal, gives
//! one block back and makes the call again, until the call succeeds: so it sees the call refused at
//! many of the places where it asks for memory. A call that needs no memory is shown by the same
//! means, with nothing given back.
//!
//! A contract sees a [`Scarce`] as the number of blocks that it holds.
//!
//! Proved: how that number changes, and when a block is given back. Not proved, since no contract
//! can say what memory is left: that a request is then refused. The tests of this crate show it.
#![tactic(auto)]

ghost use Rattle.std.specs.Prelude.{◌≡◌, ℕ, ◌-◌, ◌<◌, ◌≤◌, ◌↔◌, IsTrue, IfOk, OnOk, OnErr, vec_len};
ghost use Rattle.rx_scarce.specs.declared.TheConstants.{MOST_BLOCKS};

use std::alloc::{AllocError, Global};
use std::marker::Model;

/// How many blocks are enough to say that memory is not scarce: a [`Scarce`] holds fewer.
pub const MOST_BLOCKS: usize = 100_000;

// The binary logarithm of the first request in bytes, half of what a process can address.
const LARGEST_POWER: u32 = 46;

// The allocator may keep freed blocks of up to 65 units of 16 bytes in a list for each of those sizes.
const LISTED_POWER: u32 = 10;

const LISTED_UNITS: usize = 65;

const UNIT: usize = 16;

/// Memory that was taken so that no more is left; dropping it frees all of it.
///
/// Its limits:
///
/// - It refuses by exhaustion, so it does not refuse exactly each n-th allocation in turn: two
///   allocations that one given back block serves both are refused together.
/// - It rests on the operating system: on the limit of a process's address space, and on large
///   blocks that cost no memory until they are written.
/// - It speaks of the thread that made it. A thread that runs already may keep memory of its own.
/// - It takes what `Global` gives, so a test that has its own allocator needs another means.
/// - It does not work under an address sanitizer, as `rt try --test` has one; run such a test by
///   `rt test` or `rt ci`.
#[derive(Drop)]
pub struct Scarce {
    blocks: Vec<Vec<u8>>,
}

impl Model for Scarce {
    ghost Value = { ℕ };

    ghost view = { λ s. vec_len s.blocks };

    ghost invariant = { λ s. vec_len s.blocks < MOST_BLOCKS };
}

impl Scarce {
    /// Takes memory until every request is refused, the largest blocks first.
    ///
    /// Err where the list of blocks cannot be had, where no block could be taken, and where memory
    /// is left once [`MOST_BLOCKS`] are taken; all that was taken is then free again.
    pub fn new(alloc: Global) -> Result<Scarce, AllocError>
        ensures ok { IfOk result (λ blocks. 0 < blocks) }
        ensures below { IfOk result (λ blocks. blocks < MOST_BLOCKS) }
    {
        let mut blocks = Vec::with_capacity(alloc, MOST_BLOCKS)?;
        for power in (LISTED_POWER..=LARGEST_POWER).rev() {
            take_all(alloc, &mut blocks, 1 << power)?;
        }
        for units in (1..=LISTED_UNITS).rev() {
            take_all(alloc, &mut blocks, units * UNIT)?;
        }
        if blocks.is_empty() {
            return Err(AllocError);
        }
        Ok(Scarce { blocks })
    }

    /// The number of blocks that are held.
    pub fn block_count(&self) -> usize
        ensures count { result ≡ self.now }
        ensures below { result < MOST_BLOCKS }
    {
        self.blocks.len()
    }

    /// Frees the block that was taken last, a small one before a large one; false where none is left.
    pub fn give_back_one(&mut self) -> bool
        ensures given { IsTrue result ↔ (0 < self.old) }
        ensures fewer { self.new ≡ self.old - 1 }
    {
        self.blocks.pop().is_some()
    }
}

// Takes blocks of one size until memory is refused; Err where the list has no room for a further one.
fn take_all(alloc: Global, blocks: &mut Vec<Vec<u8>>, size: usize) -> Result<(), AllocError>
    requires { vec_len blocks.old ≤ MOST_BLOCKS }
    ensures ok { OnOk result (vec_len blocks.new < MOST_BLOCKS) }
    ensures err { OnErr result (vec_len blocks.new ≤ MOST_BLOCKS) }
{
    while blocks.len() < MOST_BLOCKS {
        match Vec::with_capacity(alloc, size) {
            Ok(block) => blocks.push(block)?,
            Err(AllocError) => return Ok(()),
        }
    }
    Err(AllocError)
}
