//! The resources that the program has in its stock.

ghost use Rattle.std.specs.Prelude.{◌≡◌, ◌+◌, ◌<◌, ◌^◌, IfOk, map, vec_len, bit_xor};
ghost use Rattle.std.specs.List.{All, range_with_len};
ghost use Rattle.rx_resource.specs.declared.Life.{Life};
ghost use Rattle.rx_script.specs.Boxes.{Box, kind_of_tag, fresh_by, word_answered, release_of};

use rx_resource::{Life, Resource};
use std::alloc::{AllocError, Global};
use std::marker::Model;

/// How many resources the program's stock has.
pub const STOCK: u64 = 256;

/// The kinds of resource in the program's stock.
#[derive(Clone, Copy, Debug, PartialEq, Eq)]
pub enum ResourceKind {
    /// It answers each word as it came, and its release meets no fault.
    Plain,
    /// It keeps the exclusive or of all its words and answers it, and its release meets no fault.
    Tally,
    /// It answers each word as it came, and its release meets the fault of code 2. It is released all the same.
    Faulty,
}

impl ResourceKind {
    /// The kind of the stock's resource with this tag: `Faulty` where the tag modulo 8 is 3, `Tally`
    /// where it is 5, else `Plain`.
    pub fn by_tag(tag: u64) -> ResourceKind
        ensures { result ≡ kind_of_tag tag }
    {
        match tag % 8 {
            3 => ResourceKind::Faulty,
            5 => ResourceKind::Tally,
            _ => ResourceKind::Plain,
        }
    }
}

/// A resource of the program's stock, of the kind of its tag.
#[derive(Drop)]
pub struct Stocked {
    tag: u64,
    life: Life,
    uses: u64,
    // The exclusive or of all words that it was applied to.
    sum: u64,
}

impl Model for Stocked {
    ghost Value = { Box };

    ghost view = { λ s. record { tag = s.tag; life = s.life; uses = s.uses; sum = s.sum } };
}

impl Stocked {
    /// The stock's resource with this tag, any `u64`: live and never applied, of the kind that
    /// [`ResourceKind::by_tag`] says.
    pub fn by_tag(tag: u64) -> Stocked
        ensures { result ≡ fresh_by tag }
    {
        Stocked {
            tag,
            life: Life::Live,
            uses: 0,
            sum: 0,
        }
    }
}

impl Resource for Stocked {
    ghost tag_of = { λ s. s.tag };

    ghost life_of = { λ s. s.life };

    ghost uses_of = { λ s. s.uses };

    fn tag(&self) -> u64 {
        self.tag
    }

    fn life(&self) -> Life {
        self.life
    }

    fn uses(&self) -> u64 {
        self.uses
    }

    /// Answers the exclusive or of all its words where the kind is `Tally`, else the word.
    fn apply(&mut self, word: u64) -> u64
        requires { self.old.uses + 1 < 2 ^ 64 }
        ensures word { result ≡ word_answered (kind_of_tag self.old.tag) self.old.sum word }
        ensures applied { self.new ≡ record self.old { uses = self.old.uses + 1; sum = bit_xor self.old.sum word } }
    {
        self.uses += 1;
        self.sum ^= word;
        match ResourceKind::by_tag(self.tag) {
            ResourceKind::Tally => self.sum,
            ResourceKind::Plain | ResourceKind::Faulty => word,
        }
    }

    /// Answers the fault of code 2 where the kind is `Faulty`, else `Ok`.
    fn release(&mut self) -> Result<(), u32>
        requires live { self.old.life ≡ Life.Live }
        ensures answer { result ≡ release_of (kind_of_tag self.old.tag) }
        ensures released { self.new ≡ record self.old { life = Life.Released } }
    {
        self.life = Life::Released;
        match ResourceKind::by_tag(self.tag) {
            ResourceKind::Faulty => Err(2),
            ResourceKind::Plain | ResourceKind::Tally => Ok(()),
        }
    }
}

// A fresh resource for each tag from 0 up to 255, in order.
fn fresh_ones(alloc: Global) -> Result<Vec<Stocked>, AllocError>
    ensures fresh { IfOk result (λ v. v.items ≡ map fresh_by (range_with_len 0 256)) }
    ensures count { IfOk result (λ v. vec_len v ≡ 256) }
{
    (0..STOCK).map(Stocked::by_tag).collect(alloc)
}

/// The program's stock: a fresh resource for each tag from 0 up to 255, in order, each of the kind of
/// its tag.
///
/// Err comes where memory is refused for the list.
#[tactic(auto, using(crate::proofs::StockIsUnused::all_live, crate::proofs::StockIsUnused::all_unused))]
pub fn stock(alloc: Global) -> Result<Vec<Stocked>, AllocError>
    ensures fresh { IfOk result (λ v. v.items ≡ map fresh_by (range_with_len 0 256)) }
    ensures count { IfOk result (λ v. vec_len v ≡ 256) }
    ensures live { IfOk result (λ v. All (λ s. s.life ≡ Life.Live) v.items) }
    ensures unused { IfOk result (λ v. All (λ s. s.uses ≡ 0) v.items) }
{
    let made = fresh_ones(alloc)?;
    Ok(made)
}
