//! Memory that is made scarce, and given back.

use crate::same::same;
use rx_scarce::{MOST_BLOCKS, Scarce};
use std::alloc::{AllocError, Global};
use std::test::Fail;

static SIZES: [usize; 6] = [1, 48, 64, 1000, 65_536, 1 << 30];

// How many of `SIZES` can be had, one after the other.
fn sizes_had(alloc: Global) -> u32 {
    let mut had = 0u32;
    for size in SIZES {
        let block: Result<Vec<u8>, AllocError> = Vec::with_capacity(alloc, size);
        if block.is_ok() {
            had = had.wrapping_add(1);
        }
    }
    had
}

// Gives blocks back until none is left. How many there were.
fn give_all_back(scarce: &mut Scarce) -> usize {
    for given in 0..MOST_BLOCKS {
        if !scarce.give_back_one() {
            return given;
        }
    }
    MOST_BLOCKS
}

#[test]
fn no_request_is_met_until_blocks_are_given_back(rt: HostRuntime) -> Result<(), Fail> {
    let mut scarce = Scarce::new(rt.alloc())?;
    same(&rt, sizes_had(rt.alloc()), 0);
    let blocks = scarce.block_count();
    same(&rt, give_all_back(&mut scarce), blocks);
    same(&rt, sizes_had(rt.alloc()), 6);
    Ok(())
}
