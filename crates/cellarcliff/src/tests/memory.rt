//! Memory that comes back: of engines that end or are dropped, and of lanes that are let go.

use super::bench::{Bench, DISPOSE, HOLD, LEAF, NEXT, OPEN, ROOT, Step, USING, nothing_told};
use crate::cellar_drop;
use rx_scarce::Scarce;
use std::alloc::{AllocError, Global};

// What there is of memory: so many blocks of so many bytes, each small enough for malloc to keep it.
const BLOCKS: usize = 4;

const BLOCK: usize = 100_000;

// How often an engine is made: what each takes is more than a hundred bytes.
const ENGINES: u32 = 8_000;

// How often a lane is opened in one engine.
const LANES: u32 = 100_000;

// Something of each kind that an engine keeps; the last leaves a release that waits.
static SOME: [Step; 4] = [
    (OPEN, ROOT, LEAF, 0, 3),
    (HOLD, 0, 0, 1, 7),
    (NEXT, 0, 0, 1, 5),
    (USING, ROOT, 0, 0, 8),
];

// Leaves those blocks of memory and no other, as long as what is answered is kept.
fn little_memory(alloc: Global) -> Result<Scarce, AllocError> {
    let mut blocks: Vec<Vec<u8>> = Vec::with_capacity(alloc, BLOCKS)?;
    for _ in 0..BLOCKS {
        blocks.push(Vec::with_capacity(alloc, BLOCK)?)?;
    }
    Scarce::new(alloc)
}

impl Bench {
    // Makes an engine with something in it, and finishes it, or drops it with something that waits: whether all went well.
    fn lives(&mut self, is_dropped: bool) -> Result<bool, AllocError> {
        let mut told = nothing_told();
        if self.begin(0) != 0 || self.run(&SOME, &mut told)?.is_some() {
            return Ok(false);
        }
        if !is_dropped {
            return Ok(self.finish(&mut told)? && told.releases == 2);
        }
        let status = self.step((DISPOSE, 0, 0, 1, 0))?;
        cellar_drop(self.alloc, &mut self.handle);
        Ok(status == 0)
    }

    // Whether so many engines live one behind the other with little memory.
    fn live_often(&mut self) -> Result<bool, AllocError> {
        self.keys.reserve(8)?;
        let _scarce = little_memory(self.alloc)?;
        for turn in 0..ENGINES {
            if !self.lives(turn % 2 == 0)? {
                return Ok(false);
            }
        }
        Ok(true)
    }

    // Opens a root, closes it, and serves its lane: whether all went well.
    fn open_and_close(&mut self) -> Result<bool, AllocError> {
        self.keys.clear();
        let mut told = nothing_told();
        let opened = self.step((OPEN, ROOT, LEAF, 0, 3))?;
        let closed = self.step((DISPOSE, 0, 0, 1, 0))?;
        self.serve(&mut told);
        Ok((opened, closed, told.all) == (0, 0, 1))
    }

    // Whether so many lanes are opened and let go with little memory.
    fn open_often(&mut self) -> Result<bool, AllocError> {
        self.open_and_close()?;
        let _scarce = little_memory(self.alloc)?;
        for _ in 0..LANES {
            if !self.open_and_close()? {
                return Ok(false);
            }
        }
        Ok(true)
    }
}

#[test]
fn an_engine_that_ends_or_is_dropped_gives_its_memory_back(rt: HostRuntime) {
    let mut bench = Bench::new(rt.alloc());
    let went_well = bench.live_often();
    bench.close();
    assert_eq!(rt; went_well, Ok(true));
}

#[test]
fn a_lane_that_is_let_go_gives_its_room_back(rt: HostRuntime) {
    let mut bench = Bench::new(rt.alloc());
    bench.begin(0);
    let went_well = bench.open_often();
    bench.close();
    assert_eq!(rt; went_well, Ok(true));
}
