//! Many nodes, many lanes of one command, many checkpoints.

use super::bench::{
    Bench, DISPOSE, HOLD, LEAF, NEXT, OPEN, ROOT, SHARED, SOURCE, Told, nothing_told,
};
use crate::cellar_event;
use rx_cellar::no_event;
use std::alloc::AllocError;

// How many subscribe to one share.
const MANY: u64 = 1_200;

// What the history of a small engine may have.
const EVENTS: u32 = 24;

impl Bench {
    // So many subscribe to a share, its source emits one item, and all is closed: the copies, and whether nothing was left.
    fn share(&mut self, told: &mut Told) -> Result<(u64, bool), AllocError> {
        self.step((OPEN, ROOT, SHARED, 0, 77))?;
        let connection = self.step.other;
        for _ in 1..MANY {
            self.step((OPEN, ROOT, SHARED, 0, 77))?;
        }
        self.keys.push(connection)?;
        let above = self.keys.len();
        self.step((OPEN, SOURCE, LEAF, above, 0))?;
        let leaf = self.keys.len();
        self.step((NEXT, 0, 0, leaf, 5))?;
        let copies = self.step.copies;
        self.serve(told);
        Ok((copies, self.finish(told)?))
    }

    // Items past the room of a small history: whether each was told.
    fn emit_often(&mut self, told: &mut Told) -> Result<bool, AllocError> {
        self.step((OPEN, ROOT, LEAF, 0, 3))?;
        self.step((HOLD, 0, 0, 1, 7))?;
        for value in 0..20 * EVENTS as u64 {
            let status = self.step((NEXT, 0, 0, 1, value))?;
            let is_told = self.step.handed == 1 && self.step.effect.value == value;
            if status != 0 || !is_told {
                return Ok(false);
            }
            self.serve(told);
        }
        Ok(self.step((DISPOSE, 0, 0, 1, 0))? == 0)
    }
}

#[test]
fn an_item_is_told_to_each_of_many_subscribers(rt: HostRuntime) {
    let mut bench = Bench::new(rt.alloc());
    bench.begin(0);
    let mut told = nothing_told();
    let shared = bench.share(&mut told);
    bench.close();
    assert_eq!(rt; shared, Ok((MANY, true)));
    // an item and a last effect for each
    assert_eq!(rt; (told.all, told.carried), (2 * MANY, MANY));
}

#[test]
fn a_small_history_is_begun_again_many_times(rt: HostRuntime) {
    let mut bench = Bench::new(rt.alloc());
    bench.begin(EVENTS);
    let mut told = nothing_told();
    let went_well = bench.emit_often(&mut told);
    bench.serve(&mut told);
    let totals = bench.totals();
    let mut event = no_event();
    let first = cellar_event(bench.alloc, &mut bench.handle, 0, &mut event);
    let is_over = bench.finish(&mut told);
    bench.close();
    assert_eq!(rt; (went_well, is_over), (Ok(true), Ok(true)));
    // each item, the last effect and the release
    assert_eq!(rt;
        (told.all, told.releases, first),
        (20 * EVENTS as u64 + 2, 1, 2)
    );
    assert!(rt; totals.events > 20 * EVENTS as u64);
}
