//! Each request of each command for memory is refused, where the room of the engine's lists is used up: the command answers
//! so, and nothing changes, and the same command goes through once there is memory; and what ends, closes and serves is done
//! where none is left.

use super::bench::{
    ABORT, APPLY, Bench, COMPLETE, CONNECT, DECLINE, DISCONNECT, DISPOSE, ERROR, FAIL, FLAT,
    GIVE_BACK, HOLD, INNER, LEAF, LEASE, NEXT, NOTIFIER, OPEN, PASS, PUT, REMOVE, ROOT, SHARED,
    SHUT, SOURCE, SWITCH, Step, Told, UNTIL, USING, nothing_told,
};
use crate::cellar_stop;
use rx_cellar::Totals;
use rx_scarce::{MOST_BLOCKS, Scarce};
use std::alloc::AllocError;

// A node and a resource of it.
static FIRST: [Step; 2] = [(OPEN, ROOT, LEAF, 0, 9), (HOLD, 0, 0, 1, 99)];

// What uses up room, at these two.
static FILLERS: [Step; 3] = [
    (OPEN, ROOT, LEAF, 0, 9),
    (HOLD, 0, 0, 1, 104),
    (APPLY, 0, 0, 2, 0),
];

// Commands behind these on one engine, and whether each asks for memory where the room is used up.
static COMMANDS: [(bool, Step); 54] = [
    (true, (OPEN, ROOT, FLAT, 0, 1)),
    (true, (OPEN, SOURCE, LEAF, 3, 0)),
    (true, (NEXT, 0, 0, 4, 11)),
    (true, (USING, INNER, PASS, 3, 101)),
    (true, (OPEN, SOURCE, LEAF, 5, 0)),
    (true, (HOLD, 0, 0, 7, 102)),
    (true, (NEXT, 0, 0, 7, 12)),
    (true, (APPLY, 0, 0, 8, 0)),
    (true, (LEASE, 0, 0, 8, 0)),
    (true, (LEASE, 0, 0, 6, 0)),
    (false, (GIVE_BACK, 0, 0, 9, 0)),
    (false, (REMOVE, 0, 0, 8, 0)),
    (false, (COMPLETE, 0, 0, 7, 0)),
    (true, (NEXT, 0, 0, 4, 13)),
    (false, (DECLINE, 0, 0, 3, 0)),
    (true, (NEXT, 0, 0, 4, 14)),
    (false, (PUT, 0, 0, 3, 15)),
    (false, (FAIL, 0, 0, 3, 3)),
    (true, (OPEN, ROOT, UNTIL, 0, 2)),
    (true, (OPEN, SOURCE, LEAF, 11, 0)),
    (true, (OPEN, NOTIFIER, LEAF, 11, 0)),
    (true, (HOLD, 0, 0, 11, 103)),
    (true, (NEXT, 0, 0, 13, 16)),
    (true, (OPEN, ROOT, SHARED, 0, 77)),
    (true, (OPEN, ROOT, SHARED, 0, 77)),
    (true, (OPEN, SOURCE, LEAF, 16, 0)),
    (true, (NEXT, 0, 0, 18, 17)),
    (false, (DISPOSE, 0, 0, 15, 0)),
    (true, (CONNECT, 0, 0, 0, 78)),
    (false, (DISCONNECT, 0, 0, 0, 78)),
    (true, (OPEN, ROOT, SWITCH, 0, 4)),
    (false, (ABORT, 0, 0, 20, 5)),
    (true, (OPEN, ROOT, PASS, 0, 8)),
    (true, (OPEN, ROOT, LEAF, 0, 6)),
    (false, (ERROR, 0, 0, 22, 5)),
    (false, (GIVE_BACK, 0, 0, 10, 0)),
    (true, (OPEN, ROOT, FLAT, 0, 21)),
    (true, (OPEN, SOURCE, LEAF, 23, 0)),
    (true, (NEXT, 0, 0, 24, 1)),
    (true, (NEXT, 0, 0, 24, 2)),
    (true, (NEXT, 0, 0, 24, 3)),
    (true, (USING, INNER, PASS, 23, 121)),
    (true, (USING, INNER, PASS, 23, 122)),
    (true, (USING, INNER, PASS, 23, 123)),
    (false, (ABORT, 0, 0, 27, 9)),
    (true, (OPEN, ROOT, UNTIL, 0, 31)),
    (true, (OPEN, SOURCE, SHARED, 31, 79)),
    (true, (OPEN, NOTIFIER, SHARED, 31, 79)),
    (true, (OPEN, SOURCE, LEAF, 33, 0)),
    (false, (COMPLETE, 0, 0, 35, 0)),
    (true, (OPEN, ROOT, SHARED, 0, 80)),
    (true, (OPEN, SOURCE, SHARED, 37, 81)),
    (false, (DISPOSE, 0, 0, 36, 0)),
    (false, (SHUT, 0, 0, 0, 0)),
];

fn is_same(a: Totals, b: Totals) -> bool {
    a.nodes == b.nodes
        && a.held == b.held
        && a.waiting == b.waiting
        && a.leases == b.leases
        && a.accepted == b.accepted
        && a.taken == b.taken
        && a.effects == b.effects
}

impl Bench {
    // Whether the last answer tells nothing.
    fn tells_nothing(&self) -> bool {
        let it = &self.step;
        it.copies == 0 && it.closed == 0 && it.handed == 0 && it.is_connected == 0
    }

    // Makes the command again and again, each time with one more block of memory, until it is answered otherwise than for
    // want of it; answers that. None where a refused command changed or told something.
    fn made_at_last(&mut self, step: Step, scarce: &mut Scarce) -> Option<u8> {
        let before = self.totals();
        for _ in 0..MOST_BLOCKS {
            let status = self.step(step).unwrap_or(4);
            if status != 4 {
                return Some(status);
            }
            if !self.tells_nothing() || !is_same(self.totals(), before) || !scarce.give_back_one() {
                return None;
            }
        }
        None
    }

    // Makes a command again and again: whether it is refused for want of memory at last.
    fn is_refused_at_last(&mut self, step: Step) -> bool {
        let command = self.command(step);
        for _ in 0..MOST_BLOCKS {
            let status = self.make_once(&command);
            if status != 0 {
                return status == 4;
            }
        }
        false
    }

    // Uses up the room: whether each of the fillers is refused at last.
    fn is_filled(&mut self) -> bool {
        for step in &FILLERS {
            if !self.is_refused_at_last(*step) {
                return false;
            }
        }
        true
    }

    // Makes a command where no memory is left and the room is used up: whether it was done, and refused before that if, and
    // only if, it asks for some.
    fn is_made(&mut self, asks: bool, step: Step) -> Result<bool, AllocError> {
        self.keys.reserve(2)?;
        let mut scarce = Scarce::new(self.alloc)?;
        let is_filled = self.is_filled();
        let blocks = scarce.block_count();
        let status = self.made_at_last(step, &mut scarce);
        let is_refused = scarce.block_count() < blocks;
        Ok(is_filled && status == Some(0) && is_refused == asks)
    }

    // The number of the first of these that did not go through.
    fn first_stuck(
        &mut self,
        steps: &[(bool, Step)],
        told: &mut Told,
    ) -> Result<Option<usize>, AllocError> {
        for (at, (asks, step)) in steps.iter().enumerate() {
            if !self.is_made(*asks, *step)? {
                return Ok(Some(at));
            }
            self.serve(told);
        }
        Ok(None)
    }
}

impl Bench {
    // Makes the commands on an engine of such a history: the number of the first that did not go as its row says, whether each
    // resource that was accepted was told once, and whether nothing was left.
    fn seen(&mut self, max_events: u32) -> Result<(Option<usize>, bool, bool), AllocError> {
        let mut told = nothing_told();
        self.begin(max_events);
        self.run(&FIRST, &mut told)?;
        let stuck = self.first_stuck(&COMMANDS, &mut told)?;
        let accepted = self.totals().accepted;
        let is_over = self.finish(&mut told)?;
        Ok((stuck, told.releases == accepted, is_over))
    }
}

#[test]
fn a_command_that_is_refused_memory_changes_nothing_and_goes_through_later(rt: HostRuntime) {
    let mut bench = Bench::new(rt.alloc());
    let seen = bench.seen(0);
    bench.close();
    assert_eq!(rt; seen, Ok((None, true, true)));
}

// Less than the commands write, so that checkpoints are made between them.
const FEW_EVENTS: u32 = 400;

#[test]
fn commands_go_so_over_checkpoints_too(rt: HostRuntime) {
    let mut bench = Bench::new(rt.alloc());
    let seen = bench.seen(FEW_EVENTS);
    bench.close();
    assert_eq!(rt; seen, Ok((None, true, true)));
}

impl Bench {
    // What the last step handed out.
    fn handed(&self) -> (u64, u32, u64) {
        (
            self.step.effect.user,
            self.step.effect.kind,
            self.step.handed,
        )
    }

    // Stops in the midst where no memory is left, and goes on: what was handed out before that, and behind it.
    fn handed_twice(&mut self) -> Result<[(u64, u32, u64); 2], AllocError> {
        let _scarce = Scarce::new(self.alloc)?;
        let first = self.handed();
        cellar_stop(self.alloc, &mut self.handle, &self.stack);
        self.next();
        Ok([first, self.handed()])
    }
}

#[test]
fn what_is_not_begun_comes_again_without_memory(rt: HostRuntime) {
    let mut bench = Bench::new(rt.alloc());
    bench.begin(0);
    let mut told = nothing_told();
    let stuck = bench.run(&[(USING, ROOT, PASS, 0, 9)], &mut told);
    let done = bench.step((DISPOSE, 0, 0, 1, 0));
    let handed = bench.handed_twice();
    bench.close();
    assert_eq!(rt; (stuck, done), (Ok(None), Ok(0)));
    // the root was closed without an end; the release comes behind that
    assert_eq!(rt; handed, Ok([(9, 4, 1), (9, 4, 1)]));
}
