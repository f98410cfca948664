//! Each call of a face once: a step, a pass from within an effect, a stop in the midst, and the closings of a command.

use super::bench::{Bench, DISPOSE, LEAF, NEXT, OPEN, ROOT, nothing_told};
use crate::{cellar_closings, cellar_pass, cellar_stop};
use rx_cellar::Command;
use std::alloc::AllocError;

// What a step hands out: whether there is something, whether it is the item of its own command, its ticket, and its value.
type Handed = (u64, u64, u64, u64);

const NOTHING: Handed = (0, 0, 0, 0);

impl Bench {
    // What the last step handed out, which is begun.
    fn begun(&mut self) -> Handed {
        if self.step.handed == 0 {
            return NOTHING;
        }
        self.stack.begun = self.step.ticket;
        (
            self.step.handed,
            self.step.own,
            self.step.ticket,
            self.step.effect.value,
        )
    }

    fn then(&mut self) -> Handed {
        self.next();
        self.begun()
    }

    // While an item is told, another call emits one more, and passes.
    fn pass_on(&mut self) -> Result<[Handed; 5], AllocError> {
        self.step((OPEN, ROOT, LEAF, 0, 3))?;
        self.step((NEXT, 0, 0, 1, 11))?;
        let first = self.begun();
        self.stack.depth = 2;
        self.step((NEXT, 0, 0, 1, 12))?;
        let waits = self.begun();
        cellar_pass(self.alloc, &mut self.handle, &self.stack, 1, 1);
        let second = self.then();
        let no_more = self.then();
        self.stack.depth = 1;
        Ok([first, waits, second, no_more, self.then()])
    }

    // An item is handed out, once more since it was not begun, and then anew behind a stop.
    fn stop_in_the_midst(&mut self) -> Result<[Handed; 4], AllocError> {
        self.step((NEXT, 0, 0, 1, 13))?;
        let first = (self.step.handed, self.step.own, self.step.ticket, 13);
        self.next();
        let again = (self.step.handed, self.step.own, self.step.ticket, 13);
        cellar_stop(self.alloc, &mut self.handle, &self.stack);
        let anew = self.then();
        Ok([first, again, anew, self.then()])
    }

    // The words of closed nodes, of one that wished to be heard of.
    fn closings(&mut self) -> Result<(u64, u64, [u64; 2]), AllocError> {
        self.keys.clear();
        let command = Command {
            flags: 1,
            ..self.command((OPEN, ROOT, LEAF, 0, 21))
        };
        self.make(&command)?;
        self.step((DISPOSE, 0, 0, 1, 0))?;
        let (mut words, mut count) = ([0, 9], 0);
        cellar_closings(self.alloc, &mut self.handle, 0, &mut words, &mut count);
        Ok((self.step.closed, count, words))
    }
}

#[test]
fn a_call_from_within_an_effect_passes_and_goes_on(rt: HostRuntime) {
    let mut bench = Bench::new(rt.alloc());
    bench.begin(0);
    let passed = bench.pass_on();
    bench.close();
    let wanted = [(1, 1, 1, 11), NOTHING, (1, 0, 2, 12), NOTHING, NOTHING];
    assert_eq!(rt; passed, Ok(wanted));
}

#[test]
fn what_was_not_begun_comes_again(rt: HostRuntime) {
    let mut bench = Bench::new(rt.alloc());
    bench.begin(0);
    let opened = bench.step((OPEN, ROOT, LEAF, 0, 3));
    let stopped = bench.stop_in_the_midst();
    bench.close();
    let wanted = [(1, 1, 1, 13), (1, 0, 1, 13), (1, 0, 2, 13), NOTHING];
    assert_eq!(rt; (opened, stopped), (Ok(0), Ok(wanted)));
}

#[test]
fn the_words_of_closed_nodes_are_told(rt: HostRuntime) {
    let mut bench = Bench::new(rt.alloc());
    bench.begin(0);
    let closings = bench.closings();
    let mut told = nothing_told();
    bench.serve(&mut told);
    let is_over = bench.finish(&mut told);
    bench.close();
    assert_eq!(rt; closings, Ok((1, 1, [21, 9])));
    assert_eq!(rt; (is_over, told.all), (Ok(true), 1));
}
