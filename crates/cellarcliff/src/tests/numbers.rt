//! Words, tags, values and callers of all 64 bits come back as they went in.

use super::bench::{Bench, COMPLETE, HOLD, LEAF, NEXT, OPEN, ROOT};
use rx_cellar::Effect;
use std::alloc::AllocError;

const LARGE: [u64; 5] = [
    0,
    4_294_967_296,
    9_223_372_036_854_775_808,
    18_446_744_073_709_551_614,
    u64::MAX,
];

// An effect in numbers.
type Shown = (u32, u64, u64, u64, u32);

fn shown(effect: Effect) -> Shown {
    (
        effect.kind,
        effect.user,
        effect.value,
        effect.by,
        effect.carries,
    )
}

impl Bench {
    // Begins what the turn was handed, and asks for more.
    fn heard(&mut self) -> Shown {
        let it = shown(self.step.effect);
        let is_handed = self.step.handed == 1;
        self.stack.begun = self.step.ticket;
        self.next();
        if is_handed { it } else { (9, 0, 0, 0, 9) }
    }

    // A root with this word and a resource with this tag hears this item and completes, all by this stack: the item, the end
    // and the release.
    fn hears(&mut self, number: u64) -> Result<[Shown; 3], AllocError> {
        self.keys.clear();
        self.stack.by = number;
        for what in [OPEN, HOLD, NEXT] {
            let node = if what == OPEN { 0 } else { 1 };
            self.step((what, ROOT, LEAF, node, number))?;
        }
        let item = self.heard();
        self.step((COMPLETE, 0, 0, 1, 0))?;
        let end = self.heard();
        let release = self.heard();
        Ok([item, end, release])
    }
}

#[test]
fn numbers_of_all_64_bits_come_back(rt: HostRuntime) {
    let mut bench = Bench::new(rt.alloc());
    bench.begin(0);
    let mut heard = [Ok([(9, 0, 0, 0, 9); 3]); 5];
    for (at, number) in LARGE.iter().enumerate() {
        heard[at] = bench.hears(*number);
    }
    let totals = bench.totals();
    bench.close();
    for (at, number) in LARGE.iter().enumerate() {
        let it = *number;
        let wanted = [(0, it, it, it, 1), (2, it, 0, it, 0), (5, it, 0, it, 0)];
        assert_eq!(rt; heard[at], Ok(wanted), "at {at}");
    }
    assert_eq!(rt; (totals.accepted, totals.taken), (5, 5));
}
