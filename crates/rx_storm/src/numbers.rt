//! The source of a feeding thread.

ghost use Rattle.std.specs.Prelude.{◌≡◌, ◌+◌, ◌<◌, ◌^◌, false, [], if◌then◌else◌};
ghost use Rattle.rx_storm.specs.Storms.{count_up};

use rx_crew::{Pull, Source};
use rx_event::Terminal;

/// Gives the numbers from 0 up, so many of them, and then completes.
#[derive(Drop)]
pub struct Numbers {
    next: u32,
    left: u32,
    is_done: bool,
    ghost fits: { next + left < 2 ^ 32 },
}

impl Numbers {
    /// The source of the numbers below this one.
    pub fn below(count: u32) -> Numbers
        ensures { (result.next ≡ 0) × (result.left ≡ count) × (result.is_done ≡ false) }
    {
        Numbers {
            next: 0,
            left: count,
            is_done: false,
        }
    }
}

impl Source for Numbers {
    ghost pulls = { λ s. if s.is_done then [] else count_up s.next s.left };

    fn pull(&mut self) -> Pull {
        if self.left == 0 {
            self.is_done = true;
            return Pull::Done(Terminal::Completed);
        }
        let value = self.next;
        self.left -= 1;
        self.next += 1;
        Pull::Item(i64::from(value))
    }
}
