//! A source of as many items as one wants, and then an end.

ghost use Rattle.std.specs.Prelude.{◌≡◌, false, [], if◌then◌else◌};
ghost use Rattle.rx_book_tests.specs.Ticks.{ticks};

use rx_crew::{Pull, Source};
use rx_event::Terminal;

// Gives 5 so many times, and then this end.
#[derive(Drop)]
pub(super) struct Ticks {
    left: u32,
    terminal: Terminal,
    is_done: bool,
}

impl Ticks {
    pub(super) fn of(count: u32, terminal: Terminal) -> Ticks
        ensures { (result.left ≡ count) × (result.terminal ≡ terminal) × (result.is_done ≡ false) }
    {
        Ticks {
            left: count,
            terminal,
            is_done: false,
        }
    }
}

impl Source for Ticks {
    ghost pulls = { λ s. if s.is_done then [] else ticks s.terminal s.left };

    fn pull(&mut self) -> Pull {
        if self.left == 0 {
            self.is_done = true;
            return Pull::Done(self.terminal);
        }
        self.left -= 1;
        Pull::Item(5)
    }
}
