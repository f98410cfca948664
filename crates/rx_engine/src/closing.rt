//! What is open is let go of, one after another.

ghost use Rattle.rx_engine.specs.LettingGo.{IsClosingMade};

use crate::engine::Engine;
use rx_book::{Refusal, Resource};
use rx_resource::Token;

impl Engine {
    /// Lets go of one thing: gives back the oldest lease that is out; or else disposes of the oldest open root; or
    /// else disconnects the oldest hub that is connected by hand. Each is the command of that name, with its effects
    /// and its closings, so a caller who ends an engine repeats this, and serves what each answers, until it is
    /// refused: `Gone` exactly where nothing is open and no lease is out, and then nothing is held. It takes no
    /// memory.
    pub fn close_next(&mut self, by: u64) -> Result<(), Refusal>
        ensures { IsClosingMade ⟦<Token as Resource>⟧ by self.old self.new result }
    {
        self.book.promise();
        match self.book.open_lease() {
            Some(lease) => self.give_back(lease, by),
            None => match self.book.open_root() {
                Some(root) => self.dispose(root, by),
                None => match self.book.open_manual() {
                    Some(hub) => self.disconnect(hub, by),
                    None => Err(Refusal::Gone),
                },
            },
        }
    }
}
