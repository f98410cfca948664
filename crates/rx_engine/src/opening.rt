//! Opening a node.

ghost use Rattle.std.specs.Prelude.{◌≡◌, true};
ghost use Rattle.rx_engine.specs.Openings.{connects_none, IsOpenMade};

use crate::engine::Engine;
use crate::parts::User;
use crate::settling::settle;
use rx_book::{At, Key, Kind, Refusal, Resource};
use rx_resource::Token;

impl Engine {
    /// Opens a node, which is no subscriber of a hub. An inner of a Switch takes the place of the one that is open:
    /// what was closed with it ends in this command, and what it held is released. Below another it has that node's lane; a root has
    /// a lane of its own, or that which the face asks for. What it projects goes into a new one. Refused as the book
    /// refuses, with `Gone` also where the node is not open, or projects nothing, whose lane is asked for; or for
    /// want of memory, before the book's causes but `Gone`.
    pub fn open(&mut self, at: At, kind: Kind, user: User, by: u64) -> Result<Key, Refusal>
        requires alone { connects_none kind ≡ true }
        ensures { IsOpenMade ⟦<Token as Resource>⟧ at kind user by self.old self.new result }
    {
        self.book.promise();
        let Some(home) = self.home_of(at, user.lane) else {
            return Err(Refusal::Gone);
        };
        if !self.parts.make_room(2) {
            return Err(Refusal::NoMemory);
        }
        if !self.wishes.make_room() {
            return Err(Refusal::NoMemory);
        }
        match self.book.open(at, kind) {
            Ok(opened) => {
                let number = opened.key.number;
                let _lane = self.parts.enter(at, kind, number, user.word, home);
                self.wishes.wish(number, user);
                settle(&mut self.book, &mut self.parts, &mut self.wishes, by, 0);
                Ok(opened.key)
            }
            Err(why) => Err(why),
        }
    }
}
