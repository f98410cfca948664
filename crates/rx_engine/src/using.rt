//! Opening a node that holds something from then on.

ghost use Rattle.std.specs.Prelude.{◌≡◌, true};
ghost use Rattle.rx_engine.specs.Openings.{connects_none};
ghost use Rattle.rx_engine.specs.Usings.{IsUsingMade};

use crate::engine::Engine;
use crate::parts::{Used, User};
use crate::settling::settle;
use rx_book::{At, Kind, Refusal, Resource};
use rx_resource::Token;

impl Engine {
    /// Opens a node, which is no subscriber of a hub, and which holds what this tag stands for from
    /// then on: one command, so that none comes between, or neither is done. Its release goes into the lane that the
    /// node has.
    pub fn using(
        &mut self,
        at: At,
        kind: Kind,
        user: User,
        tag: u64,
        by: u64,
    ) -> Result<Used, Refusal>
        requires alone { connects_none kind ≡ true }
        ensures { IsUsingMade ⟦<Token as Resource>⟧ at kind user tag by self.old self.new result }
    {
        self.book.promise();
        let Some(home) = self.home_of(at, user.lane) else {
            return Err(Refusal::Gone);
        };
        if !self.parts.make_room_to_use() {
            return Err(Refusal::NoMemory);
        }
        if !self.wishes.make_room() {
            return Err(Refusal::NoMemory);
        }
        match self.book.open_holding(at, kind, Token::new(tag)) {
            Ok(used) => {
                let number = used.opened.key.number;
                let name = self.parts.enter(at, kind, number, user.word, home);
                self.parts.keep(used.res.number, tag, name);
                self.wishes.wish(number, user);
                settle(&mut self.book, &mut self.parts, &mut self.wishes, by, 0);
                Ok(Used {
                    key: used.opened.key,
                    res: used.res,
                })
            }
            Err(refused) => Err(refused.why),
        }
    }
}
