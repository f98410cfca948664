//! Handing in what is to be released.

ghost use Rattle.rx_engine.specs.Holdings.{IsHoldMade};

use crate::engine::Engine;
use crate::homes::LaneOf;
use crate::settling::settle;
use rx_book::{Key, Refusal, ResKey, Resource};
use rx_resource::Token;

impl Engine {
    /// A node holds what this tag stands for, until it is to be released, in the lane that the node has. Refused
    /// as the book refuses; or for want of memory, before the book's causes but `Gone`.
    pub fn hold(&mut self, node: Key, tag: u64, by: u64) -> Result<ResKey, Refusal>
        ensures { IsHoldMade ⟦<Token as Resource>⟧ node tag by self.old self.new result }
    {
        self.book.promise();
        let Some(name) = self.lane_of(LaneOf::Node(node)) else {
            return Err(Refusal::Gone);
        };
        if !self.parts.make_room_to_hold() {
            return Err(Refusal::NoMemory);
        }
        match self.book.hold(node, Token::new(tag)) {
            Ok(res) => {
                self.parts.keep(res.number, tag, name);
                settle(&mut self.book, &mut self.parts, &mut self.wishes, by, 0);
                Ok(res)
            }
            Err(refused) => Err(refused.why),
        }
    }
}
