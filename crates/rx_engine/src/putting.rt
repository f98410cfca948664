//! An effect that the face puts itself.

ghost use Rattle.std.specs.Prelude.{◌≡◌, ◌<◌, ◌+◌, IsSome};
ghost use Rattle.rx_lanes.specs.State.{lane};
ghost use Rattle.rx_engine.specs.Puttings.{PutsOwn, IsPutMade};

use crate::engine::Engine;
use crate::homes::LaneOf;
use crate::parts::Parts;
use rx_book::Refusal;
use rx_lanes::LaneName;
use rx_roles::{Effect, What};

impl Parts {
    // Puts an effect of the face's own into a lane, which is due then.
    fn put_own(&mut self, name: LaneName, user: u64, value: u64, by: u64)
        requires there { IsSome (lane self.old.lanes name) }
        requires spare { 0 < self.old.lanes.spare }
        ensures puts { PutsOwn name user value by self.old self.new }
        ensures spare { self.new.lanes.spare + 1 ≡ self.old.lanes.spare }
        ensures effects { self.new.effects ≡ self.old.effects }
    {
        let own = Effect {
            lane: name,
            user,
            value,
            by,
            what: What::Put,
        };
        self.lanes.put(name, own);
        let _many = self.lanes.settle(by);
        self.copies = 1;
    }
}

impl Engine {
    /// The face puts an effect of its own, for itself to take there, behind all others of the lane of an open
    /// node, or of what it projects. Refused, in this order: `Gone` where the node is not open, or projects
    /// nothing; `NoMemory`.
    pub fn put(&mut self, to: LaneOf, user: u64, value: u64, by: u64) -> Result<(), Refusal>
        ensures { IsPutMade to user value by self.old self.new result }
    {
        let Some(name) = self.lane_of(to) else {
            return Err(Refusal::Gone);
        };
        if !self.parts.reserve(1) {
            return Err(Refusal::NoMemory);
        }
        self.parts.put_own(name, user, value, by);
        self.wishes.close_none();
        Ok(())
    }
}
