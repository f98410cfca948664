//! Who serves a lane takes the effects that wait there.

ghost use Rattle.std.specs.Prelude.{◌≡◌, ◌<◌, ◌≤◌, IfSome, IfNone};
ghost use Rattle.rx_lanes.specs.declared.names.LaneName.{LaneName};
ghost use Rattle.rx_lanes.specs.State.{IsLeft};
ghost use Rattle.rx_engine.specs.Servings.{IsTake, IsGiveUp};

use crate::engine::Engine;
use rx_lanes::{Due, LaneName};
use rx_roles::Effect;

impl Engine {
    /// The next effect of a lane, for who serves it or may. With `inside`, what was set free there further out.
    #[inline(always)]
    pub fn take(&mut self, name: LaneName, inside: bool, by: u64) -> Option<Effect>
        ensures { IsTake name inside by self.old self.new result }
    {
        self.parts.lanes.promise();
        self.parts.lanes.take(name, inside, by)
    }

    /// Lets others serve a lane. What was taken and not done comes first again.
    pub fn give_up(&mut self, name: LaneName, by: u64, undone: Option<Effect>) -> Option<bool>
        ensures { IsGiveUp name by undone self.old self.new result }
    {
        self.parts.lanes.give_up(name, by, undone)
    }

    /// The lanes that the last command's caller is to serve.
    pub fn due(&self) -> &[Due]
        ensures { result.now ≡ self.now.parts.lanes.due }
    {
        self.parts.lanes.due()
    }

    /// How many effects of the last accepted command carry its value.
    pub fn copies(&self) -> u64
        ensures { result ≡ self.now.parts.copies }
    {
        self.parts.copies
    }

    /// The first lane from a place on that has something, and that nobody serves.
    pub fn left(&self, from: usize) -> Option<LaneName>
        ensures found { IfSome result (λ name. IsLeft self.now.parts.lanes name) }
        ensures from { IfSome result (λ name. from ≤ name.place) }
        ensures first { IfSome result (λ name. (other : LaneName) → IsLeft self.now.parts.lanes other → from ≤ other.place → name.place ≤ other.place) }
        ensures end { IfNone result ((other : LaneName) → IsLeft self.now.parts.lanes other → other.place < from) }
    {
        self.parts.lanes.left(from)
    }
}
