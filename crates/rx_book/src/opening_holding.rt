//! Opening a node of any kind that holds a resource from then on, in one call.

ghost use Rattle.std.specs.Prelude.{◌≡◌, ◌+◌, ◌<◌, ◌≤◌, [], ◌∷◌, ◌++◌, true, length, IsTrue};
ghost use Rattle.rx_event.specs.declared.event.Event.{Event};
ghost use Rattle.rx_event.specs.Totals.{debt};
ghost use Rattle.rx_ground.specs.Gone.{Closes};
ghost use Rattle.rx_ground.specs.Ties.{IsStanding};
ghost use Rattle.rx_book.specs.State.{has_key};
ghost use Rattle.rx_book.specs.Requests.{is_fresh_in, hold_request};
ghost use Rattle.rx_book.specs.Answers.{Accepts, IsNewResKey};
ghost use Rattle.rx_book.specs.OpensHolding.{AnswersOpenedHolding};
ghost use Rattle.rx_book.specs.Shown.{keys_of, state_of};

use crate::Book;
use crate::admit::admit;
use crate::answer::{At, OpenedHolding, Refused};
use crate::holding::is_fresh;
use crate::opening::write_opening;
use crate::place::spot_of;
use rx_event::Kind;
use rx_ground::{Ground, Wanted};
use rx_resource::Resource;
use rx_tree::{Key, ResKey};

/// Holds a fresh resource at an open node, for which there is room. It forces nothing, and the list of what was
/// closed stays.
#[inline(always)]
fn write_holding<R: Resource>(ground: &mut Ground<R>, node: Key, resource: R) -> ResKey
    requires standing { IsStanding R.Resource ground.old }
    requires known { IsTrue (has_key (keys_of ground.old.tree) node) }
    requires fresh { is_fresh_in R.Resource resource ≡ true }
    requires events { debt ground.old.register.base ground.old.register.history + 3 ≤ ground.old.register.room }
    requires room { 0 < ground.old.tree.resources.room }
    ensures standing { IsStanding R.Resource ground.new }
    ensures accepted { Accepts (state_of R.Resource ground.old)
        (hold_request R.Resource (state_of R.Resource ground.old) node resource)
        (record (state_of R.Resource ground.new) { closed = [] }) }
    ensures closed { Closes ground.old ground.new }
    ensures res { IsNewResKey (state_of R.Resource ground.new) (length ground.old.register.history) result }
    ensures history { ground.new.register.history ≡ ground.old.register.history ++
        Event.Accept node.number (R.tag_of resource) ∷ [] }
    ensures nodes { ground.new.tree.nodes ≡ ground.old.tree.nodes }
{
    ground.promise();
    ground.write_accept(node, resource)
}

impl<R: Resource> Book<R> {
    /// Opens a node that holds a resource from then on: as [`Book::open`] and then [`Book::hold`] at it, in
    /// one call, so that no call comes between, or neither is done. A connection that the opening forces comes
    /// before the resource. Refused, in this order: `NoHub`, `Gone`, `WrongKind`, `PlaceTaken`, `NothingOwed`,
    /// `HubOrder`, `NotFresh` where the resource was released or used, `TooMany`, `Full`, which counts both,
    /// `NoMemory`. A refusal changes nothing and gives the resource back.
    pub fn open_holding(
        &mut self,
        at: At,
        kind: Kind,
        resource: R,
    ) -> Result<OpenedHolding, Refused<R>>
        ensures { AnswersOpenedHolding R.Resource self.old at kind resource self.new result }
    {
        let spot = spot_of(at);
        let fresh = is_fresh(&resource);
        let found = self.ground.found(kind);
        let cost = Wanted::of_opening_holding(spot.place, kind, found.connects);
        let cause = self
            .ground
            .opening_holding_cause(spot.place, spot.above, kind, fresh, found, cost);
        if let Err(why) = admit(&mut self.ground, cause, Some(cost)) {
            return Err(Refused {
                why,
                back: resource,
            });
        }
        let opened = write_opening(&mut self.ground, at, kind, found);
        let res = write_holding(&mut self.ground, opened.key, resource);
        Ok(OpenedHolding { opened, res })
    }
}
