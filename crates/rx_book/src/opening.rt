//! Opening nodes.

ghost use Rattle.std.specs.Prelude.{◌≡◌, ◌+◌, ◌≤◌, ℕ, true, false, None, option_map, IsTrue, IfSome};
ghost use Rattle.std.specs.Option.{option_to_list};
ghost use Rattle.rx_event.specs.declared.event.Kind.{Kind};
ghost use Rattle.rx_event.specs.Calls.{Opening};
ghost use Rattle.rx_event.specs.Causes.{added_by};
ghost use Rattle.rx_event.specs.Totals.{debt};
ghost use Rattle.rx_event.specs.Tree.{open_connections};
ghost use Rattle.rx_ground.specs.Told.{IsFound};
ghost use Rattle.rx_ground.specs.Ties.{IsStanding};
ghost use Rattle.rx_book.specs.State.{has_key};
ghost use Rattle.rx_book.specs.Requests.{place_of, open_request, using_request};
ghost use Rattle.rx_book.specs.Answers.{Accepts, IsOpened, AnswersOpened, AnswersOpenedUsing};
ghost use Rattle.rx_book.specs.Shown.{keys_of, state_of};
ghost use Rattle.rx_book.specs.Steps.{IsAdmitted};

use crate::Book;
use crate::admit::admit;
use crate::answer::{At, Opened, OpenedUsing, Refused};
use crate::holding::is_fresh;
use crate::place::spot_of;
use rx_event::{Kind, Refusal};
use rx_ground::{Found, Ground, Wanted};
use rx_resource::Resource;
use rx_tree::Key;

/// The key of the connection of the hub that such a node subscribes to, where its opening forced one.
#[inline(always)]
fn connection_of<R: Resource>(ground: &Ground<R>, kind: Kind, connects: bool) -> Option<Key>
    requires standing { IsStanding R.Resource ground.now }
    ensures forced { (g : _) → kind ≡ Kind.Sub g → connects ≡ true →
        option_to_list (option_map (λ k. k.number) result) ≡ open_connections ground.now.register.history g }
    ensures known { IfSome result (λ k. IsTrue (has_key (keys_of ground.now.tree) k)) }
    ensures quiet { connects ≡ false → result ≡ None }
{
    let Kind::Sub(hub) = kind else {
        return None;
    };
    if !connects {
        return None;
    }
    let connection = ground.connection(hub)?;
    // Its fields are written out: an optional key that is copied whole costs each opening nine instructions.
    Some(Key {
        slot: connection.slot,
        number: connection.number,
    })
}

/// Opens a node, for which there is room, and does what that forces. Of the room no more is gone than the
/// opening costs.
#[inline(always)]
pub(crate) fn write_opening<R: Resource>(
    ground: &mut Ground<R>,
    at: At,
    kind: Kind,
    found: Found,
) -> Opened
    requires admitted { IsAdmitted R.Resource ground.old (open_request (state_of R.Resource ground.old) at kind) }
    requires found { IsFound ground.old.register.history ground.old.hubs.hubs kind found }
    ensures standing { IsStanding R.Resource ground.new }
    ensures accepted { Accepts (state_of R.Resource ground.old)
        (open_request (state_of R.Resource ground.old) at kind) (state_of R.Resource ground.new) }
    ensures opened { IsOpened (state_of R.Resource ground.old) (state_of R.Resource ground.new) result }
    ensures resources { ground.new.tree.resources ≡ ground.old.tree.resources }
    ensures spare { (more : ℕ) →
        debt ground.old.register.base ground.old.register.history +
        added_by ground.old.register.history (Opening (place_of at) kind) + more ≤ ground.old.register.room →
        debt ground.new.register.base ground.new.register.history + more ≤ ground.new.register.room }
{
    let spot = spot_of(at);
    let key = ground.write_open(spot.place, kind, spot.above, found.index);
    ground.settle();
    Opened {
        key,
        connected: connection_of(ground, kind, found.connects),
    }
}

impl<R: Resource> Book<R> {
    /// Opens a node, as an observer that subscribes does, or an operator that subscribes to its source
    /// (Observable Contract), to its notifier (TakeUntil) or to what an item was projected to (FlatMap,
    /// Switch, at reactivex.io; that a caller opens inners by hand is this project's own). An inner of a
    /// Switch takes the place of the one that is open, which is closed with all below it. A subscriber of a
    /// RefCount hub that has no connection connects it, with the same call (RefCount); the key of that
    /// connection comes with the node's. The key's number is the place of the event. Refused, in this
    /// order: `NoHub` where the kind is that of a subscriber and no hub has that number, `Gone` where the
    /// node of the place is not open, `WrongKind` where it has no such place, `PlaceTaken` where that place
    /// was opened before, `NothingOwed` where each item that was projected there was given an inner or
    /// declined, `HubOrder` where a subscriber would stand inside a connection of its own hub or of an
    /// earlier one, `TooMany` where more than 1,048,576 nodes would be open, a connection counted in,
    /// `Full`, which counts the connection too, `NoMemory`. A refusal changes nothing.
    pub fn open(&mut self, at: At, kind: Kind) -> Result<Opened, Refusal>
        ensures { AnswersOpened self.old (open_request self.old at kind) self.new result }
    {
        let spot = spot_of(at);
        let found = self.ground.found(kind);
        let cost = Wanted::of_opening(spot.place, kind, found.connects);
        let cause = self
            .ground
            .opening_cause(spot.place, spot.above, kind, found, cost);
        admit(&mut self.ground, cause, Some(cost))?;
        Ok(write_opening(&mut self.ground, at, kind, found))
    }

    /// Opens a mirroring node that holds a resource, which waits for its release once the node ends, is
    /// unsubscribed (Using, at reactivex.io) or gives its place to another inner of its Switch. Refused, in
    /// this order: `Gone`, `WrongKind`, `PlaceTaken`, `NothingOwed`, `NotFresh` where the resource was
    /// released or used, `TooMany`, `Full`, `NoMemory`. A refusal changes nothing and gives the resource
    /// back.
    pub fn open_using(&mut self, at: At, resource: R) -> Result<OpenedUsing, Refused<R>>
        ensures { AnswersOpenedUsing self.old (using_request R.Resource self.old at resource) resource self.new result }
    {
        let spot = spot_of(at);
        let tag = resource.tag();
        let fresh = is_fresh(&resource);
        let cause = self.ground.using_cause(spot.place, spot.above, tag, fresh);
        if let Err(why) = admit(&mut self.ground, cause, Some(Wanted::of_using(spot.place))) {
            return Err(Refused {
                why,
                back: resource,
            });
        }
        let node = self
            .ground
            .write_open(spot.place, Kind::Pass, spot.above, 0);
        let res = self.ground.write_accept(node, resource);
        self.ground.settle();
        Ok(OpenedUsing { key: node, res })
    }
}
