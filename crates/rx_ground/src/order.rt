//! Where a subscriber of a hub may stand: inside connections of later hubs alone, so that no item goes round in
//! a circle.

ghost use Rattle.std.specs.Prelude.{◌≡◌, true, IsSome, option_map};
ghost use Rattle.rx_event.specs.Events.{named_by};
ghost use Rattle.rx_event.specs.Tree.{at, parent as parent_in};
ghost use Rattle.rx_slots.specs.Slots.{find};
ghost use Rattle.rx_event.specs.Causes.{connects_up_to as connects_up_to_in, is_out_of_order as is_out_of_order_in};
ghost use Rattle.rx_ground.specs.Ties.{IsStanding, is_there};
ghost use Rattle.rx_ground.specs.Told.{is_inside_up_to};

use crate::base::{Ground, parent};
use rx_event::{Event, Kind, Place};
use rx_resource::Resource;
use rx_tree::Key;

/// Whether it connects the hub of this number or an earlier one.
fn connects_up_to(hub: u64, made: Event) -> bool
    ensures { result ≡ connects_up_to_in hub made }
{
    match made {
        Event::Connect(other) => other <= hub,
        _ => false,
    }
}

impl<R: Resource> Ground<R> {
    /// Whether the node connects the hub of this number or an earlier one.
    fn is_connection_up_to(&self, hub: u64, node: Key) -> bool
        requires standing { IsStanding R.Resource self.now }
        requires there { IsSome (find self.now.tree.nodes node) }
        ensures { result ≡ at (connects_up_to_in hub) self.now.register.history node.number }
    {
        match self.told(node) {
            Some(record) => connects_up_to(hub, record.made()),
            None => false,
        }
    }

    /// The key of the node above; None for a root and for a connection.
    fn above(&self, node: Key) -> Option<Key>
        requires standing { IsStanding R.Resource self.now }
        requires there { IsSome (find self.now.tree.nodes node) }
        ensures number { option_map (λ key. key.number) result ≡ parent_in self.now.register.history node.number }
        ensures there { is_there self.now.tree.nodes result ≡ true }
    {
        parent(&self.tree, node)
    }

    /// Whether the node, or one above it, connects the hub of this number or an earlier one.
    #[inline(never)]
    fn is_inside_up_to(&self, hub: u64, node: Key) -> bool
        requires standing { IsStanding R.Resource self.now }
        requires there { IsSome (find self.now.tree.nodes node) }
        ensures { result ≡ is_inside_up_to self.now.register.history hub (Some node.number) }
    {
        let mut at = Some(node);
        while let Some(key) = at {
            if self.is_connection_up_to(hub, key) {
                return true;
            }
            at = self.above(key);
        }
        false
    }

    /// Whether a subscriber of a hub at this place would stand inside a connection of its own hub or of an earlier
    /// one.
    #[inline(always)]
    pub(crate) fn is_out_of_order(&self, _place: Place, above: Option<Key>, kind: Kind) -> bool
        requires standing { IsStanding R.Resource self.now }
        requires named { named_by _place ≡ option_map (λ key. key.number) above }
        requires there { is_there self.now.tree.nodes above ≡ true }
        ensures { result ≡ is_out_of_order_in self.now.register.history _place kind }
    {
        match (kind, above) {
            (Kind::Sub(hub), Some(node)) => self.is_inside_up_to(hub, node),
            _ => false,
        }
    }
}
