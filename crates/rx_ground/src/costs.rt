//! What each call may cost: the one table that its cause and its reservation read.

ghost use Rattle.std.specs.Prelude.{◌≡◌, ◌≤◌, []};
ghost use Rattle.rx_event.specs.declared.event.Mode.{Mode};
ghost use Rattle.rx_event.specs.Calls.{Opening, OpeningUsing, Holding, Applying, Leasing, Publishing, Connecting};
ghost use Rattle.rx_event.specs.Causes.{end_at as end_at_in};
ghost use Rattle.rx_ground.specs.Costs.{cost_of};
ghost use Rattle.rx_ground.specs.OpeningHolding.{opening_holding_cost};
ghost use Rattle.rx_event.specs.Causes.{forces_connect};

use crate::base::Wanted;
use rx_event::{Kind, Place};

/// How many events the end of a node at this place has to be given, when it is opened: 0 for an inner,
/// whose end the item was given that it was projected for, and 1 at each other place.
#[inline(always)]
fn end_at(place: Place) -> u64
    ensures { result ≡ end_at_in place }
{
    match place {
        Place::Inner(_) => 0,
        Place::Root | Place::Source(_) | Place::Notifier(_) => 1,
    }
}

// The rows that are the same at each history and for each number.
impl Wanted {
    /// Of opening a node with a resource: both events, one for the node's end, and two for the resource's
    /// removal and its taking.
    #[inline(always)]
    pub fn of_using(place: Place) -> Self
        ensures { result ≡ cost_of [] (OpeningUsing place 0) }
    {
        Wanted {
            events: 4 + end_at(place),
            notes: 1,
            nodes: 1,
            resources: 1,
            hubs: 0,
            leases: 0,
        }
    }

    /// Of holding a resource: its event, and two for its removal and its taking.
    #[inline(always)]
    pub fn of_holding() -> Self
        ensures { result ≡ cost_of [] (Holding 0 0) }
    {
        Wanted {
            events: 3,
            notes: 0,
            nodes: 0,
            resources: 1,
            hubs: 0,
            leases: 0,
        }
    }

    /// Of using a resource: its event.
    #[inline(always)]
    pub fn of_applying() -> Self
        ensures { result ≡ cost_of [] (Applying 0) }
    {
        Wanted {
            events: 1,
            notes: 0,
            nodes: 0,
            resources: 0,
            hubs: 0,
            leases: 0,
        }
    }

    /// Of a lease: its event, and one for its return.
    #[inline(always)]
    pub fn of_leasing() -> Self
        ensures { result ≡ cost_of [] (Leasing 0) }
    {
        Wanted {
            events: 2,
            notes: 0,
            nodes: 0,
            resources: 0,
            hubs: 0,
            leases: 1,
        }
    }

    /// Of making a hub: its event.
    #[inline(always)]
    pub fn of_hub() -> Self
        ensures { result ≡ cost_of [] (Publishing Mode.Auto) }
    {
        Wanted {
            events: 1,
            notes: 0,
            nodes: 0,
            resources: 0,
            hubs: 1,
            leases: 0,
        }
    }

    /// Of connecting a hub: its event, and one for the connection's end.
    #[inline(always)]
    pub fn of_connecting() -> Self
        ensures { result ≡ cost_of [] (Connecting 0) }
    {
        Wanted {
            events: 2,
            notes: 1,
            nodes: 1,
            resources: 0,
            hubs: 0,
            leases: 0,
        }
    }

    /// Of opening such a node there: its event, and one for its end; with a connection that it forces, two
    /// more.
    #[inline(always)]
    pub fn of_opening(place: Place, _kind: Kind, connects: bool) -> Self
        ensures cost { (h : _) → connects ≡ forces_connect h _kind → result ≡ cost_of h (Opening place _kind) }
        ensures few { result.events ≤ 4 }
    {
        let events: u64 = if connects { 3 } else { 1 };
        let nodes: u64 = if connects { 2 } else { 1 };
        Wanted {
            events: events + end_at(place),
            notes: nodes,
            nodes: nodes as usize,
            resources: 0,
            hubs: 0,
            leases: 0,
        }
    }

    /// Of opening such a node there that holds a resource from then on: what the opening costs, and what the
    /// holding does.
    #[inline(always)]
    pub fn of_opening_holding(place: Place, kind: Kind, connects: bool) -> Self
        ensures { (h : _) → connects ≡ forces_connect h kind → result ≡ opening_holding_cost h place kind }
    {
        let opening = Wanted::of_opening(place, kind, connects);
        Wanted {
            events: opening.events + Wanted::of_holding().events,
            notes: opening.notes,
            nodes: opening.nodes,
            resources: 1,
            hubs: 0,
            leases: 0,
        }
    }
}
