//! The nodes at which a thread emits.

ghost use Rattle.std.specs.Prelude.{◌≡◌, ◌+◌, IfSome};

use rx_book::{At, Key};
use rx_crew::Desk;
use rx_event::Kind;
use rx_ledger::Seat;
use rx_resource::Resource;
use std::sync::Wait;
use std::sync::ledger::Ledger;

/// Opens a Using root with the resource and a leaf below it, and answers the leaf. None where an opening was
/// refused.
pub fn open_leaf<R: Resource, I: Ledger, A: Ledger, K: Ledger>(
    rt: &impl Wait,
    desk: &Desk<R, I, A, K>,
    seat: &mut Seat<I, A, K>,
    resource: R,
) -> Option<Key>
    ensures { IfSome result (λ _. seat.new ≡ record seat.old { accepted = seat.old.accepted + 1 }) }
{
    let mut floor = desk.floor.lock(rt);
    let Ok(root) = floor.open_using(seat, At::Root, resource) else {
        return None;
    };
    let Ok(leaf) = floor.open(At::Source(root.key), Kind::Leaf) else {
        return None;
    };
    Some(leaf.key)
}
