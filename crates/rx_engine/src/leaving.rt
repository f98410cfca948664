//! What a call closed leaves its hub and its lane, and its roles end.

ghost use Rattle.std.specs.Prelude.{◌≡◌, ◌+◌, ◌≤◌, length, Some, None};
ghost use Rattle.rx_lanes.specs.declared.names.LaneName.{LaneName};
ghost use Rattle.rx_lanes.specs.Lane.{Lane, kept, parted};
ghost use Rattle.rx_lanes.specs.State.{lane, Turns};
ghost use Rattle.rx_roles.specs.declared.roles.Role.{Role};
ghost use Rattle.rx_roles.specs.Roles.{role_of, without};
ghost use Rattle.rx_roles.specs.Effects.{names_of};
ghost use Rattle.rx_pool.specs.Moves.{MayLeaveAll};
ghost use Rattle.rx_pool.specs.Places.{places_left};
ghost use Rattle.rx_engine.specs.Deliveries.{many_at};
ghost use Rattle.rx_engine.specs.Settlements.{closed_of};
ghost use Rattle.rx_engine.specs.Gatherings.{EndsClosed};

use crate::parts::Parts;
use rx_book::Book;
use rx_lanes::Lanes;
use rx_resource::Token;
use rx_roles::{Effect, Roles, end_one};

// One node leaves its lane, where it has one.
fn leave_one(homes: &mut Roles, lanes: &mut Lanes<Effect>, number: u64)
    requires named { (name : LaneName) → names_of name homes.old.list ≤ many_at lanes.old name }
    ensures homes { homes.new.list ≡ without homes.old.list number }
    ensures leaves { (r : Role) → role_of homes.old.list number ≡ Some r → (l : Lane Effect) →
        lane lanes.old r.lane ≡ Some l → Turns lanes.old lanes.new r.lane (kept (parted l)) }
    ensures stays { role_of homes.old.list number ≡ None → lanes.new ≡ lanes.old }
    ensures spare { lanes.new.spare ≡ lanes.old.spare }
{
    if let Some(home) = homes.take(number) {
        lanes.leave(home.lane);
    }
}

/// All nodes that the last call closed leave their hubs and their lanes, and their roles end.
#[inline(always)]
pub(crate) fn end_nodes(book: &Book<Token>, parts: &mut Parts, by: u64)
    requires hubs { MayLeaveAll (places_left parts.old.shares.list (closed_of book.now)) parts.old.shares.hubs }
    requires named { (name : LaneName) → names_of name parts.old.homes.list ≤ many_at parts.old.lanes name }
    requires room { length parts.old.hears.list + length parts.old.merges.list ≤ parts.old.effects.room }
    ensures { EndsClosed by (closed_of book.now) parts.old parts.new }
{
    let _count = book.closed_count();
    let mut at = 0;
    while let Some(key) = book.nth_closed(at) {
        parts.shares.leave(key.number);
        leave_one(&mut parts.homes, &mut parts.lanes, key.number);
        end_one(
            &mut parts.hears,
            &mut parts.merges,
            &mut parts.effects,
            by,
            key.number,
        );
        at += 1;
    }
}
