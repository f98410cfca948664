//! What a call of the book leaves to be done.

ghost use Rattle.std.specs.Prelude.{◌+◌, ◌≤◌, length};
ghost use Rattle.rx_lanes.specs.declared.names.LaneName.{LaneName};
ghost use Rattle.rx_lanes.specs.State.{IsPromised as AreLanesPromised};
ghost use Rattle.rx_roles.specs.Effects.{items_in, names_of};
ghost use Rattle.rx_engine.specs.Deliveries.{many_at};
ghost use Rattle.rx_engine.specs.Rooms.{IsReady};
ghost use Rattle.rx_pool.specs.Moves.{MayLeaveAll};
ghost use Rattle.rx_pool.specs.Places.{places_left};
ghost use Rattle.rx_engine.specs.Settlements.{mail_left, closed_of, Settles, KeepsKeys};
ghost use Rattle.rx_engine.specs.Gatherings.{Gathers, EndsClosed, Spreads, IsLoaded};
ghost use Rattle.rx_engine.specs.Closings.{Closes};

use crate::delivering::deliver;
use crate::leaving::end_nodes;
use crate::parts::Parts;
use crate::telling::{set_free, tell};
use crate::wishes::Wishes;
use rx_book::{Book, Resource};
use rx_resource::Token;

// What the last call closed ends its wishes, leaves its hub and its lane, and ends its other roles.
#[inline(never)]
fn close_some(book: &Book<Token>, parts: &mut Parts, wishes: &mut Wishes, by: u64)
    requires hubs { MayLeaveAll (places_left parts.old.shares.list (closed_of book.now)) parts.old.shares.hubs }
    requires named { (name : LaneName) → names_of name parts.old.homes.list ≤ many_at parts.old.lanes name }
    requires room { length parts.old.hears.list + length parts.old.merges.list ≤ parts.old.effects.room }
    ensures ends { EndsClosed by (closed_of book.now) parts.old parts.new }
    ensures closes { Closes book.now wishes.old.roles.list wishes.new }
{
    wishes.close(book);
    end_nodes(book, parts, by);
}

// Ends the roles of what the call closed. One look tells where that was nothing.
#[inline(always)]
fn close_nodes(book: &Book<Token>, parts: &mut Parts, wishes: &mut Wishes, by: u64)
    requires hubs { MayLeaveAll (places_left parts.old.shares.list (closed_of book.now)) parts.old.shares.hubs }
    requires named { (name : LaneName) → names_of name parts.old.homes.list ≤ many_at parts.old.lanes name }
    requires room { length parts.old.hears.list + length parts.old.merges.list ≤ parts.old.effects.room }
    ensures ends { EndsClosed by (closed_of book.now) parts.old parts.new }
    ensures closes { Closes book.now wishes.old.roles.list wishes.new }
{
    if book.closed_count() > 0 {
        close_some(book, parts, wishes, by);
    } else {
        wishes.close_none();
    }
}

/// What a call of the book told, closed and set free becomes effects, and what it closed leaves its lane and its
/// hub. It takes no memory.
#[inline(always)]
pub(crate) fn gather(
    book: &mut Book<Token>,
    parts: &mut Parts,
    wishes: &mut Wishes,
    by: u64,
    value: u64,
)
    requires ready { IsReady (items_in (mail_left book.old)) parts.old }
    requires hubs { MayLeaveAll (places_left parts.old.shares.list (closed_of book.old)) parts.old.shares.hubs }
    ensures gathers { Gathers ⟦<Token as Resource>⟧ by value book.old parts.old book.new parts.new }
    ensures closes { Closes book.old wishes.old.roles.list wishes.new }
    ensures loaded { IsLoaded parts.new }
    ensures keys { KeepsKeys book.old book.new }
{
    tell(
        book,
        &mut parts.hears,
        &parts.merges,
        &mut parts.effects,
        by,
        value,
    );
    close_nodes(book, parts, wishes, by);
    set_free(book, &mut parts.holds, &mut parts.effects, by);
}

/// All effects go into their lanes, and those that got something are due.
#[inline(never)]
pub(crate) fn spread_some(parts: &mut Parts, by: u64)
    requires { IsLoaded parts.old }
    ensures spreads { Spreads by parts.old parts.new }
    ensures ready { IsReady 0 parts.new }
    ensures promised { AreLanesPromised parts.new.lanes }
{
    parts.copies = deliver(&mut parts.effects, &mut parts.lanes, by);
    let _many = parts.lanes.settle(by);
    parts.lanes.promise();
}

// All effects go into their lanes. One look tells where there is none.
#[inline(always)]
fn spread(parts: &mut Parts, by: u64)
    requires { IsLoaded parts.old }
    ensures spreads { Spreads by parts.old parts.new }
    ensures ready { IsReady 0 parts.new }
    ensures promised { AreLanesPromised parts.new.lanes }
{
    if parts.effects.len() > 0 {
        spread_some(parts, by);
    } else {
        parts.copies = 0;
        let _none = parts.lanes.settle(by);
        parts.lanes.promise();
    }
}

/// Does all that a call of the book leaves to be done. It takes no memory.
#[inline(always)]
pub(crate) fn settle(
    book: &mut Book<Token>,
    parts: &mut Parts,
    wishes: &mut Wishes,
    by: u64,
    value: u64,
)
    requires ready { IsReady (items_in (mail_left book.old)) parts.old }
    requires hubs { MayLeaveAll (places_left parts.old.shares.list (closed_of book.old)) parts.old.shares.hubs }
    ensures settles { Settles ⟦<Token as Resource>⟧ by value book.old parts.old book.new parts.new }
    ensures closes { Closes book.old wishes.old.roles.list wishes.new }
    ensures ready { IsReady 0 parts.new }
    ensures keys { KeepsKeys book.old book.new }
{
    gather(book, parts, wishes, by, value);
    spread(parts, by);
}
