//! An item is emitted, with room for the effects that it comes to.

ghost use Rattle.std.specs.Prelude.{◌≡◌, pos, None, OnOk, OnErr, IfErr};
ghost use Rattle.rx_event.specs.Refusals.{first_cause};
ghost use Rattle.rx_book.specs.Answers.{Accepts, IsCauseOrWant};
ghost use Rattle.rx_book.specs.Courses.{note_count};
ghost use Rattle.rx_book.specs.Requests.{next_request, stands};
ghost use Rattle.rx_engine.specs.Rooms.{IsReady, IsRoomier};

use crate::parts::Parts;
use rx_book::{Book, ItemWithin, Key, Refusal};
use rx_resource::Token;

// Emits an item that comes to so many notes, for which there is no room yet.
#[cold]
#[inline(never)]
fn emit_beyond(
    book: &mut Book<Token>,
    parts: &mut Parts,
    leaf: Key,
    notes: u64,
) -> Result<(), Refusal>
    requires ready { IsReady 0 parts.old }
    requires notes { notes ≡ note_count book.old leaf (pos 0) }
    requires none { first_cause (stands book.old (next_request book.old leaf (pos 0))) ≡ None }
    ensures accepted { OnOk result (Accepts book.old (next_request book.old leaf (pos 0)) book.new) }
    ensures ready { OnOk result (IsReady (note_count book.old leaf (pos 0)) parts.new) }
    ensures refused { IfErr result (IsCauseOrWant book.old (next_request book.old leaf (pos 0))) }
    ensures kept { OnErr result (book.new ≡ book.old) }
    ensures roomier { IsRoomier parts.old parts.new }
{
    if !parts.reserve(notes) {
        return Err(Refusal::NoMemory);
    }
    match book.next(leaf, 0) {
        Ok(_) => Ok(()),
        Err(why) => Err(why),
    }
}

/// Emits an item, with room for the effects that it comes to. The book has 0 in the place of the value.
#[inline(always)]
pub(crate) fn emit(book: &mut Book<Token>, parts: &mut Parts, leaf: Key) -> Result<(), Refusal>
    requires ready { IsReady 0 parts.old }
    ensures accepted { OnOk result (Accepts book.old (next_request book.old leaf (pos 0)) book.new) }
    ensures ready { OnOk result (IsReady (note_count book.old leaf (pos 0)) parts.new) }
    ensures refused { IfErr result (IsCauseOrWant book.old (next_request book.old leaf (pos 0))) }
    ensures kept { OnErr result (book.new ≡ book.old) }
    ensures roomier { IsRoomier parts.old parts.new }
{
    match book.next_within(leaf, 0, parts.spare() as u64) {
        Ok(ItemWithin::Told(_)) => Ok(()),
        Ok(ItemWithin::Beyond(notes)) => emit_beyond(book, parts, leaf, notes),
        Err(why) => Err(why),
    }
}
