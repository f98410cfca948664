//! The statuses of the calls. Those from 16 are the book's refusals.

ghost use Rattle.std.specs.Prelude.{◌≡◌};
ghost use Rattle.rx_cellar.specs.Codes.{refusal_status};

use rx_book::Refusal;

/// The call was done.
pub const DONE: u8 = 0;

/// The handle keeps no book.
pub const NOTHING_KEPT: u8 = 1;

/// There is none: no resource, no note, no such node or event.
pub const NOTHING_WAITS: u8 = 2;

/// The handle keeps a book already.
pub const HELD: u8 = 3;

/// Memory was refused: nothing changed.
pub const NO_MEMORY: u8 = 4;

/// A number of the call is none of its enum: nothing changed.
pub const NO_SUCH_CODE: u8 = 5;

/// A resource was not taken yet: nothing changed.
pub const UNTAKEN: u8 = 6;

/// The buffer is too small: nothing was written.
pub const SMALL: u8 = 7;

/// A checkpoint took events away: there is no dump of the whole history.
pub const CUT: u8 = 8;

/// The status of a refusal.
pub(crate) fn status_of(why: Refusal) -> u8
    ensures { result ≡ refusal_status why }
{
    match why {
        Refusal::NoMemory => 4,
        Refusal::Full => 16,
        Refusal::Gone => 17,
        Refusal::WrongKind => 18,
        Refusal::PlaceTaken => 19,
        Refusal::NothingOwed => 20,
        Refusal::NotRoot => 21,
        Refusal::NoHub => 22,
        Refusal::HubOrder => 23,
        Refusal::Connected => 24,
        Refusal::NotConnected => 25,
        Refusal::NotFresh => 26,
        Refusal::NotHeld => 27,
        Refusal::HasChild => 28,
        Refusal::TooMany => 29,
        Refusal::NoLease => 30,
        Refusal::Leased => 31,
        Refusal::MailLeft => 32,
    }
}
