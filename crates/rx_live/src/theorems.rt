//! Laws of sessions, which no call needs and a caller may cite.

ghost use Rattle.rx_live.specs.Sessions.{AreNamesKept, AreNotesToldInOrder};
ghost use Rattle.rx_live.specs.Shut.{AreNamesKeptToTheEnd};

/// Of any list of lines: each name that a `using` or a `hold` was answered `ok` for stands in exactly one
/// `release` behind that, before it is handed in again, up to the last line; and no other name does.
pub fn names_are_released_once()
    ensures { AreNamesKept }
{}

/// Of a session that ends by [`Live::shut`](crate::Live::shut) and the releases behind it, for which no memory is needed: each
/// name that was answered `ok` stands in exactly one `release` up to the end.
pub fn names_are_released_to_the_end()
    ensures { AreNamesKeptToTheEnd }
{}

/// Of any list of lines: the answers tell the notes of the events that the lines wrote, each once and in order.
/// What was put off for want of memory are the last of them, which later answers tell.
pub fn notes_are_told_in_order()
    ensures { AreNotesToldInOrder }
{}
