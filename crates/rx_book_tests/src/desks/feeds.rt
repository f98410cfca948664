//! A feed by itself: why it stops, which receipts it gives, and what it writes.

use super::desk_calls::{Ask, Call};
use super::trials::{Trial, assert_all};
use rx_event::{Kind, Terminal};

const DONE: Terminal = Terminal::Completed;

// Of no turn, of one turn and of many, and once the leaf has ended.
static STOPPED: [Call; 5] = [
    Call::Open(Kind::Leaf),
    Call::Feed(0, 1, DONE, 0),
    Call::Feed(0, 1, DONE, 1),
    Call::Feed(0, 1, DONE, 9),
    Call::Feed(0, 1, DONE, 9),
];

const STOPPED_TOLD: &str = "\
Ok(0)
(Turns, [])
(Turns, [Receipt { place: 1, event: Item(0, 5) }])
(Done, [Receipt { place: 2, event: Item(0, 5) }, Receipt { place: 3, event: End(0, Completed) }])
(Refused(Gone), [])
Ok(Totals { items: 2, accepted: 0, taken: 0, held: 0, waiting: 0, len: 4 })
None
Closed { released: 0, faults: 0 }
";

#[test]
fn a_feed_stops_at_its_turns_at_the_end_and_when_refused(rt: HostRuntime) {
    let trial = Trial::Calls(&STOPPED, &[]);
    assert_all(&rt, rt.alloc(), &[(trial, STOPPED_TOLD)]);
}

// Of a source that fails, of one that begins with its end, and of a node that is no leaf.
static WRITTEN: [Call; 14] = [
    Call::Open(Kind::Pass),
    Call::Open(Kind::Leaf),
    Call::Open(Kind::Leaf),
    Call::Feed(1, 1, Terminal::Error(7), 9),
    Call::Feed(2, 0, DONE, 9),
    Call::Feed(0, 1, DONE, 9),
    Call::Ask(Ask::Event(3)),
    Call::Ask(Ask::Event(4)),
    Call::Ask(Ask::Event(5)),
    Call::Ask(Ask::Event(6)),
    Call::Ask(Ask::Mail),
    Call::Ask(Ask::Mail),
    Call::Ask(Ask::Mail),
    Call::Ask(Ask::Mail),
];

const WRITTEN_TOLD: &str = "\
Ok(0)
Ok(1)
Ok(2)
(Done, [Receipt { place: 3, event: Item(1, 5) }, Receipt { place: 4, event: End(1, Error(7)) }])
(Done, [Receipt { place: 5, event: End(2, Completed) }])
(Refused(WrongKind), [])
Some(Item(1, 5))
Some(End(1, Error(7)))
Some(End(2, Completed))
None
Some(Mail { place: 3, to: 1, note: Next(5) })
Some(Mail { place: 4, to: 1, note: End(Error(7)) })
Some(Mail { place: 5, to: 2, note: End(Completed) })
None
Ok(Totals { items: 1, accepted: 0, taken: 0, held: 0, waiting: 0, len: 6 })
Some(0)
Closed { released: 0, faults: 0 }
";

#[test]
fn a_feed_writes_what_was_pulled_and_takes_no_note(rt: HostRuntime) {
    let trial = Trial::Calls(&WRITTEN, &[]);
    assert_all(&rt, rt.alloc(), &[(trial, WRITTEN_TOLD)]);
}
