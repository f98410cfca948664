//! The calls of a floor, each by the words of a line.

use crate::keys::Keys;
use crate::words::Line;
use rx_book::{LeaseKey, OpenedHolding, OpenedUsing, Refused, ResKey};
use rx_crew::Floor;
use rx_event::{Kind, Mode, Refusal, Terminal};
use rx_ledger::Seat;
use rx_resource::Sample;
use std::sync::ledger::Ledger;

/// What a call is answered: a number, and that of a connection or a resource that came with it.
pub type Given = Result<(u64, Option<u64>), Refusal>;

// An answer that is a number alone.
fn plain(answer: Result<u64, Refusal>) -> Given {
    match answer {
        Ok(number) => Ok((number, None)),
        Err(why) => Err(why),
    }
}

fn kind_of(line: &Line<'_>) -> Kind {
    match line.word(1) {
        "leaf" => Kind::Leaf,
        "pass" => Kind::Pass,
        "flat" => Kind::Flat,
        "switch" => Kind::Switch,
        "until" => Kind::Until,
        _ => Kind::Sub(line.number(4)),
    }
}

/// `open KIND PLACE NODE HUB`.
pub fn open<I: Ledger, A: Ledger, K: Ledger>(
    floor: &mut Floor<Sample, I, A, K>,
    keys: &mut Keys,
    line: &Line<'_>,
) -> Given {
    let at = keys.place(line.word(2), line.number(3));
    let opened = floor.open(at, kind_of(line))?;
    let number = keys.keep(opened.key.number, opened.key.slot);
    match opened.connected {
        Some(key) => Ok((number, Some(keys.keep(key.number, key.slot)))),
        None => Ok((number, None)),
    }
}

// A resource of this tag. The release of each eighth one, from 3 on, meets a fault.
fn sample_of(tag: u64) -> Sample {
    match tag % 8 {
        3 => Sample::faulty(tag, 2),
        _ => Sample::new(tag),
    }
}

/// `using TAG PLACE NODE`.
pub fn using<I: Ledger, A: Ledger, K: Ledger>(
    floor: &mut Floor<Sample, I, A, K>,
    seat: &mut Seat<I, A, K>,
    keys: &mut Keys,
    line: &Line<'_>,
) -> Given {
    let at = keys.place(line.word(2), line.number(3));
    match floor.open_using(seat, at, sample_of(line.number(1))) {
        Ok(OpenedUsing { key, res }) => {
            let number = keys.keep(key.number, key.slot);
            Ok((number, Some(keys.keep(res.number, res.slot))))
        }
        Err(Refused { why, back: _ }) => Err(why),
    }
}

/// `holding KIND PLACE NODE HUB TAG`.
pub fn holding<I: Ledger, A: Ledger, K: Ledger>(
    floor: &mut Floor<Sample, I, A, K>,
    seat: &mut Seat<I, A, K>,
    keys: &mut Keys,
    line: &Line<'_>,
) -> Given {
    let at = keys.place(line.word(2), line.number(3));
    let resource = sample_of(line.number(5));
    match floor.open_holding(seat, at, kind_of(line), resource) {
        Ok(OpenedHolding { opened, res }) => {
            let number = keys.keep(opened.key.number, opened.key.slot);
            Ok((number, Some(keys.keep(res.number, res.slot))))
        }
        Err(Refused { why, back: _ }) => Err(why),
    }
}

/// `hold TAG NODE`.
pub fn hold<I: Ledger, A: Ledger, K: Ledger>(
    floor: &mut Floor<Sample, I, A, K>,
    seat: &mut Seat<I, A, K>,
    keys: &mut Keys,
    line: &Line<'_>,
) -> Given {
    let node = keys.node(line.number(2));
    match floor.hold(seat, node, sample_of(line.number(1))) {
        Ok(res) => Ok((keys.keep(res.number, res.slot), None)),
        Err(Refused { why, back: _ }) => Err(why),
    }
}

/// `next NODE VALUE`, `end NODE`, `error NODE CODE`, `dispose NODE`.
pub fn at_node<I: Ledger, A: Ledger, K: Ledger>(
    floor: &mut Floor<Sample, I, A, K>,
    seat: &mut Seat<I, A, K>,
    keys: &Keys,
    line: &Line<'_>,
) -> Given {
    let node = keys.node(line.number(1));
    plain(match line.word(0) {
        "next" => floor.next(seat, node, line.word(2).parse::<i64>().unwrap_or(0)),
        "end" => floor.end(node, Terminal::Completed),
        "error" => floor.end(node, Terminal::Error(line.code(2))),
        _ => floor.dispose(node),
    })
}

/// `abort NODE CODE`, `fail NODE CODE`, `decline NODE`.
pub fn at_operator<I: Ledger, A: Ledger, K: Ledger>(
    floor: &mut Floor<Sample, I, A, K>,
    keys: &Keys,
    line: &Line<'_>,
) -> Given {
    let node = keys.node(line.number(1));
    plain(match line.word(0) {
        "abort" => floor.abort(node, line.code(2)),
        "fail" => floor.fail(node, line.code(2)),
        _ => floor.decline(node),
    })
}

/// `apply RES`, `remove RES`, `lease RES`, `return LEASE`. A use is answered by the resource's number.
pub fn on_resource<I: Ledger, A: Ledger, K: Ledger>(
    floor: &mut Floor<Sample, I, A, K>,
    keys: &mut Keys,
    line: &Line<'_>,
) -> Given {
    let number = line.number(1);
    let slot = keys.slot(number);
    let res = ResKey { slot, number };
    match line.word(0) {
        "apply" => {
            floor.apply(res, 1)?;
            Ok((number, None))
        }
        "lease" => {
            let lease = floor.lease(res)?;
            Ok((keys.keep(lease.number, lease.slot), None))
        }
        "remove" => plain(floor.remove(res)),
        _ => plain(floor.give_back(LeaseKey { slot, number })),
    }
}

/// `hub auto`, `hub manual`, `connect HUB`, `disconnect HUB`, `checkpoint`.
pub fn on_hub<I: Ledger, A: Ledger, K: Ledger>(
    floor: &mut Floor<Sample, I, A, K>,
    keys: &mut Keys,
    line: &Line<'_>,
) -> Given {
    match line.word(0) {
        "hub" if line.word(1) == "auto" => plain(floor.hub(Mode::Auto)),
        "hub" => plain(floor.hub(Mode::Manual)),
        "connect" => {
            let key = floor.connect(line.number(1))?;
            Ok((keys.keep(key.number, key.slot), None))
        }
        "disconnect" => plain(floor.disconnect(line.number(1))),
        _ => plain(floor.checkpoint()),
    }
}
