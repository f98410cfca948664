//! A desk at which the lines are played, from its beginning to the end of its book.

ghost use Rattle.std.specs.Prelude.{◌≡◌, ◌≤◌};
ghost use Rattle.rx_ledger.specs.Shares.{OpensFromBlank, all_parts};

use crate::calls::{Given, at_node, at_operator, hold, holding, on_hub, on_resource, open, using};
use crate::keys::Keys;
use crate::looking::{look, owed, split, sums_of, take};
use crate::parts::Parts;
use crate::words::{Line, line_of, tell};
use rx_book::Book;
use rx_crew::{Desk, Finished, Floor, finish};
use rx_ledger::{PARTS, Seat};
use rx_resource::Sample;
use std::alloc::Global;
use std::marker::Brand;
use std::sync::Wait;
use std::sync::ledger::{Blank, Ledger};

// Three blanks of all parts.
fn blanks() -> (Blank, Blank, Blank)
    ensures { (result.0.parts ≡ all_parts) × (result.1.parts ≡ all_parts) × (result.2.parts ≡ all_parts) }
{
    (Blank::new(PARTS), Blank::new(PARTS), Blank::new(PARTS))
}

// Makes the call of a line; None where it has none.
fn call<I: Ledger, A: Ledger, K: Ledger>(
    floor: &mut Floor<Sample, I, A, K>,
    seat: &mut Seat<I, A, K>,
    keys: &mut Keys,
    line: &Line<'_>,
) -> Option<Given> {
    match line.word(0) {
        "open" => Some(open(floor, keys, line)),
        "using" => Some(using(floor, seat, keys, line)),
        "hold" => Some(hold(floor, seat, keys, line)),
        "holding" => Some(holding(floor, seat, keys, line)),
        "next" | "end" | "error" | "dispose" => Some(at_node(floor, seat, keys, line)),
        "abort" | "fail" | "decline" => Some(at_operator(floor, keys, line)),
        "apply" | "remove" | "lease" | "return" => Some(on_resource(floor, keys, line)),
        "hub" | "connect" | "disconnect" | "checkpoint" => Some(on_hub(floor, keys, line)),
        _ => None,
    }
}

// Plays a line, and tells what it comes to.
fn play<I: Ledger, A: Ledger, K: Ledger>(
    floor: &mut Floor<Sample, I, A, K>,
    seat: &mut Seat<I, A, K>,
    keys: &mut Keys,
    parts: &mut Parts,
    line: &Line<'_>,
    told: &mut String,
) {
    if let Some(given) = call(floor, seat, keys, line) {
        tell(told, given);
        return;
    }
    match line.word(0) {
        "look" => look(floor, line.number(1), told),
        "sums" => tell(told, sums_of(floor)),
        "owed" => tell(told, owed(floor, keys, line)),
        "take" => tell(told, take(floor, seat)),
        "split" => tell(told, split(seat, line.number(1))),
        _ => parts.play(line, told),
    }
}

// The limit of the book, of the first line.
fn limit_of(text: &str) -> u64
    ensures { result ≤ 4294967295 }
{
    match text.lines().next() {
        Some(first) => u64::from(line_of(first).code(1)),
        None => 0,
    }
}

// Plays all lines behind the first.
fn play_lines<I: Ledger, A: Ledger, K: Ledger>(
    rt: &impl Wait,
    alloc: Global,
    desk: &Desk<Sample, I, A, K>,
    seat: &mut Seat<I, A, K>,
    text: &str,
    told: &mut String,
) {
    let mut keys = Keys::new(alloc);
    let mut parts = Parts::new(alloc);
    for line in text.lines().skip(1) {
        let line = line_of(line);
        play(
            &mut desk.floor.lock(rt),
            seat,
            &mut keys,
            &mut parts,
            &line,
            told,
        );
    }
}

// Makes the desk, plays the lines, and ends it and its book.
fn play_all<I: Ledger, A: Ledger, K: Ledger, T: Wait>(
    rt: &T,
    alloc: Global,
    blanks: (Blank, Blank, Blank),
    text: &String,
    told: &mut String,
)
    requires items { OpensFromBlank I.name I.parts blanks.0.name blanks.0.parts }
    requires accepted { OpensFromBlank A.name A.parts blanks.1.name blanks.1.parts }
    requires taken { OpensFromBlank K.name K.parts blanks.2.name blanks.2.parts }
{
    let book = Book::new(alloc, limit_of(text.as_str()));
    let (desk, mut seat) = Desk::<Sample, I, A, K>::new(book, blanks.0, blanks.1, blanks.2);
    play_lines(rt, alloc, &desk, &mut seat, text.as_str(), told);
    let mut seats = Vec::new(alloc);
    let _ = seats.push(seat);
    let Finished { book, verdict } = finish(desk, seats, &[]);
    tell(told, verdict);
    tell(told, book.finish());
}

/// Plays the lines at a desk of their own.
pub fn play_text<T: Wait>(rt: &T, alloc: Global, text: &String, told: &mut String) {
    play_all::<Brand, Brand, Brand, _>(rt, alloc, blanks(), text, told);
}
