//! Memory that is refused, and comes back.

use crate::scarce::scarce_after;
use rx_live::Live;
use rx_scarce::{MOST_BLOCKS, Scarce};
use std::alloc::{AllocError, Global};
use std::test::Fail;

static LINES: [&str; 12] = [
    r#"{"do":"using","name":"a","place":"root","res":"r"}"#,
    r#"{"do":"open","name":"b","place":"source","of":"a","kind":"leaf"}"#,
    r#"{"do":"hold","node":"b","res":"s"}"#,
    r#"{"do":"lease","res":"s","name":"l"}"#,
    r#"{"do":"hub","name":"h","mode":"auto"}"#,
    r#"{"do":"open","name":"c","place":"root","kind":"sub","hub":"h","connection":"d","res":"t"}"#,
    r#"{"do":"next","node":"b","value":5}"#,
    r#"{"do":"checkpoint"}"#,
    r#"{"do":"next","node":"b","value":6}"#,
    r#"{"do":"end","node":"b"}"#,
    r#"{"do":"return","lease":"l"}"#,
    r#"{"do":"drain"}"#,
];

// What all answers tell of notes, of what is to be released, and of what was closed, which is not said again.
struct Told {
    notes: String,
    released: String,
    closed: String,
    // Whether memory was refused for nothing of the answer to the line at which it was scarce.
    is_whole: bool,
}

impl Drop for Told {
    fn drop(self) {
        let Told {
            notes: _notes,
            released: _released,
            closed: _closed,
            is_whole: _,
        } = self;
    }
}

// Puts behind what was told what a member of an answer has between its brackets.
fn keep(told: &mut String, answer: &str, member: &str) -> Result<(), AllocError> {
    if let Some((_, rest)) = answer.split_once(member) {
        if let Some((piece, _)) = rest.split_once("]") {
            told.push_str(piece)?;
            told.push(',')?;
        }
    }
    Ok(())
}

impl Told {
    fn new(alloc: Global) -> Result<Told, AllocError> {
        Ok(Told {
            notes: String::with_capacity(alloc, 1_000)?,
            released: String::with_capacity(alloc, 1_000)?,
            closed: String::with_capacity(alloc, 1_000)?,
            is_whole: true,
        })
    }

    fn keep(&mut self, answer: &str) -> Result<(), AllocError> {
        keep(&mut self.notes, answer, "\"notes\":[")?;
        keep(&mut self.released, answer, "\"release\":[")?;
        keep(&mut self.closed, answer, "\"closed\":[")
    }

    // Whether it is as where memory is ample; what was closed is only named where there was memory for it.
    fn is_as(&self, ample: &Told) -> bool {
        self.notes.as_str() == ample.notes.as_str()
            && self.released.as_str() == ample.released.as_str()
            && (!self.is_whole || self.closed.as_str() == ample.closed.as_str())
    }
}

// Sends each line, and ends, where there is enough memory.
fn send_all(alloc: Global) -> Result<(), Fail> {
    let mut live = Live::new(alloc, 1_000)?;
    for line in &LINES {
        live.send(line.as_bytes())?;
    }
    live.end()?;
    Ok(())
}

// Sends a line where so many blocks of memory are left, and again, each time with one more, until it is taken.
fn take_at_last(alloc: Global, live: &mut Live, line: &str, blocks: usize) -> Result<(), Fail> {
    let mut scarce = scarce_after(alloc, send_all(alloc))?;
    for turn in 0..MOST_BLOCKS {
        if turn >= blocks && live.send(line.as_bytes()).is_ok() {
            return Ok(());
        }
        if !scarce.give_back_one() {
            break;
        }
    }
    Err(Fail::from("a line is not taken"))
}

// Whether an answer says that memory was refused for a part of it.
fn lacks_some(answer: &str) -> bool {
    answer.ends_with(",\"late\":true}") || answer.contains("\"closed\":null")
}

// Sends a line, where so many blocks of memory are left if it says so, and keeps what is told.
fn tell_line(
    alloc: Global,
    live: &mut Live,
    told: &mut Told,
    line: &str,
    left: Option<usize>,
) -> Result<(), Fail> {
    if let Some(blocks) = left {
        take_at_last(alloc, live, line, blocks)?;
        told.is_whole = !lacks_some(live.answer());
    } else {
        live.send(line.as_bytes())?;
    }
    told.keep(live.answer())?;
    Ok(())
}

// Ends, and keeps what is told.
fn tell_end(live: &mut Live, told: &mut Told) -> Result<(), Fail> {
    live.end()?;
    told.keep(live.answer())?;
    Ok(())
}

// All that is told of the lines, where so many blocks are left at the line of this number.
fn told_of(alloc: Global, scarce_at: usize, blocks: usize) -> Result<Told, Fail> {
    let mut told = Told::new(alloc)?;
    let mut live = Live::new(alloc, 1_000)?;
    for (number, line) in LINES.iter().enumerate() {
        let left = if number == scarce_at {
            Some(blocks)
        } else {
            None
        };
        tell_line(alloc, &mut live, &mut told, line, left)?;
    }
    tell_end(&mut live, &mut told)?;
    Ok(told)
}

// Whether the same is told where no memory is left at the line of this number, where one block is left, and so on until its
// answer is whole.
fn is_told_in_the_end(alloc: Global, number: usize, ample: &Told) -> Result<bool, Fail> {
    for blocks in 0..MOST_BLOCKS {
        let told = told_of(alloc, number, blocks)?;
        if !told.is_as(ample) || told.is_whole {
            return Ok(told.is_as(ample));
        }
    }
    Ok(false)
}

// The number of the first of these lines at which something else is told where memory is scarce.
fn first_other(alloc: Global, first: usize, end: usize) -> Result<Option<usize>, Fail> {
    let ample = told_of(alloc, LINES.len(), 0)?;
    for number in first..end {
        if !is_told_in_the_end(alloc, number, &ample)? {
            return Ok(Some(number));
        }
    }
    Ok(None)
}

// How many of these lines are not taken without memory. Those behind them are, and what finds none then is told later.
const TAKING: usize = 9;

#[test]
fn the_same_is_told_where_memory_is_refused_at_a_line_that_takes_some(
    rt: HostRuntime,
) -> Result<(), Fail> {
    assert_eq!(rt; first_other(rt.alloc(), 0, TAKING)?, None);
    Ok(())
}

#[test]
fn what_a_line_that_closes_had_no_memory_to_tell_is_told_later(
    rt: HostRuntime,
) -> Result<(), Fail> {
    assert_eq!(rt; first_other(rt.alloc(), TAKING, LINES.len())?, None);
    Ok(())
}

// A root with a resource and a source, and an item, which is emitted so often.
const ROOT: &str = r#"{"do":"using","name":"a","place":"root","res":"r"}"#;

const SOURCE: &str = r#"{"do":"open","name":"b","place":"source","of":"a","kind":"leaf"}"#;

const ITEM: &str = r#"{"do":"next","node":"b","value":5}"#;

const ITEMS: u32 = 1_500;

// What one block of memory has in bytes: less than a dump of these items, each of which takes 12, and more than all else
// that the array asks for.
const LEFT: usize = 16_000;

const ARRAY: &str =
    r#"[{"do":"dump"},{"do":"hold","node":"a","res":"s"},{"do":"dump"},{"do":"next","node":"b","value":6},{"do":"drain"}]"#;

const TAKEN: &str =
    r#"[{"refused":"NoMemory"},{"ok":1503},{"refused":"NoMemory"},{"ok":1504,"notes":[{"to":"a","next":6}]},{"ok":1505}]"#;

// A live book with such a history.
fn with_items(alloc: Global) -> Result<Live, AllocError> {
    let mut live = Live::new(alloc, 10_000)?;
    live.send(ROOT.as_bytes())?;
    live.send(SOURCE.as_bytes())?;
    for _ in 0..ITEMS {
        live.send(ITEM.as_bytes())?;
    }
    Ok(live)
}

// Sends the array to such a book where there is enough memory.
fn send_with_much(alloc: Global) -> Result<(), Fail> {
    let mut live = with_items(alloc)?;
    live.send(ARRAY.as_bytes())?;
    Ok(())
}

// Sends the array where one such block is left.
fn send_with_little(alloc: Global, live: &mut Live) -> Result<(), Fail> {
    let block: Vec<u8> = Vec::with_capacity(alloc, LEFT)?;
    let _scarce = scarce_after(alloc, send_with_much(alloc))?;
    drop(block);
    live.send(ARRAY.as_bytes())?;
    Ok(())
}

#[test]
fn an_array_goes_on_behind_an_element_that_finds_no_memory(rt: HostRuntime) -> Result<(), Fail> {
    let mut live = with_items(rt.alloc())?;
    send_with_little(rt.alloc(), &mut live)?;
    assert_eq!(rt; live.answer(), TAKEN);
    Ok(())
}

// What a session has that is closed without memory. The last line is answered without any, so none comes back with its answer.
static OPENED: [&str; 10] = [
    r#"{"do":"using","name":"a","place":"root","res":"r"}"#,
    r#"{"do":"open","name":"b","place":"source","of":"a","kind":"leaf"}"#,
    r#"{"do":"hold","node":"a","res":"s"}"#,
    r#"{"do":"lease","res":"r","name":"l"}"#,
    r#"{"do":"hold","node":"a","res":"t"}"#,
    r#"{"do":"hub","name":"h","mode":"manual"}"#,
    r#"{"do":"connect","hub":"h"}"#,
    r#"{"do":"open","name":"c","place":"root","kind":"leaf","res":"u"}"#,
    r#"{"do":"open","name":"d","place":"root","kind":"leaf","res":"v"}"#,
    r#"{"do":"drain"}"#,
];

// Lines that take no memory, with and without blanks, and their answers where there is none: no note and no name of a node
// is told, and where there is a name to tell the answer says so.
static CLOSING: [(&str, &str); 9] = [
    (
        r#"{"do":"decline","node":"a"}"#,
        r#"{"refused":"WrongKind"}"#,
    ),
    (
        r#"{ "do" : "end", "node": "b" } "#,
        r#"{"ok":12,"closed":null,"release":["s","t"],"late":true}"#,
    ),
    (r#"{"do":"drain"}"#, r#"{"ok":16,"late":true}"#),
    (
        r#"{"do":"return","lease":"l"}"#,
        r#"{"ok":16,"release":["r"],"late":true}"#,
    ),
    (
        r#"{"do":"remove","res":"u"}"#,
        r#"{"ok":18,"release":["u"],"late":true}"#,
    ),
    (
        r#"{"do":"disconnect","hub":"h"}"#,
        r#"{"ok":20,"late":true}"#,
    ),
    (r#"{"do":"dispose","node":"c"}"#, r#"{"ok":21,"late":true}"#),
    (r#"{"do":"dispose","node":"c"}"#, r#"{"refused":"NoName"}"#),
    (r#"{"do":"dispose","node":"a"}"#, r#"{"refused":"NoName"}"#),
];

// A live book that has all that.
fn opened(alloc: Global) -> Result<Live, AllocError> {
    let mut live = Live::new(alloc, 1_000)?;
    for line in &OPENED {
        live.send(line.as_bytes())?;
    }
    Ok(live)
}

// Sends these lines to such a book, and ends, where there is enough memory.
fn close_with_much(alloc: Global) -> Result<(), Fail> {
    let mut live = opened(alloc)?;
    for (line, _) in &CLOSING {
        live.send(line.as_bytes())?;
    }
    live.shut();
    let _last = live.next_release();
    Ok(())
}

// Whether a line is taken, and answered so.
fn is_taken(live: &mut Live, (line, answer): (&'static str, &'static str)) -> bool {
    live.send(line.as_bytes()).is_ok() && live.answer() == answer
}

// The number of the first of these lines that is answered otherwise.
fn first_unlike(live: &mut Live) -> Option<usize> {
    for (number, row) in CLOSING.iter().enumerate() {
        if !is_taken(live, *row) {
            return Some(number);
        }
    }
    None
}

// Sends these lines where no memory is left, and ends there. The number of the first line that was answered otherwise, and
// whether the end released what was left, which is one resource.
fn close_starved(live: &mut Live, scarce: &Scarce) -> (Option<usize>, bool) {
    let _blocks = scarce.block_count();
    let other = first_unlike(live);
    live.shut();
    let is_last = match live.next_release() {
        Some(name) => name.as_str() == "v",
        None => false,
    };
    (other, is_last && live.next_release().is_none())
}

#[test]
fn closing_lines_and_the_end_take_no_memory(rt: HostRuntime) -> Result<(), Fail> {
    let alloc = rt.alloc();
    let mut live = opened(alloc)?;
    let scarce = scarce_after(alloc, close_with_much(alloc))?;
    let (other, is_released) = close_starved(&mut live, &scarce);
    drop(scarce);
    assert_eq!(rt; (other, is_released), (None, true));
    Ok(())
}
