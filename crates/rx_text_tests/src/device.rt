//! Streams below the reading and writing of texts: a failure is the stream's own, and none is made up.

use super::same::same;
use super::streams::{Narrow, Source};
use rx_device::{MOST_BYTES, MOST_TURNS, ScriptError, Watched, WriteFault, read_all, write_text};
use std::alloc::{AllocError, Global};
use std::test::Fail;

const TEXT: &[u8] = b"[1,2,3,4]";

// The fault of reading it, if there was one, and how often it was asked.
fn read_once(
    alloc: Global,
    bytes: &[u8],
    piece: usize,
    fails_at: u64,
) -> (Option<ScriptError>, u64) {
    let mut source = Source::new(bytes, piece, fails_at);
    let fault = read_all(alloc, &mut Watched::new(&mut source)).err();
    (fault, source.asked)
}

#[test]
fn a_reader_fails_where_it_was_asked_and_failed(rt: HostRuntime) {
    let (fault, asked) = read_once(rt.alloc(), TEXT, 3, u64::MAX);
    assert!(rt; fault.is_none());
    same(&rt, asked, 4);
    for fails_at in 0..4 {
        let (fault, asked) = read_once(rt.alloc(), TEXT, 3, fails_at);
        assert!(rt; matches!(fault, Some(ScriptError::Read)));
        same(&rt, asked, fails_at + 1);
    }
}

// So many spaces.
fn spaces(alloc: Global, length: usize) -> Result<Vec<u8>, AllocError> {
    let mut text = Vec::new(alloc);
    for _ in 0..length {
        text.push(b' ')?;
    }
    Ok(text)
}

// No reader takes more turns for as many bytes than one that gives them one by one. That of the longest input is
// done in half of the turns that there are, and a longer input is too long before they are over: so no reader
// meets their bound that goes on giving bytes, and all meet its end.
#[test]
fn the_slowest_reader_is_read_within_the_bound_on_turns(rt: HostRuntime) -> Result<(), Fail> {
    let longest = spaces(rt.alloc(), MOST_BYTES)?;
    let (fault, asked) = read_once(rt.alloc(), longest.as_slice(), 1, u64::MAX);
    assert!(rt; fault.is_none());
    let longer = spaces(rt.alloc(), MOST_BYTES + 1)?;
    let (too_long, asked_of_longer) = read_once(rt.alloc(), longer.as_slice(), 1, u64::MAX);
    assert!(rt; matches!(too_long, Some(ScriptError::Syntax)));
    let most = MOST_BYTES as u64;
    same(
        &rt,
        [asked, asked_of_longer, u64::from(MOST_TURNS)],
        [most + 1, most + 1, 2 * most],
    );
    Ok(())
}

// What came of writing to a writer of so much room that takes three bytes at a time, how often it was asked, and how
// many bytes it took.
fn write_once(alloc: Global, room: usize, is_stuck: bool) -> (Result<(), WriteFault>, u64, usize) {
    let mut narrow = Narrow::new(alloc, 3, room, is_stuck);
    let written = write_text(&mut Watched::new(&mut narrow), TEXT);
    (written, narrow.asked, narrow.taken.len())
}

#[test]
fn a_writer_fails_where_it_was_asked_and_failed_or_took_none(rt: HostRuntime) {
    for is_stuck in [false, true] {
        for (room, told) in [
            (100, (Ok(()), 3, 9)),
            (0, (Err(WriteFault), 1, 0)),
            (3, (Err(WriteFault), 2, 3)),
            (6, (Err(WriteFault), 3, 6)),
        ] {
            same(&rt, write_once(rt.alloc(), room, is_stuck), told);
        }
    }
}
