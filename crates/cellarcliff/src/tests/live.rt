//! A live book behind a handle.

use super::texts::{BLANK, Handed};
use crate::live_handle::LiveHandle;
use crate::{
    cellar_live_drop, cellar_live_end, cellar_live_new, cellar_live_read, cellar_live_send,
};
use rx_scarce::{MOST_BLOCKS, Scarce};
use std::alloc::Global;
use std::process::Abort;

const USING: &[u8] = b"{\"do\":\"using\",\"name\":\"a\",\"place\":\"root\",\"res\":\"r\"}";

const OPEN: &[u8] =
    b"{\"do\":\"open\",\"name\":\"b\",\"place\":\"source\",\"of\":\"a\",\"kind\":\"leaf\"}";

const NEXT: &[u8] = b"{\"do\":\"next\",\"node\":\"b\",\"value\":5}";

const DISPOSE: &[u8] = b"{\"do\":\"dispose\",\"node\":\"a\"}";

const LIST: &[u8] = b"{\"do\":\"list\"}";

const FIRST: &str = "{\"ok\":0}";

const TOLD: &str = "{\"ok\":3,\"notes\":[{\"to\":\"a\",\"next\":5}]}";

const LISTED: &str =
    "{\"ok\":2,\"nodes\":[{\"name\":\"a\",\"number\":0,\"kind\":\"pass\",\"place\":\"root\"}],\
        \"resources\":[{\"name\":\"r\",\"number\":1,\"node\":\"a\",\"uses\":0}],\"leases\":[],\"hubs\":[]}";

const FAULTY: &str = "{\"faulty\":\"a command is an object\"}";

const CLOSED: &str = "{\"closed\":true,\"release\":[\"r\"]}";

// What is asked of a handle.
#[derive(Clone, Copy)]
enum Asking {
    Make,
    Send(&'static [u8]),
    Read,
    End,
}

// What is asked, the room of the buffer, and what is answered: the status, and what is handed out.
type Row = (Asking, usize, u8, Handed);

const NOTHING: Handed = Handed::Length(0);

// A handle of C.
struct Client {
    alloc: Global,
    handle: LiveHandle,
}

impl Client {
    // Of a handle of zeros.
    fn new(alloc: Global) -> Client {
        Client {
            alloc,
            handle: LiveHandle::empty(),
        }
    }

    // Asks with this buffer, and answers the status. What it tells goes to `told`.
    fn ask(&mut self, asking: Asking, buffer: &mut [u8], told: &mut usize) -> u8 {
        let (alloc, handle) = (self.alloc, &mut self.handle);
        match asking {
            Asking::Make => cellar_live_new(alloc, handle, 1000),
            Asking::Send(line) => cellar_live_send(alloc, handle, line, buffer, told),
            Asking::Read => cellar_live_read(alloc, handle, buffer, told),
            Asking::End => cellar_live_end(alloc, handle, buffer, told),
        }
    }

    // Whether it is answered as the row says.
    fn is_answered(&mut self, row: Row) -> bool {
        let (asking, room, wanted, handed) = row;
        let (mut buffer, mut told) = (BLANK, 0);
        let status = self.ask(asking, &mut buffer[..room.min(512)], &mut told);
        status == wanted && handed.is_in(&buffer, told)
    }

    // The number of the first row that is answered otherwise.
    fn first_other(&mut self, rows: &[Row]) -> Option<usize> {
        for (at, row) in rows.iter().enumerate() {
            if !self.is_answered(*row) {
                return Some(at);
            }
        }
        None
    }

    // Asks again and again, each time with one more block of memory, until it is done and this is handed out; answers
    // how often memory was refused before. None where something else came of it.
    fn refusals(&mut self, asking: Asking, handed: Handed) -> Option<usize> {
        let mut scarce = Scarce::new(self.alloc).ok()?;
        for refusals in 0..MOST_BLOCKS {
            let (mut buffer, mut told) = (BLANK, 0);
            let status = self.ask(asking, &mut buffer, &mut told);
            if status == 0 && handed.is_in(&buffer, told) {
                return Some(refusals);
            }
            if status != 4 || !NOTHING.is_in(&buffer, told) || !scarce.give_back_one() {
                return None;
            }
        }
        None
    }

    // The number of the first of these that is not done in the end, or was not refused before.
    fn first_stuck(&mut self, asked: &[(Asking, Handed)]) -> Option<usize> {
        for (at, (asking, handed)) in asked.iter().enumerate() {
            if self.refusals(*asking, *handed).unwrap_or(0) == 0 {
                return Some(at);
            }
        }
        None
    }

    // Drops what the handle keeps, and says whether it keeps nothing then.
    fn close(self) -> bool {
        let Client { alloc, mut handle } = self;
        cellar_live_drop(alloc, &mut handle);
        match handle.into_loose(alloc) {
            Some(loose) => {
                drop(loose.into_box());
                false
            }
            None => true,
        }
    }
}

// Asks a handle of zeros so, which keeps nothing in the end.
fn assert_answered(rt: &(impl AllocGlobal + Abort), rows: &[Row]) {
    let mut client = Client::new(rt.alloc());
    let other = client.first_other(rows);
    assert!(rt; client.close());
    assert_eq!(rt; other, None);
}

static SESSION: [Row; 10] = [
    (Asking::Make, 0, 0, NOTHING),
    (Asking::Make, 0, 5, NOTHING),
    (Asking::Send(USING), 512, 0, Handed::Text(FIRST)),
    (Asking::Send(OPEN), 512, 0, Handed::Text("{\"ok\":2}")),
    (Asking::Send(NEXT), 512, 0, Handed::Text(TOLD)),
    (Asking::Send(b"7"), 512, 0, Handed::Text(FAULTY)),
    (Asking::Read, 512, 6, NOTHING),
    (Asking::End, 512, 0, Handed::Text(CLOSED)),
    (Asking::End, 512, 2, NOTHING),
    (Asking::Make, 0, 0, NOTHING),
];

#[test]
fn lines_are_answered_and_the_last_answer_names_what_is_left(rt: HostRuntime) {
    assert_answered(&rt, &SESSION);
}

static WAITING: [Row; 14] = [
    (Asking::Make, 0, 0, NOTHING),
    (Asking::Send(USING), 7, 1, Handed::Length(8)),
    (Asking::Send(DISPOSE), 512, 3, Handed::Length(8)),
    (Asking::End, 512, 3, Handed::Length(8)),
    (Asking::Read, 7, 1, Handed::Length(8)),
    (Asking::Read, 8, 0, Handed::Text(FIRST)),
    (Asking::Read, 8, 6, NOTHING),
    (Asking::Send(LIST), 512, 0, Handed::Text(LISTED)),
    (Asking::End, 30, 1, Handed::Length(31)),
    (Asking::Send(LIST), 512, 3, Handed::Length(31)),
    (Asking::End, 512, 3, Handed::Length(31)),
    (Asking::Make, 0, 5, NOTHING),
    (Asking::Read, 31, 0, Handed::Text(CLOSED)),
    (Asking::Read, 512, 2, NOTHING),
];

#[test]
fn an_answer_that_does_not_fit_waits_and_nothing_is_done_meanwhile(rt: HostRuntime) {
    assert_answered(&rt, &WAITING);
}

static ZEROS: [Row; 3] = [
    (Asking::Send(LIST), 512, 2, NOTHING),
    (Asking::Read, 512, 2, NOTHING),
    (Asking::End, 512, 2, NOTHING),
];

#[test]
fn a_handle_of_zeros_keeps_nothing(rt: HostRuntime) {
    assert_answered(&rt, &ZEROS);
}

static LEFT_WAITING: [Row; 2] = [
    (Asking::Make, 0, 0, NOTHING),
    (Asking::Send(USING), 0, 1, Handed::Length(8)),
];

#[test]
fn what_waits_is_given_back_too(rt: HostRuntime) {
    assert_answered(&rt, &LEFT_WAITING);
}

// Makes a book, subscribes and ends.
static TAKERS: [(Asking, Handed); 4] = [
    (Asking::Make, NOTHING),
    (Asking::Send(USING), Handed::Text(FIRST)),
    (Asking::Send(OPEN), Handed::Text("{\"ok\":2}")),
    (Asking::End, Handed::Text(CLOSED)),
];

#[test]
fn a_call_that_is_refused_memory_did_nothing(rt: HostRuntime) {
    let mut client = Client::new(rt.alloc());
    let stuck = client.first_stuck(&TAKERS);
    assert!(rt; client.close());
    assert_eq!(rt; stuck, None);
}
