//! Calls that take a text, with the texts of a worked example; a fault of the stock is told.

use crate::{cellar_audit, cellar_run, cellar_run_dump};
use std::alloc::Global;

// A subscription with a resource, from its beginning to its end.
pub(super) const FIRST_RUN: &str =
    "{\"steps\":[{\"do\":\"using\",\"name\":\"a\",\"place\":\"root\",\"res\":\"r\"},\
        {\"do\":\"open\",\"name\":\"b\",\"place\":\"source\",\"of\":\"a\",\"kind\":\"leaf\"},\
        {\"do\":\"next\",\"node\":\"b\",\"value\":5},{\"do\":\"end\",\"node\":\"b\"},\
        {\"do\":\"next\",\"node\":\"b\",\"value\":6},{\"do\":\"drain\"}]}";

const FIRST_REPORT: &str =
    "refused 4 Gone\nnode a closed: next=5 completed\nres r tag=0 uses=0 taken\ntotals nodes=2 open=0 accepted=1 held=0 waiting=0 taken=1\nclosed 0 faults 0\n";

// A subscription with five resources, to the last but one of which a release is a fault.
const FAULTY_RUN: &str =
    "{\"steps\":[{\"do\":\"using\",\"name\":\"a\",\"place\":\"root\",\"res\":\"p\"},\
        {\"do\":\"hold\",\"node\":\"a\",\"res\":\"q\"},{\"do\":\"hold\",\"node\":\"a\",\"res\":\"r\"},\
        {\"do\":\"hold\",\"node\":\"a\",\"res\":\"s\"},{\"do\":\"hold\",\"node\":\"a\",\"res\":\"t\"}]}";

const FAULTY_REPORT: &str =
    "node a open:\nres p tag=0 uses=0 held\nres q tag=1 uses=0 held\nres r tag=2 uses=0 held\n\
        res s tag=3 uses=0 held\nres t tag=4 uses=0 held\n\
        totals nodes=1 open=1 accepted=5 held=5 waiting=0 taken=0\nclosed 5 faults 1\n";

pub(super) const FIRST_DUMP: &str =
    "[[\"open\",\"root\",\"pass\"],[\"accept\",0,0],[\"open\",\"source\",0,\"leaf\"],\
        [\"item\",2,5],[\"end\",2,\"completed\"],[\"end\",0,\"completed\"],[\"take\",1]]\n";

const FIRST_VERDICT: &str = "lawful\nlive:\nheld:\nwaiting:\n";

// A subscription that is disposed of twice.
pub(super) const DISPOSED_TWICE: &str =
    "[[\"open\",\"root\",\"leaf\"],[\"close\",0],[\"close\",0]]";

// What a call hands out beside its status.
#[derive(Clone, Copy)]
pub(super) enum Handed {
    // This text, at the front of the buffer.
    Text(&'static str),
    // This length alone.
    Length(usize),
}

// What the buffers of the tests are filled with.
pub(super) const BLANK: [u8; 512] = [7; 512];

impl Handed {
    // Whether a buffer that was blank has it and nothing else, and its length was told.
    pub(super) fn is_in(self, buffer: &[u8], told: usize) -> bool {
        let (text, length) = match self {
            Handed::Text(text) => (text.as_bytes(), text.len()),
            Handed::Length(length) => (b"".as_slice(), length),
        };
        match buffer.split_at_checked(text.len()) {
            Some((front, rest)) => {
                told == length && front == text && rest.iter().all(|byte| *byte == 7)
            }
            None => false,
        }
    }
}

// What is called.
#[derive(Clone, Copy)]
enum Call {
    Run,
    Dump,
    Audit,
}

// A call, its input, the room of its buffer, and what it answers: its status, and what it hands out.
type Step = (Call, &'static str, usize, u8, Handed);

// Whether the call answers so.
fn is_answered(alloc: Global, step: Step) -> bool {
    let (call, input, room, wanted, handed) = step;
    let mut buffer = BLANK;
    let mut told = 0;
    let front = &mut buffer[..room.min(512)];
    let status = match call {
        Call::Run => cellar_run(alloc, input.as_bytes(), front, &mut told),
        Call::Dump => cellar_run_dump(alloc, input.as_bytes(), front, &mut told),
        Call::Audit => cellar_audit(alloc, input.as_bytes(), front, &mut told),
    };
    status == wanted && handed.is_in(&buffer, told)
}

static STEPS: [Step; 7] = [
    (Call::Run, FIRST_RUN, 256, 0, Handed::Text(FIRST_REPORT)),
    (Call::Dump, FIRST_RUN, 256, 0, Handed::Text(FIRST_DUMP)),
    (Call::Audit, FIRST_DUMP, 256, 0, Handed::Text(FIRST_VERDICT)),
    (Call::Run, FAULTY_RUN, 512, 0, Handed::Text(FAULTY_REPORT)),
    (
        Call::Audit,
        DISPOSED_TWICE,
        64,
        5,
        Handed::Text("unlawful 2\n"),
    ),
    (Call::Audit, DISPOSED_TWICE, 10, 1, Handed::Length(11)),
    (Call::Run, "{}", 10, 3, Handed::Length(0)),
];

#[test]
fn a_text_is_run_and_judged_and_a_small_buffer_learns_what_it_needs(rt: HostRuntime) {
    for (at, step) in STEPS.iter().enumerate() {
        assert!(rt; is_answered(rt.alloc(), *step), "at {at}");
    }
}
