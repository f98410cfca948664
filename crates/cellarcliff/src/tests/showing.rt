//! A history with its names, its picture, and what is wrong with an input.

use super::texts::{BLANK, DISPOSED_TWICE, FIRST_DUMP, FIRST_RUN, Handed};
use crate::{cellar_explain, cellar_picture, cellar_run_names};
use std::alloc::Global;

const FIRST_NAMES: &str =
    "{\"dump\":[[\"open\",\"root\",\"pass\"],[\"accept\",0,0],[\"open\",\"source\",0,\"leaf\"],\
        [\"item\",2,5],[\"end\",2,\"completed\"],[\"end\",0,\"completed\"],[\"take\",1]]\n\
        ,\"names\":{\"0\":\"a\",\"2\":\"b\",\"1\":\"r\"}}\n";

const TWICE_TOLD: &str = "event 2, [\"close\",0]: node 0 is closed, by event 1";

#[derive(Clone, Copy)]
enum Call {
    Names,
    Picture,
    Explain,
}

// A call, its input, the room of its buffer, and what it answers: its status, and what it hands out.
type Step = (Call, &'static str, usize, u8, Handed);

fn is_answered(alloc: Global, step: Step) -> bool {
    let (call, input, room, wanted, handed) = step;
    let mut buffer = BLANK;
    let mut told = 0;
    let front = &mut buffer[..room.min(512)];
    let status = match call {
        Call::Names => cellar_run_names(alloc, input.as_bytes(), front, &mut told),
        Call::Picture => cellar_picture(alloc, input.as_bytes(), front, &mut told),
        Call::Explain => cellar_explain(alloc, input.as_bytes(), front, &mut told),
    };
    status == wanted && handed.is_in(&buffer, told)
}

static STEPS: [Step; 8] = [
    (Call::Names, FIRST_RUN, 512, 0, Handed::Text(FIRST_NAMES)),
    (Call::Names, "{}", 512, 3, Handed::Length(0)),
    (Call::Picture, "{}", 512, 3, Handed::Length(0)),
    (Call::Picture, "[[", 512, 3, Handed::Length(0)),
    (Call::Explain, FIRST_RUN, 512, 0, Handed::Text("")),
    (Call::Explain, FIRST_DUMP, 512, 0, Handed::Text("")),
    (
        Call::Explain,
        DISPOSED_TWICE,
        512,
        5,
        Handed::Text(TWICE_TOLD),
    ),
    (Call::Explain, DISPOSED_TWICE, 8, 1, Handed::Length(50)),
];

#[test]
fn names_and_explanations_are_handed_out(rt: HostRuntime) {
    for (at, step) in STEPS.iter().enumerate() {
        assert!(rt; is_answered(rt.alloc(), *step), "at {at}");
    }
}

#[test]
fn a_picture_has_the_names_and_a_small_buffer_learns_what_it_needs(rt: HostRuntime) {
    let mut needed = 0;
    let named = FIRST_NAMES.as_bytes();
    let small = cellar_picture(rt.alloc(), named, &mut BLANK, &mut needed);
    let mut buffer = [0u8; 8192];
    let mut told = 0;
    let status = cellar_picture(rt.alloc(), named, &mut buffer, &mut told);
    assert!(rt;
        small == 1 && status == 0 && told == needed && told < 8192,
        "the statuses"
    );
    let picture = &buffer[..told.min(8192)];
    match std::str::from_utf8(picture) {
        Ok(text) => assert!(rt;
            text.starts_with("<svg ") && text.contains("0 (a)"),
            "the picture"
        ),
        Err(_) => assert!(rt; false, "no text"),
    }
}
