//! Memory refused, at many of the places where a run asks for some, before and after its resources are
//! accepted: its closing takes none.

use super::sights::{are_released_once, heard_count, stock_by, trackers};
use crate::same::same;
use crate::scarce::scarce_after;
use rx_resource::{Tracked, Tracker};
use rx_script::{Form, ScriptError, run};
use std::alloc::{AllocError, Global};
use std::process::Abort;
use std::test::Fail;

// What is left in bytes: more than a run takes.
const ROOM: usize = 100_000;

// How many bytes more each run has than the one before it.
const STEP: usize = 64;

// So many runs that the last of them has all of the room.
const RUNS: usize = 1564;

// Each resource hears a word at the next step after the one that hands it in. Most steps are handed to
// the agenda only once all three have heard theirs, and that takes more memory than the reading does.
const SCENARIO: &str =
    "{\"steps\":[{\"do\":\"using\",\"name\":\"a\",\"place\":\"root\",\"res\":\"r\",\"then\":[
    {\"do\":\"apply\",\"res\":\"r\",\"word\":8},
    {\"do\":\"hold\",\"node\":\"a\",\"res\":\"s\"},
    {\"do\":\"apply\",\"res\":\"s\",\"word\":9},
    {\"do\":\"using\",\"name\":\"b\",\"place\":\"root\",\"res\":\"t\"},
    {\"do\":\"apply\",\"res\":\"t\",\"word\":10,\"then\":[
    {\"do\":\"next\",\"node\":\"x\",\"value\":5},
    {\"do\":\"open\",\"name\":\"l\",\"place\":\"source\",\"of\":\"a\",\"kind\":\"leaf\"},
    {\"do\":\"next\",\"node\":\"l\",\"value\":5},
    {\"do\":\"remove\",\"res\":\"s\"},
    {\"do\":\"end\",\"node\":\"l\"},
    {\"do\":\"open\",\"name\":\"f\",\"place\":\"root\",\"kind\":\"flat\"},
    {\"do\":\"open\",\"name\":\"g\",\"place\":\"source\",\"of\":\"f\",\"kind\":\"leaf\"},
    {\"do\":\"next\",\"node\":\"g\",\"value\":1},
    {\"do\":\"open\",\"name\":\"i\",\"place\":\"inner\",\"of\":\"f\",\"kind\":\"leaf\"},
    {\"do\":\"next\",\"node\":\"g\",\"value\":2},
    {\"do\":\"decline\",\"node\":\"f\"},
    {\"do\":\"next\",\"node\":\"g\",\"value\":3},
    {\"do\":\"fail\",\"node\":\"f\",\"error\":4},
    {\"do\":\"open\",\"name\":\"p\",\"place\":\"root\",\"kind\":\"pass\"},
    {\"do\":\"abort\",\"node\":\"p\",\"error\":6},
    {\"do\":\"hub\",\"name\":\"h\",\"mode\":\"auto\"},
    {\"do\":\"open\",\"name\":\"o\",\"place\":\"root\",\"kind\":\"sub\",\"hub\":\"h\",\"connection\":\"c\"},
    {\"do\":\"open\",\"name\":\"e\",\"place\":\"source\",\"of\":\"c\",\"kind\":\"leaf\"},
    {\"do\":\"next\",\"node\":\"e\",\"value\":7},
    {\"do\":\"hub\",\"name\":\"m\",\"mode\":\"manual\"},
    {\"do\":\"connect\",\"hub\":\"m\",\"name\":\"d\"},
    {\"label\":\"x\",\"after\":5,\"do\":\"dispose\",\"node\":\"b\"},
    {\"do\":\"cancel\",\"step\":\"x\"}]}]}]}";

const REPORT: &str = "refused 6 NoName
node a closed: next=5 completed
node b open:
node f closed: project=1 project=2 project=3 error=4
node p closed: error=6
node o open: next=7
res r tag=0 uses=1 waiting
res s tag=1 uses=1 waiting
res t tag=2 uses=1 held
totals nodes=11 open=5 accepted=3 held=1 waiting=2 taken=0
closed 3 faults 0
";

const DUMP: &str =
    "[[\"open\",\"root\",\"pass\"],[\"accept\",0,0],[\"use\",1],[\"accept\",0,1],[\"use\",3],\
    [\"open\",\"root\",\"pass\"],[\"accept\",5,2],[\"use\",6],[\"open\",\"source\",0,\"leaf\"],[\"item\",8,5],\
    [\"remove\",3],[\"end\",8,\"completed\"],[\"end\",0,\"completed\"],[\"open\",\"root\",\"flat\"],\
    [\"open\",\"source\",13,\"leaf\"],[\"item\",14,1],[\"open\",\"inner\",13,\"leaf\"],[\"item\",14,2],[\"decline\",13],\
    [\"item\",14,3],[\"end\",13,\"error\",4],[\"open\",\"root\",\"pass\"],[\"end\",21,\"error\",6],[\"hub\",\"auto\"],\
    [\"open\",\"root\",\"sub\",23],[\"connect\",23],[\"open\",\"source\",25,\"leaf\"],[\"item\",26,7],\
    [\"hub\",\"manual\"],[\"connect\",28]]\n";

// What follows that dump where the names are written too: of nodes, of hubs, of resources.
const NAMES: &str =
    ",\"names\":{\"0\":\"a\",\"5\":\"b\",\"8\":\"l\",\"13\":\"f\",\"14\":\"g\",\"16\":\"i\",\"21\":\"p\",\"24\":\"o\",\
    \"25\":\"c\",\"26\":\"e\",\"29\":\"d\",\"23\":\"h\",\"28\":\"m\",\"1\":\"r\",\"3\":\"s\",\"6\":\"t\"}}\n";

// Resources for a run, and what tells of each.
#[derive(Drop)]
struct Course {
    trackers: Vec<Tracker>,
    stock: Vec<Tracked>,
}

// What a run needs, made while there is memory.
fn new_course(alloc: Global) -> Result<Course, AllocError> {
    let trackers = trackers(alloc, 3)?;
    let stock = stock_by(alloc, &trackers)?;
    Ok(Course { trackers, stock })
}

// What so many runs need.
fn courses(alloc: Global) -> Result<Vec<Course>, AllocError> {
    let mut courses = Vec::new(alloc);
    for _ in 0..RUNS {
        courses.push(new_course(alloc)?)?;
    }
    Ok(courses)
}

// How many of the accepted resources heard a word, where each accepted one was released once: beside
// those there may be one that was accepted last. None where another one was released, or one was not.
fn closed_count(trackers: &[Tracker]) -> Option<usize> {
    let heard = heard_count(trackers);
    if are_released_once(trackers, heard) || are_released_once(trackers, heard.saturating_add(1)) {
        Some(heard)
    } else {
        None
    }
}

// A block that leaves so many steps of the room. Given back, it joins what lies behind it.
fn rest_of_room(alloc: Global, steps: usize) -> Result<Vec<u8>, AllocError> {
    Vec::with_capacity(alloc, ROOM.saturating_sub(steps.saturating_mul(STEP)))
}

// What came of a run: what it gave, or how many resources had heard a word where it was refused memory and released
// what it accepted.
#[derive(Drop)]
enum Outcome {
    Done(String),
    Refused(usize),
}

// One run.
fn run_one(alloc: Global, course: Course, form: Form) -> Result<Outcome, Fail> {
    let Course { trackers, stock } = course;
    match run(alloc, SCENARIO.as_bytes(), stock, form) {
        Ok(text) => Ok(Outcome::Done(text)),
        Err(ScriptError::Memory) => match closed_count(&trackers) {
            Some(heard) => Ok(Outcome::Refused(heard)),
            None => Err(Fail::from("a resource was not released once")),
        },
        Err(_) => Err(Fail::from("it is refused for another cause")),
    }
}

// A run where there is enough memory.
fn run_once(alloc: Global, form: Form) -> Result<(), Fail> {
    match run_one(alloc, new_course(alloc)?, form)? {
        Outcome::Done(_) => Ok(()),
        Outcome::Refused(_) => Err(Fail::from("it is refused where there is enough")),
    }
}

// Runs, each with a step of memory more, until one is done: what it gave, whether one was refused before a resource
// heard its word, and one when all had.
fn run_in_the_end(
    alloc: Global,
    courses: &mut Vec<Course>,
    form: Form,
) -> Result<(String, bool, bool), Fail> {
    let room = rest_of_room(alloc, 0)?;
    let _scarce = scarce_after(alloc, run_once(alloc, form))?;
    drop(room);
    let mut early = false;
    let mut late = false;
    for steps in 0..RUNS {
        let course = courses.pop().ok_or("no run is left")?;
        let _rest = rest_of_room(alloc, steps)?;
        match run_one(alloc, course, form)? {
            Outcome::Refused(heard) => {
                early = early || heard == 0;
                late = late || heard == 3;
            }
            Outcome::Done(text) => return Ok((text, early, late)),
        }
    }
    Err(Fail::from("no run is done"))
}

// Such runs in this form, the last of which gives this text.
fn assert_given(rt: &impl Abort, alloc: Global, form: Form, text: &str) -> Result<(), Fail> {
    let mut courses = courses(alloc)?;
    let (given, early, late) = run_in_the_end(alloc, &mut courses, form)?;
    same(rt, given.as_str(), text);
    assert!(rt; early && late);
    Ok(())
}

#[test]
fn a_run_without_memory_gives_nothing_and_releases_what_it_accepted(
    rt: HostRuntime,
) -> Result<(), Fail> {
    assert_given(&rt, rt.alloc(), Form::Report, REPORT)
}

#[test]
fn a_dump_without_memory_is_not_begun_and_what_was_accepted_is_released(
    rt: HostRuntime,
) -> Result<(), Fail> {
    assert_given(&rt, rt.alloc(), Form::Dump, DUMP)
}

#[test]
fn names_without_memory_are_not_begun_and_what_was_accepted_is_released(
    rt: HostRuntime,
) -> Result<(), Fail> {
    let text = format!(in rt.alloc(); "{{\"dump\":{DUMP}{NAMES}")?;
    assert_given(&rt, rt.alloc(), Form::NamedDump, text.as_str())
}
