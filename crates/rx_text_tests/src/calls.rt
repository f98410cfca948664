//! The program `rxbook` over memory: statuses and lines, storms, help, streams that fail, and refused memory.

use super::same::same;
use super::scarce::scarce_after;
use super::streams::{Narrow, Source};
use rx_cli::{keep, serve, split_file};
use rx_device::Watched;
use rx_script::stock;
use std::alloc::{AllocError, Global};
use std::io::{Read, Write};
use std::process::Abort;
use std::sync::Wait;
use std::test::Fail;
use std::thread::Threads;

const NOTHING_DONE: &str =
    "totals nodes=0 open=0 accepted=0 held=0 waiting=0 taken=0\nclosed 0 faults 0\n";

// A subscriber of a RefCount hub that is not connected yet.
const NOT_CONNECTED: &str = "[[\"hub\",\"auto\"],[\"open\",\"root\",\"sub\",0]]";

// Two subscriptions with a resource each, of which the second is closed.
const HALF_CLOSED: &str =
    "[[\"open\",\"root\",\"pass\"],[\"accept\",0,7],[\"open\",\"root\",\"leaf\"],[\"accept\",2,8],[\"close\",2]]\n";

const HALF_CLOSED_VERDICT: &str = "lawful\nlive: 0\nheld: 1\nwaiting: 3\n";

// A FlatMap below a hub's connection, with an item projected to it, an inner that pays for that and whose
// item the hub's subscriber is told, a resource that is held and one that waits; and a root that was
// opened and closed.
const A_SHARED_LIFE: &str =
    "[[\"hub\",\"auto\"],[\"open\",\"root\",\"sub\",0],[\"connect\",0],[\"open\",\"source\",2,\"flat\"],\
    [\"open\",\"source\",3,\"leaf\"],[\"accept\",2,9],[\"accept\",4,8],[\"item\",4,1],\
    [\"open\",\"inner\",3,\"leaf\"],[\"item\",8,2],[\"use\",5],[\"remove\",6],[\"open\",\"root\",\"leaf\"],\
    [\"close\",12]]";

const A_SHARED_LIFE_LEFT: &str = "lawful\nlive: 1 2 3 4 8\nheld: 5\nwaiting: 6\n";

// What stands here for the status where a live book is ordered, which is left to another call.
const LEFT: u8 = 255;

// Does what the words order, with the program's stock.
fn serve_into<T: Threads + Wait + Sync, R: Read, W: Write, E: Write>(
    rt: &T,
    alloc: Global,
    words: &[&str],
    reader: &mut R,
    output: &mut W,
    errors: &mut E,
) -> Result<u8, AllocError> {
    let stock = stock(alloc)?;
    let status = serve(
        rt,
        alloc,
        words,
        stock,
        &mut Watched::new(reader),
        &mut Watched::new(output),
        &mut Watched::new(errors),
    );
    Ok(status.unwrap_or(LEFT))
}

// How the streams of a call fail.
#[derive(Clone, Copy)]
enum Flaw {
    // Not at all.
    None,
    // The input, at the second read.
    Torn,
    // The output, behind ten bytes.
    Full,
    // The output takes no byte behind ten.
    Stuck,
    // The errors, behind three bytes.
    Deaf,
}

// Words, an input, and what the call leaves: its status, its output and its errors.
type Row = (
    &'static [&'static str],
    &'static str,
    u8,
    &'static str,
    &'static str,
);

// More than a stream gives or takes.
const MUCH: usize = usize::MAX;

// Makes a call over memory, with this flaw. It reads all, or nothing where the words are refused or need no input.
fn assert_row<T: Threads + Wait + Sync + Abort>(
    rt: &T,
    alloc: Global,
    flaw: Flaw,
    row: &Row,
) -> Result<(), Fail> {
    let (words, input, status, output, errors) = *row;
    let (fails_at, room, deaf_after, is_stuck) = match flaw {
        Flaw::None => (u64::MAX, MUCH, MUCH, false),
        Flaw::Torn => (1, MUCH, MUCH, false),
        Flaw::Full => (u64::MAX, 10, MUCH, false),
        Flaw::Stuck => (u64::MAX, 10, MUCH, true),
        Flaw::Deaf => (u64::MAX, MUCH, 3, false),
    };
    let mut reader = Source::new(input.as_bytes(), MUCH, fails_at);
    let mut told = Narrow::new(alloc, MUCH, room, is_stuck);
    let mut faults = Narrow::new(alloc, MUCH, deaf_after, false);
    let found = serve_into(rt, alloc, words, &mut reader, &mut told, &mut faults)?;
    let is_unread = status == 2 || input == UNREAD;
    let unread = if is_unread { input.len() } else { 0 };
    same(
        rt,
        (found, told.taken.as_slice(), faults.taken.as_slice()),
        (status, output.as_bytes(), errors.as_bytes()),
    );
    same(rt, reader.bytes.len(), unread);
    Ok(())
}

// Makes these calls, each with this flaw.
fn assert_rows<T: Threads + Wait + Sync + Abort>(
    rt: &T,
    alloc: Global,
    flaw: Flaw,
    rows: &[Row],
) -> Result<(), Fail> {
    for row in rows {
        assert_row(rt, alloc, flaw, row)?;
    }
    Ok(())
}

// What a call that reads nothing is given.
const UNREAD: &str = "unread";

const EMPTY: &str = "{\"steps\":[]}";

// A subscriber of a hub, whose connection has a name, and a source that holds a resource.
const SHARED: &str = "\
{\"steps\":[{\"do\":\"hub\",\"name\":\"prices\",\"mode\":\"auto\"},\
{\"do\":\"open\",\"name\":\"screen\",\"place\":\"root\",\"kind\":\"sub\",\"hub\":\"prices\",\"connection\":\"feed\"},\
{\"do\":\"using\",\"name\":\"line\",\"place\":\"source\",\"of\":\"feed\",\"res\":\"socket\"}]}";

const SHARED_WITH_NAMES: &str = "\
{\"dump\":[[\"hub\",\"auto\"],[\"open\",\"root\",\"sub\",0],[\"connect\",0],[\"open\",\"source\",2,\"pass\"],[\"accept\",3,0]]
,\"names\":{\"1\":\"screen\",\"2\":\"feed\",\"3\":\"line\",\"0\":\"prices\",\"4\":\"socket\"}}
";

// One step, which is refused.
const REFUSED: &str = "{\"steps\":[{\"do\":\"dispose\",\"node\":\"a\"}]}";

// What is open and held there, by names of which one is missing and one is no plain word.
const NAMED: &str =
    "{\"dump\":[[\"open\",\"root\",\"pass\"],[\"accept\",0,7],[\"open\",\"root\",\"leaf\"],[\"accept\",2,8],\
    [\"close\",2]],\"names\":{\"0\":\"screen\",\"3\":\"a \\\"b\\\"\\n\",\"2\":5}}";

const NAMED_VERDICT: &str = "lawful\nlive: 0 \"screen\"\nheld: 1\nwaiting: 3 \"a \\\"b\\\"\\n\"\n";

// A subscription that tells an item and ends, with a step that is cancelled and one that is refused; and one that is
// unsubscribed behind a checkpoint.
const TRACED: &str =
    "{\"steps\":[{\"do\":\"using\",\"name\":\"a\",\"place\":\"root\",\"res\":\"r\"},\
    {\"do\":\"open\",\"name\":\"b\",\"place\":\"source\",\"of\":\"a\",\"kind\":\"leaf\"},\
    {\"at\":5,\"do\":\"next\",\"node\":\"b\",\"value\":7,\"then\":[\
    {\"after\":4,\"do\":\"next\",\"node\":\"b\",\"value\":8,\"label\":\"late\"}]},\
    {\"at\":6,\"do\":\"cancel\",\"step\":\"late\"},{\"at\":6,\"do\":\"end\",\"node\":\"b\"},\
    {\"at\":7,\"do\":\"next\",\"node\":\"b\",\"value\":9},{\"at\":8,\"do\":\"drain\"},\
    {\"at\":9,\"do\":\"using\",\"name\":\"c\",\"place\":\"root\",\"res\":\"q\"},\
    {\"at\":10,\"do\":\"checkpoint\"},{\"at\":11,\"do\":\"dispose\",\"node\":\"c\"}]}";

const TRACE: &str = "\
{\"step\":0,\"at\":0,\"do\":\"using\",\"name\":\"a\",\"ok\":0}
{\"step\":1,\"at\":0,\"do\":\"open\",\"name\":\"b\",\"ok\":2}
{\"step\":2,\"at\":5,\"do\":\"next\",\"node\":\"b\",\"ok\":3,\"notes\":[{\"to\":\"a\",\"next\":7}]}
{\"step\":3,\"at\":6,\"do\":\"cancel\",\"label\":\"late\",\"ok\":4}
{\"step\":4,\"at\":6,\"do\":\"end\",\"node\":\"b\",\"ok\":4,\"notes\":[{\"to\":\"a\",\"completed\":true}],\"waits\":[\"r\"]}
{\"step\":5,\"at\":7,\"do\":\"next\",\"node\":\"b\",\"refused\":\"Gone\",\"waits\":[\"r\"]}
{\"step\":6,\"at\":8,\"do\":\"drain\",\"ok\":6,\"release\":[\"r\"]}
{\"step\":7,\"at\":9,\"do\":\"using\",\"name\":\"c\",\"ok\":7}
{\"step\":8,\"at\":10,\"do\":\"checkpoint\",\"ok\":9}
{\"step\":9,\"at\":11,\"do\":\"dispose\",\"node\":\"c\",\"ok\":9,\"waits\":[\"q\"]}
{\"closed\":true,\"release\":[\"q\"]}
";

static OUTCOMES: [Row; 39] = [
    (&["rxbook"], EMPTY, 0, NOTHING_DONE, ""),
    (&["rxbook", "run"], EMPTY, 0, NOTHING_DONE, ""),
    (&["rxbook", "run", "--dump"], EMPTY, 0, "[]\n", ""),
    (
        &["rxbook", "run", "--dump", "--names"],
        SHARED,
        0,
        SHARED_WITH_NAMES,
        "",
    ),
    (&["rxbook", "run", "--trace"], TRACED, 0, TRACE, ""),
    (
        &["rxbook", "run", "--trace", "--strict"],
        TRACED,
        6,
        TRACE,
        "",
    ),
    (&["rxbook", "run", "--strict"], EMPTY, 0, NOTHING_DONE, ""),
    (
        &["rxbook", "run", "--strict", "--dump"],
        REFUSED,
        6,
        "[]\n",
        "",
    ),
    (&["rxbook", "run", "--dump"], REFUSED, 0, "[]\n", ""),
    (
        &["rxbook", "run", "--trace"],
        "[]",
        3,
        "",
        "rxbook: faulty input\nrxbook: this is a history; try rxbook audit\n",
    ),
    (
        &["rxbook"],
        "{\"steps\":[",
        3,
        "",
        "rxbook: faulty input\nrxbook: line 1, column 10: the JSON text ends too early\n",
    ),
    (
        &["rxbook"],
        NAMED,
        3,
        "",
        "rxbook: faulty input\nrxbook: this is a history with its names; try rxbook audit --names\n",
    ),
    (
        &["rxbook", "run", "--dump"],
        "{\"steps\":[{\"do\":\"checkpoint\"}]}",
        3,
        "",
        "rxbook: faulty input\nrxbook: a scenario that has a checkpoint has no history to print; try rxbook run\n",
    ),
    (
        &["rxbook", "audit"],
        HALF_CLOSED,
        0,
        HALF_CLOSED_VERDICT,
        "",
    ),
    (
        &["rxbook", "audit"],
        "[[\"take\",0]]",
        5,
        "unlawful 0\n",
        "",
    ),
    (&["rxbook", "audit"], NOT_CONNECTED, 5, "unsettled\n", ""),
    (&["rxbook", "audit"], NAMED, 0, HALF_CLOSED_VERDICT, ""),
    (&["rxbook", "audit", "--names"], NAMED, 0, NAMED_VERDICT, ""),
    (
        &["rxbook", "audit", "--names"],
        HALF_CLOSED,
        0,
        HALF_CLOSED_VERDICT,
        "",
    ),
    (
        &["rxbook", "audit", "--names"],
        "{\"names\":{\"0\":\"x\"},\"dump\":[[\"take\",0]]}",
        5,
        "unlawful 0\n",
        "",
    ),
    (
        &["rxbook", "audit"],
        "{\"dump\":7}",
        3,
        "",
        "rxbook: faulty input\nrxbook: .dump: an array of events is expected, and this is 7\n",
    ),
    (
        &["rxbook", "audit", "--names"],
        "[7]",
        3,
        "",
        "rxbook: faulty input\nrxbook: event 0: an event is an array, and this is 7\n",
    ),
    (
        &["rxbook", "audit"],
        EMPTY,
        3,
        "",
        "rxbook: faulty input\nrxbook: this is a scenario; try rxbook run\n",
    ),
    (&["rxbook", "explain"], EMPTY, 0, "", ""),
    (
        &["rxbook", "explain"],
        NOT_CONNECTED,
        3,
        "at the end the rules force another event, as [\"connect\",0]\n",
        "",
    ),
    (
        &["rxbook", "picture"],
        "[[",
        3,
        "",
        "rxbook: faulty input\nrxbook: line 1, column 2: the JSON text ends too early\n",
    ),
    (
        &["rxbook", "picture"],
        EMPTY,
        3,
        "",
        "rxbook: faulty input\nrxbook: this is a scenario; rxbook run --names prints what rxbook picture draws\n",
    ),
    (&["rxbook", "live"], UNREAD, LEFT, "", ""),
    (
        &["rxbook", "bad"],
        EMPTY,
        2,
        "",
        "error: unrecognized subcommand 'bad'\n\nUsage: rxbook [COMMAND] [FILE]\n\nFor more information, try '--help'.\n",
    ),
    (
        &["rxbook", "pictur"],
        EMPTY,
        2,
        "",
        "error: unrecognized subcommand 'pictur'\n\n  tip: a similar subcommand exists: 'picture'\n\nUsage: rxbook [COMMAND] [FILE]\n\nFor more information, try '--help'.\n",
    ),
    (
        &["rxbook", "run", "--tracd"],
        EMPTY,
        2,
        "",
        "error: unexpected argument '--tracd' found\n\n  tip: a similar argument exists: '--trace'\n\nUsage: rxbook [run] [OPTIONS] [FILE]\n\nFor more information, try '--help'.\n",
    ),
    (
        &["rxbook", "audit", "--dump"],
        EMPTY,
        2,
        "",
        "error: unexpected argument '--dump' found\n\nUsage: rxbook audit [OPTIONS] [FILE]\n\nFor more information, try '--help'.\n",
    ),
    (
        &["rxbook", "audit", "x"],
        "[]",
        2,
        "",
        "error: unexpected argument 'x' found\n\nUsage: rxbook audit [OPTIONS] [FILE]\n\nFor more information, try '--help'.\n",
    ),
    (
        &["rxbook", "audit", "--run"],
        "[]",
        2,
        "",
        "error: unexpected argument '--run' found\n\nUsage: rxbook audit [OPTIONS] [FILE]\n\nFor more information, try '--help'.\n",
    ),
    (
        &["rxbook", "retry.json"],
        EMPTY,
        2,
        "",
        "error: unrecognized subcommand 'retry.json'\n\nUsage: rxbook [COMMAND] [FILE]\n\nFor more information, try '--help'.\n",
    ),
    (
        &["rxbook", "run", "first-run.json"],
        EMPTY,
        2,
        "",
        "error: unexpected argument 'first-run.json' found\n\nUsage: rxbook [run] [OPTIONS] [FILE]\n\nFor more information, try '--help'.\n",
    ),
    (
        &["rxbook", "storm", "--itemz", "5"],
        EMPTY,
        2,
        "",
        "error: unexpected argument '--itemz' found\n\n  tip: a similar argument exists: '--items'\n\nUsage: rxbook storm [OPTIONS]\n\nFor more information, try '--help'.\n",
    ),
    (
        &["rxbook", "storm", "--sources", "65"],
        EMPTY,
        2,
        "",
        "error: invalid value '65' for '--sources <N>': 65 is not in 1..=64\n\nFor more information, try '--help'.\n",
    ),
    (
        &["rxbook", "storm", "--workers", "x"],
        EMPTY,
        2,
        "",
        "error: invalid value 'x' for '--workers <N>': invalid digit found in string\n\nFor more information, try '--help'.\n",
    ),
];

#[test]
fn each_outcome_has_its_status_and_line(rt: HostRuntime) -> Result<(), Fail> {
    assert_rows(&rt, rt.alloc(), Flaw::None, &OUTCOMES)
}

// Words, those that are left of them without the name of a file, and that name.
static FILES: [(&[&str], &[&str], &str); 10] = [
    (&["rxbook"], &["rxbook"], ""),
    (
        &["rxbook", "first-run.json"],
        &["rxbook", "run"],
        "first-run.json",
    ),
    (
        &["rxbook", "--strict", "a"],
        &["rxbook", "run", "--strict"],
        "a",
    ),
    (
        &["rxbook", "audit", "a", "--names"],
        &["rxbook", "audit", "--names"],
        "a",
    ),
    (&["rxbook", "live", "-"], &["rxbook", "live"], ""),
    (
        &["rxbook", "picture", "--", "--a"],
        &["rxbook", "picture"],
        "--a",
    ),
    (
        &["rxbook", "explain", "a", "b"],
        &["rxbook", "explain", "b"],
        "a",
    ),
    (
        &["rxbook", "storm", "--items", "5"],
        &["rxbook", "storm", "--items", "5"],
        "",
    ),
    (&["rxbook", "help", "run"], &["rxbook", "help", "run"], ""),
    (&["rxbook", "adit"], &["rxbook", "adit"], ""),
];

// The texts of these.
fn texts(alloc: Global, words: &[&str]) -> Result<Vec<String>, AllocError> {
    let mut texts = Vec::new(alloc);
    for word in words {
        texts.push(String::from_str(alloc, word)?)?;
    }
    Ok(texts)
}

#[test]
fn a_file_is_the_first_word_that_is_no_option(rt: HostRuntime) -> Result<(), Fail> {
    for (words, left, file) in FILES {
        let given = split_file(rt.alloc(), texts(rt.alloc(), words)?)?;
        let name = match &given.file {
            Some(name) => name.as_str(),
            None => "",
        };
        same(
            &rt,
            given.words.as_slice(),
            texts(rt.alloc(), left)?.as_slice(),
        );
        same(&rt, name, file);
    }
    Ok(())
}

static STORMS: [Row; 3] = [
    (
        &["rxbook", "storm"],
        UNREAD,
        0,
        "accepted 4\ntaken 4\nreleased 4\nfaults 1\nheld 0\nwaiting 0\nnotes 404\nevents 424\n",
        "",
    ),
    (
        &[
            "rxbook",
            "storm",
            "--sources=64",
            "--workers",
            "16",
            "--items",
            "0",
        ],
        UNREAD,
        0,
        "accepted 64\ntaken 64\nreleased 64\nfaults 8\nheld 0\nwaiting 0\nnotes 64\nevents 384\n",
        "",
    ),
    (
        &[
            "rxbook",
            "storm",
            "--sources",
            "1",
            "--workers",
            "1",
            "--items",
            "10000",
        ],
        UNREAD,
        0,
        "accepted 1\ntaken 1\nreleased 1\nfaults 0\nheld 0\nwaiting 0\nnotes 10001\nevents 10006\n",
        "",
    ),
];

#[test]
fn a_storm_tells_its_figures(rt: HostRuntime) -> Result<(), Fail> {
    assert_rows(&rt, rt.alloc(), Flaw::None, &STORMS)
}

const HELP: &str = "\
Runs scenarios of subscriptions and reports what they did

Usage: rxbook [COMMAND] [FILE]

Commands:
  run      Run a scenario and write its report (the default)
  audit    Judge the dump of a history
  explain  Say what is wrong with a scenario or a dump
  picture  Draw the history of a dump, as SVG
  live     Keep a book for the program at the other ends: a line in, a line out
  storm    Run many threads at one book, and compare what they counted with it
  help     Print this message or the help of the given subcommand(s)

Options:
  -h, --help     Print help
  -V, --version  Print version

Without a FILE the input is standard input, at most 16777216 bytes; a storm reads nothing. As in
  rxbook first-run.json
  rxbook run --dump first-run.json
  rxbook audit dispose-twice.dump

The exit status is
  0  success: for an audit, the history is lawful and settled; for explain, nothing is wrong
  1  reading or writing failed, or a thread could not be started
  2  bad command line
  3  invalid input; the standard error says what is wrong with it. So does explain end, whose output says it
  4  out of memory
  5  the history is unlawful or unsettled, or the threads of a storm disagree with the book
  6  run --strict, and a step was refused

docs/reference has scenarios, reports, histories, verdicts and statuses in full.
";

const RUN_HELP: &str = "\
Run a scenario and write its report (the default)

Usage: rxbook [run] [OPTIONS] [FILE]

Options:
      --dump    Write the dump of what happened, in place of the report
      --names   Write that dump with the names of its nodes, hubs and resources, for a picture
      --trace   Write a line for each executed step, in place of the report
      --strict  End with the status 6 if a step was refused
  -h, --help    Print help

A scenario is one JSON object, with its steps, of at most 16777216 bytes; as in
  rxbook first-run.json
  rxbook run --names first-run.json | rxbook picture > first-run.svg

The exit status is 0 on success, 1 if reading or writing failed, 3 if the input is not a scenario, 4 if out of memory,
6 with --strict if a step was refused. docs/reference/scenario.md and report.md have it in full.
";

const AUDIT_HELP: &str = "\
Judge the dump of a history

Usage: rxbook audit [OPTIONS] [FILE]

Options:
      --names  Write behind each number the name that the input has for it
  -h, --help   Print help

A dump is one JSON array of events, oldest first, of at most 16777216 bytes, or an object that has it beside names, as
run --names writes; as in
  rxbook audit dispose-twice.dump
  rxbook run --names first-run.json | rxbook audit --names

The exit status is 0 if the history is lawful and settled, otherwise 5; 1 if reading or writing failed, 3 if the input
is not a dump, 4 if out of memory. docs/reference/history.md and verdict.md have it in full.
";

const STORM_HELP: &str = "\
Run many threads at one book, and compare what they counted with it

Usage: rxbook storm [OPTIONS]

Options:
      --sources <N>  How many threads subscribe and emit, 1 to 64 [default: 4]
      --workers <N>  How many threads release, 1 to 16 [default: 3]
      --items <N>    How many items each source emits, up to 10000 [default: 100]
  -h, --help         Print help

Nothing is read; as in
  rxbook storm --items 1000

It prints how many resources were accepted, taken and released, one for each source; faults, how many releases failed: of
the tags 0 to sources - 1 those that are 3 modulo 8 fail on purpose; held and waiting, 0 at the end; notes, sources times
(items + 1); and events, sources times (items + 6).

The exit status is 0 if the threads counted what the book says, otherwise 5; 1 if writing failed or a
thread could not be started, 4 if out of memory.
";

static HELPS: [Row; 8] = [
    (&["rxbook", "--help"], UNREAD, 0, HELP, ""),
    (&["rxbook", "-h"], UNREAD, 0, HELP, ""),
    (&["rxbook", "help"], UNREAD, 0, HELP, ""),
    (&["rxbook", "run", "--help"], UNREAD, 0, RUN_HELP, ""),
    (&["rxbook", "audit", "--help"], UNREAD, 0, AUDIT_HELP, ""),
    (&["rxbook", "storm", "--help"], UNREAD, 0, STORM_HELP, ""),
    (&["rxbook", "--version"], UNREAD, 0, "rxbook 0.2.0\n", ""),
    (&["rxbook", "-V"], UNREAD, 0, "rxbook 0.2.0\n", ""),
];

#[test]
fn help_and_version_go_to_the_output(rt: HostRuntime) -> Result<(), Fail> {
    assert_rows(&rt, rt.alloc(), Flaw::None, &HELPS)
}

// A used resource beside one that was removed.
const USED: &str =
    "{\"steps\":[{\"do\":\"using\",\"name\":\"a\",\"place\":\"root\",\"res\":\"r\"},{\"do\":\"hold\",\"node\":\"a\",\"res\":\"q\"},\
    {\"do\":\"apply\",\"res\":\"q\",\"word\":9},{\"do\":\"remove\",\"res\":\"r\"}]}";

static READ_FAULTS: [Row; 3] = [
    (&["rxbook"], "{", 1, "", "rxbook: read fault\n"),
    (&["rxbook"], USED, 1, "", "rxbook: read fault\n"),
    (&["rxbook", "audit"], "{", 1, "", "rxbook: read fault\n"),
];

#[test]
fn a_reader_that_fails_is_a_read_fault(rt: HostRuntime) -> Result<(), Fail> {
    assert_rows(&rt, rt.alloc(), Flaw::Torn, &READ_FAULTS)
}

const WRITE_FAULT: &str = "rxbook: write fault\n";

static FULL: [Row; 5] = [
    (&["rxbook"], EMPTY, 1, "totals nod", WRITE_FAULT),
    (&["rxbook"], USED, 1, "node a ope", WRITE_FAULT),
    (&["rxbook", "audit"], "[]", 1, "lawful\nliv", WRITE_FAULT),
    (&["rxbook", "storm"], UNREAD, 1, "accepted 4", WRITE_FAULT),
    (&["rxbook", "--help"], UNREAD, 1, "Runs scena", WRITE_FAULT),
];

static STUCK: [Row; 3] = [
    (&["rxbook"], EMPTY, 1, "totals nod", WRITE_FAULT),
    (&["rxbook"], USED, 1, "node a ope", WRITE_FAULT),
    (
        &["rxbook", "audit"],
        "[[\"take\",0]]",
        1,
        "unlawful 0",
        WRITE_FAULT,
    ),
];

#[test]
fn an_output_that_fails_is_a_write_fault(rt: HostRuntime) -> Result<(), Fail> {
    assert_rows(&rt, rt.alloc(), Flaw::Full, &FULL)?;
    assert_rows(&rt, rt.alloc(), Flaw::Stuck, &STUCK)
}

const CLOSED: &str = "{\"closed\":true}\n";

#[test]
fn a_live_book_says_which_stream_failed(rt: HostRuntime) {
    for (fails_at, room, status, output, errors) in [
        (u64::MAX, MUCH, 0, CLOSED, ""),
        (0, MUCH, 1, CLOSED, "rxbook: read fault\n"),
        (u64::MAX, 0, 1, "", WRITE_FAULT),
    ] {
        let mut reader = Source::new(b"", MUCH, fails_at);
        let mut told = Narrow::new(rt.alloc(), MUCH, room, false);
        let mut faults = Narrow::new(rt.alloc(), MUCH, MUCH, false);
        let found = keep(
            rt.alloc(),
            &mut reader,
            &mut told,
            &mut Watched::new(&mut faults),
        );
        same(
            &rt,
            (found, told.taken.as_slice(), faults.taken.as_slice()),
            (status, output.as_bytes(), errors.as_bytes()),
        );
    }
}

static UNTOLD: [Row; 2] = [
    (&["rxbook"], "{", 3, "", "rxb"),
    (&["rxbook", "bad"], "{", 2, "", "err"),
];

#[test]
fn errors_that_are_not_taken_leave_the_status(rt: HostRuntime) -> Result<(), Fail> {
    assert_rows(&rt, rt.alloc(), Flaw::Deaf, &UNTOLD)
}

// Does what the words order: whether it is done. Where it is not, it says that memory is wanted, and writes
// nothing.
fn is_done<T: Threads + Wait + Sync + Abort>(
    rt: &T,
    alloc: Global,
    words: &[&str],
    text: &str,
    output: &mut Vec<u8>,
    errors: &mut Vec<u8>,
) -> Result<bool, AllocError> {
    let mut input = text.as_bytes();
    let status = serve_into(rt, alloc, words, &mut input, output, errors)?;
    if status == 0 {
        return Ok(true);
    }
    same(rt, (status, output.len()), (4, 0));
    same(rt, errors.as_slice(), b"rxbook: out of memory\n".as_slice());
    errors.clear();
    Ok(false)
}

// Does so where there is enough memory.
fn call_once<T: Threads + Wait + Sync + Abort>(
    rt: &T,
    alloc: Global,
    words: &[&str],
    text: &str,
) -> Result<(), Fail> {
    let mut output: Vec<u8> = Vec::new(alloc);
    let mut errors: Vec<u8> = Vec::new(alloc);
    let is_done = is_done(rt, alloc, words, text, &mut output, &mut errors)?;
    assert!(rt; is_done);
    Ok(())
}

// Does so with more and more memory. How often it was refused.
fn refusals_of<T: Threads + Wait + Sync + Abort>(
    rt: &T,
    alloc: Global,
    words: &[&str],
    text: &str,
    output: &mut Vec<u8>,
    errors: &mut Vec<u8>,
) -> Result<Option<u32>, Fail> {
    // The memory of the stock, and no more, is free.
    let spare = stock(alloc)?;
    let mut scarce = scarce_after(alloc, call_once(rt, alloc, words, text))?;
    drop(spare);
    for refused in 0..100_000 {
        if is_done(rt, alloc, words, text, output, errors)? {
            return Ok(Some(refused));
        }
        assert!(rt; scarce.give_back_one());
    }
    Ok(None)
}

// Does so, and in the end it writes just this.
fn assert_silent_without_memory<T: Threads + Wait + Sync + Abort>(
    rt: &T,
    alloc: Global,
    words: &[&str],
    text: &str,
    written: &str,
) -> Result<(), Fail> {
    let mut output: Vec<u8> = Vec::with_capacity(alloc, 256)?;
    let mut errors: Vec<u8> = Vec::with_capacity(alloc, 256)?;
    let refused = refusals_of(rt, alloc, words, text, &mut output, &mut errors)?;
    assert!(rt; refused > Some(0) && errors.is_empty());
    same(rt, output.as_slice(), written.as_bytes());
    Ok(())
}

#[test]
fn a_call_without_memory_says_so_and_writes_nothing(rt: HostRuntime) -> Result<(), Fail> {
    let alloc = rt.alloc();
    let audit = ["rxbook", "audit"];
    assert_silent_without_memory(&rt, alloc, &["rxbook"], EMPTY, NOTHING_DONE)?;
    assert_silent_without_memory(&rt, alloc, &audit, A_SHARED_LIFE, A_SHARED_LIFE_LEFT)
}
