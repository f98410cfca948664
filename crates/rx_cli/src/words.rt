//! The reading of the words, by `clap`.
ghost use Rattle.std.specs.Prelude.{◌≡◌, ◌≤◌, false, map, option_map, codes, IfOk};
ghost use Rattle.clap.specs.Words.{app_of, new_app, rule_of, subcommand_of, subcommand_rows_of, fault_of, found_of, rows_of, FailsBy};
ghost use Rattle.rx_cli.specs.Words.{rxbook, run_app, audit_app, explain_app, picture_app, live_app, storm_app, with_version, flag_rule, number_rule};
ghost use Rattle.rx_cli.specs.Words.{is_set, form_by, form_of, run_by, run_of, labels_by, audit_labels, number_by};
ghost use Rattle.rx_cli.specs.Words.{storm_by, order_of_subcommand, IsInRange};

use crate::request::{Asked, Order};
use clap::builder::ValueParser;
use clap::{Arg, ArgAction, ArgMatches, Command, Error};
use rx_dump::Labels;
use rx_script::Form;
use std::alloc::{AllocError, Global};
use std::convert::AsStr;

const VERSION: &str = "0.2.0";

// The usage of the program and of its subcommands; `clap` shows it with each usage error too.
const USAGE: &str = "rxbook [COMMAND] [FILE]";

const RUN_USAGE: &str = "rxbook [run] [OPTIONS] [FILE]";

const AUDIT_USAGE: &str = "rxbook audit [OPTIONS] [FILE]";

const STORM_USAGE: &str = "rxbook storm [OPTIONS]";

const NOTES: &str = "\
Without a FILE the input is standard input, at most 16777216 bytes; a storm reads nothing. As in
  rxbook first-run.json
  rxbook run --dump first-run.json
  rxbook audit dispose-twice.dump

The exit status is
  0  success: for an audit, the history is lawful and settled; for explain, nothing is wrong
  1  reading or writing failed, or a thread could not be started
  2  bad command line
  3  invalid input; the standard error says what is wrong with it. So does explain end, whose output says it
  4  out of memory
  5  the history is unlawful or unsettled, or the threads of a storm disagree with the book
  6  run --strict, and a step was refused

docs/reference has scenarios, reports, histories, verdicts and statuses in full.";

const RUN_NOTES: &str = "\
A scenario is one JSON object, with its steps, of at most 16777216 bytes; as in
  rxbook first-run.json
  rxbook run --names first-run.json | rxbook picture > first-run.svg

The exit status is 0 on success, 1 if reading or writing failed, 3 if the input is not a scenario, 4 if out of memory,
6 with --strict if a step was refused. docs/reference/scenario.md and report.md have it in full.";

const AUDIT_NOTES: &str = "\
A dump is one JSON array of events, oldest first, of at most 16777216 bytes, or an object that has it beside names, as
run --names writes; as in
  rxbook audit dispose-twice.dump
  rxbook run --names first-run.json | rxbook audit --names

The exit status is 0 if the history is lawful and settled, otherwise 5; 1 if reading or writing failed, 3 if the input
is not a dump, 4 if out of memory. docs/reference/history.md and verdict.md have it in full.";

const STORM_NOTES: &str = "\
Nothing is read; as in
  rxbook storm --items 1000

It prints how many resources were accepted, taken and released, one for each source; faults, how many releases failed: of
the tags 0 to sources - 1 those that are 3 modulo 8 fail on purpose; held and waiting, 0 at the end; notes, sources times
(items + 1); and events, sources times (items + 6).

The exit status is 0 if the threads counted what the book says, otherwise 5; 1 if writing failed or a
thread could not be started, 4 if out of memory.";

// The option `--NAME` of a number from `least` to `most`, which is `usual` where it is left out.
fn number_option<'a>(
    alloc: Global,
    name: &'a str,
    help: &'a str,
    usual: &'a str,
    least: u64,
    most: u64,
) -> Arg<'a>
    ensures rule { rule_of result ≡ number_rule name.entry.now usual.entry.now least most }
    ensures local { result.global ≡ false }
{
    Arg::new(alloc, name)
        .long(name)
        .value_name("N")
        .default_value(usual)
        .value_parser(ValueParser::unsigned(least, most))
        .help(help)
}

// The command `storm`.
fn storm_command<'a>(alloc: Global) -> Result<Command<'a>, AllocError>
    ensures { IfOk result (λ c. app_of c ≡ storm_app) }
{
    let bare = Command::new(alloc, "storm")
        .about("Run many threads at one book, and compare what they counted with it")
        .override_usage(STORM_USAGE)
        .after_help(STORM_NOTES);
    let help = "How many threads subscribe and emit, 1 to 64";
    let first = bare.arg(number_option(alloc, "sources", help, "4", 1, 64))?;
    let help = "How many threads release, 1 to 16";
    let second = first.arg(number_option(alloc, "workers", help, "3", 1, 16))?;
    let help = "How many items each source emits, up to 10000";
    second.arg(number_option(alloc, "items", help, "100", 0, 10_000))
}

// The flag `--NAME`.
fn flag<'a>(alloc: Global, name: &'a str, help: &'a str) -> Arg<'a>
    ensures rule { rule_of result ≡ flag_rule name.entry.now }
    ensures local { result.global ≡ false }
{
    Arg::new(alloc, name)
        .long(name)
        .action(ArgAction::SetTrue)
        .help(help)
}

// The command `run`.
fn run_command<'a>(alloc: Global) -> Result<Command<'a>, AllocError>
    ensures { IfOk result (λ c. app_of c ≡ run_app) }
{
    let bare = Command::new(alloc, "run")
        .about("Run a scenario and write its report (the default)")
        .override_usage(RUN_USAGE)
        .after_help(RUN_NOTES);
    let help = "Write the dump of what happened, in place of the report";
    let first = bare.arg(flag(alloc, "dump", help))?;
    let help = "Write that dump with the names of its nodes, hubs and resources, for a picture";
    let second = first.arg(flag(alloc, "names", help))?;
    let help = "Write a line for each executed step, in place of the report";
    let third = second.arg(flag(alloc, "trace", help))?;
    let help = "End with the status 6 if a step was refused";
    third.arg(flag(alloc, "strict", help))
}

// The command `audit`.
fn audit_command<'a>(alloc: Global) -> Result<Command<'a>, AllocError>
    ensures { IfOk result (λ c. app_of c ≡ audit_app) }
{
    let bare = Command::new(alloc, "audit")
        .about("Judge the dump of a history")
        .override_usage(AUDIT_USAGE)
        .after_help(AUDIT_NOTES);
    let help = "Write behind each number the name that the input has for it";
    bare.arg(flag(alloc, "names", help))
}

// The command `explain`.
fn explain_command<'a>(alloc: Global) -> Command<'a>
    ensures { app_of result ≡ explain_app }
{
    Command::new(alloc, "explain")
        .about("Say what is wrong with a scenario or a dump")
        .override_usage("rxbook explain [FILE]")
}

// The command `picture`.
fn picture_command<'a>(alloc: Global) -> Command<'a>
    ensures { app_of result ≡ picture_app }
{
    Command::new(alloc, "picture")
        .about("Draw the history of a dump, as SVG")
        .override_usage("rxbook picture [FILE] > PICTURE.svg")
}

// The command `live`.
fn live_command<'a>(alloc: Global) -> Command<'a>
    ensures { app_of result ≡ live_app }
{
    Command::new(alloc, "live")
        .about("Keep a book for the program at the other ends: a line in, a line out")
        .override_usage("rxbook live [FILE]")
}

// The program's command without its subcommands.
fn top_command<'a>(alloc: Global) -> Command<'a>
    ensures { app_of result ≡ with_version (new_app (codes "rxbook")) }
{
    Command::new(alloc, "rxbook")
        .about("Runs scenarios of subscriptions and reports what they did")
        .version(VERSION)
        .override_usage(USAGE)
        .after_help(NOTES)
}

// The program's command.
fn program<'a>(alloc: Global) -> Result<Command<'a>, AllocError>
    ensures { IfOk result (λ c. app_of c ≡ rxbook) }
{
    let run = run_command(alloc)?;
    let command = top_command(alloc).subcommand(run)?;
    let audit = audit_command(alloc)?;
    let command = command.subcommand(audit)?;
    let command = command.subcommand(explain_command(alloc))?;
    let command = command.subcommand(picture_command(alloc))?;
    let command = command.subcommand(live_command(alloc))?;
    let storm = storm_command(alloc)?;
    command.subcommand(storm)
}

// Whether the value of a flag says that it is set.
fn is_set(text: Option<&str>) -> bool
    ensures { result ≡ is_set (option_map (λ s. s.now) text.entry) }
{
    matches!(text, Some("true"))
}

// The form that the values of the flags say.
fn form_by(dump: Option<&str>, names: Option<&str>) -> Form
    ensures { result ≡ form_by (option_map (λ s. s.now) dump.entry) (option_map (λ s. s.now) names.entry) }
{
    if is_set(names) {
        Form::NamedDump
    } else if is_set(dump) {
        Form::Dump
    } else {
        Form::Report
    }
}

// The form that a run's options say.
fn form_in(options: &ArgMatches<'_>) -> Form
    ensures { result ≡ form_of (rows_of (found_of options.now)) }
{
    form_by(options.get_str("dump"), options.get_str("names"))
}

// The order of a run of this form, traced and strict where the values of those flags say so.
fn run_by(trace: Option<&str>, strict: Option<&str>, form: Form) -> Order
    ensures is { result ≡ run_by (option_map (λ s. s.now) trace.entry) (option_map (λ s. s.now) strict.entry) form }
    ensures in_range { IsInRange result }
{
    let is_strict = is_set(strict);
    Order::Say(if is_set(trace) {
        Asked::Trace { is_strict }
    } else {
        Asked::Run { form, is_strict }
    })
}

// The order of a run with these options.
fn run_in(options: &ArgMatches<'_>) -> Order
    ensures is { result ≡ run_of (rows_of (found_of options.now)) }
    ensures in_range { IsInRange result }
{
    run_by(
        options.get_str("trace"),
        options.get_str("strict"),
        form_in(options),
    )
}

// The labels that the value of the flag says.
fn labels_by(names: Option<&str>) -> Labels
    ensures { result ≡ labels_by (option_map (λ s. s.now) names.entry) }
{
    if is_set(names) {
        Labels::Names
    } else {
        Labels::Numbers
    }
}

// The labels that an audit's options say.
fn labels_in(options: &ArgMatches<'_>) -> Labels
    ensures { result ≡ audit_labels (rows_of (found_of options.now)) }
{
    labels_by(options.get_str("names"))
}

// The number that the text writes; `least` where it writes none from `least` to `most`.
fn number_by(text: Option<&str>, least: u64, most: u64) -> u64
    requires { least ≤ most }
    ensures is { result ≡ number_by least most (option_map (λ s. s.now) text.entry) }
    ensures in_range { (least ≤ result) × (result ≤ most) }
{
    let Some(text) = text else {
        return least;
    };
    let number = text.parse::<u64>().unwrap_or(least);
    if number < least || most < number {
        return least;
    }
    number
}

// The storm that its options say.
fn storm_in(options: &ArgMatches<'_>) -> Order
    ensures is { result ≡ storm_by (rows_of (found_of options.now)) }
    ensures in_range { IsInRange result }
{
    Order::Storm {
        sources: number_by(options.get_str("sources"), 1, 64),
        workers: number_by(options.get_str("workers"), 1, 16),
        items: number_by(options.get_str("items"), 0, 10_000),
    }
}

// The order that the matches are.
fn order_in(matches: &ArgMatches<'_>) -> Order
    ensures is { result ≡ order_of_subcommand (subcommand_rows_of matches.now) }
    ensures in_range { IsInRange result }
{
    match matches.subcommand() {
        None => Order::Say(Asked::Run {
            form: Form::Report,
            is_strict: false,
        }),
        Some(("audit", options)) => Order::Say(Asked::Audit(labels_in(options))),
        Some(("explain", _)) => Order::Say(Asked::Explain),
        Some(("picture", _)) => Order::Say(Asked::Picture),
        Some(("live", _)) => Order::Live,
        Some(("storm", options)) => storm_in(options),
        Some((_, options)) => run_in(options),
    }
}

/// The order of the words of a command line, of which the first is the program's name. The numbers of
/// a storm lie in their ranges.
///
/// Err comes where `clap` refuses the words or they ask for help, with the kinds that it has for them,
/// or where memory is refused, with `OutOfMemory`.
pub fn order<S: AsStr>(alloc: Global, words: &[S]) -> Result<Order, Error>
    ensures ok { IfOk result (λ o. o ≡ order_of_subcommand (subcommand_of rxbook (map S.text words.now))) }
    ensures in_range { IfOk result IsInRange }
    ensures kinds { FailsBy (fault_of rxbook (map S.text words.now)) result }
{
    let command = program(alloc)?;
    let matches = command.try_get_matches_from(words)?;
    Ok(order_in(&matches))
}
