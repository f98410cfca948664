//! What is written if the command line is invalid.
ghost use Rattle.std.specs.Prelude.{◌≡◌, ◌≢◌};
ghost use Rattle.clap.specs.Words.{kind_of};
ghost use Rattle.rx_device.specs.Device.{KeepsDevice};
ghost use Rattle.rx_cli.specs.Told.{IsTextWritten};
ghost use Rattle.rx_cli.specs.Status.{no_text_line};
ghost use Rattle.rx_cli.specs.Served.{RefusedBy, is_help};

use crate::statuses::{ended, out_of_memory};
use crate::telling::tell;
use clap::error::ErrorKind;
use rx_device::{ScriptError, Watched, write_text};
use rx_scenario::is_among;
use std::alloc::{AllocError, Global};
use std::io;
use std::io::Write;

/// The words that ask for a text, and read nothing.
pub const HELPS: &str = "--help, -h, --version, -V";

// The text of `clap` on a word that is no UTF-8.
const NO_TEXT: &str =
    "error: invalid UTF-8 was detected in one or more arguments\n\nUsage: rxbook [COMMAND] [FILE]\n\nFor more information, try '--help'.\n";

// Whether the text of an error of this kind is help.
fn is_help(kind: ErrorKind) -> bool
    ensures { result ≡ is_help kind }
{
    matches!(kind, ErrorKind::DisplayHelp | ErrorKind::DisplayVersion)
}

/// The exit status where the words gave this error, which is not want of memory: its text goes to
/// `output` with status 0 where it is help, else to `errors` with status 2. Where memory is refused for
/// the text, or `output` refuses it, the line and status are those of that fault.
pub fn refuse<O: Write, E: Write>(
    alloc: Global,
    error: &clap::Error,
    output: &mut Watched<'_, O>,
    errors: &mut Watched<'_, E>,
) -> u8
    requires { kind_of error.now ≢ ErrorKind.OutOfMemory }
    ensures refused { RefusedBy O.contents E.contents output.old output.new errors.old errors.new result
        (kind_of error.now) }
    ensures same_output { KeepsDevice output.old output.new }
    ensures same_errors { KeepsDevice errors.old errors.new }
{
    let Ok(text) = error.to_string(alloc) else {
        return out_of_memory(errors);
    };
    if !is_help(error.kind()) {
        tell(errors, text.as_str().as_bytes());
        return 2;
    }
    if write_text(output, text.as_str().as_bytes()).is_err() {
        return ended(errors, Err(ScriptError::Write));
    }
    0
}

// What is said on a terminal of what is waited for; nothing where the words read nothing.
fn waiting_line(words: &[String]) -> &'static str {
    let command = match words.get(1) {
        Some(word) => word.as_str(),
        None => "run",
    };
    if words.iter().any(|word| is_among(word.as_str(), HELPS)) {
        return "";
    }
    match command {
        "run" => "rxbook: waiting for a scenario on standard input; Ctrl-D ends it\n",
        "audit" | "picture" => "rxbook: waiting for a history on standard input; Ctrl-D ends it\n",
        "explain" =>
            "rxbook: waiting for a scenario or a history on standard input; Ctrl-D ends it\n",
        "live" => {
            "rxbook: waiting for commands, each a line such as {\"do\":\"open\",\"name\":\"a\",\"place\":\"root\",\"kind\":\"leaf\"}\n"
        }
        _ => "",
    }
}

/// Says on a terminal what these words wait for on standard input.
pub fn tell_waiting<E: Write>(words: &[String], errors: &mut Watched<'_, E>)
    ensures same_errors { KeepsDevice errors.old errors.new }
{
    tell(errors, waiting_line(words).as_bytes());
}

// What is said of a file that could not be opened, and the exit status.
fn file_told(alloc: Global, name: &str, kind: io::ErrorKind) -> Result<(String, u8), AllocError> {
    match kind {
        io::ErrorKind::NotFound => Ok((format!(in alloc; "rxbook: there is no file {name}\n")?, 2)),
        io::ErrorKind::IsADirectory => Ok((format!(in alloc; "rxbook: {name} is a folder\n")?, 2)),
        _ => Ok((format!(in alloc; "rxbook: {name} cannot be read\n")?, 1)),
    }
}

/// The exit status where the file of this name could not be opened, for this reason: 2 where there is none, or it is a folder, else
/// 1, after a line that says so is written to `errors`; 4 where memory is refused.
pub fn refuse_file<E: Write>(
    alloc: Global,
    name: &str,
    kind: io::ErrorKind,
    errors: &mut Watched<'_, E>,
) -> u8
    ensures same_errors { KeepsDevice errors.old errors.new }
{
    match file_told(alloc, name, kind) {
        Ok((text, status)) => {
            tell(errors, text.as_str().as_bytes());
            status
        }
        Err(_) => out_of_memory(errors),
    }
}

/// The exit status where a word of the command line is no UTF-8, 2, after the text that `clap` has for
/// that is written to `errors`.
pub fn refuse_bytes<E: Write>(errors: &mut Watched<'_, E>) -> u8
    ensures status { result ≡ 2 }
    ensures line { IsTextWritten E.contents errors.old errors.new no_text_line }
    ensures same_errors { KeepsDevice errors.old errors.new }
{
    tell(errors, NO_TEXT.as_bytes());
    2
}
