//! A live book: lines in, lines out.
ghost use Rattle.std.specs.Prelude.{◌≡◌, ℕ, Result, IfOk};
ghost use Rattle.rx_device.specs.declared.fault.ScriptError.{ScriptError};
ghost use Rattle.rx_device.specs.Device.{KeepsDevice};
ghost use Rattle.rx_cli.specs.Served.{TellsOutcome};

use crate::statuses::ended_with;
use memchr::memchr;
use rx_device::{ScriptError, Watched};
use rx_live::{Live, faulty_text};
use std::alloc::{AllocError, Global};
use std::io::{Read, Result as IoResult, Write};

/// The most bytes of a line, without the byte that ends it.
const MOST_BYTES: usize = 65_536;

/// The most events of a history since its last checkpoint, with those that closing everything may need: four for
/// each of the most nodes that may be open, as for one that holds a leased resource.
const MOST_EVENTS: u64 = 4_194_304;

/// What is answered in want of memory, where nothing has changed.
const NO_MEMORY: &str = "{\"refused\":\"NoMemory\"}";

/// The line that is being read.
#[derive(Drop)]
struct Line {
    bytes: Vec<u8>,
    is_long: bool,
}

impl Line {
    // With room for a whole line.
    fn new(alloc: Global) -> Result<Line, AllocError> {
        Ok(Line {
            bytes: Vec::with_capacity(alloc, MOST_BYTES)?,
            is_long: false,
        })
    }

    // Takes some more of the line. Of one that is too long nothing is kept.
    fn take_in(&mut self, piece: &[u8]) {
        let room = MOST_BYTES.saturating_sub(self.bytes.len());
        self.is_long = self.is_long
            || piece.len() > room
            || self.bytes.extend_from_slice(piece).is_err();
    }

    fn clear(&mut self) {
        self.bytes.clear();
        self.is_long = false;
    }

    fn is_empty(&self) -> bool {
        self.bytes.is_empty() && !self.is_long
    }
}

// The answer to a faulty line.
fn faulty(alloc: Global, told: &str) -> Result<String, AllocError> {
    faulty_text(alloc, String::from_str(alloc, told)?)
}

// Writes a text and the end of its line.
fn write_line<W: Write>(output: &mut W, text: &str) -> IoResult<()> {
    output.write_all(text.as_bytes())?;
    output.write_all(b"\n")
}

// Writes the answer to a faulty line.
fn write_faulty<W: Write>(alloc: Global, output: &mut W, told: &str) -> IoResult<()> {
    match faulty(alloc, told) {
        Ok(text) => write_line(output, text.as_str()),
        Err(_) => write_line(output, NO_MEMORY),
    }
}

// Sends a line, and writes its answer.
fn send<W: Write>(live: &mut Live, line: &[u8], output: &mut W) -> IoResult<()> {
    match live.send(line) {
        Ok(()) => write_line(output, live.answer()),
        Err(_) => write_line(output, NO_MEMORY),
    }
}

// Answers a line that ends with this piece of the input. One that lies in it whole is read there.
fn answer<W: Write>(
    alloc: Global,
    live: &mut Live,
    line: &mut Line,
    piece: &[u8],
    output: &mut W,
) -> IoResult<()> {
    if line.is_empty() && piece.len() <= MOST_BYTES {
        return send(live, piece, output);
    }
    line.take_in(piece);
    let answered = if line.is_long {
        write_faulty(alloc, output, "a line has at most 65536 bytes")
    } else {
        send(live, line.bytes.as_slice(), output)
    };
    line.clear();
    answered
}

// Answers each line that ends in this piece of the input, and keeps what is left.
fn answer_all<W: Write>(
    alloc: Global,
    live: &mut Live,
    line: &mut Line,
    output: &mut W,
    piece: &[u8],
) -> IoResult<()> {
    let mut left = piece;
    while let Some(length) = memchr(b'\n', left) {
        let (whole, rest) = left.split_at(length);
        answer(alloc, live, line, whole, output)?;
        left = &rest[1..];
    }
    line.take_in(left);
    Ok(())
}

// Answers each line that ends in this piece of the input, and flushes the answers.
fn answer_piece<W: Write>(
    alloc: Global,
    live: &mut Live,
    line: &mut Line,
    output: &mut W,
    piece: &[u8],
) -> Result<(), ScriptError> {
    if answer_all(alloc, live, line, output, piece).is_err() || output.flush().is_err() {
        return Err(ScriptError::Write);
    }
    Ok(())
}

// Answers what one read of the input brings. False at the end of the input.
fn answer_some<R: Read, W: Write>(
    alloc: Global,
    live: &mut Live,
    line: &mut Line,
    piece: &mut [u8],
    input: &mut R,
    output: &mut W,
) -> Result<bool, ScriptError> {
    let Ok(count) = input.read(piece) else {
        return Err(ScriptError::Read);
    };
    if count == 0 {
        return Ok(false);
    }
    answer_piece(alloc, live, line, output, &piece[..count])?;
    Ok(true)
}

// Answers all lines to the end of the input. What was answered is flushed before more is read.
fn answer_input<R: Read, W: Write>(
    alloc: Global,
    live: &mut Live,
    line: &mut Line,
    piece: &mut [u8],
    input: &mut R,
    output: &mut W,
) -> Result<(), ScriptError> {
    for _turn in 0..u64::MAX {
        if !answer_some(alloc, live, line, piece, input, output)? {
            break;
        }
    }
    if !line.is_empty() {
        let told = "the input ends before this line does, so it was not carried out";
        if write_faulty(alloc, output, told).is_err() {
            return Err(ScriptError::Write);
        }
    }
    Ok(())
}

// Writes the names of what waits, each as it is released.
fn write_releases<W: Write>(live: &mut Live, output: &mut W) -> IoResult<()> {
    let mut lead = ",\"release\":[\"";
    while let Some(name) = live.next_release() {
        output.write_all(lead.as_bytes())?;
        output.write_all(name.as_bytes())?;
        output.write_all(b"\"")?;
        lead = ",\"";
    }
    if lead.len() == 2 {
        output.write_all(b"]")?;
    }
    Ok(())
}

// Writes the notes that were not told yet, for as many as there is memory.
fn write_notes<W: Write>(live: &mut Live, output: &mut W) -> IoResult<()> {
    let mut lead = ",\"notes\":[";
    while live.next_note() {
        output.write_all(lead.as_bytes())?;
        output.write_all(live.answer().as_bytes())?;
        lead = ",";
    }
    if lead.len() == 1 {
        output.write_all(b"]")?;
    }
    Ok(())
}

// Closes all, and writes the last line piece by piece, for which no memory is needed.
fn end<W: Write>(live: &mut Live, output: &mut W) -> IoResult<()> {
    live.shut();
    output.write_all(b"{\"closed\":true")?;
    write_releases(live, output)?;
    write_notes(live, output)?;
    if live.is_late() {
        output.write_all(b",\"late\":true")?;
    }
    output.write_all(b"}\n")?;
    output.flush()
}

// Answers the lines of the input, and at its end, or where a stream fails, closes the book and writes its last line.
fn serve_lines<R: Read, W: Write>(
    alloc: Global,
    input: &mut R,
    output: &mut W,
) -> Result<u8, ScriptError>
    ensures { IfOk result (λ status. status ≡ 0) }
{
    let Ok(mut line) = Line::new(alloc) else {
        return Err(ScriptError::Memory);
    };
    let Ok(mut piece) = vec![in alloc; 0u8; MOST_BYTES] else {
        return Err(ScriptError::Memory);
    };
    let Ok(mut live) = Live::new(alloc, MOST_EVENTS) else {
        return Err(ScriptError::Memory);
    };
    let piece = piece.as_mut_slice();
    let served = answer_input(alloc, &mut live, &mut line, piece, input, output);
    let closed = end(&mut live, output);
    served?;
    match closed {
        Ok(()) => Ok(0),
        Err(_) => Err(ScriptError::Write),
    }
}

/// Keeps a live book: a line in and a line out, and at the end of the input the line that closes it. All is closed in
/// every outcome. Answers the exit status: 0, or 1 where the input or the output failed, or 4 where there was no memory to
/// begin with. Each but 0 has a line, which is written to `errors`; what `errors` refuses is lost.
pub fn keep<R: Read, W: Write, E: Write>(
    alloc: Global,
    input: &mut R,
    output: &mut W,
    errors: &mut Watched<'_, E>,
) -> u8
    ensures told { (outcome : Result ℕ ScriptError) × IfOk outcome (λ status. status ≡ 0)
        × TellsOutcome E.contents errors.old errors.new outcome result }
    ensures same_errors { KeepsDevice errors.old errors.new }
{
    ended_with(alloc, errors, serve_lines(alloc, input, output), "")
}
