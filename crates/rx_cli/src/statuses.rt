//! The exit statuses, and the lines on standard error that go with them.
ghost use Rattle.std.specs.Prelude.{◌≡◌, ◌++◌, ℕ, List, codes, string_bytes, IfOk};
ghost use Rattle.rx_cli.specs.Served.{TellsOutcome};
ghost use Rattle.rx_cli.specs.Status.{is_faulty, fault_line, fault_status, status_of, line_of, storm_status_of, storm_line_of};
ghost use Rattle.rx_device.specs.Device.{KeepsDevice};
ghost use Rattle.rx_cli.specs.Told.{IsTextWritten};

use crate::telling::tell;
use rx_device::{ScriptError, Watched};
use rx_storm::StormFault;
use std::alloc::{AllocError, Global};
use std::io::Write;

// The line of an input that is faulty.
const FAULTY: &str = "rxbook: faulty input\n";

// The line of a fault.
fn fault_line(error: &ScriptError) -> &'static str
    ensures { result.now ≡ fault_line error.now }
{
    match error {
        ScriptError::Read => "rxbook: read fault\n",
        ScriptError::Write => "rxbook: write fault\n",
        ScriptError::Syntax | ScriptError::Shape => FAULTY,
        ScriptError::Memory => "rxbook: out of memory\n",
    }
}

// The status of a fault.
fn fault_status(error: &ScriptError) -> u8
    ensures { result ≡ fault_status error.now }
{
    match error {
        ScriptError::Read | ScriptError::Write => 1,
        ScriptError::Syntax | ScriptError::Shape => 3,
        ScriptError::Memory => 4,
    }
}

// The line of a storm that ended so; none where its threads agree with the book.
fn storm_line(outcome: Result<bool, StormFault>) -> &'static str
    ensures { result.now ≡ storm_line_of outcome }
{
    match outcome {
        Ok(true) => "",
        Ok(false) => "rxbook: mismatch\n",
        Err(StormFault::Memory) => "rxbook: out of memory\n",
        Err(StormFault::Thread) => "rxbook: thread fault\n",
        Err(StormFault::Write) => "rxbook: write fault\n",
    }
}

// The status of a storm that ended so.
fn storm_status(outcome: Result<bool, StormFault>) -> u8
    ensures { result ≡ storm_status_of outcome }
{
    match outcome {
        Ok(agrees) => { if agrees { 0 } else { 5 } }
        Err(StormFault::Memory) => 4,
        Err(StormFault::Thread | StormFault::Write) => 1,
    }
}

/// The exit status of what ended so; where it failed, its line is written to `errors`. A write
/// that fails there changes nothing.
pub fn ended<E: Write>(errors: &mut Watched<'_, E>, outcome: Result<u8, ScriptError>) -> u8
    ensures status { result ≡ status_of outcome }
    ensures line { IsTextWritten E.contents errors.old errors.new (line_of outcome) }
    ensures same_errors { KeepsDevice errors.old errors.new }
{
    match outcome {
        Ok(status) => status,
        Err(error) => {
            tell(errors, fault_line(&error).as_bytes());
            fault_status(&error)
        }
    }
}

// Whether the input is at fault.
fn is_faulty(outcome: &Result<u8, ScriptError>) -> bool
    ensures { result ≡ is_faulty outcome.now }
{
    match outcome {
        Err(ScriptError::Syntax | ScriptError::Shape) => true,
        _ => false,
    }
}

// The line of an input that is faulty, and this behind it.
fn faulty_text(alloc: Global, why: &str) -> Result<String, AllocError>
    ensures { IfOk result (λ s. string_bytes s ≡ codes "rxbook: faulty input\n" ++ why.now) }
{
    let mut text = String::from_str(alloc, FAULTY)?;
    text.push_str(why)?;
    Ok(text)
}

// Writes that an input is faulty, and this behind it, where there is memory for both.
fn tell_faulty<E: Write>(alloc: Global, errors: &mut Watched<'_, E>, why: &str)
    ensures told { (behind : List ℕ) × IsTextWritten E.contents errors.old errors.new (codes "rxbook: faulty input\n" ++ behind) }
    ensures same_errors { KeepsDevice errors.old errors.new }
{
    match faulty_text(alloc, why) {
        Ok(text) => tell(errors, text.as_str().as_bytes()),
        Err(_) => tell(errors, FAULTY.as_bytes()),
    }
}

/// The exit status of what ended so; where it failed, its line is written to `errors`, and behind that of an input that is
/// faulty what is wrong with it, where there is memory for that. A write that fails there changes nothing.
#[tactic(auto, using(crate::proofs::OutcomesTold::told_plainly, crate::proofs::OutcomesTold::told_faulty))]
pub fn ended_with<E: Write>(
    alloc: Global,
    errors: &mut Watched<'_, E>,
    outcome: Result<u8, ScriptError>,
    why: &str,
) -> u8
    ensures told { TellsOutcome E.contents errors.old errors.new outcome result }
    ensures same_errors { KeepsDevice errors.old errors.new }
{
    if !is_faulty(&outcome) {
        return ended(errors, outcome);
    }
    tell_faulty(alloc, errors, why);
    3
}

/// The exit status of a storm that ended so: 0 where the threads agree with the book, and 5 where they do
/// not; of a storm that failed 4 where memory was refused, else 1. Each but 0 has a line, which is
/// written to `errors`. A write that fails there changes nothing.
pub fn weathered<E: Write>(errors: &mut Watched<'_, E>, outcome: Result<bool, StormFault>) -> u8
    ensures status { result ≡ storm_status_of outcome }
    ensures line { IsTextWritten E.contents errors.old errors.new (storm_line_of outcome) }
    ensures same_errors { KeepsDevice errors.old errors.new }
{
    tell(errors, storm_line(outcome).as_bytes());
    storm_status(outcome)
}

/// The exit status of a program that memory was refused, 4, after its line is written to `errors`.
pub fn out_of_memory<E: Write>(errors: &mut Watched<'_, E>) -> u8
    ensures status { result ≡ 4 }
    ensures line { IsTextWritten E.contents errors.old errors.new (codes "rxbook: out of memory\n") }
    ensures same_errors { KeepsDevice errors.old errors.new }
{
    ended(errors, Err(ScriptError::Memory))
}
