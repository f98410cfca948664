//! The run of a scenario.

ghost use Rattle.std.specs.Prelude.{◌≡◌, IfOk, IsErrOf, map, string_bytes};
ghost use Rattle.rx_device.specs.declared.fault.ScriptError.{ScriptError};
ghost use Rattle.rx_script.specs.declared.Form.{Form};
ghost use Rattle.rx_script.specs.Running.{HasNoOutput};
ghost use Rattle.rx_script.specs.Stage.{ware_of};
ghost use Rattle.cellarcliff.specs.Answers.{AnswersText};
ghost use Rattle.cellarcliff.specs.Ran.{TellsRun, HasNothingToWrite, stock};

use crate::handing::{Said, hand_out};
use rx_device::{MOST_BYTES, ScriptError};
use rx_resource::Resource;
use rx_script::{Form, Stocked, run, stock};
use std::alloc::{AllocError, Global};

// The stock of the program, as a book takes it.
#[tactic(auto, using(crate::proofs::StockIsFresh::wares))]
fn fresh_stock(alloc: Global) -> Result<Vec<Stocked>, AllocError>
    ensures { IfOk result (λ v. map (ware_of ⟦<Stocked as Resource>⟧) v.items ≡ stock) }
{
    let made = stock(alloc)?;
    Ok(made)
}

// Runs a scenario: what the form says of it.
fn carry_out(alloc: Global, scenario: &[u8], form: Form) -> Result<Said, ScriptError>
    ensures ok { IfOk result (λ s. TellsRun scenario.now form (string_bytes s.text) s.status) }
    ensures syntax { IsErrOf result ScriptError.Syntax → HasNothingToWrite form scenario.now }
    ensures shape { IsErrOf result ScriptError.Shape → HasNoOutput scenario.now form }
{
    if scenario.len() > MOST_BYTES {
        return Err(ScriptError::Syntax);
    }
    let Ok(stock) = fresh_stock(alloc) else {
        return Err(ScriptError::Memory);
    };
    let text = run(alloc, scenario, stock, form)?;
    Ok(Said { text, status: 0 })
}

/// Runs a scenario and hands out what the form says.
pub fn run_in(alloc: Global, scenario: &[u8], form: Form, buffer: &mut [u8], told: &mut usize) -> u8
    ensures { AnswersText (TellsRun scenario.now form)
        (HasNothingToWrite form scenario.now) buffer.old buffer.new told.new result }
{
    hand_out(carry_out(alloc, scenario, form), buffer, told)
}

/// Runs the scenario on a new book and writes its report to the front of `buffer`, as `rxbook run`
/// does; `told` gets the length of that text. The book is closed before this answers.
///
/// The status is 0 where the run is done, 1 where the buffer is too small, 3 where the bytes are no
/// scenario, 4 where memory was refused.
#[unsafe(no_mangle)]
pub extern "C" fn cellar_run(
    alloc: Global,
    scenario: &[u8],
    buffer: &mut [u8],
    told: &mut usize,
) -> u8
    ensures { AnswersText (TellsRun scenario.now Form.Report) (HasNothingToWrite Form.Report scenario.now)
        buffer.old buffer.new told.new result }
{
    run_in(alloc, scenario, Form::Report, buffer, told)
}

/// Runs the scenario as [`cellar_run`] does, and writes the dump of the history before the closing in place of the report, as
/// `rxbook run --dump` does; [`cellar_audit`](crate::cellar_audit) judges it. The status is 3 also where the scenario has a
/// checkpoint, after which a dump is no whole history.
#[unsafe(no_mangle)]
pub extern "C" fn cellar_run_dump(
    alloc: Global,
    scenario: &[u8],
    buffer: &mut [u8],
    told: &mut usize,
) -> u8
    ensures { AnswersText (TellsRun scenario.now Form.Dump) (HasNothingToWrite Form.Dump scenario.now)
        buffer.old buffer.new told.new result }
{
    run_in(alloc, scenario, Form::Dump, buffer, told)
}
