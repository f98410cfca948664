//! From a dump's bytes to the text of its verdict.

ghost use Rattle.std.specs.Prelude.{◌≢◌, string_bytes, IfOk, IfErr, IsErrOf};
ghost use Rattle.rx_dump.specs.Imports.{Data, IsJsonOf};
ghost use Rattle.rx_dump.specs.Inputs.{IsDumpOf, IsVerdictOf, IsChecked, IsNoDump};

use crate::history::history_of;
use crate::reading::history_of_input;
use crate::verdict::{is_lawful, verdict_text};
use rx_audit::{Verdict, audit};
use rx_device::{ScriptError, ShapeError, value_of};
use rx_event::Event;
use std::alloc::Global;

/// The text of a verdict, and whether that is `lawful`.
#[derive(Drop)]
pub struct Judgement {
    /// The text.
    pub text: String,
    /// Whether the history is lawful, and operators have nothing left to do.
    pub is_lawful: bool,
}

// The history of which the input is a dump, by the JSON value of the whole, which tells what is wrong
// where there is none.
fn history_by_value(alloc: Global, input: &[u8]) -> Result<Vec<Event>, ScriptError>
    ensures ok { IfOk result (λ v. IsDumpOf input.now v.items) }
    ensures syntax { IsErrOf result ScriptError.Syntax → (d : Data) → ¬ IsJsonOf input.now d }
    ensures shape { IsErrOf result ScriptError.Shape → IsNoDump input.now }
    ensures never { IfErr result (λ e. (e ≢ ScriptError.Read) × (e ≢ ScriptError.Write)) }
{
    let value = value_of(alloc, input)?;
    match history_of(alloc, &value) {
        Ok(history) => Ok(history),
        Err(ShapeError::Shape) => Err(ScriptError::Shape),
        Err(ShapeError::Memory) => Err(ScriptError::Memory),
    }
}

// The history of which the input is a dump. The value of the whole is made only where the input is not
// read event by event, and so is at fault.
fn history_from(alloc: Global, input: &[u8]) -> Result<Vec<Event>, ScriptError>
    ensures ok { IfOk result (λ v. IsDumpOf input.now v.items) }
    ensures syntax { IsErrOf result ScriptError.Syntax → (d : Data) → ¬ IsJsonOf input.now d }
    ensures shape { IsErrOf result ScriptError.Shape → IsNoDump input.now }
    ensures never { IfErr result (λ e. (e ≢ ScriptError.Read) × (e ≢ ScriptError.Write)) }
{
    match history_of_input(alloc, input) {
        Ok(history) => Ok(history),
        Err(ShapeError::Shape) => history_by_value(alloc, input),
        Err(ShapeError::Memory) => Err(ScriptError::Memory),
    }
}

// The verdict on the history of which the input is a dump.
fn verdict_on(alloc: Global, input: &[u8]) -> Result<Verdict, ScriptError>
    ensures ok { IfOk result (IsVerdictOf input.now) }
    ensures syntax { IsErrOf result ScriptError.Syntax → (d : Data) → ¬ IsJsonOf input.now d }
    ensures shape { IsErrOf result ScriptError.Shape → IsNoDump input.now }
    ensures never { IfErr result (λ e. (e ≢ ScriptError.Read) × (e ≢ ScriptError.Write)) }
{
    let history = history_from(alloc, input)?;
    match audit(alloc, history.as_slice()) {
        Ok(verdict) => Ok(verdict),
        // `TooMany` is out of reach: an event takes more than one of the 16,777,216 bytes that an input has at most.
        Err(_) => Err(ScriptError::Memory),
    }
}

/// The verdict on the history of which the input is a dump, in JSON.
///
/// A dump is an array of events with any spaces between its parts, and an event an array: what it is,
/// then its parts. The verdict is `lawful` and three lines with the numbers of the open nodes and of
/// the resources that are held and that wait, or `unlawful` and the first place whose event may not
/// follow those before it, or `unsettled`.
pub fn check(alloc: Global, input: &[u8]) -> Result<Judgement, ScriptError>
    ensures ok { IfOk result (λ j. IsChecked input.now j.is_lawful (string_bytes j.text)) }
    ensures syntax { IsErrOf result ScriptError.Syntax → (d : Data) → ¬ IsJsonOf input.now d }
    ensures shape { IsErrOf result ScriptError.Shape → IsNoDump input.now }
    ensures never { IfErr result (λ e. (e ≢ ScriptError.Read) × (e ≢ ScriptError.Write)) }
{
    let verdict = verdict_on(alloc, input)?;
    let Ok(text) = verdict_text(alloc, &verdict) else {
        return Err(ScriptError::Memory);
    };
    Ok(Judgement {
        text,
        is_lawful: is_lawful(&verdict),
    })
}
