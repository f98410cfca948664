//! From the bytes of an input to the text of its verdict.

ghost use Rattle.std.specs.Prelude.{◌≡◌, ◌≢◌, None, string_bytes, IfOk, IfErr, IfSome, IsErrOf};
ghost use Rattle.serde_json.specs.Data.{Data, null};
ghost use Rattle.serde_json.specs.View.{view};
ghost use Rattle.rx_device.specs.Input.{IsJsonOf};
ghost use Rattle.rx_dump.specs.History.{history_of};
ghost use Rattle.rx_dump.specs.Checking.{IsVerdictOn};
ghost use Rattle.rx_dump.specs.Names.{dump_in};
ghost use Rattle.rx_dump.specs.Judged.{names_for, IsJudgement, IsNoHistory};

use crate::checking::{Judgement, check};
use crate::history::history_of;
use crate::input::{dump_in, names_or};
use crate::named_verdict::named_verdict_text;
use crate::names::Names;
use crate::verdict::is_lawful;
use rx_audit::{Verdict, audit};
use rx_device::{ScriptError, ShapeError, value_of};
use serde_json::Value;
use std::alloc::Global;

/// What a verdict tells of something that is open, held or waiting.
#[derive(Clone, Copy)]
pub enum Labels {
    /// Its number.
    Numbers,
    /// Its number, and its name if it has one.
    Names,
}

// The verdict on the history of which the value has the dump.
fn verdict_on(alloc: Global, value: &Value) -> Result<Verdict, ScriptError>
    ensures ok { IfOk result (IsVerdictOn (dump_in (view value.now))) }
    ensures shape { IsErrOf result ScriptError.Shape → history_of (dump_in (view value.now)) ≡ None }
    ensures never { IfErr result (λ e. (e ≢ ScriptError.Read) × (e ≢ ScriptError.Write) × (e ≢ ScriptError.Syntax)) }
{
    let history = match history_of(alloc, dump_in(value)) {
        Ok(history) => history,
        Err(ShapeError::Shape) => return Err(ScriptError::Shape),
        Err(ShapeError::Memory) => return Err(ScriptError::Memory),
    };
    match audit(alloc, history.as_slice()) {
        Ok(verdict) => Ok(verdict),
        // `TooMany` is out of reach: an event takes more than one of the 16,777,216 bytes that an input has at most.
        Err(_) => Err(ScriptError::Memory),
    }
}

// The names that a verdict on the value tells.
fn names_for<'a>(labels: Labels, value: &'a Value, none: &'a Value) -> &'a Value
    requires { view none.now ≡ null }
    ensures { view result.now ≡ names_for labels (view value.now) }
{
    match labels {
        Labels::Numbers => none,
        Labels::Names => names_or(value, none),
    }
}

// The text of the verdict on the history of which the input has the dump, by the JSON value of the whole.
fn judge_value(alloc: Global, input: &[u8], labels: Labels) -> Result<Judgement, ScriptError>
    ensures ok { IfOk result (λ j. IsJudgement labels input.now j.is_lawful (string_bytes j.text)) }
    ensures syntax { IsErrOf result ScriptError.Syntax → (d : Data) → ¬ IsJsonOf input.now d }
    ensures shape { IsErrOf result ScriptError.Shape → IsNoHistory input.now }
    ensures never { IfErr result (λ e. (e ≢ ScriptError.Read) × (e ≢ ScriptError.Write)) }
{
    let value = value_of(alloc, input)?;
    let verdict = verdict_on(alloc, &value)?;
    let none = Value::Null;
    let object = names_for(labels, &value, &none);
    let Ok(text) = named_verdict_text(Names { alloc, object }, &verdict) else {
        return Err(ScriptError::Memory);
    };
    Ok(Judgement {
        text,
        is_lawful: is_lawful(&verdict),
    })
}

// The text of the verdict on the history of which the input is itself the dump, read event by event. None says no more
// than that it was not read so.
#[tactic(auto, using(crate::proofs::JudgedAsGiven::judged_alone))]
fn judge_dump(alloc: Global, input: &[u8], labels: Labels) -> Result<Option<Judgement>, ScriptError>
    ensures ok { IfOk result (λ found. IfSome found (λ j. IsJudgement labels input.now j.is_lawful (string_bytes j.text))) }
    ensures syntax { IsErrOf result ScriptError.Syntax → (d : Data) → ¬ IsJsonOf input.now d }
    ensures never { IfErr result (λ e. (e ≢ ScriptError.Read) × (e ≢ ScriptError.Write) × (e ≢ ScriptError.Shape)) }
{
    match check(alloc, input) {
        Ok(judgement) => Ok(Some(judgement)),
        Err(ScriptError::Shape) => Ok(None),
        Err(error) => Err(error),
    }
}

// Whether the first byte that is no space opens an array.
fn opens_array(input: &[u8]) -> bool {
    input.trim_ascii_start().first() == Some(&b'[')
}

/// The verdict on the history of which the input has the dump, alone or in an object beside names.
///
/// The verdict is `lawful` and three lines with the numbers of the open nodes and of the resources that are held and
/// that wait, each with its name behind it where the labels are names, or `unlawful` and the first place whose event
/// may not follow those before it, or `unsettled`. A value of the whole is made only where the input is not itself a dump.
pub fn judge(alloc: Global, input: &[u8], labels: Labels) -> Result<Judgement, ScriptError>
    ensures ok { IfOk result (λ j. IsJudgement labels input.now j.is_lawful (string_bytes j.text)) }
    ensures syntax { IsErrOf result ScriptError.Syntax → (d : Data) → ¬ IsJsonOf input.now d }
    ensures shape { IsErrOf result ScriptError.Shape → IsNoHistory input.now }
    ensures never { IfErr result (λ e. (e ≢ ScriptError.Read) × (e ≢ ScriptError.Write)) }
{
    if opens_array(input) {
        if let Some(judgement) = judge_dump(alloc, input, labels)? {
            return Ok(judgement);
        }
    }
    judge_value(alloc, input, labels)
}
