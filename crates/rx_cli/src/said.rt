//! What is said of an input: a text and a status.

ghost use Rattle.std.specs.Prelude.{◌≡◌, ◌≢◌, List, false, true, map, string_bytes, IfOk, IfErr, IsErrOf};
ghost use Rattle.rx_device.specs.declared.fault.ScriptError.{ScriptError};
ghost use Rattle.rx_script.specs.Stage.{Ware, ware_of};
ghost use Rattle.rx_cli.specs.declared.request.Asked.{Asked};
ghost use Rattle.rx_cli.specs.Said.{Says, IsSentence, strict_status, takes_any};

use crate::request::Asked;
use rx_device::ScriptError;
use rx_dump::{Labels, judge};
use rx_explain::{explain, too_long};
use rx_resource::Resource;
use rx_script::{Form, run_strictly};
use rx_svg::draw;
use rx_trace::trace;
use std::alloc::Global;

/// What is said of an input.
#[derive(Drop)]
pub struct Said {
    /// The text.
    pub text: String,
    /// The exit status with it.
    pub status: u8,
}

// A line of an explanation.
fn sentence(alloc: Global, told: String) -> Result<Said, ScriptError>
    ensures ok { IfOk result (λ s. IsSentence (string_bytes s.text) s.status) }
    ensures never { IfErr result (λ e. e ≡ ScriptError.Memory) }
{
    match format!(in alloc; "{told}\n") {
        Ok(text) => Ok(Said { text, status: 3 }),
        Err(_) => Err(ScriptError::Memory),
    }
}

// The exit status of a run.
fn strict_status(is_strict: bool, has_refused: bool) -> u8
    ensures { result ≡ strict_status is_strict has_refused }
{
    if is_strict && has_refused { 6 } else { 0 }
}

// What the run of a scenario gives.
fn said_by_run<R: Resource>(
    alloc: Global,
    input: &[u8],
    stock: Vec<R>,
    form: Form,
    is_strict: bool,
) -> Result<Said, ScriptError>
    ensures { Says (map (ware_of R.Resource) stock.items) (Asked.Run form is_strict) input.now result }
{
    match run_strictly(alloc, input, stock, form) {
        Ok(ran) => Ok(Said {
            text: ran.text,
            status: strict_status(is_strict, ran.has_refused),
        }),
        Err(error) => Err(error),
    }
}

// The trace of a scenario.
fn said_by_trace<R: Resource>(
    alloc: Global,
    input: &[u8],
    stock: Vec<R>,
    is_strict: bool,
) -> Result<Said, ScriptError>
    ensures { Says (map (ware_of R.Resource) stock.items) (Asked.Trace is_strict) input.now result }
{
    match trace(alloc, input, stock) {
        Ok(ran) => Ok(Said {
            text: ran.text,
            status: strict_status(is_strict, ran.has_refused),
        }),
        Err(error) => Err(error),
    }
}

// The verdict on a history.
fn said_by_audit(alloc: Global, input: &[u8], labels: Labels) -> Result<Said, ScriptError>
    ensures { (stock : List Ware) → Says stock (Asked.Audit labels) input.now result }
{
    match judge(alloc, input, labels) {
        Ok(judgement) => Ok(Said {
            text: judgement.text,
            status: if judgement.is_lawful { 0 } else { 5 },
        }),
        Err(error) => Err(error),
    }
}

// What is wrong with it, as a line; no text where nothing is.
fn said_to_explain(alloc: Global, input: &[u8]) -> Result<Said, ScriptError>
    ensures { (stock : List Ware) → Says stock Asked.Explain input.now result }
{
    match explain(alloc, input) {
        Ok(Some(told)) => sentence(alloc, told),
        Ok(None) => Ok(Said {
            text: String::new(alloc),
            status: 0,
        }),
        Err(_) => Err(ScriptError::Memory),
    }
}

// The picture of a history.
fn said_by_picture(alloc: Global, input: &[u8]) -> Result<Said, ScriptError>
    ensures { (stock : List Ware) → Says stock Asked.Picture input.now result }
{
    match draw(alloc, input) {
        Ok(text) => Ok(Said { text, status: 0 }),
        Err(error) => Err(error),
    }
}

/// What is said of an input. A scenario is run with these resources as its stock.
pub fn say<R: Resource>(
    alloc: Global,
    asked: Asked,
    input: &[u8],
    stock: Vec<R>,
) -> Result<Said, ScriptError>
    ensures { Says (map (ware_of R.Resource) stock.items) asked input.now result }
{
    match asked {
        Asked::Run { form, is_strict } => said_by_run(alloc, input, stock, form, is_strict),
        Asked::Trace { is_strict } => said_by_trace(alloc, input, stock, is_strict),
        Asked::Audit(labels) => said_by_audit(alloc, input, labels),
        Asked::Explain => said_to_explain(alloc, input),
        Asked::Picture => said_by_picture(alloc, input),
    }
}

/// What is said of more than an input may be.
pub fn say_of_too_much(alloc: Global, asked: Asked) -> Result<Said, ScriptError>
    ensures ok { IfOk result (λ s. (takes_any asked ≡ true) × IsSentence (string_bytes s.text) s.status) }
    ensures syntax { IsErrOf result ScriptError.Syntax → takes_any asked ≡ false }
    ensures never { IfErr result (λ e. (e ≢ ScriptError.Read) × (e ≢ ScriptError.Write) × (e ≢ ScriptError.Shape)) }
{
    match asked {
        Asked::Explain => match too_long(alloc) {
            Ok(told) => sentence(alloc, told),
            Err(_) => Err(ScriptError::Memory),
        },
        _ => Err(ScriptError::Syntax),
    }
}
