//! From a scenario's bytes to its trace.

ghost use Rattle.std.specs.Prelude.{◌≡◌, ◌≢◌, ◌≤◌, ◌++◌, List, map, string_bytes, IfOk, IfErr, OnOk, IsErrOf};
ghost use Rattle.serde_json.specs.Data.{Data};
ghost use Rattle.rx_device.specs.Input.{IsJsonOf};
ghost use Rattle.rx_device.specs.Part.{part_data};
ghost use Rattle.rx_scenario.specs.Scenario.{script_of};
ghost use Rattle.rx_script.specs.declared.Form.{Form};
ghost use Rattle.rx_script.specs.Running.{GivesNoOutput, HasNoOutput, has_refused};
ghost use Rattle.rx_script.specs.Stage.{ware_of};
ghost use Rattle.rx_event.specs.declared.event.Event.{Event};
ghost use Rattle.rx_event.specs.Kept.{nothing_kept};
ghost use Rattle.rx_event.specs.Lawful.{IsLawful};
ghost use Rattle.rx_register.specs.State.{greatest_limit};
ghost use Rattle.rx_script.specs.Engine.{stage_of};
ghost use Rattle.rx_trace.specs.Line.{closing_text};
ghost use Rattle.rx_trace.specs.Taken.{AreHandedOut};
ghost use Rattle.rx_trace.specs.Traced.{IsTraceOf};
ghost use Rattle.rx_trace.specs.Running.{IsTraceOfValue, IsTraceOfInput};

use crate::handed::HandedOut;
use crate::told::{left_names, push_list};
use crate::tracing::trace_course;
use json::Scratch;
use rx_device::{Part, ScriptError, ShapeError, parse_in_place};
use rx_resource::Resource;
use rx_scenario::{Scenario, scenario_of};
use rx_script::{Engine, Ran, begin, close};
use std::alloc::{AllocError, Global};

// Writes the line of the closing, which hands out what was not handed out before.
fn push_closing<S: Resource>(
    alloc: Global,
    text: &mut String,
    engine: &Engine<S>,
    handed: &HandedOut,
) -> Result<(), AllocError>
    ensures { OnOk result ((h : List Event) → IsLawful nothing_kept h → AreHandedOut handed.now h
        → string_bytes text.new ≡ string_bytes text.old ++ closing_text (stage_of engine.now h)) }
{
    let names = left_names(alloc, engine.resources.in_order(), handed)?;
    text.push_str("{\"closed\":true")?;
    push_list(text, "release", names.as_slice())?;
    text.push_str("}\n")?;
    Ok(())
}

// The trace of a scenario. Its book is closed in every outcome.
fn text_of<S: Resource>(alloc: Global, scenario: Scenario, stock: Vec<S>) -> Result<Ran, AllocError>
    requires limited { scenario.events ≤ greatest_limit }
    requires ends { scenario.until ≤ 1000000000000000 }
    ensures { IfOk result (λ r. (trace : IsTraceOf (script_of scenario) (map (ware_of S.Resource) stock.items) (string_bytes r.text))
        × (r.has_refused ≡ has_refused trace.traced.answers)) }
{
    let Scenario {
        steps,
        events,
        until,
    } = scenario;
    let mut engine = begin(alloc, events, stock);
    let mut handed = HandedOut::new(alloc);
    let outcome = trace_course(alloc, &mut engine, &mut handed, steps, until);
    let _closed = close(&mut engine.book);
    let mut ran = outcome?;
    push_closing(alloc, &mut ran.text, &engine, &handed)?;
    Ok(ran)
}

// The trace of the scenario that the value is.
fn trace_of<S: Resource>(
    alloc: Global,
    value: Part<'_, '_>,
    stock: Vec<S>,
) -> Result<Ran, ShapeError>
    ensures ok { IfOk result (λ r. IsTraceOfValue (part_data value.entry) (map (ware_of S.Resource) stock.items) (string_bytes r.text) r.has_refused) }
    ensures shape { IsErrOf result ShapeError.Shape → GivesNoOutput (part_data value.entry) Form.Report }
{
    let scenario = scenario_of(alloc, value)?;
    match text_of(alloc, scenario, stock) {
        Ok(ran) => Ok(ran),
        Err(AllocError) => Err(ShapeError::Memory),
    }
}

/// Runs the scenario that the input is, in JSON, on a new book, with these resources as its stock, and gives its trace. The
/// book is closed in every outcome, as [`rx_script::run`] closes it.
pub fn trace<S: Resource>(alloc: Global, input: &[u8], stock: Vec<S>) -> Result<Ran, ScriptError>
    ensures ok { IfOk result (λ r. IsTraceOfInput input.now (map (ware_of S.Resource) stock.items) (string_bytes r.text) r.has_refused) }
    ensures syntax { IsErrOf result ScriptError.Syntax → (d : Data) → ¬ IsJsonOf input.now d }
    ensures shape { IsErrOf result ScriptError.Shape → HasNoOutput input.now Form.Report }
    ensures never { IfErr result (λ e. (e ≢ ScriptError.Read) × (e ≢ ScriptError.Write)) }
{
    let mut scratch = Scratch::new(alloc);
    let value = parse_in_place(alloc, input, &mut scratch)?;
    match trace_of(alloc, Part::new(&value), stock) {
        Ok(ran) => Ok(ran),
        Err(ShapeError::Shape) => Err(ScriptError::Shape),
        Err(ShapeError::Memory) => Err(ScriptError::Memory),
    }
}
