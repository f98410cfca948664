//! From a scenario's bytes to its report or its dump.

ghost use Rattle.rx_event.specs.declared.event.Event.{Event as Happening};
ghost use Rattle.rx_event.specs.Kept.{nothing_kept};
ghost use Rattle.std.specs.Prelude.{◌≡◌, ◌≢◌, ◌≤◌, ◌++◌, ℕ, List, false, true, map, string_bytes, IfOk, IfErr, OnOk, IsErrOf};
ghost use Rattle.serde_json.specs.Data.{Data};
ghost use Rattle.rx_event.specs.Totals.{accepted_count};
ghost use Rattle.rx_register.specs.State.{greatest_limit};
ghost use Rattle.rx_device.specs.Input.{IsJsonOf};
ghost use Rattle.rx_device.specs.Part.{part_data};
ghost use Rattle.rx_scenario.specs.Scenario.{step_of, steps_of, script_of};
ghost use Rattle.rx_scenario.specs.Reading.{scenario_of};
ghost use Rattle.rx_script.specs.Stage.{ware_of};
ghost use Rattle.rx_script.specs.Course.{limited, Course, HasNoFull, IsCourseOf};
ghost use Rattle.rx_agenda.specs.Agenda.{with_steps, empty_agenda};
ghost use Rattle.rx_script.specs.Report.{unclosed_report, output, lacks_form};
ghost use Rattle.rx_dump.specs.Dump.{dump};
ghost use Rattle.rx_script.specs.Engine.{stage_of, IsHistoryOf, IsSound};
ghost use Rattle.rx_script.specs.Outputs.{has_history, unclosed_output, closing, IsCarriedOut};
ghost use Rattle.rx_script.specs.Running.{IsReportedCanonically, IsOutputOfInput, HasNoOutput, GivesNoOutput};
ghost use Rattle.rx_script.specs.Running.{is_refused, has_refused, IsRunOf, IsRunOfInput};

use crate::Form;
use crate::closing::close;
use crate::course::run_course;
use crate::engine::{Engine, begin};
use crate::gathering::gather;
use crate::naming::named_dump;
use crate::report::{events_of, push_nodes, push_resources, totals_reported};
use crate::text::{push_all_refused, push_closed, push_totals};
use json::Scratch;
use rx_agenda::Answer;
use rx_book::Book;
use rx_device::{Part, ScriptError, ShapeError, parse_in_place};
use rx_dump::push_dump;
use rx_resource::Resource;
use rx_scenario::{Scenario, Step, has_checkpoint, scenario_of};
use std::alloc::{AllocError, Global};

// All lines of the report but the last.
#[tactic(auto, unfolding(crate::specs::Report::unclosed_report))]
fn unclosed_report<S: Resource>(
    alloc: Global,
    engine: &mut Engine<S>,
    answers: &[Answer],
) -> Result<String, AllocError>
    requires sound { IsSound engine.old }
    ensures ok { IfOk result (λ s. (h : List Happening) → IsHistoryOf h engine.old.tallies engine.old.book
        → string_bytes s ≡ unclosed_report answers.now (stage_of engine.old h)) }
    ensures base { OnOk result (engine.new.book.base ≡ engine.old.book.base) }
    ensures history { OnOk result (engine.new.book.history ≡ engine.old.book.history) }
    ensures faults { OnOk result (engine.new.faults ≡ engine.old.faults) }
{
    gather(&mut engine.tallies, &mut engine.book)?;
    engine.book.promise();
    let mut text = String::new(alloc);
    push_all_refused(&mut text, answers)?;
    push_nodes(
        &mut text,
        &engine.tallies,
        &engine.book,
        engine.nodes.in_order(),
    )?;
    push_resources(
        &mut text,
        &engine.tallies,
        &engine.book,
        engine.resources.in_order(),
    )?;
    push_totals(&mut text, totals_reported(&engine.tallies, &engine.book))?;
    Ok(text)
}

// The dump.
fn dump_of<S: Resource>(alloc: Global, book: &Book<S>) -> Result<String, AllocError>
    ensures { IfOk result (λ s. book.now.base ≡ nothing_kept → string_bytes s ≡ dump book.now.history) }
{
    let events = events_of(alloc, book)?;
    let mut text = String::new(alloc);
    push_dump(&mut text, events.as_slice())?;
    Ok(text)
}

// What is written in this form, but for the last line of a report.
fn unclosed_output<S: Resource>(
    alloc: Global,
    engine: &mut Engine<S>,
    answers: &[Answer],
    form: Form,
) -> Result<String, AllocError>
    requires sound { IsSound engine.old }
    ensures ok { IfOk result (λ s. (h : List Happening) → IsHistoryOf h engine.old.tallies engine.old.book
        → (has_history form ≡ true → engine.old.book.base.at_length ≡ 0)
        → string_bytes s ≡ unclosed_output form answers.now (stage_of engine.old h)) }
    ensures base { OnOk result (engine.new.book.base ≡ engine.old.book.base) }
    ensures history { OnOk result (engine.new.book.history ≡ engine.old.book.history) }
    ensures faults { OnOk result (engine.new.faults ≡ engine.old.faults) }
{
    match form {
        Form::Report => unclosed_report(alloc, engine, answers),
        Form::Dump => dump_of(alloc, &engine.book),
        Form::NamedDump => named_dump(alloc, engine),
    }
}

// Whether the answer is a refusal.
fn is_refused(answer: Answer) -> bool
    ensures { result ≡ is_refused answer }
{
    match answer {
        Answer::Accepted => false,
        Answer::Refused(_) => true,
    }
}

/// Whether one of the answers is a refusal.
pub fn has_refused(answers: &[Answer]) -> bool
    ensures { result ≡ has_refused answers.now }
{
    answers.iter().any(|answer| is_refused(*answer))
}

// Carries out all steps, and writes what is written in this form but for the last line of a report.
fn carry_out<S: Resource>(
    alloc: Global,
    engine: &mut Engine<S>,
    steps: Vec<Step>,
    until: u64,
    form: Form,
) -> Result<Ran, AllocError>
    requires sound { IsSound engine.old }
    requires ends { until ≤ 1000000000000000 }
    ensures ok { IfOk result (λ r. (h : List Happening) → IsHistoryOf h engine.old.tallies engine.old.book
        → (out : IsCarriedOut (limited engine.old.book.limit) until
        (record { stage = stage_of engine.old h; agenda = with_steps (map step_of steps.items) empty_agenda })
        form (string_bytes r.text) engine.new) × (r.has_refused ≡ has_refused out.answers)) }
{
    let answers = run_course(alloc, engine, steps, until)?;
    let text = unclosed_output(alloc, engine, answers.as_slice(), form)?;
    let has_refused = has_refused(answers.as_slice());
    Ok(Ran { text, has_refused })
}

// The last line of a report; a dump has none.
fn push_closing(text: &mut String, form: Form, released: u64, faults: u64) -> Result<(), AllocError>
    ensures { OnOk result (string_bytes text.new ≡ string_bytes text.old ++ closing form released faults) }
{
    match form {
        Form::Report => push_closed(text, released, faults),
        Form::Dump | Form::NamedDump => Ok(()),
    }
}

// What is written of a scenario. Its book is closed in every outcome.
fn text_of<S: Resource>(
    alloc: Global,
    scenario: Scenario,
    stock: Vec<S>,
    form: Form,
) -> Result<Ran, AllocError>
    requires limited { scenario.events ≤ greatest_limit }
    requires ends { scenario.until ≤ 1000000000000000 }
    requires has_form { lacks_form form (steps_of (script_of scenario).steps) ≡ false }
    ensures { IfOk result (λ r. (c : Course) × (faults : ℕ) × IsCourseOf (script_of scenario) (map (ware_of S.Resource) stock.items) c
        × (faults ≤ accepted_count nothing_kept c.last.history) × (string_bytes r.text ≡ output form c faults)
        × (HasNoFull c.answers → IsReportedCanonically (script_of scenario) (map (ware_of S.Resource) stock.items) form c (string_bytes r.text) faults)
        × (r.has_refused ≡ has_refused c.answers)) }
{
    let Scenario {
        steps,
        events,
        until,
    } = scenario;
    let mut engine = begin(alloc, events, stock);
    let outcome = carry_out(alloc, &mut engine, steps, until, form);
    engine.book.promise();
    let closed = close(&mut engine.book);
    let mut ran = outcome?;
    let faults = engine.faults.saturating_add(closed.faults);
    push_closing(&mut ran.text, form, closed.released, faults)?;
    Ok(ran)
}

// Whether the form has the history in it, and the scenario may make a checkpoint.
fn lacks_form(form: Form, steps: &[Step]) -> bool
    ensures { result ≡ lacks_form form (steps_of (map step_of steps.now)) }
{
    match form {
        Form::Report => false,
        Form::Dump | Form::NamedDump => has_checkpoint(steps),
    }
}

// What is written of the scenario that the value is.
fn output_of<S: Resource>(
    alloc: Global,
    value: Part<'_, '_>,
    stock: Vec<S>,
    form: Form,
) -> Result<Ran, ShapeError>
    ensures ok { IfOk result (λ r. IsRunOf (part_data value.entry) (map (ware_of S.Resource) stock.items) form (string_bytes r.text) r.has_refused) }
    ensures shape { IsErrOf result ShapeError.Shape → GivesNoOutput (part_data value.entry) form }
{
    let scenario = scenario_of(alloc, value)?;
    if lacks_form(form, scenario.steps.as_slice()) {
        return Err(ShapeError::Shape);
    }
    match text_of(alloc, scenario, stock, form) {
        Ok(ran) => Ok(ran),
        Err(AllocError) => Err(ShapeError::Memory),
    }
}

/// What came of a run.
#[derive(Drop)]
pub struct Ran {
    /// What the form says.
    pub text: String,
    /// Whether a step was refused.
    pub has_refused: bool,
}

/// Runs the scenario that the input is, in JSON, on a new book, with these resources as its stock, and gives what
/// the form says: its report, or the dump of its history before the closing, alone or with the names of the run. A
/// scenario with a checkpoint has no dump, since the book lets events go there; that is `Shape`.
///
/// The book is closed in every outcome: each resource that it accepted was released once. Those that it never accepted
/// are dropped unreleased.
pub fn run_strictly<S: Resource>(
    alloc: Global,
    input: &[u8],
    stock: Vec<S>,
    form: Form,
) -> Result<Ran, ScriptError>
    ensures ok { IfOk result (λ r. IsRunOfInput input.now (map (ware_of S.Resource) stock.items) form (string_bytes r.text) r.has_refused) }
    ensures syntax { IsErrOf result ScriptError.Syntax → (d : Data) → ¬ IsJsonOf input.now d }
    ensures shape { IsErrOf result ScriptError.Shape → HasNoOutput input.now form }
    ensures never { IfErr result (λ e. (e ≢ ScriptError.Read) × (e ≢ ScriptError.Write)) }
{
    let mut scratch = Scratch::new(alloc);
    let value = parse_in_place(alloc, input, &mut scratch)?;
    match output_of(alloc, Part::new(&value), stock, form) {
        Ok(ran) => Ok(ran),
        Err(ShapeError::Shape) => Err(ScriptError::Shape),
        Err(ShapeError::Memory) => Err(ScriptError::Memory),
    }
}

/// The text of [`run_strictly`].
pub fn run<S: Resource>(
    alloc: Global,
    input: &[u8],
    stock: Vec<S>,
    form: Form,
) -> Result<String, ScriptError>
    ensures ok { IfOk result (λ s. IsOutputOfInput input.now (map (ware_of S.Resource) stock.items) form (string_bytes s)) }
    ensures syntax { IsErrOf result ScriptError.Syntax → (d : Data) → ¬ IsJsonOf input.now d }
    ensures shape { IsErrOf result ScriptError.Shape → HasNoOutput input.now form }
    ensures never { IfErr result (λ e. (e ≢ ScriptError.Read) × (e ≢ ScriptError.Write)) }
{
    match run_strictly(alloc, input, stock, form) {
        Ok(ran) => Ok(ran.text),
        Err(error) => Err(error),
    }
}
