//! Steps that are carried out one after the other, each the one that comes next, with a line each.

ghost use Rattle.std.specs.Prelude.{◌≤◌, List, map, string_bytes, IfOk, OnOk};
ghost use Rattle.rx_agenda.specs.Agenda.{with_steps, empty_agenda};
ghost use Rattle.rx_agenda.specs.Shown.{agenda_of};
ghost use Rattle.rx_scenario.specs.Scenario.{step_of};
ghost use Rattle.rx_event.specs.declared.event.Event.{Event};
ghost use Rattle.rx_script.specs.Engine.{IsSound, IsHistoryOf, stage_of};
ghost use Rattle.rx_trace.specs.Taken.{Knows, HasToldAll, HasRunOut, TakesTold};

use crate::front::{push_front, push_outcome};
use crate::handed::HandedOut;
use crate::told::tell;
use rx_agenda::{Agenda, Answer, add_all, empty_agenda, next_step};
use rx_resource::Resource;
use rx_scenario::Step;
use rx_script::{Engine, Ran, has_refused, take_step};
use std::alloc::{AllocError, Global};

// Takes a step that comes next, and writes its line. So many were executed before.
fn take_told<R: Resource>(
    alloc: Global,
    engine: &mut Engine<R>,
    agenda: &mut Agenda,
    handed: &mut HandedOut,
    step: Step,
    executed: usize,
    text: &mut String,
) -> Result<Answer, AllocError>
    requires sound { IsSound engine.old }
    requires told { HasToldAll engine.old }
    requires clock { agenda.old.timeline.clock ≤ 1000000000000000 }
    ensures { IfOk result (λ a. TakesTold engine.old agenda.old handed.old (string_bytes text.old) executed step a
        engine.new agenda.new handed.new (string_bytes text.new)) }
{
    push_front(text, executed, agenda.timeline.now(), &step.action)?;
    let place = engine.book.len();
    let answer = take_step(engine, agenda, step)?;
    push_outcome(text, answer, place)?;
    tell(alloc, engine, text, handed, place)?;
    text.push_str("}\n")?;
    Ok(answer)
}

// Takes all steps that come until this time, and writes their lines.
fn trace_all<R: Resource>(
    alloc: Global,
    engine: &mut Engine<R>,
    agenda: &mut Agenda,
    handed: &mut HandedOut,
    until: u64,
) -> Result<Ran, AllocError>
    requires sound { IsSound engine.old }
    requires told { HasToldAll engine.old }
    requires ends { until ≤ 1000000000000000 }
    requires clock { agenda.old.timeline.clock ≤ until }
    ensures traces { IfOk result (λ r. (h : List Event) → IsHistoryOf h engine.old.tallies engine.old.book → Knows handed.old (stage_of engine.old h)
        → HasRunOut engine.old.book.limit until (stage_of engine.old h) (agenda_of agenda.old) (string_bytes r.text) r.has_refused
        engine.new handed.new) }
    ensures sound { OnOk result (IsSound engine.new) }
{
    let mut answers = Vec::new(alloc);
    let mut text = String::new(alloc);
    while let Some(step) = next_step(agenda, until) {
        let executed = answers.len();
        answers.push(take_told(alloc, engine, agenda, handed, step, executed, &mut text)?)?;
    }
    let has_refused = has_refused(answers.as_slice());
    Ok(Ran { text, has_refused })
}

/// Runs a scenario's steps until this time, and writes their lines.
pub fn trace_course<R: Resource>(
    alloc: Global,
    engine: &mut Engine<R>,
    handed: &mut HandedOut,
    steps: Vec<Step>,
    until: u64,
) -> Result<Ran, AllocError>
    requires sound { IsSound engine.old }
    requires told { HasToldAll engine.old }
    requires ends { until ≤ 1000000000000000 }
    ensures traces { IfOk result (λ r. (h : List Event) → IsHistoryOf h engine.old.tallies engine.old.book → Knows handed.old (stage_of engine.old h)
        → HasRunOut engine.old.book.limit until (stage_of engine.old h) (with_steps (map step_of steps.items) empty_agenda) (string_bytes r.text)
        r.has_refused engine.new handed.new) }
    ensures sound { OnOk result (IsSound engine.new) }
{
    let mut agenda = empty_agenda(alloc);
    add_all(&mut agenda, steps)?;
    trace_all(alloc, engine, &mut agenda, handed, until)
}
