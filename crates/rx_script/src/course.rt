//! Steps that are carried out one after the other, each the one that comes next.

ghost use Rattle.std.specs.Prelude.{◌≤◌, map, IfOk, OnOk};
ghost use Rattle.rx_scenario.specs.Scenario.{step_of};
ghost use Rattle.rx_script.specs.Course.{limited};
ghost use Rattle.rx_script.specs.Progress.{Ends};
ghost use Rattle.rx_agenda.specs.Agenda.{with_steps, empty_agenda};
ghost use Rattle.rx_agenda.specs.Shown.{agenda_of};
ghost use Rattle.rx_script.specs.Engine.{MovesOn, IsSound, Performed, Followed};

use crate::calls::execute;
use crate::engine::Engine;
use crate::noting::keep_notes;
use rx_agenda::{Agenda, Answer, add_all, cancel, empty_agenda, follow, next_step};
use rx_resource::Resource;
use rx_scenario::{Action, Step};
use std::alloc::{AllocError, Global};

// Does what a step does.
fn perform<R: Resource>(
    engine: &mut Engine<R>,
    agenda: &mut Agenda,
    action: Action,
) -> Result<Answer, AllocError>
    requires { IsSound engine.old }
    ensures { IfOk result (λ a. Performed engine.old agenda.old action a engine.new agenda.new) }
{
    match action {
        Action::Command(command) => execute(engine, command),
        Action::Cancel(label) => Ok(cancel(agenda, label.as_str())),
    }
}

/// Takes a step that comes next: where it is accepted, those that follow it are to come. Err where memory was
/// refused; then the scenario goes no further.
pub fn take_step<R: Resource>(
    engine: &mut Engine<R>,
    agenda: &mut Agenda,
    step: Step,
) -> Result<Answer, AllocError>
    requires sound { IsSound engine.old }
    requires clock { agenda.old.timeline.clock ≤ 1000000000000000 }
    ensures { IfOk result (λ a. Followed engine.old agenda.old step a engine.new agenda.new) }
{
    let (action, then) = step.into_parts();
    let answer = perform(engine, agenda, action)?;
    follow(agenda, answer, then)?;
    Ok(answer)
}

// Takes all steps that come until this time, and lists their answers. The notes of a step are kept before the next one comes.
fn take_all<R: Resource>(
    alloc: Global,
    engine: &mut Engine<R>,
    agenda: &mut Agenda,
    until: u64,
) -> Result<Vec<Answer>, AllocError>
    requires sound { IsSound engine.old }
    requires ends { until ≤ 1000000000000000 }
    requires clock { agenda.old.timeline.clock ≤ until }
    ensures course { IfOk result (λ v. MovesOn engine.old engine.new (λ s t.
        Ends (limited engine.old.book.limit) until (record { stage = s; agenda = agenda_of agenda.old }) v.items t)) }
    ensures sound { OnOk result (IsSound engine.new) }
{
    let mut answers = Vec::new(alloc);
    while let Some(step) = next_step(agenda, until) {
        let answer = take_step(engine, agenda, step)?;
        keep_notes(engine)?;
        answers.push(answer)?;
    }
    Ok(answers)
}

/// Runs a scenario's steps until this time, and lists the answers.
pub fn run_course<R: Resource>(
    alloc: Global,
    engine: &mut Engine<R>,
    steps: Vec<Step>,
    until: u64,
) -> Result<Vec<Answer>, AllocError>
    requires sound { IsSound engine.old }
    requires ends { until ≤ 1000000000000000 }
    ensures course { IfOk result (λ v. MovesOn engine.old engine.new (λ s t.
        Ends (limited engine.old.book.limit) until (record { stage = s; agenda = with_steps (map step_of steps.items) empty_agenda }) v.items t)) }
    ensures sound { OnOk result (IsSound engine.new) }
{
    let mut agenda = empty_agenda(alloc);
    add_all(&mut agenda, steps)?;
    take_all(alloc, engine, &mut agenda, until)
}
