//! The steps that are to come.

ghost use Rattle.std.specs.Prelude.{◌≡◌, ◌+◌, ◌≤◌, ◌++◌, ◌∷◌, []};
ghost use Rattle.std.specs.Prelude.{Some, None, map, sum_by, option_map, string_bytes, IfOk, OnOk, IfSome, IfNone};
ghost use Rattle.rx_time.specs.Schedule.{with_work};
ghost use Rattle.rx_scenario.specs.Scenario.{step_of};
ghost use Rattle.rx_agenda.specs.Agenda.{empty_agenda, with_label, with_step_after, with_step, with_steps, followed_by, next_step, Cancels};
ghost use Rattle.rx_agenda.specs.Shown.{number_binding, agenda_of, steps_to_come, size_left};

use crate::answer::{Answer, Cause};
use crate::names::Names;
use rx_disposable::Back;
use rx_scenario::{Step, Ticks};
use rx_time::{Ticket, Timeline, Trampoline};
use std::alloc::{AllocError, Global};

/// The steps that wait in virtual time, the next ones of this turn, and the tickets of those that
/// have labels.
pub struct Agenda {
    pub timeline: Timeline<Step>,
    pub turn: Trampoline<Step>,
    pub labels: Names<Ticket>,
}

// Written out, so that where an agenda is let go there is one call to prove, and not the drop of each field in turn.
impl Drop for Agenda {
    fn drop(self) {
        let Agenda {
            timeline: _timeline,
            turn: _turn,
            labels: _labels,
        } = self;
    }
}

/// Nothing is to come. It takes no memory.
pub fn empty_agenda(alloc: Global) -> Agenda
    ensures value { agenda_of result ≡ empty_agenda }
    ensures size { size_left result ≡ 0 }
{
    Agenda {
        timeline: Timeline::new(alloc),
        turn: Trampoline::new(alloc),
        labels: Names::new(alloc),
    }
}

// A label stands for the ticket of the first step that waits under it.
fn note_label(
    labels: &mut Names<Ticket>,
    label: Option<String>,
    ticket: Ticket,
) -> Result<(), AllocError>
    ensures { OnOk result (map number_binding labels.new
        ≡ with_label (option_map string_bytes label) ticket (map number_binding labels.old)) }
{
    let Some(label) = label else {
        return Ok(());
    };
    if labels.is_bound(label.as_str()) {
        return Ok(());
    }
    labels.bind(label, ticket)
}

// A copy of the step's label.
fn label_of(step: &Step) -> Result<Option<String>, AllocError>
    ensures { IfOk result (λ l. option_map string_bytes l ≡ (step_of step.now).label) }
{
    match &step.label {
        Some(label) => Ok(Some(label.clone()?)),
        None => Ok(None),
    }
}

// When a step is due that waits so long from now.
fn due_after(timeline: &Timeline<Step>, delay: Ticks) -> u64
    requires { timeline.now.clock ≤ 1000000000000000 }
    ensures { result ≡ timeline.now.clock + delay }
{
    timeline.now() + delay.count()
}

// Puts the step on the timeline. There are more tickets than steps.
fn put_on(timeline: &mut Timeline<Step>, due: u64, step: Step) -> Result<Ticket, AllocError>
    ensures ticket { IfOk result (λ ticket. ticket ≡ timeline.old.tickets) }
    ensures added { OnOk result (timeline.new ≡ with_work due step timeline.old) }
{
    match timeline.schedule(due, step) {
        Ok(ticket) => Ok(ticket),
        Err(Back { why: _, value: _ }) => Err(AllocError),
    }
}

// A step waits so long from now.
fn wait(agenda: &mut Agenda, delay: Ticks, step: Step) -> Result<(), AllocError>
    requires { agenda.old.timeline.clock ≤ 1000000000000000 }
    ensures ok { OnOk result (agenda_of agenda.new
        ≡ with_step_after (Some delay) (step_of step) (agenda_of agenda.old)) }
    ensures size { OnOk result (size_left agenda.new ≡ size_left agenda.old + steps_to_come step) }
    ensures clock { OnOk result (agenda.new.timeline.clock ≡ agenda.old.timeline.clock) }
{
    let label = label_of(&step)?;
    let due = due_after(&agenda.timeline, delay);
    let ticket = put_on(&mut agenda.timeline, due, step)?;
    note_label(&mut agenda.labels, label, ticket)
}

// Puts the step last in this turn.
fn put_last(turn: &mut Trampoline<Step>, step: Step) -> Result<(), AllocError>
    ensures { OnOk result (turn.new ≡ turn.old ++ step ∷ []) }
{
    match turn.push(step) {
        Ok(()) => Ok(()),
        Err(Back { why: _, value: _ }) => Err(AllocError),
    }
}

/// A step is to come: after its delay, or where it has none, last in this turn.
pub fn add(agenda: &mut Agenda, step: Step) -> Result<(), AllocError>
    requires { agenda.old.timeline.clock ≤ 1000000000000000 }
    ensures ok { OnOk result (agenda_of agenda.new ≡ with_step (step_of step) (agenda_of agenda.old)) }
    ensures size { OnOk result (size_left agenda.new ≡ size_left agenda.old + steps_to_come step) }
    ensures clock { OnOk result (agenda.new.timeline.clock ≡ agenda.old.timeline.clock) }
{
    match step.delay {
        Some(delay) => wait(agenda, delay, step),
        None => put_last(&mut agenda.turn, step),
    }
}

// Adds these steps one after another, as `add_all` does, with no room made first.
fn add_each(agenda: &mut Agenda, steps: Vec<Step>) -> Result<(), AllocError>
    requires { agenda.old.timeline.clock ≤ 1000000000000000 }
    ensures ok { OnOk result (agenda_of agenda.new ≡ with_steps (map step_of steps.items) (agenda_of agenda.old)) }
    ensures size { OnOk result (size_left agenda.new ≡ size_left agenda.old + sum_by steps_to_come steps.items) }
    ensures clock { OnOk result (agenda.new.timeline.clock ≡ agenda.old.timeline.clock) }
{
    for step in steps {
        add(agenda, step)?;
    }
    Ok(())
}

/// These steps are to come, one after the other.
pub fn add_all(agenda: &mut Agenda, steps: Vec<Step>) -> Result<(), AllocError>
    requires { agenda.old.timeline.clock ≤ 1000000000000000 }
    ensures ok { OnOk result (agenda_of agenda.new ≡ with_steps (map step_of steps.items) (agenda_of agenda.old)) }
    ensures size { OnOk result (size_left agenda.new ≡ size_left agenda.old + sum_by steps_to_come steps.items) }
    ensures clock { OnOk result (agenda.new.timeline.clock ≡ agenda.old.timeline.clock) }
{
    agenda.timeline.reserve(steps.len())?;
    add_each(agenda, steps)
}

/// These steps follow one that was answered so: after an accepted step they are to come, and after a
/// refused one they are dropped.
pub fn follow(agenda: &mut Agenda, answer: Answer, steps: Vec<Step>) -> Result<(), AllocError>
    requires { agenda.old.timeline.clock ≤ 1000000000000000 }
    ensures ok { OnOk result (agenda_of agenda.new
        ≡ followed_by answer (map step_of steps.items) (agenda_of agenda.old)) }
    ensures size { OnOk result (size_left agenda.new ≤ size_left agenda.old + sum_by steps_to_come steps.items) }
    ensures clock { OnOk result (agenda.new.timeline.clock ≡ agenda.old.timeline.clock) }
{
    match answer {
        Answer::Accepted => add_all(agenda, steps),
        Answer::Refused(_) => Ok(()),
    }
}

/// The step that comes next, if one does before this time is over.
pub fn next_step(agenda: &mut Agenda, until: u64) -> Option<Step>
    ensures some { IfSome result (λ s. next_step until (agenda_of agenda.old)
        ≡ Some (step_of s, agenda_of agenda.new)) }
    ensures none { IfNone result (next_step until (agenda_of agenda.old) ≡ None) }
    ensures size { IfSome result (λ s. size_left agenda.new + steps_to_come s ≡ size_left agenda.old) }
    ensures clock { agenda.old.timeline.clock ≤ until → agenda.new.timeline.clock ≤ until }
{
    match agenda.turn.next() {
        Some(step) => Some(step),
        None => match agenda.timeline.next_until(until) {
            Some((_due, step)) => Some(step),
            None => None,
        },
    }
}

/// Takes the waiting step that has this label off the timeline, with all that would follow it.
pub fn cancel(agenda: &mut Agenda, label: &str) -> Answer
    ensures value { Cancels (agenda_of agenda.old) label.now result (agenda_of agenda.new) }
    ensures size { size_left agenda.new ≤ size_left agenda.old }
    ensures clock { agenda.new.timeline.clock ≡ agenda.old.timeline.clock }
{
    let Some(ticket) = agenda.labels.get(label) else {
        return Answer::Refused(Cause::NoStep);
    };
    match agenda.timeline.cancel(ticket) {
        Some(_step) => Answer::Accepted,
        None => Answer::Refused(Cause::NoStep),
    }
}
