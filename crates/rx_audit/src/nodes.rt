//! What each open node remembers of what happened below it, by number.

ghost use Rattle.std.specs.Prelude.{◌≡◌, ◌+◌, ◌<◌, ◌∷◌, ◌++◌, slice_index_or, slice_set, OnOk};
ghost use Rattle.rx_audit.specs.Imports.{nothing_kept, Some, [], length, is_merging, is_source_of, at, marks_of, blank_marks, IsLawful, MayFollow};
ghost use Rattle.rx_audit.specs.Marking.{touched_by, IsKept, IsTop, IsUntouched, fired_marks, owed_marks, noted_with, IsVisited};

use crate::climb::{fired_at, projected_at};
use crate::event_tests::at;
use crate::openness::parent_of;
use crate::reach::Visit;
use rx_event::{Event, Place};
use rx_marks::Marks;
use std::alloc::AllocError;

/// The node whose marks the event changes, if it is no item.
pub fn touched(past: &[Event], event: Event) -> Option<u64>
    ensures { result ≡ touched_by past.now event }
{
    match event {
        Event::Open { place, .. } => place.above(),
        Event::Decline(f) => Some(f),
        Event::End(c, _) => parent_of(past, c as usize),
        _ => None,
    }
}

/// Whether node `c` stands at the source's place of node `p`.
fn is_source_at(past: &[Event], p: u64, c: u64) -> bool
    ensures { result ≡ at (is_source_of p) past.now c }
{
    at(|e| e.source_of() == Some(p), past, c)
}

/// Whether node `p` is a FlatMap or a Switch.
fn is_merging_at(past: &[Event], p: u64) -> bool
    ensures { result ≡ at is_merging past.now p }
{
    at(Event::is_merging, past, p)
}

/// The marks of the node that the event changes, after it.
fn changed(past: &[Event], event: Event, top: Option<usize>, p: u64, marks: Marks) -> Marks
    requires lawful { IsLawful nothing_kept past.now }
    requires next { MayFollow nothing_kept past.now event }
    requires touched { touched_by past.now event ≡ Some p }
    requires top { IsTop past.now event top }
    requires is { marks ≡ marks_of nothing_kept past.now p }
    requires few { length past.now + 1 < 18446744073709551616 }
    ensures { result ≡ marks_of nothing_kept (past.now ++ event ∷ []) p }
{
    let mut marks = marks;
    match event {
        Event::Open { place, .. } => match place {
            Place::Source(_) => marks.open_source(),
            Place::Notifier(_) => marks.open_notifier(),
            Place::Inner(_) => marks.open_inner(top.is_some()),
            Place::Root => {}
        },
        Event::Decline(_) => marks.decline(),
        Event::End(c, t) => marks.end_child(is_source_at(past, p, c), is_merging_at(past, p), t),
        _ => {}
    }
    marks
}

/// The marks of node `n`.
pub fn marks_at(marks: &Vec<Marks>, n: u64) -> Marks
    ensures { result ≡ slice_index_or marks.now.items n blank_marks }
{
    let n = n as usize;
    if n < marks.len() {
        marks[n]
    } else {
        Marks::blank()
    }
}

/// Writes the marks of node `n`, if the list has it.
fn put_marks(marks: &mut Vec<Marks>, n: u64, value: Marks)
    ensures { marks.new.items ≡ slice_set marks.old.items n value }
{
    let n = n as usize;
    if n < marks.len() {
        marks[n] = value;
    }
}

/// The marks of the open nodes, with one event more, which is no item that changes any.
pub fn remark(past: &[Event], event: Event, top: Option<usize>, marks: &mut Vec<Marks>)
    requires lawful { IsLawful nothing_kept past.now }
    requires next { MayFollow nothing_kept past.now event }
    requires no_item { IsUntouched past.now event }
    requires top { IsTop past.now event top }
    requires kept { IsKept past.now marks.old.items }
    requires room { length past.now < length marks.old.items }
    ensures kept { IsKept (past.now ++ event ∷ []) marks.new.items }
    ensures len { length marks.new.items ≡ length marks.old.items }
{
    if let Some(p) = touched(past, event) {
        let value = changed(past, event, top, p, marks_at(marks, p));
        put_marks(marks, p, value);
    }
    put_marks(marks, past.len() as u64, Marks::blank());
}

/// Sets what an item fires, and notes it.
fn fire(marks: &mut Vec<Marks>, due: &mut Vec<usize>, key: Option<u64>) -> Result<(), AllocError>
    ensures marks { OnOk result (marks.new.items ≡ fired_marks marks.old.items key) }
    ensures due { OnOk result (due.new.items ≡ noted_with due.old.items key) }
{
    if let Some(u) = key {
        due.push(u as usize)?;
        let mut fired = marks_at(marks, u);
        fired.fire();
        put_marks(marks, u, fired);
    }
    Ok(())
}

/// Adds what an item projects.
fn owe(marks: &mut Vec<Marks>, key: Option<u64>, count: u64) -> Result<(), AllocError>
    ensures { OnOk result (marks.new.items ≡ owed_marks marks.old.items key count) }
{
    if let Some(f) = key {
        let mut more = marks_at(marks, f);
        let Some(owed) = more.owed().checked_add(count) else {
            return Err(AllocError);
        };
        more.set_owed(owed);
        put_marks(marks, f, more);
    }
    Ok(())
}

/// Sets what the visits of an item fire, adds what they project, and notes what they fire.
pub fn remark_visits(
    past: &[Event],
    log: &[Visit],
    marks: &mut Vec<Marks>,
    due: &mut Vec<usize>,
) -> Result<(), AllocError>
    ensures { OnOk result (IsVisited past.now log.now marks.old.items marks.new.items due.old.items due.new.items) }
{
    for visit in log {
        fire(marks, due, fired_at(past, visit.node))?;
        owe(marks, projected_at(past, visit.node), visit.count)?;
    }
    Ok(())
}
