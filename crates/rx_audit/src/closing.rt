//! What an event closes, found by going down from the node that it takes away, over nothing else.

ghost use Rattle.std.specs.Prelude.{◌≡◌, ◌+◌, ◌<◌, ◌≤◌, ◌∷◌, ◌++◌, OnOk, IfOk, MatchOption, ◌==◌};
ghost use Rattle.rx_audit.specs.Imports.{ℕ, true, false, Some, [], length, is_switch, at, is_open, shuts, is_switched_inner};
ghost use Rattle.rx_audit.specs.Latest.{AreChildren, IsClosingBelow, AreClosed, ShutsNone, IsShutAlone};
ghost use Rattle.rx_audit.specs.Tables.{IsMarked, mark_count};
ghost use Rattle.rx_audit.specs.Rules.{stays_open};

use crate::children::Children;
use crate::event_tests::at;
use crate::marks::{is_marked, one_if};
use crate::openness::opens;
use rx_event::{Event, Place};
use std::alloc::AllocError;

/// Takes away the mark of each child of node `p`, and lists each that had one.
fn close_children(
    past: &[Event],
    children: &Children,
    p: usize,
    marks: &mut [bool],
    todo: &mut Vec<usize>,
) -> Result<(), AllocError>
    requires children { AreChildren past.now (length children.now.youngest.items) children.now }
    requires room { length past.now ≤ length children.now.youngest.items }
    requires marks { length past.now ≤ length marks.old }
    requires within { p < length past.now }
    ensures { OnOk result (IsClosingBelow past.now p 0 marks.old marks.new todo.old.items todo.new.items) }
{
    let mut next = children.youngest[p] as usize;
    while next > 0 {
        let c = next - 1;
        if marks[c] {
            marks[c] = false;
            todo.push(c)?;
        }
        next = children.older[c] as usize;
    }
    Ok(())
}

/// Takes away the mark of the one node that the event itself takes away, and of all below it, and
/// answers how many had one. `todo` lists each of them once, and its children are gone over once.
fn close_from(
    past: &[Event],
    event: Event,
    children: &Children,
    marks: &mut [bool],
    todo: &mut Vec<usize>,
    top: usize,
) -> Result<usize, AllocError>
    requires children { AreChildren past.now (length children.now.youngest.items) children.now }
    requires room { length past.now ≤ length children.now.youngest.items }
    requires marks { length past.now ≤ length marks.old }
    requires tied { IsMarked marks.old (is_open past.now) }
    requires here { is_open past.now top ≡ true }
    requires within { top < length past.now }
    requires shut { shuts past.now top event ≡ true }
    requires alone { (n : ℕ) → is_open past.now n ≡ true → shuts past.now n event ≡ true → n ≡ top }
    ensures closed { OnOk result (IsMarked marks.new (stays_open past.now event)) }
    ensures listed { OnOk result (AreClosed past.now event todo.new.items) }
    ensures count { IfOk result (λ closed. mark_count marks.new + closed ≡ mark_count marks.old) }
    ensures len { length marks.new ≡ length marks.old }
{
    marks[top] = false;
    todo.clear();
    todo.push(top)?;
    let mut i = 0;
    while i < todo.len() {
        let p = todo[i];
        close_children(past, children, p, marks, todo)?;
        i += 1;
    }
    Ok(todo.len())
}

/// Whether node `f` is a Switch.
fn is_switch_at(past: &[Event], f: u64) -> bool
    ensures { result ≡ at is_switch past.now f }
{
    at(Event::is_switch, past, f)
}

/// The youngest inner of the Switch, where it is open.
fn open_inner(past: &[Event], children: &Children, marks: &[bool], f: u64) -> Option<usize>
    requires children { AreChildren past.now (length children.now.youngest.items) children.now }
    requires room { length past.now ≤ length children.now.youngest.items }
    requires marks { length past.now ≤ length marks.now }
    requires tied { IsMarked marks.now (is_open past.now) }
    ensures { MatchOption result (ShutsNone past.now (λ n. is_switched_inner past.now f n))
        (IsShutAlone past.now (λ n. is_switched_inner past.now f n)) }
{
    if !is_switch_at(past, f) {
        return None;
    }
    let youngest = children.inner[f as usize] as usize;
    if youngest == 0 {
        return None;
    }
    let c = youngest - 1;
    if (f as usize) < c && marks[c] {
        Some(c)
    } else {
        None
    }
}

/// Node `n`, where it is open.
fn open_number(past: &[Event], marks: &[bool], n: u64) -> Option<usize>
    requires tied { IsMarked marks.now (is_open past.now) }
    ensures { MatchOption result (ShutsNone past.now (λ k. n == k)) (IsShutAlone past.now (λ k. n == k)) }
{
    if is_marked(marks, n) {
        Some(n as usize)
    } else {
        None
    }
}

/// The open node that the event itself takes away, if there is one.
pub fn shut_top(past: &[Event], event: Event, children: &Children, marks: &[bool]) -> Option<usize>
    requires children { AreChildren past.now (length children.now.youngest.items) children.now }
    requires room { length past.now ≤ length children.now.youngest.items }
    requires marks { length past.now ≤ length marks.now }
    requires tied { IsMarked marks.now (is_open past.now) }
    ensures { MatchOption result (ShutsNone past.now (λ n. shuts past.now n event))
        (IsShutAlone past.now (λ n. shuts past.now n event)) }
{
    match event {
        Event::End(n, _) => open_number(past, marks, n),
        Event::Close(n) => open_number(past, marks, n),
        Event::Open {
            place: Place::Inner(f),
            ..
        } => open_inner(past, children, marks, f),
        _ => None,
    }
}

/// Takes away the mark of the node that the event takes away, and of all below it, which `todo` then
/// lists, and answers how many had one.
fn close_shut(
    past: &[Event],
    event: Event,
    children: &Children,
    marks: &mut [bool],
    todo: &mut Vec<usize>,
) -> Result<usize, AllocError>
    requires children { AreChildren past.now (length children.now.youngest.items) children.now }
    requires room { length past.now ≤ length children.now.youngest.items }
    requires marks { length past.now ≤ length marks.old }
    requires tied { IsMarked marks.old (is_open past.now) }
    ensures closed { OnOk result (IsMarked marks.new (stays_open past.now event)) }
    ensures listed { OnOk result (AreClosed past.now event todo.new.items) }
    ensures count { IfOk result (λ closed. mark_count marks.new + closed ≡ mark_count marks.old) }
    ensures len { length marks.new ≡ length marks.old }
{
    match shut_top(past, event, children, marks) {
        Some(top) => close_from(past, event, children, marks, todo, top),
        None => {
            todo.clear();
            Ok(0)
        }
    }
}

/// The marks of the open nodes, and their number, with one event more; `todo` lists what it closes.
pub fn mark_open(
    past: &[Event],
    event: Event,
    children: &Children,
    marks: &mut [bool],
    todo: &mut Vec<usize>,
    count: &mut usize,
) -> Result<(), AllocError>
    requires children { AreChildren past.now (length children.now.youngest.items) children.now }
    requires room { length past.now ≤ length children.now.youngest.items }
    requires marks { length past.now < length marks.old }
    requires tied { IsMarked marks.old (is_open past.now) }
    requires count { count.old ≡ mark_count marks.old }
    ensures marked { OnOk result (IsMarked marks.new (is_open (past.now ++ event ∷ []))) }
    ensures listed { OnOk result (AreClosed past.now event todo.new.items) }
    ensures count { OnOk result (count.new ≡ mark_count marks.new) }
    ensures len { length marks.new ≡ length marks.old }
{
    let closed = close_shut(past, event, children, marks, todo)?;
    let opened = opens(past, event, marks);
    marks[past.len()] = opened;
    *count = *count - closed + one_if(opened);
    Ok(())
}
