//! What is wrong with a scenario. It is gone through in the order in which it is written, but for the
//! members of an object, which come in an order of their own.

use crate::walk::{Walk, inside, numbered, tell};
use crate::wanted::{Wanted, quoted, shown};
use crate::words::{COMMANDS, OF_SCENARIOS, OF_STEPS, members_of};
use rx_scenario::{KINDS, MODES, PLACES, is_among, nearest};
use serde_json::Value;
use std::alloc::{AllocError, Global};
use std::collections::HashSet;

/// The most steps of a scenario.
const MOST_STEPS: usize = 65_536;

/// How deep a `then` may stand.
const MOST_LEVELS: u32 = 16;

/// What is said of a live book's answer to `dump` after a checkpoint.
const NO_HISTORY: &str =
    "an answer of a live book without a history: a checkpoint took the first events away";

/// Whether a member has to be there.
#[derive(Clone, Copy)]
enum Need {
    Must,
    May,
    /// It may not be there, and why.
    Never(&'static str),
}

/// The steps that were gone through.
#[derive(Drop)]
struct Seen {
    count: usize,
    labels: HashSet<String>,
}

// What is expected of the members that are no names.
static WANTED: [(&str, Wanted); 13] = [
    ("do", Wanted::Word(COMMANDS)),
    ("place", Wanted::Word(PLACES)),
    ("kind", Wanted::Word(KINDS)),
    ("mode", Wanted::Word(MODES)),
    ("value", Wanted::Item),
    ("word", Wanted::Number(0, u64::MAX)),
    ("error", Wanted::Number(0, 4_294_967_295)),
    ("at", Wanted::Number(0, 1_000_000_000_000)),
    ("after", Wanted::Number(0, 1_000_000_000_000)),
    ("events", Wanted::Number(1, 4_294_967_295)),
    ("until", Wanted::Number(0, 1_000_000_000_000_000)),
    ("steps", Wanted::Steps),
    ("then", Wanted::Steps),
];

// What is expected of a member.
fn wanted_of(member: &str) -> Wanted {
    for &(known, wanted) in &WANTED {
        if known == member {
            return wanted;
        }
    }
    Wanted::Name
}

// Whether the member of an object is this word.
fn is_word(object: &Value, member: &str, word: &str) -> bool {
    object.get(member).and_then(Value::as_str) == Some(word)
}

// The members that only a subscriber's opening has.
const OF_SUBSCRIBERS: &str = "hub, connection";

// The commands that have a member which may be left out.
static LEFT_OUT: [(&str, &str); 3] = [
    ("connect", "name"),
    ("end", "error"),
    ("open", "connection"),
];

// Whether a member that a command has must be there.
fn need_of(step: &Value, command: &str, member: &str) -> Need {
    if member == "of" && is_word(step, "place", "root") {
        return Need::Never("a root has no node above it");
    }
    if command == "open" && is_among(member, OF_SUBSCRIBERS) && !is_word(step, "kind", "sub") {
        return Need::Never("the kind is not \"sub\"");
    }
    for &(known, left_out) in &LEFT_OUT {
        if known == command && left_out == member {
            return Need::May;
        }
    }
    Need::Must
}

// What is wrong with a member that is there.
fn value_fault(alloc: Global, member: &str, value: &Value) -> Walk {
    let wanted = wanted_of(member);
    if wanted.fits(value) {
        return Ok(());
    }
    let told = wanted.misfit(alloc, value)?;
    tell(format!(in alloc; ".{member}: {told}"))
}

// What is wrong with a member.
fn member_fault(alloc: Global, object: &Value, member: &str, need: Need) -> Walk {
    match (object.get(member), need) {
        (None, Need::Must) => {
            let wanted = wanted_of(member).described(alloc)?;
            tell(format!(in alloc; ".{member}: missing; {wanted} is expected"))
        }
        (None, _) => Ok(()),
        (Some(_), Need::Never(reason)) => {
            tell(format!(in alloc; ".{member}: not allowed here: {reason}"))
        }
        (Some(value), _) => value_fault(alloc, member, value),
    }
}

// What is said of a member that stands on neither list.
fn stranger_told(
    alloc: Global,
    member: &str,
    own: &'static str,
    common: &'static str,
) -> Result<String, AllocError> {
    let shown = quoted(alloc, member)?;
    let near = nearest(member, own).or(nearest(member, common));
    match near {
        Some(known) => { format!(in alloc; ": unknown member {shown}; the nearest is \"{known}\"") }
        None => format!(in alloc; ": unknown member {shown}"),
    }
}

// The member that is on neither list, if there is one.
fn stranger(alloc: Global, object: &Value, own: &'static str, common: &'static str) -> Walk {
    let Some(members) = object.as_object() else {
        return Ok(());
    };
    for member in members.keys() {
        let member = member.as_str();
        if !is_among(member, own) && !is_among(member, common) {
            return tell(stranger_told(alloc, member, own, common));
        }
    }
    Ok(())
}

// What is wrong with the members of a command.
fn command_fault(alloc: Global, step: &Value, command: &str) -> Walk {
    for member in members_of(command).split(", ") {
        if member.is_empty() {
            break;
        }
        member_fault(alloc, step, member, need_of(step, command, member))?;
    }
    Ok(())
}

// What is wrong with the times and the label of a step.
fn times_fault(alloc: Global, step: &Value, follows: bool) -> Walk {
    let (at, after) = if follows {
        (Need::Never("a step of a \"then\" has \"after\""), Need::May)
    } else {
        (Need::May, Need::Never("a step of \"steps\" has \"at\""))
    };
    member_fault(alloc, step, "at", at)?;
    member_fault(alloc, step, "after", after)?;
    member_fault(alloc, step, "label", Need::May)
}

// What is wrong with a step, without those that follow it.
fn head_fault(alloc: Global, step: &Value, follows: bool) -> Walk {
    if !step.is_object() {
        let shown = shown(alloc, step)?;
        return tell(format!(in alloc; ": a step is an object, and this is {shown}"));
    }
    member_fault(alloc, step, "do", Need::Must)?;
    let command = step.get("do").and_then(Value::as_str).unwrap_or("");
    stranger(alloc, step, members_of(command), OF_STEPS)?;
    command_fault(alloc, step, command)?;
    times_fault(alloc, step, follows)
}

// Counts a step and notes its label; what is wrong with these.
fn note(alloc: Global, step: &Value, seen: &mut Seen) -> Walk {
    if seen.count >= MOST_STEPS {
        return tell(format!(in alloc; ": one step too many; a scenario has at most {MOST_STEPS}"));
    }
    seen.count = seen.count.wrapping_add(1);
    let Some(label) = step.get("label").and_then(Value::as_str) else {
        return Ok(());
    };
    if seen.labels.insert(String::from_str(alloc, label)?)? {
        return Ok(());
    }
    tell(format!(in alloc; ".label: an earlier step has the label \"{label}\""))
}

// What is wrong with a step, below which a `then` may stand so deep.
#[cycle(steps)]
fn step_fault(alloc: Global, step: &Value, follows: bool, depth: u32, seen: &mut Seen) -> Walk {
    head_fault(alloc, step, follows)?;
    note(alloc, step, seen)?;
    let Some(then) = step.get("then") else {
        return Ok(());
    };
    if depth == 0 {
        return tell(format!(in alloc;
            ".then: too deep; a \"then\" may be nested at most {MOST_LEVELS} deep"
        ));
    }
    inside(
        alloc,
        ".then",
        list_fault(alloc, then, true, depth - 1, seen),
    )
}

// What is wrong with the first faulty one of some steps.
#[cycle(steps)]
fn list_fault(alloc: Global, list: &Value, follows: bool, depth: u32, seen: &mut Seen) -> Walk {
    let Some(steps) = list.as_array() else {
        let told = Wanted::Steps.misfit(alloc, list)?;
        return tell(format!(in alloc; ": {told}"));
    };
    for (place, step) in steps.iter().enumerate() {
        let walk = step_fault(alloc, step, follows, depth, seen);
        numbered(alloc, place, walk)?;
    }
    Ok(())
}

// What is wrong with the steps of a scenario.
fn steps_fault(alloc: Global, scenario: &Value) -> Walk {
    let Some(steps) = scenario.get("steps") else {
        return member_fault(alloc, scenario, "steps", Need::Must);
    };
    let mut seen = Seen {
        count: 0,
        labels: HashSet::new(alloc),
    };
    let walk = list_fault(alloc, steps, false, MOST_LEVELS, &mut seen);
    inside(alloc, ".steps", walk)
}

/// What is wrong with a value that is not a scenario.
pub fn scenario_fault(alloc: Global, scenario: &Value) -> Walk {
    if !scenario.is_object() {
        let shown = shown(alloc, scenario)?;
        return tell(format!(in alloc;
            "a scenario is an object and a dump an array, and this is {shown}"
        ));
    }
    if scenario.get("ok").is_some() && scenario.get("since").is_some() {
        return tell(String::from_str(alloc, NO_HISTORY));
    }
    let walk = stranger(alloc, scenario, OF_SCENARIOS, OF_SCENARIOS);
    inside(alloc, "the scenario", walk)?;
    member_fault(alloc, scenario, "events", Need::May)?;
    member_fault(alloc, scenario, "until", Need::May)?;
    steps_fault(alloc, scenario)
}
