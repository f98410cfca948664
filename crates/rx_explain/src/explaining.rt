//! What is wrong with an input, or nothing.

ghost use Rattle.std.specs.Prelude.{◌≡◌, ◌||◌, ◌++◌, ℕ, List, Some, [], ◌∷◌, nat_eq, codes, slice_get, is_some, is_none};
ghost use Rattle.std.specs.Prelude.{string_bytes, IfOk, OnOk};
ghost use Rattle.std.specs.Fmt.{decimal};
ghost use Rattle.std.specs.List.{starts_with};
ghost use Rattle.serde_json.specs.Data.{Data};
ghost use Rattle.serde_json.specs.Errors.{IsMemory};
ghost use Rattle.serde_json.specs.Find.{get, as_array};
ghost use Rattle.serde_json.specs.View.{view};
ghost use Rattle.rx_device.specs.Input.{IsJsonOf};
ghost use Rattle.rx_scenario.specs.Reading.{scenario_of};
ghost use Rattle.rx_event.specs.declared.event.Event.{Event};
ghost use Rattle.rx_audit.specs.Verdict.{IsVerdict};
ghost use Rattle.rx_dump.specs.History.{history_of};
ghost use Rattle.rx_dump.specs.Verdict.{is_lawful};
ghost use Rattle.rx_dump.specs.Names.{dump_in};
ghost use Rattle.rx_explain.specs.Accepted.{IsScenario, IsLawfulDump, IsTaken, IsAccepted, SaysNothingWhere};
ghost use Rattle.rx_explain.specs.Worded.{WordsRefusal, TellsRefusal, TellsFirst, TellsFirstIn, TellsFirstOf};

use crate::dump::dump_fault;
use crate::forced::forced_after;
use crate::past::Past;
use crate::refusals::{refusal_told, taking_told};
use crate::scenario::scenario_fault;
use crate::sentences::Sentence;
use crate::texts::{Spot, early_close, fault_in_text};
use crate::walk::{Walk, told_by};
use json::Scratch;
use rx_audit::{Verdict, audit, refused};
use rx_device::{MOST_BYTES, Part, ScriptError, ShapeError, parse_in_place};
use rx_dump::{Names, dump_in, history_of, name_of, name_text, names_or, push_dump};
use rx_event::Event;
use rx_scenario::scenario_of;
use serde_json::{Error, Value};
use std::alloc::{AllocError, Global};

const BYTE_ORDER_MARK: &str = "line 1, column 1: a byte order mark; save the text without it";

/// A sentence, where there is something to say.
type Told = Result<Option<String>, AllocError>;

// The sentence that was told, or this one where none was.
fn or_else(alloc: Global, walk: Walk, other: &str) -> Result<String, AllocError> {
    match told_by(walk)? {
        Some(told) => Ok(told),
        None => String::from_str(alloc, other),
    }
}

// Whether an input begins with a byte order mark, which a JSON text may not.
fn has_byte_order_mark(input: &[u8]) -> bool
    ensures { result ≡ starts_with nat_eq input.now (239 ∷ 187 ∷ 191 ∷ []) }
{
    input.starts_with(&[0xef, 0xbb, 0xbf])
}

// What to say about an input that is not a JSON text.
fn no_json(alloc: Global, input: &[u8], error: &Error) -> Result<String, AllocError> {
    if has_byte_order_mark(input) {
        return String::from_str(alloc, BYTE_ORDER_MARK);
    }
    // The reader counts the bytes read on the line: none where the text ends at its beginning.
    let told = Spot {
        line: error.line(),
        column: error.column().max(1),
    };
    let Spot { line, column } = early_close(input, told).unwrap_or(told);
    if error.is_eof() {
        return format!(in alloc; "line {line}, column {column}: the JSON text ends too early");
    }
    // The reader tells a fault within a text at the text's beginning.
    if let Some(column) = fault_in_text(input, line, column) {
        return format!(in alloc;
            "line {line}, column {column}: not a JSON text; here a text has a control character or a false escape"
        );
    }
    format!(in alloc; "line {line}, column {column}: not a JSON text; look here and just before")
}

// What to say about an input that could not be read, if that was not for memory.
fn no_value(alloc: Global, input: &[u8], error: &Error) -> Result<String, AllocError>
    ensures { OnOk result (¬ IsMemory error.now) }
{
    if error.is_memory() {
        return Err(AllocError);
    }
    no_json(alloc, input, error)
}

// An event as it stands in a dump.
fn event_text(alloc: Global, event: Event) -> Result<String, AllocError> {
    let mut text = String::new(alloc);
    push_dump(&mut text, &[event])?;
    let shown = text.as_str().trim();
    let inner = shown.strip_prefix("[").unwrap_or(shown);
    let inner = inner.strip_suffix("]").unwrap_or(inner);
    String::from_str(alloc, inner)
}

// The number that an event is about, if it is one that rules force.
fn subject(event: Event) -> Option<u64> {
    match event {
        Event::End(number, _) | Event::Close(number) | Event::Connect(number) => Some(number),
        _ => None,
    }
}

// The name of what a forced event is about, as the end of a sentence; nothing if it has none.
fn subject_named(names: Names<'_>, event: Event) -> Result<String, AllocError> {
    let alloc = names.alloc;
    let Some(number) = subject(event) else {
        return Ok(String::new(alloc));
    };
    let name = name_of(names, number)?;
    if name.is_none() {
        return Ok(String::new(alloc));
    }
    let name = name_text(alloc, name)?;
    format!(in alloc; ", of{name}")
}

// What is said of a history after which the rules force something, at this moment.
fn force(names: Names<'_>, moment: &str, history: &[Event]) -> Result<String, AllocError> {
    let alloc = names.alloc;
    match forced_after(alloc, history)? {
        Some(event) => {
            let shown = event_text(alloc, event)?;
            let subject = subject_named(names, event)?;
            format!(in alloc; "{moment} the rules force another event, as {shown}{subject}")
        }
        None => format!(in alloc; "{moment} the rules force another event"),
    }
}

// Why an event may not follow a settled history: what refuses it, or that what it takes does not wait.
fn settled_reason(past: Past<'_>) -> Sentence
    ensures { IfOk result
        (λ s. WordsRefusal (view past.entry.names.object.now) past.entry.events.now past.entry.next (string_bytes s)) }
{
    match refused(past.names.alloc, past.events, past.next) {
        Ok(Some(why)) => refusal_told(past, why),
        Ok(None) => taking_told(past),
        Err(_) => Err(AllocError),
    }
}

// Why an event may not follow this history, of which this is the verdict.
fn reason(names: Names<'_>, front: &[Event], verdict: &Verdict, event: Event) -> Sentence
    requires { IsVerdict front.now verdict.now }
    ensures { IfOk result (λ s. WordsRefusal (view names.entry.object.now) front.now event (string_bytes s)) }
{
    match verdict {
        Verdict::Lawful { live, .. } => {
            let past = Past {
                events: front,
                names,
                live: live.as_slice(),
                next: event,
            };
            settled_reason(past)
        }
        _ => force(names, "before it", front),
    }
}

// Why an event may not follow this history.
fn why(names: Names<'_>, front: &[Event], event: Event) -> Sentence
    ensures { IfOk result (λ s. WordsRefusal (view names.entry.object.now) front.now event (string_bytes s)) }
{
    match audit(names.alloc, front) {
        Ok(verdict) => reason(names, front, &verdict, event),
        Err(_) => Err(AllocError),
    }
}

// An event at its place, and what is said of it.
fn placed(alloc: Global, place: u64, event: Event, told: &str) -> Sentence
    ensures { IfOk result (λ s. (shown : List ℕ) × (string_bytes s
        ≡ codes "event " ++ decimal place ++ codes ", " ++ shown ++ codes ": " ++ told.now)) }
{
    let shown = event_text(alloc, event)?;
    format!(in alloc; "event {place}, {shown}: {told}")
}

// What is said of a history whose event at this place is out of order.
fn unlawful(names: Names<'_>, history: &[Event], place: u64) -> Sentence
    ensures { IfOk result (λ s. (e : Event) → slice_get history.now place ≡ Some e →
        TellsRefusal (view names.entry.object.now) history.now place e (string_bytes s)) }
{
    let alloc = names.alloc;
    let at = place as usize;
    let (Some(front), Some(event)) = (history.get(..at), history.get(at)) else {
        return format!(in alloc; "event {place}: it may not follow the events before it");
    };
    let told = why(names, front, *event)?;
    placed(alloc, place, *event, told.as_str())
}

// What the verdict on a history leaves to say.
fn verdict_told(names: Names<'_>, history: &[Event], verdict: &Verdict) -> Told
    requires { IsVerdict history.now verdict.now }
    ensures silent { IfOk result (λ told. is_none told ≡ is_lawful verdict.now) }
    ensures worded { IfOk result (TellsFirst (view names.entry.object.now) history.now) }
{
    match verdict {
        Verdict::Lawful { .. } => Ok(None),
        Verdict::Unlawful { place } => Ok(Some(unlawful(names, history, *place)?)),
        Verdict::Unsettled => Ok(Some(force(names, "at the end", history)?)),
    }
}

// What is wrong with a value that is no dump.
fn no_dump(alloc: Global, value: &Value) -> Result<String, AllocError> {
    or_else(alloc, dump_fault(alloc, value), "the input is not a dump")
}

// What is wrong with a value that is to be a dump, with these names.
fn explain_dump(names: Names<'_>, dump: &Value) -> Told
    ensures silent { IfOk result (SaysNothingWhere (IsLawfulDump (view dump.now))) }
    ensures worded { IfOk result (λ told. (h : List Event) → history_of (view dump.now) ≡ Some h →
        TellsFirst (view names.entry.object.now) h told) }
{
    let alloc = names.alloc;
    let history = match history_of(alloc, dump) {
        Ok(history) => history,
        Err(ShapeError::Memory) => return Err(AllocError),
        Err(ShapeError::Shape) => return Ok(Some(no_dump(alloc, dump)?)),
    };
    match audit(alloc, history.as_slice()) {
        Ok(verdict) => verdict_told(names, history.as_slice(), &verdict),
        Err(_) => Err(AllocError),
    }
}

// What is wrong with a value that is to be a dump, or to have one, with or without names.
fn explain_history(alloc: Global, value: &Value) -> Told
    ensures silent { IfOk result (SaysNothingWhere (IsLawfulDump (dump_in (view value.now)))) }
    ensures worded { IfOk result (TellsFirstIn (view value.now)) }
{
    let none = Value::Null;
    let object = names_or(value, &none);
    explain_dump(Names { alloc, object }, dump_in(value))
}

// Whether a value has the member `dump`.
fn has_dump(value: &Value) -> bool
    ensures { result ≡ is_some (get (codes "dump") (view value.now)) }
{
    match value.get("dump") {
        Some(_) => true,
        None => false,
    }
}

// Whether a value is taken for a dump, or for an object that has one.
fn is_history(value: &Value) -> bool
    ensures { result ≡ (is_some (as_array (view value.now)) || is_some (get (codes "dump") (view value.now))) }
{
    value.is_array() || has_dump(value)
}

// Whether a JSON text is that of a scenario.
fn is_scenario(alloc: Global, input: &[u8]) -> Result<bool, AllocError>
    ensures { IfOk result (λ is. (d : Data) → IsJsonOf input.now d → is ≡ is_some (scenario_of d)) }
{
    let mut scratch = Scratch::new(alloc);
    let value = match parse_in_place(alloc, input, &mut scratch) {
        Ok(value) => value,
        Err(ScriptError::Memory) => return Err(AllocError),
        Err(_) => return Ok(false),
    };
    match scenario_of(alloc, Part::new(&value)) {
        Ok(_scenario) => Ok(true),
        Err(ShapeError::Shape) => Ok(false),
        Err(ShapeError::Memory) => Err(AllocError),
    }
}

// What is wrong with a value that is no scenario.
fn no_scenario(alloc: Global, value: &Value) -> Result<String, AllocError> {
    or_else(
        alloc,
        scenario_fault(alloc, value),
        "the input is not a scenario",
    )
}

// What is wrong with the value of a JSON text that is to be a scenario.
fn explain_scenario(alloc: Global, input: &[u8], value: &Value) -> Told
    requires json { IsJsonOf input.now (view value.now) }
    ensures { IfOk result (SaysNothingWhere (IsScenario (view value.now))) }
{
    if is_scenario(alloc, input)? {
        return Ok(None);
    }
    Ok(Some(no_scenario(alloc, value)?))
}

// What is wrong with the value of a JSON text.
fn explain_value(alloc: Global, input: &[u8], value: &Value) -> Told
    requires json { IsJsonOf input.now (view value.now) }
    ensures silent { IfOk result (SaysNothingWhere (IsTaken (view value.now))) }
    ensures worded { IfOk result (TellsFirstIn (view value.now)) }
{
    if is_history(value) {
        explain_history(alloc, value)
    } else {
        explain_scenario(alloc, input, value)
    }
}

/// What is said of an input that is longer than an input may be.
pub fn too_long(alloc: Global) -> Result<String, AllocError> {
    format!(in alloc; "the input is longer than {MOST_BYTES} bytes")
}

/// What is wrong with an input: None for just those that `rxbook run` or `rxbook audit` accepts. An
/// audit accepts what it calls lawful. Sentences on a history say the names that stand beside its dump. Where the first
/// event out of order comes when nothing is forced, the sentence words the refusal that its call meets.
///
/// Err comes where memory is refused.
#[tactic(auto, using(crate::proofs::AcceptedAsRead::accepted_by, crate::proofs::AcceptedAsRead::too_many, crate::proofs::AcceptedAsRead::no_json))]
pub fn explain(alloc: Global, input: &[u8]) -> Told
    ensures silent { IfOk result (SaysNothingWhere (IsAccepted input.now)) }
    ensures worded { IfOk result (TellsFirstOf input.now) }
{
    if input.len() > MOST_BYTES {
        return Ok(Some(too_long(alloc)?));
    }
    match Value::from_slice(alloc, input) {
        Ok(value) => explain_value(alloc, input, &value),
        Err(error) => Ok(Some(no_value(alloc, input, &error)?)),
    }
}
