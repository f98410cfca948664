//! What a line says.

ghost use Rattle.std.specs.Prelude.{◌≡◌, None, Some, map, string_bytes, IfOk, IfErr};
ghost use Rattle.json.specs.Value.{value_view};
ghost use Rattle.serde_json.specs.Data.{Data};
ghost use Rattle.rx_scenario.specs.Scenario.{command_of};
ghost use Rattle.rx_device.specs.Input.{IsJsonOf};
ghost use Rattle.rx_device.specs.Part.{data_of, part_data};
ghost use Rattle.rx_device.specs.Gives.{Gives};
ghost use Rattle.rx_line.specs.Orders.{does, says, query_in, is_timed, command_in, is_opening, holding_in, task_in};
ghost use Rattle.rx_line.specs.Orders.{task_of, order_in, order_of, IsUnread};

use crate::wanted::fault_of;
use json::{Scratch, Value};
use rx_device::{Part, ScriptError, ShapeError, parse_in_place};
use rx_scenario::{
    Action, Command, Site, Sort, action_in, is_object_of, kind_in, name_in, site_in,
};
use serde_json::Error;
use std::alloc::{AllocError, Global};

/// What a line has the book do.
#[derive(Drop)]
pub enum Task {
    /// A command, as in a scenario.
    Command(Command),
    /// Opens a node that holds a resource from then on.
    OpenHolding {
        name: String,
        place: Site,
        kind: Sort,
        res: String,
    },
}

/// What a value asks for.
#[derive(Drop)]
pub enum Order {
    /// A task of the book.
    Task(Task),
    /// Whether the node of this name is open.
    Query(String),
    /// What is open and held.
    List,
    /// The history so far.
    Dump,
}

/// Why a line is no JSON text, or a value no order.
#[derive(Drop)]
pub enum Unread {
    /// It is faulty: which member, and why.
    Faulty(String),
    /// Memory was refused, and nothing is known of it.
    Memory,
}

impl From<AllocError> for Unread {
    ghost use Rattle.rx_line.specs.declared.order.Unread.TheVariants.{Memory};

    ghost from_gives = { λ _ e. e ≡ Memory };

    fn from(_error: AllocError) -> Unread {
        Unread::Memory
    }
}

// What is said of a line that is no JSON text.
fn column_text(alloc: Global, error: &Error) -> Result<String, AllocError> {
    let column = error.column();
    if error.is_eof() {
        return format!(in alloc; "column {column}: the JSON text ends too early");
    }
    format!(in alloc; "column {column}: not a JSON text; look here and just before")
}

// What is wrong with a line that is no JSON text.
fn no_json(alloc: Global, line: &[u8]) -> Result<String, AllocError> {
    match serde_json::Value::from_slice(alloc, line) {
        Ok(_) => String::from_str(alloc, "not a JSON text"),
        Err(error) if error.is_memory() => Err(AllocError),
        Err(error) => column_text(alloc, &error),
    }
}

// Whether `do` has this word.
#[tactic(auto, unfolding(crate::specs::Orders::does))]
fn does(value: Part<'_, '_>, word: &str) -> bool
    ensures { result ≡ does word.now (part_data value.entry) }
{
    value.get("do").and_then(Part::as_str) == Some(word)
}

// Whether a value is an object that has these members alone, and `do` with this word.
#[tactic(auto, unfolding(crate::specs::Orders::says))]
fn says(value: Part<'_, '_>, members: &[&str], word: &str) -> bool
    ensures { result ≡ says (map (λ s. s.now) members.now) word.now (part_data value.entry) }
{
    does(value, word) && is_object_of(value, members)
}

// The node that a value asks about.
#[tactic(auto, unfolding(crate::specs::Orders::query_in))]
fn query_in(alloc: Global, value: Part<'_, '_>) -> Result<String, ShapeError>
    ensures { Gives string_bytes result (query_in (part_data value.entry)) }
{
    if !says(value, &["do", "node"], "is") {
        return Err(ShapeError::Shape);
    }
    name_in(alloc, value, "node")
}

// Whether a member is one of a step, and of no line.
#[tactic(auto, unfolding(crate::specs::Orders::is_timed))]
fn is_timed(value: Part<'_, '_>) -> bool
    ensures { result ≡ is_timed (part_data value.entry) }
{
    value.get("label").is_some()
        || value.get("at").is_some()
        || value.get("after").is_some()
        || value.get("then").is_some()
}

// The command that a value is.
#[tactic(auto, unfolding(crate::specs::Orders::command_in))]
fn command_in(alloc: Global, value: Part<'_, '_>) -> Result<Command, ShapeError>
    ensures { Gives command_of result (command_in (part_data value.entry)) }
{
    if is_timed(value) {
        return Err(ShapeError::Shape);
    }
    match action_in(alloc, value)? {
        Action::Command(command) => Ok(command),
        Action::Cancel(_) => Err(ShapeError::Shape),
    }
}

// Whether a value is an `open` that may have the member `res`, and has none that only steps have.
#[tactic(auto, unfolding(crate::specs::Orders::is_opening))]
fn is_opening(value: Part<'_, '_>) -> bool
    ensures { result ≡ is_opening (part_data value.entry) }
{
    let members = &[
        "do",
        "name",
        "place",
        "of",
        "kind",
        "hub",
        "connection",
        "res",
    ];
    says(value, members, "open")
}

// The opening of a node that holds a resource, which a value is.
#[tactic(auto, unfolding(crate::specs::Orders::holding_in))]
fn holding_in(alloc: Global, value: Part<'_, '_>) -> Result<Task, ShapeError>
    ensures { Gives task_of result (holding_in (part_data value.entry)) }
{
    if !is_opening(value) {
        return Err(ShapeError::Shape);
    }
    let name = name_in(alloc, value, "name")?;
    let place = site_in(alloc, value)?;
    let kind = kind_in(alloc, value)?;
    let res = name_in(alloc, value, "res")?;
    Ok(Task::OpenHolding {
        name,
        place,
        kind,
        res,
    })
}

// The task that a value is.
#[tactic(auto, unfolding(crate::specs::Orders::task_in))]
fn task_in(alloc: Global, value: Part<'_, '_>) -> Result<Task, ShapeError>
    ensures { Gives task_of result (task_in (part_data value.entry)) }
{
    match command_in(alloc, value) {
        Ok(command) => Ok(Task::Command(command)),
        Err(ShapeError::Shape) => holding_in(alloc, value),
        Err(ShapeError::Memory) => Err(ShapeError::Memory),
    }
}

// What a value asks for.
#[tactic(auto, unfolding(crate::specs::Orders::order_in))]
fn order_in(alloc: Global, value: Part<'_, '_>) -> Result<Order, ShapeError>
    ensures { Gives order_of result (order_in (part_data value.entry)) }
{
    if says(value, &["do"], "list") {
        return Ok(Order::List);
    }
    if says(value, &["do"], "dump") {
        return Ok(Order::Dump);
    }
    match task_in(alloc, value) {
        Ok(task) => Ok(Order::Task(task)),
        Err(ShapeError::Shape) => Ok(Order::Query(query_in(alloc, value)?)),
        Err(ShapeError::Memory) => Err(ShapeError::Memory),
    }
}

/// The JSON value that a line is. Its names and words stand in the line, or in the scratch, which is kept from
/// line to line and grows to the longest.
///
/// # Errors
///
/// `Faulty` where the line is no JSON text, exactly; `Memory` where memory is refused.
pub fn read_line<'a>(
    alloc: Global,
    line: &'a [u8],
    scratch: &'a mut Scratch,
) -> Result<Value<'a>, Unread>
    ensures ok { IfOk result (λ v. IsJsonOf line.now (data_of (value_view v))) }
    ensures err { IfErr result (IsUnread ((d : Data) → ¬ IsJsonOf line.now d)) }
{
    match parse_in_place(alloc, line, scratch) {
        Ok(value) => Ok(value),
        Err(ScriptError::Memory) => Err(Unread::Memory),
        Err(_) => Err(Unread::Faulty(no_json(alloc, line)?)),
    }
}

/// What a value asks for: an object, `do` with the members of its command, to which `open` adds `res`, `is` with a
/// `node`, or `list` or `dump` alone.
///
/// # Errors
///
/// `Faulty` where the value is no order, exactly; `Memory` where memory is refused.
pub fn order_of(alloc: Global, value: Part<'_, '_>) -> Result<Order, Unread>
    ensures ok { IfOk result (λ o. order_in (part_data value.entry) ≡ Some (order_of o)) }
    ensures err { IfErr result (IsUnread (order_in (part_data value.entry) ≡ None)) }
{
    match order_in(alloc, value) {
        Ok(order) => Ok(order),
        Err(ShapeError::Shape) => Err(Unread::Faulty(fault_of(alloc, value)?)),
        Err(ShapeError::Memory) => Err(Unread::Memory),
    }
}
