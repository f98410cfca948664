//! What an answer says of the nodes that were closed.

ghost use Rattle.std.specs.Prelude.{◌≡◌, ◌≤◌, ◌+◌, ◌++◌, [], codes, length, map, option_map, string_bytes, if◌then◌else◌, IfOk, OnOk, OnErr};
ghost use Rattle.std.specs.String.{string_capacity};
ghost use Rattle.rx_scenario.specs.Scenario.{command_of};
ghost use Rattle.rx_line.specs.Orders.{plain, task_of};
ghost use Rattle.rx_line.specs.Pieces.{name_text, member_text, joined};
ghost use Rattle.rx_listing.specs.Parts.{has_no_texts, led_text};
ghost use Rattle.rx_live.specs.Session.{session_of, node_by_name};
ghost use Rattle.rx_live.specs.Closings.{asked_node, is_call, names_closed, WritesClosed};
ghost use Rattle.rx_live.specs.ClosedAt.{closed_at, closed_texts};
ghost use Rattle.rx_live.specs.Room.{HasRoom, KeepsRoom};

use crate::engine::Engine;
use crate::telling::push_piece;
use rx_line::{Task, put};
use rx_scenario::Command;
use std::alloc::AllocError;

/// Which of the nodes that a task closes are named: none where it is no call of the book, else all but the one
/// that it asks for.
#[derive(Clone, Copy)]
pub struct Closing {
    pub is_call: bool,
    pub asked: Option<u64>,
}

/// The number of the node of this name.
pub fn number_of(engine: &Engine, node: &str) -> Option<u64>
    ensures { result ≡ option_map (λ k. k.number) (node_by_name (session_of engine.now) node.now) }
{
    let key = engine.node(node)?;
    Some(key.number)
}

// The node that a command ends or closes by its name.
fn asked_plain(engine: &Engine, command: &Command) -> Option<u64>
    ensures { result ≡ asked_node (session_of engine.now) (plain (command_of command.now)) }
{
    match command {
        Command::End { node, terminal: _ } => number_of(engine, node.as_str()),
        Command::Abort { node, code: _ } => number_of(engine, node.as_str()),
        Command::Fail { node, code: _ } => number_of(engine, node.as_str()),
        Command::Dispose { node } => number_of(engine, node.as_str()),
        _ => None,
    }
}

fn is_call_plain(command: &Command) -> bool
    ensures { result ≡ is_call (plain (command_of command.now)) }
{
    match command {
        Command::Drain => false,
        Command::Checkpoint => false,
        _ => true,
    }
}

/// What is to be named of what a task will have closed.
pub fn closing_of(engine: &Engine, task: &Task) -> Closing
    ensures call { result.is_call ≡ is_call (task_of task.now) }
    ensures asked { result.asked ≡ asked_node (session_of engine.now) (task_of task.now) }
{
    match task {
        Task::Command(command) => Closing {
            is_call: is_call_plain(command),
            asked: asked_plain(engine, command),
        },
        Task::OpenHolding {
            name: _,
            place: _,
            kind: _,
            res: _,
        } => Closing {
            is_call: true,
            asked: None,
        },
    }
}

// The name of the closed node at this place of the list, unless it was asked for.
fn closed_at(engine: &Engine, asked: Option<u64>, place: usize) -> Option<&str>
    ensures { option_map (λ s. s.now) result ≡ closed_at (session_of engine.now) asked place }
{
    let key = engine.book.nth_closed(place)?;
    if asked == Some(key.number) {
        return None;
    }
    engine.nodes.name_of(key.number)
}

// Writes a name between quotes.
#[tactic(auto, unfolding(rx_line::specs::Pieces::name_text))]
fn push_quote(text: &mut String, name: &str) -> Result<(), AllocError>
    ensures { OnOk result (string_bytes text.new ≡ string_bytes text.old ++ name_text name.now) }
{
    write!(text, "\"{name}\"")
}

// Writes a name behind those before it.
fn push_led(text: &mut String, is_first: bool, name: &str) -> Result<(), AllocError>
    ensures { OnOk result (string_bytes text.new ≡ string_bytes text.old ++ led_text is_first (name_text name.now)) }
{
    if !is_first {
        text.push_str(",")?;
    }
    push_quote(text, name)
}

// Writes the names of what was closed. Answers whether there are none.
fn push_names(engine: &Engine, asked: Option<u64>, text: &mut String) -> Result<bool, AllocError>
    ensures first { IfOk result
        (λ b. b ≡ has_no_texts (closed_texts (session_of engine.now) asked (length engine.now.book.closed))) }
    ensures text { OnOk result (string_bytes text.new ≡ string_bytes text.old
        ++ joined (closed_texts (session_of engine.now) asked (length engine.now.book.closed))) }
{
    let mut is_first = true;
    'places: for place in 0..engine.book.closed_count() {
        if let Some(name) = closed_at(engine, asked, place) {
            push_led(text, is_first, name)?;
            is_first = false;
        }
    }
    Ok(is_first)
}

// The member that names them.
fn closed_text(engine: &Engine, asked: Option<u64>) -> Result<String, AllocError>
    ensures { IfOk result (λ s. string_bytes s ≡ member_text (codes "closed") (map name_text (names_closed (session_of engine.now) asked))) }
{
    let mut text = String::from_str(engine.alloc, ",\"closed\":[")?;
    let is_none = push_names(engine, asked, &mut text)?;
    if is_none {
        return Ok(String::new(engine.alloc));
    }
    text.push_str("]")?;
    Ok(text)
}

// Whether there are none. It takes no memory.
fn names_none(engine: &Engine, asked: Option<u64>) -> bool
    ensures { result ≡ has_no_texts (closed_texts (session_of engine.now) asked (length engine.now.book.closed)) }
{
    let mut is_none = true;
    'places: for place in 0..engine.book.closed_count() {
        if let Some(_name) = closed_at(engine, asked, place) {
            is_none = false;
        }
    }
    is_none
}

// Writes it; where it finds no room, nothing is written.
fn push_member(
    engine: &Engine,
    text: &mut String,
    asked: Option<u64>,
    rest: u32,
) -> Result<(), AllocError>
    ensures ok { OnOk result (string_bytes text.new ≡ string_bytes text.old
        ++ member_text (codes "closed") (map name_text (names_closed (session_of engine.now) asked))) }
    ensures err { OnErr result (string_bytes text.new ≡ string_bytes text.old) }
    ensures room { KeepsRoom rest text.old text.new }
    ensures capacity { string_capacity text.old ≤ string_capacity text.new }
{
    let said = closed_text(engine, asked)?;
    push_piece(text, "", said.as_str(), rest)
}

/// Names what a task closed beside the node that it asks for; where memory is refused for that, it says so. Where
/// nothing is to be named, it takes no memory.
pub fn push_closed(engine: &Engine, text: &mut String, closing: Closing, rest: u32)
    requires room { HasRoom (rest + 29) text.old }
    ensures said { WritesClosed (if closing.is_call then names_closed (session_of engine.now) closing.asked else [])
        (string_bytes text.old) (string_bytes text.new) }
    ensures room { HasRoom (rest + 15) text.new }
    ensures capacity { string_capacity text.old ≤ string_capacity text.new }
{
    if !closing.is_call {
        return;
    }
    if names_none(engine, closing.asked) {
        return;
    }
    match push_member(engine, text, closing.asked, rest) {
        Ok(()) => {}
        Err(_) => put(text, ",\"closed\":null"),
    }
}
