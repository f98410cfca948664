//! A line and its answer: it asks for one thing, or is an array of what is asked.

ghost use Rattle.std.specs.Prelude.{◌≡◌, ◌+◌, ◌*◌, ◌<◌, ◌^◌, ◌++◌, length, string_bytes, IfOk, IfSome, OnErr};
ghost use Rattle.json.specs.Value.{items_view};
ghost use Rattle.rx_device.specs.Part.{part_data, items_data};
ghost use Rattle.rx_line.specs.Orders.{order_in};
ghost use Rattle.rx_live.specs.Session.{session_of, IsSound};
ghost use Rattle.rx_live.specs.Lines.{AnswersAsked, WaitsFor, IsPutOff, Sends};
ghost use Rattle.rx_live.specs.Taken.{WritesAnswer, AnsweredOne, WritesEach, AnsweredArray, AnsweredValue, comma_if};
ghost use Rattle.rx_live.specs.Room.{HasRoom};

use crate::engine::Engine;
use crate::sending::send;
use json::{Scratch, Value};
use rx_device::Part;
use rx_line::{Unread, faulty_text, put, read_line};
use std::alloc::AllocError;

// The most elements of an array; one of more finds no memory.
const MOST_ELEMENTS: usize = 100_000_000;

// The room that an answer needs at least, where it says that there was no memory, with the comma before it.
const SHARE: u32 = 23;

// The room for an answer with a note, which need not grow then.
const ANSWER: usize = 128;

// The room that so many answers need at least, with the bracket that closes them.
fn room_for(count: usize) -> Option<u32>
    ensures { IfSome result (λ room. room ≡ 23 * count + 1) }
{
    if count > MOST_ELEMENTS {
        return None;
    }
    Some(count as u32 * SHARE + 1)
}

// Leads to an element's answer.
fn push_comma(text: &mut String, is_first: bool, rest: u32)
    requires room { HasRoom (rest + 1) text.old }
    ensures text { string_bytes text.new ≡ string_bytes text.old ++ comma_if is_first }
    ensures room { HasRoom rest text.new }
{
    if !is_first {
        put(text, ",");
    }
}

// Answers an element of an array, for which there is room. In want of memory it is not taken, and the answer says so.
fn push_one(engine: &mut Engine, value: Part<'_, '_>, text: &mut String, rest: u32)
    requires sound { IsSound (session_of engine.old) }
    requires room { HasRoom (rest + 22) text.old }
    requires small { rest + 22 < 2 ^ 32 }
    ensures ok { WritesAnswer (AnsweredOne (session_of engine.old) (order_in (part_data value.entry)) (session_of engine.new))
        (string_bytes text.old) (string_bytes text.new) }
    ensures sound { IsSound (session_of engine.new) }
    ensures room { HasRoom rest text.new }
{
    match send(engine, value, text, rest + 22) {
        Ok(()) => {}
        Err(_) => put(text, "{\"refused\":\"NoMemory\"}"),
    }
}

// Answers each element of an array, in order.
fn push_each(engine: &mut Engine, values: &Vec<Value<'_>>, text: &mut String, room: u32)
    requires sound { IsSound (session_of engine.old) }
    requires room { HasRoom room text.old }
    requires share { room ≡ 23 * length values.now.items + 1 }
    ensures ok { WritesEach (session_of engine.old) (items_data (items_view values.now.items)) (string_bytes text.old)
        (session_of engine.new) (string_bytes text.new) }
    ensures sound { IsSound (session_of engine.new) }
    ensures room { HasRoom 1 text.new }
{
    let mut rest = room;
    let mut is_first = true;
    'values: for value in values {
        rest -= SHARE;
        push_comma(text, is_first, rest + 22);
        push_one(engine, Part::new(value), text, rest);
        is_first = false;
    }
}

// Answers an array. What its answers need at least is asked for before its first command is carried out: Err where
// that is refused, and then nothing has changed.
fn send_array(engine: &mut Engine, values: &Vec<Value<'_>>) -> Result<String, AllocError>
    requires { IsSound (session_of engine.old) }
    ensures ok { IfOk result (λ s. AnsweredArray (session_of engine.old) (items_data (items_view values.now.items)) (session_of engine.new) (string_bytes s)) }
    ensures err { OnErr result (session_of engine.new ≡ session_of engine.old) }
    ensures sound { IsSound (session_of engine.new) }
{
    let Some(room) = room_for(values.len()) else {
        return Err(AllocError);
    };
    let mut text = String::from_str(engine.alloc, "[")?;
    text.reserve(room as usize)?;
    push_each(engine, values, &mut text, room);
    put(&mut text, "]");
    Ok(text)
}

// Answers one thing that is asked.
fn send_one(engine: &mut Engine, value: Part<'_, '_>) -> Result<String, AllocError>
    requires { IsSound (session_of engine.old) }
    ensures ok { IfOk result (λ s. AnswersAsked (session_of engine.old) (order_in (part_data value.entry)) (string_bytes s) (session_of engine.new)) }
    ensures err { OnErr result (WaitsFor (order_in (part_data value.entry)) (session_of engine.old) (session_of engine.new)) }
    ensures sound { IsSound (session_of engine.new) }
{
    let mut text = String::with_capacity(engine.alloc, ANSWER)?;
    send(engine, value, &mut text, 0)?;
    Ok(text)
}

// Answers a value.
fn send_value(engine: &mut Engine, value: Part<'_, '_>) -> Result<String, AllocError>
    requires { IsSound (session_of engine.old) }
    ensures ok { IfOk result (λ s. AnsweredValue (session_of engine.old) (part_data value.entry) (session_of engine.new) (string_bytes s)) }
    ensures err { OnErr result (WaitsFor (order_in (part_data value.entry)) (session_of engine.old) (session_of engine.new)) }
    ensures sound { IsSound (session_of engine.new) }
{
    match value.as_array() {
        Some(values) => send_array(engine, values),
        None => send_one(engine, value),
    }
}

/// Answers a line; an element of an array is taken where memory was refused for those before it, and each by itself.
/// Err where memory is refused, and then nothing has changed, but that a checkpoint may have been made.
pub fn send_line(
    engine: &mut Engine,
    scratch: &mut Scratch,
    line: &[u8],
) -> Result<String, AllocError>
    requires { IsSound (session_of engine.old) }
    ensures ok { IfOk result (λ s. Sends (session_of engine.old) line.now (string_bytes s) (session_of engine.new)) }
    ensures err { OnErr result (IsPutOff line.now (session_of engine.old) (session_of engine.new)) }
    ensures sound { IsSound (session_of engine.new) }
{
    match read_line(engine.alloc, line, scratch) {
        Ok(value) => send_value(engine, Part::new(&value)),
        Err(Unread::Faulty(told)) => faulty_text(engine.alloc, told),
        Err(Unread::Memory) => Err(AllocError),
    }
}
