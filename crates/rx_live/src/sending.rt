//! What is asked, and its answer.

ghost use Rattle.std.specs.Prelude.{◌≡◌, ◌≤◌, ◌+◌, ◌++◌, ◌&&◌, true, codes, length, string_bytes, IfOk, OnOk, OnErr};
ghost use Rattle.std.specs.String.{string_capacity};
ghost use Rattle.rx_device.specs.Part.{part_data};
ghost use Rattle.rx_line.specs.Orders.{task_of, order_in};
ghost use Rattle.rx_line.specs.Pieces.{ok_text};
ghost use Rattle.rx_live.specs.Session.{session_of, IsSound};
ghost use Rattle.rx_live.specs.Given.{IsUnchanged, IsAlike};
ghost use Rattle.rx_live.specs.Answers.{late_text};
ghost use Rattle.rx_live.specs.Openings.{connected_by};
ghost use Rattle.rx_live.specs.Renewals.{Renews, may_renew};
ghost use Rattle.rx_live.specs.Lines.{TellsAll, CarriesOut, FindsFull, WaitsFor, AnswersAsked, EndsSession};
ghost use Rattle.rx_live.specs.Taken.{is_full_cause, IsFullByAge, Answered, WritesAnswer, Tries};
ghost use Rattle.rx_live.specs.Room.{HasRoom};

use crate::closed::{closing_of, push_closed};
use crate::closing::{close, push_names};
use crate::connected::{connected_by, push_connected};
use crate::dumping::dump_text;
use crate::engine::Engine;
use crate::listing::list_text;
use crate::query::query_text;
use crate::renewing::renew;
use crate::running::act;
use crate::telling::{ROOM, tell_notes, tell_releases};
use rx_book::Refusal;
use rx_device::Part;
use rx_line::{
    Cause, Order, Outcome, Task, Unread, faulty_text, ok_text, order_of, put, refused_text,
};
use rx_listing::is_since;
use std::alloc::AllocError;

// The greatest place at which a book makes a checkpoint.
const MOST_PLACES: u64 = 9_223_372_036_854_775_807;

// Closes an answer, which says where something is put off.
fn close_text(text: &mut String, late: bool, rest: u32)
    requires room { HasRoom (rest + 13) text.old }
    ensures text { string_bytes text.new ≡ string_bytes text.old ++ late_text late ++ codes "}" }
    ensures room { HasRoom rest text.new }
    ensures capacity { string_capacity text.old ≤ string_capacity text.new }
{
    if late {
        put(text, ",\"late\":true");
    }
    put(text, "}");
}

/// Tells all that is to be told behind the front of an answer, and closes that.
pub fn tell(engine: &mut Engine, text: &mut String, rest: u32)
    requires sound { IsSound (session_of engine.old) }
    requires room { HasRoom (rest + 15) text.old }
    ensures tells { TellsAll (session_of engine.old) (string_bytes text.old) (session_of engine.new) (string_bytes text.new) }
    ensures sound { IsSound (session_of engine.new) }
    ensures room { HasRoom rest text.new }
    ensures capacity { string_capacity text.old ≤ string_capacity text.new }
{
    tell_notes(engine, text, rest);
    tell_releases(engine, text, rest);
    let late = engine.untold.is_some() || engine.unnamed.is_some();
    close_text(text, late, rest);
}

// Gets room for the front of an answer, for what may be said behind it and for what closes it.
fn make_place(text: &mut String, front: &str, said: &str, rest: u32) -> Result<(), AllocError>
    ensures same { string_bytes text.new ≡ string_bytes text.old }
    ensures ok { OnOk result (HasRoom (length front.now + (length said.now + (rest + 29))) text.new) }
    ensures kept { HasRoom rest text.old → HasRoom rest text.new }
{
    let wanted = front.len().saturating_add(said.len());
    text.reserve(wanted.saturating_add(rest as usize + ROOM))
}

// The front of the answer to a task that is done, and what is said then of a connection; with room for both, for
// what may be said behind them and for what closes the answer.
fn front_of(
    engine: &Engine,
    task: &Task,
    text: &mut String,
    rest: u32,
) -> Result<(String, String), AllocError>
    ensures front { IfOk result (λ f. string_bytes f.0 ≡ ok_text (length engine.now.book.history)) }
    ensures said { IfOk result (λ f. string_bytes f.1 ≡ connected_by (task_of task.now)) }
    ensures made { IfOk result
        (λ f. HasRoom (length (string_bytes f.0) + (length (string_bytes f.1) + (rest + 29))) text.new) }
    ensures same { string_bytes text.new ≡ string_bytes text.old }
    ensures kept { HasRoom rest text.old → HasRoom rest text.new }
{
    let connected = connected_by(engine.alloc, task)?;
    let placed = ok_text(engine.alloc, engine.book.len())?;
    make_place(text, placed.as_str(), connected.as_str(), rest)?;
    Ok((placed, connected))
}

// Whether the history is full by its age, so that a checkpoint makes room: an event was written since the last
// one, and there is a place for one more.
fn may_renew(engine: &Engine) -> bool
    ensures { result ≡ may_renew (session_of engine.now) }
{
    let len = engine.book.len();
    len <= MOST_PLACES && is_since(&engine.book, len)
}

fn is_full_cause(why: Cause) -> bool
    ensures { result ≡ is_full_cause why }
{
    matches!(why, Cause::Book(Refusal::Full))
}

fn is_full_by_age(engine: &Engine, why: Cause) -> bool
    ensures { result ≡ (is_full_cause why && may_renew (session_of engine.now)) }
{
    is_full_cause(why) && may_renew(engine)
}

// Writes an answer; one that finds no room is not written.
fn push_answer(text: &mut String, answer: &str, rest: u32) -> Result<(), AllocError>
    requires room { HasRoom rest text.old }
    ensures ok { OnOk result (string_bytes text.new ≡ string_bytes text.old ++ answer.now) }
    ensures err { OnErr result (string_bytes text.new ≡ string_bytes text.old) }
    ensures room { HasRoom rest text.new }
{
    text.reserve(answer.len().saturating_add(rest as usize))?;
    put(text, answer);
    Ok(())
}

// Carries a task out, and writes its answer. False where it finds the history full by its age. Err where memory
// is refused. In both nothing has changed.
fn carry_out(
    engine: &mut Engine,
    task: Task,
    text: &mut String,
    rest: u32,
) -> Result<bool, AllocError>
    requires sound { IsSound (session_of engine.old) }
    requires room { HasRoom rest text.old }
    ensures ok { IfOk result (Tries (λ t. CarriesOut (session_of engine.old) (task_of task) t (session_of engine.new))
        (FindsFull (session_of engine.old) (task_of task) (session_of engine.new)) (string_bytes text.old) (string_bytes text.new)) }
    ensures err { OnErr result (IsUnchanged (session_of engine.old) (session_of engine.new)) }
    ensures blank { OnErr result (string_bytes text.new ≡ string_bytes text.old) }
    ensures sound { IsSound (session_of engine.new) }
    ensures room { HasRoom rest text.new }
{
    let Ok((placed, connected)) = front_of(engine, &task, text, rest) else {
        // By a call: in place, the drop of each kind of task would be proved here.
        drop(task);
        return Err(AllocError);
    };
    let front = placed.as_str();
    let said = connected.as_str();
    let behind = engine.place_behind();
    let closing = closing_of(engine, &task);
    match act(engine, task)? {
        Outcome::Accepted => {
            put(text, front);
            push_connected(engine, text, said, behind, rest);
            push_closed(engine, text, closing, rest);
            tell(engine, text, rest);
            Ok(true)
        }
        Outcome::Refused(why) => {
            if is_full_by_age(engine, why) {
                return Ok(false);
            }
            let told = refused_text(engine.alloc, why)?;
            push_answer(text, told.as_str(), rest)?;
            Ok(true)
        }
    }
}

// Writes an answer that changed nothing.
fn say(text: &mut String, answer: String, rest: u32) -> Result<bool, AllocError>
    requires room { HasRoom rest text.old }
    ensures done { IfOk result (λ b. b ≡ true) }
    ensures ok { OnOk result (string_bytes text.new ≡ string_bytes text.old ++ string_bytes answer) }
    ensures blank { OnErr result (string_bytes text.new ≡ string_bytes text.old) }
    ensures room { HasRoom rest text.new }
{
    push_answer(text, answer.as_str(), rest)?;
    Ok(true)
}

// Writes the answer to what a value asks for. False where it finds the history full by its age. Err where memory is
// refused. In both nothing has changed.
fn answer(
    engine: &mut Engine,
    value: Part<'_, '_>,
    text: &mut String,
    rest: u32,
) -> Result<bool, AllocError>
    requires sound { IsSound (session_of engine.old) }
    requires room { HasRoom rest text.old }
    ensures ok { IfOk result (Tries (Answered (session_of engine.old) (order_in (part_data value.entry)) (session_of engine.new))
        (IsFullByAge (session_of engine.old) (order_in (part_data value.entry)) (session_of engine.new)) (string_bytes text.old) (string_bytes text.new)) }
    ensures err { OnErr result (IsAlike (session_of engine.old) (session_of engine.new)) }
    ensures blank { OnErr result (string_bytes text.new ≡ string_bytes text.old) }
    ensures sound { IsSound (session_of engine.new) }
    ensures room { HasRoom rest text.new }
{
    match order_of(engine.alloc, value) {
        Ok(Order::Task(task)) => carry_out(engine, task, text, rest),
        Ok(Order::Query(node)) => say(text, query_text(engine, node.as_str())?, rest),
        Ok(Order::List) => say(text, list_text(engine)?, rest),
        Ok(Order::Dump) => say(text, dump_text(engine)?, rest),
        Err(Unread::Faulty(told)) => say(text, faulty_text(engine.alloc, told)?, rest),
        Err(Unread::Memory) => Err(AllocError),
    }
}

// Makes a checkpoint. Err where none can be made now, and then nothing has changed.
fn make_room(engine: &mut Engine) -> Result<(), AllocError>
    requires { IsSound (session_of engine.old) }
    ensures ok { OnOk result (Renews (session_of engine.old) (session_of engine.new)) }
    ensures err { OnErr result (session_of engine.new ≡ session_of engine.old) }
    ensures sound { IsSound (session_of engine.new) }
{
    match renew(engine)? {
        Outcome::Accepted => Ok(()),
        Outcome::Refused(_) => Err(AllocError),
    }
}

/// Writes the answer to what a value asks for, where room for a `rest` is kept behind the text; what finds the
/// history full by its age is taken again behind a checkpoint. Err where memory is refused, and then nothing has
/// changed, but that a checkpoint may have been made.
pub fn send(
    engine: &mut Engine,
    value: Part<'_, '_>,
    text: &mut String,
    rest: u32,
) -> Result<(), AllocError>
    requires sound { IsSound (session_of engine.old) }
    requires room { HasRoom rest text.old }
    ensures ok { OnOk result (WritesAnswer
        (λ t. AnswersAsked (session_of engine.old) (order_in (part_data value.entry)) t (session_of engine.new)) (string_bytes text.old) (string_bytes text.new)) }
    ensures err { OnErr result (WaitsFor (order_in (part_data value.entry)) (session_of engine.old) (session_of engine.new)) }
    ensures blank { OnErr result (string_bytes text.new ≡ string_bytes text.old) }
    ensures sound { IsSound (session_of engine.new) }
    ensures room { HasRoom rest text.new }
{
    let is_answered = answer(engine, value, text, rest)?;
    if is_answered {
        return Ok(());
    }
    make_room(engine)?;
    let is_done = answer(engine, value, text, rest)?;
    if is_done {
        return Ok(());
    }
    unreachable!()
}

/// Closes all, and answers what is left to be released. Err where memory is refused, and then nothing has
/// changed.
pub fn end(engine: &mut Engine) -> Result<String, AllocError>
    requires { IsSound (session_of engine.old) }
    ensures ok { IfOk result (λ s. EndsSession (session_of engine.old) (string_bytes s) (session_of engine.new)) }
    ensures err { OnErr result (session_of engine.new ≡ session_of engine.old) }
    ensures sound { IsSound (session_of engine.new) }
{
    let mut text = String::from_str(engine.alloc, "{\"closed\":true")?;
    push_names(engine, &mut text)?;
    text.reserve(ROOM)?;
    tell_notes(engine, &mut text, 0);
    close_text(&mut text, engine.untold.is_some(), 0);
    close(engine);
    Ok(text)
}
