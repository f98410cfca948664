//! The end of a session.

ghost use Rattle.std.specs.Prelude.{◌≡◌, ◌++◌, ◌&&◌, codes, map, option_map, is_some, string_bytes, IfOk, OnOk};
ghost use Rattle.std.proofs.Math.Bool.{not};
ghost use Rattle.std.specs.Option.{option_to_list};
ghost use Rattle.rx_line.specs.Names.{name_of_number};
ghost use Rattle.rx_line.specs.Pieces.{name_text, member_text};
ghost use Rattle.rx_live.specs.Session.{session_of, IsSound};
ghost use Rattle.rx_live.specs.Lines.{IsSessionClosed};
ghost use Rattle.rx_live.specs.Listed.{all_names, has_no_names, lead_to_name, led_name_text, open_text};

use crate::engine::Engine;
use crate::telling::push_quoted;
use rx_line::Names;
use rx_listing::rising;
use std::alloc::AllocError;

// What leads to a name in an array.
fn lead_to_name(is_first: bool) -> &'static str
    ensures { result.now ≡ lead_to_name is_first }
{
    if is_first { ",\"release\":[" } else { "," }
}

// Writes the name of the resource of this number, where it has one. Answers whether the next is still the first.
fn push_number(
    engine: &Engine,
    text: &mut String,
    is_first: bool,
    number: u64,
) -> Result<bool, AllocError>
    ensures first { IfOk result (λ b. b ≡ (is_first && not (is_some (name_of_number engine.now.resources number)))) }
    ensures text { OnOk result
        (string_bytes text.new ≡ string_bytes text.old ++ led_name_text is_first (name_of_number engine.now.resources number)) }
{
    match engine.resources.name_of(number) {
        Some(name) => {
            push_quoted(text, lead_to_name(is_first), name, 0)?;
            Ok(false)
        }
        None => Ok(is_first),
    }
}

// Writes the name that was taken and is still to be told.
fn push_unnamed(engine: &Engine, text: &mut String) -> Result<bool, AllocError>
    ensures first { IfOk result (λ b. b ≡ has_no_names (option_to_list (option_map string_bytes engine.now.unnamed))) }
    ensures text { OnOk result (string_bytes text.new ≡ string_bytes text.old ++ open_text (option_to_list (option_map string_bytes engine.now.unnamed))) }
{
    match &engine.unnamed {
        Some(name) => {
            push_quoted(text, lead_to_name(true), name.as_str(), 0)?;
            Ok(false)
        }
        None => Ok(true),
    }
}

// Writes all names that are bound or still to be told, each once. It goes over what has names.
fn push_all(engine: &Engine, text: &mut String) -> Result<bool, AllocError>
    requires { IsSound (session_of engine.now) }
    ensures first { IfOk result (λ b. b ≡ has_no_names (all_names (session_of engine.now))) }
    ensures text { OnOk result (string_bytes text.new ≡ string_bytes text.old ++ open_text (all_names (session_of engine.now))) }
{
    let mut is_first = push_unnamed(engine, text)?;
    let numbers = rising(engine.alloc, &engine.resources)?;
    'numbers: for number in &numbers {
        is_first = push_number(engine, text, is_first, *number)?;
    }
    Ok(is_first)
}

/// Writes the member that names all that is left to be released. Err where memory is refused.
pub fn push_names(engine: &Engine, text: &mut String) -> Result<(), AllocError>
    requires { IsSound (session_of engine.now) }
    ensures { OnOk result (string_bytes text.new ≡ string_bytes text.old ++ member_text (codes "release") (map name_text (all_names (session_of engine.now)))) }
{
    if push_all(engine, text)? {
        return Ok(());
    }
    text.push_str("]")
}

/// Closes all, and forgets all names. It takes no memory.
pub fn close(engine: &mut Engine)
    requires { IsSound (session_of engine.old) }
    ensures closed { IsSessionClosed (session_of engine.new) }
    ensures sound { IsSound (session_of engine.new) }
{
    let _closed = engine.book.close();
    engine.book.promise();
    engine.nodes = Names::new(engine.alloc);
    engine.hubs = Names::new(engine.alloc);
    engine.resources = Names::new(engine.alloc);
    engine.leases = Names::new(engine.alloc);
    engine.unnamed = None;
}
