//! The names of numbers, each written behind a text.

ghost use Rattle.std.specs.Prelude.{◌≡◌, ◌<◌, ◌==◌, ◌∷◌, [], ◌++◌, codes, string_bytes, OnOk, flat_map, option_map};
ghost use Rattle.std.specs.List.{list_any};
ghost use Rattle.serde_json.specs.View.{view};
ghost use Rattle.rx_dump.specs.Names.{name_in_object};
ghost use Rattle.rx_svg.specs.WellFormed.{is_plain_character};
ghost use Rattle.rx_svg.specs.Name.{stands_in_name, escape, byte_text, shown_name, name_label};

use crate::pieces::{MOST_SHOWN, front, push_rest};
use rx_dump::{Names, name_of};
use std::alloc::AllocError;

/// Whether markup is made of the byte.
#[tactic(auto, using(crate::proofs::ShownNames::markup_by_or))]
fn is_markup(byte: u8) -> bool
    ensures { result ≡ list_any (λ m. byte == m) (codes "<>&\"") }
{
    byte == b'<' || byte == b'>' || byte == b'&' || byte == b'"'
}

/// Whether the byte is a plain character.
fn is_plain(byte: u8) -> bool
    ensures { result ≡ is_plain_character byte }
{
    (byte == 10 || (32 <= byte && byte <= 126)) && !is_markup(byte)
}

/// Whether the byte stands in a name as it is.
fn stands_in_name(byte: u8) -> bool
    ensures { result ≡ stands_in_name byte }
{
    is_plain(byte) && byte != 10
}

/// What stands for a byte that does not.
fn escape(byte: u8) -> &'static str
    ensures { result.now ≡ escape byte }
{
    if byte == b'<' {
        "&lt;"
    } else if byte == b'>' {
        "&gt;"
    } else if byte == b'&' {
        "&amp;"
    } else if byte == b'"' {
        "&quot;"
    } else {
        "?"
    }
}

/// A character of ASCII.
fn push_ascii(text: &mut String, byte: u8) -> Result<(), AllocError>
    requires { byte < 128 }
    ensures { OnOk result (string_bytes text.new ≡ string_bytes text.old ++ byte ∷ []) }
{
    text.push(char::from(byte))
}

/// One byte of a name.
#[tactic(auto, using(crate::proofs::ShownNames::name_is_ascii))]
fn push_byte(text: &mut String, byte: u8) -> Result<(), AllocError>
    ensures { OnOk result (string_bytes text.new ≡ string_bytes text.old ++ byte_text byte) }
{
    if stands_in_name(byte) {
        return push_ascii(text, byte);
    }
    text.push_str(escape(byte))
}

/// The bytes of a name.
fn push_bytes(text: &mut String, bytes: &[u8]) -> Result<(), AllocError>
    ensures { OnOk result (string_bytes text.new ≡ string_bytes text.old ++ flat_map byte_text bytes.now) }
{
    for byte in bytes {
        push_byte(text, *byte)?;
    }
    Ok(())
}

/// The front of a name, in brackets.
#[tactic(auto, unfolding(crate::specs::Name::shown_name))]
fn push_shown(text: &mut String, name: &str) -> Result<(), AllocError>
    ensures { OnOk result (string_bytes text.new ≡ string_bytes text.old ++ shown_name name.now) }
{
    text.push_str(" (")?;
    push_bytes(text, front(name.as_bytes()))?;
    push_rest(text, name.len().saturating_sub(MOST_SHOWN))?;
    text.push_str(")")
}

/// A name, if there is one.
fn push_if_named(text: &mut String, name: Option<&str>) -> Result<(), AllocError>
    ensures { OnOk result (string_bytes text.new ≡ string_bytes text.old
        ++ name_label (option_map (λ s. s.now) name.entry)) }
{
    match name {
        Some(name) => push_shown(text, name),
        None => Ok(()),
    }
}

/// The name of the number, if it has one.
pub fn push_named(text: &mut String, names: Names<'_>, n: u64) -> Result<(), AllocError>
    ensures { OnOk result (string_bytes text.new ≡ string_bytes text.old
        ++ name_label (name_in_object (view names.entry.object.now) n)) }
{
    let name = name_of(names, n)?;
    push_if_named(text, name)
}
