//! A JSON text that is read in place.

ghost use Rattle.std.specs.Prelude.{◌≡◌, ◌≢◌, ◌==◌, ◌&&◌, false, true, length, is_some, IfOk, IfErr, IsErrOf};
ghost use Rattle.fast_float.specs.Text.{scan};
ghost use Rattle.json.specs.Value.{value_view, items_view, members_view};
ghost use Rattle.serde_json.specs.Data.{Data};
ghost use Rattle.serde_json.specs.Read.{number_of, number_from, read};
ghost use Rattle.rx_device.specs.Input.{IsJsonOf};
ghost use Rattle.rx_device.specs.Part.{data_of, has_values, items_have_values, members_have_values};

use crate::fault::ScriptError;
use crate::part::{behind_minus, has_minus};
use fast_float::Numeral;
use json::{Error, Reader, Scratch, Value};
use std::alloc::Global;

/// How deep arrays and objects may nest, as `serde_json` has it.
const MOST_LEVELS: usize = 127;

// Whether the number of these digits has a value: it is whole and fits 64 bits, or a float.
fn positive_has_value(digits: &[u8]) -> bool
    ensures { result ≡ is_some (number_from false (scan digits.now)) }
{
    let numeral = Numeral::scan(digits);
    match numeral.to_u64() {
        Some(_) => true,
        None => numeral.to_float::<f64>(false).is_finite(),
    }
}

// Whether the number of these digits behind a minus has a value.
fn negative_has_value(digits: &[u8]) -> bool
    ensures { result ≡ is_some (number_from true (scan digits.now)) }
{
    let numeral = Numeral::scan(digits);
    match numeral.to_i64(true) {
        Some(number) if number < 0 => true,
        _ => numeral.to_float::<f64>(true).is_finite(),
    }
}

// Whether the number of this text has a value.
fn number_has_value(text: &str) -> bool
    ensures { result ≡ is_some (number_of text.now) }
{
    let bytes = text.as_bytes();
    if has_minus(bytes) {
        return negative_has_value(behind_minus(bytes));
    }
    positive_has_value(bytes)
}

// Whether each number in a value has a value.
#[cycle(values)]
fn has_values(value: &Value<'_>) -> bool
    ensures { result ≡ has_values (value_view value.now) }
{
    match value {
        Value::Number(text) => number_has_value(text),
        Value::Array(values) => items_have_values(values),
        Value::Object(members) => members_have_values(members),
        _ => true,
    }
}

#[cycle(values)]
fn items_have_values(values: &Vec<Value<'_>>) -> bool
    ensures { result ≡ items_have_values (items_view values.now.items) }
{
    for value in values {
        if !has_values(value) {
            return false;
        }
    }
    true
}

#[cycle(values)]
fn members_have_values<'a>(members: &Vec<(&'a str, Value<'a>)>) -> bool
    ensures { result ≡ members_have_values (members_view members.now.items) }
{
    for member in members {
        if !has_values(&member.1) {
            return false;
        }
    }
    true
}

// Whether nothing follows, and each number of a value has a value.
fn is_whole(reader: &mut Reader<'_>, value: &Value<'_>) -> bool
    ensures { result ≡ (length reader.old == 0 && has_values (value_view value.now)) }
{
    reader.next().is_none() && has_values(value)
}

// The value whose text this is.
fn value_of_text<'a>(
    alloc: Global,
    text: &'a str,
    scratch: &'a mut Scratch,
) -> Result<Value<'a>, ScriptError>
    ensures ok { IfOk result (λ v. read text.now ≡ Some (data_of (value_view v))) }
    ensures syntax { IsErrOf result ScriptError.Syntax → read text.now ≡ None }
    ensures never { IfErr result (λ e. (e ≢ ScriptError.Read) × (e ≢ ScriptError.Write) × (e ≢ ScriptError.Shape)) }
{
    let Ok(mut reader) = Reader::new(text, scratch) else {
        return Err(ScriptError::Memory);
    };
    match Value::read(alloc, &mut reader, MOST_LEVELS) {
        Ok(value) => {
            if is_whole(&mut reader, &value) {
                Ok(value)
            } else {
                Err(ScriptError::Syntax)
            }
        }
        Err(Error::OutOfMemory) => Err(ScriptError::Memory),
        Err(_) => Err(ScriptError::Syntax),
    }
}

/// The JSON value whose text the input is. Its names, words and numbers stand in the input, or without
/// their escapes in `scratch`; [`Part`](crate::Part) looks into it. `Syntax` comes where it is no JSON
/// text, and `Memory` where there was none.
pub fn parse_in_place<'a>(
    alloc: Global,
    input: &'a [u8],
    scratch: &'a mut Scratch,
) -> Result<Value<'a>, ScriptError>
    ensures ok { IfOk result (λ v. IsJsonOf input.now (data_of (value_view v))) }
    ensures syntax { IsErrOf result ScriptError.Syntax → (d : Data) → ¬ IsJsonOf input.now d }
    ensures never { IfErr result (λ e. (e ≢ ScriptError.Read) × (e ≢ ScriptError.Write) × (e ≢ ScriptError.Shape)) }
{
    match std::str::from_utf8(input) {
        Ok(text) => value_of_text(alloc, text, scratch),
        Err(_) => Err(ScriptError::Syntax),
    }
}
