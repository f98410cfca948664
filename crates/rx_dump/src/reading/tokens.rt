//! A part of an event from its token: a word, or a whole number.

ghost use Rattle.std.specs.Prelude.{◌≡◌, IfSome, IfOk};
ghost use Rattle.rx_dump.specs.Imports.{true, false, Some, option_map, number, number_of, number_from, view};
ghost use Rattle.fast_float.specs.Text.{scan};
ghost use Rattle.json.specs.Reads.{token_of};
ghost use Rattle.rx_dump.specs.Tokens.{IsAlone};

use fast_float::Numeral;
use json::Token;
use rx_device::ShapeError;
use serde_json::Value;
use std::alloc::Global;

// The number of these digits, if it is whole and fits 64 bits.
fn positive(digits: &[u8]) -> Option<Value>
    ensures { IfSome result (λ v. option_map number (number_from false (scan digits.now)) ≡ Some (view v)) }
{
    let whole = Numeral::scan(digits).to_u64()?;
    Some(Value::from(whole))
}

// The number of these digits behind a minus, if it is whole, below zero and fits 64 bits with its sign.
fn negative(digits: &[u8]) -> Option<Value>
    ensures { IfSome result (λ v. option_map number (number_from true (scan digits.now)) ≡ Some (view v)) }
{
    let whole = Numeral::scan(digits).to_i64(true)?;
    if whole < 0 {
        Some(Value::from(whole))
    } else {
        None
    }
}

// The whole number that the text of a JSON number tells, if it fits 64 bits.
#[tactic(auto, unfolding(serde_json::specs::Read::number_of))]
fn number_of(text: &str) -> Option<Value>
    ensures { IfSome result (λ v. option_map number (number_of text.now) ≡ Some (view v)) }
{
    let bytes = text.as_bytes();
    let (first, digits) = bytes.split_first()?;
    if *first == b'-' {
        negative(digits)
    } else {
        positive(bytes)
    }
}

/// The part of an event that a token is: a word, or a whole number that fits 64 bits. `Shape` comes at
/// any other token.
pub fn part_of(alloc: Global, token: Token<'_>) -> Result<Value, ShapeError>
    ensures { IfOk result (λ v. IsAlone (token_of token.entry) (view v)) }
{
    match token {
        Token::String(text) => Ok(Value::try_from_str(alloc, text)?),
        Token::Number(text) => match number_of(text) {
            Some(number) => Ok(number),
            None => Err(ShapeError::Shape),
        },
        _ => Err(ShapeError::Shape),
    }
}
