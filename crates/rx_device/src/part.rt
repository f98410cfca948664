//! A JSON value that is read in place: its names, words and numbers stand in its text.

ghost use Rattle.std.specs.Prelude.{◌≡◌, ◌==◌, true, drop, slice_index, option_map, option_and_then};
ghost use Rattle.std.specs.Str.{bytes_eq};
ghost use Rattle.json.specs.Value.{value_view, items_view, members_view};
ghost use Rattle.json.specs.Find.{get_member};
ghost use Rattle.serde_json.specs.Data.{no_members};
ghost use Rattle.fast_float.specs.Text.{scan, minus};
ghost use Rattle.serde_json.specs.Read.{number_of, number_from};
ghost use Rattle.serde_json.specs.Find.{get, as_str, as_number, as_u64, as_i64, as_array, as_object};
ghost use Rattle.rx_device.specs.Part.{part_data, data_of, items_data, members_data};

use fast_float::Numeral;
use json::Value;

/// A JSON value that is read in place. It is looked into as `serde_json`'s values are, and stands for
/// one of them: of a member that comes twice the last one counts.
#[derive(Clone, Copy)]
pub struct Part<'v, 'a> {
    value: &'v Value<'a>,
}

impl<'v, 'a> Part<'v, 'a> {
    /// The value.
    pub fn new(value: &'v Value<'a>) -> Self
        ensures { part_data result ≡ data_of (value_view value.now) }
    {
        Part { value }
    }

    /// The member of this name, if this is an object that has one.
    #[inline(always)]
    pub fn get(self, name: &str) -> Option<Part<'v, 'a>>
        ensures { option_map part_data result ≡ get name.now (part_data self.entry) }
    {
        let Some(members) = self.as_object() else {
            return None;
        };
        match find(members, name) {
            Some(value) => Some(Part { value }),
            None => None,
        }
    }

    /// The string that this is.
    pub fn as_str(self) -> Option<&'a str>
        ensures { option_map (λ s. s.now) result ≡ as_str (part_data self.entry) }
    {
        self.value.as_str()
    }

    /// The whole number that this is, if it is not below 0 and fits 64 bits.
    pub fn as_u64(self) -> Option<u64>
        ensures { result ≡ option_and_then as_u64 (as_number (part_data self.entry)) }
    {
        whole(self.value.as_number()?)
    }

    /// The whole number that this is, if it fits 64 bits with its sign.
    pub fn as_i64(self) -> Option<i64>
        ensures { result ≡ option_and_then as_i64 (as_number (part_data self.entry)) }
    {
        signed(self.value.as_number()?)
    }

    /// The values in the array that this is.
    pub fn as_array(self) -> Option<&'v Vec<Value<'a>>>
        ensures { option_map (λ v. items_data (items_view v.now.items)) result ≡ as_array (part_data self.entry) }
    {
        match self.value {
            Value::Array(values) => Some(values),
            _ => None,
        }
    }

    /// The members of the object that this is, in the order of the text.
    pub fn as_object(self) -> Option<&'v Vec<(&'a str, Value<'a>)>>
        ensures { option_map (λ v. members_data (members_view v.now.items) no_members) result ≡ as_object (part_data self.entry) }
    {
        match self.value {
            Value::Object(members) => Some(members),
            _ => None,
        }
    }
}

// Whether a key is this name. A key of another length is told apart without a look at its bytes.
#[inline(always)]
fn is_key(key: &str, name: &str) -> bool
    ensures { result ≡ bytes_eq key.now name.now }
{
    key.len() == name.len() && key == name
}

// The last member of this name, as `json::Value::get` gives it.
#[inline(always)]
fn find<'v, 'a>(members: &'v Vec<(&'a str, Value<'a>)>, name: &str) -> Option<&'v Value<'a>>
    ensures { option_map (λ v. value_view v.now) result ≡ get_member name.now (members_view members.now.items) }
{
    let mut left = members.len();
    while left > 0 {
        left -= 1;
        let member = &members[left];
        if is_key(member.0, name) {
            return Some(&member.1);
        }
    }
    None
}

// Whether a number is written with a minus.
pub(crate) fn has_minus(bytes: &[u8]) -> bool
    ensures { result ≡ (slice_index bytes.now 0 == minus) }
{
    !bytes.is_empty() && bytes[0] == b'-'
}

// The digits behind a minus.
pub(crate) fn behind_minus(bytes: &[u8]) -> &[u8]
    requires { (slice_index bytes.now 0 == minus) ≡ true }
    ensures { result.now ≡ drop 1 bytes.now }
{
    &bytes[1..]
}

// The number of this text, if it is whole, not below 0 and fits 64 bits.
fn whole(text: &str) -> Option<u64>
    ensures { result ≡ option_and_then as_u64 (number_of text.now) }
{
    let bytes = text.as_bytes();
    if has_minus(bytes) {
        return None;
    }
    Numeral::scan(bytes).to_u64()
}

// The number of these digits behind a minus, if it is whole and fits 64 bits. `-0` is a float.
fn negative(digits: &[u8]) -> Option<i64>
    ensures { result ≡ option_and_then as_i64 (number_from true (scan digits.now)) }
{
    match Numeral::scan(digits).to_i64(true) {
        Some(number) if number < 0 => Some(number),
        _ => None,
    }
}

// The number of this text, if it is whole and fits 64 bits with its sign.
fn signed(text: &str) -> Option<i64>
    ensures { result ≡ option_and_then as_i64 (number_of text.now) }
{
    let bytes = text.as_bytes();
    if has_minus(bytes) {
        return negative(behind_minus(bytes));
    }
    Numeral::scan(bytes).to_i64(false)
}
