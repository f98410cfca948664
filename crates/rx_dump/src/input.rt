//! An input: a dump, or an object with a dump and with names.

ghost use Rattle.std.specs.Prelude.{◌≡◌};
ghost use Rattle.serde_json.specs.Data.{null};
ghost use Rattle.serde_json.specs.View.{view};
ghost use Rattle.rx_dump.specs.Names.{dump_in, names_in};

use serde_json::Value;

/// The dump in the value: its member `dump`, or the value itself where it has no such member.
pub fn dump_in(value: &Value) -> &Value
    ensures { view result.now ≡ dump_in (view value.now) }
{
    match value.get("dump") {
        Some(dump) => dump,
        None => value,
    }
}

/// The names in the value: its member `names`, or this value where it has no such member.
pub fn names_or<'a>(value: &'a Value, none: &'a Value) -> &'a Value
    requires { view none.now ≡ null }
    ensures { view result.now ≡ names_in (view value.now) }
{
    match value.get("names") {
        Some(names) => names,
        None => none,
    }
}
