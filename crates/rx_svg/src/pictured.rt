//! The picture of an input: of a dump, or of an object with a dump and with names.

ghost use Rattle.std.specs.Prelude.{◌≡◌, ◌≢◌, None, IfOk, IfErr, IsErrOf, string_bytes};
ghost use Rattle.serde_json.specs.Data.{Data};
ghost use Rattle.serde_json.specs.View.{view};
ghost use Rattle.rx_device.specs.declared.fault.ScriptError.{ScriptError};
ghost use Rattle.rx_device.specs.declared.shape.ShapeError.{ShapeError};
ghost use Rattle.rx_device.specs.Input.{IsJsonOf};
ghost use Rattle.rx_dump.specs.History.{history_of};
ghost use Rattle.rx_dump.specs.Judged.{IsNoHistory};
ghost use Rattle.rx_dump.specs.Names.{dump_in};
ghost use Rattle.rx_svg.specs.Pictured.{IsPictureOn, IsPictureOfInput};

use crate::svg::named_picture;
use rx_device::{ScriptError, ShapeError, value_of};
use rx_dump::{dump_in, history_of, names_or};
use serde_json::Value;
use std::alloc::Global;

// The picture of the history of which the value has the dump.
fn picture_of(alloc: Global, value: &Value) -> Result<String, ShapeError>
    ensures ok { IfOk result (λ s. IsPictureOn (view value.now) (string_bytes s)) }
    ensures shape { IsErrOf result ShapeError.Shape → history_of (dump_in (view value.now)) ≡ None }
{
    let history = history_of(alloc, dump_in(value))?;
    let none = Value::Null;
    let names = names_or(value, &none);
    let text = named_picture(alloc, history.as_slice(), names)?;
    Ok(text)
}

/// The picture of the history of which the input is the dump. The dump may also be the member `dump` of an object; then
/// the names of numbers are its member `names`, an object.
pub fn draw(alloc: Global, input: &[u8]) -> Result<String, ScriptError>
    ensures ok { IfOk result (λ s. IsPictureOfInput input.now (string_bytes s)) }
    ensures syntax { IsErrOf result ScriptError.Syntax → (d : Data) → ¬ IsJsonOf input.now d }
    ensures shape { IsErrOf result ScriptError.Shape → IsNoHistory input.now }
    ensures never { IfErr result (λ e. (e ≢ ScriptError.Read) × (e ≢ ScriptError.Write)) }
{
    let value = value_of(alloc, input)?;
    match picture_of(alloc, &value) {
        Ok(text) => Ok(text),
        Err(ShapeError::Shape) => Err(ScriptError::Shape),
        Err(ShapeError::Memory) => Err(ScriptError::Memory),
    }
}
