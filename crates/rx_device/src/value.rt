//! The JSON value of which bytes are the text.

ghost use Rattle.std.specs.Prelude.{◌≢◌, IfOk, IfErr, IsErrOf};
ghost use Rattle.serde_json.specs.View.{view};
ghost use Rattle.serde_json.specs.Data.{Data};
ghost use Rattle.rx_device.specs.Input.{IsJsonOf};

use crate::fault::ScriptError;
use serde_json::Value;
use std::alloc::Global;

/// The JSON value whose text the input is. `Syntax` comes where it is no JSON text, and `Memory` where
/// there was none.
pub fn value_of(alloc: Global, input: &[u8]) -> Result<Value, ScriptError>
    ensures ok { IfOk result (λ v. IsJsonOf input.now (view v)) }
    ensures syntax { IsErrOf result ScriptError.Syntax → (d : Data) → ¬ IsJsonOf input.now d }
    ensures never { IfErr result (λ e. (e ≢ ScriptError.Read) × (e ≢ ScriptError.Write) × (e ≢ ScriptError.Shape)) }
{
    match Value::from_slice(alloc, input) {
        Ok(value) => Ok(value),
        Err(error) => Err(if error.is_memory() {
            ScriptError::Memory
        } else {
            ScriptError::Syntax
        }),
    }
}
