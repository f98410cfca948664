//! From an input to what is said of it, over streams.

ghost use Rattle.std.specs.Prelude.{◌≡◌, ◌≢◌, ◌⊎◌, false, map, string_bytes, IfOk, IfErr, IsErrOf};
ghost use Rattle.rx_device.specs.declared.fault.ScriptError.{ScriptError};
ghost use Rattle.rx_device.specs.Device.{device_of, HasReadFault, IsUnasked, KeepsDevice};
ghost use Rattle.rx_device.specs.Input.{GivesTooMuch, GivesNoJson};
ghost use Rattle.rx_script.specs.Stage.{ware_of};
ghost use Rattle.rx_cli.specs.Said.{Says, takes_any};
ghost use Rattle.rx_cli.specs.Served.{IsAnswered, SaysOfGiven, GivesLacking};

use crate::faults::{fault_line, fault_line_of};
use crate::request::Asked;
use crate::said::{Said, say, say_of_too_much};
use rx_device::{ScriptError, Watched, read_all, write_text};
use rx_explain::too_long;
use rx_resource::Resource;
use std::alloc::Global;
use std::io::{Read, Write};

// What is said of an input. Where it is faulty, `why` gets the line that says so.
fn say_or_why<R: Resource>(
    alloc: Global,
    asked: Asked,
    input: &[u8],
    stock: Vec<R>,
    why: &mut String,
) -> Result<Said, ScriptError>
    ensures { Says (map (ware_of R.Resource) stock.items) asked input.now result }
{
    match say(alloc, asked, input, stock) {
        Ok(said) => Ok(said),
        Err(error) => {
            *why = fault_line_of(alloc, asked, input);
            Err(error)
        }
    }
}

// What is said of the input that the reader has left. Where it is faulty, `why` gets the line that says so.
fn say_of_left<R: Resource, I: Read>(
    alloc: Global,
    asked: Asked,
    stock: Vec<R>,
    input: &mut Watched<'_, I>,
    why: &mut String,
) -> Result<Said, ScriptError>
    requires { IsUnasked input.old }
    ensures ok { IfOk result (λ s. SaysOfGiven I.remaining (map (ware_of R.Resource) stock.items) asked input.old input.new
        (string_bytes s.text) s.status) }
    ensures read { IsErrOf result ScriptError.Read → HasReadFault input.new }
    ensures syntax { IsErrOf result ScriptError.Syntax → (takes_any asked ≡ false)
        × (GivesTooMuch (I.remaining (device_of input.old)) (I.remaining (device_of input.new))
        ⊎ GivesNoJson (I.remaining (device_of input.old)) (I.remaining (device_of input.new))) }
    ensures shape { IsErrOf result ScriptError.Shape → GivesLacking I.remaining asked input.old input.new }
    ensures never { IfErr result (λ e. e ≢ ScriptError.Write) }
    ensures same_input { KeepsDevice input.old input.new }
{
    match read_all(alloc, input) {
        Ok(given) => say_or_why(alloc, asked, given.as_slice(), stock, why),
        Err(ScriptError::Syntax) => {
            *why = fault_line(alloc, too_long(alloc));
            say_of_too_much(alloc, asked)
        }
        Err(error) => Err(error),
    }
}

/// Reads the input to its end, and writes what is said of it, which is made before the first byte is written. Answers the
/// status that goes with it. With any fault but one of the output nothing is written. Where the input is faulty, `why` gets
/// the line that says what is wrong with it, as `explain` says it, or which command takes it.
pub fn answer<R: Resource, I: Read, O: Write>(
    alloc: Global,
    asked: Asked,
    stock: Vec<R>,
    input: &mut Watched<'_, I>,
    output: &mut Watched<'_, O>,
    why: &mut String,
) -> Result<u8, ScriptError>
    requires input { IsUnasked input.old }
    requires output { IsUnasked output.old }
    ensures answered { IsAnswered I.remaining O.contents (map (ware_of R.Resource) stock.items) asked
        input.old input.new output.old output.new result }
    ensures same_input { KeepsDevice input.old input.new }
    ensures same_output { KeepsDevice output.old output.new }
{
    let said = match say_of_left(alloc, asked, stock, input, why) {
        Ok(said) => said,
        Err(error) => return Err(error),
    };
    match write_text(output, said.text.as_str().as_bytes()) {
        Ok(()) => Ok(said.status),
        Err(_) => Err(ScriptError::Write),
    }
}
