//! What is shown of an input: a history with its names, its picture, and what is wrong.

ghost use Rattle.std.specs.Prelude.{IfOk, IsErrOf, string_bytes};
ghost use Rattle.rx_device.specs.declared.fault.ScriptError.{ScriptError};
ghost use Rattle.rx_script.specs.declared.Form.{Form};
ghost use Rattle.cellarcliff.specs.Answers.{AnswersText};
ghost use Rattle.cellarcliff.specs.Ran.{TellsRun, HasNothingToWrite};
ghost use Rattle.cellarcliff.specs.Shown.{TellsPicture, HasNoDump, TellsFault};

use crate::handing::{Said, hand_out};
use crate::running::run_in;
use rx_device::{MOST_BYTES, ScriptError};
use rx_explain::explain;
use rx_script::Form;
use rx_svg::draw;
use std::alloc::Global;

/// Runs the scenario on a new book and writes its history before the closing with the names of its nodes, hubs and
/// resources, as `rxbook run --dump --names` does: an object, of which [`cellar_picture`] draws the picture.
///
/// The statuses are those of [`cellar_run_dump`](crate::cellar_run_dump).
#[unsafe(no_mangle)]
pub extern "C" fn cellar_run_names(
    alloc: Global,
    scenario: &[u8],
    buffer: &mut [u8],
    told: &mut usize,
) -> u8
    ensures { AnswersText (TellsRun scenario.now Form.NamedDump) (HasNothingToWrite Form.NamedDump scenario.now)
        buffer.old buffer.new told.new result }
{
    run_in(alloc, scenario, Form::NamedDump, buffer, told)
}

// The picture of the history whose dump is in the input.
fn drawn(alloc: Global, input: &[u8]) -> Result<Said, ScriptError>
    ensures ok { IfOk result (λ s. TellsPicture input.now (string_bytes s.text) s.status) }
    ensures syntax { IsErrOf result ScriptError.Syntax → HasNoDump input.now }
    ensures shape { IsErrOf result ScriptError.Shape → HasNoDump input.now }
{
    if input.len() > MOST_BYTES {
        return Err(ScriptError::Syntax);
    }
    let text = draw(alloc, input)?;
    Ok(Said { text, status: 0 })
}

/// Draws the history and writes the picture, an SVG document, to the front of `buffer`, as `rxbook picture` does; `told`
/// gets its length. The input is a dump, or an object with a dump and with names.
///
/// The status is 0 where the picture is drawn, 1 where the buffer is too small, 3 where the bytes have no dump, 4
/// where memory was refused.
#[unsafe(no_mangle)]
pub extern "C" fn cellar_picture(
    alloc: Global,
    input: &[u8],
    buffer: &mut [u8],
    told: &mut usize,
) -> u8
    ensures { AnswersText (TellsPicture input.now) (HasNoDump input.now) buffer.old buffer.new told.new result }
{
    hand_out(drawn(alloc, input), buffer, told)
}

// What is wrong with the input; no text where nothing is.
fn fault_in(alloc: Global, input: &[u8]) -> Result<Said, ScriptError>
    ensures ok { IfOk result (λ s. TellsFault input.now (string_bytes s.text) s.status) }
    ensures no_syntax { ¬ IsErrOf result ScriptError.Syntax }
    ensures no_shape { ¬ IsErrOf result ScriptError.Shape }
{
    match explain(alloc, input) {
        Ok(Some(text)) => Ok(Said { text, status: 5 }),
        Ok(None) => Ok(Said {
            text: String::new(alloc),
            status: 0,
        }),
        Err(_) => Err(ScriptError::Memory),
    }
}

/// Says what is wrong with the input, a scenario or a dump, in a sentence, as `rxbook explain` does: the sentence, without
/// a newline, goes to the front of `buffer`, and `told` gets its length.
///
/// The status is 0 where nothing is wrong, with no text: the input is a scenario, or a dump whose verdict is `lawful`.
/// It is 5 where there is a sentence, 1 where the buffer is too small for it, 4 where memory was refused.
#[unsafe(no_mangle)]
pub extern "C" fn cellar_explain(
    alloc: Global,
    input: &[u8],
    buffer: &mut [u8],
    told: &mut usize,
) -> u8
    ensures { AnswersText (TellsFault input.now) ⊥ buffer.old buffer.new told.new result }
{
    hand_out(fault_in(alloc, input), buffer, told)
}
