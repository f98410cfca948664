//! The program over any streams.
ghost use Rattle.std.specs.Prelude.{◌≡◌, ◌≢◌, ◌≤◌, ◌⊎◌, ℕ, [], Bool, None, IsSomeAnd, map, vec_len, Result};
ghost use Rattle.std.specs.List.{All};
ghost use Rattle.clap.specs.Words.{IsAmong, fault_of};
ghost use Rattle.clap.specs.declared.error.kind.ErrorKind.{ErrorKind};
ghost use Rattle.rx_device.specs.declared.fault.ScriptError.{ScriptError};
ghost use Rattle.rx_resource.specs.declared.Life.{Life};
ghost use Rattle.rx_storm.specs.declared.StormFault.{StormFault};
ghost use Rattle.rx_cli.specs.declared.request.Asked.{Asked};
ghost use Rattle.rx_cli.specs.declared.request.Order.{Order};
ghost use Rattle.rx_cli.specs.Words.{rxbook, Orders};
ghost use Rattle.rx_device.specs.Device.{IsUnasked, KeepsDevice};
ghost use Rattle.rx_script.specs.Stage.{ware_of};
ghost use Rattle.rx_cli.specs.Served.{IsAnswered, TellsOutcome, Stormed, TellsStorm, LacksMemory, RefusedBy};

use crate::answering::answer;
use crate::request::Order;
use crate::statuses::{ended_with, out_of_memory, weathered};
use crate::usage::refuse;
use crate::words::order;
use clap::error::ErrorKind;
use rx_crew::Gate;
use rx_device::Watched;
use rx_resource::Resource;
use rx_storm::storm;
use std::alloc::Global;
use std::convert::AsStr;
use std::io::{Read, Write};
use std::sync::Wait;
use std::thread::Threads;

/// A gate that does nothing.
struct Open;

impl Gate for Open {
    fn before(&self, _number: u64) {}

    fn after(&self, _number: u64) {}
}

/// Does what the words order, over these streams and with this stock, and answers the exit status. The
/// first word is the program's name. None comes where they order a live book: then nothing is done, and [`keep`] keeps it
/// over streams of its own.
///
/// What is asked of an input is written to `output`, or a front of it where `output` fails, or nothing: the report of
/// the scenario that `input` has left, its trace, or its dump, alone or with its names; the verdict on the history of
/// which it has a dump left, alone or beside names, with the names where the words ask for them; the picture of that; or a
/// sentence on an input that the program does not accept. A storm writes its figures, or a front of them, or nothing, and
/// reads nothing. Neither stream was used through its watch before.
///
/// The status of what is asked is 0 where it is done, 1 where a stream failed, 3 where the input is no scenario, or no dump,
/// 4 where memory was refused. An audit's is 5 where the verdict is another than lawful, and an explanation's 3 where the
/// program does not accept the input. A storm's is 0 where its threads agree with the
/// book, 5 where they do not, 4 where memory was refused, and else 1 where the output failed or a thread could
/// not be started. Words that `clap` refuses give 2, and a request for help or for the version 0, or 1 where the
/// output refuses its text, or 4 where memory is refused for it; then nothing is read. Each status but 0, and 5
/// of an audit, and 3 of an explanation, comes with its line on `errors`; what `errors` refuses is lost, and the status stays.
///
/// A storm may wait for its threads; nothing else does.
///
/// [`keep`]: crate::keep
pub fn serve<T: Threads + Wait + Sync, S: AsStr, R: Resource, I: Read, O: Write, E: Write>(
    rt: &T,
    alloc: Global,
    words: &[S],
    stock: Vec<R>,
    input: &mut Watched<'_, I>,
    output: &mut Watched<'_, O>,
    errors: &mut Watched<'_, E>,
) -> Option<u8>
    requires input { IsUnasked input.old }
    requires output { IsUnasked output.old }
    requires stock { 64 ≤ vec_len stock }
    requires live { All (λ r. R.life_of r ≡ Life.Live) stock.items }
    requires unused { All (λ r. R.uses_of r ≡ 0) stock.items }

    ensures answered { (asked : Asked) → Orders (map S.text words.now) (Order.Say asked)
        → (outcome : Result ℕ ScriptError)
        × IsAnswered I.remaining O.contents (map (ware_of R.Resource) stock.items) asked
        input.old input.new output.old output.new outcome
        × IsSomeAnd result (TellsOutcome E.contents errors.old errors.new outcome) }
    ensures left { Orders (map S.text words.now) Order.Live
        → (input.new ≡ input.old) × (output.new ≡ output.old) × (((result ≡ None) × (errors.new ≡ errors.old))
        ⊎ IsSomeAnd result (LacksMemory O.contents E.contents output.old output.new errors.old errors.new)) }
    ensures stormed { (sources workers items : ℕ) → Orders (map S.text words.now) (Order.Storm sources workers items)
        → (outcome : Result Bool StormFault)
        × Stormed O.contents output.old output.new outcome
        × IsSomeAnd result (TellsStorm E.contents errors.old errors.new outcome) }
    ensures needs_no_input { (sources workers items : ℕ)
        → Orders (map S.text words.now) (Order.Storm sources workers items)
        → input.new ≡ input.old }

    ensures refused { fault_of rxbook (map S.text words.now) ≢ []
        → (k : ErrorKind)
        × ((k ≡ ErrorKind.OutOfMemory) ⊎ IsAmong k (fault_of rxbook (map S.text words.now)))
        × IsSomeAnd result (λ status.
        RefusedBy O.contents E.contents output.old output.new errors.old errors.new status k) }
    ensures unread { fault_of rxbook (map S.text words.now) ≢ [] → input.new ≡ input.old }

    ensures same_input { KeepsDevice input.old input.new }
    ensures same_output { KeepsDevice output.old output.new }
    ensures same_errors { KeepsDevice errors.old errors.new }
{
    match order(alloc, words) {
        Ok(Order::Say(asked)) => {
            let mut why = String::new(alloc);
            let outcome = answer(alloc, asked, stock, input, output, &mut why);
            Some(ended_with(alloc, errors, outcome, why.as_str()))
        }
        Ok(Order::Live) => None,
        Ok(
            Order::Storm {
                sources,
                workers,
                items,
            },
        ) => {
            let outcome = storm(rt, alloc, sources, workers, items, stock, &Open, output);
            Some(weathered(errors, outcome))
        }
        Err(error) => {
            if error.kind() == ErrorKind::OutOfMemory {
                return Some(out_of_memory(errors));
            }
            Some(refuse(alloc, &error, output, errors))
        }
    }
}
