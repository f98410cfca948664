//! What an engine has, and its history.

ghost use Rattle.std.specs.Prelude.{◌≡◌};
ghost use Rattle.rx_cellar.specs.Readings.{no_totals};
ghost use Rattle.rx_cellar.specs.EventsShown.{no_event};
ghost use Rattle.cellarcliff.specs.Calls.{IsLooked, IsTotalled, IsEventAnswered};
ghost use Rattle.cellarcliff.specs.Answers.{TellsNoText};
ghost use Rattle.cellarcliff.specs.Dumps.{IsHandedOver};

use crate::dumping::dump_to;
use crate::handle::CellarHandle;
use rx_cellar::{DONE, Event, NOTHING_KEPT, Totals, no_event, no_totals};
use std::alloc::Global;

/// What there is.
#[unsafe(no_mangle)]
pub extern "C" fn cellar_totals(alloc: Global, handle: &mut CellarHandle, totals: &mut Totals) -> u8
    ensures { IsLooked (λ s n. IsTotalled s totals.new n) (totals.new ≡ no_totals) handle.old.kept handle.new.kept result }
{
    let Some(kept) = handle.take(alloc) else {
        *totals = no_totals();
        return NOTHING_KEPT;
    };
    *totals = kept.cellar.totals();
    handle.put(kept);
    DONE
}

/// The event at a place, if it is one since the last checkpoint; the status is 2 where it is none.
#[unsafe(no_mangle)]
pub extern "C" fn cellar_event(
    alloc: Global,
    handle: &mut CellarHandle,
    place: u64,
    event: &mut Event,
) -> u8
    ensures { IsLooked (λ s n. IsEventAnswered place s event.new n) (event.new ≡ no_event) handle.old.kept handle.new.kept result }
{
    let Some(kept) = handle.take(alloc) else {
        *event = no_event();
        return NOTHING_KEPT;
    };
    let status = kept.cellar.event(place, event);
    handle.put(kept);
    status
}

/// Writes the history so far as a dump to the front of `buffer`; `told` gets its length. The status is 7 where the
/// buffer is too small, 8 where a checkpoint took events away, 4 where memory was refused.
#[unsafe(no_mangle)]
pub extern "C" fn cellar_dump(
    alloc: Global,
    handle: &mut CellarHandle,
    buffer: &mut [u8],
    told: &mut u64,
) -> u8
    ensures { IsLooked (λ s n. IsHandedOver s.engine.book buffer.old buffer.new told.new n) (TellsNoText buffer.old buffer.new told.new)
        handle.old.kept handle.new.kept result }
{
    let Some(kept) = handle.take(alloc) else {
        *told = 0;
        return NOTHING_KEPT;
    };
    let status = dump_to(&kept.cellar, alloc, buffer, told);
    handle.put(kept);
    status
}
