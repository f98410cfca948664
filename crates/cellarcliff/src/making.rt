//! An engine from its beginning to its end.

ghost use Rattle.std.specs.Prelude.{◌≡◌, None};
ghost use Rattle.cellarcliff.specs.Calls.{IsMade, IsFinished, size_of};

use crate::handle::CellarHandle;
use rx_cellar::{DONE, HELD, NO_MEMORY, NOTHING_KEPT, UNTAKEN};
use rx_turns::Turns;
use std::alloc::Global;

// The number of the header.
const ABI: u32 = 196_608;

/// The number of the header that the library was built for.
#[unsafe(no_mangle)]
pub extern "C" fn cellar_abi() -> u32
    ensures { result ≡ 196608 }
{
    ABI
}

/// The size in bytes of a struct of the header, 0 for a number that is none.
#[unsafe(no_mangle)]
pub extern "C" fn cellar_size(which: u32) -> u32
    ensures { result ≡ size_of which }
{
    match which {
        0 => 8,
        1 => 64,
        3 => 32,
        4 => 64,
        5 => 32,
        6 => 24,
        7 => 192,
        _ => 0,
    }
}

/// Makes an engine in a handle that keeps nothing.
#[unsafe(no_mangle)]
pub extern "C" fn cellar_new(alloc: Global, handle: &mut CellarHandle, max_events: u32) -> u8
    ensures { IsMade max_events handle.old.kept handle.new.kept result }
{
    if let Some(kept) = handle.take(alloc) {
        handle.put(kept);
        return HELD;
    }
    match Box::new(alloc, Turns::new(alloc, max_events)) {
        Ok(kept) => {
            handle.put(kept);
            DONE
        }
        Err(_) => NO_MEMORY,
    }
}

/// Frees the engine if nothing is open or held and no effect waits. Else nothing is done, and the status is 6.
#[unsafe(no_mangle)]
pub extern "C" fn cellar_finish(alloc: Global, handle: &mut CellarHandle) -> u8
    ensures { IsFinished handle.old.kept handle.new.kept result }
{
    let Some(kept) = handle.take(alloc) else {
        return NOTHING_KEPT;
    };
    if !kept.cellar.is_done() {
        handle.put(kept);
        return UNTAKEN;
    }
    DONE
}

/// Frees whatever the handle keeps.
#[unsafe(no_mangle)]
pub extern "C" fn cellar_drop(alloc: Global, handle: &mut CellarHandle)
    ensures { handle.new.kept ≡ None }
{
    let _kept = handle.take(alloc);
}
