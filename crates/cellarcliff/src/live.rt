//! A live book behind a handle.

ghost use Rattle.std.specs.Prelude.{◌≡◌};
ghost use Rattle.cellarcliff.specs.LiveCalls.{IsLiveMade, IsSent, IsAnswerRead, IsEnded};
ghost use Rattle.cellarcliff.specs.Stages.{stage, absent};

use crate::kept::boxed;
use crate::live_handle::LiveHandle;
use crate::live_status::{DONE, HELD, NOTHING_KEPT, OUT_OF_MEMORY};
use rx_live::Live;
use std::alloc::Global;

/// Makes a live book, in which nothing is open and no name is bound. Its history may have `max_events` since
/// its last checkpoint.
///
/// The status is 0 where it is made, 4 where memory was refused, 5 where the handle keeps something
/// already; with 4 and 5 nothing was made.
#[unsafe(no_mangle)]
pub extern "C" fn cellar_live_new(alloc: Global, handle: &mut LiveHandle, max_events: u32) -> u8
    ensures { IsLiveMade max_events (stage handle.old.kept) (stage handle.new.kept) result }
{
    if let Some(kept) = handle.take(alloc) {
        handle.put(kept, alloc);
        return HELD;
    }
    let Ok(live) = Live::new(alloc, max_events.into()) else {
        return OUT_OF_MEMORY;
    };
    match boxed(alloc, live) {
        Ok(kept) => {
            handle.put(kept, alloc);
            DONE
        }
        Err(_) => OUT_OF_MEMORY,
    }
}

/// Sends a line, once, and writes its answer to the front of `buffer`; `told` gets its length. Where the
/// buffer is too small the answer waits for [`cellar_live_read`].
///
/// The status is 0 where the answer was written, 1 where it waits, 2 where the handle keeps nothing, 3
/// where an answer waits already, 4 where memory was refused; with 2, 3 and 4 the line was not taken,
/// but with 4 the book may have made a checkpoint.
#[unsafe(no_mangle)]
pub extern "C" fn cellar_live_send(
    alloc: Global,
    handle: &mut LiveHandle,
    line: &[u8],
    buffer: &mut [u8],
    told: &mut usize,
) -> u8
    ensures { IsSent (stage handle.old.kept) (stage handle.new.kept) line.now buffer.old buffer.new told.new result }
{
    *told = 0;
    let Some(mut kept) = handle.take(alloc) else {
        return NOTHING_KEPT;
    };
    let status = kept.send(line, buffer, told);
    handle.put(kept, alloc);
    status
}

/// Writes the answer that waits to the front of `buffer`; `told` gets its length. After the last answer of
/// a book the handle keeps nothing.
///
/// The status is 0 where it was written, 1 where the buffer is too small and it waits on, 2 where the
/// handle keeps nothing, 6 where nothing waits.
#[unsafe(no_mangle)]
pub extern "C" fn cellar_live_read(
    alloc: Global,
    handle: &mut LiveHandle,
    buffer: &mut [u8],
    told: &mut usize,
) -> u8
    ensures { IsAnswerRead (stage handle.old.kept) (stage handle.new.kept) buffer.old buffer.new told.new result }
{
    *told = 0;
    let Some(mut kept) = handle.take(alloc) else {
        return NOTHING_KEPT;
    };
    let (status, is_over) = kept.read(buffer, told);
    if !is_over {
        handle.put(kept, alloc);
    }
    status
}

/// Ends the book, and writes its last answer to the front of `buffer`; `told` gets its length. The handle
/// keeps nothing afterwards, but where the buffer is too small that answer waits for [`cellar_live_read`].
///
/// The status is 0 where the answer was written, 1 where it waits, 2 where the handle keeps nothing, 3
/// where an answer waits already, 4 where memory was refused; with 2, 3 and 4 nothing was ended.
#[unsafe(no_mangle)]
pub extern "C" fn cellar_live_end(
    alloc: Global,
    handle: &mut LiveHandle,
    buffer: &mut [u8],
    told: &mut usize,
) -> u8
    ensures { IsEnded (stage handle.old.kept) (stage handle.new.kept) buffer.old buffer.new told.new result }
{
    *told = 0;
    let Some(mut kept) = handle.take(alloc) else {
        return NOTHING_KEPT;
    };
    let (status, is_over) = kept.end(buffer, told);
    if !is_over {
        handle.put(kept, alloc);
    }
    status
}

/// Gives back the memory of all that the handle keeps, whatever it is. Nothing is told of it: what the
/// book holds is for its caller to release.
#[unsafe(no_mangle)]
pub extern "C" fn cellar_live_drop(alloc: Global, handle: &mut LiveHandle)
    ensures { stage handle.new.kept ≡ absent }
{
    let _kept = handle.take(alloc);
}
