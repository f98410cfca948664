//! How both kinds of store get room for more.

ghost use Rattle.std.specs.Prelude.{◌≡◌, ◌+◌, ◌-◌, ◌<◌, ◌≤◌, ◌^◌, ◌++◌, length, replicate, vec_capacity, IfOk, None};
ghost use Rattle.rx_slots.specs.Kept.{Fits};
ghost use Rattle.slab.specs.Slab.{HasRoomFor};

use slab::Slab;
use std::alloc::AllocError;

/// How many slots a store uses at most, so that a link may keep one in 29 bits.
pub const MOST_SLOTS: usize = 536_870_912;

// Gets room for so many values more, and answers how many values fit then. Growing may copy all values, so it
// is done rarely: eightfold, where there is memory for that.
pub(crate) fn grow<C>(
    cells: &mut Vec<C>,
    free: &mut Vec<u32>,
    capacity: usize,
    additional: usize,
) -> Result<usize, AllocError>
    requires fits { Fits cells.old.items free.old.items capacity (vec_capacity cells.old) (vec_capacity free.old) }
    ensures cells { cells.new.items ≡ cells.old.items }
    ensures free { free.new.items ≡ free.old.items }
    ensures still { Fits cells.new.items free.new.items capacity (vec_capacity cells.new) (vec_capacity free.new) }
    ensures fits { IfOk result (λ more.
        Fits cells.new.items free.new.items more (vec_capacity cells.new) (vec_capacity free.new)) }
    ensures wider { IfOk result (λ more. capacity ≤ more) }
    ensures enough { IfOk result (λ more. length cells.old.items + additional ≤ more + length free.old.items) }
{
    let more = (cells.len() - free.len()).saturating_mul(7);
    if additional < more {
        if let Ok(eightfold) = extend(cells, free, capacity, more) {
            return Ok(eightfold);
        }
    }
    extend(cells, free, capacity, additional)
}

// Gets room for so many values more, or for as many as fit the memory that this takes, and for as many
// free slots as there can be then.
fn extend<C>(
    cells: &mut Vec<C>,
    free: &mut Vec<u32>,
    capacity: usize,
    additional: usize,
) -> Result<usize, AllocError>
    requires fits { Fits cells.old.items free.old.items capacity (vec_capacity cells.old) (vec_capacity free.old) }
    ensures cells { cells.new.items ≡ cells.old.items }
    ensures free { free.new.items ≡ free.old.items }
    ensures still { Fits cells.new.items free.new.items capacity (vec_capacity cells.new) (vec_capacity free.new) }
    ensures fits { IfOk result (λ more.
        Fits cells.new.items free.new.items more (vec_capacity cells.new) (vec_capacity free.new)) }
    ensures wider { IfOk result (λ more. capacity ≤ more) }
    ensures enough { IfOk result (λ more. length cells.old.items + additional ≤ more + length free.old.items) }
{
    let len = cells.len() - free.len();
    if additional > MOST_SLOTS - len {
        return Err(AllocError);
    }
    let wanted = capacity.max(len + additional);
    cells.reserve(wanted - cells.len())?;
    let more = cells.capacity().min(MOST_SLOTS);
    free.reserve(more - free.len())?;
    Ok(more)
}

// A copy of these keys, with room for so many more. A slab tells its capacity only once it has grown, and one that has
// grown past the most slots is of no use: so it is the copy that grows, and a refusal leaves the keys as they were.
pub(crate) fn wider(keys: &Slab<()>, additional: usize) -> Result<Slab<()>, AllocError>
    ensures slots { IfOk result (λ more. more.slots ≡ keys.now.slots) }
    ensures vacant_key { IfOk result (λ more. more.vacant_key ≡ keys.now.vacant_key) }
    ensures room { IfOk result (λ more. HasRoomFor more additional) }
    ensures most { IfOk result (λ more. more.capacity ≤ 2 ^ 29) }
{
    let mut more = keys.clone()?;
    more.reserve_exact(additional)?;
    if more.capacity() > MOST_SLOTS {
        return Err(AllocError);
    }
    Ok(more)
}

// Adds cells of nothing until there is one at a slot. There is room for them.
#[inline(always)]
pub(crate) fn fill<C>(cells: &mut Vec<Option<C>>, slot: usize)
    requires room { slot < vec_capacity cells.old }
    ensures items { cells.new.items ≡ cells.old.items ++ replicate (slot + 1 - length cells.old.items) None }
    ensures capacity { vec_capacity cells.new ≡ vec_capacity cells.old }
{
    while cells.len() <= slot {
        cells.push_reserved(None);
    }
}
