//! More pieces for a list.

ghost use Rattle.std.specs.Prelude.{◌≡◌, ◌+◌, ◌<◌, ◌≤◌, All, min, length, vec_len, vec_capacity, OnOk};
ghost use Rattle.rx_segments.specs.Kept.{IsEmptyPiece, AreKept, items_in, room_in};

use std::alloc::{AllocError, Global};
use std::mem;

/// How many items a piece takes.
pub(crate) const PIECE: usize = 4096;

// How many items the first piece has room for at first.
const FEWEST: usize = 8;

// The most items, 2^40, so that their count is a number.
const MOST: usize = 1_099_511_627_776;

/// Begins the next piece.
#[cold]
#[inline(never)]
pub(crate) fn begin<T>(full: &mut Vec<Vec<T>>, last: &mut Vec<T>, spare: &mut Vec<Vec<T>>)
    requires kept { AreKept full.old last.old spare.old }
    requires full { vec_len last.old ≡ 4096 }
    requires spare { 0 < vec_len spare.old }
    ensures kept { AreKept full.new last.new spare.new }
    ensures items { items_in full.new last.new ≡ items_in full.old last.old }
    ensures room { room_in last.new spare.new ≡ room_in last.old spare.old }
    ensures place { vec_len last.new < vec_capacity last.new }
{
    let piece = spare.pop().unwrap();
    let before = mem::replace(last, piece);
    full.push_reserved(before);
}

/// Gets room for `n` more, where there is not as much.
#[cold]
#[inline(never)]
pub(crate) fn widen<T>(
    full: &mut Vec<Vec<T>>,
    last: &mut Vec<T>,
    spare: &mut Vec<Vec<T>>,
    n: usize,
) -> Result<(), AllocError>
    requires kept { AreKept full.old last.old spare.old }
    requires short { room_in last.old spare.old < n }
    ensures kept { AreKept full.new last.new spare.new }
    ensures items { items_in full.new last.new ≡ items_in full.old last.old }
    ensures more { room_in last.old spare.old ≤ room_in last.new spare.new }
    ensures ok { OnOk result (n ≤ room_in last.new spare.new) }
{
    let count = PIECE * full.len() + last.len();
    if n > MOST.saturating_sub(count) {
        return Err(AllocError);
    }
    widen_last(last, n)?;
    add_pieces(full, last, spare, n)
}

// Lets the last piece have room for so many more, or for as many as a piece takes.
fn widen_last<T>(last: &mut Vec<T>, n: usize) -> Result<(), AllocError>
    requires most { vec_capacity last.old ≤ 4096 }
    requires within { n ≤ 1099511627776 }
    ensures items { last.new.items ≡ last.old.items }
    ensures len { vec_len last.new ≡ vec_len last.old }
    ensures more { vec_capacity last.old ≤ vec_capacity last.new }
    ensures most { vec_capacity last.new ≤ 4096 }
    ensures ok { OnOk result (min 4096 (vec_len last.new + n) ≤ vec_capacity last.new) }
{
    let wanted = (last.len() + n).min(PIECE);
    let had = last.capacity();
    if wanted <= had {
        return Ok(());
    }
    let capacity = wanted.max(2 * had).max(FEWEST).min(PIECE);
    last.reserve_exact(capacity - last.len())
}

// Adds empty pieces for so many more, where the last one is not enough.
fn add_pieces<T>(
    full: &mut Vec<Vec<T>>,
    last: &Vec<T>,
    spare: &mut Vec<Vec<T>>,
    n: usize,
) -> Result<(), AllocError>
    requires kept { AreKept full.old last.now spare.old }
    requires some { 0 < n }
    requires within { length (items_in full.old last.now) + n ≤ 1099511627776 }
    requires wide { min 4096 (vec_len last.now + n) ≤ vec_capacity last.now }
    ensures kept { AreKept full.new last.now spare.new }
    ensures items { full.new.items ≡ full.old.items }
    ensures more { vec_len spare.old ≤ vec_len spare.new }
    ensures ok { OnOk result (n ≤ room_in last.now spare.new) }
{
    let count = (last.len() + n - 1) / PIECE;
    if count <= spare.len() {
        return Ok(());
    }
    full.reserve(count)?;
    let alloc = *full.allocator();
    fill(alloc, spare, count)
}

// Adds empty pieces until there are so many.
fn fill<T>(alloc: Global, spare: &mut Vec<Vec<T>>, count: usize) -> Result<(), AllocError>
    requires few { vec_len spare.old ≤ count }
    requires empty { All IsEmptyPiece spare.old.items }
    ensures empty { All IsEmptyPiece spare.new.items }
    ensures more { vec_len spare.old ≤ vec_len spare.new }
    ensures most { vec_len spare.new ≤ count }
    ensures ok { OnOk result (vec_len spare.new ≡ count) }
{
    while spare.len() < count {
        spare.reserve(1)?;
        let piece = Vec::with_capacity(alloc, PIECE)?;
        spare.push_reserved(piece);
    }
    Ok(())
}
