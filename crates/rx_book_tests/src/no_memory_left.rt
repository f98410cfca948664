//! Closings, and handing out, where no memory is left; and a book that is made, and one that ends, where one block is.

use super::probe::Probe;
use super::same::same;
use rx_book::{At, Key, LeaseKey, ResKey};
use rx_event::{Kind, Mode, Refusal, Terminal};
use rx_resource::Sample;
use rx_scarce::Scarce;
use std::alloc::{AllocError, Global};
use std::test::Fail;

// A call that takes no memory, on what it is made.
#[derive(Clone, Copy)]
enum Closing {
    Remove(ResKey),
    GiveBack(LeaseKey),
    Decline(Key),
    Fail(Key),
    End(Key),
    Abort(Key),
    Dispose(Key),
    Disconnect(u64),
    Take,
    TakeMail,
    ReleaseWaiting,
    Close,
}

// How many calls there are.
const CLOSINGS: usize = 12;

// Whether it is accepted, and does something.
fn is_done(book: &mut Probe<Sample>, closing: Closing) -> bool {
    match closing {
        Closing::Remove(res) => book.remove(res).is_ok(),
        Closing::GiveBack(lease) => book.give_back(lease).is_ok(),
        Closing::Decline(node) => book.decline(node).is_ok(),
        Closing::Fail(node) => book.fail(node, 1).is_ok(),
        Closing::End(node) => book.end(node, Terminal::Completed).is_ok(),
        Closing::Abort(node) => book.abort(node, 9).is_ok(),
        Closing::Dispose(node) => book.dispose(node).is_ok(),
        Closing::Disconnect(hub) => book.disconnect(hub).is_ok(),
        Closing::Take => book.take().is_some(),
        Closing::TakeMail => book.take_mail().is_some(),
        Closing::ReleaseWaiting => book.release_waiting().released > 0,
        Closing::Close => book.close().released > 0,
    }
}

// Whether a small block of memory can be had.
fn has_memory(alloc: Global) -> bool {
    let block: Result<Vec<u8>, AllocError> = Vec::with_capacity(alloc, 16);
    block.is_ok()
}

// Whether the call is done with no memory left before it. What it gives back is taken before the next.
fn is_done_with_none(alloc: Global, book: &mut Probe<Sample>, closing: Closing) -> bool {
    let Ok(_scarce) = Scarce::new(alloc) else {
        return false;
    };
    !has_memory(alloc) && is_done(book, closing)
}

// Emits items until one is refused, and answers why: then the room for closing everything is all that is
// left, of memory or within the limit.
fn fill(book: &mut Probe<Sample>, leaf: Key) -> Option<Refusal> {
    for _ in 0..1000 {
        if let Err(why) = book.next(leaf, 0) {
            return Some(why);
        }
    }
    None
}

// A FlatMap that owes two inner observables.
fn owing_two(book: &mut Probe<Sample>) -> Result<Key, Fail> {
    let flat = book.open(At::Root, Kind::Flat)?.key;
    let source = book.open(At::Source(flat), Kind::Leaf)?.key;
    book.next(source, 1)?;
    book.next(source, 2)?;
    Ok(flat)
}

// A root with a resource, and another node below it with one: the key of that node, and of the first resource.
fn using_two(book: &mut Probe<Sample>) -> Result<(Key, ResKey), Fail> {
    let above = book.open_using(At::Root, Sample::new(1))?;
    let below = book.open_using(At::Source(above.key), Sample::new(2))?;
    Ok((below.key, above.res))
}

// A hub that is connected by hand, and has a subscriber.
fn connected_by_hand(book: &mut Probe<Sample>) -> Result<u64, Fail> {
    let hub = book.hub(Mode::Manual)?;
    book.open(At::Root, Kind::Sub(hub))?;
    book.connect(hub)?;
    Ok(hub)
}

// A root that subscribes to a hub, whose source subscribes to another one, the only subscriber of each.
fn subscribed_twice(book: &mut Probe<Sample>) -> Result<Key, Fail> {
    let lower = book.hub(Mode::Auto)?;
    let upper = book.hub(Mode::Auto)?;
    let root = book.open(At::Root, Kind::Sub(upper))?;
    let connection = root.connected.ok_or("no connection")?;
    book.open(At::Source(connection), Kind::Sub(lower))?;
    Ok(root.key)
}

// A resource that waits, and another that is leased: its key, that of the lowest node, and the lease.
fn leased(book: &mut Probe<Sample>) -> Result<(Key, ResKey, LeaseKey), Fail> {
    let (lowest, removed) = using_two(book)?;
    let (_, waiting) = using_two(book)?;
    book.remove(waiting)?;
    let lease = book.lease(removed)?;
    Ok((lowest, removed, lease))
}

// Some of each kind of node, a resource that waits, and what is to be called, in turn or alone.
fn new_closings(book: &mut Probe<Sample>) -> Result<(Key, [Closing; CLOSINGS]), Fail> {
    let flat = owing_two(book)?;
    let hub = connected_by_hand(book)?;
    let _ = connected_by_hand(book)?;
    let disposed = subscribed_twice(book)?;
    let (lowest, removed, lease) = leased(book)?;
    let leaf = book.open(At::Root, Kind::Leaf)?.key;
    let closings = [
        Closing::Remove(removed),
        Closing::GiveBack(lease),
        Closing::Decline(flat),
        Closing::Fail(flat),
        Closing::Abort(lowest),
        Closing::Dispose(disposed),
        Closing::Disconnect(hub),
        Closing::Take,
        Closing::End(leaf),
        Closing::TakeMail,
        Closing::ReleaseWaiting,
        Closing::Close,
    ];
    Ok((leaf, closings))
}

// How many of them are done, each with no memory left.
fn done_of(alloc: Global, book: &mut Probe<Sample>, closings: [Closing; CLOSINGS]) -> u32 {
    let mut done = 0u32;
    for closing in closings {
        if is_done_with_none(alloc, book, closing) {
            done = done.wrapping_add(1);
        }
    }
    done
}

// Fills a book up to its limit with items, and makes the calls: why an item was refused, how many calls were done, and how
// many nodes are open then and resources were accepted and taken.
fn closed_full(
    alloc: Global,
    book: &mut Probe<Sample>,
) -> Result<(Option<Refusal>, u32, [u64; 3]), Fail> {
    let (leaf, closings) = new_closings(book)?;
    let why = fill(book, leaf);
    let done = done_of(alloc, book, closings);
    let totals = book.totals();
    Ok((
        why,
        done,
        [book.open_count(), totals.accepted, totals.taken],
    ))
}

#[test]
fn a_full_book_closes_and_hands_out_with_no_memory_left(rt: HostRuntime) -> Result<(), Fail> {
    let mut book = Probe::new(rt.alloc(), 64);
    let closed = closed_full(rt.alloc(), &mut book)?;
    same(&rt, closed, (Some(Refusal::Full), 12, [0, 4, 4]));
    Ok(())
}

// What the block has in bytes: more than any list here asks for as it grows.
const BLOCK: usize = 100_000;

// Whether a block of this many bytes can be had.
fn is_had(alloc: Global, bytes: usize) -> bool {
    let block: Result<Vec<u8>, AllocError> = Vec::with_capacity(alloc, bytes);
    block.is_ok()
}

// Leaves one block of memory, until it is dropped.
fn leave_one_block(alloc: Global) -> Result<Scarce, AllocError> {
    let block: Vec<u8> = Vec::with_capacity(alloc, BLOCK)?;
    let scarce = Scarce::new(alloc)?;
    drop(block);
    Ok(scarce)
}

// Whether a book is made, and asked for no memory: the block was never broken up, since it can be had, and no more once a
// small piece was asked for.
fn is_made_of_none(alloc: Global) -> Result<bool, Fail> {
    let _scarce = leave_one_block(alloc)?;
    let book: Probe<Sample> = Probe::new(alloc, 4000);
    let is_whole = is_had(alloc, BLOCK) && is_had(alloc, 64) && !is_had(alloc, BLOCK);
    Ok(is_whole && book.open_count() == 0)
}

// Does so where no memory is left.
fn fill_memory(
    alloc: Global,
    book: &mut Probe<Sample>,
    leaf: Key,
) -> Result<Option<Refusal>, AllocError> {
    let _scarce = Scarce::new(alloc)?;
    Ok(fill(book, leaf))
}

// Whether a small book is ended where its events and notes have room for that alone, and asked for no memory: the allocator
// keeps a piece of each list of that size that is given back, so that the block is not whole again.
fn is_ended_with_none(alloc: Global) -> Result<bool, Fail> {
    let mut book: Probe<Sample> = Probe::new(alloc, 100);
    let root = book.open_using(At::Root, Sample::new(9))?.key;
    let source = book.open(At::Source(root), Kind::Leaf)?.key;
    fill_memory(alloc, &mut book, source)?;
    let _scarce = leave_one_block(alloc)?;
    Ok(book.finish().released > 0 && is_had(alloc, BLOCK))
}

#[test]
fn a_book_asks_for_no_memory_as_it_is_made_and_as_it_ends(rt: HostRuntime) -> Result<(), Fail> {
    let are_met = [
        is_made_of_none(rt.alloc())?,
        is_ended_with_none(rt.alloc())?,
    ];
    assert!(rt; are_met == [true, true]);
    Ok(())
}
