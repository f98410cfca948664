//! Many nodes are closed where no memory is left.

use super::probe::Probe;
use super::same::same;
use rx_book::{At, Key};
use rx_event::Kind;
use rx_resource::Sample;
use rx_scarce::Scarce;
use std::alloc::Global;
use std::test::Fail;

// A chain of nodes, each at the source of the one before. Its first.
fn chain(book: &mut Probe<Sample>, count: u32) -> Result<Key, Fail> {
    let top = book.open(At::Root, Kind::Pass)?.key;
    let mut above = top;
    for _ in 1..count {
        above = book.open(At::Source(above), Kind::Pass)?.key;
    }
    Ok(top)
}

// Disposes of a root with no memory left.
fn dispose_without(alloc: Global, book: &mut Probe<Sample>, root: Key) -> Result<u64, Fail> {
    let _scarce = Scarce::new(alloc)?;
    Ok(book.dispose(root)?)
}

#[test]
fn a_hundred_thousand_nodes_are_closed_with_no_memory_left(rt: HostRuntime) -> Result<(), Fail> {
    let mut book = Probe::new(rt.alloc(), 1_000_000);
    let top = chain(&mut book, 100_000)?;
    let other = book.open(At::Root, Kind::Leaf)?.key;
    let place = dispose_without(rt.alloc(), &mut book, top)?;
    same(&rt, (place, book.totals().len), (100_001, 100_002));
    same(&rt, (book.open_count(), book.open_root()), (1, Some(other)));
    Ok(())
}
