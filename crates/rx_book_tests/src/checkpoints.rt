//! A checkpoint that is refused memory, until it is there.

use super::probe::Probe;
use rx_book::At;
use rx_event::Refusal;
use rx_resource::Sample;
use rx_scarce::{MOST_BLOCKS, Scarce};
use std::alloc::Global;
use std::test::Fail;

// Opens roots, each with a resource.
fn fill(book: &mut Probe<Sample>) -> Result<(), Fail> {
    for tag in 0..40 {
        book.open_using(At::Root, Sample::new(tag))?;
    }
    Ok(())
}

// Makes a checkpoint again and again, each time with one more block of memory, until it is made: its place, and how often it
// was refused before. None where it was refused to the end, or for another cause, or where a refusal changed something.
fn made_at_last(book: &mut Probe<Sample>, scarce: &mut Scarce) -> Option<(u64, usize)> {
    let before = book.totals();
    for refusals in 0..MOST_BLOCKS {
        match book.checkpoint() {
            Ok(place) => return Some((place, refusals)),
            Err(Refusal::NoMemory) => {}
            Err(_) => return None,
        }
        if book.totals() != before || !scarce.give_back_one() {
            return None;
        }
    }
    None
}

// Whether a checkpoint of such a book is refused first, and is made in the end where the history stands.
fn is_refused_first(alloc: Global, book: &mut Probe<Sample>) -> Result<bool, Fail> {
    fill(book)?;
    let len = book.totals().len;
    let mut scarce = Scarce::new(alloc)?;
    match made_at_last(book, &mut scarce) {
        Some((place, refusals)) => Ok(place == len && refusals > 0),
        None => Ok(false),
    }
}

#[test]
fn a_checkpoint_that_is_refused_memory_changes_nothing(rt: HostRuntime) -> Result<(), Fail> {
    let mut book = Probe::new(rt.alloc(), 1000);
    assert!(rt; is_refused_first(rt.alloc(), &mut book)?);
    Ok(())
}
