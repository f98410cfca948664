//! Lists that ask for room: refused in turn until it is there, and met by just what they need.

use crate::same::same;
use rx_event::{History, Refusal};
use rx_resource::Sample;
use rx_scarce::{MOST_BLOCKS, Scarce};
use rx_slots::{Records, Slots};
use std::alloc::{AllocError, Global};
use std::test::Fail;

// What asks for room.
#[derive(Clone, Copy)]
enum Asking {
    History,
    Slots,
    Insert,
}

// A history, and slots that are full: the first to be put in gets room for four.
struct Lists {
    history: History,
    slots: Slots<u64>,
}

impl Drop for Lists {
    fn drop(self) {
        let Lists {
            history: _history,
            slots: _slots,
        } = self;
    }
}

fn full_lists(alloc: Global) -> Result<Lists, Fail> {
    let mut slots = Slots::new(alloc);
    for number in 0..4 {
        if slots.insert(number, number).is_err() {
            return Err(Fail::from("there is no memory"));
        }
    }
    Ok(Lists {
        history: History::new(alloc, 2),
        slots,
    })
}

// Whether it is refused memory. Err for another refusal, or where the value that comes back is another.
fn is_refused(lists: &mut Lists, asking: Asking) -> Result<bool, Fail> {
    match asking {
        Asking::History => match lists.history.reserve(2) {
            Ok(()) => Ok(false),
            Err(Refusal::NoMemory) => Ok(true),
            Err(_) => Err(Fail::from("it is refused for another cause")),
        },
        Asking::Slots => Ok(lists.slots.reserve(40).is_err()),
        Asking::Insert => match lists.slots.insert(9, 90) {
            Ok(_) => Ok(false),
            Err(90) => Ok(true),
            Err(_) => Err(Fail::from("another value comes back")),
        },
    }
}

// How often it is refused, with one more block of memory each time.
fn refusals(alloc: Global, asking: Asking) -> Result<usize, Fail> {
    let mut lists = full_lists(alloc)?;
    let mut scarce = Scarce::new(alloc)?;
    for refusals in 0..MOST_BLOCKS {
        if !is_refused(&mut lists, asking)? {
            return Ok(refusals);
        }
        if !scarce.give_back_one() {
            break;
        }
    }
    Err(Fail::from("it is refused to the end"))
}

#[test]
fn room_is_refused_in_turn_and_then_had(rt: HostRuntime) -> Result<(), Fail> {
    for asking in [Asking::History, Asking::Slots, Asking::Insert] {
        assert!(rt; refusals(rt.alloc(), asking)? > 0);
    }
    Ok(())
}

// Four records, for which there is no more room.
fn four_records(alloc: Global) -> Result<Records<Sample>, AllocError> {
    let mut records = Records::new(alloc);
    for number in 0..4 {
        records.insert(number, Sample::new(number))?;
    }
    Ok(records)
}

// Whether there is room for one more beside those where one block of so many bytes is left.
fn has_room(
    alloc: Global,
    records: &mut Records<Sample>,
    bytes: usize,
) -> Result<bool, AllocError> {
    let block: Vec<u8> = Vec::with_capacity(alloc, bytes)?;
    let _scarce = Scarce::new(alloc)?;
    drop(block);
    Ok(records.reserve(1).is_ok())
}

// So beside four.
fn is_met_by(alloc: Global, bytes: usize) -> Result<bool, AllocError> {
    let mut records = four_records(alloc)?;
    has_room(alloc, &mut records, bytes)
}

// Growing eightfold takes room for 32 records, of 40 bytes each, and for as many free slots, of 4 bytes, and numbers, of 8.
// The larger block has room for the first two, and beside them for 8 numbers and not for 32.
#[test]
fn a_growth_whose_last_list_finds_too_little_takes_what_it_needs(
    rt: HostRuntime,
) -> Result<(), Fail> {
    let are_met = [is_met_by(rt.alloc(), 1_400)?, is_met_by(rt.alloc(), 1_600)?];
    same(&rt, are_met, [false, true]);
    Ok(())
}
