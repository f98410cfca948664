//! Just the memory that a call needs where much is open, held or told already: one of its lists is full, and
//! grows to twice its size.

use super::probe::Probe;
use rx_book::{At, Key, ResKey};
use rx_event::{Kind, Refusal};
use rx_ground::{Ground, Wanted};
use rx_resource::Sample;
use rx_scarce::Scarce;
use std::alloc::{AllocError, Global};
use std::process::Abort;
use std::test::Fail;

// A call, on what it asks.
#[derive(Clone, Copy)]
enum Asking {
    Open,
    OpenUsing,
    Hold(Key),
    Apply(ResKey),
    Next(Key),
}

// Why it is refused, if it is.
fn refusal(book: &mut Probe<Sample>, asking: Asking) -> Option<Refusal> {
    match asking {
        Asking::Open => book.open(At::Root, Kind::Pass).err(),
        Asking::OpenUsing => match book.open_using(At::Root, Sample::new(7)) {
            Ok(_) => None,
            Err(back) => Some(back.why),
        },
        Asking::Hold(node) => match book.hold(node, Sample::new(7)) {
            Ok(_) => None,
            Err(back) => Some(back.why),
        },
        Asking::Apply(res) => book.apply(res, 1).err(),
        Asking::Next(leaf) => book.next(leaf, 1).err(),
    }
}

// For how much there is room in the memory that is left.
#[derive(Clone, Copy)]
struct Room {
    events: u32,
    notes: u32,
    nodes: usize,
    resources: usize,
}

const NONE: Room = Room {
    events: 0,
    notes: 0,
    nodes: 0,
    resources: 0,
};

// The memory for that room, until it is dropped.
struct Memory {
    ground: Ground<Sample>,
}

impl Drop for Memory {
    fn drop(self) {
        let Memory { ground: _ground } = self;
    }
}

fn memory_for(alloc: Global, room: Room) -> Result<Memory, AllocError> {
    let mut ground = Ground::new(alloc, u64::from(u32::MAX));
    ground.reserve(Wanted {
        events: u64::from(room.events),
        notes: u64::from(room.notes),
        nodes: room.nodes,
        resources: room.resources,
        hubs: 0,
        leases: 0,
    })?;
    Ok(Memory { ground })
}

// A list that is full, while the others have room for one more.
#[derive(Clone, Copy)]
enum Full {
    Events,
    Notes,
    Nodes,
    NodesUsing,
    Resources,
}

// A call for which that list has to grow.
fn fill(book: &mut Probe<Sample>, full: Full) -> Result<Asking, Fail> {
    match full {
        Full::Events => fill_events(book),
        Full::Notes => fill_notes(book),
        Full::Nodes => fill_nodes(book, Asking::Open),
        Full::NodesUsing => fill_nodes(book, Asking::OpenUsing),
        Full::Resources => fill_resources(book),
    }
}

// Room for 8 events, then 16, 32 and so on: 256 are the opening and its resource, 251 uses, and what
// closing both needs.
fn fill_events(book: &mut Probe<Sample>) -> Result<Asking, Fail> {
    let res = book.open_using(At::Root, Sample::new(1))?.res;
    for _ in 0..251 {
        book.apply(res, 1)?;
    }
    Ok(Asking::Apply(res))
}

// Room for 4 notes, then 8, 16 and so on: 64 are those of 63 items and of the end.
fn fill_notes(book: &mut Probe<Sample>) -> Result<Asking, Fail> {
    let leaf = book.open(At::Root, Kind::Leaf)?.key;
    emit(book, leaf, 63)?;
    Ok(Asking::Next(leaf))
}

// Room for 4 nodes or resources, then 32: eight times as many, and twice as many where that is refused.
fn fill_nodes(book: &mut Probe<Sample>, asking: Asking) -> Result<Asking, Fail> {
    let leaf = book.open(At::Root, Kind::Leaf)?.key;
    emit(book, leaf, 200)?;
    for _ in 1..32 {
        book.open(At::Root, Kind::Pass)?;
    }
    Ok(asking)
}

fn fill_resources(book: &mut Probe<Sample>) -> Result<Asking, Fail> {
    let leaf = book.open(At::Root, Kind::Leaf)?.key;
    emit(book, leaf, 200)?;
    for tag in 0..32 {
        book.hold(leaf, Sample::new(tag))?;
    }
    Ok(Asking::Hold(leaf))
}

// Items give events and notes more room than the calls after them need.
fn emit(book: &mut Probe<Sample>, leaf: Key, count: u32) -> Result<(), Fail> {
    for _ in 0..count {
        book.next(leaf, 1)?;
    }
    Ok(())
}

// Whether the call is done where memory for this room is all that is left. What is freed meanwhile lies
// elsewhere, since that memory is taken first.
fn is_done_with(alloc: Global, full: Full, room: Room) -> Result<bool, Fail> {
    let memory = memory_for(alloc, room)?;
    let mut book = Probe::new(alloc, 1000);
    let asking = fill(&mut book, full)?;
    let _scarce = Scarce::new(alloc)?;
    drop(memory);
    match refusal(&mut book, asking) {
        None => Ok(true),
        Some(Refusal::NoMemory) => Ok(false),
        Some(_) => Err(Fail::from("it is refused for another cause")),
    }
}

// Of each list that is full, room that is one too little, and just enough.
fn are_met_by_just<T: Abort>(
    rt: &T,
    alloc: Global,
    needs: &[(Full, Room, Room)],
) -> Result<(), Fail> {
    for (full, short, just) in needs {
        assert!(rt; !is_done_with(alloc, *full, *short)?);
        assert!(rt; is_done_with(alloc, *full, *just)?);
    }
    Ok(())
}

fn for_events(events: u32) -> Room {
    Room { events, ..NONE }
}

fn for_notes(notes: u32) -> Room {
    Room { notes, ..NONE }
}

fn for_others(nodes: usize, resources: usize) -> Room {
    Room {
        nodes,
        resources,
        ..NONE
    }
}

#[test]
fn a_use_or_an_item_takes_just_the_memory_that_it_needs(rt: HostRuntime) -> Result<(), Fail> {
    let needs = [
        (Full::Events, for_events(511), for_events(512)),
        (Full::Notes, for_notes(127), for_notes(128)),
    ];
    are_met_by_just(&rt, rt.alloc(), &needs)
}

#[test]
fn an_opening_or_a_resource_beside_32_others_takes_room_for_32_more(
    rt: HostRuntime,
) -> Result<(), Fail> {
    let needs = [
        (Full::Nodes, for_others(63, 0), for_others(64, 0)),
        (Full::NodesUsing, for_others(63, 4), for_others(64, 4)),
        // What grows copies the keys of the 32 first: they fit where eight resources more would.
        (Full::Resources, for_others(0, 63), for_others(0, 72)),
    ];
    are_met_by_just(&rt, rt.alloc(), &needs)
}
