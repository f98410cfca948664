//! Memory that is refused to a timeline and a trampoline, and what takes none; the callers of a page.
ghost use Rattle.std.specs.Prelude.{◌≡◌, [], Some, IfOk, nat_le, if◌then◌else◌};
ghost use Rattle.rx_time.specs.Schedule.{schedule};

use crate::same::same;
use rx_disposable::{Back, Why};
use rx_scarce::{MOST_BLOCKS, Scarce};
use rx_time::{Timeline, Trampoline};
use std::alloc::Global;
use std::process::Abort;
use std::test::Fail;

fn reason<T: Drop>(back: Back<T>) -> Why {
    let Back { why, value: _ } = back;
    why
}

// What a caller can prove: of two items the one that is due first comes out first, in whatever
// order they were scheduled, and at a tie the first.
fn first_of_two(timeline: &mut Timeline<char>, a: u64, b: u64) -> Result<Option<(u64, char)>, Why>
    requires { timeline.old ≡ schedule 0 0 [] }
    ensures { IfOk result (λ first. first ≡ Some (if nat_le a b then (a, 97) else (b, 98))) }
{
    timeline.schedule(a, 'a').map_err(reason)?;
    timeline.schedule(b, 'b').map_err(reason)?;
    Ok(timeline.next_until(u64::MAX))
}

#[test]
fn the_contracts_say_what_comes_first(rt: HostRuntime) {
    let mut timeline = Timeline::new(rt.alloc());
    let first = first_of_two(&mut timeline, 8, 6);
    same(&rt, first, Ok(Some((6, 'b'))));
}

const ITEMS: u64 = 60;

// Due times that rise, fall and repeat.
fn due_of(item: u64) -> u64 {
    item % 20 * 7 % 20 + 3
}

// Schedules an item in want of memory: each refusal hands it back, and then one block is given back. How often
// memory was refused.
fn schedule_in_the_end(
    rt: &impl Abort,
    timeline: &mut Timeline<u64>,
    scarce: &mut Scarce,
    item: u64,
) -> usize {
    for refusals in 0..MOST_BLOCKS {
        match timeline.schedule(due_of(item), item) {
            Ok(_) => return refusals,
            Err(Back { why, value }) => same(rt, (why, value), (Why::NoMemory, item)),
        }
        assert!(rt; scarce.give_back_one());
    }
    panic!(rt; "memory was refused to the end")
}

// Schedules all items so. How often memory was refused.
fn schedule_all(
    rt: &impl Abort,
    alloc: Global,
    timeline: &mut Timeline<u64>,
) -> Result<usize, Fail> {
    let mut scarce = Scarce::new(alloc)?;
    let mut refusals = 0usize;
    for item in 0..ITEMS {
        let refused = schedule_in_the_end(rt, timeline, &mut scarce, item);
        refusals = refusals.saturating_add(refused);
    }
    Ok(refusals)
}

// How often a trampoline refuses an item while the memory is given back block by block.
fn push_in_the_end(
    rt: &impl Abort,
    trampoline: &mut Trampoline<u64>,
    scarce: &mut Scarce,
    item: u64,
) -> usize {
    for refusals in 0..MOST_BLOCKS {
        match trampoline.push(item) {
            Ok(()) => return refusals,
            Err(Back { why, value }) => same(rt, (why, value), (Why::NoMemory, item)),
        }
        assert!(rt; scarce.give_back_one());
    }
    panic!(rt; "memory was refused to the end")
}

fn push_all(
    rt: &impl Abort,
    alloc: Global,
    trampoline: &mut Trampoline<u64>,
) -> Result<usize, Fail> {
    let mut scarce = Scarce::new(alloc)?;
    let mut refusals = 0usize;
    for item in 0..ITEMS {
        let refused = push_in_the_end(rt, trampoline, &mut scarce, item);
        refusals = refusals.saturating_add(refused);
    }
    Ok(refusals)
}

// Cancels one item more, and takes all out of both, with no memory left. How many came out of the timeline.
fn take_all(
    rt: &impl Abort,
    alloc: Global,
    timeline: &mut Timeline<u64>,
    trampoline: &mut Trampoline<u64>,
) -> Result<u64, Fail> {
    let more = timeline.schedule(5, 1000).map_err(reason)?;
    let _scarce = Scarce::new(alloc)?;
    same(rt, timeline.cancel(more), Some(1000));
    let mut taken = 0u64;
    for item in 0..ITEMS {
        same(rt, trampoline.next(), Some(item));
        if timeline.next_until(30).is_some() {
            taken = taken.wrapping_add(1);
        }
    }
    same(rt, (timeline.is_empty(), trampoline.next()), (true, None));
    Ok(taken)
}

// Fills both in want of memory, which is refused to each more than twice, and takes all out.
fn fill_and_take(
    rt: &impl Abort,
    alloc: Global,
    timeline: &mut Timeline<u64>,
    trampoline: &mut Trampoline<u64>,
) -> Result<(), Fail> {
    let scheduled = schedule_all(rt, alloc, timeline)?;
    let pushed = push_all(rt, alloc, trampoline)?;
    let taken = take_all(rt, alloc, timeline, trampoline)?;
    assert!(rt; taken == ITEMS && scheduled > 2 && pushed > 2);
    Ok(())
}

#[test]
fn taking_out_needs_no_memory(rt: HostRuntime) -> Result<(), Fail> {
    let mut timeline = Timeline::new(rt.alloc());
    let mut trampoline = Trampoline::new(rt.alloc());
    fill_and_take(&rt, rt.alloc(), &mut timeline, &mut trampoline)
}

// Three items, of which two are due, and then one that is due at once: what comes by 7, and what is cancelled of
// the one that does not.
fn come_in_order(
    timeline: &mut Timeline<char>,
) -> Result<([Option<(u64, char)>; 4], [Option<char>; 2]), Why> {
    let late = timeline.schedule(10, 'a').map_err(reason)?;
    timeline.schedule(5, 'b').map_err(reason)?;
    timeline.schedule(5, 'c').map_err(reason)?;
    let first = [timeline.next_until(7), timeline.next_until(7)];
    let none = timeline.next_until(7);
    timeline.schedule(3, 'd').map_err(reason)?;
    let came = [first[0], first[1], none, timeline.next_until(7)];
    Ok((came, [timeline.cancel(late), timeline.cancel(late)]))
}

#[test]
fn work_comes_out_by_due_time_then_by_order(rt: HostRuntime) {
    let mut timeline = Timeline::new(rt.alloc());
    let came = come_in_order(&mut timeline);
    let in_order = [Some((5, 'b')), Some((5, 'c')), None, Some((7, 'd'))];
    same(&rt, came, Ok((in_order, [Some('a'), None])));
}
