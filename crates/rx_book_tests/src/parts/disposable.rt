//! Calls of a group in want of memory, and the callers of a page. A single, a serial and a counted value take no memory:
//! their clauses say all that they answer.
use super::uses::{moved_out, there_and_back};
use crate::same::same;
use rx_disposable::{Back, Group, Members, Why};
use rx_scarce::{MOST_BLOCKS, Scarce};
use std::alloc::{AllocError, Global};
use std::process::Abort;
use std::test::Fail;

// The size of a block in bytes that the allocator keeps in no list of one size.
const BLOCK: usize = 4096;

// The answer, with a refusal as a pair that can be compared.
fn told<U, T>(answer: Result<U, Back<T>>) -> Result<U, (Why, T)> {
    match answer {
        Ok(taken) => Ok(taken),
        Err(Back { why, value }) => Err((why, value)),
    }
}

// Adds three values, of which the first is taken out again, and moves the others to a list.
fn call_them(
    rt: &impl Abort,
    group: &mut Group<char>,
    list: &mut Vec<(u64, char)>,
) -> Result<(), AllocError> {
    same(rt, told(there_and_back(group, 'x')), Ok('x'));
    same(rt, told(group.add('y')), Ok(1));
    same(rt, told(group.add('z')), Ok(2));
    moved_out(group, list)
}

#[test]
fn a_group_serves_generic_callers(rt: HostRuntime) {
    let mut list = Vec::new(rt.alloc());
    let called = call_them(&rt, &mut Group::new(rt.alloc()), &mut list);
    same(&rt, called, Ok(()));
    same(&rt, list.as_slice(), [(1, 'y'), (2, 'z')].as_slice());
}

// Adds the numbers up to 40 in want of memory: each refusal hands the number back, and then one block is given
// back. How often memory was refused.
fn add_in_the_end(rt: &impl Abort, group: &mut Group<u64>, scarce: &mut Scarce) -> u32 {
    let mut refusals = 0u32;
    for number in 0..40 {
        for _ in 0..MOST_BLOCKS {
            let answer = told(group.add(number));
            if answer == Ok(number) {
                break;
            }
            same(rt, answer, Err((Why::NoMemory, number)));
            refusals = refusals.wrapping_add(1);
            assert!(rt; scarce.give_back_one());
        }
    }
    refusals
}

// Disposes of a group that has the numbers up to 40.
fn dispose_of_all(rt: &impl Abort, group: &mut Group<u64>) {
    let mut disposed = group.dispose();
    for number in 0..40 {
        same(rt, disposed.next(), Some((number, number)));
    }
    same(rt, disposed.next(), None);
}

#[test]
fn an_add_in_want_of_memory_hands_the_value_back(rt: HostRuntime) -> Result<(), Fail> {
    let mut scarce = Scarce::new(rt.alloc())?;
    let mut group = Group::new(rt.alloc());
    assert!(rt; add_in_the_end(&rt, &mut group, &mut scarce) > 0);
    dispose_of_all(&rt, &mut group);
    Ok(())
}

// Whether a block of this many bytes can be had.
fn is_had(alloc: Global, bytes: usize) -> bool {
    let block: Result<Vec<u8>, AllocError> = Vec::with_capacity(alloc, bytes);
    block.is_ok()
}

// The value under a ticket, where one is inside.
fn value_of(group: &mut Group<u64>, ticket: u64) -> Option<u64> {
    match group.get_mut(ticket) {
        Some(value) => Some(*value),
        None => None,
    }
}

// Calls each but `add`, and compares what they answer. What came out is dropped by the caller.
fn call_all_but_add(
    rt: &impl Abort,
    group: &mut Group<u64>,
    numbers: u64,
) -> (Members<u64>, Members<u64>) {
    let counted = (group.len() as u64, group.is_empty());
    let given = [value_of(group, 1), group.remove(1), group.remove(1)];
    let cleared = group.clear();
    same(rt, counted, (numbers, false));
    same(rt, given, [Some(1), Some(1), None]);
    (cleared, group.dispose())
}

// Calls all of a group of so many where one block is left, which a request would break up: a small piece that is
// given back is kept for requests of its size.
fn call_at_one_block(
    rt: &impl Abort,
    alloc: Global,
    group: &mut Group<u64>,
    numbers: u64,
) -> Result<(), Fail> {
    for number in 0..numbers {
        same(rt, told(group.add(number)), Ok(number));
    }
    let block: Vec<u8> = Vec::with_capacity(alloc, BLOCK)?;
    let _scarce = Scarce::new(alloc)?;
    drop(block);
    let _out = call_all_but_add(rt, group, numbers);
    assert!(rt; is_had(alloc, BLOCK));
    assert!(rt; is_had(alloc, 64));
    assert!(rt; !is_had(alloc, BLOCK));
    Ok(())
}

#[test]
fn a_group_asks_for_memory_in_add_alone(rt: HostRuntime) -> Result<(), Fail> {
    call_at_one_block(&rt, rt.alloc(), &mut Group::new(rt.alloc()), 3)?;
    call_at_one_block(&rt, rt.alloc(), &mut Group::new(rt.alloc()), 10)
}
