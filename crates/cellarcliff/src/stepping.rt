//! The calls of a face: a step, a pass and a stop.

ghost use Rattle.std.specs.Prelude.{◌≡◌, ◌==◌, Some, None};
ghost use Rattle.std.proofs.Math.Bool.{not};
ghost use Rattle.rx_resource.specs.contracts.token.TokenResource.TheImpl.{ghosts};
ghost use Rattle.cellarcliff.specs.Calls.{IsLooked, IsNoRest};
ghost use Rattle.rx_turns.specs.Telling.{no_step};
ghost use Rattle.cellarcliff.specs.Steps.{turn_of, IsTurned, IsStepTold, IsPassTold, IsStopTold};
ghost use Rattle.cellarcliff.specs.Steps.{AreClosingsTold};

use crate::handle::CellarHandle;
use rx_cellar::{Answer, Command, DONE, NOTHING_KEPT};
use rx_turns::{Turn, clear_step};
use std::alloc::Global;

/// Whose turn it is: one for each stack of calls.
#[repr(C)]
#[derive(Clone, Copy)]
pub struct Stack {
    /// Its word, which no other stack has.
    pub by: u64,
    /// How many calls of the face are under way on it, this one included.
    pub depth: u64,
    /// The ticket of what it began last.
    pub begun: u64,
}

// The turn of a stack's call.
fn turn_of(stack: &Stack) -> Turn
    ensures { result ≡ turn_of stack.now }
{
    Turn {
        by: stack.by,
        depth: stack.depth,
    }
}

/// Notes what the stack began last, makes a command, and hands out what its turn is to do next, whatever the status.
#[unsafe(no_mangle)]
pub extern "C" fn cellar_step(
    alloc: Global,
    handle: &mut CellarHandle,
    stack: &Stack,
    command: &Command,
    step: &mut Answer,
) -> u8
    ensures { IsTurned (λ s t n. IsStepTold ghosts stack.now (Some command.now) s t step.old step.new n) (step.new ≡ no_step step.old)
        handle.old.kept handle.new.kept result }
{
    let Some(mut kept) = handle.take(alloc) else {
        clear_step(step);
        return NOTHING_KEPT;
    };
    let status = kept.step(turn_of(stack), stack.begun, command, step);
    handle.put(kept);
    status
}

/// Notes what the stack began last, and hands out what its turn is to do next.
#[unsafe(no_mangle)]
pub extern "C" fn cellar_next(
    alloc: Global,
    handle: &mut CellarHandle,
    stack: &Stack,
    step: &mut Answer,
) -> u8
    ensures { IsTurned (λ s t n. IsStepTold ghosts stack.now None s t step.old step.new n) (step.new ≡ no_step step.old)
        handle.old.kept handle.new.kept result }
{
    let Some(mut kept) = handle.take(alloc) else {
        clear_step(step);
        return NOTHING_KEPT;
    };
    kept.next(turn_of(stack), stack.begun, step);
    handle.put(kept);
    DONE
}

/// From within an effect: the call of this depth further out lets its lane go.
#[unsafe(no_mangle)]
pub extern "C" fn cellar_pass(
    alloc: Global,
    handle: &mut CellarHandle,
    stack: &Stack,
    from: u64,
    now: u8,
) -> u8
    ensures { IsTurned (λ s t n. IsPassTold stack.now from (not (now == 0)) s t n) Unit handle.old.kept handle.new.kept result }
{
    let Some(mut kept) = handle.take(alloc) else {
        return NOTHING_KEPT;
    };
    kept.pass(turn_of(stack), stack.begun, from, now != 0);
    handle.put(kept);
    DONE
}

/// The turn and each deeper call of its stack end.
#[unsafe(no_mangle)]
pub extern "C" fn cellar_stop(alloc: Global, handle: &mut CellarHandle, stack: &Stack) -> u8
    ensures { IsTurned (λ s t n. IsStopTold stack.now s t n) Unit handle.old.kept handle.new.kept result }
{
    let Some(mut kept) = handle.take(alloc) else {
        return NOTHING_KEPT;
    };
    kept.stop(turn_of(stack), stack.begun);
    handle.put(kept);
    DONE
}

/// The closings of the last accepted command, from this one on.
#[unsafe(no_mangle)]
pub extern "C" fn cellar_closings(
    alloc: Global,
    handle: &mut CellarHandle,
    from: u64,
    words: &mut [u64],
    count: &mut u64,
) -> u8
    ensures { IsLooked (λ s n. AreClosingsTold from s words.old words.new count.new n) (IsNoRest words.old words.new count.new)
        handle.old.kept handle.new.kept result }
{
    let Some(kept) = handle.take(alloc) else {
        *count = 0;
        return NOTHING_KEPT;
    };
    let status = kept.cellar.closings(from, words, count);
    handle.put(kept);
    status
}
