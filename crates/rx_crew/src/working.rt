//! A thread that releases what waits.

ghost use Rattle.std.specs.Prelude.{◌≡◌, ◌⊎◌, ◌+◌, ◌≤◌};
ghost use Rattle.rx_crew.specs.declared.working.Stop.{Stop};
ghost use Rattle.rx_crew.specs.Counting.{CountsTaken};

use crate::desk::Desk;
use rx_event::Refusal;
use rx_ledger::Seat;
use rx_resource::{Handed, Resource};
use std::sync::Wait;
use std::sync::ledger::Ledger;

/// Why a feed or a worker stopped.
#[derive(Clone, Copy, Debug, PartialEq, Eq)]
pub enum Stop {
    /// Nothing is left to do.
    Done,
    /// The turns are used up.
    Turns,
    /// A call was refused.
    Refused(Refusal),
}

/// What a worker calls around each release, as a program that counts or delays them does.
pub trait Gate: Sync {
    /// Called before the release of the resource of this number.
    fn before(&self, number: u64);

    /// Called after it.
    fn after(&self, number: u64);
}

/// What a worker did.
#[derive(Drop)]
pub struct Worked<I: Ledger, A: Ledger, K: Ledger> {
    /// Its seat, whose taken share rose by what it released.
    pub seat: Seat<I, A, K>,
    /// How many resources it released.
    pub released: u64,
    /// How many of these releases answered a fault.
    pub faults: u64,
    /// Why it stopped.
    pub stop: Stop,
}

/// Waits until a resource waits for its release or the desk is shut, and takes one.
fn next_handed<R: Resource, I: Ledger, A: Ledger, K: Ledger>(
    rt: &impl Wait,
    desk: &Desk<R, I, A, K>,
    seat: &mut Seat<I, A, K>,
) -> Option<Handed<R>>
    ensures { CountsTaken seat.old seat.new result }
{
    let mut floor = desk.bell.wait_while(rt, desk.floor.lock(rt), |floor| {
        floor.waiting() == 0 && !floor.is_shut()
    });
    floor.take(seat)
}

/// Releases a resource, and answers whether that met a fault.
fn release<R: Resource, G: Gate>(handed: Handed<R>, gate: &G) -> bool {
    let number = handed.number();
    gate.before(number);
    let released = handed.release();
    gate.after(number);
    released.fault.is_some()
}

/// Takes resources that wait, and releases them: under the lock the taking, and without it the calls
/// of the gate and the release.
///
/// It stops `Turns` after so many resources. Before that, where nothing waits, it waits for the bell,
/// and stops `Done` once the desk is shut. It is never refused.
pub fn worker<R: Resource, I: Ledger, A: Ledger, K: Ledger, G: Gate>(
    rt: &impl Wait,
    desk: &Desk<R, I, A, K>,
    seat: Seat<I, A, K>,
    gate: &G,
    turns: u64,
) -> Worked<I, A, K>
    ensures shares { result.seat ≡ record seat { taken = seat.taken + result.released } }
    ensures most { result.released ≤ turns }
    ensures all { result.stop ≡ Stop.Turns → result.released ≡ turns }
    ensures stop { (result.stop ≡ Stop.Done) ⊎ (result.stop ≡ Stop.Turns) }
    ensures faults { result.faults ≤ result.released }
{
    let mut seat = seat;
    let mut faults = 0;
    for released in 0..turns {
        let Some(handed) = next_handed(rt, desk, &mut seat) else {
            return Worked {
                seat,
                released,
                faults,
                stop: Stop::Done,
            };
        };
        if release(handed, gate) {
            faults += 1;
        }
    }
    Worked {
        seat,
        released: turns,
        faults,
        stop: Stop::Turns,
    }
}
