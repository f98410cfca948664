//! An engine behind a handle, driven by tables of commands.

use crate::{
    CellarHandle, Stack, cellar_drop, cellar_finish, cellar_new, cellar_next, cellar_step,
    cellar_totals,
};
use rx_cellar::{Answer, Command, Effect, NumberedKey, Totals, no_node, no_totals};
use std::alloc::{AllocError, Global};

// The numbers of the header.
pub(super) const OPEN: u8 = 0;

pub(super) const USING: u8 = 1;

pub(super) const HOLD: u8 = 2;

pub(super) const NEXT: u8 = 3;

pub(super) const COMPLETE: u8 = 4;

pub(super) const ERROR: u8 = 5;

pub(super) const FAIL: u8 = 6;

pub(super) const DECLINE: u8 = 7;

pub(super) const DISPOSE: u8 = 8;

pub(super) const CONNECT: u8 = 9;

pub(super) const DISCONNECT: u8 = 10;

pub(super) const PUT: u8 = 11;

pub(super) const SHUT: u8 = 12;

pub(super) const ABORT: u8 = 13;

pub(super) const APPLY: u8 = 14;

pub(super) const REMOVE: u8 = 15;

pub(super) const LEASE: u8 = 16;

pub(super) const GIVE_BACK: u8 = 17;

pub(super) const ROOT: u8 = 0;

pub(super) const SOURCE: u8 = 1;

pub(super) const INNER: u8 = 2;

pub(super) const NOTIFIER: u8 = 3;

pub(super) const LEAF: u8 = 0;

pub(super) const PASS: u8 = 1;

pub(super) const FLAT: u8 = 2;

pub(super) const SWITCH: u8 = 3;

pub(super) const UNTIL: u8 = 4;

pub(super) const SHARED: u8 = 5;

pub(super) const RELEASE: u32 = 5;

// Who calls.
pub(super) const BY: u64 = 7;

// A command: what it is, a place and a kind, which of the keys so far it names (0 for none), and a value.
pub(super) type Step = (u8, u8, u8, usize, u64);

// The effects that were taken: how many there were, and of these how many releases and how many that carry a value.
#[derive(Clone, Copy, PartialEq, Debug)]
pub(super) struct Told {
    pub(super) all: u64,
    pub(super) releases: u64,
    pub(super) carried: u64,
}

pub(super) fn nothing_told() -> Told {
    Told {
        all: 0,
        releases: 0,
        carried: 0,
    }
}

impl Told {
    pub(super) fn hear(&mut self, effect: Effect) {
        self.all = self.all.saturating_add(1);
        if effect.kind == RELEASE {
            self.releases = self.releases.saturating_add(1);
        }
        if effect.carries == 1 {
            self.carried = self.carried.saturating_add(1);
        }
    }
}

pub(super) fn no_effect() -> Effect {
    Effect {
        user: 0,
        value: 0,
        by: 0,
        kind: 0,
        carries: 0,
    }
}

fn nothing_stepped() -> Answer {
    Answer {
        node: no_node(),
        other: no_node(),
        is_connected: 0,
        hub: 0,
        copies: 0,
        closed: 0,
        closings: [0; 8],
        handed: 0,
        own: 0,
        ticket: 0,
        spare: 0,
        effect: no_effect(),
    }
}

// A handle, a stack, the last step, and the keys that the commands so far gave: of a node, and then of a resource, a lease or
// a connection.
pub(super) struct Bench {
    pub(super) alloc: Global,
    pub(super) handle: CellarHandle,
    pub(super) stack: Stack,
    pub(super) step: Answer,
    pub(super) keys: Vec<NumberedKey>,
}

impl Bench {
    // Of a handle of zeros.
    pub(super) fn new(alloc: Global) -> Bench {
        Bench {
            alloc,
            handle: CellarHandle::empty(),
            stack: Stack {
                by: BY,
                depth: 1,
                begun: 0,
            },
            step: nothing_stepped(),
            keys: Vec::new(alloc),
        }
    }

    // An engine whose history has at most so many events.
    pub(super) fn begin(&mut self, max_events: u32) -> u8 {
        self.keys.clear();
        cellar_new(self.alloc, &mut self.handle, max_events)
    }

    // The key of this number among those so far; none is 0.
    pub(super) fn key(&self, which: usize) -> NumberedKey {
        match which {
            0 => no_node(),
            _ => self.keys.get(which - 1).copied().unwrap_or(no_node()),
        }
    }

    // The command of a step; its value is the word of what it opens too.
    pub(super) fn command(&self, step: Step) -> Command {
        let (what, place, kind, of, value) = step;
        Command {
            what,
            place,
            kind,
            flags: 0,
            level: 0,
            hub: u64::MAX,
            node: self.key(of),
            user: value,
            value,
            by: BY,
            spare: 0,
        }
    }

    // Makes a command.
    pub(super) fn make_once(&mut self, command: &Command) -> u8 {
        cellar_step(
            self.alloc,
            &mut self.handle,
            &self.stack,
            command,
            &mut self.step,
        )
    }

    // What is to be done next in the turn.
    pub(super) fn next(&mut self) -> u8 {
        cellar_next(self.alloc, &mut self.handle, &self.stack, &mut self.step)
    }

    // Does what the turn was handed, and all that comes next.
    pub(super) fn serve(&mut self, told: &mut Told) {
        for _ in 0..u64::MAX {
            if self.step.handed != 1 {
                return;
            }
            self.stack.begun = self.step.ticket;
            told.hear(self.step.effect);
            self.next();
        }
    }

    // Makes a command, and keeps the keys that it gives.
    pub(super) fn make(&mut self, command: &Command) -> Result<u8, AllocError> {
        self.keys.reserve(2)?;
        let status = self.make_once(command);
        if status == 0 {
            match command.what {
                OPEN => {
                    self.keys.push(self.step.node)?;
                    if self.step.is_connected == 1 {
                        self.keys.push(self.step.other)?;
                    }
                }
                USING => {
                    self.keys.push(self.step.node)?;
                    self.keys.push(self.step.other)?;
                }
                HOLD | LEASE | CONNECT => self.keys.push(self.step.other)?,
                _ => {}
            }
        }
        Ok(status)
    }

    // Makes the command of a step.
    pub(super) fn step(&mut self, step: Step) -> Result<u8, AllocError> {
        let command = self.command(step);
        self.make(&command)
    }

    // Makes these commands, and serves what comes of them: the number of the first that was not done.
    pub(super) fn run(
        &mut self,
        steps: &[Step],
        told: &mut Told,
    ) -> Result<Option<usize>, AllocError> {
        for (at, step) in steps.iter().enumerate() {
            if self.step(*step)? != 0 {
                return Ok(Some(at));
            }
            self.serve(told);
        }
        Ok(None)
    }

    pub(super) fn totals(&mut self) -> Totals {
        let mut totals = no_totals();
        cellar_totals(self.alloc, &mut self.handle, &mut totals);
        totals
    }

    // Closes all that is open, serves what comes of it, and finishes: whether nothing was left.
    pub(super) fn finish(&mut self, told: &mut Told) -> Result<bool, AllocError> {
        for _ in 0..u64::MAX {
            if self.step((SHUT, 0, 0, 0, 0))? != 0 {
                break;
            }
            self.serve(told);
        }
        Ok(cellar_finish(self.alloc, &mut self.handle) == 0)
    }

    // Drops what the handle keeps.
    pub(super) fn close(self) {
        let Bench {
            alloc,
            mut handle,
            stack: _,
            step: _,
            keys: _keys,
        } = self;
        cellar_drop(alloc, &mut handle);
        if let Some(loose) = handle.into_loose(alloc) {
            drop(loose.into_box());
        }
    }
}
