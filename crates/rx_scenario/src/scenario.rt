//! What a scenario says.

ghost use Rattle.std.specs.Prelude.{◌≡◌, ◌≤◌, ◌<◌, map, IfSome, IfNone};
ghost use Rattle.rx_scenario.specs.declared.scenario.Step.{out-Step};
ghost use Rattle.rx_scenario.specs.Scenario.{step_of, steps_of};

use rx_event::{Mode, Terminal};
use std::marker::Model;

/// A scenario: steps that wait for their times, how many events the book may have, and when time
/// ends. Each step is in turn followed by others.
#[derive(Drop)]
pub struct Scenario {
    pub steps: Vec<Step>,
    pub events: u64,
    pub until: u64,
}

/// A step of a scenario.
pub struct Step {
    /// By what it can be cancelled; no other step has this label.
    pub label: Option<String>,
    /// How long after the step that it follows it is due, or after the beginning. One without a delay
    /// does not wait: it comes in the turn of the step that it follows.
    pub delay: Option<Ticks>,
    /// What it does.
    pub action: Action,
    /// The steps that follow it where it is accepted.
    pub then: Vec<Step>,
}

// Written out, so that where a step is let go there is one call to prove, and not the drop of each field in turn.
impl Drop for Step {
    fn drop(self) {
        let Step {
            label: _label,
            delay: _,
            action: _action,
            then: _then,
        } = self;
    }
}

impl Step {
    /// The step with these to follow it, in place of those that followed it.
    pub fn followed_by(self, then: Vec<Step>) -> Step
        ensures { step_of result ≡ record (step_of self) { followers = steps_of (map step_of then.items) } }
    {
        let Step {
            label,
            delay,
            action,
            then: _before,
        } = self;
        Step {
            label,
            delay,
            action,
            then,
        }
    }

    /// What it does, and the steps that follow it.
    pub fn into_parts(self) -> (Action, Vec<Step>)
        ensures { result ≡ ((out-Step self).action, (out-Step self).then) }
    {
        let Step {
            label: _label,
            delay: _,
            action,
            then,
        } = self;
        (action, then)
    }
}

/// A time of a scenario, in ticks of virtual time: 0 to 1,000,000,000,000.
#[derive(Clone, Copy)]
pub struct Ticks {
    count: u64,
}

impl Model for Ticks {
    ghost use Rattle.std.specs.Prelude.{ℕ, ◌≤◌};

    ghost Value = { ℕ };

    ghost view = { λ t. t.count };

    ghost invariant = { λ t. t.count ≤ 1000000000000 };

    ghost inverse = { λ n. record { count = n } };
}

impl Ticks {
    /// So many ticks, or None where they are too many.
    pub fn new(count: u64) -> Option<Self>
        ensures some { IfSome result (λ t. t ≡ count) }
        ensures few { IfSome result (λ t. count ≤ 1000000000000) }
        ensures none { IfNone result (1000000000000 < count) }
    {
        if count <= 1_000_000_000_000 {
            Some(Ticks { count })
        } else {
            None
        }
    }

    /// How many.
    pub fn count(self) -> u64
        ensures value { result ≡ self }
        ensures few { result ≤ 1000000000000 }
    {
        self.count
    }
}

/// What a step does.
#[derive(Drop)]
pub enum Action {
    /// It does something with the book.
    Command(Command),
    /// It takes the waiting step that has this label off the timeline.
    Cancel(String),
}

/// What is done with a book. Nodes, hubs, resources and leases go by the names that earlier steps gave
/// them.
#[derive(Drop)]
pub enum Command {
    /// Opens a mirroring node with the first resource of the stock.
    Using {
        name: String,
        place: Site,
        res: String,
    },
    /// Opens a node.
    Open {
        name: String,
        place: Site,
        kind: Sort,
    },
    /// Has a node hold the first resource of the stock.
    Hold {
        node: String,
        res: String,
    },
    /// A held resource is used on a word.
    Apply {
        res: String,
        word: u64,
    },
    /// A held resource is taken off its node.
    Remove {
        res: String,
    },
    /// A lease of an owned resource is given out, and gets the name.
    Lease {
        res: String,
        name: String,
    },
    /// A lease is given back.
    Return {
        lease: String,
    },
    /// A leaf emits an item.
    Next {
        node: String,
        value: i64,
    },
    /// A leaf ends.
    End {
        node: String,
        terminal: Terminal,
    },
    /// A node that is neither a leaf nor a subscriber ends with an error.
    Abort {
        node: String,
        code: u32,
    },
    /// An item that a FlatMap or a Switch owes an inner observable gets none.
    Decline {
        node: String,
    },
    /// A FlatMap or a Switch that owes an inner observable ends with an error.
    Fail {
        node: String,
        code: u32,
    },
    /// A root is unsubscribed.
    Dispose {
        node: String,
    },
    /// A hub is published; it is connected by RefCount, or by hand.
    Hub {
        name: String,
        mode: Mode,
    },
    /// A hub is connected by hand; its connection gets the name, where there is one.
    Connect {
        hub: String,
        name: Option<String>,
    },
    /// A hub's connection is closed by hand.
    Disconnect {
        hub: String,
    },
    /// All that waits is taken and released.
    Drain,
    /// The book makes a checkpoint: what its history leaves takes the history's place.
    Checkpoint,
}

/// Where a node is to be opened, by the name of the node above.
#[derive(Drop)]
pub enum Site {
    Root,
    Source(String),
    /// An inner observable of a FlatMap or a Switch.
    Inner(String),
    /// The notifier of a TakeUntil.
    Notifier(String),
}

/// What a node does that is to be opened.
#[derive(Drop)]
pub enum Sort {
    /// A source that the scenario drives.
    Leaf,
    /// It mirrors its source.
    Pass,
    /// FlatMap.
    Flat,
    Switch,
    /// TakeUntil.
    Until,
    /// A subscriber of the hub of this name. Where it is the one for which the hub is connected, the
    /// connection gets the other name, if there is one.
    Sub {
        hub: String,
        connection: Option<String>,
    },
}
