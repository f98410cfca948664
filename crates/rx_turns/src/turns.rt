//! An engine, and beside it what is due to whom.

ghost use Rattle.std.specs.Prelude.{◌≡◌, [], Some, None};
ghost use Rattle.rx_cellar.specs.Beginnings.{limit_of, first_until, IsFresh};
ghost use Rattle.rx_turns.specs.Calls.{IsTurnTold, IsTurnPass, IsTurnStop};
ghost use Rattle.rx_turns.specs.Agendas.{IsDueOnce};
ghost use Rattle.rx_turns.specs.Seen.{seen};
ghost use Rattle.rx_turns.specs.States.{turn_state};

use crate::agenda::{Agenda, Turn};
use crate::ending::{at_depth, owner};
use rx_book::Resource;
use rx_cellar::{Answer, Cellar, Command};
use rx_resource::Token;
use std::alloc::Global;

/// An engine by turns.
#[derive(Drop)]
pub struct Turns {
    /// The engine.
    pub cellar: Cellar,
    pub(crate) agenda: Agenda,
    pub(crate) tickets: u64,
    pub(crate) astray: Option<u64>,
    // For so many openings more there is room for their lanes, without counting anew.
    pub(crate) spare: usize,
}

impl Turns {
    /// An engine with nothing in it, whose history has at most so many events at a time; with 0 it chooses. It takes
    /// no memory.
    pub fn new(alloc: Global, max_events: u32) -> Turns
        ensures engine { IsFresh (limit_of max_events) result.cellar.engine }
        ensures released { result.cellar.released ≡ 0 }
        ensures at { result.cellar.at ≡ 0 }
        ensures until { result.cellar.until ≡ first_until max_events }
        ensures rows { result.agenda.rows.items ≡ [] }
        ensures lists { result.agenda.lists.lists ≡ [] }
        ensures places { result.agenda.lists.members ≡ 0 }
        ensures tickets { result.tickets ≡ 0 }
        ensures astray { result.astray ≡ None }
    {
        Turns {
            cellar: Cellar::new(alloc, max_events),
            agenda: Agenda::new(alloc),
            tickets: 0,
            astray: None,
            spare: 0,
        }
    }

    /// No lane is due to two turns. It does nothing.
    pub fn promise(&self)
        ensures { IsDueOnce (seen self.now.agenda) }
    {
        self.agenda.promise();
    }

    /// What its stack began last, by its ticket, is told. Makes the command by the stack's word, and hands out what is to
    /// be done next in this turn, whatever the status: what was handed out and not begun, once more; then the rest of the
    /// lane that it serves; then what each lane has that is due to it, in order; then the same for each deeper call of this
    /// stack; and at depth 1 then what calls that were stopped have left.
    #[inline(always)]
    pub fn step(&mut self, turn: Turn, begun: u64, command: &Command, answer: &mut Answer) -> u8
        ensures { IsTurnTold ⟦<Token as Resource>⟧ turn begun (Some command.now) (turn_state self.old) (turn_state self.new)
            answer.old answer.new result }
    {
        self.agenda.mark(turn.by, begun);
        let done = self.make(turn, command, answer);
        let found = self.go_on(turn, done.line);
        self.agenda.tell(found, done.is_own, answer);
        done.status
    }

    /// The same without a command.
    #[inline(always)]
    pub fn next(&mut self, turn: Turn, begun: u64, answer: &mut Answer)
        ensures { IsTurnTold ⟦<Token as Resource>⟧ turn begun None (turn_state self.old) (turn_state self.new)
            answer.old answer.new 0 }
    {
        answer.clear();
        self.agenda.mark(turn.by, begun);
        let found = self.go_on(turn, 0);
        self.agenda.tell(found, false, answer);
    }

    /// From within an effect: what the call of this depth further out is doing counts as told, and its lane is free. With
    /// `now` what is left there is this turn's, without it that of the call further out, behind what it has.
    pub fn pass(&mut self, turn: Turn, begun: u64, from: u64, now: bool)
        ensures { IsTurnPass turn begun from now (turn_state self.old) (turn_state self.new) }
    {
        self.agenda.mark(turn.by, begun);
        let left = self.let_go(at_depth(turn, from));
        self.leave(left, owner(turn, from, now));
    }

    /// The turn and each deeper call of its stack end: what was begun is told, what was not stands first in its lane
    /// again, and what is left is handed out by a step of depth 1, on whatever stack. It asks for no memory.
    pub fn stop(&mut self, turn: Turn, begun: u64)
        ensures { IsTurnStop turn begun (turn_state self.old) (turn_state self.new) }
    {
        self.agenda.mark(turn.by, begun);
        self.end(turn);
        self.end_deeper(turn);
    }
}
