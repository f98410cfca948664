//! What a turn is handed next.

ghost use Rattle.std.specs.Prelude.{◌≡◌, Some};
ghost use Rattle.rx_cellar.specs.declared.shapes.Effect.{Effect};
ghost use Rattle.rx_turns.specs.Rows.{IsToldOf, IsTheLine, IsOn};
ghost use Rattle.rx_turns.specs.Finding.{IsFoundAs};
ghost use Rattle.rx_turns.specs.Agendas.{in_hand};
ghost use Rattle.rx_turns.specs.Calls.{PicksUp, GoesDeeper, TurnGoesOn};
ghost use Rattle.rx_turns.specs.States.{turn_state};
ghost use Rattle.rx_turns.specs.Serving.{new_hand, HandsOut, AsksLane, TakesDue, Serves, ServesDeeper};

use crate::agenda::{OnLine, Task, Turn};
use crate::making::place_of;
use crate::turns::Turns;
use rx_cellar::Effect;

impl Turns {
    // A turn that has a line has an effect of a lane in hand, under a new ticket.
    #[inline(always)]
    pub(crate) fn hand_out(&mut self, on: OnLine, word: u64, effect: Effect)
        requires { IsOn on self.old.agenda.rows.items }
        ensures hands { HandsOut on.turn word effect (turn_state self.old) (turn_state self.new)
            (new_hand self.old.tickets word effect) }
        ensures line { IsOn on self.new.agenda.rows.items }
    {
        self.tickets = self.tickets.saturating_add(1);
        let handed = Task {
            effect,
            ticket: self.tickets,
            word,
            is_begun: false,
        };
        self.agenda.hold(on, handed);
    }

    // Asks a lane for a turn that has a line.
    #[inline(always)]
    fn ask(&mut self, on: OnLine, word: u64) -> Option<usize>
        requires { IsOn on self.old.agenda.rows.items }
        ensures asks { IsFoundAs (AsksLane on.turn word (turn_state self.old) (turn_state self.new)) (turn_state self.new) result }
        ensures line { IsOn on self.new.agenda.rows.items }
    {
        self.cellar.promise();
        match self.cellar.take(word, on.turn.by) {
            Some(effect) => {
                self.hand_out(on, word, effect);
                Some(on.line)
            }
            None => None,
        }
    }

    // Asks the lanes that are due to a turn in order, until one gives something.
    #[inline(always)]
    fn begin(&mut self, on: OnLine) -> Option<usize>
        requires { IsTheLine on self.old.agenda.rows.items }
        ensures { IsFoundAs (TakesDue on.turn (turn_state self.new) (turn_state self.old)) (turn_state self.new) result }
    {
        while let Some(place) = self.agenda.first(on) {
            let word = self.agenda.word(place);
            self.agenda.forget(place);
            let found = self.ask(on, word);
            if found.is_some() {
                return found;
            }
        }
        None
    }

    // Asks the lane that a turn serves, where what it was handed is told, and then those that are due to it.
    #[inline(always)]
    fn ask_on(&mut self, on: OnLine, word: u64) -> Option<usize>
        requires line { IsOn on self.old.agenda.rows.items }
        requires told { IsToldOf (in_hand (turn_state self.old).agenda on.turn) (Some word) }
        ensures { IsFoundAs (Serves on.turn (turn_state self.new) (turn_state self.old)) (turn_state self.new) result }
    {
        let found = self.ask(on, word);
        if found.is_some() {
            return found;
        }
        self.agenda.drop_hand(on);
        self.begin(on)
    }

    // What a turn is handed next.
    #[inline(always)]
    fn serve(&mut self, on: OnLine) -> Option<usize>
        requires { IsTheLine on self.old.agenda.rows.items }
        ensures { IsFoundAs (Serves on.turn (turn_state self.new) (turn_state self.old)) (turn_state self.new) result }
    {
        match self.agenda.told(on) {
            Some(word) => self.ask_on(on, word),
            None => {
                if self.agenda.is_empty(on) {
                    self.begin(on)
                } else {
                    Some(on.line)
                }
            }
        }
    }

    // What the deeper calls of its stack are handed next.
    #[inline(always)]
    fn serve_deeper(&mut self, turn: Turn) -> Option<usize>
        ensures { IsFoundAs (ServesDeeper turn (turn_state self.new) (turn_state self.old)) (turn_state self.new) result }
    {
        let mut last = turn;
        while let Some(inner) = self.agenda.next_deeper(last) {
            self.agenda.promise();
            let found = self.serve_inner(inner);
            if found.is_some() {
                return found;
            }
            last = inner;
        }
        None
    }

    // What a deeper call is handed next.
    #[inline(never)]
    fn serve_inner(&mut self, turn: Turn) -> Option<usize>
        ensures { IsFoundAs (Serves turn (turn_state self.new) (turn_state self.old)) (turn_state self.new) result }
    {
        let line = self.agenda.line_of(turn);
        self.serve(OnLine { turn, line })
    }

    // What is left from a place on.
    #[cold]
    #[inline(never)]
    fn look(&mut self, turn: Turn, from: u64) -> Option<usize>
        requires { self.old.astray ≡ Some from }
        ensures { IsFoundAs (PicksUp turn (turn_state self.new) (turn_state self.old)) (turn_state self.new) result }
    {
        let mut word = 0;
        let mut next = 0;
        self.cellar.left(from, &mut word, &mut next);
        if word == u64::MAX {
            self.astray = None;
            return None;
        }
        if !self.agenda.claim(turn, place_of(word), word) {
            return None;
        }
        self.astray = Some(next);
        let line = self.agenda.line_of(turn);
        self.begin(OnLine { turn, line })
    }

    // What is astray.
    #[inline(always)]
    fn pick_up(&mut self, turn: Turn) -> Option<usize>
        ensures { IsFoundAs (PicksUp turn (turn_state self.new) (turn_state self.old)) (turn_state self.new) result }
    {
        match self.astray {
            Some(from) => self.look(turn, from),
            None => None,
        }
    }

    // What is to be done next where the turn itself has nothing.
    #[inline(always)]
    fn go_deeper(&mut self, turn: Turn) -> Option<usize>
        ensures { IsFoundAs (GoesDeeper turn (turn_state self.new) (turn_state self.old)) (turn_state self.new) result }
    {
        let found = self.serve_deeper(turn);
        if found.is_some() {
            return found;
        }
        if turn.depth == 1 {
            return self.pick_up(turn);
        }
        None
    }

    // What is to be done next in a turn, which stands on this line, or on another.
    #[inline(always)]
    pub(crate) fn go_on(&mut self, turn: Turn, hint: usize) -> Option<usize>
        ensures { IsFoundAs (TurnGoesOn turn (turn_state self.new) (turn_state self.old)) (turn_state self.new) result }
    {
        let line = self.agenda.line_at(turn, hint);
        let found = self.serve(OnLine { turn, line });
        if found.is_some() {
            return found;
        }
        self.go_deeper(turn)
    }
}
