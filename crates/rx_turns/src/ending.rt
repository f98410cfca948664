//! A turn that goes on no more.

ghost use Rattle.std.specs.Prelude.{◌≡◌, Some, false, if◌then◌else◌};
ghost use Rattle.rx_cellar.specs.Words.{is_inside};
ghost use Rattle.rx_turns.specs.Rows.{IsOn};
ghost use Rattle.rx_turns.specs.Agendas.{in_hand};
ghost use Rattle.rx_turns.specs.States.{turn_state};
ghost use Rattle.rx_turns.specs.Ending.{at_depth, left_under, astray_if, GivesBack, LetsLaneGo, LeavesWord, LeavesTo, EndsTurn, StopsDeeper};

use crate::agenda::{OnLine, Task, Turn};
use crate::making::{INSIDE, place_of};
use crate::turns::Turns;
use rx_cellar::Cellar;

// The call of this depth on the same stack.
pub(crate) fn at_depth(turn: Turn, depth: u64) -> Turn
    ensures { result ≡ at_depth turn depth }
{
    Turn { depth, ..turn }
}

// Whose it is then what the call of this depth lets go of.
pub(crate) fn owner(turn: Turn, from: u64, now: bool) -> Turn
    ensures { result ≡ (if now then turn else at_depth turn from) }
{
    if now { turn } else { at_depth(turn, from) }
}

// The word under which something is left, if it is.
fn left_under(word: u64, is_left: u64) -> Option<u64>
    ensures { result ≡ left_under word is_left }
{
    if is_left == 1 { Some(word) } else { None }
}

// From the first place on something may be astray, if something is left.
fn astray_if(is_left: bool, astray: Option<u64>) -> Option<u64>
    ensures { result ≡ astray_if is_left astray }
{
    if is_left { Some(0) } else { astray }
}

// Gives up the lane of what was handed out, which stands first there again if it was not begun; 1 if something is left.
fn give_back(cellar: &mut Cellar, by: u64, handed: Task) -> u64
    ensures { GivesBack by handed cellar.old cellar.new result }
{
    let mut is_left = 0;
    if handed.is_begun {
        cellar.give_up(handed.word, by, &[], &mut is_left);
        return is_left;
    }
    cellar.give_up(handed.word, by, &[handed.effect], &mut is_left);
    is_left
}

impl Turns {
    // Gives up the lane of what a turn has in hand: the word under which something is left.
    fn give_up(&mut self, on: OnLine, handed: Task) -> Option<u64>
        requires line { IsOn on self.old.agenda.rows.items }
        requires hand { in_hand (turn_state self.old).agenda on.turn ≡ Some handed }
        requires outside { is_inside handed.word ≡ false }
        ensures { LetsLaneGo on.turn (turn_state self.old) (turn_state self.new) result }
    {
        self.agenda.drop_hand(on);
        self.cellar.promise();
        let is_left = give_back(&mut self.cellar, on.turn.by, handed);
        left_under(handed.word, is_left)
    }

    // Lets the lane in hand go; one that the stack serves further out is not given up.
    fn put_down(&mut self, on: OnLine, handed: Task) -> Option<u64>
        requires line { IsOn on self.old.agenda.rows.items }
        requires hand { in_hand (turn_state self.old).agenda on.turn ≡ Some handed }
        ensures { LetsLaneGo on.turn (turn_state self.old) (turn_state self.new) result }
    {
        if handed.word < INSIDE {
            return self.give_up(on, handed);
        }
        if handed.is_begun {
            self.agenda.drop_hand(on);
            return Some(handed.word);
        }
        None
    }

    // Lets go of the lane that a turn serves: the word under which something may be left.
    pub(crate) fn let_go(&mut self, turn: Turn) -> Option<u64>
        ensures { LetsLaneGo turn (turn_state self.old) (turn_state self.new) result }
    {
        let line = self.agenda.line_of(turn);
        let on = OnLine { turn, line };
        match self.agenda.served(on) {
            Some(handed) => self.put_down(on, handed),
            None => None,
        }
    }

    // What is left under a word is due to a turn, but where the whole lane is due already.
    fn leave_under(&mut self, word: u64, turn: Turn)
        ensures { LeavesWord word turn (turn_state self.old) (turn_state self.new) }
    {
        if word < INSIDE || !self.agenda.is_due(place_of(word)) {
            self.claim(turn, word);
        }
    }

    // What is left is due to a turn.
    pub(crate) fn leave(&mut self, left: Option<u64>, turn: Turn)
        ensures { LeavesTo left turn (turn_state self.old) (turn_state self.new) }
    {
        match left {
            Some(word) => self.leave_under(word, turn),
            None => {}
        }
    }

    // A turn ends.
    pub(crate) fn end(&mut self, turn: Turn)
        ensures { EndsTurn turn (turn_state self.old) (turn_state self.new) }
    {
        let left = self.let_go(turn);
        let line = self.agenda.line_of(turn);
        let on = OnLine { turn, line };
        let first = self.agenda.first(on);
        self.agenda.empty(on);
        self.astray = astray_if(left.is_some() | first.is_some(), self.astray);
    }

    // Each deeper call of its stack ends.
    pub(crate) fn end_deeper(&mut self, turn: Turn)
        ensures { StopsDeeper turn (turn_state self.new) (turn_state self.old) }
    {
        let mut last = turn;
        while let Some(inner) = self.agenda.next_deeper(last) {
            self.end(inner);
            last = inner;
        }
    }
}
