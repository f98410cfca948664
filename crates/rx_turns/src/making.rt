//! A command that a turn makes.

ghost use Rattle.std.specs.Prelude.{◌≡◌, ◌==◌, ◌&&◌, ◌<◌, ◌≤◌, ◌^◌, ℕ, nat_lt, true, false, Some, None};
ghost use Rattle.rx_cellar.specs.Words.{place_in};
ghost use Rattle.rx_cellar.specs.Serving.{words_due, node_word};
ghost use Rattle.rx_turns.specs.States.{turn_state};
ghost use Rattle.rx_turns.specs.Agendas.{LosesNothing, lanes_fit, has_nothing};
ghost use Rattle.rx_turns.specs.Rows.{IsOn};
ghost use Rattle.rx_turns.specs.Making.{may_ask, opens_lanes, IsMadeDue, AreMadeDue};
ghost use Rattle.rx_turns.specs.Making.{inner_lane, ComesHome, Comes, ComesIf, IsMadeBy, MakesOnLine, MakesIn};

use crate::agenda::{OnLine, Turn};
use crate::turns::Turns;
use rx_book::Resource;
use rx_cellar::{Answer, Cellar, Command, Effect, NO_MEMORY, NumberedKey};
use rx_resource::Token;
use std::cmp::min;

// A lane's place is below this.
const PLACES: u64 = 536_870_912;

// From here on a word says that its lane is served further out.
pub(crate) const INSIDE: u64 = 9_223_372_036_854_775_808;

// So many lanes at most are thought to have effects left of nodes that are closed, and so many more a command may open.
const LEFT: u64 = 65_536;

const MORE: usize = 8;

/// What a command came to.
#[derive(Clone, Copy)]
pub(crate) struct Done {
    /// 0 where the command was done; 4 where there was no memory to keep what it would come to, and it was not made; else
    /// as [`Cellar::make`] has it.
    pub(crate) status: u8,
    /// Whether what is handed out is its item.
    pub(crate) is_own: bool,
    /// The line that its turn had then.
    pub(crate) line: usize,
}

// The place of the lane that a word names.
#[inline(always)]
pub(crate) fn place_of(word: u64) -> usize
    ensures place { result ≡ place_in word }
    ensures below { result < 2 ^ 29 }
{
    (word % PLACES) as usize
}

// What may be refused for want of memory.
fn may_ask(what: u8) -> bool
    ensures { result ≡ may_ask what }
{
    what < 4 || what == 9 || what == 11 || what == 14 || what == 16
}

// What opens lanes.
fn opens_lanes(what: u8) -> bool
    ensures { result ≡ opens_lanes what }
{
    what < 2 || what == 9
}

// What opens an inner.
fn opens_inner(command: &Command) -> bool
    ensures { result ≡ (nat_lt command.now.what 2 && command.now.place == 2) }
{
    command.what < 2 && command.place == 2
}

// So many lanes there may be behind a command that opens some: two for each node that is open or opened, those that have effects left, and
// those that are served.
fn lanes_wanted(cellar: &Cellar, turns: usize) -> usize {
    let totals = cellar.totals();
    let of_nodes = (totals.nodes as usize).saturating_mul(2);
    let with_effects = min(totals.effects, LEFT) as usize;
    of_nodes
        .saturating_add(with_effects)
        .saturating_add(turns)
        .saturating_add(MORE)
}

impl Turns {
    // Makes a lane due to a turn; where there is no memory for that, it is astray.
    pub(crate) fn claim(&mut self, turn: Turn, word: u64)
        ensures { IsMadeDue turn word (turn_state self.old) (turn_state self.new) }
    {
        if !self.agenda.claim(turn, place_of(word), word) {
            self.astray = Some(0);
        }
    }

    // Makes the lanes due to a turn that the last accepted command's caller is to serve.
    #[inline(always)]
    fn claim_all(&mut self, turn: Turn)
        ensures { AreMadeDue turn (turn_state self.new) (words_due self.old.cellar) (turn_state self.old) }
    {
        for index in 0..self.cellar.due_count() {
            match self.cellar.due_word(index) {
                Some(word) => self.claim(turn, word),
                None => return,
            }
        }
    }

    // Makes the lane due to a turn in which an inner was opened, where it is due and no other stack serves it.
    #[cold]
    #[inline(never)]
    fn come_home(&mut self, turn: Turn, word: u64)
        ensures { ComesHome turn (turn_state self.old) (turn_state self.new) (Some word) }
    {
        let place = place_of(word);
        if !self.agenda.is_due(place) {
            return;
        }
        let due = self.agenda.word(place);
        if due % INSIDE != word {
            return;
        }
        if due < INSIDE || self.agenda.is_serving(turn.by, word) {
            self.claim(turn, due);
        }
    }

    // The same of the lane of a node, which is looked for only where something is due.
    #[inline(always)]
    fn come_home_to(&mut self, turn: Turn, node: NumberedKey)
        ensures { ComesHome turn (turn_state self.old) (turn_state self.new) (node_word self.old.cellar node) }
    {
        if !self.agenda.has_due() {
            return;
        }
        match self.cellar.node_word(node) {
            Some(word) => self.come_home(turn, word),
            None => {}
        }
    }

    // What stands where a command opened an inner comes before what that emits.
    #[inline(always)]
    fn come_home_if(&mut self, is_done: bool, turn: Turn, command: &Command)
        ensures { ComesHome turn (turn_state self.old) (turn_state self.new)
            (inner_lane is_done command.now self.old.cellar) }
    {
        if is_done && opens_inner(command) {
            self.come_home_to(turn, command.node);
        }
    }

    // What comes of a command that was done; whether its item is in hand.
    #[inline(always)]
    fn come(&mut self, on: OnLine, given: &Option<Effect>) -> bool
        requires { IsOn on self.old.agenda.rows.items }
        ensures { Comes on.turn (words_due self.old.cellar) given.now (turn_state self.old) (turn_state self.new) result }
    {
        match given {
            Some(effect) => match self.cellar.due_word(0) {
                Some(word) => {
                    self.hand_out(on, word, *effect);
                    true
                }
                None => {
                    self.claim_all(on.turn);
                    false
                }
            },
            None => {
                self.claim_all(on.turn);
                false
            }
        }
    }

    // Has what comes of a command that was done.
    #[inline(always)]
    fn come_if(&mut self, is_done: bool, on: OnLine, given: &Option<Effect>) -> bool
        requires { IsOn on self.old.agenda.rows.items }
        ensures { ComesIf is_done on.turn (words_due self.old.cellar) given.now (turn_state self.old)
            (turn_state self.new) result }
    {
        if is_done { self.come(on, given) } else { false }
    }

    // Makes a command that opens no lanes in a turn that has a line.
    #[inline(always)]
    fn make_by(&mut self, on: OnLine, is_free: bool, command: &Command, answer: &mut Answer) -> Done
        requires line { IsOn on self.old.agenda.rows.items }
        requires plain { opens_lanes command.now.what ≡ false }
        ensures { IsMadeBy ⟦<Token as Resource>⟧ on.turn is_free command.now (turn_state self.old) (turn_state self.new)
            answer.old answer.new result.status result.is_own }
    {
        self.cellar.promise();
        let mut given = None;
        let status = self
            .cellar
            .make(command, on.turn.by, !is_free, answer, &mut given);
        self.cellar.promise();
        let is_own = self.come_if(status == 0, on, &given);
        Done {
            status,
            is_own,
            line: on.line,
        }
    }

    // Has what comes of a command that hands nothing out.
    #[inline(always)]
    fn come_bare(&mut self, is_done: bool, turn: Turn)
        ensures { ComesIf is_done turn (words_due self.old.cellar) None (turn_state self.old) (turn_state self.new) false }
    {
        if is_done {
            self.claim_all(turn);
        }
    }

    // Makes a command that opens lanes.
    #[inline(always)]
    fn make_opening(
        &mut self,
        turn: Turn,
        is_free: bool,
        command: &Command,
        answer: &mut Answer,
    ) -> u8
        requires { opens_lanes command.now.what ≡ true }
        ensures { IsMadeBy ⟦<Token as Resource>⟧ turn is_free command.now (turn_state self.old) (turn_state self.new)
            answer.old answer.new result false }
    {
        self.cellar.promise();
        let mut given = None;
        let status = self
            .cellar
            .make(command, turn.by, !is_free, answer, &mut given);
        self.cellar.promise();
        self.come_home_if(status == 0, turn, command);
        self.come_bare(status == 0, turn);
        status
    }

    // Makes a command that asks for no memory in a turn that has no line.
    #[cold]
    #[inline(never)]
    fn make_bare(&mut self, turn: Turn, command: &Command, answer: &mut Answer) -> u8
        requires { may_ask command.now.what ≡ false }
        ensures { IsMadeBy ⟦<Token as Resource>⟧ turn true command.now (turn_state self.old) (turn_state self.new)
            answer.old answer.new result false }
    {
        self.cellar.promise();
        let mut given = None;
        let status = self
            .cellar
            .make(command, turn.by, false, answer, &mut given);
        self.cellar.promise();
        self.come_bare(status == 0, turn);
        status
    }

    // Lets the lanes be due that a command may open, so that what ends or closes them asks for no memory.
    fn make_room(&mut self) -> bool
        ensures kept { LosesNothing (turn_state self.old).agenda (turn_state self.new).agenda }
        ensures only { turn_state self.new ≡ record (turn_state self.old) { agenda = (turn_state self.new).agenda } }
        ensures lines { self.new.agenda.rows ≡ self.old.agenda.rows }
        ensures none { result ≡ false → (many : ℕ) × (many ≤ lanes_fit (turn_state self.old).agenda → ⊥) }
    {
        if self.spare > 0 {
            self.spare -= 1;
            return true;
        }
        self.make_more_room()
    }

    // Counts how many lanes there may be, and lets these be due.
    #[cold]
    #[inline(never)]
    fn make_more_room(&mut self) -> bool
        ensures kept { LosesNothing (turn_state self.old).agenda (turn_state self.new).agenda }
        ensures only { turn_state self.new ≡ record (turn_state self.old) { agenda = (turn_state self.new).agenda } }
        ensures lines { self.new.agenda.rows ≡ self.old.agenda.rows }
        ensures none { result ≡ false → (many : ℕ) × (many ≤ lanes_fit (turn_state self.old).agenda → ⊥) }
    {
        let many = lanes_wanted(&self.cellar, self.agenda.turns());
        if self.agenda.widen(many.saturating_add(many)).is_err() {
            return false;
        }
        self.spare = many / 3;
        true
    }

    // Makes a command in a turn that has a line, where there is room for the lanes that it may open.
    #[inline(always)]
    fn make_there(&mut self, on: OnLine, command: &Command, answer: &mut Answer) -> Done
        requires { IsOn on self.old.agenda.rows.items }
        ensures { MakesOnLine ⟦<Token as Resource>⟧ on.turn (has_nothing (turn_state self.old).agenda on.turn) command.now
            (turn_state self.old) (turn_state self.new) answer.old answer.new result.status result.is_own }
    {
        let is_free = self.agenda.is_free(on);
        if !opens_lanes(command.what) {
            return self.make_by(on, is_free, command, answer);
        }
        if self.make_room() {
            return Done {
                status: self.make_opening(on.turn, is_free, command, answer),
                is_own: false,
                line: on.line,
            };
        }
        answer.clear();
        Done {
            status: NO_MEMORY,
            is_own: false,
            line: on.line,
        }
    }

    // Makes a command in a turn.
    #[inline(always)]
    pub(crate) fn make(&mut self, turn: Turn, command: &Command, answer: &mut Answer) -> Done
        ensures { MakesIn ⟦<Token as Resource>⟧ turn command.now (turn_state self.old) (turn_state self.new)
            answer.old answer.new result.status result.is_own }
    {
        match self.agenda.admit(turn) {
            Ok(line) => self.make_there(OnLine { turn, line }, command, answer),
            Err(_) => {
                if may_ask(command.what) {
                    answer.clear();
                    return Done {
                        status: NO_MEMORY,
                        is_own: false,
                        line: 0,
                    };
                }
                Done {
                    status: self.make_bare(turn, command, answer),
                    is_own: false,
                    line: 0,
                }
            }
        }
    }
}
