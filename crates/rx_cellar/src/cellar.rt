//! An engine, and beside it what is counted and when a checkpoint is made.

ghost use Rattle.std.specs.Prelude.{◌≡◌, true, false, None};
ghost use Rattle.rx_engine.specs.States.{IsPromised};
ghost use Rattle.rx_cellar.specs.Cellars.{most_since, is_due, Tidies, IsCommandMade};
ghost use Rattle.rx_cellar.specs.Asking.{asked_of, asked_as, is_emission};
ghost use Rattle.rx_cellar.specs.Attempts.{IsTidyFor, IsTriedOnce, IsTriedBehind};

use crate::asked::{asked_of, is_emission};
use crate::shapes::{Answer, Command, Effect};
use crate::status::status_of;
use crate::telling::refuse;
use rx_book::{Refusal, Resource};
use rx_engine::Engine;
use rx_resource::Token;

// Where the engine chooses, it makes a checkpoint behind so many events at least. They and those of one command more
// mostly fill one piece of the history, which stays in a cache, and whose memory malloc keeps.
pub(crate) const FEW: u64 = 4_000;

/// An engine by commands of numbers.
#[derive(Drop)]
pub struct Cellar {
    pub(crate) engine: Engine,
    /// How many releases were told.
    pub(crate) released: u64,
    /// How many events there were at the last checkpoint.
    pub(crate) at: u64,
    /// The most events since then, where the engine chooses.
    pub(crate) until: Option<u64>,
}

// The most events until the next checkpoint.
fn most_since(engine: &Engine) -> u64
    ensures { result ≡ most_since engine.now }
{
    let here = engine
        .book()
        .open_count()
        .saturating_add(engine.book().held());
    let many = here.saturating_mul(4);
    if many < FEW { FEW } else { many }
}

impl Cellar {
    /// The promise of every engine, at each moment. It does nothing.
    pub fn promise(&self)
        ensures { IsPromised self.now.engine }
    {
        self.engine.promise();
    }

    // Makes a checkpoint: how many events there were, or why it was refused.
    #[cold]
    #[inline(never)]
    fn checkpoint(&mut self) -> Result<u64, Refusal>
        ensures { Tidies self.old self.new result }
    {
        self.engine.promise();
        match self.engine.checkpoint() {
            Ok(at) => {
                self.engine.promise();
                self.at = at;
                if self.until.is_some() {
                    self.until = Some(most_since(&self.engine));
                }
                Ok(at)
            }
            Err(why) => {
                self.engine.promise();
                Err(why)
            }
        }
    }

    // Whether a checkpoint is to be made.
    fn is_due(&self) -> bool
        ensures { result ≡ is_due self.now }
    {
        match self.until {
            Some(until) => self.engine.book().len().saturating_sub(self.at) > until,
            None => false,
        }
    }

    // Makes a checkpoint where the command is known, if it is not refused.
    #[cold]
    #[inline(never)]
    fn tidy_known(&mut self, command: &Command)
        requires { is_due self.old ≡ true }
        ensures { IsTidyFor (asked_of command.now) self.old self.new }
    {
        if asked_of(command).is_some() {
            let _at = self.checkpoint();
        }
    }

    /// Makes a checkpoint before a command, where one is due. Else the command is read but once, where it is made.
    #[inline(always)]
    pub(crate) fn tidy(&mut self, command: &Command)
        ensures { IsTidyFor (asked_of command.now) self.old self.new }
    {
        if self.is_due() {
            self.tidy_known(command);
        }
    }

    // Makes a command that is no item which may be handed out.
    #[inline(always)]
    fn make_plain(&mut self, command: &Command, by: u64, answer: &mut Answer) -> u8
        requires { is_emission command.now ≡ false }
        ensures { IsTriedOnce ⟦<Token as Resource>⟧ (asked_of command.now) by self.old self.new answer.old answer.new None result }
    {
        match command.what {
            0 => self.make_opening(command, by, answer),
            1 => self.make_using(command, by, answer),
            4 => self.make_completion(command, by, answer),
            8 => self.make_disposal(command, by, answer),
            _ => self.make_rest(command, by, answer),
        }
    }

    // Makes a command, by a history that may be full.
    #[inline(always)]
    fn make_once(
        &mut self,
        command: &Command,
        by: u64,
        waits: bool,
        answer: &mut Answer,
        given: &mut Option<Effect>,
    ) -> u8
        requires { given.old ≡ None }
        ensures { IsTriedOnce ⟦<Token as Resource>⟧ (asked_as waits (asked_of command.now)) by self.old self.new
            answer.old answer.new given.new result }
    {
        if is_emission(command) {
            if !waits {
                return self.emit(command, by, answer, given);
            }
            return self.emit_behind(command, by, answer);
        }
        self.make_plain(command, by, answer)
    }

    // Makes a command behind a checkpoint. What stands against that stands against the command.
    #[cold]
    #[inline(never)]
    fn make_again(
        &mut self,
        command: &Command,
        by: u64,
        waits: bool,
        answer: &mut Answer,
        given: &mut Option<Effect>,
    ) -> u8
        requires { given.old ≡ None }
        ensures { IsTriedBehind ⟦<Token as Resource>⟧ (asked_as waits (asked_of command.now)) by self.old self.new
            answer.old answer.new given.new result }
    {
        match self.checkpoint() {
            Ok(_at) => self.make_once(command, by, waits, answer, given),
            Err(why) => refuse(why, answer),
        }
    }

    /// Makes a command by this word, in place of its own. An item is handed out with its answer where it is all that comes of
    /// it, nothing stands before it in its lane, and nobody serves that; but never with `waits`. The status is 0 where
    /// the command was done, 5 where a number of it is none, else that of the refusal.
    #[inline(always)]
    pub fn make(
        &mut self,
        command: &Command,
        by: u64,
        waits: bool,
        answer: &mut Answer,
        given: &mut Option<Effect>,
    ) -> u8
        requires { given.old ≡ None }
        ensures { IsCommandMade ⟦<Token as Resource>⟧ (asked_as waits (asked_of command.now)) by self.old self.new
            answer.old answer.new given.new result }
    {
        self.tidy(command);
        let status = self.make_once(command, by, waits, answer, given);
        if status != status_of(Refusal::Full) {
            return status;
        }
        self.make_again(command, by, waits, answer, given)
    }
}
