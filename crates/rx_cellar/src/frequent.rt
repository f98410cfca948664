//! Frequent commands, each read for itself and made by the engine's call of its name; and all others. The calls for
//! an item, an opening and a using have no other caller: they are taken into these, and answer through no memory.

ghost use Rattle.std.specs.Prelude.{◌≡◌, true, false, Some, None};
ghost use Rattle.rx_cellar.specs.declared.asked.OpenedAs.TheVariants.{Own};
ghost use Rattle.rx_cellar.specs.Asking.{asked_of, asks_item, asked_for, queued_for, opened_as};
ghost use Rattle.rx_cellar.specs.Crossings.{no_answer};
ghost use Rattle.rx_cellar.specs.Attempts.{IsMadeOnce, IsTriedOnce};
ghost use Rattle.rx_cellar.specs.Frequent.{item_in, rests};

use crate::asked::{
    Item, OpenedAs, OwnKind, asked_of, has_no_flags, kind_of, opened_as, opening_in,
};
use crate::cellar::Cellar;
use crate::making::{Made, nothing_made, perform};
use crate::shapes::{Answer, Command, Effect, NumberedKey, key_of, node_of};
use crate::status::DONE;
use crate::telling::{refuse, refuse_unknown};
use rx_book::{Resource, Terminal};
use rx_resource::Token;

impl Cellar {
    /// Emits an item, and hands it out where it is all that comes of it, and nothing stands before it in its lane.
    #[inline(never)]
    pub(crate) fn emit(
        &mut self,
        command: &Command,
        by: u64,
        answer: &mut Answer,
        given: &mut Option<Effect>,
    ) -> u8
        ensures { IsMadeOnce ⟦<Token as Resource>⟧ (asked_for (item_in command.now)) by
            self.old self.new (no_answer answer.old) answer.new given.new result }
    {
        let item = Item {
            leaf: key_of(command.node),
            value: command.value,
        };
        match self.engine.next_handing(item.leaf, by, item.value) {
            Ok(sent) => {
                self.tell(nothing_made(), answer);
                *given = self.give_out(sent);
                DONE
            }
            Err(why) => {
                *given = None;
                refuse(why, answer)
            }
        }
    }

    /// Emits an item that waits in its lane.
    #[inline(never)]
    pub(crate) fn emit_behind(&mut self, command: &Command, by: u64, answer: &mut Answer) -> u8
        ensures { IsMadeOnce ⟦<Token as Resource>⟧ (queued_for (item_in command.now)) by
            self.old self.new (no_answer answer.old) answer.new None result }
    {
        let tried = self.engine.next(key_of(command.node), by, command.value);
        self.answer_done(tried, answer)
    }

    // Opens a node of a kind that is no subscriber.
    #[inline(always)]
    fn open_own(&mut self, kind: OwnKind, command: &Command, by: u64, answer: &mut Answer) -> u8
        requires what { command.now.what ≡ 0 }
        requires kind { opened_as command.now ≡ Some (Own kind) }
        ensures { IsTriedOnce ⟦<Token as Resource>⟧ (asked_of command.now) by self.old self.new answer.old answer.new None result }
    {
        let Some(opening) = opening_in(command) else {
            return refuse_unknown(answer);
        };
        match self
            .engine
            .open(opening.at, kind_of(kind), opening.user, by)
        {
            Ok(key) => {
                let made = Made {
                    node: node_of(key),
                    ..nothing_made()
                };
                self.tell(made, answer);
                DONE
            }
            Err(why) => refuse(why, answer),
        }
    }

    /// Opens a node.
    #[inline(never)]
    pub(crate) fn make_opening(&mut self, command: &Command, by: u64, answer: &mut Answer) -> u8
        requires { command.now.what ≡ 0 }
        ensures { IsTriedOnce ⟦<Token as Resource>⟧ (asked_of command.now) by self.old self.new answer.old answer.new None result }
    {
        match opened_as(command) {
            Some(OpenedAs::Own(kind)) => self.open_own(kind, command, by, answer),
            Some(OpenedAs::Of(_share)) => self.make_rest(command, by, answer),
            None => refuse_unknown(answer),
        }
    }

    /// Opens a node that holds something.
    #[inline(never)]
    pub(crate) fn make_using(&mut self, command: &Command, by: u64, answer: &mut Answer) -> u8
        requires { command.now.what ≡ 1 }
        ensures { IsTriedOnce ⟦<Token as Resource>⟧ (asked_of command.now) by self.old self.new answer.old answer.new None result }
    {
        let Some(opening) = opening_in(command) else {
            return refuse_unknown(answer);
        };
        let kind = kind_of(OwnKind::Pass);
        match self
            .engine
            .using(opening.at, kind, opening.user, command.value, by)
        {
            Ok(used) => {
                let made = Made {
                    node: node_of(used.key),
                    other: NumberedKey {
                        slot: used.res.slot,
                        number: used.res.number,
                    },
                    ..nothing_made()
                };
                self.tell(made, answer);
                DONE
            }
            Err(why) => refuse(why, answer),
        }
    }

    /// Completes a leaf.
    #[inline(never)]
    pub(crate) fn make_completion(&mut self, command: &Command, by: u64, answer: &mut Answer) -> u8
        requires { command.now.what ≡ 4 }
        ensures { IsTriedOnce ⟦<Token as Resource>⟧ (asked_of command.now) by self.old self.new answer.old answer.new None result }
    {
        if !has_no_flags(command) {
            return refuse_unknown(answer);
        }
        let leaf = key_of(command.node);
        let tried = self.engine.end(leaf, Terminal::Completed, by, 0);
        self.answer_done(tried, answer)
    }

    /// Unsubscribes a root.
    #[inline(never)]
    pub(crate) fn make_disposal(&mut self, command: &Command, by: u64, answer: &mut Answer) -> u8
        requires { command.now.what ≡ 8 }
        ensures { IsTriedOnce ⟦<Token as Resource>⟧ (asked_of command.now) by self.old self.new answer.old answer.new None result }
    {
        if !has_no_flags(command) {
            return refuse_unknown(answer);
        }
        let root = key_of(command.node);
        let tried = self.engine.dispose(root, by);
        self.answer_done(tried, answer)
    }

    /// Makes any other command, which hands out nothing.
    #[inline(never)]
    pub(crate) fn make_rest(&mut self, command: &Command, by: u64, answer: &mut Answer) -> u8
        requires rest { rests (asked_of command.now) ≡ true }
        requires plain { asks_item (asked_of command.now) ≡ false }
        ensures { IsTriedOnce ⟦<Token as Resource>⟧ (asked_of command.now) by self.old self.new answer.old answer.new None result }
    {
        let Some(asked) = asked_of(command) else {
            return refuse_unknown(answer);
        };
        match perform(&mut self.engine, asked, by) {
            Ok(made) => {
                self.tell(made, answer);
                DONE
            }
            Err(why) => refuse(why, answer),
        }
    }
}
