//! A live book is made, takes a line, and ends.

ghost use Rattle.std.specs.Prelude.{◌≡◌, ◌≤◌, None, Some, [], string_bytes, IsUtf8, IfOk, IfSome, IfNone, OnOk, OnErr};
ghost use Rattle.rx_line.specs.FreeCommands.{free_in};
ghost use Rattle.rx_register.specs.State.{greatest_limit};
ghost use Rattle.rx_live.specs.Session.{IsSound};
ghost use Rattle.rx_live.specs.Live.{session, answer};
ghost use Rattle.rx_live.specs.Lines.{IsPutOff, Sends, EndsSession, IsNewSession};
ghost use Rattle.rx_live.specs.Answers.{is_late};
ghost use Rattle.rx_live.specs.Steps.{DropsName};
ghost use Rattle.rx_live.specs.Shut.{Shuts, TellsSome};

use crate::arrays::send_line;
use crate::engine::Engine;
use crate::free::carry_out_free;
use crate::live::{KEPT, Live};
use crate::sending::end;
use crate::shutting::shut;
use crate::telling::{next_name, push_next};
use json::Scratch;
use rx_line::free_command_in;
use std::alloc::{AllocError, Global};

// The room beyond which an answer's text is given back before the next.
const MOST_KEPT: usize = 65_536;

impl Live {
    /// Nothing is open, and no name is bound. The history may have `max_events`, which is at most
    /// 4,294,967,295, since its last checkpoint; what closing everything may need is counted in. The room for the
    /// answers to commands that take no memory is set aside.
    ///
    /// # Errors
    ///
    /// Where memory is refused.
    pub fn new(alloc: Global, max_events: u64) -> Result<Self, AllocError>
        requires { max_events ≤ greatest_limit }
        ensures fresh { IfOk result (λ live. IsNewSession (session live)) }
        ensures limit { IfOk result (λ live. (session live).book.limit ≡ max_events) }
    {
        let kept = String::with_capacity(alloc, KEPT)?;
        Ok(Live {
            engine: Engine::new(alloc, max_events),
            scratch: Scratch::new(alloc),
            answer: None,
            kept,
        })
    }

    /// What holds of every live book, at each moment: what its book promises, and that the names which are
    /// bound are those of what is open, held and leased. It does nothing.
    pub fn promise(&self)
        ensures { IsSound (session self.now) }
    {
        self.engine.book.promise();
    }

    /// The answer to the last line.
    pub fn answer(&self) -> &str
        ensures { result.now ≡ answer self.now }
    {
        match &self.answer {
            Some(text) => text.as_str(),
            None => self.kept.as_str(),
        }
    }

    // Makes place for the answer to a command that takes no memory. Where one took very much room, that is given back.
    fn clear(&mut self)
        ensures same { session self.new ≡ session self.old }
        ensures blank { answer self.new ≡ [] }
        ensures none { self.new.answer ≡ None }
    {
        self.answer = None;
        if self.kept.capacity() > MOST_KEPT {
            if let Ok(fresh) = String::with_capacity(self.engine.alloc, KEPT) {
                self.kept = fresh;
            }
        }
        self.kept.clear();
    }

    /// Takes a line, which is one command as JSON, and answers it with one: `{"ok":PLACE}`, or
    /// `{"refused":NAME}`, or `{"faulty":TEXT}`; with `"notes"` and `"release"` where there are some, and with
    /// `"late":true` where memory was refused for what was to be told: that is told by a later answer. Or it takes
    /// an array of commands, and answers an array with the answer to each.
    ///
    /// A command that finds the history full by its age is taken again behind a checkpoint; so it is refused
    /// `Full` by what is open alone.
    ///
    /// # Errors
    ///
    /// Where memory is refused: the line was not taken then, and nothing has changed, but that a checkpoint
    /// may have been made. Never so of a line that is a command which takes no memory, as [`free_command_in`] reads it.
    pub fn send(&mut self, line: &[u8]) -> Result<(), AllocError>
        ensures ok { OnOk result (Sends (session self.old) line.now (answer self.new) (session self.new)) }
        ensures err { OnErr result (IsPutOff line.now (session self.old) (session self.new)) }
        ensures free { OnErr result (IsUtf8 line.now → free_in line.now ≡ None) }
    {
        self.engine.book.promise();
        self.clear();
        match free_command_in(line) {
            Some(command) => {
                carry_out_free(&mut self.engine, command, &mut self.kept);
                Ok(())
            }
            None => {
                self.answer = Some(send_line(&mut self.engine, &mut self.scratch, line)?);
                Ok(())
            }
        }
    }

    /// Closes all, and answers what is left to be released: `{"closed":true}`, with `"release"` where there
    /// is some. Nothing is open or held afterwards, and no name is bound. Notes for which there is no memory
    /// now are not told, and `"late":true` says so. [`Live::shut`] does it without memory.
    ///
    /// # Errors
    ///
    /// Where memory is refused, and then nothing has changed.
    pub fn end(&mut self) -> Result<(), AllocError>
        ensures ok { OnOk result (EndsSession (session self.old) (answer self.new) (session self.new)) }
        ensures err { OnErr result (session self.new ≡ session self.old) }
    {
        self.engine.book.promise();
        self.answer = Some(end(&mut self.engine)?);
        Ok(())
    }

    /// Closes all: nothing is open, held or lent afterwards, and what was held waits. It takes no memory.
    pub fn shut(&mut self)
        ensures { Shuts (session self.old) (session self.new) }
    {
        self.engine.book.promise();
        shut(&mut self.engine);
    }

    /// Takes what waits next, and answers its name; None exactly where nothing waits. It takes no memory.
    pub fn next_release(&mut self) -> Option<String>
        ensures some { IfSome result (λ name. DropsName (session self.old) (string_bytes name) (session self.new)) }
        ensures none { IfNone result (session self.new ≡ session self.old) }
        ensures all { IfNone result ((session self.old).book.waiting ≡ []) }
        ensures gone { IfNone result ((session self.old).unnamed ≡ None) }
    {
        self.engine.book.promise();
        next_name(&mut self.engine)
    }

    /// Writes the next note, in the place of the last answer; false where there is none, or memory is refused for it.
    pub fn next_note(&mut self) -> bool
        ensures { TellsSome result (session self.old) (answer self.new) (session self.new) }
    {
        self.engine.book.promise();
        self.clear();
        push_next(&mut self.engine, &mut self.kept, "", 0)
    }

    /// Whether something was to be told that found no memory.
    pub fn is_late(&self) -> bool
        ensures { result ≡ is_late (session self.now) }
    {
        self.engine.untold.is_some() || self.engine.unnamed.is_some()
    }
}
