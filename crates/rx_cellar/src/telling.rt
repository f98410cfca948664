//! What a command came to is told.

ghost use Rattle.std.specs.Prelude.{◌≡◌, option_map};
ghost use Rattle.rx_cellar.specs.Codes.{refusal_status};
ghost use Rattle.rx_cellar.specs.Crossings.{no_answer, effect_of};
ghost use Rattle.rx_cellar.specs.Makings.{of_nothing, shown};
ghost use Rattle.rx_cellar.specs.Cellars.{told, counted_if};
ghost use Rattle.rx_cellar.specs.Frequent.{IsToldOrRefused};

use crate::cellar::Cellar;
use crate::making::{Made, nothing_made};
use crate::rest::fill_few_closings;
use crate::shapes::{Answer, Effect, effect_of};
use crate::status::{DONE, NO_SUCH_CODE, status_of};
use rx_book::Refusal;
use rx_roles::{Effect as Sent, What};

/// Nothing was done, for this cause. It is rare, and a call costs what is frequent no register.
#[cold]
#[inline(never)]
pub(crate) fn refuse(why: Refusal, answer: &mut Answer) -> u8
    ensures status { result ≡ refusal_status why }
    ensures answer { answer.new ≡ no_answer answer.old }
{
    answer.clear();
    status_of(why)
}

/// Nothing was done: a number of the command is none.
#[cold]
#[inline(never)]
pub(crate) fn refuse_unknown(answer: &mut Answer) -> u8
    ensures status { result ≡ 5 }
    ensures answer { answer.new ≡ no_answer answer.old }
{
    answer.clear();
    NO_SUCH_CODE
}

impl Cellar {
    /// Writes what was done. The engine is read before the answer is written: for all that the compiler knows, they may lie
    /// in one place.
    #[inline(always)]
    pub(crate) fn tell(&self, made: Made, answer: &mut Answer)
        ensures { answer.new ≡ told made self.now.engine (no_answer answer.old) }
    {
        let copies = self.engine.copies();
        let closed = self.engine.closing_count();
        answer.node = made.node;
        answer.other = made.other;
        answer.is_connected = made.is_connected;
        answer.hub = made.hub;
        answer.copies = copies;
        answer.closed = closed as u64;
        fill_few_closings(&self.engine, &mut answer.closings);
    }

    /// What the engine gives crosses, and a release counts as told.
    #[inline(always)]
    pub(crate) fn give_out(&mut self, given: Option<Sent>) -> Option<Effect>
        ensures counts { self.new ≡ record self.old { released = counted_if given self.old.released } }
        ensures effect { result ≡ option_map effect_of given }
    {
        match given {
            Some(sent) => {
                match sent.what {
                    What::Release => self.released = self.released.saturating_add(1),
                    _ => {}
                }
                Some(effect_of(sent))
            }
            None => None,
        }
    }

    /// The answer where nothing was made.
    #[inline(always)]
    pub(crate) fn answer_done(&self, tried: Result<(), Refusal>, answer: &mut Answer) -> u8
        ensures { IsToldOrRefused (shown of_nothing tried) self.now.engine (no_answer answer.old) answer.new result }
    {
        match tried {
            Ok(()) => {
                self.tell(nothing_made(), answer);
                DONE
            }
            Err(why) => refuse(why, answer),
        }
    }
}
