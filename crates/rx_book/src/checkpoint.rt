//! A checkpoint: what the history leaves, in place of it.

ghost use Rattle.rx_book.specs.Checkpoints.{AnswersCheckpoint};

use crate::Book;
use rx_event::Refusal;
use rx_resource::Resource;

impl<R: Resource> Book<R> {
    /// Puts what the history leaves in place of its events, and gives their memory back: so a run that
    /// never ends does not end in `Full`. Answers how many events there ever were, which stays as it was,
    /// as do the keys of all that is open, held or leased, what is owed, and all that may happen next. The
    /// limit on the events, and the notes that are handed out, count from here. The events before are no
    /// longer to be had.
    ///
    /// Refused, in this order: `MailLeft` while notes were not handed out, `TooMany` where there were more
    /// than 9,223,372,036,854,775,807 events, `NoMemory`, since room for what closing everything may need is
    /// gotten anew. A refusal changes nothing.
    ///
    /// It costs what is there, and does not grow with the history.
    pub fn checkpoint(&mut self) -> Result<u64, Refusal>
        ensures { AnswersCheckpoint self.old self.new result }
    {
        self.ground.promise();
        if let Some(why) = self.ground.checkpoint_cause() {
            return Err(why);
        }
        let at = self.ground.len();
        match self.ground.checkpoint() {
            Ok(()) => Ok(at),
            Err(_) => Err(Refusal::NoMemory),
        }
    }
}
