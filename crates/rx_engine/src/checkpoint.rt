//! A checkpoint: what the history leaves, in place of it.

ghost use Rattle.rx_engine.specs.Checkpoints.{IsCheckpointMade};

use crate::engine::Engine;
use rx_book::Refusal;

impl Engine {
    /// Puts what the history leaves in place of its events, and gives their memory back: so a run that never ends
    /// does not end in `Full`. Answers how many events there ever were. All keys stay, with what is open, held,
    /// leased and shared, and so do the effects that wait in lanes, and the closings and the lanes that are due of
    /// the last command. The limit on the events counts from here, and the events before are no longer to be had.
    /// Refused, in this order: `TooMany`, where there were more than 9,223,372,036,854,775,807 events; `NoMemory`.
    pub fn checkpoint(&mut self) -> Result<u64, Refusal>
        ensures { IsCheckpointMade self.old self.new result }
    {
        self.book.promise();
        match self.book.checkpoint() {
            Ok(at) => {
                self.book.promise();
                Ok(at)
            }
            Err(why) => Err(why),
        }
    }
}
