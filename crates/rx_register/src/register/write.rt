//! Writing an event down.

ghost use Rattle.std.specs.Prelude.{◌≡◌, ◌+◌, ◌<◌, [], ◌∷◌, ◌++◌};
ghost use Rattle.rx_event.specs.Notes.{mail_of};
ghost use Rattle.rx_event.specs.Lawful.{MayFollow};

use super::Register;
use rx_event::Event;

impl Register {
    /// Writes an event that may come next, whose notes were told. It takes no memory.
    #[inline(always)]
    pub fn write(&mut self, event: Event)
        requires next { MayFollow self.old.base self.old.history event }
        requires room { 0 < self.old.room }
        requires told { self.old.pending ≡ mail_of self.old.history event }
        ensures base { self.new.base ≡ self.old.base }
        ensures events { self.new.history ≡ self.old.history ++ event ∷ [] }
        ensures pending { self.new.pending ≡ [] }
        ensures room { self.new.room + 1 ≡ self.old.room }
        ensures limit { self.new.limit ≡ self.old.limit }
        ensures given { self.new.given ≡ self.old.given }
        ensures mail_room { self.new.mail_room ≡ self.old.mail_room }
    {
        self.history.push_reserved(event);
        self.told = self.mail.len();
        match event {
            Event::Item(_, _) => self.item_total += 1,
            Event::Accept(_, _) => self.accepted_total += 1,
            Event::Take(_) => self.taken_total += 1,
            _ => {}
        }
    }
}
