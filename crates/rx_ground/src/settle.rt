//! What operators and hubs still have to do, done.

ghost use Rattle.std.specs.Prelude.{◌≡◌, ◌<◌, ◌∷◌, [], true, MatchOption};
ghost use Rattle.rx_event.specs.Forced.{IsSettled};
ghost use Rattle.rx_register.specs.Paid.{IsPaid};
ghost use Rattle.rx_hub.specs.declared.hub.HubDue.{HubDue};
ghost use Rattle.rx_hub.specs.Due.{event_of};
ghost use Rattle.rx_ground.specs.Ties.{IsReady, IsNext, WithChain};
ghost use Rattle.rx_ground.specs.Ties.{HasRoomToConnect, is_there, key_due};
ghost use Rattle.rx_ground.specs.Settling.{Settles};
ghost use Rattle.rx_ground.specs.Wrote.{IsBetween, Wrote, ChangesForced};
ghost use Rattle.rx_ground.specs.Shown.{list_room};

use crate::base::Ground;
use rx_hub::{Due, HubDue, next_due};
use rx_resource::Resource;

impl<R: Resource> Ground<R> {
    /// Whether no hub and no node was changed so that something may be due there: then nothing is forced.
    #[inline(always)]
    fn is_calm(&self) -> bool
        requires between { IsBetween R.Resource self.now }
        ensures { result ≡ true → IsSettled self.now.register.base self.now.register.history }
    {
        if !self.hubs.is_calm() {
            return false;
        }
        self.tree.is_calm()
    }

    /// What is forced next; None where nothing is. What is due at a hub comes first, since nothing else is
    /// forced while one waits for its connection.
    #[cold]
    #[inline(never)]
    fn find_forced(&mut self) -> Option<HubDue>
        requires between { IsBetween R.Resource self.old }
        ensures between { IsBetween R.Resource self.new }
        ensures next { MatchOption result (IsSettled self.new.register.base self.new.register.history)
            (IsNext self.new) }
        ensures kept { WithChain self.old self.new }
    {
        if let Some(due) = self.hubs.next_forced() {
            return Some(due);
        }
        let Due { node, terminal } = next_due(&mut self.tree)?;
        Some(HubDue::End(node, terminal))
    }

    /// Writes what is due: a hub connects, a node ends, or a connection closes.
    #[cold]
    #[inline(never)]
    fn write_due(&mut self, due: HubDue)
        requires between { IsBetween R.Resource self.old }
        requires ready { IsReady self.old.register (event_of due) }
        requires there { is_there self.old.tree.nodes (key_due due) ≡ true }
        requires room { (g : _) → due ≡ HubDue.Connect g → (0 < self.old.tree.nodes.room) × (0 < list_room self.old) }
        ensures wrote { Wrote R.Resource self.old (event_of due ∷ []) self.new }
        ensures frame { ChangesForced self.old self.new }
    {
        match due {
            HubDue::Connect(hub) => {
                let _ = self.write_connect(hub);
            }
            HubDue::End(node, terminal) => self.write_end(node, terminal),
            HubDue::Close(connection) => self.write_close(connection),
        }
    }

    /// Writes what is forced until nothing is. It takes no memory: for the one connection that may be
    /// forced there is room.
    #[inline(always)]
    pub fn settle(&mut self)
        requires between { IsBetween R.Resource self.old }
        requires paid { IsPaid self.old.register }
        requires room { HasRoomToConnect self.old.register.history self.old.tree.nodes.room (list_room self.old) }
        ensures { Settles R.Resource self.old self.new }
    {
        if self.is_calm() {
            return;
        }
        self.settle_all();
    }

    // Writes what is forced, event by event, where something may be due.
    #[cold]
    #[inline(never)]
    fn settle_all(&mut self)
        requires between { IsBetween R.Resource self.old }
        requires paid { IsPaid self.old.register }
        requires room { HasRoomToConnect self.old.register.history self.old.tree.nodes.room (list_room self.old) }
        ensures { Settles R.Resource self.old self.new }
    {
        while let Some(due) = self.find_forced() {
            self.register.promise();
            self.write_due(due);
            if self.is_calm() {
                return;
            }
        }
    }
}
