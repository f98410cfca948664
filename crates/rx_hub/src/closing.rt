//! What a closing takes away from the hubs.

ghost use Rattle.std.specs.Prelude.{◌≡◌, ◌∷◌, [], map};
ghost use Rattle.rx_hub.specs.Closing.{AreClosing, IsKnown, after_closing};

use crate::hub::LastEnd;
use crate::hubs::Hubs;
use rx_tree::Closed;

impl Hubs {
    /// Lets all nodes that a closing moved out of their tree leave the hubs. The subscribers among them
    /// are taken away, the others stay in order; a connection among them is taken away as by
    /// `disconnect`, with how it ended where it ended by itself (Publish, RefCount). It takes no memory,
    /// and time that grows with what was closed.
    ///
    /// Each closed node stands in the hubs as what its event made it.
    #[inline(always)]
    pub fn leave_closed(&mut self, closed: &[Closed], ended: Option<LastEnd>)
        requires closing { AreClosing self.old.hubs closed.now }
        ensures { self.new ≡ record self.old { hubs = map (after_closing closed.now ended) self.old.hubs } }
    {
        if self.store.len() == 0 {
            return;
        }
        for one in closed {
            self.leave_one(one, &ended);
        }
    }

    // Lets one closed node leave the hub that it subscribed to, or connected.
    #[inline(always)]
    fn leave_one(&mut self, closed: &Closed, ended: &Option<LastEnd>)
        requires known { IsKnown self.old.hubs closed.now }
        ensures { self.new ≡ record self.old { hubs = map (after_closing (closed.now ∷ []) ended.now) self.old.hubs } }
    {
        if let Some(hub) = closed.subscribes_to() {
            self.leave(hub, closed.key());
        } else if let Some(hub) = closed.connects() {
            self.disconnect(hub, *ended);
        }
    }
}
