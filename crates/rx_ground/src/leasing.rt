//! Leases, given out and given back. Neither takes memory.

ghost use Rattle.std.specs.Prelude.{◌≡◌, ◌<◌, [], ◌∷◌, true, length, IsTrue};
ghost use Rattle.rx_event.specs.declared.event.Event.{Event};
ghost use Rattle.rx_tree.specs.Resources.{is_owned_at};
ghost use Rattle.rx_ground.specs.Leases.{is_out_at};
ghost use Rattle.rx_ground.specs.Ties.{IsReady};
ghost use Rattle.rx_ground.specs.Wrote.{IsBetween, Wrote, ChangesLeases};

use crate::base::Ground;
use crate::leases::LeaseKey;
use rx_event::Event;
use rx_resource::Resource;
use rx_tree::ResKey;

impl<R: Resource> Ground<R> {
    /// Gives out a lease of an owned resource, for which there is room.
    #[inline(always)]
    pub fn write_lease(&mut self, res: ResKey) -> LeaseKey
        requires between { IsBetween R.Resource self.old }
        requires ready { IsReady self.old.register (Event.Lease res.number) }
        requires owned { IsTrue (is_owned_at self.old.tree res) }
        requires room { 0 < self.old.leases.room }
        ensures wrote { Wrote R.Resource self.old (Event.Lease res.number ∷ []) self.new }
        ensures frame { ChangesLeases self.old self.new }
        ensures number { result.number ≡ length self.old.register.history }
        ensures out { is_out_at self.new.leases result ≡ true }
    {
        self.register.promise();
        self.tree.promise();
        let number = self.register.len();
        let lease = self.leases.lease(number, res);
        self.tree.lend(res);
        self.register.write(Event::Lease(res.number));
        lease
    }

    /// Takes a lease back that is out.
    #[inline]
    pub fn write_return(&mut self, lease: LeaseKey)
        requires between { IsBetween R.Resource self.old }
        requires ready { IsReady self.old.register (Event.Return lease.number) }
        requires out { IsTrue (is_out_at self.old.leases lease) }
        ensures wrote { Wrote R.Resource self.old (Event.Return lease.number ∷ []) self.new }
        ensures frame { ChangesLeases self.old self.new }
    {
        self.register.promise();
        self.tree.promise();
        self.leases.promise();
        let Some(res) = self.leases.give_back(lease) else {
            unreachable!()
        };
        self.tree.unlend(res);
        self.register.write(Event::Return(lease.number));
    }
}
