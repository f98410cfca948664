//! What the history leaves, put in its place.

ghost use Rattle.std.specs.Prelude.{◌≡◌, None, IfOk, OnOk, OnErr};
ghost use Rattle.rx_event.specs.Bases.{base_of};
ghost use Rattle.rx_event.specs.Refusals.{first_cause};
ghost use Rattle.rx_event.specs.Causes.{checkpoint_causes};
ghost use Rattle.rx_ground.specs.Checkpoints.{IsCheckpoint};
ghost use Rattle.rx_ground.specs.Ties.{IsStanding};

use crate::base::Ground;
use rx_event::{Base, BaseCounts, Refusal};
use rx_resource::Resource;
use std::alloc::AllocError;

impl<R: Resource> Ground<R> {
    /// What stands first against a checkpoint: `MailLeft` where notes were not handed out, `TooMany` where
    /// there were more than 9,223,372,036,854,775,807 events. None where nothing does.
    pub fn checkpoint_cause(&self) -> Option<Refusal>
        ensures { result ≡ first_cause (checkpoint_causes self.now.register.history self.now.register.given) }
    {
        self.register.checkpoint_cause()
    }

    // What the history leaves, told by the records of what is there.
    fn kept_base(&self) -> Result<Base, AllocError>
        requires standing { IsStanding R.Resource self.now }
        ensures { IfOk result (λ base. base ≡ base_of self.now.register.base self.now.register.history) }
    {
        self.promise();
        let alloc = *self.closed.allocator();
        let hubs = self.hubs.base_hubs(alloc)?;
        let nodes = self.tree.base_nodes(alloc)?;
        let resources = self.tree.base_resources(alloc)?;
        let leases = self.leases.base_leases(alloc)?;
        let counts = BaseCounts {
            at: self.register.len(),
            items: self.register.items(),
            accepted: self.register.accepted(),
            taken: self.register.taken(),
        };
        Ok(Base::new(counts, hubs, nodes, resources, leases))
    }

    /// Puts what the history leaves in its place, and gets room for what closing everything may need anew.
    /// The memory that the events had is given back. It goes over what is there, and over no event.
    ///
    /// Refused only where memory was refused; then nothing changes.
    pub fn checkpoint(&mut self) -> Result<(), AllocError>
        requires standing { IsStanding R.Resource self.old }
        requires no_cause { first_cause (checkpoint_causes self.old.register.history self.old.register.given) ≡ None }
        ensures ok { OnOk result (IsCheckpoint self.old self.new) }
        ensures standing { IsStanding R.Resource self.new }
        ensures refused { OnErr result (self.new ≡ self.old) }
    {
        self.promise();
        let load = self.load();
        let base = self.kept_base()?;
        self.register.rebase(base, load.debt)?;
        self.hubs.forget_ends();
        Ok(())
    }
}
