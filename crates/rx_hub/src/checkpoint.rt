//! What a checkpoint keeps of hubs.

ghost use Rattle.std.specs.Prelude.{◌≡◌, IfOk, length, map, option_map, slice_get};
ghost use Rattle.std.specs.List.{range_with_len, filter_map};

use crate::hubs::Hubs;
use rx_event::BaseHub;
use std::alloc::{AllocError, Global};

impl Hubs {
    ghost use Rattle.rx_hub.specs.Due.{IsQuiet};
    ghost use Rattle.rx_hub.specs.Hubs.{hub_as_kept, without_end};

    // What is kept of the hub at an index.
    fn base_hub(&self, index: usize) -> Option<BaseHub>
        ensures { result ≡ option_map hub_as_kept (slice_get self.now.hubs index) }
    {
        let hub = self.nth(index)?;
        Some(BaseHub {
            number: hub.number,
            mode: hub.mode,
        })
    }

    // What is kept of the hubs, index by index.
    fn list_hubs(&self, alloc: Global) -> Result<Vec<BaseHub>, AllocError>
        ensures { IfOk result (λ kept. kept.items ≡
            filter_map (λ i. option_map hub_as_kept (slice_get self.now.hubs i)) (range_with_len 0 (length self.now.hubs))) }
    {
        (0..self.len())
            .filter_map(|index| self.base_hub(index))
            .collect(alloc)
    }

    /// What a checkpoint keeps of the hubs, by rising number. Refused only where memory was refused.
    pub fn base_hubs(&self, alloc: Global) -> Result<Vec<BaseHub>, AllocError>
        ensures { IfOk result (λ kept. kept.items ≡ map hub_as_kept self.now.hubs) }
    {
        self.list_hubs(alloc)
    }

    /// Forgets how connections ended by themselves. Nothing is due at any hub, so no subscriber that is
    /// there has still to end in such a way, and those that come are younger. It takes no memory.
    pub fn forget_ends(&mut self)
        requires { IsQuiet self.old.hubs }
        ensures { self.new ≡ record self.old { hubs = map without_end self.old.hubs } }
    {
        self.store.forget_ends();
    }
}
