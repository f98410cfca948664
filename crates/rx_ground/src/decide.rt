//! What stands first against a call.

ghost use Rattle.std.specs.Prelude.{◌≡◌, ◌&&◌, true, false, Some, None, is_some, option_map, option_copied};
ghost use Rattle.std.specs.Prelude.{if◌then◌else◌, IfSome, IfNone};
ghost use Rattle.rx_event.specs.Events.{named_by, is_merging};
ghost use Rattle.rx_event.specs.Tree.{at};
ghost use Rattle.rx_event.specs.Moments.{owed};
ghost use Rattle.rx_event.specs.Calls.{Opening, OpeningUsing, Holding, Applying, Removing, Leasing, GivingBack};
ghost use Rattle.rx_event.specs.Calls.{Ending, Aborting, Declining, Failing, Disposing};
ghost use Rattle.rx_event.specs.Refusals.{first_cause};
ghost use Rattle.rx_slots.specs.Slots.{find};
ghost use Rattle.rx_tree.specs.Resources.{is_held_at};
ghost use Rattle.rx_ground.specs.Leases.{is_out_at};
ghost use Rattle.rx_event.specs.Causes.{by_key, projecting_causes};
ghost use Rattle.rx_event.specs.Causes.{is_crowded as is_crowded_in, is_over as is_over_in};
ghost use Rattle.rx_ground.specs.Costs.{cost_of};
ghost use Rattle.rx_ground.specs.FirstCause.{IsFreePlace, first_at, first_at_place, first_by_key, first_by_res_key, first_by_lease_key, has_node};
ghost use Rattle.rx_ground.specs.Ties.{IsStanding, is_there};
ghost use Rattle.rx_ground.specs.Told.{IsTold, IsFound, has_place as has_place_in};
ghost use Rattle.rx_ground.specs.Told.{is_used as is_used_in, is_unowed as is_unowed_in};
ghost use Rattle.rx_ground.specs.OpeningHolding.{first_holding, opening_holding_cost};

use crate::base::{Ground, Wanted};
use crate::hubs::Found;
use crate::leases::LeaseKey;
use rx_event::{Kind, Place, Refusal};
use rx_note::Terminal;
use rx_resource::Resource;
use rx_tree::{Key, Record, ResKey};

/// Whether the node of this record has such a place below it.
#[inline(always)]
fn has_place(node: &Record, place: Place) -> bool
    ensures { result ≡ has_place_in node.now.node.made place }
{
    match place {
        Place::Root => true,
        Place::Source(_) => node.has_source(),
        Place::Inner(_) => node.is_merging(),
        Place::Notifier(_) => node.is_until(),
    }
}

/// Whether its source or its notifier was opened, which the place is.
#[inline(always)]
fn is_used(node: &Record, place: Place) -> bool
    ensures { result ≡ is_used_in node.now.node.marks place }
{
    match place {
        Place::Root | Place::Inner(_) => false,
        Place::Source(_) => node.source_opened(),
        Place::Notifier(_) => node.notifier_opened(),
    }
}

/// Whether it owes no inner, where the place is one's.
#[inline(always)]
fn is_unowed(node: &Record, place: Place) -> bool
    ensures { result ≡ is_unowed_in node.now.node.marks place }
{
    match place {
        Place::Root | Place::Source(_) | Place::Notifier(_) => false,
        Place::Inner(_) => node.owed() == 0,
    }
}

impl<R: Resource> Ground<R> {
    /// The record of an open node, to be read in place; None where the key finds none.
    #[inline(always)]
    pub(crate) fn told(&self, node: Key) -> Option<&Record>
        requires { IsStanding R.Resource self.now }
        ensures some { IfSome (option_copied result)
            (λ r. IsTold self.now.register.base self.now.register.history self.now.tree.nodes node r.node) }
        ensures none { IfNone (option_copied result) (is_some (find self.now.tree.nodes node) ≡ false) }
    {
        self.tree.get(node)
    }

    /// What stands first against a place, of what the record of the node above tells.
    #[tactic(auto, using(crate::proofs::Told::placed_root, crate::proofs::Told::wrong_at, crate::proofs::Told::taken_at, crate::proofs::Told::unowed_at))]
    #[inline(always)]
    fn place_cause(&self, place: Place, above: Option<Key>) -> Option<Refusal>
        requires standing { IsStanding R.Resource self.now }
        requires named { named_by place ≡ option_map (λ key. key.number) above }
        ensures some { IfSome result (λ why. first_at_place self.now (is_there self.now.tree.nodes above) place ≡ Some why) }
        ensures none { IfNone result (IsFreePlace self.now (is_there self.now.tree.nodes above) place) }
    {
        let Some(key) = above else {
            return None;
        };
        let Some(record) = self.told(key) else {
            return Some(Refusal::Gone);
        };
        if !has_place(record, place) {
            return Some(Refusal::WrongKind);
        }
        if is_used(record, place) {
            return Some(Refusal::PlaceTaken);
        }
        if is_unowed(record, place) {
            return Some(Refusal::NothingOwed);
        }
        None
    }

    /// Whether so many open nodes more would be too many.
    #[inline(always)]
    pub(crate) fn is_crowded(&self, more: u64) -> bool
        requires { IsStanding R.Resource self.now }
        ensures { result ≡ is_crowded_in self.now.register.history more }
    {
        self.register.is_crowded(self.load(), more)
    }

    /// Whether so many events and reservations more would pass the limit, with what closing everything
    /// needs counted in. Where there is spare room, that is not summed.
    #[inline(always)]
    pub(crate) fn is_over(&self, more: u64) -> bool
        requires { IsStanding R.Resource self.now }
        ensures { result ≡ is_over_in self.now.register.base self.now.register.history self.now.register.limit more }
    {
        if self.register.has_spare(more) {
            return false;
        }
        self.is_over_in_all(more)
    }

    // Whether so many events more are too many, by what closing everything needs, summed.
    #[cold]
    #[inline(never)]
    fn is_over_in_all(&self, more: u64) -> bool
        requires { IsStanding R.Resource self.now }
        ensures { result ≡ is_over_in self.now.register.base self.now.register.history self.now.register.limit more }
    {
        self.register.is_over(self.load(), more)
    }

    /// What stands first against opening a node there, which costs so much; `above` is the key of the node
    /// that the place names.
    #[inline(always)]
    pub fn opening_cause(
        &self,
        place: Place,
        above: Option<Key>,
        kind: Kind,
        found: Found,
        cost: Wanted,
    ) -> Option<Refusal>
        requires standing { IsStanding R.Resource self.now }
        requires named { named_by place ≡ option_map (λ key. key.number) above }
        requires found { IsFound self.now.register.history self.now.hubs.hubs kind found }
        requires cost { cost ≡ cost_of self.now.register.history (Opening place kind) }
        ensures { result ≡ first_by_key self.now (is_there self.now.tree.nodes above) true (Opening place kind) }
    {
        if found.is_missing {
            return Some(Refusal::NoHub);
        }
        if let Some(why) = self.place_cause(place, above) {
            return Some(why);
        }
        if self.is_out_of_order(place, above, kind) {
            return Some(Refusal::HubOrder);
        }
        if self.is_crowded(cost.nodes as u64) {
            return Some(Refusal::TooMany);
        }
        if self.is_over(cost.events) {
            return Some(Refusal::Full);
        }
        None
    }

    /// What stands first against opening a mirroring node there with a resource.
    #[inline]
    pub fn using_cause(
        &self,
        place: Place,
        above: Option<Key>,
        _tag: u64,
        is_fresh: bool,
    ) -> Option<Refusal>
        requires standing { IsStanding R.Resource self.now }
        requires named { named_by place ≡ option_map (λ key. key.number) above }
        ensures { result ≡
            first_by_key self.now (is_there self.now.tree.nodes above) is_fresh (OpeningUsing place _tag) }
    {
        if let Some(why) = self.place_cause(place, above) {
            return Some(why);
        }
        if !is_fresh {
            return Some(Refusal::NotFresh);
        }
        let cost = Wanted::of_using(place);
        if self.is_crowded(cost.nodes as u64) {
            return Some(Refusal::TooMany);
        }
        if self.is_over(cost.events) {
            return Some(Refusal::Full);
        }
        None
    }

    /// What stands first against opening a node there that holds a resource from then on.
    #[inline]
    pub fn opening_holding_cause(
        &self,
        place: Place,
        above: Option<Key>,
        kind: Kind,
        is_fresh: bool,
        found: Found,
        cost: Wanted,
    ) -> Option<Refusal>
        requires standing { IsStanding R.Resource self.now }
        requires named { named_by place ≡ option_map (λ key. key.number) above }
        requires found { IsFound self.now.register.history self.now.hubs.hubs kind found }
        requires cost { cost ≡ opening_holding_cost self.now.register.history place kind }
        ensures { result ≡ first_holding self.now (is_there self.now.tree.nodes above) is_fresh place kind }
    {
        if found.is_missing {
            return Some(Refusal::NoHub);
        }
        if let Some(why) = self.place_cause(place, above) {
            return Some(why);
        }
        if self.is_out_of_order(place, above, kind) {
            return Some(Refusal::HubOrder);
        }
        if !is_fresh {
            return Some(Refusal::NotFresh);
        }
        if self.is_crowded(cost.nodes as u64) {
            return Some(Refusal::TooMany);
        }
        if self.is_over(cost.events) {
            return Some(Refusal::Full);
        }
        None
    }

    /// What stands first against holding a resource at the node.
    #[tactic(auto, using(crate::proofs::Told::there_open))]
    #[inline(always)]
    pub fn holding_cause(&self, node: Key, _tag: u64, is_fresh: bool) -> Option<Refusal>
        requires standing { IsStanding R.Resource self.now }
        ensures { result ≡ first_by_key self.now (has_node self.now node) is_fresh (Holding node.number _tag) }
    {
        if !self.contains(node) {
            return Some(Refusal::Gone);
        }
        if !is_fresh {
            return Some(Refusal::NotFresh);
        }
        if self.is_over(Wanted::of_holding().events) {
            return Some(Refusal::Full);
        }
        None
    }

    /// What stands first against using the resource.
    #[tactic(auto, using(crate::proofs::Told::held_in_history))]
    #[inline(always)]
    pub fn applying_cause(&self, res: ResKey) -> Option<Refusal>
        requires standing { IsStanding R.Resource self.now }
        ensures { result ≡ first_by_res_key self.now (is_held_at self.now.tree res) (Applying res.number) }
    {
        if !self.holds(res) {
            return Some(Refusal::NotHeld);
        }
        if self.is_over(Wanted::of_applying().events) {
            return Some(Refusal::Full);
        }
        None
    }

    /// What stands first against removing the resource from its node.
    #[tactic(auto, using(crate::proofs::Told::held_in_history, crate::proofs::Told::owned_in_history, crate::proofs::OwnedIsHeld::owned_is_held))]
    #[inline(always)]
    pub fn removing_cause(&self, res: ResKey) -> Option<Refusal>
        requires standing { IsStanding R.Resource self.now }
        ensures { result ≡ first_by_res_key self.now (is_held_at self.now.tree res) (Removing res.number) }
    {
        if self.owns(res) {
            return None;
        }
        if self.holds(res) {
            return Some(Refusal::Leased);
        }
        Some(Refusal::NotHeld)
    }

    /// What stands first against leasing the resource.
    #[tactic(auto, using(crate::proofs::Told::held_in_history, crate::proofs::Told::owned_in_history, crate::proofs::OwnedIsHeld::owned_is_held))]
    #[inline(always)]
    pub fn leasing_cause(&self, res: ResKey) -> Option<Refusal>
        requires standing { IsStanding R.Resource self.now }
        ensures { result ≡ first_by_res_key self.now (is_held_at self.now.tree res) (Leasing res.number) }
    {
        if !self.owns(res) {
            if self.holds(res) {
                return Some(Refusal::Leased);
            }
            return Some(Refusal::NotHeld);
        }
        if self.is_over(Wanted::of_leasing().events) {
            return Some(Refusal::Full);
        }
        None
    }

    /// What stands first against giving the lease back.
    #[tactic(auto, using(crate::proofs::Told::out_in_history))]
    #[inline(always)]
    pub fn returning_cause(&self, lease: LeaseKey) -> Option<Refusal>
        requires standing { IsStanding R.Resource self.now }
        ensures { result ≡
            first_by_lease_key self.now (is_out_at self.now.leases lease) (GivingBack lease.number) }
    {
        if !self.lends(lease) {
            return Some(Refusal::NoLease);
        }
        None
    }

    /// What stands first against the end of the leaf.
    #[tactic(auto, using(crate::proofs::Told::told))]
    #[inline(always)]
    pub fn ending_cause(&self, leaf: Key, _terminal: Terminal) -> Option<Refusal>
        requires standing { IsStanding R.Resource self.now }
        ensures { result ≡ first_at self.now leaf (Ending leaf.number _terminal) }
    {
        let Some(record) = self.tree.get(leaf) else {
            return Some(Refusal::Gone);
        };
        if !record.is_leaf() {
            return Some(Refusal::WrongKind);
        }
        None
    }

    /// What stands first against ending the node with an error.
    #[tactic(auto, using(crate::proofs::Told::child_marked))]
    #[inline(always)]
    pub fn aborting_cause(&self, node: Key, _code: u32) -> Option<Refusal>
        requires standing { IsStanding R.Resource self.now }
        ensures { result ≡ first_at self.now node (Aborting node.number _code) }
    {
        let Some(record) = self.told(node) else {
            return Some(Refusal::Gone);
        };
        if !record.made().may_abort() {
            return Some(Refusal::WrongKind);
        }
        if record.open_children() > 0 {
            return Some(Refusal::HasChild);
        }
        None
    }

    /// What stands first against an answer to an item that was projected to the node.
    #[inline(always)]
    fn projecting_cause(&self, merging: Key) -> Option<Refusal>
        requires standing { IsStanding R.Resource self.now }
        ensures { result ≡ first_cause (by_key (has_node self.now merging)
            (projecting_causes self.now.register.base self.now.register.history merging.number)) }
    {
        let Some(record) = self.told(merging) else {
            return Some(Refusal::Gone);
        };
        if !record.is_merging() {
            return Some(Refusal::WrongKind);
        }
        if record.owed() == 0 {
            return Some(Refusal::NothingOwed);
        }
        None
    }

    /// What stands first against declining an item that was projected to the node.
    #[inline(always)]
    pub fn declining_cause(&self, merging: Key) -> Option<Refusal>
        requires standing { IsStanding R.Resource self.now }
        ensures { result ≡ first_at self.now merging (Declining merging.number) }
    {
        self.projecting_cause(merging)
    }

    /// What stands first against failing at an item that was projected to the node. The code is any `u32`.
    #[inline(always)]
    pub fn failing_cause(&self, merging: Key, _code: u32) -> Option<Refusal>
        requires standing { IsStanding R.Resource self.now }
        ensures { result ≡ first_at self.now merging (Failing merging.number _code) }
    {
        self.projecting_cause(merging)
    }

    /// How many projected items an open FlatMap or Switch owes; None where the key is of no such node.
    #[inline(always)]
    pub fn owed(&self, merging: Key) -> Option<u64>
        requires standing { IsStanding R.Resource self.now }
        ensures { result ≡ (if has_node self.now merging && at is_merging self.now.register.history merging.number
            then Some (owed self.now.register.base self.now.register.history merging.number) else None) }
    {
        let record = self.told(merging)?;
        if record.is_merging() {
            Some(record.owed())
        } else {
            None
        }
    }

    /// What stands first against unsubscribing the root.
    #[inline(always)]
    pub fn disposing_cause(&self, root: Key) -> Option<Refusal>
        requires standing { IsStanding R.Resource self.now }
        ensures { result ≡ first_at self.now root (Disposing root.number) }
    {
        let Some(record) = self.told(root) else {
            return Some(Refusal::Gone);
        };
        if !record.is_root() {
            return Some(Refusal::NotRoot);
        }
        None
    }
}
