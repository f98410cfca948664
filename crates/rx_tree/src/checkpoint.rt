//! What a checkpoint keeps of a tree.

ghost use Rattle.std.specs.Prelude.{◌≡◌, IfOk, option_map};
ghost use Rattle.std.specs.List.{range_with_len, filter_map};
ghost use Rattle.rx_slots.specs.Slots.{entry_at, slot_count};
ghost use Rattle.rx_tree.specs.Bases.{IsByNumber, kept_by, node_as_kept, resource_as_kept, state_in};
ghost use Rattle.rx_tree.specs.Store.{nodes_of, resources_of};

use crate::node::Stowed;
use crate::store::Store;
use crate::tree::Tree;
use rx_event::{BaseNode, BaseResource, BaseState};
use rx_resource::Resource;
use std::alloc::{AllocError, Global};

impl<R: Resource> Store<R> {
    // What is kept of the node at a slot.
    fn base_node(&self, slot: usize) -> Option<BaseNode>
        ensures { result ≡ option_map node_as_kept (entry_at (nodes_of self.now) slot) }
    {
        let number = self.nodes.key_at(slot)?.number;
        let node = self.nodes.at(slot).node();
        let marks = node.marks;
        Some(BaseNode {
            number,
            made: node.made,
            source_opened: marks.source_opened(),
            notifier_opened: marks.notifier_opened(),
            source_completed: marks.source_completed(),
            owed: marks.owed(),
        })
    }

    // What holds a resource.
    fn state_of(&self, stowed: &Stowed<R>) -> BaseState
        ensures { result ≡ state_in (nodes_of self.now) stowed.now }
    {
        let there = self.node(stowed.node).is_some();
        if there && !stowed.removed {
            BaseState::Owned
        } else if stowed.leases != 0 {
            BaseState::Leased
        } else {
            BaseState::Waiting
        }
    }

    // What is kept of the resource at a slot.
    fn base_resource(&self, slot: usize) -> Option<BaseResource>
        ensures { result ≡ option_map (resource_as_kept R.Resource (nodes_of self.now)) (entry_at (resources_of self.now) slot) }
    {
        let entry = self.resources.entry_at(slot)?;
        let stowed = &entry.value.stowed;
        Some(BaseResource {
            number: entry.number,
            node: stowed.node.number,
            tag: stowed.resource.tag(),
            uses: stowed.resource.uses(),
            state: self.state_of(stowed),
        })
    }

    // What is kept of the nodes, by rising slot.
    fn list_nodes(&self, alloc: Global) -> Result<Vec<BaseNode>, AllocError>
        ensures { IfOk result (λ kept. kept.items ≡
            filter_map (λ slot. option_map node_as_kept (entry_at (nodes_of self.now) slot)) (range_with_len 0 (slot_count self.now.nodes))) }
    {
        (0..self.nodes.slot_count())
            .filter_map(|slot| self.base_node(slot))
            .collect(alloc)
    }

    // What is kept of the resources, by rising slot.
    fn list_resources(&self, alloc: Global) -> Result<Vec<BaseResource>, AllocError>
        ensures { IfOk result (λ kept. kept.items ≡
            filter_map (λ slot. option_map (resource_as_kept R.Resource (nodes_of self.now)) (entry_at (resources_of self.now) slot))
            (range_with_len 0 (slot_count self.now.resources))) }
    {
        (0..self.resources.slot_count())
            .filter_map(|slot| self.base_resource(slot))
            .collect(alloc)
    }

    // What is kept of the nodes, by rising number.
    fn base_nodes(&self, alloc: Global) -> Result<Vec<BaseNode>, AllocError>
        ensures { IfOk result (λ kept. IsByNumber (λ k. k.number) (kept_by node_as_kept (nodes_of self.now)) kept.items) }
    {
        let mut nodes = self.list_nodes(alloc)?;
        nodes.sort_by_key(|node| node.number)?;
        Ok(nodes)
    }

    // What is kept of the resources, by rising number.
    fn base_resources(&self, alloc: Global) -> Result<Vec<BaseResource>, AllocError>
        ensures { IfOk result (λ kept. IsByNumber (λ k. k.number)
            (kept_by (resource_as_kept R.Resource (nodes_of self.now)) (resources_of self.now)) kept.items) }
    {
        let mut resources = self.list_resources(alloc)?;
        resources.sort_by_key(|resource| resource.number)?;
        Ok(resources)
    }
}

impl<R: Resource> Tree<R> {
    /// What a checkpoint keeps of the nodes, by rising number. It goes over the slots that nodes stood at.
    /// Refused only where memory was refused.
    pub fn base_nodes(&self, alloc: Global) -> Result<Vec<BaseNode>, AllocError>
        ensures { IfOk result (λ kept. IsByNumber (λ k. k.number) (kept_by node_as_kept self.now.nodes) kept.items) }
    {
        self.store.base_nodes(alloc)
    }

    /// What a checkpoint keeps of the resources, by rising number: of those that their node owns, of
    /// those that leases alone hold, and of those that wait. It goes over the slots that resources stood
    /// at. Refused only where memory was refused.
    pub fn base_resources(&self, alloc: Global) -> Result<Vec<BaseResource>, AllocError>
        ensures { IfOk result (λ kept. IsByNumber (λ k. k.number)
            (kept_by (resource_as_kept R.Resource self.now.nodes) self.now.resources) kept.items) }
    {
        self.store.base_resources(alloc)
    }
}
