//! The subscription tree: a record for each open node, and the resources that came to the nodes.
//!
//! Each record stands in a checked slot and is named by its [`Key`], the slot and the number of the
//! node. A [`Node`] has the event that made it, the key of the node above, and its marks, which are
//! what a rule of its operator has to know of what happened below it. Resources stand in a store of
//! their own, each under the number of its acceptance and with the key of its node: a [`ResKey`] names
//! one. A node goes on a chain of what may be due where it is given marks by which it has to end.
//!
//! # Vocabulary
//!
//! A contract sees a tree as the slots of its nodes, those of its resources, and the chain
//! (`specs/Tree.antt`): finite maps, in which `find` looks up a key. `Rewrites` says that one value
//! changes, by a function, and nothing else does. `IsPlaced` says where a node may stand, `IsNewest`
//! that its number is greater than any before, and `IsPromised` what holds of each tree.
//! `parent_number` and `IsChild` follow from the places of the events, and so does `is_below`
//! (`specs/Below.antt`): the top itself, and what leads to it from parent to parent. `IsSubtree`
//! (`specs/Closing.antt`) says what a closing moves out. `is_held` (`specs/Resources.antt`) says
//! which resources are held: those that their node owns, which `unhold` takes from it, and those of
//! which a lease is out, which `lend` and `unlend` count; the others wait. `owed_in` (`specs/Owed.antt`) is the sum of what the
//! marks of all nodes owe. `proofs/Laws` has lemmas on these for the proofs of
//! callers.
//!
//! [`Tree::get`], [`Tree::at`] and [`Tree::above`] lend a node's [`Record`], which answers one question
//! at a time where it stands: no event and no marks are made and copied for that. Its contracts speak of
//! its field `node`. [`Tree::mark_end`] and the other calls of that name write in place what one event
//! changes of the marks, where [`Tree::set_marks`] writes all of them.
//!
//! # What is promised
//!
//! Each call says what it answers, which record it changes, and that the others stay. A closing moves
//! out exactly the node and all below it, each once and as it was. After `reserve(n)`, n calls of
//! `open` succeed, and after `reserve_resources(n)` n calls of `hold`. Only these four and, for a
//! checkpoint, `base_nodes` and `base_resources` ask for memory; what they refuse changes no record, and
//! a refused resource comes back.
//!
//! Each call takes time that does not grow with the tree nor with the resources, but for a closing,
//! which costs what it moves out.
//!
//! # What is not
//!
//! That marks are true of anything: they are kept for the caller, who sets them. That a resource is
//! live or released: none is released here, and a tree that is dropped drops its resources.
#![tactic(auto)]

mod checkpoint;
mod closed;
mod counts;
mod linked;
mod links;
mod made;
mod node;
mod records;
mod sibling_rings;
mod store;
mod subtree;
mod tree;

pub use closed::Closed;
pub use linked::Record;
pub use node::{Node, ResKey, Stowed};
pub use rx_slots::Key;
pub use tree::Tree;
