//! The children of each node, youngest first, and its youngest inner observable.

ghost use Rattle.std.specs.Prelude.{◌≡◌, ◌+◌, ◌<◌, [], ◌∷◌, ◌++◌, IfOk, length, slice_index_or, replicate};
ghost use Rattle.rx_audit.specs.Latest.{AreChildren, table_with, link_with};
ghost use Rattle.rx_audit.specs.Verdict.{most_judged};

use crate::openness::parent_of_new;
use rx_event::Event;
use std::alloc::{AllocError, Global};

/// Lists by number: they lead from a node to its youngest child, from each child to the next older
/// one, and from a node to its youngest inner observable. Each says one more than the number, and 0
/// where there is none.
pub struct Children {
    /// By node: its youngest child.
    pub youngest: Vec<u32>,
    /// By node: the next older child of its parent.
    pub older: Vec<u32>,
    /// By node: its youngest inner observable.
    pub inner: Vec<u32>,
}

// Written out, so that where they are let go there is one call to prove, and not the drop of each list in turn.
impl Drop for Children {
    fn drop(self) {
        let Children {
            youngest: _youngest,
            older: _older,
            inner: _inner,
        } = self;
    }
}

/// A list of so many zeros.
pub fn zeros(alloc: Global, size: usize) -> Result<Vec<u32>, AllocError>
    ensures { IfOk result (λ v. v.items ≡ replicate size 0) }
{
    Ok(vec![in alloc; 0; size]?)
}

/// There are no children, with room for this many events.
pub fn no_children(alloc: Global, size: usize) -> Result<Children, AllocError>
    ensures { IfOk result (λ c. AreChildren [] size c) }
{
    Ok(Children {
        youngest: zeros(alloc, size)?,
        older: zeros(alloc, size)?,
        inner: zeros(alloc, size)?,
    })
}

/// Writes the value at the place of the key, if there is a key and the list has it.
pub fn put(table: &mut Vec<u32>, key: Option<u64>, value: u32)
    ensures { table.new.items ≡ table_with table.old.items key value }
{
    if let Some(p) = key {
        let p = p as usize;
        if p < table.len() {
            table[p] = value;
        }
    }
}

/// The value at this place of the list, as it stands there.
pub fn word_at(table: &Vec<u32>, p: u64) -> u32
    ensures { result ≡ slice_index_or table.now.items p 0 }
{
    let p = p as usize;
    if p < table.len() { table[p] } else { 0 }
}

/// The value at this place of the list.
pub fn value_at(table: &Vec<u32>, p: u64) -> usize
    ensures { result ≡ slice_index_or table.now.items p 0 }
{
    word_at(table, p) as usize
}

/// One more than a number of an event.
pub fn one_more(n: usize) -> u32
    requires { n < most_judged }
    ensures { result ≡ n + 1 }
{
    n as u32 + 1
}

/// Links number `n`, if it has a key, to the last before it with the same key.
fn put_link(next: &mut Vec<u32>, last: &Vec<u32>, key: Option<u64>, n: usize)
    requires { n < length next.old.items }
    ensures { next.new.items ≡ link_with next.old.items last.now.items key n }
{
    if let Some(p) = key {
        next[n] = word_at(last, p);
    }
}

/// Links the node that the event makes to the one above it.
pub fn link_child(past: &[Event], event: Event, children: &mut Children)
    requires children { AreChildren past.now (length children.old.youngest.items) children.old }
    requires room { length past.now < length children.old.youngest.items }
    requires short { length past.now < most_judged }
    ensures { AreChildren (past.now ++ event ∷ []) (length children.old.youngest.items) children.new }
{
    let n = past.len();
    let above = parent_of_new(event, n as u64);
    put_link(&mut children.older, &children.youngest, above, n);
    let next = one_more(n);
    put(&mut children.youngest, above, next);
    put(&mut children.inner, event.inner_of(), next);
}
