//! What is left of the record of a node once the node is closed.

ghost use Rattle.std.specs.Prelude.{◌≡◌};
ghost use Rattle.rx_event.specs.Events.{hub_connected, hub_subscribed};

use crate::made::Made;
use crate::node::Node;
use rx_event::Event;
use rx_marks::Marks;
use rx_slots::Key;
use std::marker::Model;

/// The record of a node that was moved out of its tree, with the key that it had there. It is seen as a
/// record with the fields `key` and `node`, and keeps the words of the tree's own record, in 64 bytes: no event is
/// made but by [`Closed::made`].
#[derive(Drop)]
pub struct Closed {
    pub(crate) number: u64,
    pub(crate) made: Made,
    pub(crate) marks: Marks,
    // The slot where it stood.
    pub(crate) home: u32,
}

impl Model for Closed {
    ghost use Rattle.rx_tree.specs.Closing.{Closed as Shown};

    ghost Value = { Shown };

    ghost use Rattle.rx_tree.specs.Record.{node_in};

    ghost view = { λ m. record { key = record { slot = m.home; number = m.number }; node = node_in m.made m.marks } };
}

impl Closed {
    /// The key that found it.
    #[inline(always)]
    pub fn key(&self) -> Key
        ensures { result ≡ self.now.key }
    {
        Key {
            slot: u64::from(self.home),
            number: self.number,
        }
    }

    /// The record as it was.
    pub fn node(&self) -> Node
        ensures { result ≡ self.now.node }
    {
        Node {
            made: self.made(),
            above: self.parent(),
            marks: self.marks(),
        }
    }

    /// The Open or Connect that made it.
    #[inline(always)]
    pub fn made(&self) -> Event
        ensures { result ≡ self.now.node.made }
    {
        self.made.event()
    }

    /// The key of the node that it stood below; None for a root and for a connection.
    #[inline(always)]
    pub fn parent(&self) -> Option<Key>
        ensures { result ≡ self.now.node.above }
    {
        self.made.above()
    }

    /// What it remembered of what happened below it.
    #[inline(always)]
    pub fn marks(&self) -> Marks
        ensures { result ≡ self.now.node.marks }
    {
        self.marks
    }

    /// The hub that it connected; None where it was no connection.
    #[inline(always)]
    pub fn connects(&self) -> Option<u64>
        ensures { result ≡ hub_connected self.now.node.made }
    {
        self.made.connects()
    }

    /// The hub that it subscribed to; None where it was no subscriber.
    #[inline(always)]
    pub fn subscribes_to(&self) -> Option<u64>
        ensures { result ≡ hub_subscribed self.now.node.made }
    {
        self.made.subscribes_to()
    }
}
