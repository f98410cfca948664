//! The record of a node with its links, as it stands at a slot, and what it tells of the node in place.

ghost use Rattle.std.specs.Prelude.{◌≡◌, ◌<◌, ◌^◌, IsTrue, IfSome, option_map, is_some};
ghost use Rattle.rx_event.specs.Events.{makes_node, parent_named, is_root, is_leaf, is_switch, is_until, is_merging, has_source, is_connect};
ghost use Rattle.rx_event.specs.Events.{source_named, notifier_named, hub_connected, hub_subscribed};
ghost use Rattle.rx_event.specs.Marks.{terminal_due};
ghost use Rattle.rx_tree.specs.Store.{alone, no_counts};
ghost use Rattle.rx_tree.specs.declared.links.Place.TheVariants.{Children, Held, Sibling, Noted};

use crate::closed::Closed;
use crate::counts::Counts;
use crate::links::{Link, Place};
use crate::made::{KindWord, Made, PlaceWord};
use crate::node::Node;
use rx_event::{Event, Terminal};
use rx_marks::Marks;
use rx_slots::Key;
use std::marker::Model;

/// The record of an open node as it stands in the tree, to be read in place: what made the node, its
/// marks, and its links. It is seen as a record with the field `node`; its links are the tree's own.
///
/// It takes 88 bytes, so that a node takes little memory.
#[derive(Drop)]
pub struct Record {
    pub(crate) made: Made,
    pub(crate) marks: Marks,
    /// Among its siblings.
    pub(crate) sibling: Link,
    /// Among the nodes that may be due.
    pub(crate) noted: Link,
    /// To its first and last child.
    pub(crate) children: Link,
    /// To the first and last resource that it owns and that has no lease out.
    pub(crate) held: Link,
    /// How many resources it owns.
    pub(crate) held_count: Counts,
}

impl Model for Record {
    ghost use Rattle.rx_tree.specs.Record.{LinkedNode};

    ghost Value = { LinkedNode };

    ghost use Rattle.rx_tree.specs.Record.{node_in};

    ghost view = { λ l. record {
      node = node_in l.made l.marks;
      sibling = l.sibling;
      noted = l.noted;
      children = l.children;
      held = l.held;
      held_count = l.held_count;
    } };
}

impl Record {
    // A record at a slot that stands on no ring.
    #[inline(always)]
    #[tactic(auto, using(crate::proofs::WordsOfNodes::node_back))]
    pub(crate) fn alone(node: Node, slot: usize) -> Self
        requires makes { IsTrue (makes_node node.made) }
        requires named { parent_named node.made ≡ option_map (λ key. key.number) node.above }
        requires above_fits { IfSome node.above (λ key. key.slot < 2 ^ 32) }
        ensures node { result.node ≡ node }
        ensures sibling { slot < 2 ^ 29 → result.sibling ≡ alone (Sibling slot) }
        ensures noted { slot < 2 ^ 29 → result.noted ≡ alone (Noted slot) }
        ensures children { slot < 2 ^ 29 → result.children ≡ alone (Children slot) }
        ensures held { slot < 2 ^ 29 → result.held ≡ alone (Held slot) }
        ensures held_count { result.held_count ≡ no_counts }
    {
        Record {
            made: Made::of(node.made, node.above),
            marks: node.marks,
            sibling: Link::alone(Place::Sibling(slot)),
            noted: Link::alone(Place::Noted(slot)),
            children: Link::alone(Place::Children(slot)),
            held: Link::alone(Place::Held(slot)),
            held_count: Counts::zero(),
        }
    }

    // The record itself.
    #[inline(always)]
    pub(crate) fn node(&self) -> Node
        ensures { result ≡ self.now.node }
    {
        Node {
            made: self.made.event(),
            above: self.made.above(),
            marks: self.marks,
        }
    }

    // What is left of it where its node is moved out of the tree.
    #[inline(always)]
    pub(crate) fn closed(&self, key: Key) -> Closed
        requires fits { key.slot < 2 ^ 32 }
        ensures key { result.key ≡ key }
        ensures node { result.node ≡ self.now.node }
    {
        Closed {
            number: key.number,
            made: self.made,
            marks: self.marks,
            home: key.slot as u32,
        }
    }

    /// The Open or Connect that made it.
    #[inline(always)]
    pub fn made(&self) -> Event
        ensures { result ≡ self.now.node.made }
    {
        self.made.event()
    }

    /// The key of the node that it stands below; None for a root and for a connection.
    #[inline(always)]
    pub fn parent(&self) -> Option<Key>
        ensures { result ≡ self.now.node.above }
    {
        self.made.above()
    }

    /// What it remembers of what happened below it.
    #[inline(always)]
    pub fn marks(&self) -> Marks
        ensures { result ≡ self.now.node.marks }
    {
        self.marks
    }

    /// How many projected items have neither got an inner observable nor been declined.
    #[inline(always)]
    pub fn owed(&self) -> u64
        ensures { result ≡ self.now.node.marks.owed }
    {
        self.marks.owed()
    }

    /// How many nodes are open directly below it.
    #[inline(always)]
    pub fn open_children(&self) -> u64
        ensures { result ≡ self.now.node.marks.open_children }
    {
        self.marks.open_children()
    }

    /// Whether a source was ever opened below it.
    #[inline(always)]
    pub fn source_opened(&self) -> bool
        ensures { result ≡ self.now.node.marks.source_opened }
    {
        self.marks.source_opened()
    }

    /// Whether a notifier was ever opened below it.
    #[inline(always)]
    pub fn notifier_opened(&self) -> bool
        ensures { result ≡ self.now.node.marks.notifier_opened }
    {
        self.marks.notifier_opened()
    }

    /// Whether it stands below a node.
    #[inline(always)]
    pub fn is_below(&self) -> bool
        ensures { result ≡ is_some self.now.node.above }
    {
        match self.made.place {
            PlaceWord::Root => false,
            PlaceWord::Source | PlaceWord::Inner | PlaceWord::Notifier => true,
        }
    }

    // A connection stands at no place, whatever its word is.

    /// Whether it is a root. A connection is none.
    #[inline(always)]
    pub fn is_root(&self) -> bool
        ensures { result ≡ is_root self.now.node.made }
    {
        match self.made.place {
            PlaceWord::Root => !self.is_connection(),
            PlaceWord::Source | PlaceWord::Inner | PlaceWord::Notifier => false,
        }
    }

    /// Whether it stands at a Source place.
    #[inline(always)]
    pub fn is_source(&self) -> bool
        ensures { result ≡ is_some (source_named self.now.node.made) }
    {
        match self.made.place {
            PlaceWord::Source => !self.is_connection(),
            PlaceWord::Root | PlaceWord::Inner | PlaceWord::Notifier => false,
        }
    }

    /// Whether it stands at a Notifier place.
    #[inline(always)]
    pub fn is_notifier(&self) -> bool
        ensures { result ≡ is_some (notifier_named self.now.node.made) }
    {
        match self.made.place {
            PlaceWord::Notifier => !self.is_connection(),
            PlaceWord::Root | PlaceWord::Source | PlaceWord::Inner => false,
        }
    }

    /// Whether it is a leaf.
    #[inline(always)]
    pub fn is_leaf(&self) -> bool
        ensures { result ≡ is_leaf self.now.node.made }
    {
        match self.made.kind {
            KindWord::Leaf => true,
            KindWord::Pass
            | KindWord::Flat
            | KindWord::Switch
            | KindWord::Until
            | KindWord::Sub
            | KindWord::Connect => false,
        }
    }

    /// Whether it is a FlatMap or a Switch.
    #[inline(always)]
    pub fn is_merging(&self) -> bool
        ensures { result ≡ is_merging self.now.node.made }
    {
        match self.made.kind {
            KindWord::Flat | KindWord::Switch => true,
            KindWord::Leaf | KindWord::Pass | KindWord::Until | KindWord::Sub | KindWord::Connect =>
                false,
        }
    }

    /// Whether it is a Switch.
    #[inline(always)]
    pub fn is_switch(&self) -> bool
        ensures { result ≡ is_switch self.now.node.made }
    {
        match self.made.kind {
            KindWord::Switch => true,
            KindWord::Leaf
            | KindWord::Pass
            | KindWord::Flat
            | KindWord::Until
            | KindWord::Sub
            | KindWord::Connect => false,
        }
    }

    /// Whether it is a TakeUntil.
    #[inline(always)]
    pub fn is_until(&self) -> bool
        ensures { result ≡ is_until self.now.node.made }
    {
        match self.made.kind {
            KindWord::Until => true,
            KindWord::Leaf
            | KindWord::Pass
            | KindWord::Flat
            | KindWord::Switch
            | KindWord::Sub
            | KindWord::Connect => false,
        }
    }

    /// Whether it has a place for a source: it is neither a leaf nor a subscriber.
    #[inline(always)]
    pub fn has_source(&self) -> bool
        ensures { result ≡ has_source self.now.node.made }
    {
        match self.made.kind {
            KindWord::Leaf | KindWord::Sub => false,
            KindWord::Pass
            | KindWord::Flat
            | KindWord::Switch
            | KindWord::Until
            | KindWord::Connect => true,
        }
    }

    /// Whether it is a connection.
    #[inline(always)]
    pub fn is_connection(&self) -> bool
        ensures { result ≡ is_connect self.now.node.made }
    {
        match self.made.kind {
            KindWord::Connect => true,
            KindWord::Leaf
            | KindWord::Pass
            | KindWord::Flat
            | KindWord::Switch
            | KindWord::Until
            | KindWord::Sub => false,
        }
    }

    /// The hub that it connects; None where it is no connection.
    #[inline(always)]
    pub fn connects(&self) -> Option<u64>
        ensures { result ≡ hub_connected self.now.node.made }
    {
        self.made.connects()
    }

    /// The hub that it subscribes to; None where it is no subscriber.
    #[inline(always)]
    pub fn subscribes_to(&self) -> Option<u64>
        ensures { result ≡ hub_subscribed self.now.node.made }
    {
        self.made.subscribes_to()
    }

    /// How it has to end, by its marks.
    #[inline(always)]
    pub fn terminal_due(&self) -> Option<Terminal>
        ensures { result ≡ terminal_due self.now.node.made self.now.node.marks }
    {
        self.marks.terminal_due(self.made.event())
    }
}
