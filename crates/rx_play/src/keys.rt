//! The keys that were given out.

use rx_book::{At, Key};
use std::alloc::Global;

/// The slot of each key that was given out, at its number.
#[derive(Drop)]
pub struct Keys {
    slots: Vec<u64>,
}

impl Keys {
    pub fn new(alloc: Global) -> Keys {
        Keys {
            slots: Vec::new(alloc),
        }
    }

    /// The slot of this number; that of no key where there is none.
    pub fn slot(&self, number: u64) -> u64 {
        match self.slots.get(number as usize) {
            Some(slot) => *slot,
            None => u64::MAX,
        }
    }

    pub fn node(&self, number: u64) -> Key {
        let slot = self.slot(number);
        Key { slot, number }
    }

    /// Keeps a slot, and answers the number. Without memory it is not kept.
    pub fn keep(&mut self, number: u64, slot: u64) -> u64 {
        for _ in self.slots.len()..=number as usize {
            let _ = self.slots.push(u64::MAX);
        }
        if let Some(place) = self.slots.get_mut(number as usize) {
            *place = slot;
        }
        number
    }

    /// The place of this word, below this node.
    pub fn place(&self, word: &str, node: u64) -> At {
        let key = self.node(node);
        match word {
            "source" => At::Source(key),
            "inner" => At::Inner(key),
            "notifier" => At::Notifier(key),
            _ => At::Root,
        }
    }
}
