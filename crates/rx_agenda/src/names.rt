//! What names stand for.

ghost use Rattle.std.specs.Prelude.{◌≡◌, [], ◌∷◌, ◌++◌, is_some, false, string_bytes, OnOk};
ghost use Rattle.rx_agenda.specs.Names.{key_named};

use std::alloc::{AllocError, Global};
use std::collections::HashMap;
use std::marker::Model;

/// A name, and the key that it stands for.
#[derive(Drop)]
pub struct Named<K> {
    pub name: String,
    pub key: K,
}

/// A space of names: the keys that they stand for, in the order in which they were bound.
///
/// Contracts see it as that list. A name is found in a number of steps that does not grow with it, by a
/// map beside the list.
#[derive(Drop)]
pub struct Names<K> {
    in_order: Vec<Named<K>>,
    by_name: HashMap<String, K>,
}

impl<K> Model for Names<K> {
    ghost use Rattle.std.specs.Prelude.{List};
    ghost use Rattle.rx_agenda.specs.declared.names.Named.{Named};
    ghost use Rattle.rx_agenda.specs.Ties.{IsTied};

    ghost Value = { List (Named K) };

    ghost view = { λ n. n.in_order.items };

    ghost invariant = { λ n. IsTied n.in_order.items n.by_name };
}

impl<K: Copy> Names<K> {
    /// No name is bound. It takes no memory.
    pub fn new(alloc: Global) -> Self
        ensures { result ≡ [] }
    {
        Names {
            in_order: Vec::new(alloc),
            by_name: HashMap::new(alloc),
        }
    }

    /// The key that the name stands for.
    pub fn get(&self, name: &str) -> Option<K>
        ensures { result ≡ key_named self.now name.now }
    {
        self.by_name.get(name).copied()
    }

    /// Whether the name stands for a key.
    pub fn is_bound(&self, name: &str) -> bool
        ensures { result ≡ is_some (key_named self.now name.now) }
    {
        self.get(name).is_some()
    }

    /// Binds a name that is not bound. Err where memory is refused.
    pub fn bind(&mut self, name: String, key: K) -> Result<(), AllocError>
        requires { is_some (key_named self.old (string_bytes name)) ≡ false }
        ensures { OnOk result (self.new ≡ self.old ++ record { name = name; key = key } ∷ []) }
    {
        self.in_order.reserve(1)?;
        let Ok(_) = self.by_name.insert(name.clone()?, key) else {
            return Err(AllocError);
        };
        match self.in_order.push(Named { name, key }) {
            Ok(()) => Ok(()),
            Err(_failed) => unreachable!(),
        }
    }

    /// All names in the order in which they were bound, with their keys.
    pub fn in_order(&self) -> &[Named<K>]
        ensures { result.now ≡ self.now }
    {
        self.in_order.as_slice()
    }
}
