//! What names stand for, both ways.

ghost use Rattle.std.specs.Prelude.{◌≡◌, ℕ, ◌+◌, ◌<◌, ◌≤◌, None, option_map, is_some, string_bytes, IfOk, IfSome, IfNone, OnOk};
ghost use Rattle.std.specs.Bool.{nat_eq};
ghost use Rattle.std.specs.List.{list_any};
ghost use Rattle.rx_line.specs.Names.{spot_of, name_of_number, room_for_names, AreNone, IsPaired, AreSameNames, Binds, Forgets};

use std::alloc::{AllocError, Global};
use std::collections::HashMap;
use std::marker::Model;

/// Where something lies in its book, and its number.
#[derive(Clone, Copy)]
pub struct Spot {
    pub slot: u64,
    pub number: u64,
}

/// A name that is to be bound, once for each way.
pub struct Twice {
    one: String,
    other: String,
}

// Written out, so that where one is let go there is one call to prove, and not the drop of each name.
impl Drop for Twice {
    fn drop(self) {
        let Twice {
            one: _one,
            other: _other,
        } = self;
    }
}

/// A space of names, each of which stands for one number: from the name to where that lies, and from the
/// number to its name.
///
/// Contracts see it as those two functions (`specs/Names.antt`).
#[derive(Drop)]
pub struct Names {
    by_name: HashMap<String, Spot>,
    by_number: HashMap<u64, String>,
}

impl Model for Twice {
    ghost use Rattle.std.specs.Prelude.{◌≡◌, string_bytes};
    ghost use Rattle.rx_scenario.specs.Scenario.{Name};

    ghost Value = { Name };

    ghost view = { λ t. string_bytes t.one };

    ghost invariant = { λ t. string_bytes t.other ≡ string_bytes t.one };
}

impl Twice {
    /// The name, twice. Err where memory is refused.
    pub fn new(name: String) -> Result<Twice, AllocError>
        ensures { IfOk result (λ t. t ≡ string_bytes name) }
    {
        let other = name.clone()?;
        Ok(Twice { one: name, other })
    }

    // The name, and the name once more.
    fn into_both(self) -> (String, String)
        ensures one { string_bytes result.0 ≡ self }
        ensures other { string_bytes result.1 ≡ self }
    {
        let Twice { one, other } = self;
        (one, other)
    }
}

impl Names {
    /// No name is bound. It takes no memory.
    pub fn new(alloc: Global) -> Self
        ensures none { AreNone result }
        ensures paired { IsPaired result }
    {
        Names {
            by_name: HashMap::new(alloc),
            by_number: HashMap::new(alloc),
        }
    }

    /// The spot that the name stands for.
    pub fn get(&self, name: &str) -> Option<Spot>
        ensures { result ≡ spot_of self.now name.now }
    {
        self.by_name.get(name).copied()
    }

    /// The name of a number.
    pub fn name_of(&self, number: u64) -> Option<&str>
        ensures { option_map (λ s. s.now) result ≡ name_of_number self.now number }
    {
        match self.by_number.get(&number) {
            Some(name) => Some(name.as_str()),
            None => None,
        }
    }

    /// The numbers that have names, in no order. Err where memory is refused.
    pub fn numbers(&self, alloc: Global) -> Result<Vec<u64>, AllocError>
        ensures { IfOk result (λ numbers. (k : ℕ) → is_some (name_of_number self.now k) ≡ list_any (nat_eq k) numbers.items) }
    {
        self.by_number.keys().copied().collect(alloc)
    }

    /// Gets room for two more names. Err where memory is refused.
    pub fn make_room(&mut self) -> Result<(), AllocError>
        ensures same { AreSameNames self.old self.new }
        ensures paired { IsPaired self.old → IsPaired self.new }
        ensures ok { OnOk result (2 ≤ room_for_names self.new) }
    {
        self.by_name.reserve(2)?;
        self.by_number.reserve(2)
    }

    /// Binds a name that is not bound to a number that has none, where there is room. It takes no memory.
    pub fn bind(&mut self, name: Twice, spot: Spot)
        requires room { 0 < room_for_names self.old }
        requires free { spot_of self.old name ≡ None }
        requires unnamed { name_of_number self.old spot.number ≡ None }
        ensures paired { IsPaired self.old → IsPaired self.new }
        ensures binds { Binds self.old name spot self.new }
        ensures room { room_for_names self.old ≤ room_for_names self.new + 1 }
    {
        let (one, other) = name.into_both();
        let number = spot.number;
        let Ok(_) = self.by_name.insert(one, spot) else {
            unreachable!()
        };
        let Ok(_) = self.by_number.insert(number, other) else {
            unreachable!()
        };
    }

    /// Forgets the name of a number, and answers it; it is free again.
    pub fn forget(&mut self, number: u64) -> Option<String>
        requires { IsPaired self.old }
        ensures paired { IsPaired self.new }
        ensures value { option_map string_bytes result ≡ name_of_number self.old number }
        ensures some { IfSome result (λ name. Forgets self.old number (string_bytes name) self.new) }
        ensures none { IfNone result (AreSameNames self.old self.new) }
        ensures room { room_for_names self.old ≤ room_for_names self.new }
    {
        let name = self.by_number.remove(&number)?;
        self.by_name.remove(name.as_str());
        Some(name)
    }
}
