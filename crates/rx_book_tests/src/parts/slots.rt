//! Callers of slots, as examples of what can be said of them. Slots that are used again, and memory that is
//! refused or just enough, are tested through a book.

ghost use Rattle.std.specs.Prelude.{◌≡◌, ◌↔◌, IsTrue, IsSome, Some};
ghost use Rattle.rx_slots.specs.Slots.{entry_of, find, Changes, KeepsOthers};

use crate::same::same;
use rx_slots::{Key, Slots};

// Writes a value through a key, where that finds one.
fn write(slots: &mut Slots<u64>, key: Key, value: u64) -> bool
    ensures found { IsTrue result ↔ IsSome (find slots.old key) }
    ensures changes { IsTrue result →
        Changes slots.old slots.new key.slot (Some (entry_of key.number value)) }
    ensures kept { KeepsOthers slots.old slots.new key }
    ensures room { slots.new.room ≡ slots.old.room }
{
    if let Some(place) = slots.get_mut(key) {
        *place = value;
        true
    } else {
        false
    }
}

#[test]
fn a_key_writes_its_own_value(rt: HostRuntime) {
    let mut slots = Slots::new(rt.alloc());
    let (other, own) = (Key { slot: 0, number: 9 }, Key { slot: 0, number: 8 });
    let inserted = slots.insert(8, 80);
    let written = [write(&mut slots, other, 99), write(&mut slots, own, 88)];
    same(
        &rt,
        (inserted, written, slots.take(own)),
        (Ok(own), [false, true], Some(88)),
    );
}
