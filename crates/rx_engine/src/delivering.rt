//! Effects go into their lanes.

ghost use Rattle.std.specs.Prelude.{◌≡◌, ◌+◌, ◌≤◌, ◌<◌, [], length, Some};
ghost use Rattle.rx_lanes.specs.declared.names.LaneName.{LaneName};
ghost use Rattle.rx_lanes.specs.Lane.{Lane};
ghost use Rattle.rx_lanes.specs.State.{lane, Gets};
ghost use Rattle.rx_roles.specs.Effects.{copies_in};
ghost use Rattle.rx_engine.specs.Deliveries.{many_at, put_by, Arrives, Delivers, AreNamed, less};

use rx_lanes::Lanes;
use rx_roles::{Effect, Effects, What, copies_of, is_last};

// Puts an effect into its lane.
fn put_one(lanes: &mut Lanes<Effect>, by: u64, effect: Effect)
    requires named { 0 < many_at lanes.old effect.lane }
    requires spare { 0 < lanes.old.spare }
    ensures puts { (l : Lane Effect) → lane lanes.old effect.lane ≡ Some l →
        Gets lanes.old lanes.new effect.lane (put_by by effect l) }
    ensures spare { lanes.new.spare + 1 ≡ lanes.old.spare }
{
    if matches!(effect.what, What::Release) {
        lanes.set_free(effect.lane, by, effect);
    } else {
        lanes.put(effect.lane, effect);
    }
}

// Puts an effect into its lane, and lets its role go where it is the last.
fn deliver_one(lanes: &mut Lanes<Effect>, by: u64, effect: Effect)
    requires named { 0 < many_at lanes.old effect.lane }
    requires spare { 0 < lanes.old.spare }
    ensures arrives { (l : Lane Effect) → lane lanes.old effect.lane ≡ Some l →
        Arrives by effect l lanes.old lanes.new }
    ensures spare { lanes.new.spare + 1 ≡ lanes.old.spare }
{
    put_one(lanes, by, effect);
    if is_last(effect.what) {
        lanes.leave(effect.lane);
    }
}

/// Puts all effects into their lanes, in order, and counts those that carry the value.
pub(crate) fn deliver(effects: &mut Effects, lanes: &mut Lanes<Effect>, by: u64) -> u64
    requires named { AreNamed (many_at lanes.old) effects.old.list }
    requires spare { length effects.old.list ≤ lanes.old.spare }
    ensures delivers { Delivers by lanes.old effects.old.list lanes.new }
    ensures many { (name : LaneName) → many_at lanes.new name ≡ less (many_at lanes.old) effects.old.list name }
    ensures spare { lanes.new.spare + length effects.old.list ≡ lanes.old.spare }
    ensures copies { result ≡ copies_in effects.old.list }
    ensures empty { effects.new.list ≡ [] }
    ensures room { effects.old.room ≤ effects.new.room }
{
    let _count = effects.len();
    let mut at = 0;
    let mut copies = 0;
    while let Some(effect) = effects.get(at) {
        deliver_one(lanes, by, effect);
        copies += copies_of(effect.what);
        at += 1;
    }
    effects.clear();
    copies
}
