//! The words of lanes: a place in the low bits, above it the low bits of the turn, and at the top whether the
//! caller serves the lane already, further out.

ghost use Rattle.std.specs.Prelude.{◌≡◌};
ghost use Rattle.rx_cellar.specs.Words.{word_of, word_of_due, place_in, is_inside, is_named};

use rx_lanes::{Due, LaneName};
use rx_slots::MOST_SLOTS;

// A place is below this, as the lanes promise.
const PLACES: u64 = MOST_SLOTS as u64;

// So many turns differ in their low bits.
const TURNS: u64 = 17_179_869_184;

// What a word is that says inside, and no other.
const INSIDE: u64 = 9_223_372_036_854_775_808;

/// The word of a lane.
pub(crate) fn word_of(name: LaneName) -> u64
    ensures { result ≡ word_of name }
{
    name.turn % TURNS * PLACES + name.place as u64 % PLACES
}

/// The word of a lane that is due.
pub(crate) fn word_of_due(due: Due) -> u64
    ensures { result ≡ word_of_due due }
{
    let word = word_of(due.lane);
    if due.inside { word + INSIDE } else { word }
}

/// The place that a word names.
pub(crate) fn place_in(word: u64) -> usize
    ensures { result ≡ place_in word }
{
    (word % PLACES) as usize
}

/// Whether a word says inside.
pub(crate) fn is_inside(word: u64) -> bool
    ensures { result ≡ is_inside word }
{
    word >= INSIDE
}

/// Whether a word names the lane of this name, which stands at its place.
pub(crate) fn is_named(word: u64, name: LaneName) -> bool
    ensures { result ≡ is_named word name }
{
    // Who finds the name at the word's place has only turns left to compare.
    if place_in(word) != name.place % PLACES as usize {
        return false;
    }
    word / PLACES % TURNS == name.turn % TURNS
}
