//! A law of the words of lanes, which no call needs and a caller may cite.

ghost use Rattle.rx_roles.specs.declared.effect.Effect.{Effect as Sent};
ghost use Rattle.rx_cellar.specs.Words.{WordsFindTheirLanes};

/// As long as a lane is open, the word that an answer has for it finds it.
pub fn words_find_their_lanes()
    ensures { WordsFindTheirLanes Sent }
{}
