//! Closing everything.

ghost use Rattle.rx_event.specs.Kept.{Kept};
ghost use Rattle.rx_event.specs.Claims.Closing.{ClosingLeavesLess, NothingOpensAnew, NothingStaysOpen};

/// Once nothing is forced, and no root is open and no hub that a caller connects is connected, no
/// node is open: what RefCount connected has gone by itself, with its last subscriber.
pub fn nothing_stays_open_by_itself()
    ensures { (base : Kept) → NothingStaysOpen base }
{}

/// Neither a closing nor what is forced then opens a root or connects a hub that a caller connects.
/// So each unsubscription leaves one open root less at least, and each disconnection one connection.
pub fn closing_opens_nothing_anew()
    ensures anew { (base : Kept) → NothingOpensAnew base }
    ensures less { (base : Kept) → ClosingLeavesLess base }
{}
