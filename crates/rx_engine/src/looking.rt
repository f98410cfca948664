//! What an engine's book and lanes say of themselves, and whether anything is left.

ghost use Rattle.std.specs.Prelude.{◌≡◌};
ghost use Rattle.rx_engine.specs.LettingGo.{is_over};

use crate::engine::Engine;
use rx_book::Book;
use rx_lanes::Lanes;
use rx_resource::Token;
use rx_roles::Effect;

impl Engine {
    /// The book, to be looked at: how much is open, held, leased, accepted and released, which keys find something,
    /// and each event since the last checkpoint.
    pub fn book(&self) -> &Book<Token>
        ensures { result.now ≡ self.now.book }
    {
        &self.book
    }

    /// The lanes, to be looked at: which names find one, what stands where, and how many effects wait.
    pub fn lanes(&self) -> &Lanes<Effect>
        ensures { result.now ≡ self.now.parts.lanes }
    {
        &self.parts.lanes
    }

    /// Whether nothing is left: nothing is open or held, no lease is out, and no effect stands in a lane. It walks
    /// over the lanes only where the rest is so.
    pub fn is_done(&self) -> bool
        ensures { result ≡ is_over self.now }
    {
        self.book.open_count() == 0
            && self.book.held() == 0
            && self.book.leases() == 0
            && self.parts.lanes.waiting() == 0
    }
}
