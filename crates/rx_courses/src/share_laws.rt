//! What holds of the shares of every engine.

ghost use Rattle.rx_courses.specs.SharesServed.{ServesShares};

use rx_book::Resource;
use rx_resource::Token;

/// A share that a hub serves gets that hub, and no other while it serves it; a share is refused a hub only where none
/// before the limit may serve it; and a hub that no node names has neither open subscribers nor an open connection.
pub fn shares_are_served()
    ensures { ServesShares ⟦<Token as Resource>⟧ }
{}
