//! Open nodes.

ghost use Rattle.rx_event.specs.Kept.{Kept};
ghost use Rattle.rx_event.specs.Claims.Nodes.{ClosedStaysClosed, NodesPlaced, OneOpenInner};

/// A node below one that is not open is not open, and a node that is not open stays so under any
/// further event.
pub fn closed_stays_closed()
    ensures { ClosedStaysClosed }
{}

/// A Switch has at most one open inner observable: the latest.
pub fn a_switch_has_one_open_inner()
    ensures { (base : Kept) → OneOpenInner base }
{}

/// In a lawful history nodes stand below nodes: a source below what has a place for one, an inner
/// observable below a FlatMap or a Switch, a notifier below a TakeUntil, a connection below none.
pub fn nodes_stand_below_nodes()
    ensures { (base : Kept) → NodesPlaced base }
{}
