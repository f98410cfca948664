//! What the operators have to do.

ghost use Rattle.std.specs.Prelude.{◌≡◌, IfSome, IfNone};
ghost use Rattle.rx_hub.specs.Operators.{IsChained, IsDueAt, IsQuiet, from_due};

use rx_event::Terminal;
use rx_resource::Resource;
use rx_tree::{Key, Tree};

/// A node that has to end by its operator's rule, and how.
#[derive(Clone, Copy)]
pub struct Due {
    /// The node's key.
    pub node: Key,
    /// How it has to end.
    pub terminal: Terminal,
}

/// What an operator has to do next, by the marks of the records: which mirroring node ends, TakeUntil,
/// FlatMap or Switch, and how (Observable Contract; TakeUntil, FlatMap, Switch). None only where
/// nothing is due at any record.
///
/// It looks at what is on the chain alone, drops the heads at which nothing is due, and leaves the
/// records as they are. It takes no memory.
#[inline(always)]
pub fn next_due<R: Resource>(tree: &mut Tree<R>) -> Option<Due>
    requires chained { IsChained tree.old.nodes tree.old.chain }
    ensures due { IfSome result (IsDueAt tree.old.nodes) }
    ensures none { IfNone result (IsQuiet tree.old.nodes) }
    ensures kept { tree.new ≡ record tree.old { chain = from_due tree.old.nodes tree.old.chain } }
    ensures chained { IsChained tree.new.nodes tree.new.chain }
{
    while let Some(node) = tree.pending() {
        if let Some(record) = tree.get(node)
            && let Some(terminal) = record.terminal_due()
        {
            return Some(Due { node, terminal });
        }
        tree.unchain();
    }
    None
}
