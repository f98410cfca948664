//! Which nodes are open.

ghost use Rattle.std.specs.Prelude.{◌≡◌};
ghost use Rattle.rx_audit.specs.Imports.{option_and_then, parent_named, parent, if_less};
ghost use Rattle.rx_audit.specs.Tables.{IsMarked};
ghost use Rattle.rx_audit.specs.Rules.{stays_open, opens};

use crate::event_tests::event_at;
use crate::marks::is_marked;
use rx_event::Event;

/// The node that the place of node `n` names, if its number is less.
#[tactic(auto, unfolding(rx_event::specs::Tree::parent))]
pub fn parent_of(past: &[Event], n: usize) -> Option<u64>
    ensures { result ≡ parent past.now n }
{
    let p = event_at(past, n)?.parent()?;
    if p < n as u64 { Some(p) } else { None }
}

/// The node above the one that the event makes as number `n`.
pub fn parent_of_new(event: Event, n: u64) -> Option<u64>
    ensures { result ≡ option_and_then (if_less n) (parent_named event) }
{
    let p = event.parent()?;
    if p < n { Some(p) } else { None }
}

/// Whether the node that the event makes is open.
pub fn opens(past: &[Event], event: Event, marks: &[bool]) -> bool
    requires { IsMarked marks.now (stays_open past.now event) }
    ensures { result ≡ opens past.now event }
{
    let n = past.len() as u64;
    event.makes_node() && parent_of_new(event, n).is_none_or(|p| is_marked(marks, p))
}
