//! Where an item goes.

ghost use Rattle.std.specs.Prelude.{◌≡◌, Some, IfSome, IsSome, length};
ghost use Rattle.rx_slots.specs.Slots.{find};
ghost use Rattle.rx_hub.specs.Way.{stop_of, hub_of, way, end_of};

use crate::stop::{Reached, Stop};
use rx_event::MOST_VISITS;
use rx_resource::Resource;
use rx_tree::{Key, Record, Tree};

/// Where an item stops that reaches this node, of which this is the record; None where it goes on.
#[inline(always)]
fn stop_at<R: Resource>(tree: &Tree<R>, key: Key, read: &Record) -> Option<Stop>
    requires found { find tree.now.nodes key ≡ Some read.now.node }
    requires above { IfSome read.now.node.above (λ up. IsSome (find tree.now.nodes up)) }
    ensures { result ≡ stop_of tree.now.nodes key }
{
    if read.is_connection() {
        return Some(Stop::Connection(key));
    }
    if read.is_root() {
        return Some(Stop::Delivery(key));
    }
    if read.is_source() {
        let merging = read.parent()?;
        if tree.above(read).is_merging() {
            return Some(Stop::Projection(merging));
        }
        return None;
    }
    if read.is_notifier() {
        return Some(Stop::Firing(read.parent()?));
    }
    None
}

/// Where an item of this node goes inside the tree: up to a root, to a FlatMap or Switch that projects
/// it, to a TakeUntil that it fires, or to a connection. A way is cut off one visit after the
/// 1,048,576 that an item may make.
///
/// Each record on the way is read in place.
#[inline(always)]
pub fn climb<R: Resource>(tree: &Tree<R>, node: Key) -> Reached
    requires { IsSome (find tree.now.nodes node) }
    ensures visits { result.visits ≡ length (way tree.now.nodes node) }
    ensures stop { result.stop ≡ end_of tree.now.nodes (way tree.now.nodes node) }
    ensures hub { result.hub ≡ hub_of tree.now.nodes result.stop }
{
    let mut at = node;
    let mut read = tree.at(node.slot);
    let mut stop = stop_at(tree, at, read);
    let mut visits = 1;
    while stop.is_none() && visits <= MOST_VISITS {
        let Some(next) = read.parent() else {
            return Reached {
                stop,
                hub: None,
                visits,
            };
        };
        read = tree.above(read);
        at = next;
        stop = stop_at(tree, at, read);
        visits += 1;
    }
    let hub = match stop {
        Some(Stop::Connection(_)) => read.connects(),
        _ => None,
    };
    Reached { stop, hub, visits }
}
