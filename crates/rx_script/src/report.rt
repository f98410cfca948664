//! What a report shows, from the tallies and a book's keys.

ghost use Rattle.std.specs.Prelude.{◌≡◌, ◌++◌, List, map, string_bytes, IfOk, OnOk};
ghost use Rattle.std.specs.List.{All};
ghost use Rattle.rx_event.specs.declared.event.Event.{Event};
ghost use Rattle.rx_event.specs.Resources.{is_taken as is_taken_in};
ghost use Rattle.rx_event.specs.Kept.{nothing_kept};
ghost use Rattle.rx_book.specs.State.{IsPromised};
ghost use Rattle.rx_script.specs.Lines.{node_lines, res_lines, whereabouts, account_of, totals_reported};
ghost use Rattle.rx_script.specs.Keys.{node_binding, res_binding, IsNodeKey, IsHeldKey};
ghost use Rattle.rx_script.specs.Tallies.{AreCountsOf, IsWhole};

use crate::line::{Account, Totals, Whereabouts};
use crate::tallies::Tallies;
use crate::text::{push_node, push_res};
use rx_agenda::Named;
use rx_book::{Book, Key, ResKey};
use rx_event::Event;
use rx_resource::Resource;
use std::alloc::{AllocError, Global};

/// The events from place 0 on, copied once: the whole history where no checkpoint was made.
pub fn events_of<R: Resource>(alloc: Global, book: &Book<R>) -> Result<Vec<Event>, AllocError>
    ensures { IfOk result (λ v. book.now.base ≡ nothing_kept → v.items ≡ book.now.history) }
{
    book.promise();
    let mut events = Vec::new(alloc);
    while let Some(event) = book.event(events.len() as u64) {
        events.push(event)?;
    }
    Ok(events)
}

fn is_taken(tallies: &Tallies, resource: u64) -> bool
    ensures { (h : List Event) → AreCountsOf h tallies.now → result ≡ is_taken_in h resource }
{
    tallies.tag_of(resource).is_some() && tallies.taken.contains(&resource)
}

fn whereabouts_of<R: Resource>(tallies: &Tallies, book: &Book<R>, res: ResKey) -> Whereabouts
    requires kept { IsPromised book.now }
    requires known { IsHeldKey book.now res }
    ensures { (h : List Event) → IsWhole h tallies.now book.now → result ≡ whereabouts h res.number }
{
    if book.is_held(res) {
        return Whereabouts::Held;
    }
    if is_taken(tallies, res.number) {
        return Whereabouts::Taken;
    }
    Whereabouts::Waiting
}

// What a resource's line shows.
fn account_of<R: Resource>(tallies: &Tallies, book: &Book<R>, res: ResKey) -> Account
    requires kept { IsPromised book.now }
    requires known { IsHeldKey book.now res }
    ensures { (h : List Event) → IsWhole h tallies.now book.now → result ≡ account_of h res.number }
{
    let tag = tallies.tag_of(res.number).unwrap_or(0);
    let uses = tallies.uses_of(res.number);
    let whereabouts = whereabouts_of(tallies, book, res);
    let leases = tallies.leases_of(res.number);
    Account {
        tag,
        uses,
        whereabouts,
        leases,
    }
}

/// A line for each node that the scenario opened and that is told something.
pub fn push_nodes<R: Resource>(
    text: &mut String,
    tallies: &Tallies,
    book: &Book<R>,
    nodes: &[Named<Key>],
) -> Result<(), AllocError>
    requires kept { IsPromised book.now }
    requires known { All (λ n. IsNodeKey book.now n.key) nodes.now }
    ensures { OnOk result ((h : List Event) → IsWhole h tallies.now book.now
        → string_bytes text.new ≡ string_bytes text.old ++ node_lines h (map node_binding nodes.now)) }
{
    for named in nodes {
        if tallies.is_told(named.key.number) {
            push_node(
                text,
                named.name.as_str(),
                book.is_open(named.key),
                tallies.notes_to(named.key.number),
            )?;
        }
    }
    Ok(())
}

/// A line for each resource that the scenario handed in.
pub fn push_resources<R: Resource>(
    text: &mut String,
    tallies: &Tallies,
    book: &Book<R>,
    resources: &[Named<ResKey>],
) -> Result<(), AllocError>
    requires kept { IsPromised book.now }
    requires known { All (λ n. IsHeldKey book.now n.key) resources.now }
    ensures { OnOk result ((h : List Event) → IsWhole h tallies.now book.now
        → string_bytes text.new ≡ string_bytes text.old ++ res_lines h (map res_binding resources.now)) }
{
    for named in resources {
        push_res(
            text,
            named.name.as_str(),
            account_of(tallies, book, named.key),
        )?;
    }
    Ok(())
}

/// The counts.
pub fn totals_reported<R: Resource>(tallies: &Tallies, book: &Book<R>) -> Totals
    ensures { (h : List Event) → IsWhole h tallies.now book.now → result ≡ totals_reported nothing_kept h }
{
    Totals {
        nodes: tallies.nodes,
        open_nodes: book.open_count(),
        accepted: book.accepted(),
        held: book.held(),
        waiting: book.waiting(),
        taken: book.taken(),
    }
}
