//! What is known of numbers.

ghost use Rattle.std.specs.Prelude.{◌≡◌, false, option_map};
ghost use Rattle.std.specs.Option.{option_map_or};
ghost use Rattle.rx_event.specs.Events.{is_manual_hub};
ghost use Rattle.rx_listing.specs.Listed.{is_open_name, open_name};
ghost use Rattle.rx_listing.specs.Recalled.{made_by, holder_by};

use crate::past::Past;
use rx_book::{Book, Event, Key, Resource};
use rx_line::Names;

/// What a book's numbers are called, and what is told of its events before the last checkpoint.
#[derive(Clone, Copy)]
pub struct Known<'a> {
    pub nodes: &'a Names,
    pub hubs: &'a Names,
    pub resources: &'a Names,
    pub leases: &'a Names,
    pub past: &'a Past,
}

/// Whether a name is that of an open node.
#[tactic(auto, unfolding(crate::specs::Listed::is_open_name))]
pub fn is_open<R: Resource>(book: &Book<R>, nodes: &Names, name: &str) -> bool
    ensures { result ≡ is_open_name book.now nodes.now name.now }
{
    match nodes.get(name) {
        Some(spot) => book.is_open(Key {
            slot: spot.slot,
            number: spot.number,
        }),
        None => false,
    }
}

/// The name of an open node.
#[tactic(auto, unfolding(crate::specs::Listed::open_name))]
pub fn open_name<'a, R: Resource>(book: &Book<R>, nodes: &'a Names, number: u64) -> Option<&'a str>
    ensures { option_map (λ s. s.now) result ≡ open_name book.now nodes.now number }
{
    let name = nodes.name_of(number)?;
    if is_open(book, nodes, name) {
        Some(name)
    } else {
        None
    }
}

/// The event that made what has this number.
#[tactic(auto, unfolding(crate::specs::Recalled::made_by))]
pub fn made_at<R: Resource>(book: &Book<R>, past: &Past, number: u64) -> Option<Event>
    ensures { result ≡ made_by book.now past.now number }
{
    match book.event(number) {
        Some(event) => Some(event),
        None => past.made(number),
    }
}

/// Whether a hub is connected by a caller.
pub fn is_manual<R: Resource>(book: &Book<R>, past: &Past, hub: u64) -> bool
    ensures { result ≡ option_map_or is_manual_hub (made_by book.now past.now hub) false }
{
    match made_at(book, past, hub) {
        Some(event) => event.is_manual_hub(),
        None => false,
    }
}

/// The node that a resource was accepted at.
#[tactic(auto, unfolding(crate::specs::Recalled::holder_by))]
pub fn holder_of<R: Resource>(book: &Book<R>, past: &Past, res: u64) -> Option<u64>
    ensures { result ≡ holder_by book.now past.now res }
{
    match book.event(res) {
        Some(event) => event.held_at(),
        None => past.holder(res),
    }
}
