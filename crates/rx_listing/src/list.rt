//! The whole text.

ghost use Rattle.std.specs.Prelude.{◌≡◌, ℕ, ◌++◌, length, option_map, unwrap_or, count_by, string_bytes, IfOk, OnOk};
ghost use Rattle.std.specs.Bool.{nat_eq};
ghost use Rattle.std.specs.HashMap.{get};
ghost use Rattle.std.specs.List.{range_with_len};
ghost use Rattle.rx_listing.specs.Listed.{AreNamesBelow};
ghost use Rattle.rx_listing.specs.Recalled.{ArePlaced};
ghost use Rattle.rx_listing.specs.Parts.{names_of_part, lead_of, led_text, counted_of, part_object};
ghost use Rattle.rx_listing.specs.Whole.{hub_by, subscribes, holder_name, leased_name, AreCountsOfBook, IsList, part_text};
ghost use Rattle.rx_listing.specs.Whole.{node_object, resource_object, lease_object, hub_object};

use crate::counts::{Counts, count, count_of};
use crate::known::{Known, holder_of, is_manual, made_at, open_name};
use crate::numbers::rising;
use crate::object::{hub_object, lease_object, node_object, resource_object};
use crate::seen::{Seen, seen_of};
use rx_book::{Book, Resource};
use rx_line::{Names, ok_text};
use std::alloc::{AllocError, Global};
use std::collections::HashMap;

/// The parts of the text.
#[derive(Clone, Copy)]
enum Part {
    Nodes,
    Resources,
    Leases,
    Hubs,
}

// What is counted before the text is written: what the events tell, and how many of the nodes that are listed
// subscribe to each hub.
struct Sight {
    seen: Seen,
    subscribers: Counts,
}

// Written out, so that where one is let go there is one call to prove, and not the drop of each field in turn.
impl Drop for Sight {
    fn drop(self) {
        let Sight {
            seen: _seen,
            subscribers: _subscribers,
        } = self;
    }
}

// The hub that an open node subscribes to.
#[tactic(auto, unfolding(crate::specs::Whole::hub_by))]
fn hub_of<R: Resource>(book: &Book<R>, known: &Known, number: u64) -> Option<u64>
    ensures { result ≡ hub_by book.now known.now number }
{
    let _name = open_name(book, known.nodes, number)?;
    let made = made_at(book, known.past, number)?;
    made.subscribes_to()
}

// How many of the nodes that are listed subscribe to each hub.
fn subscribers_of<R: Resource>(
    alloc: Global,
    book: &Book<R>,
    known: &Known,
) -> Result<Counts, AllocError>
    ensures { IfOk result (λ v. AreNamesBelow (length book.now.history) known.now.nodes.now → (g : ℕ) →
        unwrap_or (get nat_eq v g) 0 ≡ count_by (subscribes book.now known.now g) (range_with_len 0 (length book.now.history))) }
{
    let mut subscribers = HashMap::new(alloc);
    let numbers = rising(alloc, known.nodes)?;
    'numbers: for number in &numbers {
        if let Some(hub) = hub_of(book, known, *number) {
            count(&mut subscribers, hub)?;
        }
    }
    Ok(subscribers)
}

fn sight_of<R: Resource>(alloc: Global, book: &Book<R>, known: &Known) -> Result<Sight, AllocError>
    ensures { IfOk result
        (λ s. AreNamesBelow (length book.now.history) known.now.nodes.now → AreCountsOfBook book.now known.now (counted_of s)) }
{
    let seen = seen_of(book, known)?;
    seen.promise();
    let subscribers = subscribers_of(alloc, book, known)?;
    Ok(Sight { seen, subscribers })
}

#[tactic(auto, unfolding(crate::specs::Whole::node_object))]
fn node_at<R: Resource>(
    alloc: Global,
    book: &Book<R>,
    known: &Known,
    number: u64,
) -> Result<Option<String>, AllocError>
    ensures { IfOk result (λ o. option_map string_bytes o ≡ node_object book.now known.now number) }
{
    let Some(name) = open_name(book, known.nodes, number) else {
        return Ok(None);
    };
    let made = made_at(book, known.past, number);
    let object = node_object(alloc, name, number, known.nodes, known.hubs, made)?;
    Ok(Some(object))
}

// The name of the node of a resource. One whose node is closed has none; a lease holds it.
#[tactic(auto, unfolding(crate::specs::Whole::holder_name))]
fn holder_name<'a, R: Resource>(book: &Book<R>, known: &Known<'a>, res: u64) -> Option<&'a str>
    ensures { option_map (λ s. s.now) result ≡ holder_name book.now known.now res }
{
    let node = holder_of(book, known.past, res)?;
    open_name(book, known.nodes, node)
}

#[tactic(auto, unfolding(crate::specs::Whole::resource_object))]
fn resource_at<R: Resource>(
    alloc: Global,
    book: &Book<R>,
    known: &Known,
    seen: &Seen,
    number: u64,
) -> Result<Option<String>, AllocError>
    ensures { IfOk result (λ o. option_map string_bytes o
        ≡ resource_object book.now known.now (λ r. unwrap_or (get nat_eq seen.now.uses r) 0) number) }
{
    let Some(name) = known.resources.name_of(number) else {
        return Ok(None);
    };
    let node = holder_name(book, known, number);
    let object = resource_object(alloc, name, number, node, count_of(&seen.uses, number))?;
    Ok(Some(object))
}

// The name of the resource of a lease.
#[tactic(auto, unfolding(crate::specs::Whole::leased_name))]
fn leased_name<'a, R: Resource>(book: &Book<R>, known: &Known<'a>, lease: u64) -> Option<&'a str>
    ensures { option_map (λ s. s.now) result ≡ leased_name book.now known.now lease }
{
    let made = made_at(book, known.past, lease)?;
    let res = made.leased()?;
    known.resources.name_of(res)
}

#[tactic(auto, unfolding(crate::specs::Whole::lease_object))]
fn lease_at<R: Resource>(
    alloc: Global,
    book: &Book<R>,
    known: &Known,
    number: u64,
) -> Result<Option<String>, AllocError>
    ensures { IfOk result (λ o. option_map string_bytes o ≡ lease_object book.now known.now number) }
{
    let Some(name) = known.leases.name_of(number) else {
        return Ok(None);
    };
    let object = lease_object(alloc, name, number, leased_name(book, known, number))?;
    Ok(Some(object))
}

#[tactic(auto, unfolding(crate::specs::Whole::hub_object))]
fn hub_at<R: Resource>(
    alloc: Global,
    book: &Book<R>,
    known: &Known,
    sight: &Sight,
    number: u64,
) -> Result<Option<String>, AllocError>
    ensures { IfOk result (λ o. option_map string_bytes o ≡ hub_object book.now known.now (counted_of sight.now) number) }
{
    let Some(name) = known.hubs.name_of(number) else {
        return Ok(None);
    };
    let is_manual = is_manual(book, known.past, number);
    let is_connected = sight.seen.is_connected(number);
    let subscribers = count_of(&sight.subscribers, number);
    let object = hub_object(alloc, name, number, is_manual, is_connected, subscribers)?;
    Ok(Some(object))
}

// What is said of a number in a part, where it has a name there.
fn object_at<R: Resource>(
    alloc: Global,
    book: &Book<R>,
    known: &Known,
    sight: &Sight,
    part: Part,
    number: u64,
) -> Result<Option<String>, AllocError>
    ensures { IfOk result (λ o. option_map string_bytes o ≡ part_object book.now known.now (counted_of sight.now) part number) }
{
    match part {
        Part::Nodes => node_at(alloc, book, known, number),
        Part::Resources => resource_at(alloc, book, known, &sight.seen, number),
        Part::Leases => lease_at(alloc, book, known, number),
        Part::Hubs => hub_at(alloc, book, known, sight, number),
    }
}

// The names of what a part has.
fn names_of_part<'a>(known: &Known<'a>, part: Part) -> &'a Names
    ensures { result.now ≡ names_of_part known.now part }
{
    match part {
        Part::Nodes => known.nodes,
        Part::Resources => known.resources,
        Part::Leases => known.leases,
        Part::Hubs => known.hubs,
    }
}

// Writes an object behind those before it.
fn push_object(text: &mut String, is_first: bool, object: &str) -> Result<(), AllocError>
    ensures { OnOk result (string_bytes text.new ≡ string_bytes text.old ++ led_text is_first object.now) }
{
    if !is_first {
        text.push_str(",")?;
    }
    text.push_str(object)
}

// Writes the objects of a part.
fn push_part<R: Resource>(
    alloc: Global,
    text: &mut String,
    book: &Book<R>,
    known: &Known,
    sight: &Sight,
    part: Part,
) -> Result<(), AllocError>
    ensures { OnOk result (ArePlaced (length book.now.history) known.now → string_bytes text.new ≡ string_bytes text.old
        ++ part_text (part_object book.now known.now (counted_of sight.now) part) (length book.now.history)) }
{
    let numbers = rising(alloc, names_of_part(known, part))?;
    let mut is_first = true;
    'numbers: for number in &numbers {
        if let Some(object) = object_at(alloc, book, known, sight, part, *number)? {
            push_object(text, is_first, object.as_str())?;
            is_first = false;
        }
    }
    Ok(())
}

// Writes a part, and what leads to it.
fn push_led<R: Resource>(
    alloc: Global,
    text: &mut String,
    book: &Book<R>,
    known: &Known,
    sight: &Sight,
    part: Part,
) -> Result<(), AllocError>
    ensures { OnOk result (ArePlaced (length book.now.history) known.now → string_bytes text.new ≡ string_bytes text.old
        ++ lead_of part ++ part_text (part_object book.now known.now (counted_of sight.now) part) (length book.now.history)) }
{
    text.push_str(lead_of(part))?;
    push_part(alloc, text, book, known, sight, part)
}

// What leads to the objects of a part.
fn lead_of(part: Part) -> &'static str
    ensures { result.now ≡ lead_of part }
{
    match part {
        Part::Nodes => ",\"nodes\":[",
        Part::Resources => "],\"resources\":[",
        Part::Leases => "],\"leases\":[",
        Part::Hubs => "],\"hubs\":[",
    }
}

/// The answer that says what is open and held: nodes, resources, leases and hubs, each by rising number. Err
/// where memory is refused.
pub fn list_text<R: Resource>(
    alloc: Global,
    book: &Book<R>,
    known: &Known,
) -> Result<String, AllocError>
    ensures { IfOk result (λ s. ArePlaced (length book.now.history) known.now → IsList book.now known.now (string_bytes s)) }
{
    let sight = sight_of(alloc, book, known)?;
    let mut text = ok_text(alloc, book.len())?;
    push_led(alloc, &mut text, book, known, &sight, Part::Nodes)?;
    push_led(alloc, &mut text, book, known, &sight, Part::Resources)?;
    push_led(alloc, &mut text, book, known, &sight, Part::Leases)?;
    push_led(alloc, &mut text, book, known, &sight, Part::Hubs)?;
    text.push_str("]}")?;
    Ok(text)
}
