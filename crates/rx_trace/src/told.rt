//! What a line tells: notes, what waits for its release, and what was handed out for it.

ghost use Rattle.std.specs.Prelude.{◌≡◌, ◌≤◌, ◌++◌, ◌∷◌, [], List, codes, drop, flat_map, length, map, nat_eq, string_bytes, IfOk, OnOk, if◌then◌else◌};
ghost use Rattle.std.specs.HashSet.{contains};
ghost use Rattle.std.specs.List.{All, filter_map};
ghost use Rattle.std.proofs.Math.Bool.{not};
ghost use Rattle.rx_event.specs.declared.event.Event.{Event};
ghost use Rattle.rx_event.specs.Notes.{notes};
ghost use Rattle.rx_line.specs.Pieces.{name_text, member_text};
ghost use Rattle.rx_script.specs.Engine.{IsSound, StaysAt};
ghost use Rattle.rx_book.specs.State.{IsPromised};
ghost use Rattle.rx_script.specs.Keys.{node_binding, res_binding, IsHeldKey};
ghost use Rattle.rx_trace.specs.Told.{name_by_number, names_where, told_note, taken_by, resource_told};
ghost use Rattle.rx_trace.specs.Taken.{AreHandedOut, Rise, waits_by, told_in_code};

use crate::handed::HandedOut;
use rx_agenda::Named;
use rx_book::{Book, Key, ResKey};
use rx_event::Event;
use rx_line::note_text;
use rx_resource::Resource;
use rx_script::{Engine, next_note};
use std::alloc::{AllocError, Global};

// Each text behind a comma.
fn push_rest(text: &mut String, texts: &[String]) -> Result<(), AllocError>
    ensures { OnOk result (string_bytes text.new
        ≡ string_bytes text.old ++ flat_map (λ q. codes "," ++ q) (map string_bytes texts.now)) }
{
    for one in texts {
        text.push_str(",")?;
        text.push_str(one.as_str())?;
    }
    Ok(())
}

/// Writes a member that is an array of these; it is left out where there are none.
pub fn push_list(text: &mut String, key: &str, texts: &[String]) -> Result<(), AllocError>
    ensures { OnOk result (string_bytes text.new
        ≡ string_bytes text.old ++ member_text key.now (map string_bytes texts.now)) }
{
    let Some((first, rest)) = texts.split_first() else {
        return Ok(());
    };
    write!(text, ",\"{key}\":[")?;
    text.push_str(first.as_str())?;
    push_rest(text, rest)?;
    text.push_str("]")
}

// A name as a JSON string.
#[tactic(auto, unfolding(rx_line::specs::Pieces::name_text))]
fn quoted(alloc: Global, name: &str) -> Result<String, AllocError>
    ensures { IfOk result (λ s. string_bytes s ≡ name_text name.now) }
{
    format!(in alloc; "\"{name}\"")
}

// The name of the node of this number. Nodes are named in the order in which they were made, so that their numbers rise.
fn node_name(nodes: &[Named<Key>], number: u64) -> &str
    ensures { Rise (map node_binding nodes.now) → result.now ≡ name_by_number (map node_binding nodes.now) number }
{
    let place = nodes.partition_point(|named| named.key.number < number);
    match nodes.get(place) {
        Some(named) if named.key.number == number => named.name.as_str(),
        _ => "",
    }
}

// The name of the resource of this number.
fn res_name(resources: &[Named<ResKey>], number: u64) -> &str
    ensures { result.now ≡ name_by_number (map res_binding resources.now) number }
{
    for named in resources {
        if named.key.number == number {
            return named.name.as_str();
        }
    }
    ""
}

// The notes that the book did not hand out yet, which it hands out.
fn notes_told<R: Resource>(alloc: Global, engine: &mut Engine<R>) -> Result<Vec<String>, AllocError>
    requires sound { IsSound engine.old }
    ensures told { IfOk result (λ v. Rise (map node_binding engine.old.nodes) → map string_bytes v.items
        ≡ map (told_note (map node_binding engine.old.nodes)) (drop engine.old.book.given (notes engine.old.book.history))) }
    ensures book { OnOk result (engine.new.book ≡ record engine.old.book { given = length (notes engine.old.book.history) }) }
    ensures stays { OnOk result (StaysAt engine.old engine.new) }
{
    let mut told = Vec::new(alloc);
    while let Some(mail) = next_note(engine)? {
        let name = node_name(engine.nodes.in_order(), mail.to);
        told.push(note_text(alloc, name, mail.note)?)?;
    }
    engine.book.promise();
    Ok(told)
}

// Lists the name as a JSON string, where it is so.
fn push_where(
    alloc: Global,
    names: &mut Vec<String>,
    is_so: bool,
    name: &str,
) -> Result<(), AllocError>
    ensures { OnOk result (map string_bytes names.new.items
        ≡ map string_bytes names.old.items ++ (if is_so then name_text name.now ∷ [] else [])) }
{
    if !is_so {
        return Ok(());
    }
    names.push(quoted(alloc, name)?)?;
    Ok(())
}

// Whether the resource waits.
fn waits<R: Resource>(book: &Book<R>, handed: &HandedOut, res: ResKey) -> bool
    requires kept { IsPromised book.now }
    requires known { IsHeldKey book.now res }
    ensures { result ≡ waits_by book.now handed.now res.number }
{
    if book.is_held(res) {
        return false;
    }
    !handed.has(res.number)
}

// The names of the resources that wait.
fn waiting_names<R: Resource>(
    alloc: Global,
    book: &Book<R>,
    resources: &[Named<ResKey>],
    handed: &HandedOut,
) -> Result<Vec<String>, AllocError>
    requires kept { IsPromised book.now }
    requires known { All (λ n. IsHeldKey book.now n.key) resources.now }
    ensures { IfOk result (λ v. map string_bytes v.items
        ≡ map name_text (names_where (waits_by book.now handed.now) (map res_binding resources.now))) }
{
    let mut names = Vec::new(alloc);
    for named in resources {
        let is_so = waits(book, handed, named.key);
        push_where(alloc, &mut names, is_so, named.name.as_str())?;
    }
    Ok(names)
}

/// The names of the resources that were not handed out.
pub fn left_names(
    alloc: Global,
    resources: &[Named<ResKey>],
    handed: &HandedOut,
) -> Result<Vec<String>, AllocError>
    ensures { IfOk result (λ v. map string_bytes v.items
        ≡ map name_text (names_where (λ r. not (contains nat_eq handed.now.numbers r)) (map res_binding resources.now))) }
{
    let mut names = Vec::new(alloc);
    for named in resources {
        let is_left = !handed.has(named.key.number);
        push_where(alloc, &mut names, is_left, named.name.as_str())?;
    }
    Ok(names)
}

// Notes the resource that the event hands out, if it hands one out, and lists its name.
fn hand_out_one(
    alloc: Global,
    resources: &[Named<ResKey>],
    handed: &mut HandedOut,
    names: &mut Vec<String>,
    event: &Event,
) -> Result<(), AllocError>
    ensures names { OnOk result (map string_bytes names.new.items
        ≡ map string_bytes names.old.items ++ map (resource_told (map res_binding resources.now)) (filter_map taken_by (event.now ∷ []))) }
    ensures handed { OnOk result ((h : List Event) → AreHandedOut handed.old h → AreHandedOut handed.new (h ++ event.now ∷ [])) }
{
    handed.add(event)?;
    match *event {
        Event::Take(number) => {
            let name = res_name(resources, number);
            names.push(quoted(alloc, name)?)?;
            Ok(())
        }
        _ => Ok(()),
    }
}

// The names of the resources that an event from this place on handed out.
fn hand_out<R: Resource>(
    alloc: Global,
    engine: &Engine<R>,
    handed: &mut HandedOut,
    from: u64,
) -> Result<Vec<String>, AllocError>
    requires { IsSound engine.now }
    ensures names { IfOk result (λ v. engine.now.book.base.at_length ≤ from → map string_bytes v.items
        ≡ map (resource_told (map res_binding engine.now.resources)) (filter_map taken_by (drop from engine.now.book.history))) }
    ensures handed { OnOk result (engine.now.book.base.at_length ≤ from
        → (h : List Event) → AreHandedOut handed.old h → AreHandedOut handed.new (h ++ drop from engine.now.book.history)) }
{
    engine.book.promise();
    let mut names = Vec::new(alloc);
    let mut place = from;
    while let Some(event) = engine.book.event(place) {
        hand_out_one(
            alloc,
            engine.resources.in_order(),
            handed,
            &mut names,
            &event,
        )?;
        place += 1;
    }
    Ok(names)
}

/// Writes what is told behind the answer of a step: the notes that were not told yet, which resources wait, and
/// which were handed out from this place on.
pub fn tell<R: Resource>(
    alloc: Global,
    engine: &mut Engine<R>,
    text: &mut String,
    handed: &mut HandedOut,
    from: u64,
) -> Result<(), AllocError>
    requires sound { IsSound engine.old }
    ensures told { OnOk result (engine.old.book.base.at_length ≤ from → Rise (map node_binding engine.old.nodes)
        → string_bytes text.new ≡ string_bytes text.old ++ told_in_code engine.old handed.new from) }
    ensures handed { OnOk result (engine.old.book.base.at_length ≤ from
        → (h : List Event) → AreHandedOut handed.old h → AreHandedOut handed.new (h ++ drop from engine.old.book.history)) }
    ensures book { OnOk result (engine.new.book ≡ record engine.old.book { given = length (notes engine.old.book.history) }) }
    ensures stays { OnOk result (StaysAt engine.old engine.new) }
{
    let notes = notes_told(alloc, engine)?;
    let release = hand_out(alloc, engine, handed, from)?;
    let waiting = waiting_names(alloc, &engine.book, engine.resources.in_order(), handed)?;
    push_list(text, "notes", notes.as_slice())?;
    push_list(text, "waits", waiting.as_slice())?;
    push_list(text, "release", release.as_slice())?;
    Ok(())
}
