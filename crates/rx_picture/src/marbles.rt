//! What observers were told, so far as it is shown.

ghost use Rattle.std.specs.Prelude.{◌≡◌, ◌==◌, ◌<◌, IfOk, OnOk};
ghost use Rattle.std.specs.List.{fold};
ghost use Rattle.rx_picture.specs.Imports.{filter, length, list_any, flat_map, option_to_list, is_root, at, Item, End, mail_of};
ghost use Rattle.rx_picture.specs.Choice.{marked};
ghost use Rattle.rx_picture.specs.Tables.{AreLines};
ghost use Rattle.rx_picture.specs.Told.{AreEndsOf, mail_told, marbles, told_in_track, told_once};

use crate::choice::is_marked;
use crate::climb::{Emitted, climb, mail_at};
use crate::event_tests::{at, event_at};
use rx_event::{Event, Mail, Terminal};
use rx_note::Note;
use std::alloc::{AllocError, Global};

/// Whether one of these goes to the node.
fn has_told(told: &[Mail], to: u64) -> bool
    ensures { result ≡ list_any (λ o. o.to == to) told.now }
{
    told.iter().any(|one| one.to == to)
}

/// Puts a note behind those of the same event, but where one of them goes to the same node.
fn push_once(told: &mut Vec<Mail>, mail: Mail) -> Result<(), AllocError>
    ensures { OnOk result (told.new.items ≡ told_once told.old.items mail) }
{
    if has_told(told.as_slice(), mail.to) {
        return Ok(());
    }
    told.push(mail)?;
    Ok(())
}

/// Puts what is told, if anything is, behind the notes of the same event where its track is marked.
fn push_mail(told: &mut Vec<Mail>, tracks: &[bool], mail: Option<Mail>) -> Result<(), AllocError>
    ensures { OnOk result (told.new.items
        ≡ fold told_once told.old.items (filter (λ m. marked tracks.now m.to) (option_to_list mail))) }
{
    match mail {
        Some(mail) => {
            if is_marked(tracks, mail.to as usize) {
                push_once(told, mail)?;
            }
            Ok(())
        }
        None => Ok(()),
    }
}

/// Puts what an item tells that makes these visits behind what its event has told.
fn push_visits(
    told: &mut Vec<Mail>,
    tracks: &[bool],
    past: &[Event],
    item: Emitted,
    visits: &[u64],
) -> Result<(), AllocError>
    ensures { OnOk result (told.new.items
        ≡ fold told_once told.old.items (flat_map (told_in_track (marked tracks.now) past.now item.value) visits.now)) }
{
    for n in visits {
        push_mail(told, tracks, mail_at(past, *n, item))?;
    }
    Ok(())
}

/// Whether there is a root at the place.
fn is_root_at(past: &[Event], n: u64) -> bool
    ensures { result ≡ at is_root past.now n }
{
    at(Event::is_root, past, n)
}

/// Puts what an item tells behind what its event has told.
#[tactic(auto, using(crate::proofs::MarblesOfPrefixes::item_told))]
fn push_item(
    alloc: Global,
    told: &mut Vec<Mail>,
    tracks: &[bool],
    past: &[Event],
    ends: &[usize],
    leaf: u64,
    value: i64,
) -> Result<(), AllocError>
    requires { AreEndsOf past.now ends.now }
    ensures { OnOk result (told.new.items
        ≡ fold told_once told.old.items (filter (λ m. marked tracks.now m.to) (mail_of past.now (Item leaf value)))) }
{
    let visits = climb(alloc, past, ends, leaf)?;
    push_visits(told, tracks, past, Emitted { value }, visits.as_slice())
}

/// What the end of node `n` tells, if anything.
fn mail_of_end(past: &[Event], n: u64, terminal: Terminal) -> Option<Mail>
    ensures { option_to_list result ≡ mail_of past.now (End n terminal) }
{
    if is_root_at(past, n) {
        Some(Mail {
            place: past.len() as u64,
            to: n,
            note: Note::End(terminal),
        })
    } else {
        None
    }
}

/// Puts what the event tells behind what it has told.
fn push_told(
    alloc: Global,
    told: &mut Vec<Mail>,
    tracks: &[bool],
    past: &[Event],
    ends: &[usize],
    event: Event,
) -> Result<(), AllocError>
    requires { AreEndsOf past.now ends.now }
    ensures { OnOk result (told.new.items
        ≡ fold told_once told.old.items (filter (λ m. marked tracks.now m.to) (mail_of past.now event))) }
{
    match event {
        Event::Item(leaf, value) => push_item(alloc, told, tracks, past, ends, leaf, value),
        Event::End(n, terminal) => push_mail(told, tracks, mail_of_end(past, n, terminal)),
        _ => Ok(()),
    }
}

/// Puts what the event at the place tells behind what it has told.
#[tactic(auto, using(crate::proofs::ClimbByStack::ends_of_prefix))]
fn push_told_at(
    alloc: Global,
    told: &mut Vec<Mail>,
    tracks: &[bool],
    events: &[Event],
    ends: &[usize],
    place: usize,
) -> Result<(), AllocError>
    requires lines { AreLines events.now (length events.now) ends.now }
    requires within { place < length events.now }
    ensures { OnOk result (told.new.items ≡ fold told_once told.old.items (mail_told (marked tracks.now) events.now place)) }
{
    match event_at(events, place) {
        Some(event) => push_told(alloc, told, tracks, &events[..place], ends, event),
        None => Ok(()),
    }
}

/// What was told, in order, so far as the track and the place are marked; of what one event tells one node the first.
pub fn marbles_of(
    alloc: Global,
    events: &[Event],
    ends: &[usize],
    tracks: &[bool],
    places: &[bool],
) -> Result<Vec<Mail>, AllocError>
    requires { AreLines events.now (length events.now) ends.now }
    ensures { IfOk result (λ v. v.items ≡ marbles (marked tracks.now) (marked places.now) events.now) }
{
    let mut marbles = Vec::new(alloc);
    let mut told = Vec::new(alloc);
    for place in 0..events.len() {
        if is_marked(places, place) {
            told.clear();
            push_told_at(alloc, &mut told, tracks, events, ends, place)?;
            marbles.extend_from_slice(told.as_slice())?;
        }
    }
    Ok(marbles)
}
