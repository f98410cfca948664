//! A sentence that words a refusal: its beginning, which tells the refusal, and the rest.

ghost use Rattle.std.specs.Prelude.{◌≡◌, ◌++◌, codes, IfOk};
ghost use Rattle.serde_json.specs.View.{view};
ghost use Rattle.rx_event.specs.declared.event.Event.TheVariants.{Open};
ghost use Rattle.rx_event.specs.declared.event.Place.{Place};
ghost use Rattle.rx_event.specs.declared.refusal.Refusal.TheVariants.{WrongKind};
ghost use Rattle.rx_explain.specs.Worded.{number_named, hub_number, labels, IsBeginning, Words};

use crate::past::Past;
use rx_dump::label;
use rx_event::{Event, Kind, Refusal};
use std::alloc::AllocError;

/// A sentence, where memory was given for it.
pub type Sentence = Result<String, AllocError>;

/// The number of the node, hub, resource or lease that the event is about.
pub fn number_named(event: Event) -> u64
    ensures { result ≡ number_named event }
{
    match event {
        Event::Open { place, .. } => place.above().unwrap_or(0),
        Event::Hub(_) => 0,
        Event::Accept(n, _) | Event::Item(n, _) | Event::End(n, _) => n,
        Event::Connect(n) | Event::Decline(n) | Event::Close(n) => n,
        Event::Use(r) | Event::Remove(r) | Event::Lease(r) | Event::Take(r) => r,
        Event::Return(l) => l,
    }
}

// The number of the hub to which a node of this kind subscribes.
fn hub_of(kind: Kind) -> u64
    ensures { (p : Place) → result ≡ hub_number (Open p kind) }
{
    match kind {
        Kind::Sub(hub) => hub,
        Kind::Leaf | Kind::Pass | Kind::Flat | Kind::Switch | Kind::Until => 0,
    }
}

/// The number of the hub that it subscribes to or connects.
pub fn hub_number(event: Event) -> u64
    ensures { result ≡ hub_number event }
{
    match event {
        Event::Connect(hub) => hub,
        Event::Open { kind, .. } => hub_of(kind),
        Event::Hub(_) | Event::Accept(_, _) | Event::Item(_, _) | Event::End(_, _) => 0,
        Event::Decline(_) | Event::Close(_) | Event::Use(_) | Event::Remove(_) => 0,
        Event::Lease(_) | Event::Take(_) | Event::Return(_) => 0,
    }
}

/// A sentence about the number of the next event: words, the number, words, which tell the refusal, and the rest.
pub fn on_number(past: Past<'_>, why: Refusal, front: &str, words: &str, rest: &str) -> Sentence
    requires { IsBeginning (view past.names.object.now) past.next why
        (front.now ++ labels (view past.names.object.now) (number_named past.next) ++ words.now) }
    ensures { IfOk result (Words (view past.entry.names.object.now) past.entry.next why) }
{
    let shown = label(past.names, number_named(past.next))?;
    format!(in past.names.alloc; "{front}{shown}{words}{rest}")
}

/// A sentence about the hub of the next event: words, the hub, words, which tell the refusal, and the rest.
pub fn on_hub(past: Past<'_>, why: Refusal, front: &str, words: &str, rest: &str) -> Sentence
    requires { IsBeginning (view past.names.object.now) past.next why
        (front.now ++ labels (view past.names.object.now) (hub_number past.next) ++ words.now) }
    ensures { IfOk result (Words (view past.entry.names.object.now) past.entry.next why) }
{
    let shown = label(past.names, hub_number(past.next))?;
    format!(in past.names.alloc; "{front}{shown}{words}{rest}")
}

/// A sentence about a node of another kind.
pub fn on_kind(past: Past<'_>, words: &str, rest: &str) -> Sentence
    requires { IsBeginning (view past.names.object.now) past.next WrongKind
        (codes "node " ++ labels (view past.names.object.now) (number_named past.next) ++ words.now) }
    ensures { IfOk result (Words (view past.entry.names.object.now) past.entry.next WrongKind) }
{
    on_number(past, Refusal::WrongKind, "node ", words, rest)
}

/// A sentence that ends with the number.
pub fn of_number(past: Past<'_>, why: Refusal, front: &str) -> Sentence
    requires { IsBeginning (view past.names.object.now) past.next why
        (front.now ++ labels (view past.names.object.now) (number_named past.next) ++ codes "\n") }
    ensures { IfOk result (Words (view past.entry.names.object.now) past.entry.next why) }
{
    let shown = label(past.names, number_named(past.next))?;
    format!(in past.names.alloc; "{front}{shown}")
}

/// A sentence that ends with the hub of the next event.
pub fn of_hub(past: Past<'_>, why: Refusal, front: &str) -> Sentence
    requires { IsBeginning (view past.names.object.now) past.next why
        (front.now ++ labels (view past.names.object.now) (hub_number past.next) ++ codes "\n") }
    ensures { IfOk result (Words (view past.entry.names.object.now) past.entry.next why) }
{
    let shown = label(past.names, hub_number(past.next))?;
    format!(in past.names.alloc; "{front}{shown}")
}

/// A sentence about no number, of words, which tell the refusal, and the rest.
pub fn plain(past: Past<'_>, why: Refusal, words: &str, rest: &str) -> Sentence
    requires { IsBeginning (view past.names.object.now) past.next why words.now }
    ensures { IfOk result (Words (view past.entry.names.object.now) past.entry.next why) }
{
    format!(in past.names.alloc; "{words}{rest}")
}
