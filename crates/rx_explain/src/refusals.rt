//! What is said of an event that is refused: the refusal of the table of causes in a sentence, with the events that
//! brought it about. [`refusal_told`] has a row for each refusal.

ghost use Rattle.std.specs.Prelude.{◌≡◌, ◌∷◌, [], codes, IfOk};
ghost use Rattle.serde_json.specs.View.{view};
ghost use Rattle.rx_event.specs.declared.refusal.Refusal.TheVariants.{Gone, WrongKind, PlaceTaken, Connected};
ghost use Rattle.rx_event.specs.declared.refusal.Refusal.TheVariants.{NoLease, NotHeld, Leased, TooMany, NotRoot, HubOrder, HasChild};
ghost use Rattle.rx_explain.specs.Worded.{beginnings, labels, Words};

use crate::past::{
    Past, connection_of, end_of, event_at, last_return_of, lease_out, opening_at, place_of, shown,
};
use crate::sentences::{
    Sentence, hub_number, number_named, of_hub, of_number, on_hub, on_kind, on_number, plain,
};
use rx_event::{Event, Place, Refusal};

// Words and the place of an event, as the rest of a sentence; nothing where there is no such event.
fn by_event(past: Past<'_>, words: &str, place: Option<usize>) -> Sentence {
    let alloc = past.names.alloc;
    match place {
        Some(place) => format!(in alloc; "{words}{place}"),
        None => Ok(String::new(alloc)),
    }
}

// Of a node that is not open.
fn gone(past: Past<'_>) -> Sentence
    ensures { IfOk result (Words (view past.entry.names.object.now) past.entry.next Gone) }
{
    let node = number_named(past.next);
    if !event_at(past.events, node).is_some_and(Event::makes_node) {
        return of_number(past, Refusal::Gone, "there is no node ");
    }
    let by = by_event(past, ", by event ", end_of(past.events, node))?;
    on_number(past, Refusal::Gone, "node ", " is closed", by.as_str())
}

// Of a node to which nothing is projected.
fn no_merging(past: Past<'_>) -> Sentence
    ensures { IfOk result (Words (view past.entry.names.object.now) past.entry.next WrongKind) }
{
    on_kind(past, " is neither a FlatMap nor a Switch", "")
}

// Of a node that has no such place.
fn no_place(past: Past<'_>, place: Place) -> Sentence
    ensures { IfOk result (Words (view past.entry.names.object.now) past.entry.next WrongKind) }
{
    match place {
        Place::Inner(_) => no_merging(past),
        Place::Notifier(_) => on_kind(past, " is not a TakeUntil", ""),
        Place::Source(_) | Place::Root => on_kind(past, " has no place for a source", ""),
    }
}

// Of a hub that connects by itself.
fn counts(past: Past<'_>) -> Sentence
    ensures { IfOk result (Words (view past.entry.names.object.now) past.entry.next WrongKind) }
{
    let rest = ": it connects when a subscriber waits, and only then";
    on_hub(past, Refusal::WrongKind, "hub ", " has RefCount", rest)
}

// Whether the node that the next event is about subscribes to a hub.
fn is_subscriber(past: Past<'_>) -> bool {
    match event_at(past.events, number_named(past.next)) {
        Some(made) => made.subscribes_to().is_some(),
        None => false,
    }
}

// Of a node that is to end.
fn no_end(past: Past<'_>) -> Sentence
    ensures { IfOk result (Words (view past.entry.names.object.now) past.entry.next WrongKind) }
{
    if is_subscriber(past) {
        let rest = ": it ends as the connection of its hub does";
        return on_kind(past, " is a subscriber", rest);
    }
    let rest = ": it completes only when a rule forces it to";
    on_kind(past, " is not a leaf", rest)
}

// Of the connection of a hub that disconnects by itself.
fn no_closing(past: Past<'_>) -> Sentence
    ensures { IfOk result (Words (view past.entry.names.object.now) past.entry.next WrongKind) }
{
    let alloc = past.names.alloc;
    let hub = match event_at(past.events, number_named(past.next)) {
        Some(Event::Connect(hub)) => shown(past, hub)?,
        _ => String::new(alloc),
    };
    let rest = format!(in alloc; "{hub}, which has RefCount: it closes with the last subscriber")?;
    on_kind(past, " is the connection of hub ", rest.as_str())
}

// Of a node or a hub of another kind.
fn wrong_kind(past: Past<'_>) -> Sentence
    ensures { IfOk result (Words (view past.entry.names.object.now) past.entry.next WrongKind) }
{
    match past.next {
        Event::Open { place, .. } => no_place(past, place),
        Event::Connect(_) => counts(past),
        Event::Decline(_) => no_merging(past),
        Event::End(_, _) => no_end(past),
        Event::Close(_) => no_closing(past),
        _ => on_kind(past, " is not a leaf", ""),
    }
}

// Of a place that serves once.
fn place_taken(past: Past<'_>) -> Sentence
    ensures { IfOk result (Words (view past.entry.names.object.now) past.entry.next PlaceTaken) }
{
    let before = match past.next {
        Event::Open { place, .. } => opening_at(past.events, place),
        _ => None,
    };
    let by = by_event(past, ", by event ", before)?;
    let words = "the place was used before";
    plain(past, Refusal::PlaceTaken, words, by.as_str())
}

// Of a hub that is connected.
fn connected(past: Past<'_>) -> Sentence
    ensures { IfOk result (Words (view past.entry.names.object.now) past.entry.next Connected) }
{
    let alloc = past.names.alloc;
    let node = match connection_of(past, hub_number(past.next)) {
        Some(node) => shown(past, node)?,
        None => String::new(alloc),
    };
    let rest = format!(in alloc; ", by node {node}")?;
    let words = " is connected already";
    on_hub(past, Refusal::Connected, "hub ", words, rest.as_str())
}

// Of a lease that is not out.
fn no_lease(past: Past<'_>) -> Sentence
    ensures { IfOk result (Words (view past.entry.names.object.now) past.entry.next NoLease) }
{
    let lease = number_named(past.next);
    if !event_at(past.events, lease).is_some_and(Event::makes_lease) {
        return of_number(past, Refusal::NoLease, "there is no lease ");
    }
    let by = by_event(
        past,
        ", by event ",
        place_of(past.events, Event::Return(lease)),
    )?;
    let words = " was given back";
    on_number(past, Refusal::NoLease, "lease ", words, by.as_str())
}

// Why the node of a resource does not own it.
fn unowned(past: Past<'_>, resource: u64) -> Sentence {
    let alloc = past.names.alloc;
    match place_of(past.events, Event::Remove(resource)) {
        Some(removal) => format!(in alloc; "event {removal} removed it"),
        None => String::from_str(alloc, "its node is closed"),
    }
}

// Of a resource that was held, and was not handed out.
fn let_go(past: Past<'_>) -> Sentence
    ensures { IfOk result (Words (view past.entry.names.object.now) past.entry.next NotHeld) }
{
    let alloc = past.names.alloc;
    let resource = number_named(past.next);
    let reason = unowned(past, resource)?;
    let words = ", and its last lease was given back, by event ";
    let ending = by_event(past, words, last_return_of(past.events, resource))?;
    let rest = format!(in alloc; ": {reason}{ending}")?;
    let words = " is not held";
    on_number(past, Refusal::NotHeld, "resource ", words, rest.as_str())
}

// Of a resource that is not held.
fn not_held(past: Past<'_>) -> Sentence
    ensures { IfOk result (Words (view past.entry.names.object.now) past.entry.next NotHeld) }
{
    let resource = number_named(past.next);
    if !event_at(past.events, resource).is_some_and(Event::makes_resource) {
        return of_number(past, Refusal::NotHeld, "there is no resource ");
    }
    let taking = place_of(past.events, Event::Take(resource));
    if taking.is_none() {
        return let_go(past);
    }
    let by = by_event(past, ", by event ", taking)?;
    let words = " was handed out";
    on_number(past, Refusal::NotHeld, "resource ", words, by.as_str())
}

// Of a resource that only leases hold.
fn leased(past: Past<'_>) -> Sentence
    ensures { IfOk result (Words (view past.entry.names.object.now) past.entry.next Leased) }
{
    let reason = unowned(past, number_named(past.next))?;
    let front = "only leases hold resource ";
    on_number(past, Refusal::Leased, front, ": ", reason.as_str())
}

// Of a limit that would be passed.
fn too_many(past: Past<'_>) -> Sentence
    ensures { IfOk result (Words (view past.entry.names.object.now) past.entry.next TooMany) }
{
    let why = Refusal::TooMany;
    match past.next {
        Event::Hub(_) => plain(past, why, "there are 1024 hubs already", ""),
        Event::Item(_, _) => plain(
            past,
            why,
            "the item would make more than 1048576 visits",
            "",
        ),
        _ => plain(past, why, "it would take more than 1048576 open nodes", ""),
    }
}

// Of a node that is to close, and is no root.
fn not_root(past: Past<'_>) -> Sentence
    ensures { IfOk result (Words (view past.entry.names.object.now) past.entry.next NotRoot) }
{
    let rest = ": it closes with the node above it";
    on_number(past, Refusal::NotRoot, "node ", " is not a root", rest)
}

// Of a subscriber that would stand below a connection of its own hub or of an earlier one.
fn hub_order(past: Past<'_>) -> Sentence
    ensures { IfOk result (Words (view past.entry.names.object.now) past.entry.next HubOrder) }
{
    let words = " may not stand below a connection";
    let rest = " of that hub or of an earlier one";
    on_hub(past, Refusal::HubOrder, "a subscriber of hub ", words, rest)
}

// Of a node below which one is open.
fn has_child(past: Past<'_>) -> Sentence
    ensures { IfOk result (Words (view past.entry.names.object.now) past.entry.next HasChild) }
{
    let rest = ", and nothing is owed there";
    on_number(
        past,
        Refusal::HasChild,
        "a node below node ",
        " is open",
        rest,
    )
}

// Of a refusal that no event meets.
fn no_other(past: Past<'_>, why: Refusal) -> Sentence
    requires { beginnings (labels (view past.names.object.now)) past.next why
        ≡ codes "it may not follow the events before it" ∷ [] }
    ensures { IfOk result (Words (view past.entry.names.object.now) past.entry.next why) }
{
    plain(past, why, "it may not follow the events before it", "")
}

/// What is said of the next event, which is refused so.
pub fn refusal_told(past: Past<'_>, why: Refusal) -> Sentence
    ensures { IfOk result (Words (view past.entry.names.object.now) past.entry.next why) }
{
    match why {
        Refusal::NoHub => of_hub(past, Refusal::NoHub, "there is no hub "),
        Refusal::Gone => gone(past),
        Refusal::WrongKind => wrong_kind(past),
        Refusal::PlaceTaken => place_taken(past),
        Refusal::NothingOwed => of_number(past, Refusal::NothingOwed, "nothing is owed at node "),
        Refusal::NotRoot => not_root(past),
        Refusal::HubOrder => hub_order(past),
        Refusal::Connected => connected(past),
        Refusal::NoLease => no_lease(past),
        Refusal::NotHeld => not_held(past),
        Refusal::Leased => leased(past),
        Refusal::HasChild => has_child(past),
        Refusal::TooMany => too_many(past),
        Refusal::NotConnected => no_other(past, Refusal::NotConnected),
        Refusal::NotFresh => no_other(past, Refusal::NotFresh),
        Refusal::MailLeft => no_other(past, Refusal::MailLeft),
        Refusal::Full => no_other(past, Refusal::Full),
        Refusal::NoMemory => no_other(past, Refusal::NoMemory),
    }
}

/// What is said of a taking that nothing refuses: what it takes does not wait.
pub fn taking_told(past: Past<'_>) -> Sentence {
    let alloc = past.names.alloc;
    let Event::Take(resource) = past.next else {
        return String::from_str(alloc, "it may not follow the events before it");
    };
    let shown = shown(past, resource)?;
    if !event_at(past.events, resource).is_some_and(Event::makes_resource) {
        return format!(in alloc; "there is no resource {shown}");
    }
    if let Some(taking) = place_of(past.events, past.next) {
        return format!(in alloc; "resource {shown} was handed out, by event {taking}");
    }
    match lease_out(alloc, past.events, resource)? {
        Some(lease) => {
            format!(in alloc; "resource {shown} is still held: lease {lease} of it is out")
        }
        None => format!(in alloc;
            "resource {shown} is still held: it waits once it is removed or its node is closed"
        ),
    }
}
