//! The open subscribers of each hub, one after another: all of them, or those alone that are no roots.

ghost use Rattle.std.specs.Prelude.{◌≡◌, ◌+◌, ◌-◌, ◌<◌, ◌∷◌, ◌++◌, IfOk, OnOk, slice_index_or, slice_set};
ghost use Rattle.rx_audit.specs.Imports.{ℕ, true, false, Some, None, [], length, sum_by, not, is_subscriber_of, is_root};
ghost use Rattle.rx_audit.specs.Latest.{table_with};
ghost use Rattle.rx_audit.specs.Rules.{hub_subscribed_at, hub_connected_at};
ghost use Rattle.rx_audit.specs.HubTables.{number_by_word, hub_if_last, listed_hub, on_list, AreLinked, KeepsMarks, AreLetGo};
ghost use Rattle.rx_event.specs.Claims.Connections.{falling};
ghost use Rattle.rx_audit.specs.Verdict.{most_judged};

use crate::children::{one_more, put, value_at, word_at, zeros};
use crate::event_tests::event_at;
use crate::found::unmarked;
use crate::marks::is_marked;
use rx_event::Event;
use std::alloc::{AllocError, Global};

/// Lists by number that lead over the subscribers of each hub that have a mark: from a hub to its last one,
/// and from each to the one before it and to the one after it. Each says one more than the number, and 0
/// where there is none.
pub struct Subscribers {
    /// By node: it is a subscriber that is on the list of its hub.
    pub listed: Vec<bool>,
    /// By hub: its last subscriber.
    pub last: Vec<u32>,
    /// By subscriber: the one of its hub before it.
    pub before: Vec<u32>,
    /// By subscriber: the one of its hub after it.
    pub after: Vec<u32>,
    /// By hub: how many subscribers it has.
    pub counts: Vec<u32>,
}

// Written out, so that where they are let go there is one call to prove, and not the drop of each list in turn.
impl Drop for Subscribers {
    fn drop(self) {
        let Subscribers {
            listed: _listed,
            last: _last,
            before: _before,
            after: _after,
            counts: _counts,
        } = self;
    }
}

/// The hub that node `k` subscribes to.
pub fn hub_subscribed_at(past: &[Event], k: u64) -> Option<u64>
    ensures { result ≡ hub_subscribed_at past.now k }
{
    event_at(past, k as usize)?.subscribes_to()
}

/// The hub that node `k` connects.
pub fn hub_connected_at(past: &[Event], k: u64) -> Option<u64>
    ensures { result ≡ hub_connected_at past.now k }
{
    event_at(past, k as usize)?.connects()
}

/// There are no subscribers, with room for this many events.
pub fn no_subscribers(alloc: Global, size: usize) -> Result<Subscribers, AllocError>
    ensures { IfOk result (AreLinked [] size) }
{
    Ok(Subscribers {
        listed: unmarked(alloc, size)?,
        last: zeros(alloc, size)?,
        before: zeros(alloc, size)?,
        after: zeros(alloc, size)?,
        counts: zeros(alloc, size)?,
    })
}

/// The number that a word leads to.
pub fn number_by_word(word: usize) -> Option<u64>
    ensures { result ≡ number_by_word word }
{
    if word == 0 {
        None
    } else {
        Some((word - 1) as u64)
    }
}

/// The hub, where the word leads nowhere.
fn hub_if_last(word: usize, g: u64) -> Option<u64>
    ensures { result ≡ hub_if_last word g }
{
    if word == 0 { Some(g) } else { None }
}

/// Writes the mark of number `n`, if the list has it.
fn put_mark(marks: &mut Vec<bool>, n: u64, value: bool)
    ensures { marks.new.items ≡ slice_set marks.old.items n value }
{
    let n = n as usize;
    if n < marks.len() {
        marks[n] = value;
    }
}

/// The hub of node `s`, where `s` is on its list.
fn listed_hub(past: &[Event], subs: &Subscribers, s: u64) -> Option<u64>
    ensures { result ≡ listed_hub past.now subs.now.listed.items s }
{
    if is_marked(subs.listed.as_slice(), s) {
        hub_subscribed_at(past, s)
    } else {
        None
    }
}

/// Joins the neighbours of `s` on the list of hub `g`, and counts one less.
fn join_neighbours(subs: &mut Subscribers, g: u64, s: u64)
    ensures last { subs.new.last.items ≡ table_with subs.old.last.items
        (hub_if_last (slice_index_or subs.old.after.items s 0) g) (slice_index_or subs.old.before.items s 0) }
    ensures before { subs.new.before.items ≡ table_with subs.old.before.items
        (number_by_word (slice_index_or subs.old.after.items s 0)) (slice_index_or subs.old.before.items s 0) }
    ensures after { subs.new.after.items ≡ table_with subs.old.after.items
        (number_by_word (slice_index_or subs.old.before.items s 0)) (slice_index_or subs.old.after.items s 0) }
    ensures counts { subs.new.counts.items ≡ table_with subs.old.counts.items (Some g)
        (slice_index_or subs.old.counts.items g 0 - 1) }
    ensures listed { subs.new.listed.items ≡ subs.old.listed.items }
{
    let below = word_at(&subs.before, s);
    let above = word_at(&subs.after, s);
    put(&mut subs.last, hub_if_last(above as usize, g), below);
    put(&mut subs.before, number_by_word(above as usize), below);
    put(&mut subs.after, number_by_word(below as usize), above);
    let fewer = word_at(&subs.counts, g).saturating_sub(1);
    put(&mut subs.counts, Some(g), fewer);
}

/// Takes node `s` off the list of its hub, if it is on one.
fn unlist(past: &[Event], subs: &mut Subscribers, s: u64)
    requires { AreLinked past.now (length subs.old.listed.items) subs.old }
    ensures linked { AreLinked past.now (length subs.old.listed.items) subs.new }
    ensures listed { subs.new.listed.items ≡ slice_set subs.old.listed.items s false }
{
    if let Some(g) = listed_hub(past, subs, s) {
        join_neighbours(subs, g, s);
    }
    put_mark(&mut subs.listed, s, false);
}

/// Takes these nodes off the lists of their hubs.
pub fn let_go(past: &[Event], closed: &[usize], subs: &mut Subscribers)
    requires { AreLinked past.now (length subs.old.listed.items) subs.old }
    ensures linked { AreLinked past.now (length subs.old.listed.items) subs.new }
    ensures listed { AreLetGo subs.old.listed.items subs.new.listed.items closed.now (length closed.now) }
{
    for s in closed {
        unlist(past, subs, *s as u64);
    }
}

/// Puts node `n` on the list of hub `g`, as the last, and counts one more.
fn put_last(subs: &mut Subscribers, g: u64, n: usize)
    requires short { n < most_judged }
    requires few { slice_index_or subs.old.counts.items g 0 < most_judged }
    ensures last { subs.new.last.items ≡ table_with subs.old.last.items (Some g) (n + 1) }
    ensures before { subs.new.before.items ≡ table_with subs.old.before.items (Some n) (slice_index_or subs.old.last.items g 0) }
    ensures after { subs.new.after.items ≡ table_with (table_with subs.old.after.items (Some n) 0)
        (number_by_word (slice_index_or subs.old.last.items g 0)) (n + 1) }
    ensures counts { subs.new.counts.items ≡ table_with subs.old.counts.items (Some g)
        (slice_index_or subs.old.counts.items g 0 + 1) }
    ensures listed { subs.new.listed.items ≡ slice_set subs.old.listed.items n true }
{
    let below = word_at(&subs.last, g);
    let next = one_more(n);
    put(&mut subs.last, Some(g), next);
    put(&mut subs.before, Some(n as u64), below);
    put(&mut subs.after, Some(n as u64), 0);
    put(&mut subs.after, number_by_word(below as usize), next);
    let more = one_more(value_at(&subs.counts, g));
    put(&mut subs.counts, Some(g), more);
    put_mark(&mut subs.listed, n as u64, true);
}

/// Puts the node that the event makes on the list of the hub that it subscribes to, if it does.
pub fn list_new(past: &[Event], event: Event, subs: &mut Subscribers)
    requires linked { AreLinked past.now (length subs.old.listed.items) subs.old }
    requires room { length past.now < length subs.old.listed.items }
    requires short { length past.now < most_judged }
    requires hubbed { (g : ℕ) → is_subscriber_of g event ≡ true → g < length subs.old.listed.items }
    ensures linked { AreLinked (past.now ++ event ∷ []) (length subs.old.listed.items) subs.new }
    ensures others { KeepsMarks past.now subs.old.listed.items subs.new.listed.items }
    ensures new { (g : ℕ) → is_subscriber_of g event ≡ true → slice_index_or subs.new.listed.items (length past.now) false ≡ true }
{
    let n = past.len();
    if let Some(g) = event.subscribes_to() {
        put_last(subs, g, n);
    }
}

/// Leaves the node that the event makes off the lists.
fn leave_out(past: &[Event], event: Event, subs: &mut Subscribers)
    requires linked { AreLinked past.now (length subs.old.listed.items) subs.old }
    ensures linked { AreLinked (past.now ++ event ∷ []) (length subs.old.listed.items) subs.new }
    ensures others { KeepsMarks past.now subs.old.listed.items subs.new.listed.items }
    ensures new { slice_index_or subs.new.listed.items (length past.now) false ≡ false }
{
    put_mark(&mut subs.listed, past.len() as u64, false);
}

/// Puts the node that the event makes on the list of the hub that it subscribes to, if it does and is no root.
pub fn list_nested(past: &[Event], event: Event, subs: &mut Subscribers)
    requires linked { AreLinked past.now (length subs.old.listed.items) subs.old }
    requires room { length past.now < length subs.old.listed.items }
    requires short { length past.now < most_judged }
    requires hubbed { (g : ℕ) → is_subscriber_of g event ≡ true → g < length subs.old.listed.items }
    ensures linked { AreLinked (past.now ++ event ∷ []) (length subs.old.listed.items) subs.new }
    ensures others { KeepsMarks past.now subs.old.listed.items subs.new.listed.items }
    ensures new { (g : ℕ) → is_subscriber_of g event ≡ true
        → slice_index_or subs.new.listed.items (length past.now) false ≡ not (is_root event) }
{
    if event.is_root() {
        leave_out(past, event, subs);
    } else {
        list_new(past, event, subs);
    }
}

/// Puts the subscribers of hub `g` into an empty list, from the last to the first.
pub fn subscribers_of(
    past: &[Event],
    subs: &Subscribers,
    g: u64,
    found: &mut Vec<u64>,
) -> Result<(), AllocError>
    requires linked { AreLinked past.now (length subs.now.listed.items) subs.now }
    requires empty { found.old.items ≡ [] }
    ensures { OnOk result ((number : ℕ → ℕ) → sum_by number found.new.items
        ≡ sum_by number (falling (on_list past.now subs.now.listed.items g) (length past.now))) }
{
    let mut next = value_at(&subs.last, g);
    while next > 0 {
        let s = (next - 1) as u64;
        found.push(s)?;
        next = value_at(&subs.before, s);
    }
    Ok(())
}
