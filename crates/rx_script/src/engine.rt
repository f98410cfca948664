//! A scenario at work: a book, what its names stand for, and the stock that is left.

ghost use Rattle.std.specs.Prelude.{◌≡◌, ◌≢◌, ◌≤◌, [], map, string_bytes, IfOk, OnErr};
ghost use Rattle.rx_event.specs.declared.refusal.Refusal.{Refusal};
ghost use Rattle.rx_register.specs.State.{greatest_limit};
ghost use Rattle.rx_agenda.specs.declared.answer.Answer.{Answer};
ghost use Rattle.rx_agenda.specs.declared.answer.Cause.{Cause};
ghost use Rattle.rx_scenario.specs.Scenario.{site_of, using, hold as holding, drain as draining, checkpoint as checkpointing};
ghost use Rattle.rx_script.specs.Stage.{start, ware_of};
ghost use Rattle.rx_script.specs.Engine.{at_of, stage_of, IsHistoryOf, IsSound, CarriesStep};

use crate::gathering::gather;
use crate::shelf::Stock;
use crate::tallies::Tallies;
use rx_agenda::{Answer, Cause, Names};
use rx_book::{At, Book, Key, LeaseKey, ResKey};
use rx_event::Refusal;
use rx_resource::Resource;
use rx_scenario::Site;
use std::alloc::{AllocError, Global};

/// A book, the names of its nodes, of its hubs, of its resources and of its leases in order of binding,
/// the stock that is left, what is to be reported of the events and notes that a checkpoint let go, and
/// how many releases have met a fault. A hub goes by its number.
pub struct Engine<R: Resource> {
    pub book: Book<R>,
    pub nodes: Names<Key>,
    pub hubs: Names<u64>,
    pub resources: Names<ResKey>,
    pub leases: Names<LeaseKey>,
    pub stock: Stock<R>,
    pub tallies: Tallies,
    pub faults: u64,
}

// Written out, so that where an engine is let go there is one call to prove, and not the drop of each field in turn.
impl<R: Resource> Drop for Engine<R> {
    fn drop(self) {
        let Engine {
            book: _book,
            nodes: _nodes,
            hubs: _hubs,
            resources: _resources,
            leases: _leases,
            stock: _stock,
            tallies: _tallies,
            faults: _faults,
        } = self;
    }
}

/// Before the first step: an empty book of so many events at most, and this stock.
pub fn begin<R: Resource>(alloc: Global, max_events: u64, stock: Vec<R>) -> Engine<R>
    requires { max_events ≤ greatest_limit }
    ensures sound { IsSound result }
    ensures stage { stage_of result [] ≡ start (map (ware_of R.Resource) stock.items) }
    ensures history { IsHistoryOf [] result.tallies result.book }
    ensures limit { result.book.limit ≡ max_events }
{
    let book = Book::new(alloc, max_events);
    book.promise();
    Engine {
        book,
        nodes: Names::new(alloc),
        hubs: Names::new(alloc),
        resources: Names::new(alloc),
        leases: Names::new(alloc),
        stock: Stock::new(stock),
        tallies: Tallies::new(alloc),
        faults: 0,
    }
}

/// The place that a site stands for.
pub fn place_of(names: &Names<Key>, site: &Site) -> Option<At>
    ensures { result ≡ at_of names.now (site_of site.now) }
{
    match site {
        Site::Root => Some(At::Root),
        Site::Source(name) => names.get(name.as_str()).map(At::Source),
        Site::Inner(name) => names.get(name.as_str()).map(At::Inner),
        Site::Notifier(name) => names.get(name.as_str()).map(At::Notifier),
    }
}

/// The answer where the book refuses a call; want of memory is no answer.
pub fn refused(why: Refusal) -> Result<Answer, AllocError>
    ensures ok { IfOk result (λ a. (a ≡ Answer.Refused (Cause.Book why)) × (why ≢ Refusal.NoMemory)) }
    ensures err { OnErr result (why ≡ Refusal.NoMemory) }
{
    match why {
        Refusal::NoMemory => Err(AllocError),
        _ => Ok(Answer::Refused(Cause::Book(why))),
    }
}

/// A mirroring node is opened with the first resource of the stock.
pub fn using<R: Resource>(
    engine: &mut Engine<R>,
    name: String,
    site: &Site,
    res: String,
) -> Result<Answer, AllocError>
    requires { IsSound engine.old }
    ensures { IfOk result
        (λ a. CarriesStep engine.old (using (string_bytes name) (site_of site.now) (string_bytes res)) a engine.new) }
{
    let Some(place) = place_of(&engine.nodes, site) else {
        return Ok(Answer::Refused(Cause::NoName));
    };
    if engine.nodes.is_bound(name.as_str()) {
        return Ok(Answer::Refused(Cause::NameTaken));
    }
    if engine.resources.is_bound(res.as_str()) {
        return Ok(Answer::Refused(Cause::NameTaken));
    }
    let Some(resource) = engine.stock.take() else {
        return Ok(Answer::Refused(Cause::NoStock));
    };
    match engine.book.open_using(place, resource) {
        Ok(opened) => {
            engine.book.promise();
            engine.nodes.bind(name, opened.key)?;
            engine.resources.bind(res, opened.res)?;
            Ok(Answer::Accepted)
        }
        Err(unheld) => {
            engine.stock.put_back(unheld.back);
            refused(unheld.why)
        }
    }
}

/// A node holds the first resource of the stock.
pub fn hold<R: Resource>(
    engine: &mut Engine<R>,
    node: &str,
    res: String,
) -> Result<Answer, AllocError>
    requires { IsSound engine.old }
    ensures { IfOk result (λ a. CarriesStep engine.old (holding node.now (string_bytes res)) a engine.new) }
{
    let Some(key) = engine.nodes.get(node) else {
        return Ok(Answer::Refused(Cause::NoName));
    };
    if engine.resources.is_bound(res.as_str()) {
        return Ok(Answer::Refused(Cause::NameTaken));
    }
    let Some(resource) = engine.stock.take() else {
        return Ok(Answer::Refused(Cause::NoStock));
    };
    match engine.book.hold(key, resource) {
        Ok(held) => {
            engine.book.promise();
            engine.resources.bind(res, held)?;
            Ok(Answer::Accepted)
        }
        Err(unheld) => {
            engine.stock.put_back(unheld.back);
            refused(unheld.why)
        }
    }
}

/// All that waits is taken and released.
pub fn drain<R: Resource>(engine: &mut Engine<R>)
    requires { IsSound engine.old }
    ensures { CarriesStep engine.old draining Answer.Accepted engine.new }
{
    let closed = engine.book.release_waiting();
    engine.book.promise();
    engine.faults = engine.faults.saturating_add(closed.faults);
}

/// The book makes a checkpoint. What is to be reported of its events and notes is gathered first, since they
/// are let go.
///
/// It is never refused: all notes are handed out before, and the 9,223,372,036,854,775,807 events past which a
/// book makes none are out of reach, since a scenario has at most 65,536 steps and at most 4,294,967,295 events
/// come between two checkpoints. A run that came so far would end here, as where memory is refused.
pub fn checkpoint<R: Resource>(engine: &mut Engine<R>) -> Result<Answer, AllocError>
    requires { IsSound engine.old }
    ensures { IfOk result (λ a. CarriesStep engine.old checkpointing a engine.new) }
{
    gather(&mut engine.tallies, &mut engine.book)?;
    engine.book.promise();
    match engine.book.checkpoint() {
        Ok(_) => {
            engine.book.promise();
            Ok(Answer::Accepted)
        }
        Err(_) => Err(AllocError),
    }
}
