//! A storm: many threads at one desk, some that emit and some that release.
//!
//! # Vocabulary
//!
//! - [`storm`] starts a feeding thread for each source and so many workers at the desk of `rx_crew`, each
//!   thread with a seat of its own, joins them all, compares seats and receipts with the book, and writes
//!   the figures.
//! - The **figures** are what it came to, one a line: `accepted`, `taken`, `released`, `faults`, `held`,
//!   `waiting`, `notes` (mail taken at the end) and `events`. `specs/Storms.antt` defines their text.
//! - [`storm_in_batches`] is the same with 16 items of a source under one lock.
//! - A [`StormFault`] says what kept a storm from being told.
//! - [`run_threads`] is a storm at a desk of the caller's; what the threads gave back is [`Gathered`], with
//!   the [`Lack`] that kept the storm from its end. [`end_storm`] ends it: it takes the book out, compares,
//!   closes and tells it. A caller who wants the history takes the book out himself.
//!
//! # Promised, and not
//!
//! - Where [`end_storm`] answers Ok, what was written is the text of the figures of a book that keeps its
//!   promise, with the notes that were not handed out yet and the releases and faults that were gathered,
//!   and nothing else; the answer is whether the verdict on the seats and receipts is no mismatch, and that
//!   book was closed. Where the threads lacked something, that is the answer.
//! - [`storm`] and [`storm_in_batches`] promise the same for some seats and receipts.
//! - With `Memory` or `Thread` nothing was written; with `Write` a front of the text may have been.
//! - A feeding thread that is done has emitted the numbers from 0 up to its count, in order, and completed its
//!   leaf; it has a receipt for each of these events, and its seat counts the items and one resource. In batches it
//!   is the same; and one in batches that is refused emitted some of them, with a receipt for each.
//! - That threads are started and nothing that they gave back is left out, that as many resources were
//!   released as were taken, that seats and receipts agree with the book, that releases run side by side,
//!   and that the book is closed also where an error is answered is tested and not proved; so it is that
//!   `Memory` and `Thread` come only where memory or a thread was really refused.
//! - How long a storm takes, and in which order its threads get the lock, nothing says.
#![tactic(auto)]

ghost use Rattle.std.specs.Prelude.{◌≡◌, ◌≤◌, ◌↔◌, [], Err, Some, vec_len, IfOk, OnOk, IsErrOf};
ghost use Rattle.std.specs.List.{All};
ghost use Rattle.rx_resource.specs.declared.Life.{Life};
ghost use Rattle.rx_ledger.specs.Shares.{OpensFromBlank, together, sums_in};
ghost use Rattle.rx_device.specs.Device.{device_of, has_failed, has_stopped, HasWriteFault, KeepsDevice};
ghost use Rattle.rx_storm.specs.declared.StormFault.{StormFault};
ghost use Rattle.rx_storm.specs.declared.outcome.Lack.{Lack};
ghost use Rattle.rx_storm.specs.Storms.{Tells, TellsFront, TellsOf, TellsFrontOf};

mod batches;
mod ending;
mod figures;
mod numbers;
mod opening;
mod outcome;
mod threads;

use ending::settle;
pub use outcome::Lack;
use rx_book::Book;
use rx_crew::{Desk, Gate};
use rx_device::{Watched, write_text};
use rx_ledger::PARTS;
use rx_resource::Resource;
use std::alloc::Global;
use std::io::Write;
use std::marker::Brand;
use std::sync::Wait;
use std::sync::ledger::{Blank, Ledger};
use std::thread::Threads;
use threads::run_feeding;
pub use threads::{Gathered, run_threads};

/// How many events the book of a storm may have.
const MOST_EVENTS: u64 = 16_777_216;

/// What kept a storm from being told.
#[derive(Clone, Copy, Debug, PartialEq, Eq)]
pub enum StormFault {
    /// Memory was refused.
    Memory,
    /// A thread could not be started, and no memory was refused.
    Thread,
    /// The writer failed, or took no byte.
    Write,
}

/// The book of a storm, in which nothing happened yet: it may have 16,777,216 events.
fn new_book<R: Resource>(alloc: Global) -> Book<R>
    ensures empty { result.history ≡ [] }
    ensures limit { result.limit ≡ 16777216 }
{
    Book::new(alloc, MOST_EVENTS)
}

/// Ends a storm at a desk whose threads are joined, with what they gave back: takes the book out,
/// compares the seats and receipts with it, closes it, and writes the figures that it had before the
/// closing, one a line. Ok tells whether there was no mismatch.
///
/// Where the threads lacked memory or a thread it answers that, and where memory is refused here
/// `Memory`: nothing is written then. With `Write` a front of the text may have been. The book is
/// closed in each case, and before the first byte is written.
pub fn end_storm<R: Resource, I: Ledger, A: Ledger, K: Ledger, W: Write>(
    alloc: Global,
    desk: Desk<R, I, A, K>,
    gathered: Gathered<I, A, K>,
    writer: &mut Watched<'_, W>,
) -> Result<bool, StormFault>
    ensures told { IfOk result (λ answer. TellsOf (sums_in (together gathered.seats.items)) gathered.receipts.items
        gathered.released gathered.faults answer
        (W.contents (device_of writer.old)) (W.contents (device_of writer.new))) }
    ensures front { IsErrOf result StormFault.Write
        → TellsFrontOf (sums_in (together gathered.seats.items)) gathered.receipts.items
        gathered.released gathered.faults (W.contents (device_of writer.old)) (W.contents (device_of writer.new)) }
    ensures memory { gathered.fault ≡ Some Lack.Memory → result ≡ Err StormFault.Memory }
    ensures thread { (result ≡ Err StormFault.Thread) ↔ (gathered.fault ≡ Some Lack.Thread) }
    ensures untold { IsErrOf result StormFault.Memory → writer.new ≡ writer.old }
    ensures unstarted { IsErrOf result StormFault.Thread → writer.new ≡ writer.old }
    ensures unhurt { OnOk result (has_failed writer.new ≡ has_failed writer.old) }
    ensures moved { OnOk result (has_stopped writer.new ≡ has_stopped writer.old) }
    ensures failed { IsErrOf result StormFault.Write → HasWriteFault writer.new }
    ensures same_device { KeepsDevice writer.old writer.new }
{
    let (figures, agrees) = match settle(desk, gathered).outcome {
        Ok(told) => told,
        Err(Lack::Memory) => return Err(StormFault::Memory),
        Err(Lack::Thread) => return Err(StormFault::Thread),
    };
    let text = match figures.text(alloc) {
        Ok(text) => text,
        Err(_) => return Err(StormFault::Memory),
    };
    match write_text(writer, text.as_bytes()) {
        Ok(()) => Ok(agrees),
        Err(_) => Err(StormFault::Write),
    }
}

/// Runs a storm whose ledgers the caller names.
fn storm_named<
    R: Resource,
    I: Ledger + Send + Sync,
    A: Ledger + Send + Sync,
    K: Ledger + Send + Sync,
    G: Gate,
    T: Threads + Wait + Sync,
    W: Write,
>(
    rt: &T,
    alloc: Global,
    blanks: (Blank, Blank, Blank),
    stock: Vec<R>,
    workers: u64,
    items: u32,
    in_batches: bool,
    gate: &G,
    writer: &mut Watched<'_, W>,
) -> Result<bool, StormFault>
    requires items { OpensFromBlank I.name I.parts blanks.0.name blanks.0.parts }
    requires accepted { OpensFromBlank A.name A.parts blanks.1.name blanks.1.parts }
    requires taken { OpensFromBlank K.name K.parts blanks.2.name blanks.2.parts }
    ensures told { IfOk result (λ answer.
        Tells answer (W.contents (device_of writer.old)) (W.contents (device_of writer.new))) }
    ensures front { IsErrOf result StormFault.Write
        → TellsFront (W.contents (device_of writer.old)) (W.contents (device_of writer.new)) }
    ensures untold { IsErrOf result StormFault.Memory → writer.new ≡ writer.old }
    ensures unstarted { IsErrOf result StormFault.Thread → writer.new ≡ writer.old }
    ensures unhurt { OnOk result (has_failed writer.new ≡ has_failed writer.old) }
    ensures moved { OnOk result (has_stopped writer.new ≡ has_stopped writer.old) }
    ensures failed { IsErrOf result StormFault.Write → HasWriteFault writer.new }
    ensures same_device { KeepsDevice writer.old writer.new }
{
    let (desk, first) = Desk::<R, I, A, K>::new(new_book(alloc), blanks.0, blanks.1, blanks.2);
    let gathered = run_feeding(
        rt, alloc, &desk, first, stock, workers, items, in_batches, gate,
    );
    end_storm(alloc, desk, gathered, writer)
}

/// Runs a storm and writes its figures, one a line.
///
/// A thread for each of `sources` opens a Using root with a resource of the stock and a leaf below it,
/// and feeds that the numbers from 0 up to `items` and a completion; `workers` threads take and release
/// what waits, between the calls of `gate`. Then the feeds are joined, the desk is shut, the workers
/// are joined, and the seats and receipts are compared with the book. Ok tells whether they agree.
///
/// Refused are `Memory` where memory was refused to the storm or to one of its calls, and else `Thread`
/// where a thread could not be started: nothing is written then. With `Write` a front of the text may
/// have been. In each case all that was open is disposed of and all that waits is released.
pub fn storm<R: Resource, G: Gate, T: Threads + Wait + Sync, W: Write>(
    rt: &T,
    alloc: Global,
    sources: u64,
    workers: u64,
    items: u64,
    stock: Vec<R>,
    gate: &G,
    writer: &mut Watched<'_, W>,
) -> Result<bool, StormFault>
    requires sources { (1 ≤ sources) × (sources ≤ 64) × (sources ≤ vec_len stock) }
    requires workers { (1 ≤ workers) × (workers ≤ 16) }
    requires items { items ≤ 10000 }
    requires live { All (λ r. R.life_of r ≡ Life.Live) stock.items }
    requires unused { All (λ r. R.uses_of r ≡ 0) stock.items }
    ensures told { IfOk result (λ answer.
        Tells answer (W.contents (device_of writer.old)) (W.contents (device_of writer.new))) }
    ensures untold { IsErrOf result StormFault.Memory → writer.new ≡ writer.old }
    ensures unstarted { IsErrOf result StormFault.Thread → writer.new ≡ writer.old }
    ensures front { IsErrOf result StormFault.Write
        → TellsFront (W.contents (device_of writer.old)) (W.contents (device_of writer.new)) }
    ensures unhurt { OnOk result (has_failed writer.new ≡ has_failed writer.old) }
    ensures moved { OnOk result (has_stopped writer.new ≡ has_stopped writer.old) }
    ensures failed { IsErrOf result StormFault.Write → HasWriteFault writer.new }
    ensures same_device { KeepsDevice writer.old writer.new }
{
    let mut stock = stock;
    stock.truncate(sources as usize);
    let blanks = (Blank::new(PARTS), Blank::new(PARTS), Blank::new(PARTS));
    let count = items as u32;
    storm_named::<R, Brand, Brand, Brand, G, T, W>(
        rt, alloc, blanks, stock, workers, count, false, gate, writer,
    )
}

/// Runs a storm as [`storm`] does, with 16 items of a source under one lock.
///
/// Refused are `Memory` where memory was refused to the storm or to one of its calls, and else `Thread`
/// where a thread could not be started: nothing is written then. With `Write` a front of the text may
/// have been. In each case all that was open is disposed of and all that waits is released.
pub fn storm_in_batches<R: Resource, G: Gate, T: Threads + Wait + Sync, W: Write>(
    rt: &T,
    alloc: Global,
    sources: u64,
    workers: u64,
    items: u64,
    stock: Vec<R>,
    gate: &G,
    writer: &mut Watched<'_, W>,
) -> Result<bool, StormFault>
    requires sources { (1 ≤ sources) × (sources ≤ 64) × (sources ≤ vec_len stock) }
    requires workers { (1 ≤ workers) × (workers ≤ 16) }
    requires items { items ≤ 10000 }
    requires live { All (λ r. R.life_of r ≡ Life.Live) stock.items }
    requires unused { All (λ r. R.uses_of r ≡ 0) stock.items }
    ensures told { IfOk result (λ answer.
        Tells answer (W.contents (device_of writer.old)) (W.contents (device_of writer.new))) }
    ensures untold { IsErrOf result StormFault.Memory → writer.new ≡ writer.old }
    ensures unstarted { IsErrOf result StormFault.Thread → writer.new ≡ writer.old }
    ensures front { IsErrOf result StormFault.Write
        → TellsFront (W.contents (device_of writer.old)) (W.contents (device_of writer.new)) }
    ensures unhurt { OnOk result (has_failed writer.new ≡ has_failed writer.old) }
    ensures moved { OnOk result (has_stopped writer.new ≡ has_stopped writer.old) }
    ensures failed { IsErrOf result StormFault.Write → HasWriteFault writer.new }
    ensures same_device { KeepsDevice writer.old writer.new }
{
    let mut stock = stock;
    stock.truncate(sources as usize);
    let blanks = (Blank::new(PARTS), Blank::new(PARTS), Blank::new(PARTS));
    let count = items as u32;
    storm_named::<R, Brand, Brand, Brand, G, T, W>(
        rt, alloc, blanks, stock, workers, count, true, gate, writer,
    )
}
