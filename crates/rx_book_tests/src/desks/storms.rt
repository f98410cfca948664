//! Storms that were run: faults of memory and threads, releases at one time, a receipt that is false, and that the
//! book is closed in each outcome.

ghost use Rattle.std.specs.Prelude.{◌≡◌, vec_len, IfOk};
ghost use Rattle.std.specs.List.{All};
ghost use Rattle.rx_resource.specs.declared.Life.{Life};
ghost use Rattle.rx_ledger.specs.Shares.{OpensFromBlank};

use super::parts::{Open, blanks};
use super::releases_outside_the_lock::Pair;
use crate::same::same;
use rx_book::{At, Book};
use rx_crew::{Desk, Gate};
use rx_device::Watched;
use rx_event::Event;
use rx_ledger::Receipt;
use rx_resource::{Sample, Tracked, Tracker};
use rx_scarce::Scarce;
use rx_storm::{Gathered, Lack, StormFault, end_storm, run_threads, storm, storm_in_batches};
use std::alloc::{AllocError, Global};
use std::io;
use std::io::Write;
use std::marker::Brand;
use std::process::Abort;
use std::sync::Wait;
use std::sync::ledger::{Blank, Ledger};
use std::test::Fail;
use std::thread::Threads;

// What is told of a storm of twenty items of each source.
const FIGURES: &str =
    "accepted 4\ntaken 4\nreleased 4\nfaults 1\nheld 0\nwaiting 0\nnotes 84\nevents 104\n";

// A resource for each of four sources; the release of the one of tag 3 meets the fault 2.
fn four_samples(alloc: Global) -> Result<Vec<Sample>, AllocError>
    ensures length { IfOk result (λ v. vec_len v ≡ 4) }
    ensures live { IfOk result (λ v. All (λ s. s.life ≡ Life.Live) v.items) }
    ensures unused { IfOk result (λ v. All (λ s. s.uses ≡ 0) v.items) }
{
    Ok(vec![in alloc;
        Sample::new(0),
        Sample::new(1),
        Sample::new(2),
        Sample::faulty(3, 2),
    ]?)
}

// A storm of four sources, three workers and a hundred items.
fn usual<G: Gate, T: Threads + Wait + Sync, W: Write>(
    rt: &T,
    alloc: Global,
    gate: &G,
    writer: &mut W,
) -> Result<bool, StormFault> {
    let Ok(stock) = four_samples(alloc) else {
        return Err(StormFault::Memory);
    };
    storm(rt, alloc, 4, 3, 100, stock, gate, &mut Watched::new(writer))
}

// A storm of twenty items, in batches of which the second one is not full.
fn in_batches<T: Threads + Wait + Sync, W: Write>(
    rt: &T,
    alloc: Global,
    writer: &mut W,
) -> Result<bool, StormFault> {
    let Ok(stock) = four_samples(alloc) else {
        return Err(StormFault::Memory);
    };
    storm_in_batches(rt, alloc, 4, 3, 20, stock, &Open, &mut Watched::new(writer))
}

#[test]
fn a_storm_in_batches_tells_its_figures(rt: HostRuntime) {
    let mut output = Vec::new(rt.alloc());
    same(&rt, in_batches(&rt, rt.alloc(), &mut output), Ok(true));
    same(&rt, output.as_slice(), FIGURES.as_bytes());
}

// The four resources of a storm, the last of them faulty, with each use and release counted.
fn four_tracked(alloc: Global, tracker: &Tracker) -> Result<Vec<Tracked>, AllocError> {
    let mut stock = Vec::new(alloc);
    for tag in 0..4 {
        let fault = if tag == 3 { Some(2) } else { None };
        stock.push(tracker.resource(tag, fault)?)?;
    }
    Ok(stock)
}

// What comes of a storm of these resources and so many items of each, whose receipts get these ones more; how many
// resources its book accepted; and how many seats and receipts its threads gave back.
fn weather<
    I: Ledger + Send + Sync,
    A: Ledger + Send + Sync,
    K: Ledger + Send + Sync,
    T: Threads + Wait + Sync,
>(
    rt: &T,
    alloc: Global,
    blanks: (Blank, Blank, Blank),
    stock: Vec<Tracked>,
    count: u32,
    forged: &[Receipt],
    output: &mut Vec<u8>,
) -> (Result<bool, StormFault>, u64, (usize, usize))
    requires items { OpensFromBlank I.name I.parts blanks.0.name blanks.0.parts }
    requires accepted { OpensFromBlank A.name A.parts blanks.1.name blanks.1.parts }
    requires taken { OpensFromBlank K.name K.parts blanks.2.name blanks.2.parts }
{
    let book = Book::new(alloc, 1_000_000);
    let (desk, first) = Desk::<Tracked, I, A, K>::new(book, blanks.0, blanks.1, blanks.2);
    let mut gathered = run_threads(rt, alloc, &desk, first, stock, 3, count, &Open);
    let back = (gathered.seats.len(), gathered.receipts.len());
    if gathered.receipts.extend_from_slice(forged).is_err() {
        gathered.fault = Some(Lack::Memory);
    }
    let accepted = desk.floor.lock(rt).accepted();
    let ended = end_storm(alloc, desk, gathered, &mut Watched::new(output));
    (ended, accepted, back)
}

// What comes of such a storm; each resource that its book accepted is released once. If it is done, each of its four
// sources and three workers gave back a seat, as the first thread did, and each source a receipt for each item and its end.
fn storm_once<T: Threads + Wait + Sync + Abort>(
    rt: &T,
    alloc: Global,
    tracker: &Tracker,
    count: u32,
    forged: &[Receipt],
    output: &mut Vec<u8>,
) -> Result<bool, StormFault> {
    let Ok(stock) = four_tracked(alloc, tracker) else {
        return Err(StormFault::Memory);
    };
    let before = tracker.released();
    let (ended, accepted, back) = weather::<Brand, Brand, Brand, _>(
        rt,
        alloc,
        blanks(),
        stock,
        count,
        forged,
        output,
    );
    let released = tracker.released().wrapping_sub(before);
    same(rt, u64::from(released), accepted);
    if ended.is_ok() {
        let receipts = (count as usize).saturating_add(1).saturating_mul(4);
        same(rt, back, (8, receipts));
    }
    ended
}

// Storms with more and more memory, until one is done. How often memory and how often a thread was refused, and
// how many resources were released in all of those.
fn storm_in_the_end<T: Threads + Wait + Sync + Abort>(
    rt: &T,
    alloc: Global,
    tracker: &Tracker,
    output: &mut Vec<u8>,
) -> Result<(u32, u32, u32), Fail> {
    let mut scarce = Scarce::new(alloc)?;
    let mut for_memory = 0u32;
    let mut for_threads = 0u32;
    for _turn in 0..100_000u32 {
        let released = tracker.released();
        match storm_once(rt, alloc, tracker, 100, &[], output) {
            Ok(agrees) => {
                assert!(rt; agrees);
                return Ok((for_memory, for_threads, released));
            }
            Err(StormFault::Memory) => for_memory = for_memory.saturating_add(1),
            Err(StormFault::Thread) => for_threads = for_threads.saturating_add(1),
            Err(StormFault::Write) => return Err(Fail::from("a vector was not written")),
        }
        assert!(rt; output.is_empty() && scarce.give_back_one());
    }
    Err(Fail::from("no storm is done"))
}

#[test]
fn a_storm_without_memory_or_threads_ends_and_writes_nothing(rt: HostRuntime) -> Result<(), Fail> {
    let tracker = Tracker::new(rt.alloc())?;
    let mut output = Vec::with_capacity(rt.alloc(), 256)?;
    let told = storm_in_the_end(&rt, rt.alloc(), &tracker, &mut output)?;
    let (for_memory, for_threads, released) = told;
    assert!(rt;
        for_memory > 0 && for_threads > 0 && released > 0,
        "{told:?}"
    );
    Ok(())
}

#[test]
fn two_releases_of_a_storm_run_at_the_same_time(rt: HostRuntime) {
    let gate = Pair::new();
    let mut output = Vec::new(rt.alloc());
    let ended = usual(&rt, rt.alloc(), &gate, &mut output);
    same(&rt, (ended, gate.has_met()), (Ok(true), true));
}

// The receipt of an event that is not in the history of a storm.
const FORGED: Receipt = Receipt {
    place: 0,
    event: Event::Take(0),
};

#[test]
fn a_false_receipt_is_a_mismatch(rt: HostRuntime) -> Result<(), Fail> {
    let tracker = Tracker::new(rt.alloc())?;
    let mut output = Vec::new(rt.alloc());
    let ended = storm_once(&rt, rt.alloc(), &tracker, 20, &[FORGED], &mut output);
    same(
        &rt,
        (ended, output.as_slice()),
        (Ok(false), FIGURES.as_bytes()),
    );
    Ok(())
}

// A writer that takes so many bytes, and then fails.
#[derive(Drop)]
struct Narrow {
    taken: Vec<u8>,
    room: usize,
}

impl Write for Narrow {
    fn write(&mut self, buf: &[u8]) -> io::Result<usize> {
        let count = buf.len().min(self.room.saturating_sub(self.taken.len()));
        if count == 0 {
            return Err(io::Error::from(io::ErrorKind::Other));
        }
        self.taken.extend_from_slice(&buf[..count])?;
        Ok(count)
    }

    fn flush(&mut self) -> io::Result<()> {
        Ok(())
    }
}

// What is told of a storm in whose book a root is left open.
const ONE_HELD: &str =
    "accepted 1\ntaken 0\nreleased 0\nfaults 0\nheld 1\nwaiting 0\nnotes 0\nevents 2\n";

// The end of a storm in whose book a root is left open, with this resource; its threads lacked this.
fn end_with_an_open_root<I: Ledger, A: Ledger, K: Ledger>(
    rt: &impl Wait,
    alloc: Global,
    blanks: (Blank, Blank, Blank),
    resource: Tracked,
    fault: Option<Lack>,
    writer: &mut Narrow,
) -> Result<bool, StormFault>
    requires items { OpensFromBlank I.name I.parts blanks.0.name blanks.0.parts }
    requires accepted { OpensFromBlank A.name A.parts blanks.1.name blanks.1.parts }
    requires taken { OpensFromBlank K.name K.parts blanks.2.name blanks.2.parts }
{
    let book = Book::new(alloc, 1000);
    let (desk, mut first) = Desk::<Tracked, I, A, K>::new(book, blanks.0, blanks.1, blanks.2);
    // (a refusal would show in what is told)
    let _ = desk
        .floor
        .lock(rt)
        .open_using(&mut first, At::Root, resource);
    let mut seats = Vec::new(alloc);
    let _ = seats.push(first);
    let gathered = Gathered {
        seats,
        receipts: Vec::new(alloc),
        released: 0,
        faults: 0,
        fault,
    };
    end_storm(alloc, desk, gathered, &mut Watched::new(writer))
}

// The end of such a storm, whose writer takes so many bytes: it is told so, and the resource was released once.
fn assert_closed<T: Wait + Abort>(
    rt: &T,
    alloc: Global,
    fault: Option<Lack>,
    room: usize,
    told: Result<bool, StormFault>,
) -> Result<(), Fail> {
    let tracker = Tracker::new(alloc)?;
    let mut narrow = Narrow {
        taken: Vec::new(alloc),
        room,
    };
    let resource = tracker.resource(7, None)?;
    let ended = end_with_an_open_root::<Brand, Brand, Brand>(
        rt,
        alloc,
        blanks(),
        resource,
        fault,
        &mut narrow,
    );
    let counts = (tracker.released(), tracker.dropped());
    let written = ONE_HELD.len().min(room);
    same(
        rt,
        (ended, counts, narrow.taken.as_slice()),
        (told, (1, 1), &ONE_HELD.as_bytes()[..written]),
    );
    Ok(())
}

#[test]
fn the_book_of_a_storm_is_closed_in_each_outcome(rt: HostRuntime) -> Result<(), Fail> {
    let alloc = rt.alloc();
    assert_closed(&rt, alloc, None, 100, Ok(true))?;
    assert_closed(&rt, alloc, None, 10, Err(StormFault::Write))?;
    assert_closed(&rt, alloc, Some(Lack::Memory), 0, Err(StormFault::Memory))?;
    assert_closed(&rt, alloc, Some(Lack::Thread), 0, Err(StormFault::Thread))
}
