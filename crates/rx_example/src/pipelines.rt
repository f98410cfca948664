//! What the program does with its book: a pipeline for each thing that a book does.

use crate::file::File;
use crate::stopped::Stopped;
use rx_book::{At, Book, Kind, Mode, Terminal};

/// Runs the pipelines, one after the other.
pub fn run(rt: &impl Print, book: &mut Book<File>) -> Result<(), Stopped> {
    watch(rt, book)?;
    share(rt, book)?;
    merge(rt, book)?;
    latest(rt, book)?;
    until(rt, book)?;
    lend(rt, book)?;
    go_on(rt, book)
}

/// Subscribes with a file, passes one item and the end on, tells the observer and releases the file; then
/// subscribes with another file and forgets it.
fn watch(rt: &impl Print, book: &mut Book<File>) -> Result<(), Stopped> {
    let prices = book.open_using(At::Root, File::open(7))?;
    let ticks = book.open(At::Source(prices.key), Kind::Leaf)?;
    book.next(ticks.key, 101)?;
    book.end(ticks.key, Terminal::Completed)?;
    tell(rt, book)?;
    book.open_using(At::Root, File::open(8))?;
    Ok(())
}

/// Has two observers share one source, which is connected with the first of them and disconnected with the
/// last (Publish, RefCount): then its file comes back.
fn share(rt: &impl Print, book: &mut Book<File>) -> Result<(), Stopped> {
    let feed = book.hub(Mode::Auto)?;
    let first = book.open(At::Root, Kind::Sub(feed))?;
    let second = book.open(At::Root, Kind::Sub(feed))?;
    if let Some(connection) = first.connected {
        let line = book.open_using(At::Source(connection), File::open(9))?;
        let ticks = book.open(At::Source(line.key), Kind::Leaf)?;
        book.next(ticks.key, 102)?;
    }
    book.dispose(first.key)?;
    book.dispose(second.key)?;
    tell(rt, book)
}

/// Opens a file for the first name that comes and declines the second: what the file gives goes on to the
/// observer, which receives the end once all of it has ended (FlatMap).
fn merge(rt: &impl Print, book: &mut Book<File>) -> Result<(), Stopped> {
    let merged = book.open(At::Root, Kind::Flat)?.key;
    let names = book.open(At::Source(merged), Kind::Leaf)?.key;
    book.next(names, 10)?;
    book.next(names, 11)?;
    tell(rt, book)?;
    let file = book.open_using(At::Inner(merged), File::open(10))?;
    let lines = book.open(At::Source(file.key), Kind::Leaf)?.key;
    book.decline(merged)?;
    book.next(lines, 103)?;
    book.end(names, Terminal::Completed)?;
    book.end(lines, Terminal::Completed)?;
    tell(rt, book)
}

/// Opens a file for each name that comes, and keeps the latest alone: the file before it comes back (Switch).
fn latest(rt: &impl Print, book: &mut Book<File>) -> Result<(), Stopped> {
    let switch = book.open(At::Root, Kind::Switch)?.key;
    let names = book.open(At::Source(switch), Kind::Leaf)?.key;
    book.next(names, 12)?;
    book.open_using(At::Inner(switch), File::open(12))?;
    book.next(names, 13)?;
    let file = book.open_using(At::Inner(switch), File::open(13))?;
    let lines = book.open(At::Source(file.key), Kind::Leaf)?.key;
    book.next(lines, 104)?;
    tell(rt, book)?;
    book.dispose(switch)?;
    tell(rt, book)
}

/// Passes a file's lines on until a signal comes, which ends the subscription (TakeUntil): then the file
/// comes back.
fn until(rt: &impl Print, book: &mut Book<File>) -> Result<(), Stopped> {
    let watched = book.open(At::Root, Kind::Until)?.key;
    let file = book.open_using(At::Source(watched), File::open(14))?;
    let lines = book.open(At::Source(file.key), Kind::Leaf)?.key;
    let signal = book.open(At::Notifier(watched), Kind::Leaf)?.key;
    book.next(lines, 105)?;
    book.next(signal, 1)?;
    tell(rt, book)
}

/// Lends a subscription's connection to a request that outlives it: the connection stays until the request
/// gives its lease back (a dependent of RefCountDisposable).
fn lend(rt: &impl Print, book: &mut Book<File>) -> Result<(), Stopped> {
    let page = book.open_using(At::Root, File::open(15))?;
    let request = book.lease(page.res)?;
    book.dispose(page.key)?;
    tell(rt, book)?;
    let answer = book.apply(page.res, 3)?;
    println!(rt;
        "file 15 answers {answer}, with {} lease out",
        book.leases()
    )?;
    book.give_back(request)?;
    tell(rt, book)
}

/// Makes a checkpoint, which gives the memory of the events back and lets a run that never ends go on.
fn go_on(rt: &impl Print, book: &mut Book<File>) -> Result<(), Stopped> {
    tell(rt, book)?;
    match book.checkpoint() {
        Ok(at) => println!(rt; "the book goes on after {at} events")?,
        Err(why) => println!(rt; "the book goes on with its events: {why}")?,
    }
    Ok(())
}

/// Tells the observers what there is for them, and releases the files that wait.
fn tell(rt: &impl Print, book: &mut Book<File>) -> Result<(), Stopped> {
    while let Some(mail) = book.take_mail() {
        println!(rt; "observer {} receives {:?}", mail.to, mail.note)?;
    }
    while let Some(handed) = book.take() {
        println!(rt; "file {} is released", handed.release().tag)?;
    }
    Ok(())
}
