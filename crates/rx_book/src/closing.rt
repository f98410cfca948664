//! Ending a book: all leases are given back, all that is open is unsubscribed or disconnected, and all
//! that waits is released.

ghost use Rattle.std.specs.Prelude.{◌≡◌, ◌+◌, ◌≤◌, ℕ, [], length, true, false};
ghost use Rattle.rx_event.specs.Events.{is_manual_hub};
ghost use Rattle.rx_event.specs.Tree.{at, open_connections};
ghost use Rattle.rx_event.specs.Resources.{is_out};
ghost use Rattle.rx_event.specs.Totals.{accepted_count, taken_count, held_count, waiting_count};
ghost use Rattle.rx_event.specs.Claims.Closing.{is_open_root};
ghost use Rattle.rx_book.specs.Drains.{Drains};
ghost use Rattle.rx_book.specs.Courses.{LetsGo};
ghost use Rattle.rx_book.specs.State.{Continues};

use crate::Book;
use rx_resource::Resource;

/// What a closing did.
#[derive(Clone, Copy, Debug, PartialEq, Eq)]
pub struct Closed {
    /// How many resources were released.
    pub released: u64,
    /// How many of those releases answered a fault, as far as a `u64` counts.
    pub faults: u64,
}

impl<R: Resource> Book<R> {
    /// Takes and releases all that waits, one resource after another. It takes no memory. The releases
    /// run inside this call, and so inside whatever lock the owner of the book holds.
    pub fn release_waiting(&mut self) -> Closed
        ensures drains { Drains self.old.base self.old.history self.new.history }
        ensures none_waits { self.new.waiting ≡ [] }
        ensures released { taken_count self.new.base self.new.history ≡ taken_count self.old.base self.old.history + result.released }
        ensures faults { result.faults ≤ result.released }
        ensures continues { Continues self.old self.new }
    {
        self.promise();
        let before = self.taken();
        let mut faults = 0u64;
        while let Some(handed) = self.take() {
            self.promise();
            let released = handed.release();
            if released.fault.is_some() {
                faults = faults.saturating_add(1);
            }
        }
        Closed {
            released: self.taken() - before,
            faults,
        }
    }

    /// Gives back all leases that are out. It takes no memory.
    fn return_leases(&mut self)
        ensures base { self.new.base ≡ self.old.base }
        ensures limit { self.new.limit ≡ self.old.limit }
        ensures given { self.new.given ≡ self.old.given }
        ensures none_out { (l : ℕ) → is_out self.new.history l ≡ false }
        ensures lets_go { LetsGo self.old self.new }
        ensures accepted { accepted_count self.new.base self.new.history ≡ accepted_count self.old.base self.old.history }
        ensures taken { taken_count self.new.base self.new.history ≡ taken_count self.old.base self.old.history }
    {
        self.promise();
        while let Some(lease) = self.open_lease() {
            match self.give_back(lease) {
                Ok(_) => self.promise(),
                Err(_) => unreachable!(),
            }
        }
    }

    /// Unsubscribes all open roots. It takes no memory.
    fn dispose_roots(&mut self)
        ensures base { self.new.base ≡ self.old.base }
        ensures limit { self.new.limit ≡ self.old.limit }
        ensures given { self.new.given ≡ self.old.given }
        ensures none_open { (n : ℕ) → is_open_root self.new.history n ≡ false }
        ensures lets_go { LetsGo self.old self.new }
        ensures out { (l : ℕ) → is_out self.new.history l ≡ true → is_out self.old.history l ≡ true }
        ensures accepted { accepted_count self.new.base self.new.history ≡ accepted_count self.old.base self.old.history }
        ensures taken { taken_count self.new.base self.new.history ≡ taken_count self.old.base self.old.history }
    {
        self.promise();
        while let Some(root) = self.open_root() {
            match self.dispose(root) {
                Ok(_) => self.promise(),
                Err(_) => unreachable!(),
            }
        }
    }

    /// Disconnects all hubs that were connected by hand. It takes no memory.
    fn disconnect_hubs(&mut self)
        ensures base { self.new.base ≡ self.old.base }
        ensures limit { self.new.limit ≡ self.old.limit }
        ensures given { self.new.given ≡ self.old.given }
        ensures disconnected { (g : ℕ) → at is_manual_hub self.new.history g ≡ true → open_connections self.new.history g ≡ [] }
        ensures lets_go { LetsGo self.old self.new }
        ensures roots { (n : ℕ) → is_open_root self.new.history n ≡ true → is_open_root self.old.history n ≡ true }
        ensures out { (l : ℕ) → is_out self.new.history l ≡ true → is_out self.old.history l ≡ true }
        ensures accepted { accepted_count self.new.base self.new.history ≡ accepted_count self.old.base self.old.history }
        ensures taken { taken_count self.new.base self.new.history ≡ taken_count self.old.base self.old.history }
    {
        self.promise();
        while let Some(hub) = self.open_manual() {
            match self.disconnect(hub) {
                Ok(_) => self.promise(),
                Err(_) => unreachable!(),
            }
        }
    }

    /// Gives back all leases, unsubscribes all open roots and disconnects all hubs that were connected by
    /// hand: nothing is open or held afterwards, no lease is out, and each resource that was held waits. It
    /// is as so many calls of [`Book::give_back`], [`Book::dispose`] and [`Book::disconnect`]. The limit
    /// stays, and the notes that were not handed out yet still are. It takes no memory.
    pub fn shut(&mut self)
        ensures none_open { self.new.keys ≡ [] }
        ensures none_held { self.new.held ≡ [] }
        ensures none_out { self.new.lease_keys ≡ [] }
        ensures lets_go { LetsGo self.old self.new }
        ensures base { self.new.base ≡ self.old.base }
        ensures limit { self.new.limit ≡ self.old.limit }
        ensures given { self.new.given ≡ self.old.given }
        ensures accepted { accepted_count self.new.base self.new.history ≡ accepted_count self.old.base self.old.history }
        ensures taken { taken_count self.new.base self.new.history ≡ taken_count self.old.base self.old.history }
        ensures waiting { length self.new.waiting ≡ length self.old.held + length self.old.waiting }
    {
        self.promise();
        self.return_leases();
        self.dispose_roots();
        self.disconnect_hubs();
        self.promise();
    }

    /// Gives back all leases, unsubscribes all open roots, disconnects all hubs that were connected by
    /// hand, and takes and releases all that waits then: nothing is open, held or waiting afterwards, and
    /// no lease is out. The limit stays, and the notes that were not handed out yet still are. It takes no
    /// memory.
    pub fn close(&mut self) -> Closed
        ensures none_open { self.new.keys ≡ [] }
        ensures none_held { self.new.held ≡ [] }
        ensures none_out { self.new.lease_keys ≡ [] }
        ensures none_waits { self.new.waiting ≡ [] }
        ensures base { self.new.base ≡ self.old.base }
        ensures limit { self.new.limit ≡ self.old.limit }
        ensures given { self.new.given ≡ self.old.given }
        ensures taken { taken_count self.new.base self.new.history ≡ taken_count self.old.base self.old.history + result.released }
        ensures accepted { accepted_count self.new.base self.new.history ≡ accepted_count self.old.base self.old.history }
        ensures released { result.released ≡ held_count self.old.history + waiting_count self.old.history }
        ensures faults { result.faults ≤ result.released }
    {
        self.promise();
        self.shut();
        self.promise();
        let closed = self.release_waiting();
        self.promise();
        closed
    }

    /// Ends the book: as [`Book::close`], and the book is gone, with the notes that were not handed out.
    /// Each resource that it held or that waited was released. It takes no memory.
    pub fn finish(self) -> Closed
        ensures released { result.released ≡ held_count self.history + waiting_count self.history }
        ensures faults { result.faults ≤ result.released }
    {
        let mut book = self;
        book.close()
    }
}
