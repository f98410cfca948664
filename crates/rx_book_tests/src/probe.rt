//! A book as the tests see it: its calls with answers that can be compared. They have no contract, as
//! a test compares values when it runs.

use rx_book::{At, Book, Closed, Key, LeaseKey, Mail, Opened, OpenedUsing, Refused, ResKey};
use rx_event::{Kind, Mode, Refusal, Terminal};
use rx_resource::{Life, Resource};
use std::alloc::Global;

// Its drop is written out, so that where one is let go there is one call to prove and not the drop of each
// field of a book in turn.
pub(super) struct Probe<R: Resource> {
    pub(super) book: Book<R>,
}

impl<R: Resource> Drop for Probe<R> {
    fn drop(self) {
        let Probe { book: _book } = self;
    }
}

// The numbers that a book answers.
#[derive(Clone, Copy, Debug, PartialEq, Eq)]
pub(super) struct Totals {
    pub len: u64,
    pub items: u64,
    pub accepted: u64,
    pub held: u64,
    pub waiting: u64,
    pub taken: u64,
}

// A resource that was handed out and then released.
#[derive(Clone, Copy, PartialEq, Eq)]
pub(super) struct Given {
    pub number: u64,
    pub tag: u64,
    pub uses: u64,
    pub fault: Option<u32>,
    pub life: Life,
}

// A resource that came back with the cause.
#[derive(Clone, Copy, Debug, PartialEq, Eq)]
pub(super) struct Back {
    pub why: Refusal,
    pub tag: u64,
    pub uses: u64,
    pub life: Life,
}

impl<R: Resource> Probe<R> {
    pub(super) fn new(alloc: Global, max_events: u32) -> Self {
        Probe {
            book: Book::new(alloc, u64::from(max_events)),
        }
    }

    pub(super) fn open(&mut self, at: At, kind: Kind) -> Result<Opened, Refusal> {
        self.book.open(at, kind)
    }

    pub(super) fn open_using(&mut self, at: At, resource: R) -> Result<OpenedUsing, Back> {
        match self.book.open_using(at, resource) {
            Ok(opened) => Ok(opened),
            Err(refused) => Err(back_of(refused)),
        }
    }

    pub(super) fn hold(&mut self, node: Key, resource: R) -> Result<ResKey, Back> {
        match self.book.hold(node, resource) {
            Ok(key) => Ok(key),
            Err(refused) => Err(back_of(refused)),
        }
    }

    pub(super) fn apply(&mut self, res: ResKey, word: u64) -> Result<u64, Refusal> {
        self.book.apply(res, word)
    }

    pub(super) fn remove(&mut self, res: ResKey) -> Result<u64, Refusal> {
        self.book.remove(res)
    }

    pub(super) fn lease(&mut self, res: ResKey) -> Result<LeaseKey, Refusal> {
        self.book.lease(res)
    }

    pub(super) fn give_back(&mut self, lease: LeaseKey) -> Result<u64, Refusal> {
        self.book.give_back(lease)
    }

    pub(super) fn next(&mut self, leaf: Key, value: i64) -> Result<u64, Refusal> {
        self.book.next(leaf, value)
    }

    pub(super) fn end(&mut self, leaf: Key, terminal: Terminal) -> Result<u64, Refusal> {
        self.book.end(leaf, terminal)
    }

    pub(super) fn abort(&mut self, node: Key, code: u32) -> Result<u64, Refusal> {
        self.book.abort(node, code)
    }

    pub(super) fn decline(&mut self, merging: Key) -> Result<u64, Refusal> {
        self.book.decline(merging)
    }

    pub(super) fn fail(&mut self, merging: Key, code: u32) -> Result<u64, Refusal> {
        self.book.fail(merging, code)
    }

    pub(super) fn hub(&mut self, mode: Mode) -> Result<u64, Refusal> {
        self.book.hub(mode)
    }

    pub(super) fn connect(&mut self, hub: u64) -> Result<Key, Refusal> {
        self.book.connect(hub)
    }

    pub(super) fn disconnect(&mut self, hub: u64) -> Result<u64, Refusal> {
        self.book.disconnect(hub)
    }

    pub(super) fn dispose(&mut self, root: Key) -> Result<u64, Refusal> {
        self.book.dispose(root)
    }

    pub(super) fn checkpoint(&mut self) -> Result<u64, Refusal> {
        self.book.checkpoint()
    }

    pub(super) fn close(&mut self) -> Closed {
        self.book.close()
    }

    pub(super) fn release_waiting(&mut self) -> Closed {
        self.book.release_waiting()
    }

    pub(super) fn finish(self) -> Closed {
        let Probe { book } = self;
        book.finish()
    }

    // Takes a resource and releases it.
    pub(super) fn take(&mut self) -> Option<Given> {
        match self.book.take() {
            Some(handed) => {
                let uses = handed.uses();
                let released = handed.release();
                Some(Given {
                    number: released.number,
                    tag: released.tag,
                    uses,
                    fault: released.fault,
                    life: released.spent.life(),
                })
            }
            None => None,
        }
    }

    pub(super) fn totals(&self) -> Totals {
        Totals {
            len: self.book.len(),
            items: self.book.items(),
            accepted: self.book.accepted(),
            held: self.book.held(),
            waiting: self.book.waiting(),
            taken: self.book.taken(),
        }
    }

    pub(super) fn take_mail(&mut self) -> Option<Mail> {
        self.book.take_mail()
    }

    pub(super) fn open_root(&self) -> Option<Key> {
        self.book.open_root()
    }

    pub(super) fn open_count(&self) -> u64 {
        self.book.open_count()
    }
}

fn back_of<R: Resource>(refused: Refused<R>) -> Back {
    Back {
        why: refused.why,
        tag: refused.back.tag(),
        uses: refused.back.uses(),
        life: refused.back.life(),
    }
}

// The numbers of events and of items, and of the resources that were accepted, are held, wait and
// were taken.
pub(super) fn counts(len: u64, items: u64, [accepted, held, waiting, taken]: [u64; 4]) -> Totals {
    Totals {
        len,
        items,
        accepted,
        held,
        waiting,
        taken,
    }
}

// What is given where a resource was used so often and its release met no fault.
pub(super) fn used(number: u64, tag: u64, uses: u64) -> Given {
    Given {
        number,
        tag,
        uses,
        fault: None,
        life: Life::Released,
    }
}

// What comes back where the resource is as it was made.
pub(super) fn untouched(why: Refusal, tag: u64) -> Back {
    Back {
        why,
        tag,
        uses: 0,
        life: Life::Live,
    }
}
