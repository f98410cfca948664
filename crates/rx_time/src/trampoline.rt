ghost use Rattle.std.specs.Prelude.{◌≡◌, [], ◌∷◌, ◌++◌, OnOk, OnErr, IfErr, IfSome, IfNone};

use rx_disposable::{Back, Why};
use std::alloc::Global;
use std::collections::VecDeque;
use std::marker::Model;

/// Work that runs after the work which scheduled it: System.Reactive's `CurrentThreadScheduler` and
/// RxJava's `Schedulers.trampoline`.
///
/// What is pushed while an item is being done comes out after it, first in, first out. Unlike those
/// two it runs nothing by itself, and it knows no due times: delayed work belongs in a
/// [`Timeline`](crate::Timeline).
///
/// A trampoline whose items are `Drop` may be dropped with its work; any other is emptied first, and
/// given to [`destroy_empty`](Trampoline::destroy_empty).
///
/// Contracts see a trampoline as the list of its items, the next one first.
#[derive(Drop)]
pub struct Trampoline<T> {
    queue: VecDeque<T>,
}

impl<T> Model for Trampoline<T> {
    ghost use Rattle.std.specs.Prelude.{List};

    ghost Value = { List T };

    ghost view = { λ t. t.queue.items };
}

impl<T> Trampoline<T> {
    /// A trampoline with no work. It allocates nothing.
    pub fn new(alloc: Global) -> Self
        ensures { result ≡ [] }
    {
        Trampoline {
            queue: VecDeque::new(alloc),
        }
    }

    /// Puts the item behind all others.
    ///
    /// The only refusal is `NoMemory`, where memory was needed and refused: the item comes back,
    /// and nothing has changed.
    pub fn push(&mut self, item: T) -> Result<(), Back<T>>
        ensures ok { OnOk result (self.new ≡ self.old ++ item ∷ []) }

        ensures refused_no_memory { IfErr result
            (λ back. back ≡ record { why = Why.NoMemory; value = item }) }
        ensures kept { OnErr result (self.new ≡ self.old) }
    {
        match self.queue.push_back(item) {
            Ok(()) => Ok(()),
            Err(failed) => Err(Back {
                why: Why::NoMemory,
                value: failed.value,
            }),
        }
    }

    /// Takes the first item out, or `None` where there is none. It takes no memory.
    pub fn next(&mut self) -> Option<T>
        ensures some { IfSome result (λ item. self.old ≡ item ∷ self.new) }
        ensures none { IfNone result ((self.old ≡ []) × (self.new ≡ [])) }
    {
        self.queue.pop_front()
    }

    /// Frees a trampoline with no work, where `T` need not be `Drop`.
    pub fn destroy_empty(self)
        requires { self ≡ [] }
    {
        let Trampoline { queue } = self;
        queue.destroy_empty();
    }
}
