ghost use Rattle.std.specs.Prelude.{◌≡◌, ◌↔◌, Ok, Err, IsOk, OnOk, OnErr};
ghost use Rattle.rx_disposable.specs.Back.{refusal};

use crate::{Back, Why};
use std::marker::Model;

/// A place that is given its one value once: System.Reactive's `SingleAssignmentDisposable`.
///
/// It differs in two ways. A second value is a refusal that hands it back, where System.Reactive
/// throws. A value that comes after disposal is handed back to be released by the caller, where
/// System.Reactive releases it at once.
#[derive(Drop)]
pub struct Single<T> {
    value: Option<T>,
    disposed: bool,
}

impl<T> Model for Single<T> {
    ghost use Rattle.std.specs.Prelude.{◌≡◌, None, true};
    ghost use Rattle.rx_disposable.specs.Holding.{Holding, holding_of};

    ghost Value = { Holding T };

    ghost view = { λ single. holding_of single.disposed single.value };

    ghost invariant = { λ single. single.disposed ≡ true → single.value ≡ None };
}

impl<T> Single<T> {
    ghost use Rattle.rx_disposable.specs.Holding.{empty, full, disposed, inside, IsFull};

    /// An empty place.
    pub fn new() -> Self
        ensures { result ≡ empty }
    {
        Single {
            value: None,
            disposed: false,
        }
    }

    /// Takes the value in, the first time.
    ///
    /// Refused, with the value handed back and nothing changed: `Disposed` after `dispose`, and
    /// `Already` where a value is inside.
    pub fn set(&mut self, value: T) -> Result<(), Back<T>>
        ensures accepted { IsOk result ↔ (self.old ≡ empty) }
        ensures ok { OnOk result (self.new ≡ full value) }

        ensures refused_disposed { (result ≡ Err (refusal Why.Disposed value)) ↔ (self.old ≡ disposed) }
        ensures refused_already { (result ≡ Err (refusal Why.Already value)) ↔ IsFull self.old }
        ensures err { OnErr result (self.new ≡ self.old) }
    {
        if self.disposed {
            return Back::refuse(Why::Disposed, value);
        }
        if self.value.is_some() {
            return Back::refuse(Why::Already, value);
        }
        match self.value.replace(value) {
            None => Ok(()),
            Some(_) => unreachable!(),
        }
    }

    /// Gives out the value that is inside, if there is one, and takes none from now on.
    ///
    /// A second call gives nothing.
    #[must_use]
    pub fn dispose(&mut self) -> Option<T>
        ensures value { result ≡ inside self.old }
        ensures disposed { self.new ≡ disposed }
    {
        self.disposed = true;
        self.value.take()
    }

    /// Ends the place and gives out the value that is inside, if there is one.
    ///
    /// It is how a place is let go whose values may not be dropped.
    #[must_use]
    pub fn into_inner(self) -> Option<T>
        ensures { result ≡ inside self }
    {
        let Single { value, disposed: _ } = self;
        value
    }
}
