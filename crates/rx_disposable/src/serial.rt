ghost use Rattle.std.specs.Prelude.{◌≡◌, ◌↔◌, Err, IsOk, IfOk, OnOk, OnErr};

use std::marker::Model;

/// A place for one value at a time, which gives out the previous one for the next: System.Reactive's
/// `SerialDisposable`.
///
/// It differs in that it releases nothing itself: the previous value, and a value that comes after
/// disposal, go to the caller.
#[derive(Drop)]
pub struct Serial<T> {
    value: Option<T>,
    disposed: bool,
}

impl<T> Model for Serial<T> {
    ghost use Rattle.std.specs.Prelude.{◌≡◌, None, true};
    ghost use Rattle.rx_disposable.specs.Holding.{Holding, holding_of};

    ghost Value = { Holding T };

    ghost view = { λ serial. holding_of serial.disposed serial.value };

    ghost invariant = { λ serial. serial.disposed ≡ true → serial.value ≡ None };
}

impl<T> Serial<T> {
    ghost use Rattle.rx_disposable.specs.Holding.{empty, full, disposed, inside, IsUsable};

    /// An empty place.
    pub fn new() -> Self
        ensures { result ≡ empty }
    {
        Serial {
            value: None,
            disposed: false,
        }
    }

    /// Takes the value in and gives out the previous one, if there was one.
    ///
    /// Refused after `dispose`: the value comes back as the error, and nothing changes.
    pub fn replace(&mut self, value: T) -> Result<Option<T>, T>
        ensures accepted { IsOk result ↔ IsUsable self.old }
        ensures ok { IfOk result (λ previous. previous ≡ inside self.old) }
        ensures filled { OnOk result (self.new ≡ full value) }

        ensures refused_disposed { (result ≡ Err value) ↔ (self.old ≡ disposed) }
        ensures err { OnErr result (self.new ≡ self.old) }
    {
        if self.disposed {
            return Err(value);
        }
        Ok(self.value.replace(value))
    }

    /// Gives out the value that is inside, if there is one, and takes none from now on.
    ///
    /// A second call gives nothing.
    #[must_use]
    pub fn dispose(&mut self) -> Option<T>
        ensures value { result ≡ inside self.old }
        ensures disposed { self.new ≡ disposed }
    {
        self.disposed = true;
        self.value.take()
    }

    /// Ends the place and gives out the value that is inside, if there is one.
    ///
    /// It is how a place is let go whose values may not be dropped.
    #[must_use]
    pub fn into_inner(self) -> Option<T>
        ensures { result ≡ inside self }
    {
        let Serial { value, disposed: _ } = self;
        value
    }
}
