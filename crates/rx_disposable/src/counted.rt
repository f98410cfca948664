ghost use Rattle.std.specs.Prelude.{◌≡◌, ◌↔◌, ◌+◌, ◌-◌, ◌<◌, Some, Err, true, false, IsOk, IsErr, IfOk, IfErr, OnOk, OnErr};
ghost use Rattle.std.specs.Option.{option_copied_mut};
ghost use Rattle.std.specs.Borrow.{sem};

use std::marker::Model;

/// How many leases can be out at once: 4,294,967,295.
pub const MAX_LEASES: u32 = u32::MAX;

/// Why no lease was given.
#[derive(Clone, Copy, Debug, PartialEq, Eq)]
pub enum Denied {
    /// The whole is disposed of.
    Disposed,
    /// `MAX_LEASES` leases are out.
    TooMany,
}

/// No lease is out, so none can be given back.
#[derive(Clone, Copy, Debug, PartialEq, Eq)]
pub struct NoLease;

/// A value that stays inside until the whole is disposed of and every lease is given back:
/// System.Reactive's `RefCountDisposable`.
///
/// It differs in three ways. A lease is a count and not an object, so the caller gives back each one
/// that it was given. After disposal no lease is given, where System.Reactive still gives out
/// dependents while others are out. The value goes to the caller to be released, by the call after
/// which the whole is disposed of and no lease is out.
#[derive(Drop)]
pub struct Counted<T> {
    value: Option<T>,
    leases: u32,
    disposed: bool,
}

impl<T> Model for Counted<T> {
    ghost use Rattle.rx_disposable.specs.Counted.{Counted as CountedValue, KeepsUntilOver};

    ghost Value = { CountedValue T };

    ghost view = { λ counted. record { value = counted.value; leases = counted.leases; disposed = counted.disposed } };

    ghost invariant = { λ counted.
        KeepsUntilOver (record { value = counted.value; leases = counted.leases; disposed = counted.disposed }) };
}

impl<T> Counted<T> {
    ghost use Rattle.rx_disposable.specs.Counted.{value_out, without_value_out, KeepsUntilOver};
    ghost use Rattle.rx_disposable.specs.Lends.{LendsValue};
    ghost use Rattle.rx_disposable.specs.declared.counted.Denied.{Denied};

    /// A place with this value inside and no lease out.
    pub fn new(value: T) -> Self
        ensures { result ≡ record { value = Some value; leases = 0; disposed = false } }
    {
        Counted {
            value: Some(value),
            leases: 0,
            disposed: false,
        }
    }

    /// Gives out one lease more.
    ///
    /// Refused, with nothing changed: `Disposed` after `dispose`, and then `TooMany` where
    /// `MAX_LEASES` leases are out.
    pub fn lease(&mut self) -> Result<(), Denied>
        ensures accepted { self.old.disposed ≡ false → self.old.leases < 4294967295 → IsOk result }
        ensures ok { OnOk result (self.new ≡ record self.old { leases = self.old.leases + 1 }) }

        ensures refused_disposed { (result ≡ Err Denied.Disposed) ↔ (self.old.disposed ≡ true) }
        ensures refused_too_many { (result ≡ Err Denied.TooMany)
            ↔ ((self.old.disposed ≡ false) × (self.old.leases ≡ 4294967295)) }
        ensures err { OnErr result (self.new ≡ self.old) }
    {
        if self.disposed {
            return Err(Denied::Disposed);
        }
        if self.leases == MAX_LEASES {
            return Err(Denied::TooMany);
        }
        self.leases += 1;
        Ok(())
    }

    /// Takes one lease back, and gives out the value where that was the last one and the whole is
    /// disposed of.
    ///
    /// Refused, with nothing changed, where no lease is out.
    pub fn give_back(&mut self) -> Result<Option<T>, NoLease>
        ensures accepted { IsOk result ↔ (0 < self.old.leases) }
        ensures ok { IfOk result (λ out. out ≡ value_out (record self.old { leases = self.old.leases - 1 })) }
        ensures rest { OnOk result (self.new ≡ without_value_out (record self.old { leases = self.old.leases - 1 })) }

        ensures refused_no_lease { IsErr result ↔ (self.old.leases ≡ 0) }
        ensures err { OnErr result (self.new ≡ self.old) }
    {
        if self.leases == 0 {
            return Err(NoLease);
        }
        self.leases -= 1;
        if self.leases == 0 && self.disposed {
            Ok(self.value.take())
        } else {
            Ok(None)
        }
    }

    /// The value, for writing; `None` where it came out.
    ///
    /// After disposal too it is lent, as long as a lease is out.
    pub fn get_mut(&mut self) -> Option<&mut T>
        ensures* writes_back { sem 𝓛 (LendsValue T.row self.entry result) }
        ensures value { option_copied_mut result ≡ self.old.value }
        ensures inside { KeepsUntilOver self.old }
    {
        if self.disposed && self.leases == 0 {
            return None;
        }
        self.value.as_mut()
    }

    /// Disposes of the whole, and gives out the value where no lease is out.
    ///
    /// A second call gives nothing.
    #[must_use]
    pub fn dispose(&mut self) -> Option<T>
        ensures value { result ≡ value_out (record self.old { disposed = true }) }
        ensures rest { self.new ≡ without_value_out (record self.old { disposed = true }) }
    {
        self.disposed = true;
        if self.leases > 0 {
            return None;
        }
        self.value.take()
    }

    /// Ends the place and gives out the value that is inside, if there is one.
    ///
    /// It is how a place is let go whose value may not be dropped. Refused while leases are out: the
    /// place comes back as it was.
    pub fn into_inner(self) -> Result<Option<T>, Self>
        ensures accepted { IsOk result ↔ (self.leases ≡ 0) }
        ensures ok { IfOk result (λ out. out ≡ self.value) }
        ensures err { IfErr result (λ same. same ≡ self) }
    {
        if self.leases != 0 {
            return Err(self);
        }
        let Counted {
            value,
            leases: _,
            disposed: _,
        } = self;
        Ok(value)
    }
}
