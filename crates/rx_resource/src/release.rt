//! A resource that was handed back, and what is left of it after its release.

ghost use Rattle.std.specs.Prelude.{◌≡◌, ℕ};
ghost use Rattle.rx_resource.specs.declared.Life.{Life};
ghost use Rattle.rx_resource.specs.declared.Life.TheVariants.{Live};

use crate::Resource;
use std::marker::Model;

/// A live resource that was taken from the runtime, to be released once.
///
/// It is not `Drop`: a program that lets one go without `release` does not compile. It can move to
/// another thread. A contract sees it as the pair of its number and its resource.
pub struct Handed<R: Resource> {
    number: u64,
    resource: R,
}

impl<R: Resource> Model for Handed<R> {
    ghost Value = { ℕ × R };

    ghost view = { λ h. (h.number, h.resource) };

    ghost invariant = { λ h. R.life_of h.resource ≡ Live };
}

/// What is left of a resource after its release.
#[derive(Drop)]
pub struct Released<R> {
    /// The number that the runtime gave the resource when it accepted it.
    pub number: u64,
    /// The tag of the resource.
    pub tag: u64,
    /// The code of the fault that its release answered, or None where it answered `Ok`.
    pub fault: Option<u32>,
    /// The resource itself, released.
    pub spent: R,
}

impl<R: Resource> Handed<R> {
    /// Hands back a live resource that the runtime knows by this number, any `u64`. Takes no memory.
    pub fn new(number: u64, resource: R) -> Handed<R>
        requires live { R.life_of resource ≡ Life.Live }
        ensures { result ≡ (number, resource) }
    {
        Handed { number, resource }
    }

    /// The number that the runtime gave the resource when it accepted it.
    pub fn number(&self) -> u64
        ensures { result ≡ self.now.0 }
    {
        self.number
    }

    /// The tag of the resource, any `u64`.
    pub fn tag(&self) -> u64
        ensures { result ≡ R.tag_of self.now.1 }
    {
        self.resource.tag()
    }

    /// How often the resource was applied.
    pub fn uses(&self) -> u64
        ensures { result ≡ R.uses_of self.now.1 }
    {
        self.resource.uses()
    }

    /// Calls the resource's `release` once, and answers what is left of it.
    ///
    /// It has no refusal: a fault that the resource answers stands in `fault`, and the resource is
    /// released then too. Takes no memory beside what the resource's own `release` takes.
    pub fn release(self) -> Released<R>
        ensures was_live { R.life_of self.1 ≡ Life.Live }

        ensures number { result.number ≡ self.0 }
        ensures tag { result.tag ≡ R.tag_of self.1 }
        ensures spent_released { R.life_of result.spent ≡ Life.Released }
        ensures spent_tag { R.tag_of result.spent ≡ R.tag_of self.1 }
        ensures spent_uses { R.uses_of result.spent ≡ R.uses_of self.1 }
    {
        let Handed {
            number,
            resource: mut spent,
        } = self;
        let tag = spent.tag();
        let fault = spent.release().err();
        Released {
            number,
            tag,
            fault,
            spent,
        }
    }
}
