//! The resources that a scenario hands in, first to last.

ghost use Rattle.std.specs.Prelude.{◌≡◌, [], ◌∷◌, map, true, IfNone, IfSome};
ghost use Rattle.rx_script.specs.Stage.{ware_of};

use rx_resource::Resource;
use std::marker::Model;
use std::vec::IntoIter;

/// The resources that are left. One that a book refused can be put back in front.
#[derive(Drop)]
pub struct Stock<R: Resource> {
    returned: Option<R>,
    rest: IntoIter<R>,
}

impl<R: Resource> Model for Stock<R> {
    ghost use Rattle.std.specs.Prelude.{◌++◌, map, is_none};
    ghost use Rattle.std.specs.Option.{option_to_list};
    ghost use Rattle.std.specs.Vec.Iter.{into_iter_items};
    ghost use Rattle.rx_script.specs.Stage.{ware_of};
    ghost use Rattle.rx_script.specs.Shelf.{Shelf};

    ghost Value = { Shelf };

    ghost view = { λ s. record { wares = map (ware_of R.Resource) (option_to_list s.returned ++ into_iter_items s.rest); has_room = is_none s.returned } };
}

impl<R: Resource> Stock<R> {
    /// All of these, the first in front.
    pub fn new(resources: Vec<R>) -> Self
        ensures wares { result.wares ≡ map (ware_of R.Resource) resources.items }
        ensures room { result.has_room ≡ true }
    {
        Stock {
            returned: None,
            rest: resources.into_iter(),
        }
    }

    /// The resource in front, if there is one.
    pub fn take(&mut self) -> Option<R>
        ensures some { IfSome result (λ r. self.old.wares ≡ (ware_of R.Resource r) ∷ self.new.wares) }
        ensures none { IfNone result ((self.old.wares ≡ []) × (self.new.wares ≡ [])) }
        ensures room { self.new.has_room ≡ true }
    {
        match self.returned.take() {
            Some(resource) => Some(resource),
            None => self.rest.next(),
        }
    }

    /// Puts the resource that was taken last back in front.
    pub fn put_back(&mut self, resource: R)
        requires { self.old.has_room ≡ true }
        ensures { self.new.wares ≡ (ware_of R.Resource resource) ∷ self.old.wares }
    {
        self.returned = Some(resource);
    }
}
