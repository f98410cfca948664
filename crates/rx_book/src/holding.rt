//! Holding, using, removing and taking resources.

ghost use Rattle.std.specs.Prelude.{◌≡◌};
ghost use Rattle.rx_book.specs.Requests.{is_fresh_in, hold_request, apply_request, remove_request};
ghost use Rattle.rx_book.specs.Answers.{AnswersPlace, AnswersWord, AnswersResKey, AnswersHanded};

use crate::Book;
use crate::admit::admit;
use crate::answer::{Answer, Refused};
use crate::call::Call;
use rx_event::Refusal;
use rx_ground::Wanted;
use rx_resource::{Handed, Life, Resource};
use rx_tree::{Key, ResKey};

/// Whether a resource was neither released nor used.
pub(crate) fn is_fresh<R: Resource>(resource: &R) -> bool
    ensures { result ≡ is_fresh_in R.Resource resource.now }
{
    resource.life() == Life::Live && resource.uses() == 0
}

impl<R: Resource> Book<R> {
    /// Holds a resource at a node, one more disposable of a composite; as Finally does where its release
    /// is the action. It waits for its release once the node is closed. Refused, in this order: `Gone`, `NotFresh` where the resource
    /// was released or used, `Full`, `NoMemory`. A refusal changes nothing and gives the resource
    /// back.
    pub fn hold(&mut self, node: Key, resource: R) -> Result<ResKey, Refused<R>>
        ensures { AnswersResKey self.old (hold_request R.Resource self.old node resource) resource self.new result }
    {
        let tag = resource.tag();
        let fresh = is_fresh(&resource);
        let cause = self.ground.holding_cause(node, tag, fresh);
        if let Err(why) = admit(&mut self.ground, cause, Some(Wanted::of_holding())) {
            return Err(Refused {
                why,
                back: resource,
            });
        }
        let res = self.ground.write_accept(node, resource);
        self.ground.settle();
        Ok(res)
    }

    /// Uses a held resource on a word, and answers its word. The resource's `apply` runs inside this
    /// call, and so inside whatever lock the owner of the book holds: it may not use the desk. Refused,
    /// in this order: `NotHeld` where the key is no held resource's, `Full`, `NoMemory`. A refusal
    /// changes nothing, and does not use the resource.
    pub fn apply(&mut self, res: ResKey, word: u64) -> Result<u64, Refusal>
        ensures { AnswersWord self.old (apply_request self.old res) self.new result }
    {
        let Answer::Word(told) = self.answer(Call::Apply(res, word))? else {
            unreachable!()
        };
        Ok(told)
    }

    /// Takes a resource away from its node, which goes on without it: it then waits for its release
    /// (Remove of a composite disposable); answers the place of its event. Refused `NotHeld` where the
    /// key is no held resource's. It takes no memory. A refusal changes nothing.
    pub fn remove(&mut self, res: ResKey) -> Result<u64, Refusal>
        ensures { AnswersPlace self.old (remove_request self.old res) self.new result }
    {
        self.answer_free(Call::Remove(res))
    }

    /// Hands out a resource that waits, for its release; which one is free. None exactly where
    /// nothing waits. It takes no memory.
    pub fn take(&mut self) -> Option<Handed<R>>
        ensures { AnswersHanded R.Resource self.old self.new result }
    {
        self.ground.promise();
        let handed = self.ground.write_take()?;
        self.ground.begin();
        self.ground.settle();
        self.ground.promise();
        Some(handed)
    }
}
