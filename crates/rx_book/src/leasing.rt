//! Leases: a resource stays as long as a dependent uses it.

ghost use Rattle.rx_book.specs.Requests.{lease_request, give_back_request};
ghost use Rattle.rx_book.specs.Answers.{AnswersLeaseKey, AnswersPlace};

use crate::Book;
use crate::answer::Answer;
use crate::call::Call;
use rx_event::Refusal;
use rx_ground::LeaseKey;
use rx_resource::Resource;
use rx_tree::ResKey;

impl<R: Resource> Book<R> {
    /// Leases a resource to a dependent, and gives the lease's key: until it is given back the resource
    /// is held, also once its node is closed or it was removed from there (a dependent of
    /// System.Reactive's RefCountDisposable). Refused, in this order: `NotHeld` where the key is no held
    /// resource's, `Leased` where its node is closed or it was removed, so that leases alone hold it,
    /// `Full`, `NoMemory`. A refusal changes nothing.
    pub fn lease(&mut self, res: ResKey) -> Result<LeaseKey, Refusal>
        ensures { AnswersLeaseKey self.old (lease_request self.old res) self.new result }
    {
        let Answer::Leased(lease) = self.answer(Call::Lease(res))? else {
            unreachable!()
        };
        Ok(lease)
    }

    /// Gives a lease back; answers the place of its event. At the last one of a resource whose node is
    /// closed, or that was removed, the resource waits for its release. Refused `NoLease` where the key
    /// is of no lease that is out. It takes no memory. A refusal changes nothing.
    pub fn give_back(&mut self, lease: LeaseKey) -> Result<u64, Refusal>
        ensures { AnswersPlace self.old (give_back_request self.old lease) self.new result }
    {
        self.answer_free(Call::GiveBack(lease))
    }
}
