//! The plain commands: each is one call of the book, and what comes of it.

ghost use Rattle.std.specs.Prelude.{◌≡◌, length, pos, slice_get, IfOk};
ghost use Rattle.rx_book.specs.Requests.{next_request, dispose_request, end_request, abort_request, fail_request, decline_request};
ghost use Rattle.rx_book.specs.Requests.{apply_request, remove_request, lease_request, give_back_request, hub_request, disconnect_request};
ghost use Rattle.rx_book.specs.Answers.{IsNewLeaseKey};
ghost use Rattle.rx_engine.specs.Commands.{IsFreeMade, IsCostlyMade};

use crate::emitting::emit;
use crate::engine::Engine;
use crate::settling::settle;
use rx_book::{Key, LeaseKey, Mode, Refusal, ResKey, Resource, Terminal};
use rx_resource::Token;

impl Engine {
    /// A leaf emits an item.
    pub fn next(&mut self, leaf: Key, by: u64, value: u64) -> Result<(), Refusal>
        ensures { IsCostlyMade ⟦<Token as Resource>⟧ (λ s. next_request s.book leaf (pos 0)) by value
            self.old self.new result }
    {
        self.book.promise();
        match emit(&mut self.book, &mut self.parts, leaf) {
            Ok(()) => {
                settle(&mut self.book, &mut self.parts, &mut self.wishes, by, value);
                Ok(())
            }
            Err(why) => Err(why),
        }
    }

    /// A leaf ends, with this value where it fails. It takes no memory.
    pub fn end(&mut self, leaf: Key, terminal: Terminal, by: u64, value: u64) -> Result<(), Refusal>
        ensures { IsFreeMade ⟦<Token as Resource>⟧ (λ s. end_request s.book leaf terminal) by value
            self.old self.new result }
    {
        self.book.promise();
        match self.book.end(leaf, terminal) {
            Ok(_) => {
                settle(&mut self.book, &mut self.parts, &mut self.wishes, by, value);
                Ok(())
            }
            Err(why) => Err(why),
        }
    }

    /// A projection failed, with this value for the failure. It takes no memory.
    pub fn fail(&mut self, merging: Key, code: u32, by: u64, value: u64) -> Result<(), Refusal>
        ensures { IsFreeMade ⟦<Token as Resource>⟧ (λ s. fail_request s.book merging code) by value
            self.old self.new result }
    {
        self.book.promise();
        match self.book.fail(merging, code) {
            Ok(_) => {
                settle(&mut self.book, &mut self.parts, &mut self.wishes, by, value);
                Ok(())
            }
            Err(why) => Err(why),
        }
    }

    /// A node is aborted, with this value for the failure. It takes no memory.
    pub fn abort(&mut self, node: Key, code: u32, by: u64, value: u64) -> Result<(), Refusal>
        ensures { IsFreeMade ⟦<Token as Resource>⟧ (λ s. abort_request s.book node code) by value
            self.old self.new result }
    {
        self.book.promise();
        match self.book.abort(node, code) {
            Ok(_) => {
                settle(&mut self.book, &mut self.parts, &mut self.wishes, by, value);
                Ok(())
            }
            Err(why) => Err(why),
        }
    }

    /// No inner is opened for an item that was projected. It takes no memory.
    pub fn decline(&mut self, merging: Key, by: u64) -> Result<(), Refusal>
        ensures { IsFreeMade ⟦<Token as Resource>⟧ (λ s. decline_request s.book merging) by 0
            self.old self.new result }
    {
        self.book.promise();
        match self.book.decline(merging) {
            Ok(_) => {
                settle(&mut self.book, &mut self.parts, &mut self.wishes, by, 0);
                Ok(())
            }
            Err(why) => Err(why),
        }
    }

    /// A root is unsubscribed. It takes no memory.
    pub fn dispose(&mut self, root: Key, by: u64) -> Result<(), Refusal>
        ensures { IsFreeMade ⟦<Token as Resource>⟧ (λ s. dispose_request s.book root) by 0
            self.old self.new result }
    {
        self.book.promise();
        match self.book.dispose(root) {
            Ok(_) => {
                settle(&mut self.book, &mut self.parts, &mut self.wishes, by, 0);
                Ok(())
            }
            Err(why) => Err(why),
        }
    }

    /// Counts a use of what is held. What it is used for is the face's own.
    pub fn apply(&mut self, res: ResKey, by: u64) -> Result<(), Refusal>
        ensures { IsCostlyMade ⟦<Token as Resource>⟧ (λ s. apply_request s.book res) by 0
            self.old self.new result }
    {
        self.book.promise();
        match self.book.apply(res, 0) {
            Ok(_word) => {
                settle(&mut self.book, &mut self.parts, &mut self.wishes, by, 0);
                Ok(())
            }
            Err(why) => Err(why),
        }
    }

    /// Takes a resource away from its node: it is released, unless it is leased. It takes no memory.
    pub fn remove(&mut self, res: ResKey, by: u64) -> Result<(), Refusal>
        ensures { IsFreeMade ⟦<Token as Resource>⟧ (λ s. remove_request s.book res) by 0
            self.old self.new result }
    {
        self.book.promise();
        match self.book.remove(res) {
            Ok(_) => {
                settle(&mut self.book, &mut self.parts, &mut self.wishes, by, 0);
                Ok(())
            }
            Err(why) => Err(why),
        }
    }

    /// Leases a resource: it is not released until the lease is given back.
    pub fn lease(&mut self, res: ResKey, by: u64) -> Result<LeaseKey, Refusal>
        ensures made { IsCostlyMade ⟦<Token as Resource>⟧ (λ s. lease_request s.book res) by 0
            self.old self.new result }
        ensures key { IfOk result (IsNewLeaseKey self.new.book (length self.old.book.history)) }
    {
        self.book.promise();
        match self.book.lease(res) {
            Ok(lease) => {
                settle(&mut self.book, &mut self.parts, &mut self.wishes, by, 0);
                Ok(lease)
            }
            Err(why) => Err(why),
        }
    }

    /// Gives a lease back. It takes no memory.
    pub fn give_back(&mut self, lease: LeaseKey, by: u64) -> Result<(), Refusal>
        ensures { IsFreeMade ⟦<Token as Resource>⟧ (λ s. give_back_request s.book lease) by 0
            self.old self.new result }
    {
        self.book.promise();
        match self.book.give_back(lease) {
            Ok(_) => {
                settle(&mut self.book, &mut self.parts, &mut self.wishes, by, 0);
                Ok(())
            }
            Err(why) => Err(why),
        }
    }

    /// Makes a hub, and answers its number. No node of this engine subscribes to it.
    pub fn hub(&mut self, mode: Mode, by: u64) -> Result<u64, Refusal>
        ensures made { IsCostlyMade ⟦<Token as Resource>⟧ (λ s. hub_request mode) by 0
            self.old self.new result }
        ensures number { IfOk result (λ n. n ≡ length self.old.book.history) }
    {
        self.book.promise();
        match self.book.hub(mode) {
            Ok(number) => {
                settle(&mut self.book, &mut self.parts, &mut self.wishes, by, 0);
                Ok(number)
            }
            Err(why) => Err(why),
        }
    }

    /// Disconnects a hub that was connected by hand. It takes no memory.
    pub fn disconnect(&mut self, hub: u64, by: u64) -> Result<(), Refusal>
        ensures { IsFreeMade ⟦<Token as Resource>⟧ (λ s. disconnect_request hub) by 0
            self.old self.new result }
    {
        self.book.promise();
        match self.book.disconnect(hub) {
            Ok(_) => {
                settle(&mut self.book, &mut self.parts, &mut self.wishes, by, 0);
                Ok(())
            }
            Err(why) => Err(why),
        }
    }

    /// How many nodes that wished to be told the last accepted command closed.
    pub fn closing_count(&self) -> usize
        ensures { result ≡ length self.now.wishes.closings }
    {
        self.wishes.closing_count()
    }

    /// The word of one of them.
    pub fn nth_closing(&self, n: usize) -> Option<u64>
        ensures { result ≡ slice_get self.now.wishes.closings n }
    {
        self.wishes.nth_closing(n)
    }
}
