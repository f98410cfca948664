//! The hubs of the pool are made.

ghost use Rattle.std.specs.Prelude.{◌≡◌, ◌<◌, length, slice_get, Some};
ghost use Rattle.rx_pool.specs.declared.search.PooledHub.{PooledHub};
ghost use Rattle.rx_pool.specs.Pool.{pool_size};
ghost use Rattle.rx_engine.specs.Hubs.{AddsHub, IsHubMade, mode_at, AreHubsMade};

use crate::engine::Engine;
use crate::parts::Parts;
use crate::settling::settle;
use rx_book::{Mode, Refusal, Resource};
use rx_pool::{BLOCK, MOST};
use rx_resource::Token;

// Sixteen of one mode, then sixteen of the other.
fn mode_at(place: usize) -> Mode
    ensures { result ≡ mode_at place }
{
    if place / BLOCK % 2 == 0 {
        Mode::Auto
    } else {
        Mode::Manual
    }
}

impl Parts {
    // Adds a hub of the book to the pool.
    fn add_hub(&mut self, number: u64, mode: Mode)
        requires room { 0 < self.old.shares.hub_room }
        requires few { length self.old.shares.hubs < pool_size }
        requires newest { (i : _) (hub : PooledHub) → slice_get self.old.shares.hubs i ≡ Some hub → hub.number < number }
        ensures adds { AddsHub self.old number mode self.new }
    {
        self.shares.add_hub(number, mode);
    }
}

impl Engine {
    // Makes one hub, which stands behind the others of the pool.
    fn make_hub(&mut self, mode: Mode, by: u64) -> Result<(), Refusal>
        requires { length self.old.parts.shares.hubs < pool_size }
        ensures { IsHubMade ⟦<Token as Resource>⟧ mode by self.old self.new result }
    {
        self.book.promise();
        let missing = MOST - self.parts.shares.hub_count();
        if self.parts.shares.reserve_hubs(missing).is_err() {
            return Err(Refusal::NoMemory);
        }
        match self.book.hub(mode) {
            Ok(number) => {
                self.parts.add_hub(number, mode);
                settle(&mut self.book, &mut self.parts, &mut self.wishes, by, 0);
                Ok(())
            }
            Err(why) => Err(why),
        }
    }

    // How many hubs the pool has.
    fn hub_count(&self) -> usize
        ensures { result ≡ length self.now.parts.shares.hubs }
    {
        self.parts.shares.hub_count()
    }

    /// Makes the hubs of the pool, where there are not all of them: each is a command of the book. Without them no
    /// share finds a hub. Refused `TooMany`, `Full` or `NoMemory`; those that were made stay, and the next call makes
    /// the rest.
    pub fn make_hubs(&mut self, by: u64) -> Result<(), Refusal>
        ensures { AreHubsMade ⟦<Token as Resource>⟧ by self.old self.new result }
    {
        while self.hub_count() < MOST {
            let mode = mode_at(self.hub_count());
            match self.make_hub(mode, by) {
                Ok(()) => {}
                Err(why) => return Err(why),
            }
        }
        Ok(())
    }
}
