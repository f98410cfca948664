//! Checkpoints: what the history leaves in place of its events, and which names are forgotten with them.

ghost use Rattle.std.specs.Prelude.{◌≡◌, ℕ, None, Some, true, is_some, option_and_then, IfOk, OnErr};
ghost use Rattle.rx_line.specs.declared.outcome.Cause.{Cause};
ghost use Rattle.rx_line.specs.declared.outcome.Outcome.TheVariants.{Refused};
ghost use Rattle.std.specs.Bool.{nat_eq};
ghost use Rattle.std.specs.List.{list_any};
ghost use Rattle.rx_scenario.specs.Scenario.{Name};
ghost use Rattle.rx_line.specs.Names.{spot_of, name_of_number, IsPaired};
ghost use Rattle.rx_live.specs.Session.{session_of, open_node_in, IsSound};
ghost use Rattle.rx_live.specs.Given.{AreOpenSame};
ghost use Rattle.rx_live.specs.Renewals.{AreOpen, Renewing};

use crate::calls::answered;
use crate::engine::Engine;
use crate::listing::past_of;
use rx_book::{Book, Key, Refusal};
use rx_line::{Cause, Names, Outcome, Spot};
use rx_resource::Token;
use std::alloc::AllocError;

// Where what has this number lies, if it has a name.
fn spot_at(nodes: &Names, number: u64) -> Option<Spot>
    ensures { result ≡ option_and_then (spot_of nodes.now) (name_of_number nodes.now number) }
{
    let name = nodes.name_of(number)?;
    nodes.get(name)
}

// Forgets the name of this number, where that is a closed node's.
fn forget_closed(book: &Book<Token>, nodes: &mut Names, number: u64)
    requires { IsPaired nodes.old }
    ensures same { AreOpenSame None book.now nodes.old nodes.new }
    ensures paired { IsPaired nodes.new }
    ensures left { (name : Name) → name_of_number nodes.new number ≡ Some name
        → is_some (open_node_in book.now nodes.new name) ≡ true }
{
    let Some(spot) = spot_at(nodes, number) else {
        return;
    };
    let key = Key {
        slot: spot.slot,
        number: spot.number,
    };
    if book.is_open(key) {
        return;
    }
    let _name = nodes.forget(number);
}

// Forgets the names of all closed nodes, of which these are the numbers, and those of others.
fn forget_all_closed(book: &Book<Token>, nodes: &mut Names, numbers: Vec<u64>)
    requires paired { IsPaired nodes.old }
    requires numbers { (k : ℕ) → is_some (name_of_number nodes.old k) ≡ list_any (nat_eq k) numbers.items }
    ensures same { AreOpenSame None book.now nodes.old nodes.new }
    ensures paired { IsPaired nodes.new }
    ensures open_alone { AreOpen book.now nodes.new }
{
    let mut numbers = numbers;
    'numbers: while let Some(number) = numbers.pop() {
        forget_closed(book, nodes, number);
    }
}

/// Makes a checkpoint, and forgets the names of closed nodes. Refused while something is still to be told, and
/// past the last place for one. Err where memory is refused, and then nothing has changed.
pub fn renew(engine: &mut Engine) -> Result<Outcome, AllocError>
    requires { IsSound (session_of engine.old) }
    ensures ok { IfOk result (λ o. Renewing (session_of engine.old) o (session_of engine.new)) }
    ensures err { OnErr result (session_of engine.new ≡ session_of engine.old) }
    ensures past_err { OnErr result (engine.new.past ≡ engine.old.past) }
    ensures past_refused { IfOk result (λ o. (why : Cause) → o ≡ Refused why → engine.new.past ≡ engine.old.past) }
    ensures sound { IsSound (session_of engine.new) }
{
    if engine.untold.is_some() {
        return Ok(Outcome::Refused(Cause::Book(Refusal::MailLeft)));
    }
    let past = past_of(engine)?;
    let numbers = engine.nodes.numbers(engine.alloc)?;
    match engine.book.checkpoint() {
        Ok(_place) => {
            engine.book.promise();
            engine.past = past;
            forget_all_closed(&engine.book, &mut engine.nodes, numbers);
            Ok(Outcome::Accepted)
        }
        Err(why) => answered::<u64>(Err(why)),
    }
}
