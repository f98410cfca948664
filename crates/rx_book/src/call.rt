//! A call as a value: what stands against it, what it costs, and what it writes.

ghost use Rattle.std.specs.Prelude.{◌≡◌, true, false};
ghost use Rattle.rx_event.specs.Calls.{Aborting, Failing};
ghost use Rattle.rx_event.specs.Refusals.{first_cause};
ghost use Rattle.rx_ground.specs.Costs.{cost_of};
ghost use Rattle.rx_ground.specs.FirstCause.{first_at};
ghost use Rattle.rx_ground.specs.Ties.{IsStanding};
ghost use Rattle.rx_book.specs.State.{State};
ghost use Rattle.rx_book.specs.Requests.{stands};
ghost use Rattle.rx_book.specs.Shown.{state_of};
ghost use Rattle.rx_book.specs.Answers.{Answers, IsPlace};
ghost use Rattle.rx_book.specs.Asks.{request_of, takes_memory, has_fixed_cost, refuses, gives, Asks};
ghost use Rattle.rx_book.specs.Steps.{IsLetIn, IsAdmitted, IsWritten};

use crate::Book;
use crate::admit::admit;
use crate::answer::{Answer, At};
use rx_event::{Kind, Mode, Refusal, Terminal};
use rx_ground::{Ground, LeaseKey, Wanted};
use rx_resource::Resource;
use rx_tree::{Key, ResKey};

/// What a call asks for that brings no resource: each is the method of its name, whose refusals it has.
#[derive(Clone, Copy, Debug)]
pub enum Call {
    /// A node is opened there ([`Book::open`]).
    Open(At, Kind),
    /// A leaf emits an item ([`Book::next`]).
    Next(Key, i64),
    /// A leaf ends ([`Book::end`]).
    End(Key, Terminal),
    /// A node that is no leaf ends with an error ([`Book::abort`]).
    Abort(Key, u32),
    /// An item gets no inner that was projected to this FlatMap or Switch ([`Book::decline`]).
    Decline(Key),
    /// A FlatMap or a Switch ends with an error ([`Book::fail`]).
    Fail(Key, u32),
    /// A root is unsubscribed ([`Book::dispose`]).
    Dispose(Key),
    /// A held resource is used on a word ([`Book::apply`]).
    Apply(ResKey, u64),
    /// A resource is taken away from its node ([`Book::remove`]).
    Remove(ResKey),
    /// A resource is leased ([`Book::lease`]).
    Lease(ResKey),
    /// A lease is given back ([`Book::give_back`]).
    GiveBack(LeaseKey),
    /// A hub is made ([`Book::hub`]).
    Hub(Mode),
    /// A hub is connected ([`Book::connect`]).
    Connect(u64),
    /// A hub is disconnected ([`Book::disconnect`]).
    Disconnect(u64),
}

// What stands first against an abort, and against failing at an item. Both are seldom asked: apart, so that all other
// calls that take no memory stay so small that they are inlined.
#[cold]
#[inline(never)]
fn aborting_cause<R: Resource>(ground: &Ground<R>, node: Key, code: u32) -> Option<Refusal>
    requires standing { IsStanding R.Resource ground.now }
    ensures { result ≡ first_at ground.now node (Aborting node.number code) }
{
    ground.aborting_cause(node, code)
}

#[cold]
#[inline(never)]
fn failing_cause<R: Resource>(ground: &Ground<R>, merging: Key, code: u32) -> Option<Refusal>
    requires standing { IsStanding R.Resource ground.now }
    ensures { result ≡ first_at ground.now merging (Failing merging.number code) }
{
    ground.failing_cause(merging, code)
}

/// What stands first against a call that takes no memory.
#[inline(always)]
fn cause_free<R: Resource>(ground: &Ground<R>, call: Call) -> Option<Refusal>
    requires free { takes_memory call ≡ false }
    requires standing { IsStanding R.Resource ground.now }
    ensures { result ≡
        first_cause (stands (state_of R.Resource ground.now) (request_of (state_of R.Resource ground.now) call)) }
{
    match call {
        Call::End(leaf, terminal) => ground.ending_cause(leaf, terminal),
        Call::Abort(node, code) => aborting_cause(ground, node, code),
        Call::Decline(merging) => ground.declining_cause(merging),
        Call::Fail(merging, code) => failing_cause(ground, merging, code),
        Call::Dispose(root) => ground.disposing_cause(root),
        Call::Remove(res) => ground.removing_cause(res),
        Call::GiveBack(lease) => ground.returning_cause(lease),
        Call::Disconnect(hub) => ground.disconnecting_cause(hub),
        _ => unreachable!(),
    }
}

/// Writes what is asked by a call that takes no memory, and against which nothing stands.
#[inline(always)]
fn write_free<R: Resource>(ground: &mut Ground<R>, call: Call)
    requires free { takes_memory call ≡ false }
    requires standing { IsStanding R.Resource ground.old }
    requires let_in { IsLetIn R.Resource ground.old (request_of (state_of R.Resource ground.old) call) }
    ensures { IsWritten R.Resource ground.old (request_of (state_of R.Resource ground.old) call).call ground.new }
{
    match call {
        Call::End(leaf, terminal) => ground.write_end(leaf, terminal),
        Call::Abort(node, code) => ground.write_end(node, Terminal::Error(code)),
        Call::Decline(merging) => ground.write_decline(merging),
        Call::Fail(merging, code) => ground.write_end(merging, Terminal::Error(code)),
        Call::Dispose(root) => ground.write_close(root),
        Call::Disconnect(hub) => match ground.connection(hub) {
            Some(connection) => ground.write_close(connection),
            None => unreachable!(),
        },
        Call::Remove(res) => ground.write_remove(res),
        Call::GiveBack(lease) => ground.write_return(lease),
        _ => unreachable!(),
    }
}

/// What stands first against a call of fixed cost.
#[inline(always)]
fn cause<R: Resource>(ground: &Ground<R>, call: Call) -> Option<Refusal>
    requires fixed { has_fixed_cost call ≡ true }
    requires standing { IsStanding R.Resource ground.now }
    ensures { result ≡
        first_cause (stands (state_of R.Resource ground.now) (request_of (state_of R.Resource ground.now) call)) }
{
    match call {
        Call::Apply(res, _) => ground.applying_cause(res),
        Call::Lease(res) => ground.leasing_cause(res),
        Call::Hub(mode) => ground.publishing_cause(mode),
        Call::Connect(hub) => ground.connecting_cause(hub),
        _ => unreachable!(),
    }
}

/// What it costs.
#[inline(always)]
fn cost(call: Call) -> Wanted
    requires { has_fixed_cost call ≡ true }
    ensures { (s : State) → result ≡ cost_of s.history (request_of s call).call }
{
    match call {
        Call::Apply(_, _) => Wanted::of_applying(),
        Call::Lease(_) => Wanted::of_leasing(),
        Call::Hub(_) => Wanted::of_hub(),
        Call::Connect(_) => Wanted::of_connecting(),
        _ => unreachable!(),
    }
}

/// Writes what it asks, where nothing stands against it and there is room for it, and answers it.
#[inline(always)]
fn write<R: Resource>(ground: &mut Ground<R>, call: Call) -> Answer
    requires fixed { has_fixed_cost call ≡ true }
    requires standing { IsStanding R.Resource ground.old }
    requires admitted { IsAdmitted R.Resource ground.old (request_of (state_of R.Resource ground.old) call) }
    ensures written { IsWritten R.Resource ground.old
        (request_of (state_of R.Resource ground.old) call).call ground.new }
    ensures gives { gives (state_of R.Resource ground.old) call (state_of R.Resource ground.new) result }
{
    match call {
        Call::Apply(res, word) => Answer::Word(ground.write_use(res, word)),
        Call::Lease(res) => { Answer::Leased(ground.write_lease(res)) }
        Call::Hub(mode) => Answer::Place(ground.write_hub(mode)),
        Call::Connect(hub) => Answer::Connected(ground.write_connect(hub)),
        _ => unreachable!(),
    }
}

impl<R: Resource> Book<R> {
    /// Makes a call, as the method of its name does.
    pub fn ask(&mut self, call: Call) -> Result<Answer, Refusal>
        ensures { Asks self.old call self.new result }
    {
        match call {
            Call::Open(at, kind) => Ok(Answer::Opened(self.open(at, kind)?)),
            Call::Next(leaf, value) => Ok(Answer::Place(self.next(leaf, value)?)),
            Call::Apply(_, _) | Call::Lease(_) | Call::Hub(_) | Call::Connect(_) => {
                self.answer(call)
            }
            _ => Ok(Answer::Place(self.answer_free(call)?)),
        }
    }

    /// Makes a call that takes no memory, and does what it forces; answers the place of its event.
    #[inline(always)]
    pub(crate) fn answer_free(&mut self, call: Call) -> Result<u64, Refusal>
        requires { takes_memory call ≡ false }
        ensures { Answers (IsPlace self.old) (refuses self.old call) self.old
            (request_of self.old call) self.new result }
    {
        let cause = cause_free(&self.ground, call);
        let place = admit(&mut self.ground, cause, None)?;
        write_free(&mut self.ground, call);
        self.ground.settle();
        Ok(place)
    }

    /// Makes a call of fixed cost, and does what it forces.
    #[inline(always)]
    pub(crate) fn answer(&mut self, call: Call) -> Result<Answer, Refusal>
        requires { has_fixed_cost call ≡ true }
        ensures { Asks self.old call self.new result }
    {
        let cause = cause(&self.ground, call);
        admit(&mut self.ground, cause, Some(cost(call)))?;
        let answer = write(&mut self.ground, call);
        self.ground.settle();
        Ok(answer)
    }
}
