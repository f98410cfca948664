//! What a command asks is made: each by the engine's call of that name.

ghost use Rattle.std.specs.Prelude.{◌≡◌, ◌≢◌, true, false, Err};
ghost use Rattle.rx_event.specs.declared.refusal.Refusal.TheVariants.{NoHub};
ghost use Rattle.rx_cellar.specs.Makings.{shown, nothing_made, of_nothing, of_held, of_lease, of_subscribed, of_connected};
ghost use Rattle.rx_cellar.specs.Frequent.{is_rest};
ghost use Rattle.rx_cellar.specs.Makings.{IsSubscribed, IsConnected, WithHubs, IsPerformed};

use crate::asked::Asked;
use crate::shapes::{NumberedKey, no_node, node_of};
use rx_book::{At, LeaseKey, Refusal, ResKey, Resource, Terminal};
use rx_engine::{Connected, Engine, Subscribed, User};
use rx_pool::Share;
use rx_resource::Token;

/// What a command made, as it crosses.
#[derive(Clone, Copy)]
pub struct Made {
    /// The node that was opened.
    pub node: NumberedKey,
    /// The connection, the resource or the lease.
    pub other: NumberedKey,
    /// 1 where a connection was opened with the node, else 0.
    pub is_connected: u64,
    /// Of a share: the place of its hub.
    pub hub: u64,
}

/// Nothing was opened.
pub(crate) fn nothing_made() -> Made
    ensures { result ≡ nothing_made }
{
    Made {
        node: no_node(),
        other: no_node(),
        is_connected: 0,
        hub: 0,
    }
}

// What was done, and made nothing.
fn plain(answer: Result<(), Refusal>) -> Result<Made, Refusal>
    ensures { result ≡ shown of_nothing answer }
{
    match answer {
        Ok(()) => Ok(nothing_made()),
        Err(why) => Err(why),
    }
}

// A resource is held.
fn held(answer: Result<ResKey, Refusal>) -> Result<Made, Refusal>
    ensures { result ≡ shown of_held answer }
{
    match answer {
        Ok(res) => Ok(Made {
            other: NumberedKey {
                slot: res.slot,
                number: res.number,
            },
            ..nothing_made()
        }),
        Err(why) => Err(why),
    }
}

// A resource was leased.
fn leased(answer: Result<LeaseKey, Refusal>) -> Result<Made, Refusal>
    ensures { result ≡ shown of_lease answer }
{
    match answer {
        Ok(lease) => Ok(Made {
            other: NumberedKey {
                slot: lease.slot,
                number: lease.number,
            },
            ..nothing_made()
        }),
        Err(why) => Err(why),
    }
}

// What a share's subscriber made.
fn of_subscribed(made: Subscribed) -> Made
    ensures { result ≡ of_subscribed made }
{
    let alone = Made {
        node: node_of(made.key),
        hub: made.place as u64,
        ..nothing_made()
    };
    match made.connection {
        Some(connection) => Made {
            other: node_of(connection),
            is_connected: 1,
            ..alone
        },
        None => alone,
    }
}

// A share was subscribed to.
fn subscribed(answer: Result<Subscribed, Refusal>) -> Result<Made, Refusal>
    ensures { result ≡ shown of_subscribed answer }
{
    match answer {
        Ok(made) => Ok(of_subscribed(made)),
        Err(why) => Err(why),
    }
}

// A share was connected.
fn connected(answer: Result<Connected, Refusal>) -> Result<Made, Refusal>
    ensures { result ≡ shown of_connected answer }
{
    match answer {
        Ok(made) => Ok(Made {
            other: node_of(made.key),
            hub: made.place as u64,
            ..nothing_made()
        }),
        Err(why) => Err(why),
    }
}

// Whether a share found no hub.
fn wants_hubs(answer: Result<Made, Refusal>) -> bool
    ensures none { result ≡ true → answer ≡ Err NoHub }
    ensures some { result ≡ false → answer ≢ Err NoHub }
{
    match answer {
        Err(Refusal::NoHub) => true,
        _ => false,
    }
}

fn subscribe_once(
    engine: &mut Engine,
    at: At,
    share: Share,
    hint: u64,
    user: User,
    by: u64,
) -> Result<Made, Refusal>
    ensures { IsSubscribed ⟦<Token as Resource>⟧ at share user by engine.old engine.new result }
{
    subscribed(engine.subscribe(at, share, hint as usize, user, by))
}

// Where a share finds no hub, the hubs are made first.
fn subscribe(
    engine: &mut Engine,
    at: At,
    share: Share,
    hint: u64,
    user: User,
    by: u64,
) -> Result<Made, Refusal>
    ensures { WithHubs ⟦<Token as Resource>⟧ by (IsSubscribed ⟦<Token as Resource>⟧ at share user by) engine.old engine.new result }
{
    let first = subscribe_once(engine, at, share, hint, user, by);
    if !wants_hubs(first) {
        return first;
    }
    engine.promise();
    match engine.make_hubs(by) {
        Ok(()) => {
            engine.promise();
            subscribe_once(engine, at, share, hint, user, by)
        }
        Err(why) => Err(why),
    }
}

fn connect_once(
    engine: &mut Engine,
    share: Share,
    hint: u64,
    user: User,
    by: u64,
) -> Result<Made, Refusal>
    ensures { IsConnected ⟦<Token as Resource>⟧ share user by engine.old engine.new result }
{
    connected(engine.connect(share, hint as usize, user, by))
}

fn connect(
    engine: &mut Engine,
    share: Share,
    hint: u64,
    user: User,
    by: u64,
) -> Result<Made, Refusal>
    ensures { WithHubs ⟦<Token as Resource>⟧ by (IsConnected ⟦<Token as Resource>⟧ share user by) engine.old engine.new result }
{
    let first = connect_once(engine, share, hint, user, by);
    if !wants_hubs(first) {
        return first;
    }
    engine.promise();
    match engine.make_hubs(by) {
        Ok(()) => {
            engine.promise();
            connect_once(engine, share, hint, user, by)
        }
        Err(why) => Err(why),
    }
}

/// Makes what is asked, if it opens no node but as a subscriber: else it is made in a function of its own, so that the
/// engine's call has one caller.
#[inline(always)]
pub(crate) fn perform(engine: &mut Engine, asked: Asked, by: u64) -> Result<Made, Refusal>
    requires { is_rest asked ≡ true }
    ensures { IsPerformed ⟦<Token as Resource>⟧ asked by engine.old engine.new result }
{
    match asked {
        Asked::Open(_, _, _) => unreachable!(),
        Asked::Subscribe(at, share, hint, user) => subscribe(engine, at, share, hint, user, by),
        Asked::Using(_, _, _) => unreachable!(),
        Asked::Hold(node, tag) => held(engine.hold(node, tag, by)),
        Asked::Next(leaf, value, _hands) => plain(engine.next(leaf, by, value)),
        Asked::Complete(leaf) => plain(engine.end(leaf, Terminal::Completed, by, 0)),
        Asked::Error(leaf, value) => plain(engine.end(leaf, Terminal::Error(0), by, value)),
        Asked::Fail(merging, value) => plain(engine.fail(merging, 0, by, value)),
        Asked::Decline(merging) => plain(engine.decline(merging, by)),
        Asked::Dispose(root) => plain(engine.dispose(root, by)),
        Asked::Connect(share, hint, user) => connect(engine, share, hint, user, by),
        Asked::Disconnect(word, hint) => plain(engine.disconnect_share(word, hint as usize, by)),
        Asked::Put(to, user, value) => plain(engine.put(to, user, value, by)),
        Asked::Shut => plain(engine.close_next(by)),
        Asked::Abort(node, value) => plain(engine.abort(node, 0, by, value)),
        Asked::Apply(res) => plain(engine.apply(res, by)),
        Asked::Remove(res) => plain(engine.remove(res, by)),
        Asked::Lease(res) => leased(engine.lease(res, by)),
        Asked::GiveBack(lease) => plain(engine.give_back(lease, by)),
    }
}
