//! The ground of a book of subscriptions: a register, a tree and hubs of one history, changed one event at a
//! time.
//!
//! The register keeps what happened, by numbers alone; the tree keeps which nodes are open, which
//! resources they hold, and which resources wait for their release; the hubs keep what was published. This
//! crate holds the three together: each event is written on all that it changes, and then what the
//! operators' rules force is written until nothing is due. A book decides which call is accepted, reserves room, writes the call's event here and settles.
//!
//! # Vocabulary
//!
//! - A contract sees a [`Ground`] as its register, its tree, its hubs, its leases, the keys of the nodes that
//!   were closed since its list of them was last begun, and for how many more nodes a closing has room
//!   (`specs/Shown`). `TakesNoMemory` says that each room fell by just what came, and rose by just what went
//!   (`specs/Memory`). The rest is in `specs/Ties`.
//! - A node `has_gone` where it was made and is open no more (`rx_event`). A list `Gathers` what goes from one history to a
//!   later one: it goes on with the keys of just those nodes, each once, in the order in which they went; `Closes` says
//!   this of a ground's list, and that an older node's key is the one that found it (`specs/Gone`).
//! - `IsTied` says that the tree is that of the history: a record, with the marks that the history gives,
//!   for just the nodes that are open, and each resource that was accepted and not taken, live and with
//!   its uses. `AreTied` says beside this that the hubs are those of the history, and that each key they
//!   keep is an open node's. `IsReady` says that an event may come next and that there is room for it and
//!   its notes.
//! - `IsStanding` says that beside this no rule is left undone, and that what closing everything needs is
//!   reserved.
//! - A [`Reach`] is what an item of a leaf wants, wherever it goes: how many events with what FlatMaps and
//!   Switches then owe, and how many notes. `IsReach` (`specs/Reached`) says of which item it is that. A [`Way`]
//!   has with it the one stop that the item makes, where it makes just one, as `MakesOnly` says.
//! - What an opening asks of the hub that its node subscribes to is a [`Found`], looked up once: whether it is missing,
//!   whether the opening connects it, and where it stands (`IsFound`, `specs/Told`).
//! - What stands first against a call is `first_at`, of a call by an open node's key, and `first_by_key` and
//!   `first_by_res_key` (`specs/FirstCause`), by the register's table of causes. So it is told for each call
//!   of a book; whether a subscriber stands in the order of hubs is told by a climb from its place.
//! - `IsBetween` says that register, tree, hubs and leases are of one history, in which something may still be due:
//!   what each write asks for and leaves. `Wrote` is what each write does, and a frame, as `ChangesResources`, says what
//!   it left as it was (`specs/Wrote`).
//! - `Writes` (of the register) says that just these events were added. `KeepsNodes` and `KeepsHeld`
//!   say that the keys of what is still there are as before; `KeepsOlder` says it of what is older than a
//!   forced connection may be.
//! - Leases are slots of resource keys, in which `find` looks up the key of a lease (`specs/Leases`):
//!   `lease_key` is a [`LeaseKey`] as a key of slots, `is_out_at` says that a lease is out under a key.
//!
//! # Promised, and not
//!
//! - Each write adds its own event and no other, leaves register, tree and hubs tied, and takes no memory:
//!   [`Ground::reserve`] gets the room before.
//! - [`Ground::settle`] adds only what the rules force (Observable Contract, and the operators' own
//!   rules), and after it nothing is due.
//! - Closing a node closes all below it; the resources that were held there then wait, and
//!   [`Ground::write_take`] hands each of them out as an `rx_resource::Handed`, which can only be released.
//! - Each write that closes nodes puts their keys on the list, in the order in which they leave the tree, and no
//!   other write changes it. [`Ground::begin`] begins it anew.
//! - What is closed leaves the hubs in the same step (`left_inside`): a subscriber is one no more, and of a
//!   connection that ended by itself its hub keeps how (Publish, RefCount).
//! - Not promised: that a call may be accepted. A caller shows `IsReady` of each event that it writes.
//! - A hub can be made, a subscriber of it opened and the hub connected (Publish and Connect, at
//!   reactivex.io), each in one step; what is then due at a hub is settled first.
//! - [`Ground::connection`] gives the key of a hub's open connection, and [`Ground::first_manual`] the first hub
//!   that a caller connects and that has one: so each can be disconnected.
#![tactic(auto)]

mod base;
mod checkpoint;
mod costs;
mod counts;
mod decide;
mod hubs;
mod leases;
mod leasing;
mod opening;
mod order;
mod route;
mod settle;
mod write;

pub use base::{Ground, Wanted};
pub use hubs::Found;
pub use leases::LeaseKey;
pub use route::{Reach, Way};
