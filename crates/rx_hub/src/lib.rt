//! The rules of the operators and of hubs: where an item goes over a tree and its hubs, and what is due.
//! A hub is a published observable with its open connection and its open subscribers (Publish, Connect,
//! RefCount).
//!
//! # Vocabulary
//!
//! A contract sees a tree as rx_tree says. The `way` of an item (`specs/Way.antt`) is the nodes that
//! it visits from one on, up to where it stops (`stop_of`): at a root, at a FlatMap or Switch that
//! projects it, at a TakeUntil that it fires, or at a connection, from which it goes on in other
//! trees. `due_of` (`specs/Operators.antt`) is what the marks of a record give, and `IsChained` says
//! that nothing is due off the chain. `AreRecordsOf` (`specs/TreeRecords.antt`) says that the records of
//! a tree are those of a history.
//!
//! A contract sees hubs as a list of records by rising number (`specs/Hubs.antt`): number, mode, the
//! key of the connection, how the last connection ended that ended by itself, and the keys of the
//! subscribers by rising number. Beside it stand two numbers: `room`, how many hubs more take no
//! memory, and `slots`, below which a subscriber's slot takes none. `find_hub` looks a hub up,
//! `at_hub` says that one hub changes by a function and the others stay, and `IsPromised` what holds
//! of all hubs. `after_closing` (`specs/Closing.antt`) is a hub once closed nodes left it. `IsDueIn` and
//! `IsQuiet` (`specs/Due.antt`) say what the hubs have to do, and that it is nothing. A `Route`
//! (`specs/Route.antt`) stands on an item's way over a tree and its hubs: `stops_left` are the stops
//! that are still to come, and `all_visits` counts the visits of the whole way. `hubs_after`
//! (`specs/After.antt`) is what one more event of a history leaves of its hubs.
//!
//! # What is promised
//!
//! `climb` answers the stop and the visits of the way, and from a connection the hub behind it.
//! `next_due` gives a node at whose record something is due, with its key, and leaves the records as
//! they are; it gives nothing only where nothing is due. The laws say of every history whose records
//! these are that the way is the climb of the history, and that what is due is forced in it.
//!
//! Of hubs each call says which hub it changes and how. Only `reserve`, `reserve_slots` and, for a checkpoint,
//! `base_hubs` ask for memory, and what they refuse changes nothing. A hub is found by its number in
//! steps that grow with the logarithm of the hubs, and by its index among them in one; no call takes
//! longer where a hub has many subscribers. `next_forced` gives what is due at some hub, a Connect before
//! anything else, and nothing only where nothing is due.
//! `Route::next` gives the stops of an item one by one, and takes no memory once there is room for a
//! frame of each hub.
//!
//! # What is not
//!
//! That keys find nodes: they are the caller's, of a tree that is kept beside the hubs.
#![tactic(auto)]

mod checkpoint;
mod climbing;
mod closing;
mod forcing;
mod hub;
mod hubs;
mod operators;
mod route;
mod stop;
mod store;
mod theorems;

pub use climbing::climb;
pub use hub::{HubDue, LastEnd, Published};
pub use hubs::Hubs;
pub use operators::{Due, next_due};
pub use route::Route;
pub use stop::{Reached, Stop};
pub use theorems::{
    due_is_forced, hubs_are_forced, hubs_are_in_order, hubs_follow_events, walks_are_climbs,
    ways_are_climbs,
};
