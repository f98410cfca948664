//! The audit: decides whether a list of events is a history that may be.
//!
//! Vocabulary: a `Verdict` is what the audit says of a list of events. `Lawful` lists the open
//! nodes, the held and the waiting resources; `Unlawful` names the first event that may not follow
//! those before it; `Unsettled` says that all may, and that operators have something left to do.
//!
//! Promised: on any list of events the answer is the verdict of the definitions of `rx_event`, in
//! the words of `specs/Verdict.antt`. `TooMany` comes exactly where the list is longer than
//! `MOST_JUDGED`. `NoMemory` comes where memory was refused; that it comes only there is not proved.
//! Nothing is assumed of the list, and nothing is shared with whoever wrote it.
//!
//! How: the events are followed in order. Which nodes are open, and what became of resources, stands
//! in lists by number, each tied to its definition (`found`). A closing goes down from the node that
//! it takes away, along lists that lead from each node to its children (`children`, `closing`). An
//! item is followed by how often it reaches each node (`reach`), not visit by visit; roots, where it is
//! delivered and changes nothing, are counted and not visited.
//!
//! Each open node has its marks, which say what it remembers of what happened below it (`nodes`): an
//! event changes the marks of one node, an item those of the nodes that it reaches. Each hub has its
//! last connection and the last end of one (`hubs`), and lists lead over its open subscribers
//! (`subscribers`), once over all of them and once over those that are no roots. A list has each node that
//! has to end or to close (`duties`): an event adds to it the node whose marks it changes, the subscribers
//! that it cuts off, and the connection of the hub of each subscriber that it closes. By these it is decided
//! what operators owe (`forced`) and what callers may do (`allowed`): a caller's event is allowed where the
//! table of refusals has nothing but want of room against the call behind it (`rx_register`). `advance`
//! keeps all of them up to date.
//!
//! Cost: an event costs what it changes, however many events there are. A closing costs the nodes that
//! it closes and the children that these ever had, the end of a connection its open subscribers, the
//! opening of a subscriber the nodes above it, and an item one step for each node that it reaches, but for
//! roots, at each distance from its leaf, in all at most 1,048,577. So the whole is linear in the events, the
//! steps of items, the subscribers that are cut off and the heights at which subscribers are opened.
#![tactic(auto)]

mod advance;
mod allowed;
mod children;
mod climb;
mod closing;
mod duties;
mod event_tests;
mod forced;
mod found;
mod hubs;
mod marks;
mod nodes;
mod openness;
mod reach;
mod subscribers;
mod verdict;

pub use verdict::{MOST_JUDGED, NoVerdict, Verdict, audit, refused};
