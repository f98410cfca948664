//! The register: what happened in a book of subscriptions, by numbers alone.
//!
//! It keeps the history, counts items, acceptances and takings, writes one event at a time, and
//! hands out the notes that the events give. It knows no resource and reads no stored event: which
//! nodes are open, what is due and which notes an event gives its caller knows from records of its
//! own, and tells it.
//!
//! Vocabulary: a `Register` shows a `State`; [`Register::tell`] queues a note of the event that
//! comes next, [`Register::write`] writes that event, [`Register::take_mail`] hands the oldest note
//! out. `specs/Causes` of `rx_event` is the table of refusals: which causes stand against each call;
//! `call_behind` is the call of which a caller's event comes, and `refusal_of` the first cause that
//! stands against it, but for room (`specs/CallBehind`).
//!
//! # Promised, and not
//!
//! - At each moment the history is lawful and within its limit (`IsPromised`, which
//!   [`Register::promise`] states). Not promised: that no operator's rule is left undone, nor that
//!   closing everything fits; that is for whoever keeps one, by the laws in `proofs/Laws`.
//! - Writing takes no memory: room for events and notes is reserved before. No call goes over the
//!   history.
//! - The table and `IsAllowed` of `rx_event` say the same of every event, but for room
//!   ([`causes_decide_events`]). So who asks the table need not test an event by rules of its own.
#![tactic(auto)]

mod load;
mod register;
mod theorems;

pub use load::Load;
pub use register::Register;
pub use theorems::{calls_without_cause_follow, causes_decide_events, room_is_kept};
