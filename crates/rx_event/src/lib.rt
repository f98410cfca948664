//! Events of subscriptions, the histories that they make, and what a history means.
//!
//! Vocabulary: an `Event` is one accepted change, a `History` a list of them with a limit, and a
//! `Base` what a checkpoint keeps of the events before it. The definitions in `specs/` say which
//! nodes a history leaves open, which resources it leaves held or waiting and which leases it
//! leaves out, what observers were told, what operators still have to do, what a node has to remember
//! for that, and which histories are lawful. `Mail` is a note as it is handed out. `Refusal` names each
//! cause for which a call changes nothing.
//!
//! Promised: a history is the list of the events that were pushed, and has room for as many as
//! were reserved. An event, a place and a kind answer what the definitions say of them. The laws
//! over the definitions are contracts of public functions without a body. Not promised: that a
//! history is lawful; that is for whoever keeps one.
#![tactic(auto)]

mod base;
mod event;
mod history;
mod limits;
mod mail;
mod refusal;
mod stored;
mod theorems;

pub use base::{Base, BaseCounts, BaseHub, BaseLease, BaseNode, BaseResource, BaseState};
pub use event::{Event, Kind, Mode, Place};
pub use history::History;
pub use limits::{MOST_HUBS, MOST_NODES, MOST_VISITS};
pub use mail::Mail;
pub use refusal::Refusal;
pub use rx_note::Terminal;
pub use theorems::{
    a_closed_history_holds_nothing, a_hub_connects_once, a_leased_resource_is_held,
    a_step_connects_one_hub, a_switch_has_one_open_inner, callers_see_no_numbers,
    calm_events_force_little, checkpoints_change_nothing, climbs_go_on_in_order,
    closed_stays_closed, closing_opens_nothing_anew, each_resource_is_in_one_place,
    marks_say_what_is_due, nodes_stand_below_nodes, notes_obey_the_grammar,
    nothing_stays_open_by_itself, numbers_do_not_matter, one_event_changes_few_connections,
    one_order_comes_to_an_end, steps_are_determined, subscribers_may_be_gone_over_downward,
    the_last_connection_tells, what_is_opened_stays_open, what_one_event_changes,
};
