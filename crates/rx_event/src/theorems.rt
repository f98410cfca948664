//! What the gate has proved of the definitions.

mod changes;
mod checkpoints;
mod climbs;
mod closing;
mod determined;
mod hubs;
mod marks;
mod nodes;
mod notes;
mod resources;
mod stays;

pub use changes::what_one_event_changes;
pub use checkpoints::checkpoints_change_nothing;
pub use climbs::climbs_go_on_in_order;
pub use closing::{closing_opens_nothing_anew, nothing_stays_open_by_itself};
pub use determined::{
    callers_see_no_numbers, numbers_do_not_matter, one_order_comes_to_an_end, steps_are_determined,
};
pub use hubs::{
    a_hub_connects_once, a_step_connects_one_hub, one_event_changes_few_connections,
    subscribers_may_be_gone_over_downward, the_last_connection_tells,
};
pub use marks::marks_say_what_is_due;
pub use nodes::{a_switch_has_one_open_inner, closed_stays_closed, nodes_stand_below_nodes};
pub use notes::notes_obey_the_grammar;
pub use resources::{
    a_closed_history_holds_nothing, a_leased_resource_is_held, each_resource_is_in_one_place,
};
pub use stays::{calm_events_force_little, what_is_opened_stays_open};
