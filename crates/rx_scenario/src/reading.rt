//! The scenario that a JSON value is.

mod commands;
mod labels;
mod members;
mod steps;

pub use commands::action_in;
pub use members::{is_name, is_object_of, kind_in, name_in, site_in};
pub use steps::scenario_of;
