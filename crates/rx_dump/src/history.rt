//! The history that a dump is. A dump is a JSON array of events, and each event an array: what it
//! is, then its parts.

ghost use Rattle.serde_json.specs.View.{view, items_view};
ghost use Rattle.rx_device.specs.Gives.{Gives};
ghost use Rattle.rx_dump.specs.History.{each_event, history_of};

mod events;
mod parts;

pub(crate) use events::event_of;
use rx_device::ShapeError;
use rx_event::Event;
use serde_json::Value;
use std::alloc::Global;

fn each_event(alloc: Global, values: &Vec<Value>) -> Result<Vec<Event>, ShapeError>
    ensures { Gives (λ v. v.items) result (each_event (items_view values.now.items)) }
{
    let mut history = Vec::new(alloc);
    for value in values {
        let Some(event) = events::event_of(value) else {
            return Err(ShapeError::Shape);
        };
        history.push(event)?;
    }
    Ok(history)
}

/// The history of which the value is a dump.
#[tactic(auto, unfolding(crate::specs::History::history_of))]
pub fn history_of(alloc: Global, value: &Value) -> Result<Vec<Event>, ShapeError>
    ensures { Gives (λ v. v.items) result (history_of (view value.now)) }
{
    match value.as_array() {
        Some(values) => each_event(alloc, values),
        None => Err(ShapeError::Shape),
    }
}
