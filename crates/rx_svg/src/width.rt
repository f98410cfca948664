//! How wide a picture is: as far as its places, its legend and its labels go.

ghost use Rattle.std.specs.Prelude.{◌≡◌, ◌≤◌, IfOk};
ghost use Rattle.serde_json.specs.View.{view};
ghost use Rattle.rx_dump.specs.Names.{name_in_object};
ghost use Rattle.rx_svg.specs.Track.{label_room, label_end, width};

use crate::labels::push_called;
use crate::tracks::x_of;
use rx_dump::Names;
use rx_event::Event;
use rx_picture::{Drawing, Row};
use std::alloc::AllocError;

/// The room of a label.
fn label_room(names: Names<'_>, n: u64, made: Event) -> Result<u64, AllocError>
    ensures value { IfOk result (λ room. room ≡ label_room n (name_in_object (view names.entry.object.now) n) made) }
    ensures few { IfOk result (λ room. room ≤ 15000) }
{
    match made {
        Event::Lease(_) => Ok(0),
        _ => {
            let mut label = String::new(names.alloc);
            push_called(&mut label, names, n, made)?;
            Ok(15 * label.len().min(2000) as u64 / 2)
        }
    }
}

/// Where the label of a row ends.
#[tactic(auto, unfolding(crate::specs::Track::label_end))]
fn label_end(names: Names<'_>, drawing: &Drawing, row: Row) -> Result<u64, AllocError>
    ensures value { IfOk result (λ x. x ≡ label_end drawing.now (name_in_object (view names.entry.object.now)) row) }
    ensures few { IfOk result (λ x. x ≤ 59020) }
{
    let room = label_room(names, row.number, row.made)?;
    Ok(x_of(drawing, row.number) + room)
}

/// How wide the picture of these rows is, of so many events.
pub fn width(names: Names<'_>, drawing: &Drawing, end: u64, rows: &[Row]) -> Result<u64, AllocError>
    ensures { IfOk result (λ x. x ≡ width drawing.now (name_in_object (view names.entry.object.now)) end rows.now) }
{
    let mut wide = (x_of(drawing, end) + 24).max(400);
    for row in rows {
        wide = wide.max(label_end(names, drawing, *row)?);
    }
    Ok(wide)
}
