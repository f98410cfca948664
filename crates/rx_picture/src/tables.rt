//! What is known of a whole history, by number.

ghost use Rattle.std.specs.Prelude.{◌≡◌, ◌<◌, IfOk, length};
ghost use Rattle.rx_event.specs.Tree.{at};
ghost use Rattle.rx_picture.specs.Rows.{is_drawn, is_left_behind};
ghost use Rattle.rx_picture.specs.Choice.{AreMarksByTest};
ghost use Rattle.rx_picture.specs.Tables.{AreTables, AreTurns, AreLines, has_taken};

use crate::event_tests::at;
use crate::firsts::{filled, note, removed_at, returned_at, taken_at, value_at};
use crate::leaks::is_leak;
use crate::lines::line_ends;
use crate::shut::shuttings;
use rx_event::Event;
use std::alloc::{AllocError, Global};

/// By number: the place of the first such event, and the number of events where there is none.
pub struct Tables {
    /// Where the resource is removed.
    pub removed: Vec<usize>,
    /// Where the lease is returned.
    pub returned: Vec<usize>,
    /// Where the resource is handed out.
    pub taken: Vec<usize>,
    /// Where the node is closed.
    pub ends: Vec<usize>,
}

// Written out, so that where the tables are let go there is one call to prove, and not the drop of each in turn.
impl Drop for Tables {
    fn drop(self) {
        let Tables {
            removed: _removed,
            returned: _returned,
            taken: _taken,
            ends: _ends,
        } = self;
    }
}

/// The tables of the events.
pub fn tables_of(alloc: Global, events: &[Event]) -> Result<Tables, AllocError>
    ensures { IfOk result (λ t. AreTables events.now t) }
{
    let shut = shuttings(alloc, events)?;
    let ends = line_ends(alloc, events, &shut)?;
    let mut removed = filled(alloc, events.len(), events.len())?;
    let mut returned = filled(alloc, events.len(), events.len())?;
    let mut taken = filled(alloc, events.len(), events.len())?;
    for place in 0..events.len() {
        note(&mut removed, removed_at(events, place), place);
        note(&mut returned, returned_at(events, place), place);
        note(&mut taken, taken_at(events, place), place);
    }
    Ok(Tables {
        removed,
        returned,
        taken,
        ends,
    })
}

/// Whether the event makes something that is drawn.
fn is_drawn(event: Event) -> bool
    ensures { result ≡ is_drawn event }
{
    event.makes_node() || event.makes_hub() || event.makes_resource()
}

/// Whether the event at the place makes something that is drawn.
fn is_drawn_at(events: &[Event], n: usize) -> bool
    ensures { result ≡ at is_drawn events.now n }
{
    at(is_drawn, events, n as u64)
}

/// Whether number `n` is left: an open node, or a resource that was never handed out.
fn is_left_behind(events: &[Event], taken: &[usize], ends: &[usize], n: usize) -> bool
    requires taken { AreTurns events.now has_taken (length events.now) taken.now }
    requires ends { AreLines events.now (length events.now) ends.now }
    requires within { n < length events.now }
    ensures { result ≡ is_left_behind events.now n }
{
    if value_at(ends, n as u64) >= events.len() {
        return true;
    }
    is_leak(events, taken, n)
}

/// Marks what is left.
pub fn left_marks(alloc: Global, events: &[Event], tables: &Tables) -> Result<Vec<bool>, AllocError>
    requires { AreTables events.now tables.now }
    ensures { IfOk result (λ v. AreMarksByTest v.items (length events.now) (is_left_behind events.now)) }
{
    let mut marks = Vec::new(alloc);
    for n in 0..events.len() {
        let mark = is_left_behind(events, &tables.taken, &tables.ends, n);
        marks.push(mark)?;
    }
    Ok(marks)
}

/// Marks what is drawn: nodes, hubs and resources.
pub fn drawn_marks(alloc: Global, events: &[Event]) -> Result<Vec<bool>, AllocError>
    ensures { IfOk result (λ v. AreMarksByTest v.items (length events.now) (at is_drawn events.now)) }
{
    let mut marks = Vec::new(alloc);
    for n in 0..events.len() {
        let mark = is_drawn_at(events, n);
        marks.push(mark)?;
    }
    Ok(marks)
}
