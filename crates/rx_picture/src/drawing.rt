//! What is drawn of a history: rows, and where they stand.

ghost use Rattle.std.specs.Prelude.{◌≡◌, IfOk, true, length, replicate};
ghost use Rattle.rx_event.specs.Tree.{at};
ghost use Rattle.rx_picture.specs.Choice.{AreMarksByTest};
ghost use Rattle.rx_picture.specs.Rows.{is_drawn};
ghost use Rattle.rx_picture.specs.Drawn.{IsDrawing, leads_tracks, is_shown, is_placed};
ghost use Rattle.rx_picture.specs.Tables.{AreTables};

use crate::choice::{choose, count_marks};
use crate::columns::columns_of;
use crate::leaks::{leak_marks, leaks_of};
use crate::levels::levels_of;
use crate::marbles::marbles_of;
use crate::points::{Point, points_of};
use crate::row::Row;
use crate::rows::rows_of;
use crate::tables::{Tables, drawn_marks, left_marks, tables_of};
use crate::tracks::row_marks;
use rx_event::{Event, Mail};
use std::alloc::{AllocError, Global};

/// How many tracks are shown at most. First come resources that were never handed out, then open
/// nodes, then the others, each by rising number.
const MOST_LANES: usize = 200;

/// How many places are shown at most. Those at which a shown track begins come first, by rising
/// number, then the others.
const MOST_PLACES: usize = 2000;

/// What is drawn of a history.
#[derive(Drop)]
pub struct Drawing {
    /// The rows that are shown, by rising number.
    pub rows: Vec<Row>,
    /// How many tracks there would be without a limit.
    pub all: usize,
    /// The resources that were never handed out, by rising number, whether or not they are shown.
    pub leaks: Vec<u64>,
    /// What was told to whose track is shown, by events whose place is, in order.
    pub marbles: Vec<Mail>,
    /// The places that are shown, by rising number.
    pub points: Vec<Point>,
    /// By number: how many tracks are shown above its own.
    pub tracks: Vec<usize>,
    /// By place, and for the end of the history: how many places are shown before it.
    pub columns: Vec<usize>,
    /// By number of a node: how many nodes stand above it, and one.
    pub levels: Vec<usize>,
}

/// So many marks, all of them set.
fn all_marks(alloc: Global, size: usize) -> Result<Vec<bool>, AllocError>
    ensures { IfOk result (λ v. v.items ≡ replicate size true) }
{
    Ok(vec![in alloc; true; size]?)
}

/// Marks what comes first of the tracks: what is left, and of that first what leaks.
fn leading_marks(alloc: Global, events: &[Event], tables: &Tables) -> Result<Vec<bool>, AllocError>
    requires { AreTables events.now tables.now }
    ensures { IfOk result (λ v. AreMarksByTest v.items (length events.now) (leads_tracks events.now)) }
{
    let leaking = leak_marks(alloc, events, &tables.taken)?;
    let left = left_marks(alloc, events, tables)?;
    let chosen = choose(alloc, &leaking, &left, MOST_LANES)?;
    Ok(chosen)
}

/// Marks the tracks that are shown.
fn shown_marks(
    alloc: Global,
    events: &[Event],
    tables: &Tables,
    drawn: &[bool],
) -> Result<Vec<bool>, AllocError>
    requires tables { AreTables events.now tables.now }
    requires drawn { AreMarksByTest drawn.now (length events.now) (at is_drawn events.now) }
    ensures { IfOk result (λ v. AreMarksByTest v.items (length events.now) (is_shown events.now)) }
{
    let leading = leading_marks(alloc, events, tables)?;
    let chosen = choose(alloc, &leading, drawn, MOST_LANES)?;
    Ok(chosen)
}

/// Marks the places that are shown.
fn placed_marks(alloc: Global, events: &[Event], shown: &[bool]) -> Result<Vec<bool>, AllocError>
    requires { AreMarksByTest shown.now (length events.now) (is_shown events.now) }
    ensures { IfOk result (λ v. AreMarksByTest v.items (length events.now) (is_placed events.now)) }
{
    let every = all_marks(alloc, events.len())?;
    let chosen = choose(alloc, shown, &every, MOST_PLACES)?;
    Ok(chosen)
}

/// What is drawn of the events, which need not be lawful. The error comes where memory is refused.
pub fn draw(alloc: Global, events: &[Event]) -> Result<Drawing, AllocError>
    ensures { IfOk result (λ d. IsDrawing events.now d) }
{
    let tables = tables_of(alloc, events)?;
    let drawn = drawn_marks(alloc, events)?;
    let shown = shown_marks(alloc, events, &tables, &drawn)?;
    let placed = placed_marks(alloc, events, &shown)?;
    let rowed = row_marks(alloc, events, &shown)?;
    let rows = rows_of(alloc, events, &tables, &rowed)?;
    let marbles = marbles_of(alloc, events, &tables.ends, &shown, &placed)?;
    let points = points_of(alloc, events, &placed)?;
    let tracks = columns_of(alloc, &shown)?;
    let columns = columns_of(alloc, &placed)?;
    let levels = levels_of(alloc, events)?;
    let all = count_marks(&drawn);
    let leaks = leaks_of(alloc, events, &tables.taken)?;
    Ok(Drawing {
        rows,
        all,
        leaks,
        marbles,
        points,
        tracks,
        columns,
        levels,
    })
}
