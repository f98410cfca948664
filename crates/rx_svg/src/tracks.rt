//! What stands in the tracks of a picture, each written behind a text.

ghost use Rattle.std.specs.Prelude.{◌≡◌, ◌++◌, ◌≤◌, string_bytes, OnOk, slice_index_or};
ghost use Rattle.rx_picture.specs.Rows.{track_of};
ghost use Rattle.rx_picture.specs.Leaks.{is_leaking};
ghost use Rattle.serde_json.specs.View.{view};
ghost use Rattle.rx_dump.specs.Names.{name_in_object};
ghost use Rattle.rx_svg.specs.Track.{x_of, y_of, is_counted, has_track, has_column, is_root_point, is_root_of, label_class, label_element, ending_text};
ghost use Rattle.rx_svg.specs.Track.{life_text, stretch_text, held_class, wait_class, owned_text, loan_text, wait_text, release_text};
ghost use Rattle.rx_svg.specs.Track.{shape_text, row_head, row_text, in_track_text, emitted_text, done_text, tick_text, note_marble};

use crate::labels::push_called;
use crate::pieces::put;
use crate::strokes::{
    push_above, push_arrow, push_bar, push_code, push_grid, push_line, push_marble, push_mark,
};
use rx_dump::Names;
use rx_event::{Event, Mail, Place, Terminal};
use rx_picture::{Drawing, Ending, Point, Row, Shape};
use std::alloc::AllocError;

/// The value at this place of the list, and 0 past its end.
pub fn value_at(table: &[usize], n: u64) -> usize
    ensures { result ≡ slice_index_or table.now n 0 }
{
    let n = n as usize;
    if n < table.len() { table[n] } else { 0 }
}

/// Where the place stands, from the left.
pub fn x_of(drawing: &Drawing, place: u64) -> u64
    ensures value { result ≡ x_of drawing.now place }
    ensures few { result ≤ 44020 }
{
    20 + 22 * value_at(&drawing.columns, place).min(2000) as u64
}

/// Where the track of the number stands, from the top.
pub fn y_of(drawing: &Drawing, n: u64) -> u64
    ensures { result ≡ y_of drawing.now n }
{
    54 + 44 * value_at(&drawing.tracks, n).min(200) as u64
}

/// Whether the list, which says of each number how many stand before it, counts this one.
fn is_counted(columns: &[usize], n: u64) -> bool
    ensures { result ≡ is_counted columns.now n }
{
    n < columns.len() as u64 && value_at(columns, n) < value_at(columns, n + 1)
}

/// Whether the number has a track that is shown.
fn has_track(drawing: &Drawing, n: u64) -> bool
    ensures { result ≡ has_track drawing.now n }
{
    is_counted(&drawing.tracks, n)
}

/// Whether the place is shown.
fn has_column(drawing: &Drawing, n: u64) -> bool
    ensures { result ≡ has_column drawing.now n }
{
    is_counted(&drawing.columns, n)
}

/// Whether a root is opened there.
fn is_root_point(point: Point) -> bool
    ensures { result ≡ is_root_point point }
{
    match point.event {
        Event::Open {
            place: Place::Root,
            ..
        } => true,
        _ => false,
    }
}

/// Whether the number is that of a root whose place is shown.
fn is_root_of(drawing: &Drawing, n: u64) -> bool
    ensures { result ≡ is_root_of drawing.now n }
{
    let points = drawing.points.as_slice();
    match points.get(value_at(&drawing.columns, n)).copied() {
        Some(point) => is_root_point(point),
        None => false,
    }
}

/// The class of a label.
fn label_class(unreleased: bool) -> &'static str
    ensures { result.now ≡ label_class unreleased }
{
    if unreleased {
        "label unreleased"
    } else {
        "label"
    }
}

/// What a track shows.
#[tactic(auto, unfolding(crate::specs::Track::label_element, crate::specs::Track::label_front, crate::specs::Parts::text_of))]
fn push_label(
    text: &mut String,
    class: &'static str,
    names: Names<'_>,
    x: u64,
    y: u64,
    n: u64,
    made: Event,
) -> Result<(), AllocError>
    ensures { OnOk result (string_bytes text.new ≡ string_bytes text.old
        ++ label_element class.now x y n (name_in_object (view names.entry.object.now) n) made) }
{
    put!(text; "<text class=\"" class "\" x=\"" [x] "\" y=\"" [y] "\" dx=\"-11\" dy=\"-22\">")?;
    push_called(text, names, n, made)?;
    text.push_str("</text>\n")
}

/// How a node ends, where that is by an event.
fn push_ending(text: &mut String, x: u64, y: u64, at: u64, ending: Ending) -> Result<(), AllocError>
    ensures { OnOk result (string_bytes text.new ≡ string_bytes text.old ++ ending_text x y at ending) }
{
    match ending {
        Ending::Lasting => Ok(()),
        Ending::Ended(Terminal::Completed) => {
            push_mark(text, "mark", "m0 -8v16", "completed", x, y, at)
        }
        Ending::Ended(Terminal::Error(code)) => {
            let cross = "m-6 -6l12 12m0 -12l-12 12";
            push_mark(text, "mark", cross, "ended with an error", x, y, at)?;
            push_code(text, x, y, u64::from(code))
        }
        Ending::Disposed => {
            let strokes = "m-5 8l6 -16m4 0l-6 16";
            push_mark(text, "mark", strokes, "closed", x, y, at)
        }
    }
}

/// The line of a node that was open, and how it ends.
fn push_life(
    text: &mut String,
    drawing: &Drawing,
    y: u64,
    n: u64,
    until: u64,
    end: u64,
    ending: Ending,
) -> Result<(), AllocError>
    ensures { OnOk result (string_bytes text.new ≡ string_bytes text.old
        ++ life_text drawing.now y n until end ending) }
{
    if n >= until {
        return Ok(());
    }
    let from = x_of(drawing, n);
    let to = x_of(drawing, until);
    push_line(text, "life", "open", from, to, y, n, until, end)?;
    push_ending(text, to, y, until, ending)
}

/// A stretch of a bar, if it is one.
fn push_stretch(
    text: &mut String,
    drawing: &Drawing,
    class: &'static str,
    title: &'static str,
    above: &'static str,
    height: &'static str,
    y: u64,
    after: u64,
    until: u64,
    end: u64,
) -> Result<(), AllocError>
    ensures { OnOk result (string_bytes text.new ≡ string_bytes text.old
        ++ stretch_text drawing.now
        (record { class = class.now; title = title.now; above = above.now; height = height.now })
        y after until end) }
{
    if after >= until {
        return Ok(());
    }
    let from = x_of(drawing, after);
    let to = x_of(drawing, until);
    push_bar(
        text, class, title, above, height, from, to, y, after, until, end,
    )
}

/// The class of a full bar.
fn held_class(unreleased: bool) -> &'static str
    ensures { result.now ≡ held_class unreleased }
{
    if unreleased {
        "held unreleased"
    } else {
        "held"
    }
}

/// The class of a hollow bar.
fn wait_class(unreleased: bool) -> &'static str
    ensures { result.now ≡ wait_class unreleased }
{
    if unreleased {
        "waiting unreleased"
    } else {
        "waiting"
    }
}

/// The bar of a resource while its node owns it.
fn push_owned(
    text: &mut String,
    drawing: &Drawing,
    unreleased: bool,
    y: u64,
    after: u64,
    until: u64,
    end: u64,
) -> Result<(), AllocError>
    ensures { OnOk result (string_bytes text.new ≡ string_bytes text.old
        ++ owned_text drawing.now unreleased y after until end) }
{
    let class = held_class(unreleased);
    let title = "held by its node";
    push_stretch(text, drawing, class, title, "5", "10", y, after, until, end)
}

/// The bar of a resource while a lease of it is out.
fn push_loan(
    text: &mut String,
    drawing: &Drawing,
    unreleased: bool,
    y: u64,
    after: u64,
    until: u64,
    end: u64,
) -> Result<(), AllocError>
    ensures { OnOk result (string_bytes text.new ≡ string_bytes text.old
        ++ loan_text drawing.now unreleased y after until end) }
{
    let class = held_class(unreleased);
    let title = "held by a lease";
    push_stretch(text, drawing, class, title, "3", "6", y, after, until, end)
}

/// The bar of a resource while its node does not own it.
fn push_wait(
    text: &mut String,
    drawing: &Drawing,
    unreleased: bool,
    y: u64,
    after: u64,
    until: u64,
    end: u64,
) -> Result<(), AllocError>
    ensures { OnOk result (string_bytes text.new ≡ string_bytes text.old
        ++ wait_text drawing.now unreleased y after until end) }
{
    let class = wait_class(unreleased);
    let title = "waits, but where a lease holds it,";
    push_stretch(text, drawing, class, title, "5", "10", y, after, until, end)
}

/// Where a resource was released, or the arrow of one that is not.
fn push_release(
    text: &mut String,
    drawing: &Drawing,
    unreleased: bool,
    y: u64,
    taken: u64,
) -> Result<(), AllocError>
    ensures { OnOk result (string_bytes text.new ≡ string_bytes text.old
        ++ release_text drawing.now unreleased y taken) }
{
    let x = x_of(drawing, taken);
    if unreleased {
        return push_arrow(text, x, y);
    }
    push_mark(text, "mark", "m4 0l4 5l8 -10", "released", x, y, taken)
}

/// Whether what is drawn is a resource that none of so many events hands out, or a lease that none
/// returns.
fn is_leaking(end: u64, shape: Shape) -> bool
    ensures { result ≡ is_leaking end shape }
{
    match shape {
        Shape::Node { .. } => false,
        Shape::Hub => false,
        Shape::Resource { taken, .. } => taken == end,
        Shape::Loan { until, .. } => until == end,
    }
}

/// What is drawn in a track.
fn push_shape(
    text: &mut String,
    drawing: &Drawing,
    unreleased: bool,
    y: u64,
    n: u64,
    end: u64,
    shape: Shape,
) -> Result<(), AllocError>
    ensures { OnOk result (string_bytes text.new ≡ string_bytes text.old
        ++ shape_text drawing.now unreleased y n end shape) }
{
    match shape {
        Shape::Node { until, ending } => push_life(text, drawing, y, n, until, end, ending),
        Shape::Hub => {
            let from = x_of(drawing, n);
            let to = x_of(drawing, end);
            push_line(text, "hub", "a hub", from, to, y, n, end, end)
        }
        Shape::Resource {
            owned_after,
            owned_until,
            taken,
        } => {
            push_wait(text, drawing, unreleased, y, n, owned_after, end)?;
            push_wait(text, drawing, unreleased, y, owned_until, taken, end)?;
            push_owned(text, drawing, unreleased, y, owned_after, owned_until, end)?;
            push_release(text, drawing, unreleased, y, taken)
        }
        Shape::Loan { until, .. } => {
            if !has_column(drawing, n) {
                return Ok(());
            }
            push_loan(text, drawing, unreleased, y, n, until, end)
        }
    }
}

/// The grid and the label of a row that has a track of its own.
fn push_row_head(
    text: &mut String,
    names: Names<'_>,
    drawing: &Drawing,
    unreleased: bool,
    n: u64,
    end: u64,
    made: Event,
) -> Result<(), AllocError>
    ensures { OnOk result (string_bytes text.new ≡ string_bytes text.old
        ++ row_head drawing.now unreleased n end (name_in_object (view names.entry.object.now) n) made) }
{
    match made {
        Event::Lease(_) => Ok(()),
        _ => {
            let x = x_of(drawing, n);
            let y = y_of(drawing, n);
            push_grid(text, x, y, x_of(drawing, end))?;
            push_label(text, label_class(unreleased), names, x, y, n, made)
        }
    }
}

/// The number in whose track the row lies.
fn track_of(n: u64, made: Event) -> u64
    ensures { result ≡ track_of n made }
{
    match made {
        Event::Lease(r) => r,
        _ => n,
    }
}

/// One row.
#[tactic(auto, unfolding(crate::specs::Track::row_text))]
pub fn push_row(
    text: &mut String,
    names: Names<'_>,
    drawing: &Drawing,
    end: u64,
    row: Row,
) -> Result<(), AllocError>
    ensures { OnOk result (string_bytes text.new ≡ string_bytes text.old
        ++ row_text drawing.now (name_in_object (view names.entry.object.now)) end row) }
{
    let unreleased = is_leaking(end, row.shape);
    push_row_head(text, names, drawing, unreleased, row.number, end, row.made)?;
    let y = y_of(drawing, track_of(row.number, row.made));
    push_shape(text, drawing, unreleased, y, row.number, end, row.shape)
}

/// A mark in the track of a number, if it has one.
fn push_in_track(
    text: &mut String,
    drawing: &Drawing,
    n: u64,
    place: u64,
    class: &'static str,
    shape: &'static str,
    title: &'static str,
) -> Result<(), AllocError>
    ensures { OnOk result (string_bytes text.new ≡ string_bytes text.old
        ++ in_track_text drawing.now n place class.now shape.now title.now) }
{
    if !has_track(drawing, n) {
        return Ok(());
    }
    let x = x_of(drawing, place);
    let y = y_of(drawing, n);
    push_mark(text, class, shape, title, x, y, place)
}

/// An item at the leaf that emits it; a root has its value already.
fn push_emitted(
    text: &mut String,
    drawing: &Drawing,
    n: u64,
    place: u64,
    value: i64,
) -> Result<(), AllocError>
    ensures { OnOk result (string_bytes text.new ≡ string_bytes text.old ++ emitted_text drawing.now n place value) }
{
    let dot = "m-3 0a3 3 0 1 0 6 0a3 3 0 1 0 -6 0z";
    push_in_track(text, drawing, n, place, "full", dot, "emitted")?;
    if has_track(drawing, n) && !is_root_of(drawing, n) {
        let x = x_of(drawing, place);
        let y = y_of(drawing, n);
        return push_above(text, x, y, value);
    }
    Ok(())
}

/// What an event did in a track.
fn push_done(
    text: &mut String,
    drawing: &Drawing,
    place: u64,
    event: Event,
) -> Result<(), AllocError>
    ensures { OnOk result (string_bytes text.new ≡ string_bytes text.old ++ done_text drawing.now place event) }
{
    match event {
        Event::Item(n, value) => push_emitted(text, drawing, n, place, value),
        Event::Decline(f) => {
            let struck = "m-7 0l7 -7l7 7l-7 7zm1 6l12 -12";
            push_in_track(text, drawing, f, place, "marble", struck, "declined")
        }
        Event::Connect(g) => {
            let square = "m-4 -4h8v8h-8z";
            push_in_track(text, drawing, g, place, "full", square, "connected")
        }
        Event::Use(r) => push_in_track(text, drawing, r, place, "tick", "m0 -10v20", "used"),
        _ => Ok(()),
    }
}

/// What the event of a place did in a track.
#[tactic(auto, unfolding(crate::specs::Track::tick_text))]
pub fn push_tick(text: &mut String, drawing: &Drawing, point: Point) -> Result<(), AllocError>
    ensures { OnOk result (string_bytes text.new ≡ string_bytes text.old ++ tick_text drawing.now point) }
{
    push_done(text, drawing, point.place, point.event)
}

/// A marble.
#[tactic(auto, unfolding(crate::specs::Track::note_marble))]
pub fn push_told(text: &mut String, drawing: &Drawing, mail: Mail) -> Result<(), AllocError>
    ensures { OnOk result (string_bytes text.new ≡ string_bytes text.old ++ note_marble drawing.now mail) }
{
    let x = x_of(drawing, mail.place);
    let y = y_of(drawing, mail.to);
    push_marble(text, x, y, mail.place, mail.to, mail.note)
}
