//! The elements of a picture, each written behind a text.

ghost use Rattle.std.specs.Prelude.{◌≡◌, ◌++◌, string_bytes, OnOk};
ghost use Rattle.rx_svg.specs.Stroke.{until_text, stretch_end, line_text, bar_text};
ghost use Rattle.rx_svg.specs.Stroke.{mark_text, code_text, arrow_text, marble_shape, above_text, value_text};
ghost use Rattle.rx_svg.specs.Stroke.{marble_front, by_text, marble_text, column_text, axis_text, grid_text, broken_text};

use crate::labels::{push_event, push_note};
use crate::pieces::put;
use rx_event::Event;
use rx_note::Note;
use std::alloc::AllocError;

/// Up to where a stretch goes, of a history with so many events.
#[tactic(auto, unfolding(crate::specs::Stroke::until_text, crate::specs::Parts::text_of))]
fn push_until(text: &mut String, until: u64, end: u64) -> Result<(), AllocError>
    ensures { OnOk result (string_bytes text.new ≡ string_bytes text.old ++ until_text until end) }
{
    if until == end {
        return text.push_str(" on");
    }
    put!(text; ", until event " [until])
}

/// How the element of a stretch ends.
#[tactic(auto, unfolding(crate::specs::Stroke::stretch_end))]
fn push_stretch_end(text: &mut String, until: u64, end: u64) -> Result<(), AllocError>
    ensures { OnOk result (string_bytes text.new ≡ string_bytes text.old ++ stretch_end until end) }
{
    push_until(text, until, end)?;
    text.push_str("</title></path>\n")
}

/// A line between two places.
#[tactic(auto, unfolding(crate::specs::Stroke::line_text, crate::specs::Stroke::line_front, crate::specs::Parts::text_of))]
pub fn push_line(
    text: &mut String,
    class: &'static str,
    title: &'static str,
    from: u64,
    to: u64,
    y: u64,
    after: u64,
    until: u64,
    end: u64,
) -> Result<(), AllocError>
    ensures { OnOk result (string_bytes text.new ≡ string_bytes text.old
        ++ line_text class.now title.now (record { from = from; to = to; y = y; after = after; until = until; end = end })) }
{
    put!(text;
        "<path class=\"" class "\" d=\"M" [from] " " [y] "H" [to] "\"><title>" title " from event "
        [after]
    )?;
    push_stretch_end(text, until, end)
}

/// A bar between two places, so high above its middle and so high in all.
#[tactic(auto, unfolding(crate::specs::Stroke::bar_text, crate::specs::Stroke::bar_front, crate::specs::Parts::text_of))]
pub fn push_bar(
    text: &mut String,
    class: &'static str,
    title: &'static str,
    above: &'static str,
    height: &'static str,
    from: u64,
    to: u64,
    y: u64,
    after: u64,
    until: u64,
    end: u64,
) -> Result<(), AllocError>
    ensures { OnOk result (string_bytes text.new ≡ string_bytes text.old
        ++ bar_text (record { class = class.now; title = title.now; above = above.now; height = height.now })
        (record { from = from; to = to; y = y; after = after; until = until; end = end })) }
{
    put!(text;
        "<path class=\"" class "\" d=\"M" [from] " " [y] "m0 -" above "H" [to] "v" height "H" [from]
        "z\"><title>" title " from event " [after]
    )?;
    push_stretch_end(text, until, end)
}

/// A mark of this shape, and what its event did.
#[tactic(auto, unfolding(crate::specs::Stroke::mark_text, crate::specs::Parts::text_of))]
pub fn push_mark(
    text: &mut String,
    class: &'static str,
    shape: &'static str,
    title: &'static str,
    x: u64,
    y: u64,
    at: u64,
) -> Result<(), AllocError>
    ensures { OnOk result (string_bytes text.new ≡ string_bytes text.old
        ++ mark_text class.now shape.now title.now x y at) }
{
    put!(text;
        "<path class=\"" class "\" d=\"M" [x] " " [y] shape "\"><title>" title " by event " [at]
        "</title></path>\n"
    )
}

/// The code of an error, beside its cross.
#[tactic(auto, unfolding(crate::specs::Stroke::code_text, crate::specs::Parts::text_of))]
pub fn push_code(text: &mut String, x: u64, y: u64, code: u64) -> Result<(), AllocError>
    ensures { OnOk result (string_bytes text.new ≡ string_bytes text.old ++ code_text x y code) }
{
    put!(text; "<text x=\"" [x] "\" y=\"" [y] "\" dx=\"10\" dy=\"4\">" [code] "</text>\n")
}

/// The arrow of a resource that is not released at the end.
#[tactic(auto, unfolding(crate::specs::Stroke::arrow_text, crate::specs::Parts::text_of))]
pub fn push_arrow(text: &mut String, x: u64, y: u64) -> Result<(), AllocError>
    ensures { OnOk result (string_bytes text.new ≡ string_bytes text.old ++ arrow_text x y) }
{
    put!(text;
        "<path class=\"arrow unreleased\" d=\"M" [x] " " [y] "m0 -9l15 9l-15 9z"
        "\"><title>not released at the end</title></path>\n"
    )
}

/// A circle for an item, a diamond for one that is to be projected, a flag for an end.
fn marble_shape(note: Note) -> &'static str
    ensures { result.now ≡ marble_shape note }
{
    match note {
        Note::Next(_) => "m-6 0a6 6 0 1 0 12 0a6 6 0 1 0 -12 0z",
        Note::Project(_) => "m-7 0l7 -7l7 7l-7 7z",
        Note::End(_) => "m-5 -15h10l-5 6z",
    }
}

/// A value above a sign.
#[tactic(auto, unfolding(crate::specs::Stroke::above_text, crate::specs::Parts::text_of))]
pub fn push_above(text: &mut String, x: u64, y: u64, value: i64) -> Result<(), AllocError>
    ensures { OnOk result (string_bytes text.new ≡ string_bytes text.old ++ above_text x y value) }
{
    put!(text; "<text class=\"value\" x=\"" [x] "\" y=\"" [y] "\" dy=\"-9\">" (value) "</text>\n")
}

/// The value above a marble, if it has one.
fn push_value(text: &mut String, x: u64, y: u64, note: Note) -> Result<(), AllocError>
    ensures { OnOk result (string_bytes text.new ≡ string_bytes text.old ++ value_text x y note) }
{
    match note {
        Note::Next(value) => push_above(text, x, y, value),
        Note::Project(value) => push_above(text, x, y, value),
        Note::End(_) => Ok(()),
    }
}

/// The front of a marble, up to what was told.
#[tactic(auto, unfolding(crate::specs::Stroke::marble_front, crate::specs::Parts::text_of))]
fn push_marble_front(
    text: &mut String,
    x: u64,
    y: u64,
    to: u64,
    shape: &'static str,
) -> Result<(), AllocError>
    ensures { OnOk result (string_bytes text.new ≡ string_bytes text.old ++ marble_front x y to shape.now) }
{
    put!(text; "<path class=\"marble\" d=\"M" [x] " " [y] shape "\"><title>" [to] " was told")
}

/// The event of a marble.
#[tactic(auto, unfolding(crate::specs::Stroke::by_text, crate::specs::Parts::text_of))]
fn push_by(text: &mut String, at: u64) -> Result<(), AllocError>
    ensures { OnOk result (string_bytes text.new ≡ string_bytes text.old ++ by_text at) }
{
    put!(text; " by event " [at] "</title></path>\n")
}

/// What a node was told by an event.
#[tactic(auto, unfolding(crate::specs::Stroke::marble_text))]
pub fn push_marble(
    text: &mut String,
    x: u64,
    y: u64,
    at: u64,
    to: u64,
    note: Note,
) -> Result<(), AllocError>
    ensures { OnOk result (string_bytes text.new ≡ string_bytes text.old ++ marble_text x y at to note) }
{
    let shape = marble_shape(note);
    push_marble_front(text, x, y, to, shape)?;
    push_note(text, note)?;
    push_by(text, at)?;
    push_value(text, x, y, note)
}

/// The column of a place, so high.
#[tactic(auto, unfolding(crate::specs::Stroke::column_text, crate::specs::Stroke::column_front, crate::specs::Parts::text_of))]
pub fn push_column(
    text: &mut String,
    x: u64,
    height: u64,
    place: u64,
    event: Event,
) -> Result<(), AllocError>
    ensures { OnOk result (string_bytes text.new ≡ string_bytes text.old ++ column_text x height place event) }
{
    put!(text;
        "<path class=\"place\" d=\"M" [x] " 20m-11 0h22v" [height] "h-22z\"><title>" [place] ":"
    )?;
    push_event(text, event)?;
    text.push_str("</title></path>\n")
}

/// The number of a place, above its column.
#[tactic(auto, unfolding(crate::specs::Stroke::axis_text, crate::specs::Parts::text_of))]
pub fn push_axis(text: &mut String, x: u64, place: u64) -> Result<(), AllocError>
    ensures { OnOk result (string_bytes text.new ≡ string_bytes text.old ++ axis_text x place) }
{
    put!(text; "<text class=\"axis\" x=\"" [x] "\" y=\"14\">" [place] "</text>\n")
}

/// The grid of a track.
#[tactic(auto, unfolding(crate::specs::Stroke::grid_text, crate::specs::Parts::text_of))]
pub fn push_grid(text: &mut String, x: u64, y: u64, to: u64) -> Result<(), AllocError>
    ensures { OnOk result (string_bytes text.new ≡ string_bytes text.old ++ grid_text x y to) }
{
    put!(text; "<path class=\"grid\" d=\"M" [x] " " [y] "m-11 0H" [to] "\"></path>\n")
}

/// The line through all tracks at the place whose event may not stand there.
#[tactic(auto, unfolding(crate::specs::Stroke::broken_text, crate::specs::Parts::text_of))]
pub fn push_broken(text: &mut String, x: u64, height: u64, place: u64) -> Result<(), AllocError>
    ensures { OnOk result (string_bytes text.new ≡ string_bytes text.old ++ broken_text x height place) }
{
    put!(text;
        "<path class=\"broken\" d=\"M" [x] " 20v" [height] "\"><title>unlawful: event " [place]
        "</title></path>\n"
    )
}
