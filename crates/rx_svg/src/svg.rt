//! A drawing as an SVG document, with the verdict of the audit.

ghost use Rattle.std.specs.Prelude.{◌≡◌, ◌+◌, ◌++◌, ◌≤◌, string_bytes, OnOk, IfOk, flat_map};
ghost use Rattle.serde_json.specs.Data.{null};
ghost use Rattle.serde_json.specs.View.{view};
ghost use Rattle.rx_dump.specs.Names.{name_in_object};
ghost use Rattle.rx_svg.specs.Track.{row_text, tick_text, note_marble};
ghost use Rattle.rx_svg.specs.Page.{tracks_shown, places_shown, head_text, is_numbered, number_above, point_text, legend_front, lawful_text};
ghost use Rattle.rx_svg.specs.Page.{verdict_label, unreleased_words, unreleased_text, unreleased_class};
ghost use Rattle.rx_svg.specs.Page.{break_text, verdict_line, unreleased_line, shares_line, under_text, tracks_text, svg_text, IsPicture};

use crate::legend::push_legend;
use crate::pieces::put;
use crate::strokes::{push_axis, push_broken, push_column};
use crate::tracks::{push_row, push_tick, push_told, value_at, x_of};
use crate::width::width;
use rx_audit::{Verdict, audit};
use rx_dump::Names;
use rx_event::{Event, Mail};
use rx_picture::{Drawing, Point, Row, draw};
use serde_json::Value;
use std::alloc::{AllocError, Global};

/// How the marks look, on a bright page and on a dark one.
const STYLE: &str =
    "<style>svg{background:#fff}text{font:12px monospace;fill:#222;pointer-events:none}\
    .axis,.value{font-family:sans-serif;text-anchor:middle}.value{letter-spacing:-.4px}\
    .label{paint-order:stroke;stroke:#fff;stroke-width:3}\
    path{stroke:#222;stroke-width:2;fill:none}.place{stroke:none;pointer-events:all}\
    .grid{stroke:#ddd;stroke-width:26;stroke-dasharray:1 21;pointer-events:none}.hub{stroke-dasharray:2 4}\
    .held,.full{fill:#222}.waiting{fill:#fff;stroke-dasharray:3 3}.marble{fill:#fff}\
    path.unreleased{stroke:#b45309}text.unreleased,.held.unreleased,.arrow{fill:#b45309}\
    .tick{stroke:#fff}.broken{stroke-width:5;stroke-dasharray:9 5}\
    @media(prefers-color-scheme:dark){svg{background:#111}text{fill:#eee}path{stroke:#eee}\
    .label{stroke:#111}.grid{stroke:#333}.held,.full{fill:#eee}.waiting,.marble{fill:#111}.tick{stroke:#111}\
    path.unreleased{stroke:#fbbf24}text.unreleased,.held.unreleased,.arrow{fill:#fbbf24}}</style>\n";

/// How many tracks are shown, of so many events.
fn tracks_shown(drawing: &Drawing, end: u64) -> u64
    ensures value { result ≡ tracks_shown drawing.now end }
    ensures few { result ≤ 200 }
{
    value_at(&drawing.tracks, end).min(200) as u64
}

/// How many places are shown, of so many events.
fn places_shown(drawing: &Drawing, end: u64) -> u64
    ensures { result ≡ places_shown drawing.now end }
{
    value_at(&drawing.columns, end).min(2000) as u64
}

/// The head of the document, which is so wide and so high.
#[tactic(auto, unfolding(crate::specs::Page::head_text, crate::specs::Parts::text_of))]
fn push_head(text: &mut String, width: u64, height: u64) -> Result<(), AllocError>
    ensures { OnOk result (string_bytes text.new ≡ string_bytes text.old ++ head_text width height) }
{
    put!(text;
        "<svg xmlns=\"http://www.w3.org/2000/svg\" width=\"" [width] "\" height=\"" [height]
        "\" viewBox=\"0 0 " [width] " " [height] "\">\n" STYLE
    )
}

/// Whether a number stands above the place.
fn is_numbered(drawing: &Drawing, place: u64) -> bool
    ensures { result ≡ is_numbered drawing.now place }
{
    place < 100 || value_at(&drawing.columns, place) % 5 == 0
}

/// The number above a place, if it has one.
fn push_number(text: &mut String, drawing: &Drawing, place: u64) -> Result<(), AllocError>
    ensures { OnOk result (string_bytes text.new ≡ string_bytes text.old ++ number_above drawing.now place) }
{
    if is_numbered(drawing, place) {
        return push_axis(text, x_of(drawing, place), place);
    }
    Ok(())
}

/// The column of a place.
#[tactic(auto, unfolding(crate::specs::Page::point_text))]
fn push_point(
    text: &mut String,
    drawing: &Drawing,
    height: u64,
    point: Point,
) -> Result<(), AllocError>
    ensures { OnOk result (string_bytes text.new ≡ string_bytes text.old ++ point_text drawing.now height point) }
{
    let x = x_of(drawing, point.place);
    push_column(text, x, height, point.place, point.event)?;
    push_number(text, drawing, point.place)
}

/// The columns of all places.
fn push_points(
    text: &mut String,
    drawing: &Drawing,
    height: u64,
    points: &[Point],
) -> Result<(), AllocError>
    ensures { OnOk result (string_bytes text.new ≡ string_bytes text.old
        ++ flat_map (point_text drawing.now height) points.now) }
{
    for point in points {
        push_point(text, drawing, height, *point)?;
    }
    Ok(())
}

/// All rows.
fn push_rows(
    text: &mut String,
    names: Names<'_>,
    drawing: &Drawing,
    end: u64,
    rows: &[Row],
) -> Result<(), AllocError>
    ensures { OnOk result (string_bytes text.new ≡ string_bytes text.old
        ++ flat_map (row_text drawing.now (name_in_object (view names.entry.object.now)) end) rows.now) }
{
    for row in rows {
        push_row(text, names, drawing, end, *row)?;
    }
    Ok(())
}

/// All ticks.
fn push_ticks(text: &mut String, drawing: &Drawing, points: &[Point]) -> Result<(), AllocError>
    ensures { OnOk result (string_bytes text.new ≡ string_bytes text.old
        ++ flat_map (tick_text drawing.now) points.now) }
{
    for point in points {
        push_tick(text, drawing, *point)?;
    }
    Ok(())
}

/// All marbles.
fn push_marbles(text: &mut String, drawing: &Drawing, marbles: &[Mail]) -> Result<(), AllocError>
    ensures { OnOk result (string_bytes text.new ≡ string_bytes text.old
        ++ flat_map (note_marble drawing.now) marbles.now) }
{
    for mail in marbles {
        push_told(text, drawing, *mail)?;
    }
    Ok(())
}

/// The front of a line of text of this class under the tracks.
#[tactic(auto, unfolding(crate::specs::Page::legend_front, crate::specs::Parts::text_of))]
fn push_below(text: &mut String, class: &'static str, y: u64) -> Result<(), AllocError>
    ensures { OnOk result (string_bytes text.new ≡ string_bytes text.old ++ legend_front class.now y) }
{
    put!(text; "<text class=\"" class "\" x=\"10\" y=\"" [y] "\">")
}

/// How much a lawful history leaves.
#[tactic(auto, unfolding(crate::specs::Page::lawful_text, crate::specs::Parts::text_of))]
fn push_lawful(text: &mut String, live: u64, held: u64, waiting: u64) -> Result<(), AllocError>
    ensures { OnOk result (string_bytes text.new ≡ string_bytes text.old ++ lawful_text live held waiting) }
{
    put!(text; "lawful; at the end " [live] " open, " [held] " held, " [waiting] " waiting")
}

/// The verdict.
#[tactic(auto, unfolding(crate::specs::Page::unsettled_text, crate::specs::Page::unlawful_text, crate::specs::Parts::text_of))]
fn push_verdict(text: &mut String, verdict: &Verdict) -> Result<(), AllocError>
    ensures { OnOk result (string_bytes text.new ≡ string_bytes text.old ++ verdict_label verdict.now) }
{
    match verdict {
        Verdict::Lawful {
            live,
            held,
            waiting,
        } => push_lawful(
            text,
            live.len() as u64,
            held.len() as u64,
            waiting.len() as u64,
        ),
        Verdict::Unlawful { place } => {
            put!(text; "unlawful: event " [*place] " may not follow those before it")
        }
        Verdict::Unsettled => text.push_str("unsettled: an operator has something left to do"),
    }
}

/// What stands behind the number of resources that are not released.
fn unreleased_words(n: u64) -> &'static str
    ensures { result.now ≡ unreleased_words n }
{
    if n == 1 {
        " resource not released at the end"
    } else {
        " resources not released at the end"
    }
}

/// How many resources are not released, if any is not.
#[tactic(auto, unfolding(crate::specs::Page::count_text, crate::specs::Parts::text_of))]
fn push_unreleased(text: &mut String, n: u64) -> Result<(), AllocError>
    ensures { OnOk result (string_bytes text.new ≡ string_bytes text.old ++ unreleased_text n) }
{
    if n == 0 {
        return text.push_str("all resources released");
    }
    let words = unreleased_words(n);
    put!(text; [n] words)
}

/// The class of the line about them.
fn unreleased_class(n: u64) -> &'static str
    ensures { result.now ≡ unreleased_class n }
{
    if n == 0 { "under" } else { "unreleased" }
}

/// The line through all tracks, where an event may not stand where it does.
fn push_break(
    text: &mut String,
    drawing: &Drawing,
    height: u64,
    verdict: &Verdict,
) -> Result<(), AllocError>
    ensures { OnOk result (string_bytes text.new ≡ string_bytes text.old ++ break_text drawing.now height verdict.now) }
{
    match verdict {
        Verdict::Unlawful { place } => push_broken(text, x_of(drawing, *place), height, *place),
        Verdict::Lawful { .. } | Verdict::Unsettled => Ok(()),
    }
}

/// The line of the verdict under the tracks, which are so high.
#[tactic(auto, unfolding(crate::specs::Page::verdict_line))]
fn push_verdict_line(text: &mut String, height: u64, verdict: &Verdict) -> Result<(), AllocError>
    requires { height ≤ 10000 }
    ensures { OnOk result (string_bytes text.new ≡ string_bytes text.old ++ verdict_line height verdict.now) }
{
    push_below(text, "under", height + 46)?;
    push_verdict(text, verdict)?;
    text.push_str("</text>\n")
}

/// The line about the resources that are not released.
#[tactic(auto, unfolding(crate::specs::Page::unreleased_line))]
fn push_unreleased_line(text: &mut String, height: u64, n: u64) -> Result<(), AllocError>
    requires { height ≤ 10000 }
    ensures { OnOk result (string_bytes text.new ≡ string_bytes text.old ++ unreleased_line height n) }
{
    push_below(text, unreleased_class(n), height + 64)?;
    push_unreleased(text, n)?;
    text.push_str("</text>\n")
}

/// The line about how much is drawn.
#[tactic(auto, unfolding(crate::specs::Page::shares_line, crate::specs::Page::shares_text, crate::specs::Parts::text_of))]
fn push_shares_line(
    text: &mut String,
    drawing: &Drawing,
    end: u64,
    height: u64,
) -> Result<(), AllocError>
    requires { height ≤ 10000 }
    ensures { OnOk result (string_bytes text.new ≡ string_bytes text.old ++ shares_line drawing.now end height) }
{
    push_below(text, "under", height + 82)?;
    let tracks = tracks_shown(drawing, end);
    let places = places_shown(drawing, end);
    put!(text;
        [tracks] " of " [drawing.all as u64] " tracks and " [places] " of " [end] " places are drawn"
    )?;
    text.push_str("</text>\n")
}

/// What stands under the tracks, which are so high.
#[tactic(auto, unfolding(crate::specs::Page::under_text))]
fn push_under(
    text: &mut String,
    drawing: &Drawing,
    end: u64,
    height: u64,
    verdict: &Verdict,
) -> Result<(), AllocError>
    requires { height ≤ 10000 }
    ensures { OnOk result (string_bytes text.new ≡ string_bytes text.old
        ++ under_text drawing.now end height verdict.now) }
{
    push_verdict_line(text, height, verdict)?;
    push_unreleased_line(text, height, drawing.leaks.len() as u64)?;
    push_shares_line(text, drawing, end, height)?;
    push_legend(text, height + 106)
}

/// What stands in the tracks, which are so high.
#[tactic(auto, unfolding(crate::specs::Page::tracks_text))]
fn push_tracks(
    text: &mut String,
    names: Names<'_>,
    drawing: &Drawing,
    end: u64,
    height: u64,
    verdict: &Verdict,
) -> Result<(), AllocError>
    ensures { OnOk result (string_bytes text.new ≡ string_bytes text.old
        ++ tracks_text drawing.now (name_in_object (view names.entry.object.now)) end height verdict.now) }
{
    push_points(text, drawing, height, drawing.points.as_slice())?;
    push_break(text, drawing, height, verdict)?;
    push_rows(text, names, drawing, end, drawing.rows.as_slice())?;
    push_marbles(text, drawing, drawing.marbles.as_slice())?;
    push_ticks(text, drawing, drawing.points.as_slice())
}

/// The document of the drawing of so many events, with the verdict on them.
#[tactic(auto, unfolding(crate::specs::Page::svg_text))]
fn push_svg(
    text: &mut String,
    names: Names<'_>,
    drawing: &Drawing,
    end: u64,
    verdict: &Verdict,
) -> Result<(), AllocError>
    ensures { OnOk result (string_bytes text.new ≡ string_bytes text.old
        ++ svg_text drawing.now (name_in_object (view names.entry.object.now)) end verdict.now) }
{
    let height = 4 + 44 * tracks_shown(drawing, end);
    let wide = width(names, drawing, end, drawing.rows.as_slice())?;
    push_head(text, wide, height + 264)?;
    push_tracks(text, names, drawing, end, height, verdict)?;
    push_under(text, drawing, end, height, verdict)?;
    text.push_str("</svg>\n")
}

/// The picture of the events, which need not be lawful, with the verdict of the audit, as a well-formed
/// SVG document. Behind a number that has a track stands its name, if the object `names` leads to a text
/// from the number, written as a decimal; any other value has no names.
/// The error comes where memory is refused, and for more events than `rx_audit` judges.
pub fn named_picture(alloc: Global, events: &[Event], names: &Value) -> Result<String, AllocError>
    ensures { IfOk result (λ s. IsPicture events.now (name_in_object (view names.now)) (string_bytes s)) }
{
    let drawing = draw(alloc, events)?;
    let Ok(verdict) = audit(alloc, events) else {
        return Err(AllocError);
    };
    let called = Names {
        alloc,
        object: names,
    };
    let mut text = String::new(alloc);
    push_svg(&mut text, called, &drawing, events.len() as u64, &verdict)?;
    Ok(text)
}

/// [`named_picture`] with no names.
pub fn picture(alloc: Global, events: &[Event]) -> Result<String, AllocError>
    ensures { IfOk result (λ s. IsPicture events.now (name_in_object null) (string_bytes s)) }
{
    let none = Value::Null;
    named_picture(alloc, events, &none)
}
