//! The legend of a picture, written behind a text.

ghost use Rattle.std.specs.Prelude.{◌≡◌, ◌++◌, ◌≤◌, string_bytes, OnOk};
ghost use Rattle.rx_svg.specs.Stroke.{sign_text, key_text};
ghost use Rattle.rx_svg.specs.Page.{nodes_legend, others_legend, items_legend, resources_legend, legend_text};

use crate::pieces::put;
use std::alloc::AllocError;

/// A short line.
const LINE: &str = "m-10 0h20";

/// A short bar.
const BAR: &str = "m-10 -5h20v10h-20z";

/// A sign.
#[tactic(auto, unfolding(crate::specs::Stroke::sign_text, crate::specs::Parts::text_of))]
fn push_sign(
    text: &mut String,
    class: &'static str,
    shape: &'static str,
    x: u64,
    y: u64,
) -> Result<(), AllocError>
    ensures { OnOk result (string_bytes text.new ≡ string_bytes text.old ++ sign_text class.now shape.now x y) }
{
    put!(text; "<path class=\"" class "\" d=\"M" [x] " " [y] shape "\"></path>\n")
}

/// A sign, and what it means.
#[tactic(auto, unfolding(crate::specs::Stroke::key_text, crate::specs::Stroke::meaning_text, crate::specs::Parts::text_of))]
fn push_key(
    text: &mut String,
    class: &'static str,
    shape: &'static str,
    meaning: &'static str,
    x: u64,
    y: u64,
) -> Result<(), AllocError>
    ensures { OnOk result (string_bytes text.new ≡ string_bytes text.old
        ++ key_text class.now shape.now meaning.now x y) }
{
    push_sign(text, class, shape, x, y)?;
    put!(text; "<text x=\"" [x] "\" y=\"" [y] "\" dx=\"22\" dy=\"4\">" meaning "</text>\n")
}

/// How nodes begin and end.
fn push_nodes(text: &mut String, x: u64, y: u64) -> Result<(), AllocError>
    requires { y ≤ 20000 }
    ensures { OnOk result (string_bytes text.new ≡ string_bytes text.old ++ nodes_legend x y) }
{
    push_key(text, "life", LINE, "open", x, y)?;
    push_key(text, "mark", "m0 -8v16", "completed", x, y + 18)?;
    push_key(
        text,
        "mark",
        "m-6 -6l12 12m0 -12l-12 12",
        "error",
        x,
        y + 36,
    )?;
    push_key(
        text,
        "mark",
        "m-5 8l6 -16m4 0l-6 16",
        "unsubscribed",
        x,
        y + 54,
    )?;
    push_key(text, "hub", LINE, "hub", x, y + 72)?;
    push_key(text, "full", "m-4 -4h8v8h-8z", "connected", x, y + 90)?;
    Ok(())
}

/// What a FlatMap or Switch is to project, and what may not follow.
fn push_others(text: &mut String, x: u64, y: u64) -> Result<(), AllocError>
    requires { y ≤ 20000 }
    ensures { OnOk result (string_bytes text.new ≡ string_bytes text.old ++ others_legend x y) }
{
    let diamond = "m-7 0l7 -7l7 7l-7 7z";
    let struck = "m-7 0l7 -7l7 7l-7 7zm1 6l12 -12";
    push_key(text, "marble", diamond, "item to project", x, y)?;
    push_key(text, "marble", struck, "item declined", x, y + 18)?;
    push_key(text, "broken", "m0 -8v16", "unlawful from here", x, y + 36)?;
    Ok(())
}

/// What is emitted and received.
fn push_items(text: &mut String, x: u64, y: u64) -> Result<(), AllocError>
    requires { y ≤ 20000 }
    ensures { OnOk result (string_bytes text.new ≡ string_bytes text.old ++ items_legend x y) }
{
    let dot = "m-3 0a3 3 0 1 0 6 0a3 3 0 1 0 -6 0z";
    let ring = "m-6 0a6 6 0 1 0 12 0a6 6 0 1 0 -12 0z";
    push_key(text, "full", dot, "item emitted", x, y)?;
    push_key(text, "marble", ring, "item received", x, y + 18)?;
    push_key(text, "marble", "m-5 -3h10l-5 6z", "end received", x, y + 36)?;
    Ok(())
}

/// How resources are held and released.
fn push_resources(text: &mut String, x: u64, y: u64) -> Result<(), AllocError>
    requires { y ≤ 20000 }
    ensures { OnOk result (string_bytes text.new ≡ string_bytes text.old ++ resources_legend x y) }
{
    push_key(text, "held", BAR, "resource held", x, y)?;
    push_key(text, "held", "m-10 -3h20v6h-20z", "lease", x, y + 18)?;
    push_sign(text, "held", BAR, x, y + 36)?;
    push_key(text, "tick", "m0 -10v20", "resource used", x, y + 36)?;
    push_key(text, "waiting", BAR, "waits for release", x, y + 54)?;
    push_key(text, "mark", "m4 0l4 5l8 -10", "released", x, y + 72)?;
    push_key(
        text,
        "arrow unreleased",
        "m0 -9l15 9l-15 9z",
        "not released at the end",
        x,
        y + 90,
    )?;
    Ok(())
}

/// The legend, from this height on, in two columns.
#[tactic(auto, unfolding(crate::specs::Page::legend_text))]
pub fn push_legend(text: &mut String, y: u64) -> Result<(), AllocError>
    requires { y ≤ 19000 }
    ensures { OnOk result (string_bytes text.new ≡ string_bytes text.old ++ legend_text y) }
{
    push_nodes(text, 20, y)?;
    push_others(text, 20, y + 108)?;
    push_items(text, 190, y)?;
    push_resources(text, 190, y + 54)
}
